//! The note of a token.
ghost use Rattle.std.specs.Prelude.{◌≡◌, ◌||◌, None, option_map};
ghost use Rattle.hum_pitch.specs.Given.{spelled};
ghost use Rattle.hum_tones.specs.Mint.{readings, or_tone, new_pitch};
ghost use Rattle.hum_tones.specs.Memory.{heard_of};
ghost use Rattle.hum_tones.specs.Hearing.{tone_of, heard_in, heard_by};

use crate::part_rule::rule_of;
use hum_kern::{Note, read_note};
use hum_pitch::Pitch;
use hum_record::{is_barline, is_filled};
use hum_stage::Rule;

/// A note of a token: its pitch, and whether its tie goes on or ends.
#[derive(Clone, Copy)]
pub(crate) struct Tone {
    pub pitch: Pitch,
    pub continued: bool,
}

/// What is heard of a token: its first note, and whether it has a rest.
#[derive(Clone, Copy)]
pub(crate) struct TokenTone {
    pub tone: Option<Tone>,
    pub rest: bool,
}

fn tone_of(note: Note) -> Option<Tone>
    ensures { option_map tone_of result
        ≡ or_tone (option_map spelled note.pitch) note.continued None }
{
    match note.pitch {
        Some(pitch) => Some(Tone {
            pitch,
            continued: note.continued,
        }),
        None => None,
    }
}

fn either(one: bool, other: bool) -> bool
    ensures { result ≡ (one || other) }
{
    one || other
}

impl TokenTone {
    ghost use Rattle.hum_kern.specs.Note.{reading};
    ghost use Rattle.hum_tones.specs.Hearing.{hearing, heard_with};

    /// What is heard of no part.
    pub(crate) const SILENCE: TokenTone = TokenTone {
        tone: None,
        rest: false,
    };

    /// What is heard with one part more.
    pub(crate) fn with(self, note: Note) -> TokenTone
        ensures { hearing result ≡ heard_with (hearing self) (reading note) }
    {
        TokenTone {
            tone: self.tone.or(tone_of(note)),
            rest: either(self.rest, note.rest),
        }
    }

    /// The pitch that is remembered: none where its tie goes on.
    pub(crate) fn new_pitch(self) -> Option<Pitch>
        ensures { option_map spelled result ≡ new_pitch (hearing self).tone }
    {
        match self.tone {
            Some(tone) => {
                if tone.continued {
                    None
                } else {
                    Some(tone.pitch)
                }
            }
            None => None,
        }
    }
}

/// What is heard of the parts of a token, or the rule by which one is refused.
fn hear_parts(token: &[u8]) -> Result<TokenTone, Rule>
    ensures { heard_by result ≡ heard_in (readings token.now) }
{
    let mut heard = TokenTone::SILENCE;
    for part in token.split(|b| *b == b' ') {
        match read_note(part) {
            Ok(note) => heard = heard.with(note),
            Err(fault) => return Err(rule_of(fault)),
        }
    }
    Ok(heard)
}

/// What is heard of a cell: nothing of a barline, nor of what is no data.
pub(crate) fn heard_of(token: &[u8]) -> Result<TokenTone, Rule>
    ensures { heard_by result ≡ heard_of token.now }
{
    if is_filled(token) && !is_barline(token) {
        return hear_parts(token);
    }
    Ok(TokenTone::SILENCE)
}
