//! The note before.
ghost use Rattle.std.specs.Prelude.{◌≡◌, ◌||◌, ◌&&◌, not, ℕ, true, false, List, None, Ok, option_map, OnOk};
ghost use Rattle.hum_score.specs.declared.records.SpinedKind.TheVariants.{Values};
ghost use Rattle.hum_record.specs.RecordDraft.{Holds};
ghost use Rattle.hum_stage.specs.Refusals.{IfTold};
ghost use Rattle.hum_cells.specs.Rewriter.{Pushes};
ghost use Rattle.hum_record.specs.Contents.{is_filled, is_data, is_null, is_barline};
ghost use Rattle.hum_kern.specs.Note.{reading};
ghost use Rattle.hum_kern.specs.Usual.{IsReadAlone};
ghost use Rattle.hum_tones.specs.Mint.{is_break, remembered_of};
ghost use Rattle.hum_tones.specs.Memory.{note_after, heard_of};
ghost use Rattle.hum_tones.specs.Hearing.{heard_by};
ghost use Rattle.hum_pitch.specs.Given.{spelled};

use crate::hearing::{TokenTone, heard_of};
use crate::interval_names::ShortName;
use crate::minting::{Approach, Naming, push_minted, short_minted};
use hum_choices::MintOptions;
use hum_kern::{Note, read_lone};
use hum_path::ColumnMemory;
use hum_pattern::{Pattern, is_matched};
use hum_pitch::Pitch;
use hum_record::{RecordDraft, is_barline, is_data, is_filled, is_null};
use hum_stage::{Refusal, Rule};
use std::alloc::{AllocError, Global};
use std::marker::Model;

/// Whether a filled token has a match of the pattern, if there is one.
fn is_break(breaks: &mut Option<Pattern>, token: &[u8]) -> bool
    requires { is_filled token.now ≡ true }
    ensures found { result ≡ is_break breaks.old token.now }
    ensures kept { breaks.new ≡ breaks.old }
{
    is_matched(breaks, token)
}

/// The pitch that is remembered of a cell, by what was heard of it.
fn remembered_of(heard: Result<TokenTone, Rule>) -> Option<Pitch>
    ensures { (token : List ℕ) → heard_by heard ≡ heard_of token
        → option_map spelled result ≡ remembered_of token }
{
    match heard {
        Ok(heard) => heard.new_pitch(),
        Err(_) => None,
    }
}

/// The note before the next cell, by the note before a cell and what was heard of it.
fn note_after(
    breaks: &mut Option<Pattern>,
    token: &[u8],
    heard: Result<TokenTone, Rule>,
    before: Option<Pitch>,
) -> Option<Pitch>
    requires { heard_by heard ≡ heard_of token.now }
    ensures note { option_map spelled result
        ≡ note_after breaks.old token.now (option_map spelled before) }
    ensures kept { breaks.new ≡ breaks.old }
{
    if is_filled(token) {
        if is_break(breaks, token) {
            return None;
        }
        return remembered_of(heard).or(before);
    }
    if token.starts_with(b"**") {
        None
    } else {
        before
    }
}

/// Whether a token is null or a barline.
fn is_silent(token: &[u8]) -> bool
    ensures { result ≡ (is_null token.now || is_barline token.now) }
{
    match token {
        [first] => *first == b'.' || *first == b'=',
        [first, ..] => *first == b'=',
        [] => false,
    }
}

/// Whether a cell is told: whether it is data that is neither null nor a barline.
fn is_told(token: &[u8]) -> bool
    ensures { result ≡ (is_filled token.now && not (is_barline token.now)) }
{
    is_filled(token) && !is_barline(token)
}

/// How the options name intervals.
fn naming(options: &MintOptions) -> Naming
    ensures { result ≡ record { signless = options.now.signless; sizeonly = options.now.sizeonly } }
{
    Naming {
        signless: options.signless,
        sizeonly: options.sizeonly,
    }
}

/// The last note of a column that is remembered, since the last break, and what its last cell becomes
/// that is told.
#[derive(Drop)]
pub struct LastNote {
    // what the last cell that is told becomes, where that is short
    name: Option<ShortName>,
    // else what it is made of
    approach: Approach,
    // the note before the next cell
    pitch: Option<Pitch>,
}

impl Model for LastNote {
    ghost use Rattle.std.specs.Prelude.{option_map};
    ghost use Rattle.hum_pitch.specs.Given.{spelled};
    ghost use Rattle.hum_tones.specs.Memory.{HeardColumn};
    ghost use Rattle.hum_tones.specs.Minted.{told_by};

    ghost Value = { HeardColumn };

    ghost view = { λ m. record {
      told = told_by m.name m.approach;
      note = option_map spelled m.pitch;
    } };
}

impl LastNote {
    ghost use Rattle.std.specs.Prelude.{if◌then◌else◌};
    ghost use Rattle.hum_tones.specs.Hearing.{hearing};
    ghost use Rattle.hum_tones.specs.Memory.{heard_after, told_as};

    /// What is told by what was heard, whatever it becomes.
    #[inline(never)]
    fn keep(&mut self, options: &MintOptions, heard: Result<TokenTone, Rule>)
        ensures { self.new ≡ record {
          told = told_as options.now.signless options.now.sizeonly self.old.note (heard_by heard);
          note = self.old.note;
        } }
    {
        self.name = None;
        self.approach = Approach {
            naming: naming(options),
            before: self.pitch,
            heard,
        };
    }

    /// The same, where what it becomes is mostly short.
    #[inline(always)]
    fn tell(&mut self, options: &MintOptions, heard: TokenTone)
        ensures { self.new ≡ record {
          told = told_as options.now.signless options.now.sizeonly self.old.note (Ok (hearing heard));
          note = self.old.note;
        } }
    {
        match short_minted(naming(options), self.pitch, heard) {
            Some(name) => self.name = Some(name),
            None => self.keep(options, Ok(heard)),
        }
    }

    /// The same of any cell, if it is told.
    fn keep_told(&mut self, options: &MintOptions, token: &[u8], heard: Result<TokenTone, Rule>)
        ensures { self.new ≡ record {
          told = if is_filled token.now && not (is_barline token.now)
              then told_as options.now.signless options.now.sizeonly self.old.note (heard_by heard)
              else self.old.told;
          note = self.old.note;
        } }
    {
        if !is_told(token) {
            return;
        }
        match heard {
            Ok(heard) => self.tell(options, heard),
            Err(rule) => self.keep(options, Err(rule)),
        }
    }

    /// Goes on with a null token or a barline, behind which no note is forgotten: nothing is told.
    fn hear_nothing(&self, _options: &MintOptions, _token: &[u8])
        requires whole { _options.now.breaks ≡ None }
        requires data { is_data _token.now ≡ true }
        requires silent { (is_null _token.now || is_barline _token.now) ≡ true }
        ensures { self.now ≡ heard_after _options.now _token.now self.now }
    {}

    /// Goes on with a note or a rest that is one subtoken, behind which no note is forgotten.
    #[inline(always)]
    fn hear_lone(&mut self, options: &MintOptions, token: &[u8], note: Note)
        requires whole { options.now.breaks ≡ None }
        requires data { is_data token.now ≡ true }
        requires told { (is_null token.now || is_barline token.now) ≡ false }
        requires read { IsReadAlone token.now (reading note) }
        ensures { self.new ≡ heard_after options.now token.now self.old }
    {
        let heard = TokenTone::SILENCE.with(note);
        self.tell(options, heard);
        if let Some(pitch) = heard.new_pitch() {
            self.pitch = Some(pitch);
        }
    }

    /// Goes on with any cell.
    fn hear_any(&mut self, options: &mut MintOptions, token: &[u8])
        ensures seen { self.new ≡ heard_after options.old token.now self.old }
        ensures kept { options.new ≡ options.old }
    {
        let heard = heard_of(token);
        let pitch = note_after(&mut options.breaks, token, heard, self.pitch);
        self.keep_told(options, token, heard);
        self.pitch = pitch;
    }

    /// Adds what the last cell becomes that is told, a data token, to a record in the making. Where its text
    /// has to be made, it is made in `text`.
    ///
    /// # Errors
    /// The rule by which it is refused; or out of memory.
    pub(crate) fn push(&self, text: &mut Vec<u8>, making: &mut RecordDraft) -> Result<(), Refusal>
        requires { making.old.builder.kind ≡ Values }
        ensures pushed { IfTold result (Pushes self.now.told
            (Holds Values making.old.builder making.old.is_long)
            (Holds Values making.new.builder making.new.is_long)) }
        ensures kind { OnOk result (making.new.builder.kind ≡ Values) }
    {
        push_minted(self.name, &self.approach, text, making)
    }
}

impl ColumnMemory for LastNote {
    type Rule = MintOptions;

    ghost use Rattle.hum_tones.specs.Memory.{unheard, heard_after};

    ghost beginning = { unheard };

    ghost seen = { heard_after };

    fn fresh(_alloc: Global) -> Self {
        LastNote {
            name: None,
            approach: Approach {
                naming: Naming {
                    signless: false,
                    sizeonly: false,
                },
                before: None,
                heard: Ok(TokenTone::SILENCE),
            },
            pitch: None,
        }
    }

    // Where no pattern is to be found, most cells are seen at once.
    #[inline(always)]
    fn see(&mut self, options: &mut MintOptions, token: &[u8]) -> Result<(), AllocError> {
        if options.breaks.is_some() || !is_data(token) {
            self.hear_any(options, token);
            return Ok(());
        }
        if is_silent(token) {
            self.hear_nothing(options, token);
            return Ok(());
        }
        match read_lone(token) {
            Some(note) => self.hear_lone(options, token, note),
            None => self.hear_any(options, token),
        }
        Ok(())
    }

    fn copy(&self) -> Result<Self, AllocError> {
        Ok(LastNote {
            name: self.name,
            approach: self.approach,
            pitch: self.pitch,
        })
    }
}
