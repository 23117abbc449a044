//! Tokens whose pitches are some steps and some semitones away.
ghost use Rattle.std.specs.Prelude.{◌≡◌, [], IfOk, Ok, None, true, false};
ghost use Rattle.hum_score.specs.declared.records.SpinedKind.TheVariants.{Values};
ghost use Rattle.hum_score.specs.Spelling.{IsToken};
ghost use Rattle.hum_record.specs.RecordDraft.{Holds};
ghost use Rattle.hum_pitch.specs.Pitch.{away};
ghost use Rattle.hum_pitch.specs.Given.{spelled, Answers};
ghost use Rattle.hum_kern.specs.Note.{reading, note};
ghost use Rattle.hum_kern.specs.Usual.{IsReadAlone};
ghost use Rattle.hum_stage.specs.Refusals.{IfTold};
ghost use Rattle.hum_cells.specs.Rewriter.{Pushes};
ghost use Rattle.hum_tones.specs.Subtokens.{HasPut, HasAdded};
ghost use Rattle.hum_tones.specs.Trans.{transposed_part};
ghost use Rattle.hum_tones.specs.declared.part_rule.PartRule.TheVariants.{Transposed};
ghost use Rattle.hum_tones.specs.PartRule.{given};

use crate::part_rule::rule_of;
use crate::short_token::{ShortToken, put_with_pitch};
use hum_choices::TransOptions;
use hum_kern::{Note, read_note};
use hum_pitch::{Pitch, PitchFault, push_pitch};
use hum_record::RecordDraft;
use hum_stage::{Refusal, Rule};
use std::alloc::AllocError;

/// The pitch so far away, where it can be spelled.
fn there(options: TransOptions, pitch: Pitch) -> Result<Pitch, PitchFault>
    ensures { Answers (away options.steps options.semitones (spelled pitch)) result }
{
    pitch.transpose(options.steps, options.semitones)
}

/// Adds what a part becomes, by what was read of it.
fn put_transposed(
    options: TransOptions,
    part: &[u8],
    found: &Note,
    text: &mut Vec<u8>,
) -> Result<(), Refusal>
    requires { Ok (reading found.now) ≡ note part.now }
    ensures { IfTold result (HasPut
        (transposed_part options.steps options.semitones part.now) text.old.items text.new.items) }
{
    let pitch = match found.pitch {
        Some(pitch) => pitch,
        None => {
            text.extend_from_slice(part)?;
            return Ok(());
        }
    };
    match there(options, pitch) {
        Err(PitchFault::TR1) => Err(Refusal::Rule(Rule::TR1)),
        Err(PitchFault::TR2) => Err(Refusal::Rule(Rule::TR2)),
        Ok(there) => {
            text.extend_from_slice(&part[..found.start])?;
            push_pitch(text, there)?;
            text.extend_from_slice(part.split_at(found.end).1)?;
            Ok(())
        }
    }
}

/// Adds what a part becomes, with a space behind it.
pub(crate) fn add_transposed(
    options: TransOptions,
    part: &[u8],
    text: &mut Vec<u8>,
) -> Result<(), Refusal>
    ensures { IfTold result (HasAdded
        (transposed_part options.steps options.semitones part.now) text.old.items text.new.items) }
{
    let found = match read_note(part) {
        Ok(found) => found,
        Err(fault) => return Err(Refusal::Rule(rule_of(fault))),
    };
    put_transposed(options, part, &found, text)?;
    text.push(b' ')?;
    Ok(())
}

/// Makes the empty text what a part becomes, by what was read of it, where it has a pitch and that is
/// short; and tells whether it is.
#[inline(always)]
fn put_short(options: TransOptions, part: &[u8], found: Note, text: &mut ShortToken) -> bool
    requires read { Ok (reading found) ≡ note part.now }
    requires empty { text.old.items ≡ [] }
    ensures { result ≡ true → HasPut
        (transposed_part options.steps options.semitones part.now) [] text.new.items None }
{
    let pitch = match found.pitch {
        Some(pitch) => pitch,
        None => return false,
    };
    match there(options, pitch) {
        Ok(there) => put_with_pitch(text, part, found.start, found.end, there),
        Err(_) => false,
    }
}

/// Adds what a token becomes that is one subtoken, by what was read of it, to a record in the
/// making, where it has no pitch and stays, or becomes a short text, as most do, or else nothing; and
/// tells which.
///
/// # Errors
/// Out of memory.
#[inline(always)]
pub(crate) fn push_transposed(
    options: TransOptions,
    token: &[u8],
    found: Note,
    making: &mut RecordDraft,
) -> Result<bool, AllocError>
    requires lawful { IsToken Values token.now }
    requires read { IsReadAlone token.now (reading found) }
    requires kind { making.old.builder.kind ≡ Values }
    ensures pushed { IfOk result (λ pushed. pushed ≡ true →
        Pushes (given (Transposed options) token.now)
        (Holds Values making.old.builder making.old.is_long)
        (Holds Values making.new.builder making.new.is_long) None) }
    ensures kept { IfOk result (λ pushed. pushed ≡ false → making.new ≡ making.old) }
    ensures kind { making.new.builder.kind ≡ Values }
{
    if found.pitch.is_none() {
        making.push(token)?;
        return Ok(true);
    }
    let mut text = ShortToken::new();
    if !put_short(options, token, found, &mut text) {
        return Ok(false);
    }
    making.push(text.as_slice())?;
    Ok(true)
}
