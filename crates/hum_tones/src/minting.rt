//! Tokens in whose place stands the interval from the note before.
ghost use Rattle.std.specs.Prelude.{◌≡◌, ◌∷◌, ◌++◌, [], ℕ, List, OnOk, IfSome, option_map, Ok};
ghost use Rattle.hum_score.specs.declared.records.SpinedKind.TheVariants.{Values};
ghost use Rattle.hum_record.specs.RecordDraft.{Holds};
ghost use Rattle.hum_pitch.specs.Given.{spelled};
ghost use Rattle.hum_stage.specs.Refusals.{IfTold};
ghost use Rattle.hum_cells.specs.Rewriter.{Pushes};
ghost use Rattle.hum_tones.specs.Mint.{approached};
ghost use Rattle.hum_tones.specs.Hearing.{hearing, heard_by};
ghost use Rattle.hum_tones.specs.IntervalNames.{text_at};
ghost use Rattle.hum_tones.specs.Memory.{told_as};
ghost use Rattle.hum_tones.specs.Minted.{told_by};

use crate::hearing::TokenTone;
use crate::interval_names::{ShortName, interval_name, still};
use hum_pitch::{Pitch, interval, push_interval, push_pitch};
use hum_record::RecordDraft;
use hum_stage::{Refusal, Rule};
use std::alloc::AllocError;

/// How intervals are named.
#[derive(Clone, Copy)]
pub(crate) struct Naming {
    pub signless: bool,
    pub sizeonly: bool,
}

/// What the text of a cell is made of: how intervals are named, the note before, and what was heard.
#[derive(Clone, Copy)]
pub(crate) struct Approach {
    pub naming: Naming,
    pub before: Option<Pitch>,
    pub heard: Result<TokenTone, Rule>,
}

/// Adds the interval from the note before to a pitch, or the pitch in brackets.
fn add_tone(
    naming: Naming,
    before: Option<Pitch>,
    pitch: Pitch,
    text: &mut Vec<u8>,
) -> Result<(), AllocError>
    ensures { OnOk result (text.new.items ≡ text.old.items
        ++ approached naming.signless naming.sizeonly
        (option_map spelled before) (spelled pitch)) }
{
    match before {
        Some(before) => {
            push_interval(
                text,
                interval(before, pitch),
                naming.signless,
                naming.sizeonly,
            )?;
        }
        None => {
            text.push(b'[')?;
            push_pitch(text, pitch)?;
            text.push(b']')?;
        }
    }
    Ok(())
}

/// The interval from the note before to a pitch, where its name is short and shown whole, as it mostly is.
fn short_name(naming: Naming, before: Option<Pitch>, pitch: Pitch) -> Option<ShortName>
    ensures { IfSome result (λ name. text_at name.place
        ≡ approached naming.signless naming.sizeonly
        (option_map spelled before) (spelled pitch)) }
{
    if naming.signless || naming.sizeonly {
        return None;
    }
    match before {
        Some(before) => interval_name(interval(before, pitch)),
        None => None,
    }
}

/// What a cell becomes by the note before it and what was heard of it, where that is short, as it mostly
/// is.
pub(crate) fn short_minted(
    naming: Naming,
    before: Option<Pitch>,
    heard: TokenTone,
) -> Option<ShortName>
    ensures { IfSome result (λ name. told_as naming.signless naming.sizeonly
        (option_map spelled before) (Ok (hearing heard)) ≡ Ok (text_at name.place)) }
{
    match heard.tone {
        Some(tone) => {
            if tone.continued {
                return Some(still(false));
            }
            short_name(naming, before, tone.pitch)
        }
        None => Some(still(heard.rest)),
    }
}

/// Adds what becomes of a pitch, whatever its name, to a record in the making. It is made in `text`.
fn push_any_tone(
    naming: Naming,
    before: Option<Pitch>,
    pitch: Pitch,
    text: &mut Vec<u8>,
    making: &mut RecordDraft,
) -> Result<(), AllocError>
    requires { making.old.builder.kind ≡ Values }
    ensures pushed { OnOk result ((tokens : List (List ℕ))
        → Holds Values making.old.builder making.old.is_long tokens
        → Holds Values making.new.builder making.new.is_long
        (tokens ++ approached naming.signless naming.sizeonly
        (option_map spelled before) (spelled pitch) ∷ [])) }
    ensures kind { making.new.builder.kind ≡ Values }
{
    text.clear();
    add_tone(naming, before, pitch, text)?;
    making.push(text)
}

/// Adds what a cell becomes, a data token, by what its text is made of to a record in the making. It is
/// made in `text`.
///
/// # Errors
/// The rule by which it is refused; or out of memory.
#[inline(never)]
fn push_any_minted(
    approach: &Approach,
    text: &mut Vec<u8>,
    making: &mut RecordDraft,
) -> Result<(), Refusal>
    requires { making.old.builder.kind ≡ Values }
    ensures pushed { IfTold result (Pushes
        (told_as approach.now.naming.signless approach.now.naming.sizeonly
        (option_map spelled approach.now.before) (heard_by approach.now.heard))
        (Holds Values making.old.builder making.old.is_long)
        (Holds Values making.new.builder making.new.is_long)) }
    ensures kind { OnOk result (making.new.builder.kind ≡ Values) }
{
    let heard = match approach.heard {
        Ok(heard) => heard,
        Err(rule) => return Err(Refusal::Rule(rule)),
    };
    match heard.tone {
        Some(tone) => {
            if tone.continued {
                making.push(b".")?;
                return Ok(());
            }
            push_any_tone(approach.naming, approach.before, tone.pitch, text, making)?;
            Ok(())
        }
        None => {
            making.push(if heard.rest { b"r" } else { b"." })?;
            Ok(())
        }
    }
}

/// Adds what a column's last cell, a data token, becomes by the note before it to a record in the
/// making. Where its text has to be made, it is made in `text`.
///
/// # Errors
/// The rule by which it is refused; or out of memory.
pub(crate) fn push_minted(
    name: Option<ShortName>,
    approach: &Approach,
    text: &mut Vec<u8>,
    making: &mut RecordDraft,
) -> Result<(), Refusal>
    requires { making.old.builder.kind ≡ Values }
    ensures pushed { IfTold result (Pushes (told_by name approach.now)
        (Holds Values making.old.builder making.old.is_long)
        (Holds Values making.new.builder making.new.is_long)) }
    ensures kind { OnOk result (making.new.builder.kind ≡ Values) }
{
    match name {
        Some(name) => {
            making.push(name.as_bytes())?;
            Ok(())
        }
        None => push_any_minted(approach, text, making),
    }
}
