//! Columns that are extracted, beside other commands.
ghost use Rattle.std.specs.Prelude.{◌≡◌, IfOk};
ghost use Rattle.hum_words.specs.declared.commands.Command.TheVariants.{Extract as ExtractCommand};
ghost use Rattle.hum_stage.specs.declared.faults.End.TheVariants.{Closed};
ghost use Rattle.hum_stage.specs.Decided.{at_once};
ghost use Rattle.hum_score.specs.Texts.{texts};
ghost use Rattle.hum_choices.specs.Extract.{Names};
ghost use Rattle.hum_extract.specs.Extract.{extract};
ghost use Rattle.hum_extract.specs.Extract.{meaning as meaning_of_extract};
ghost use Rattle.hum_ditto.specs.Ditto.{meaning as meaning_of_ditto};
ghost use Rattle.hum_laws.specs.Piped.{IsAlone, IsPiped, SameWhereClosed};
ghost use Rattle.hum_laws.specs.Fields.{every_field};

use crate::commands::{again, alone, piped};
use crate::given::{ClosedScore, Given, Sides};
use hum_commands::CommandOptions::{Ditto, Extract};
use hum_ditto::DittoOptions;
use hum_extract::{ExtractOptions, Field, FieldRange};
use std::alloc::AllocError;

/// What is extracted and then filled is what is filled and then extracted:
/// `extract -f 1 | ditto` is `ditto | extract -f 1`.
///
/// # Errors
/// Out of memory.
pub fn extract_ditto(score: ClosedScore<'_>, chosen: ExtractOptions, options: DittoOptions) -> Sides
    ensures extracted { IfOk result (λ both.
        IsPiped (meaning_of_extract 1 chosen) (meaning_of_ditto 2 options) score.entry.records.now both.0) }
    ensures filled { IfOk result (λ both.
        IsPiped (meaning_of_ditto 1 options) (meaning_of_extract 2 chosen) score.entry.records.now both.1) }
    ensures same { IfOk result (λ both. SameWhereClosed both.0 both.1) }
{
    let chosen_too = chosen.copy(score.alloc)?;
    let options_too = options.copy(score.alloc)?;
    let extracted = piped(score, Extract(chosen), Ditto(options))?;
    let filled = piped(score, Ditto(options_too), Extract(chosen_too))?;
    Ok((extracted, filled))
}

/// All fields of a score are the score: `extract -f 1-$`.
///
/// # Errors
/// Out of memory.
pub fn all_fields(score: ClosedScore<'_>) -> Result<Given, AllocError>
    ensures extracted { IfOk result (IsAlone
        (at_once 1 ExtractCommand (extract every_field)) score.entry.records.now) }
    ensures same { IfOk result (λ given. given.end ≡ Closed →
        given.records.items ≡ score.entry.records.now) }
{
    let mut ranges = Vec::new(score.alloc);
    ranges.push(FieldRange {
        first: Field::Number(1),
        last: Field::Last,
    })?;
    alone(score, Extract(ExtractOptions::Fields(ranges)))
}

/// What is extracted by some names has no others: `extract -i NAMES` twice is once.
///
/// # Errors
/// Out of memory.
pub fn names_twice(score: ClosedScore<'_>, names: Vec<Vec<u8>>) -> Sides
    ensures once { IfOk result (λ both. IsAlone
        (at_once 1 ExtractCommand (extract (Names (texts names.items)))) score.entry.records.now both.0) }
    ensures twice { IfOk result (λ both. IsPiped
        (at_once 1 ExtractCommand (extract (Names (texts names.items))))
        (at_once 2 ExtractCommand (extract (Names (texts names.items)))) score.entry.records.now both.1) }
    ensures same { IfOk result (λ both. both.0.end ≡ Closed → both.1.end ≡ Closed →
        both.1.records.items ≡ both.0.records.items) }
{
    let once = ExtractOptions::Names(names);
    let twice = once.copy(score.alloc)?;
    again(score, Extract(once), Extract(twice))
}
