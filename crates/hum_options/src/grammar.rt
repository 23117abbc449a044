//! The values that words are.
ghost use Rattle.std.specs.Prelude.{◌≡◌};
ghost use Rattle.hum_options.specs.Seen.{GivesValue};
ghost use Rattle.hum_options.specs.declared.grammar.ValueError.TheVariants.{Memory};

use crate::faults::PatternRefusal;
use crate::fields::{count, field_ranges};
use crate::naming::{is_label, names};
use crate::numbers::signed_number;
use crate::options::ValueKind;
use crate::passages::passage_ranges;
use crate::steps::step;
use crate::values::{Name, Semitones, Separator, Steps, Value};
use hum_choices::{is_name, is_separator};
use hum_pattern::{Pattern, PatternFault};
use std::alloc::{AllocError, Global};

/// Why a text is no value of a kind.
#[derive(Clone, Copy)]
pub(crate) enum ValueError {
    /// It isn't of the kind's grammar.
    Grammar,
    /// It is no pattern.
    Pattern(PatternRefusal),
    /// Memory ran out.
    Memory,
}

impl From<AllocError> for ValueError {
    ghost from_gives = { λ _ e. e ≡ Memory };

    fn from(_e: AllocError) -> ValueError {
        ValueError::Memory
    }
}

/// The value that was found, if the text is one.
macro_rules! value_if {
    ($found:expr, $it:ident => $value:expr) => {
        match $found {
            Some($it) => Ok($value),
            None => Err(ValueError::Grammar),
        }
    };
}

fn read_pattern(alloc: Global, text: &str) -> Result<Value<Pattern>, ValueError>
    ensures { GivesValue ValueKind.Pattern text.now result }
{
    match Pattern::new(alloc, text) {
        Ok(pattern) => Ok(Value::Pattern(pattern)),
        Err(PatternFault::Refused) => Err(ValueError::Pattern(PatternRefusal::NoExpression)),
        Err(PatternFault::TooLarge) => Err(ValueError::Pattern(PatternRefusal::TooLarge)),
        Err(PatternFault::Memory) => Err(ValueError::Memory),
    }
}

/// The value of a kind that a text is.
pub(crate) fn read_value(
    alloc: Global,
    kind: ValueKind,
    text: &str,
) -> Result<Value<Pattern>, ValueError>
    ensures { GivesValue kind text.now result }
{
    let bytes = text.as_bytes();
    match kind {
        ValueKind::Alone => Ok(Value::Nothing),
        ValueKind::Fields => value_if!(field_ranges(alloc, bytes)?, it => Value::Fields(it)),
        ValueKind::Names => value_if!(names(alloc, bytes)?, it => Value::Names(it)),
        ValueKind::Name if !is_name(bytes) => Err(ValueError::Grammar),
        ValueKind::Name => {
            let text = bytes.to_vec(alloc)?;
            Ok(Value::Name(Name { text }))
        }
        ValueKind::Text if !is_separator(bytes) => Err(ValueError::Grammar),
        ValueKind::Text => {
            let text = bytes.to_vec(alloc)?;
            Ok(Value::Text(Separator { text }))
        }
        ValueKind::Ranges => value_if!(passage_ranges(alloc, bytes)?, it => Value::Ranges(it)),
        ValueKind::Label if !is_label(bytes) => Err(ValueError::Grammar),
        ValueKind::Label => Ok(Value::Label(bytes.to_vec(alloc)?)),
        ValueKind::Pattern => read_pattern(alloc, text),
        ValueKind::Count => value_if!(count(bytes), it => Value::Count(it)),
        ValueKind::Steps => {
            value_if!(signed_number(bytes, 49), number => Value::Steps(Steps { number }))
        }
        ValueKind::Semitones => {
            value_if!(signed_number(bytes, 84), number => Value::Semitones(Semitones { number }))
        }
        ValueKind::Duration => value_if!(step(alloc, bytes)?, it => Value::Duration(it)),
    }
}
