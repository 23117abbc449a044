//! Why words give no options.
ghost use Rattle.std.specs.Prelude.{◌≡◌};
ghost use Rattle.hum_options.specs.declared.faults.OptionError.TheVariants.{Fault, Memory};

use std::alloc::AllocError;
use thiserror::Error;

/// Why words give no options.
#[derive(Clone, Copy, Debug, Error)]
pub enum OptionError {
    /// The first rule that they break.
    #[error(transparent)]
    Fault(OptionFault),
    /// Memory ran out.
    #[error("out of memory")]
    Memory,
}

/// Why a text is refused as a pattern.
#[derive(Clone, Copy, Debug, Error)]
pub enum PatternRefusal {
    /// It is no regular expression, or nests deeper than 250.
    #[error("no regular expression, or one that nests deeper than 250")]
    NoExpression,
    /// The expression would take over 10 MiB.
    #[error("an expression of over 10 MiB")]
    TooLarge,
}

/// A rule on the words behind a command.
#[derive(Clone, Copy, Debug, Error)]
pub enum OptionRule {
    /// The word is no option of the command, or the option came before, or one that excludes it.
    #[error("N8: an option that is unknown, or came before, or is excluded by one that did")]
    N8,
    /// The option's value is missing; at the command, a required option is.
    #[error("N9: a value or an option is missing")]
    N9,
    /// The word isn't a value of the option's kind.
    #[error("N10: no value of the option's kind")]
    N10,
    /// The word drops all interpretations, and the stage isn't the last of its plan.
    #[error("N11: interpretations are dropped before the last stage")]
    N11,
    /// The word is no pattern.
    #[error("N12: {0}")]
    N12(PatternRefusal),
}

/// The number of a word, and the rule that is broken there.
#[derive(Clone, Copy, Debug, Error)]
#[error("{rule} (word {word})")]
pub struct OptionFault {
    pub word: u32,
    pub rule: OptionRule,
}

impl From<AllocError> for OptionError {
    ghost from_gives = { λ _ e. e ≡ Memory };

    fn from(_e: AllocError) -> OptionError {
        OptionError::Memory
    }
}

/// A rule that is broken at a word.
pub(crate) fn broken(word: u32, rule: OptionRule) -> OptionError
    ensures { result ≡ Fault (record { word = word; rule = rule }) }
{
    OptionError::Fault(OptionFault { word, rule })
}
