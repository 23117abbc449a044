//! The rules of a plan, and where one was broken.
ghost use Rattle.std.specs.Prelude.{◌≡◌, Some};
ghost use Rattle.hum_plan.specs.declared.faults.PlanError.TheVariants.{Fault, Memory};
ghost use Rattle.hum_plan.specs.Faults.{code_of, line_of_fault, rule_of, error_in_line, of_text, broken};

use hum_options::{OptionError, OptionRule};
use hum_words::PlanTextFault;
use std::alloc::AllocError;
use std::fmt;
use thiserror::Error;

/// A rule of the grammar of plans.
#[derive(Clone, Copy, Debug, Error)]
pub enum PlanRule {
    /// The plan has over 65,536 bytes, or isn't UTF-8.
    N1,
    /// A quote isn't closed, stands in a word or has a word behind it.
    N2,
    /// The first word isn't a name and `:`.
    N3,
    /// The name was used before, the line stands behind `out`, or there is no `out`.
    N4,
    /// A stage has no words.
    N5,
    /// The first stage isn't `read` or `assemble`, or a later one is.
    N6,
    /// The command isn't known.
    N7,
    /// An option isn't known, comes twice or excludes an earlier one, or a word is too many.
    N8,
    /// An option's value or another required word is missing.
    N9,
    /// A value isn't of its grammar.
    N10,
    /// An assembled name isn't an earlier branch or is taken, there are too many branches or
    /// stages, interpretations are dropped before the last stage, or a branch is never used.
    N11,
    /// A pattern is refused.
    N12,
}

impl PlanRule {
    /// Its code, as it is printed.
    pub fn code(self) -> &'static str
        ensures { result.now ≡ code_of self }
    {
        match self {
            PlanRule::N1 => "N1",
            PlanRule::N2 => "N2",
            PlanRule::N3 => "N3",
            PlanRule::N4 => "N4",
            PlanRule::N5 => "N5",
            PlanRule::N6 => "N6",
            PlanRule::N7 => "N7",
            PlanRule::N8 => "N8",
            PlanRule::N9 => "N9",
            PlanRule::N10 => "N10",
            PlanRule::N11 => "N11",
            PlanRule::N12 => "N12",
        }
    }
}

impl fmt::Display for PlanRule {
    ghost output = { λ rule. Some (code_of rule) };

    fn fmt<W: fmt::Write>(&self, f: &mut fmt::Formatter<W>) -> fmt::Result {
        f.write_str(self.code())
    }
}

/// A rule that was broken, with the number of the line, from 1, and that of the word in it, from 1,
/// bars not counted; 0 where it is no word's.
#[derive(Clone, Copy, Debug, Error)]
pub struct PlanFault {
    pub line: u32,
    pub word: u32,
    pub rule: PlanRule,
}

impl fmt::Display for PlanFault {
    ghost output = { λ fault. Some (line_of_fault fault) };

    fn fmt<W: fmt::Write>(&self, f: &mut fmt::Formatter<W>) -> fmt::Result {
        let PlanFault { line, word, rule } = *self;
        write!(f, "plan line {line}, word {word}: {rule}")
    }
}

/// Why bytes are no plan.
#[derive(Clone, Copy, Debug, Error)]
pub enum PlanError {
    /// The first rule that they break.
    #[error(transparent)]
    Fault(PlanFault),
    /// Memory ran out.
    #[error("out of memory")]
    Memory,
}

/// A rule on the words behind a command is one of the plan.
fn rule_of(rule: OptionRule) -> PlanRule
    ensures { result ≡ rule_of rule }
{
    match rule {
        OptionRule::N8 => PlanRule::N8,
        OptionRule::N9 => PlanRule::N9,
        OptionRule::N10 => PlanRule::N10,
        OptionRule::N11 => PlanRule::N11,
        OptionRule::N12(_) => PlanRule::N12,
    }
}

/// Why the words behind a command give no options, in their line.
pub(crate) fn in_line(line: u32, error: OptionError) -> PlanError
    ensures { result ≡ error_in_line line error }
{
    match error {
        OptionError::Fault(found) => broken(line, found.word, rule_of(found.rule)),
        OptionError::Memory => PlanError::Memory,
    }
}

/// The fault of a plan's bytes.
pub(crate) fn of_text(fault: PlanTextFault) -> PlanFault
    ensures { result ≡ of_text fault }
{
    let line = match fault {
        PlanTextFault::TooLong => 1,
        PlanTextFault::NotUtf8 { line } => line,
    };
    PlanFault {
        line,
        word: 0,
        rule: PlanRule::N1,
    }
}

impl From<AllocError> for PlanError {
    ghost from_gives = { λ _ e. e ≡ Memory };

    fn from(_e: AllocError) -> PlanError {
        PlanError::Memory
    }
}

/// A rule that is broken at a word of a line.
pub(crate) fn broken(line: u32, word: u32, rule: PlanRule) -> PlanError
    ensures { result ≡ Fault (broken line word rule) }
{
    PlanError::Fault(PlanFault { line, word, rule })
}
