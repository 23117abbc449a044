//! How a run of a plan's text ends: its status, and the line that tells it.
ghost use Rattle.std.specs.Prelude.{◌≡◌, Some, IfOk, string_bytes};
ghost use Rattle.hum_net.specs.Outcomes.{status_of, line_of};

use hum_plan::PlanFault;
use hum_stage::Fault;
use hum_turns::RunResult;
use std::alloc::{AllocError, Global};
use std::fmt;

/// How a run of a plan's text ends.
#[derive(Clone, Copy)]
pub enum Outcome {
    /// The plan was run.
    Run(RunResult),
    /// The text is no plan: the first rule that it breaks.
    Plan(PlanFault),
    /// The stage of this number, from 1, is the first whose score isn't there.
    NoScore(u8),
    /// The bundle has over 67,108,864 bytes.
    TooLarge,
}

impl Outcome {
    /// The exit status: 0 where the whole text was written, 1 for the fault of a stage, 2 for a plan
    /// or a bundle that is refused, 3 for a failure outside.
    pub fn status(self) -> u8
        ensures { result ≡ status_of self }
    {
        match self {
            Outcome::Run(RunResult::Finished) => 0,
            Outcome::Run(RunResult::Fault(_)) => 1,
            Outcome::Run(RunResult::Read(_)) => 3,
            Outcome::Run(RunResult::Write) => 3,
            Outcome::Run(RunResult::Memory) => 3,
            Outcome::Plan(_) => 2,
            Outcome::NoScore(_) => 3,
            Outcome::TooLarge => 2,
        }
    }

    /// The line that tells it, without an end of line: empty at status 0.
    ///
    /// # Errors
    /// Out of memory.
    pub fn message(self, alloc: Global) -> Result<String, AllocError>
        ensures { IfOk result (λ message. string_bytes message ≡ line_of self) }
    {
        self.to_string(alloc)
    }
}

impl fmt::Display for Outcome {
    ghost output = { λ outcome. Some (line_of outcome) };

    fn fmt<W: fmt::Write>(&self, f: &mut fmt::Formatter<W>) -> fmt::Result {
        match self {
            Outcome::Run(RunResult::Finished) => Ok(()),
            Outcome::Run(RunResult::Fault(fault)) => {
                let Fault {
                    stage,
                    command,
                    line,
                    rule,
                } = *fault;
                let word = command.word();
                write!(f, "humpipe: stage {stage} ({word}), line {line}: {rule}")
            }
            Outcome::Run(RunResult::Read(stage)) => {
                write!(f, "humpipe: stage {stage} (read): read failed")
            }
            Outcome::Run(RunResult::Write) => f.write_str("humpipe: write failed"),
            Outcome::Run(RunResult::Memory) => f.write_str("humpipe: out of memory"),
            Outcome::Plan(fault) => write!(f, "humpipe: {fault}"),
            Outcome::NoScore(stage) => write!(f, "humpipe: stage {stage} (read): cannot open"),
            Outcome::TooLarge => f.write_str("humpipe: bundle too large"),
        }
    }
}
