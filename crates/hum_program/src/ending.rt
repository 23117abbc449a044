//! How the program ends: its status, and the line that it tells.
ghost use Rattle.std.specs.Prelude.{◌≡◌, Some};
ghost use Rattle.hum_program.specs.Endings.{status_of, line_of};

use hum_net::Outcome;
use std::fmt;

/// How the program ends.
#[derive(Clone, Copy)]
pub enum Ending {
    /// A plan was run, or is refused.
    Outcome(Outcome),
    /// The command line is refused.
    Usage,
    /// The plan's file, or the input, couldn't be read.
    CannotRead,
    /// Memory ran out before there was a plan.
    Memory,
}

impl Ending {
    /// The exit status: 2 for a command line that is refused, 3 where the plan can't be read or
    /// memory runs out, else that of the outcome.
    pub fn status(self) -> u8
        ensures { result ≡ status_of self }
    {
        match self {
            Ending::Outcome(outcome) => outcome.status(),
            Ending::Usage => 2,
            Ending::CannotRead => 3,
            Ending::Memory => 3,
        }
    }
}

impl fmt::Display for Ending {
    ghost output = { λ ending. Some (line_of ending) };

    fn fmt<W: fmt::Write>(&self, f: &mut fmt::Formatter<W>) -> fmt::Result {
        match self {
            Ending::Outcome(outcome) => write!(f, "{outcome}"),
            Ending::Usage => f.write_str(
                "humpipe: usage: humpipe [--link N] [--order left|right] [PIPELINE]",
            ),
            Ending::CannotRead => f.write_str("humpipe: cannot read plan"),
            Ending::Memory => f.write_str("humpipe: out of memory"),
        }
    }
}
