//! How a run ends.
ghost use Rattle.std.specs.Prelude.{◌≡◌};
ghost use Rattle.hum_turns.specs.Failures.{result_of};

use hum_stage::{End, Fault};

/// How a run ends.
#[derive(Clone, Copy, Debug, PartialEq, Eq)]
pub enum RunResult {
    /// No stage refused, and the whole text was written.
    Finished,
    /// A stage refused; what was settled before was written.
    Fault(Fault),
    /// The reader of the stage with this number, from 1, failed.
    Read(u8),
    /// The writer failed.
    Write,
    /// Memory ran out.
    Memory,
}

impl RunResult {
    /// How a run ends by the end that the sink has heard.
    pub fn from_end(end: End) -> RunResult
        ensures { result ≡ result_of end }
    {
        match end {
            End::Closed => RunResult::Finished,
            End::Broken(fault) => RunResult::Fault(fault),
        }
    }
}
