//! How a run of many cases ends.
ghost use Rattle.std.specs.Prelude.{◌≡◌};
ghost use Rattle.hum_many.specs.Ends.{end_of, status_of};

use hum_net::Outcome;
use hum_packets::Stop;

/// How a run of many cases ends.
#[derive(Clone, Copy)]
pub enum ManyEnd {
    /// The input ended where a case may begin: all are answered.
    Finished,
    /// The plan was refused, and that is answered.
    Plan(Outcome),
    /// What stands at this byte, from 0, is no packet that may stand there, or is cut off.
    Broken(u64),
    /// A read failed.
    Read,
    /// A write failed.
    Write,
    /// There was no memory for what is read, or for an answer.
    Memory,
}

/// What a stop ends with.
pub(crate) fn end_of(stop: Stop) -> ManyEnd
    ensures { result ≡ end_of stop }
{
    match stop {
        Stop::Broken(at) => ManyEnd::Broken(at),
        Stop::Read => ManyEnd::Read,
        Stop::Write => ManyEnd::Write,
        Stop::Memory => ManyEnd::Memory,
    }
}

impl ManyEnd {
    /// The exit status: that of the plan's outcome where it was refused, 2 for a broken stream, 3 for a failure outside.
    pub fn status(self) -> u8
        ensures { result ≡ status_of self }
    {
        match self {
            ManyEnd::Finished => 0,
            ManyEnd::Plan(outcome) => outcome.status(),
            ManyEnd::Broken(_) => 2,
            ManyEnd::Read => 3,
            ManyEnd::Write => 3,
            ManyEnd::Memory => 3,
        }
    }
}
