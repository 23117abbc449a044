//! The lines of a text, read from a source in any pieces.
#![tactic(auto)]

mod block;
pub mod calls;
pub mod gathered;
mod near;
pub mod reader;
mod rules;

use thiserror::Error;

/// Why a text is refused, or not read to its end.
///
/// S1 to S7 are rules of Humdrum text: each stands at the first byte that breaks it.
#[derive(Debug, Clone, Copy, PartialEq, Eq, Error)]
pub enum TextFault {
    /// An empty line.
    #[error("S1: an empty line")]
    S1,
    /// A line of more bytes than `Limits::line`; the CR that is dropped from its end isn't counted.
    #[error("S2: a line of more bytes than a line may have")]
    S2,
    /// More lines than `Limits::records`.
    #[error("S3: more lines than a text may have")]
    S3,
    /// More bytes than `Limits::bytes`.
    #[error("S7: more bytes than a text may have")]
    S7,
    /// The source failed, even if it was only interrupted.
    #[error("read failed")]
    Read,
    /// There was no memory for what is read.
    #[error("out of memory")]
    Memory,
}

/// How large a text may be.
#[derive(Clone, Copy)]
pub struct Limits {
    /// The bytes of a line, its line end not counted.
    pub line: u32,
    /// The lines.
    pub records: u64,
    /// The bytes of all, line ends too.
    pub bytes: u64,
}

ghost use Rattle.std.specs.Prelude.{◌≡◌, ◌^◌, ◌-◌};

impl Limits {
    /// The limits of a score: 1 MiB a line, as many records as a `u32` can count, and 1 TiB in all.
    pub fn standard() -> Limits
        ensures line { result.line ≡ 2 ^ 20 }
        ensures records { result.records ≡ 2 ^ 32 - 1 }
        ensures bytes { result.bytes ≡ 2 ^ 40 }
    {
        Limits {
            line: 1 << 20,
            records: u32::MAX as u64,
            bytes: 1 << 40,
        }
    }
}
