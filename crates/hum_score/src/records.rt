//! What a line can be, and why it is none.
ghost use Rattle.std.specs.Prelude.{◌≡◌};
ghost use Rattle.hum_score.specs.Row.{as_kind};
ghost use Rattle.hum_score.specs.declared.records.RecordFault.TheVariants.{Memory};

use std::alloc::{AllocError, AllocFailed};
use thiserror::Error;

/// What a record is.
#[derive(Clone, Copy, Debug, PartialEq, Eq)]
pub enum Kind {
    /// A global comment: it begins with `!!`, and has no tokens.
    Global,
    /// Local comments: each token begins with `!`.
    Local,
    /// Interpretations: each token begins with `*`.
    Interpretation,
    /// Data: no token begins with `!` or `*`.
    Values,
}

/// What the tokens of a spined record are. All of them are of this one kind.
#[derive(Clone, Copy, PartialEq, Eq)]
pub enum SpinedKind {
    /// Local comments: each token begins with `!`, and none with `!!`.
    Local,
    /// Interpretations: each token begins with `*`.
    Interpretation,
    /// Data: no token begins with `!` or `*`.
    Values,
}

impl From<SpinedKind> for Kind {
    ghost from_gives = { λ spined kind. kind ≡ as_kind spined };

    fn from(spined: SpinedKind) -> Kind {
        match spined {
            SpinedKind::Local => Kind::Local,
            SpinedKind::Interpretation => Kind::Interpretation,
            SpinedKind::Values => Kind::Values,
        }
    }
}

/// Why a text is no record, or a token has no place in one.
#[derive(Clone, Copy, Debug, PartialEq, Eq, Error)]
#[error("{}", self.text())]
pub enum RecordFault {
    /// Two tabs in a row, or a tab at an end of the line.
    S4,
    /// Comments, interpretations and data side by side.
    S5,
    /// A local comment with a token that begins with `!!`.
    S6,
    /// A carriage return within the line.
    S8,
    /// A record of over 1,048,576 bytes.
    L1,
    /// Memory ran out.
    Memory,
}

impl RecordFault {
    // What is told of it.
    fn text(self) -> &'static str {
        match self {
            RecordFault::S4 => "S4: an empty token",
            RecordFault::S5 => "S5: tokens of different kinds in one record",
            RecordFault::S6 => "S6: a local comment with a token that begins with !!",
            RecordFault::S8 => "S8: a carriage return within the line",
            RecordFault::L1 => "L1: a record of over 1,048,576 bytes",
            RecordFault::Memory => "out of memory",
        }
    }
}

impl From<AllocError> for RecordFault {
    ghost from_gives = { λ _ e. e ≡ Memory };

    fn from(_e: AllocError) -> RecordFault {
        RecordFault::Memory
    }
}

impl<T: Drop> From<AllocFailed<T>> for RecordFault {
    ghost from_gives = { λ _ e. e ≡ Memory };

    fn from(_e: AllocFailed<T>) -> RecordFault {
        RecordFault::Memory
    }
}
