//! The command `read`: the score that bytes denote, record by record.
//!
//! [`ScoreReader`] takes the lines of a source, reads each as a record and follows the spines
//! through it. It ends with the score, or at the first rule that is broken: its line counts from 1,
//! and a spine that stays open is found in the line after the last.
#![tactic(auto)]

pub mod laws;
mod rules;
mod scores;

pub use scores::ScoreReader;
use thiserror::Error;

/// Why nothing more can be read. It is no fault of the score.
#[derive(Clone, Copy, Debug, PartialEq, Eq, Error)]
pub enum ReadError {
    /// The source failed.
    #[error("read failed")]
    Read,
    /// There was no memory.
    #[error("out of memory")]
    Memory,
}
