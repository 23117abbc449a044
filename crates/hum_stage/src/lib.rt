//! Stages: a command over a stream of records, and the contract that ties it to what the command
//! means over whole lists.
//!
//! - [`Stage`] is the contract.
//! - [`Decides`] is a command that decides each record at once, and [`AtOnce`] the stage round it;
//!   [`DueRecords`] is what holds the records that it is to give.
//! - [`LooksAhead`] is a command that decides a record by some of those behind it, and [`Lagging`] the
//!   stage round it.
//! - [`whole`] runs a list through a stage.
#![tactic(auto)]

mod at_once;
mod contract;
mod deciding;
mod due;
mod faults;
mod lagging;
mod limits;
mod looks_ahead;
mod runs;
mod settling;

/// How many records a score may have, and a stage may give.
pub const MOST_RECORDS: u64 = 4_294_967_295;

/// How many records may stand behind one that is undecided.
pub const MOST_WAITING: usize = 65_536;

pub use at_once::AtOnce;
pub use contract::Stage;
pub use deciding::Decides;
pub use due::{DueRecords, UpToTwo};
pub use faults::{End, Fault, Readiness, Refusal, Rule, State};
pub use hum_words::Command;
pub use lagging::Lagging;
pub use limits::{check_room, unless_long};
pub use looks_ahead::{LooksAhead, Verdict};
pub use runs::{drain, whole};
