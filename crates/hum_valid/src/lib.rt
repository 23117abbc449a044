//! Valid Humdrum, as laws: of lawful records each stage makes lawful records, and the text of a score,
//! read again, is that score.
#![tactic(auto)]

mod reading;
mod records;

pub use reading::{scores_are_read_again, scores_are_records};
pub use records::{commands_keep_records, merging_keeps_records, trees_mean_records};
