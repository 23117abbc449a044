//! The frame of the commands on the tokens of `**kern` columns (Humdrum Toolkit: Reference Manual,
//! `**kern`).
//!
//! Such a command makes another token of each data token of a kern column that is neither null
//! (`.`) nor a barline (it begins with `=`). It renames `**kern`, or puts a record with a tandem
//! interpretation behind each record with `**kern`. All else stays. [`TokenRewriter`] is what is the
//! command's own, and [`CellStage`] its stage.
#![tactic(auto)]

mod cells;
mod heading;
mod rewriter;
mod rewritten;
mod tokens;

pub use cells::{CellStage, Cells};
pub use rewriter::{Heading, TokenRewriter};
