//! The lines and words of a plan, the commands that some words are, and the parts of a bundle.
//!
//! A plan is at most 65,536 bytes of UTF-8. Its lines end at LF, and one CR at a line's end is
//! dropped. Lines of blanks alone, and lines with `#` behind their blanks, are skipped; blanks are
//! space and tab. Every other line is a branch, and is cut into words and bars. A word is a run of
//! bytes other than blanks, `|` and `'`, or all between two `'`; a blank, a bar or the end of the
//! line follows a closing quote.
//!
//! A bundle is a plan with its scores behind it: [`plan_part`] is its plan, and [`score`] a score by its
//! name.
#![tactic(auto)]

mod branches;
mod bundle;
mod characters;
mod commands;
mod cutting;
pub mod laws;
mod naming;
mod text;

pub use branches::{Line, Lines, line_count};
pub use bundle::{LARGEST_BUNDLE, is_too_large, plan_part, score};
pub use commands::Command;
pub use cutting::{Piece, WordFault, pieces};
pub use naming::name_of;
pub use text::{LONGEST_PLAN, PlanTextFault, plan_text};
