//! Laws on whole plans: a shell's pipe between two runs is a bar in one plan, and what stands side by
//! side in a plan is merged by groups.
#![tactic(auto)]

mod merges;
mod pipes;

pub use merges::merges_are_by_groups;
pub use pipes::{pipes_are_pipes, plans_are_joined};
