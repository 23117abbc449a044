//! Plans: the text that says how scores are piped through commands.
//!
//! A plan's lines are branches: `name: stage | stage | ..`. The first stage of a branch is `read`
//! with the name of a score, or `assemble` with the names of earlier branches, and each other
//! stage is a command that reads from the stage before it. The last branch is `out`, and each
//! other one is named by exactly one `assemble`. So the stages are a tree, and the last one gives
//! the plan's score. They are numbered from 1, along the lines.
#![tactic(auto)]

mod branches;
mod building;
mod draft;
mod faults;
pub mod laws;
mod lines;
mod plan;
mod stages;

pub use faults::{PlanError, PlanFault, PlanRule};
pub use plan::{Plan, parse_plan};
pub use stages::{Options, PlanStage};
