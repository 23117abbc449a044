//! Nodes: what a net knows of its stages, and the calls that move them.
//!
//! - [`Node`] is a stage of a plan (hum_turns): a score that is read, a command, or assemble. It stands
//!   for what the stage has had of its inputs or read of its bytes, and how many records it has given.
//! - [`what_is_fine`] and the functions beside it are the laws that a plan asks of its stages, and
//!   [`trees_are_plans`] says that all trees of such stages are plans.
#![tactic(auto)]

mod laws;
mod node;

pub use laws::{
    kept_stages_are_limited, mergings_are_lawful, mergings_keep_fine, readings_are_lawful,
    readings_keep_fine, singles_are_lawful, singles_are_limited, singles_keep_fine,
    trees_are_plans, what_is_fine,
};
pub use node::Node;
