//! The commands of one input, in one list: what they mean by their options, and their stages.
//!
//! [`CommandOptions`] are a command and what it is told to do; [`CommandStage`] is the stage of a
//! command that is told so.
#![tactic(auto)]

mod seen;
mod stages;

pub use hum_choices::CommandOptions;
pub use stages::CommandStage;
