//! Laws between commands: what an analyst may lean on when stages of a plan change places, fall away
//! or undo one another.
//!
//! Each function takes a closed score, runs both sides of a law on it, and answers what each side
//! gives. Its contract says that these are what the commands mean, and how they are related.
#![tactic(auto)]

mod columns;
mod commands;
mod fill;
mod given;
mod looks;
mod notes;
mod pitches;
mod rid;
mod trans;

pub use columns::{all_fields, extract_ditto, names_twice};
pub use fill::ditto_twice;
pub use given::{ClosedScore, Given, Sides};
pub use looks::{all_lines, context_of_one};
pub use notes::told_once;
pub use pitches::{interval_leads, intervals_add_up};
pub use rid::{comments_aside, rid_by_letters, rid_twice};
pub use trans::{durations_stay, semits_shifted, there_and_back, transpositions_add_up};
