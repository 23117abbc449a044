//! The command cleave: several spines of one kind become one (Humdrum Toolkit: Reference Manual,
//! cleave).
//!
//! [`CleaveOptions`] name the opening spines and what they become; [`Cleave`] is the stage that
//! puts the tokens of all columns that come of them into one column, at the leftmost one's place.
#![tactic(auto)]

mod barlines;
mod columns;
mod merging;
mod records;
mod tokens;

pub use columns::CleaveColumns;
pub use hum_choices::{CleaveOptions, is_name, is_separator};
use hum_stage::AtOnce;

/// The command cleave, as a stage.
///
/// It refuses an interpretation after the opening record by C2 where a cleaved column has an
/// exclusive one; else by C1 where a cleaved column has `*x` or `*+`, where some cleaved columns
/// end and others don't, or where one join has cleaved columns and others; a record by L1 that
/// would be too long; and by L2 what there is no room for.
///
/// What it remembers is one mark for each spine, and the spines' exclusive interpretations.
pub type Cleave = AtOnce<CleaveColumns>;
