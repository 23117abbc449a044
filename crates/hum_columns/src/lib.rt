//! Columns that are chosen by the opening spines that they come from, for commands that keep them or
//! put them together (Humdrum Toolkit: Reference Manual, extract and cleave).
//!
//! [`ChosenColumns`] say of each column whether it is chosen, and go on along splits, joins,
//! exchanges and added spines; [`is_torn`] finds the joins that such a command can't write, and
//! [`write_pieces`] writes what it makes of an interpretation, joins side by side one after another.
#![tactic(auto)]

mod columns;
mod joins;
pub mod laws;
mod marks;
mod pieces;
mod torn;
mod writing;

pub use columns::ChosenColumns;
pub use joins::write_pieces;
pub use pieces::JoinedToken;
pub use torn::is_torn;
