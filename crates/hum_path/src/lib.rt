//! Spine paths: how the columns of a score split, join, change places, open and end.
//!
//! [`Paths`] follows a score record by record and refuses the first record that breaks a path rule
//! (Humdrum Toolkit: Reference Manual, syntax; the rules and their codes are in `docs/SYNTAX.md`).
//!
//! [`Moves`] says where each spine after a record comes from; [`Carried`] takes along what is
//! remembered of each spine, [`Origins`] tell which opening spine each comes from, and [`Marks`] for
//! each column whether it is marked.
#![tactic(auto)]

mod carried;
pub mod laws;
mod marks;
mod moved;
mod origins;
mod rules;
mod signs;
mod spine_paths;
mod steering;

pub use carried::{Carried, ColumnMemory};
pub use hum_score::{Move, PathFault, Sign, token_sign};
pub use marks::Marks;
pub use moved::Moves;
pub use origins::Origins;
pub use signs::{has_exclusive, steers};
pub use spine_paths::Paths;

/// How many spines a record may have.
pub const MOST_SPINES: usize = 4096;
