//! The command extract: chosen columns (Humdrum Toolkit: Reference Manual, extract).
//!
//! A [`ExtractOptions`] names opening spines; [`Extract`] is the stage that keeps the columns that come of
//! them, along splits, joins, exchanges and added spines.
#![tactic(auto)]

mod choosing;
mod columns;
mod cutting;
mod due;
mod kept;

pub use columns::ExtractColumns;
pub use hum_choices::{ExtractOptions, Field, FieldRange};
use hum_stage::AtOnce;

/// The command extract, as a stage.
///
/// It refuses the opening record by X2 where a field beyond the width is named or no spine is
/// chosen; a later interpretation by X1 where one join has chosen and dropped columns, else by X3
/// where of two exchanged columns one is chosen, and a chosen one stands strictly between them; and
/// by L2 what there is no room for.
///
/// What it remembers is one mark for each spine, and the spines' exclusive interpretations.
pub type Extract = AtOnce<ExtractColumns>;
