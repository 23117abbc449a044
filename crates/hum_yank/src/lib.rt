//! The command yank: the passages that are chosen, by line, number, occurrence or section.
//!
//! A passage is a stretch of records from a marker to before the next (Humdrum Toolkit: Reference
//! Manual, `yank`). Its data records and comments stay where it is chosen; interpretations always
//! do. Passages can also be chosen by their distance from the last one (`$`), and then records
//! wait until that is known.
#![tactic(auto)]

mod held;
mod marking;
mod memory;
mod passages;
mod ranges;

pub use hum_choices::{Markers, YankOptions, YankRange};
use hum_stage::Lagging;
pub use memory::PassageMemory;

/// The command yank, as a stage.
///
/// H1: a record that is still undecided with 65,536 records behind it is refused, at its line.
pub type Yank = Lagging<PassageMemory>;
