//! Pitches by their spelling, what lies between them, and how both are written.
//!
//! [`Pitch`] and [`Interval`] are those of commands on notes. The rules are those of the Humdrum
//! Toolkit's reference manual, on the representation `**kern` (<https://www.humdrum.org/rep/kern/>) and on the
//! command mint.
#![tactic(auto)]

mod between;
mod intervals;
mod naming;
mod pitch;
mod spelling;
mod widths;

pub use between::interval;
pub use intervals::Interval;
pub use naming::{push_interval, write_interval};
pub use pitch::{Pitch, PitchFault};
pub use spelling::{Repeated, accidentals, letters, push_pitch, write_pitch};
