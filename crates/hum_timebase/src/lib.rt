//! The command timebase: a score on a grid of equal durations (Humdrum Toolkit: Reference Manual,
//! timebase).
//!
//! Time is counted in whole notes from the first record with a note in a `**kern` or `**recip`
//! column. A note sounds from its record's time for its duration, and each record with a note comes
//! where the first note that sounds before it ends. [`Timebase`] is the stage that keeps the
//! records whose time is a multiple of a step, and puts null data records at the multiples between
//! them.
#![tactic(auto)]

mod clock;
mod due;
mod ends;
mod grid;
mod notes;
mod pace;
mod records;

pub use grid::Grid;
pub use hum_choices::TimebaseOptions;
use hum_stage::AtOnce;

/// The command timebase, as a stage.
///
/// It refuses a record by K3 where a duration in a timed column can't be read; by B1 where it has
/// data that are neither null nor barlines and no column is timed; by B2 where it has a note, and
/// no note that sounds before it ends, or one in the note's own column goes on; by F1 where a
/// note's end is no fraction of two numbers below 2^63; and by L2 what there is no room for.
///
/// It keeps one end for each spine, and counts null records without making them before they are
/// taken.
pub type Timebase = AtOnce<Grid>;
