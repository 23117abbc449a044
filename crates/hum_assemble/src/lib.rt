//! The command assemble: several scores side by side in one.
//!
//! Each source is a score. Its columns stand beside those of the others, and the records that stand
//! at the same step of each score are given as one, filled by null tokens (Humdrum Toolkit:
//! Reference Manual, assemble). [`Assemble`] keeps one record of each source at most.
#![tactic(auto)]

mod assemble;
mod places;
mod placing;
mod round;
mod source_head;

pub use assemble::Assemble;
