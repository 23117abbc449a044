//! What the definitions of spines, of chosen and cleaved columns, of joins that are spread, of timebase's
//! clock and grid, and of passages say of each place, as contracts.
#![tactic(auto)]

pub mod clock;
pub mod columns;
pub mod grid;
pub mod passages;
pub mod spines;
pub mod spread;
