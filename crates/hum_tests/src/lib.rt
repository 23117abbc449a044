//! Tests of the libraries: the command line, lines, records and spines, columns, patterns, fractions,
//! pitches and durations, the stages of commands, laws, turns, links, and nets of plans.
//!
//! They call what any crate may call, and stand in a crate of their own: so no library is proved once more
//! with its tests. What the program shows is tested by the rows of the folder `tests`.
#![tactic(auto)]

#[cfg(test)]
mod chosen;
#[cfg(test)]
mod compared;
pub mod example;
#[cfg(test)]
mod faults;
#[cfg(test)]
mod frac;
#[cfg(test)]
mod gathered;
#[cfg(test)]
mod kern;
#[cfg(test)]
mod laws;
#[cfg(test)]
mod limits;
#[cfg(test)]
mod lines;
#[cfg(test)]
mod links;
#[cfg(test)]
mod many;
#[cfg(test)]
mod memory;
#[cfg(test)]
mod nets;
#[cfg(test)]
mod nodes;
#[cfg(test)]
mod origins;
#[cfg(test)]
mod packets;
#[cfg(test)]
mod path;
#[cfg(test)]
mod pattern;
#[cfg(test)]
mod pitch;
#[cfg(test)]
mod programs;
#[cfg(test)]
mod read;
#[cfg(test)]
mod record;
#[cfg(test)]
mod scores;
#[cfg(test)]
mod serving;
#[cfg(test)]
mod sources;
#[cfg(test)]
mod spread;
#[cfg(test)]
mod stages;
#[cfg(test)]
mod text;
#[cfg(test)]
mod turns;
