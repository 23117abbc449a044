//! The options of a command, as the words behind it in a plan give them.
//!
//! An option is `-` and a letter, and its value, if it takes one, is the next word. Each command
//! has a table: its options, each with the kind of its value, and groups of options of which a
//! stage has at most one. The words are read in one pass, and the first rule that they break is
//! answered; what they give together is the command's options. The letters are those of the
//! Humdrum Toolkit's reference manual.
//!
//! Each kind of value is a small grammar over the bytes of a word, and a text has one reading by it
//! or none. The values are those that the commands take, so what their options ask of a value holds
//! of each that is read. The kinds are those of the manual too (`extract -f`, `yank -r`,
//! `context -n`, `trans -d`, `timebase -t`).
#![tactic(auto)]

mod cutting;
mod faults;
mod fields;
mod given;
mod grammar;
mod items;
pub mod laws;
mod letters;
mod naming;
mod numbers;
mod options;
mod passages;
mod reading;
mod steps;
mod values;

pub use faults::{OptionError, OptionFault, OptionRule, PatternRefusal};
pub use fields::{count, field_ranges};
pub use naming::{is_label, names};
pub use numbers::{number, signed_number};
pub use passages::passage_ranges;
pub use reading::read_options;
pub use steps::step;
