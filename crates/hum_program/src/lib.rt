//! The program: what it does with its words, its input, its files and its output.
//!
//! Without a file the input is a bundle: the plan's lines, then for each score a line `--- NAME`
//! and its bytes. With one that file is the plan, and `read FILE` opens FILE.
#![tactic(auto)]

mod ending;
mod folder;
mod line;
mod program;
mod reading;
mod runs;

pub use ending::Ending;
pub use folder::Folder;
pub use line::{Choice, LineFault, Side, read_line};
pub use program::run_program;
