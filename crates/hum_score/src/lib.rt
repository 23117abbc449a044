//! What a Humdrum score is: its records, its spines, and the rules that both keep.
//!
//! A line whose text begins with `!!` is a *global comment* and belongs to no spine. Any other
//! line has one *token* for each spine, a tab between two, and its tokens are all local comments
//! (they begin with `!`), all interpretations (they begin with `*`) or all data (they begin with
//! neither). Tokens of interpretations say how the spines split, join, change places, open and end.
//! The rules are those of the Humdrum Toolkit's reference manual, in its chapter on the
//! syntax (<https://www.humdrum.org/guide/ch05/>); their codes are in `docs/SYNTAX.md`.
//!
//! Here are the words in which the other crates speak of scores: most of them are definitions
//! (`specs/`), and few are code.
#![tactic(auto)]

mod records;
mod spines;

pub use records::{Kind, RecordFault, SpinedKind};
pub use spines::{Move, PathFault, Sign, token_sign};
