//! Notes as other things: the commands on notes.
//!
//! What becomes of a token of a `**kern` column is told here; the frame round it, which leaves all
//! else as it is, is the crate `hum_cells`.
#![tactic(auto)]

mod hearing;
mod interval_names;
mod last_note;
mod mint;
mod minting;
mod part_rule;
mod partwise;
mod recip;
mod semitone_texts;
mod semits;
mod short_token;
mod trans;
mod transposing;

pub use hum_choices::{MintOptions, RecipOptions, SemitsOptions, TransOptions};
pub use last_note::LastNote;
pub use mint::{Mint, MintTokens};
pub use partwise::{Partwise, PartwiseColumns};
pub use recip::{Recip, RecipName};
pub use semits::{Semits, SemitsName};
pub use trans::{Trans, TransSign};
