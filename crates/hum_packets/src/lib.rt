//! Lists of packets in two streams: what is asked, and its answers.
//!
//! A packet is four hexadecimal digits, which count themselves and the bytes behind them; `0000` ends a list of packets.
//! [`Packets`] reads them and [`Answers`] writes them. Nothing is read while an answer waits.
#![tactic(auto)]

mod answers;
pub mod laws;
mod packets;
mod stop;
mod texts;
mod writing;

pub use answers::Answers;
pub use packets::Packets;
pub use stop::Stop;
pub use texts::{Text, read_text};
