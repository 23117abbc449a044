//! The command context: data tokens with those that come next in their spines.
//!
//! A data token becomes itself and the tokens that follow it in its spine, joined by spaces (Humdrum
//! Toolkit: Reference Manual, `context`): so many, or from one that begins a group through the one
//! that ends it. The spine is followed through splits, joins and exchanges, up to its end or its
//! next exclusive interpretation.
#![tactic(auto)]

mod becoming;
mod below;
mod heard;
mod held;
mod lasting;
mod linking;
mod links;
mod measuring;
mod memory;
mod queued;
mod saying;
mod sharing;
mod short;
mod skipping;
mod stepping;
mod text;
mod waiting;
mod walk;

pub use hum_choices::{ContextOptions, Span, TokenCount};
use hum_stage::Lagging;
pub use memory::Collecting;

/// The command context, as a stage.
pub type Context = Lagging<Collecting>;
