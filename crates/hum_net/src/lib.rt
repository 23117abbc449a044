//! Pipelines: plans as nets of stages and links, run turn by turn.
//!
//! - [`run_scores`] runs a plan over [`Scores`] that are found by their names, [`run_bundle`] one with its scores
//!   in one stream. [`run_named`] and [`run_stages`] run a plan's stages, over such scores or over readers. An [`Outcome`]
//!   is how that ends, with its status and the line that tells it.
//! - [`Net`] is the net of a plan, which is moved turn by turn, or run in an [`Order`].
#![tactic(auto)]

mod bundles;
mod held;
mod net;
mod nodes;
mod outcome;
mod plans;
mod running;
mod scores;

pub use bundles::run_bundle;
pub use held::HeldScore;
pub use hum_plan::{Plan, PlanError, PlanFault, parse_plan};
pub use hum_text::calls::{Marked, Sink, Source};
pub use hum_turns::{Leftmost, Order, Rightmost, RunResult};
pub use net::Net;
pub use outcome::Outcome;
pub use running::run_stages;
pub use scores::{Scores, plan_stages, run_named, run_scores};
