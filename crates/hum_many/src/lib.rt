//! One plan over many cases, each of which is scores by their names.
//!
//! [`run_many`] reads a plan and then cases, as lists of packets, and answers each in turn with what is written of it
//! and how that ended. Nothing of a case is seen in the next.
#![tactic(auto)]

mod answers;
mod cases;
mod end;
mod held;
mod many;

pub use end::ManyEnd;
pub use many::run_many;
