//! Nets: nodes and their links, moved turn by turn as hum_turns says.
//!
//! - [`Web`] is the nodes of a plan and the link of each. One turn of it is one step of the plan's
//!   turns, whatever bytes are still to come.
//! - [`Link`] is what joins a stage to its reader: a ring of records, and one end, which takes no
//!   room.
//! - [`Net`] is a web whose last stage is written, by [`write_record`].
#![tactic(auto)]

mod link;
mod net;
mod takers;
mod web;
mod writing;

pub use link::{Link, Taken};
pub use net::Net;
pub use web::Web;
pub use writing::{WriteFailed, write_record};
