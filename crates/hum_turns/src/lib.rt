//! Every order of turns: what a plan of stages writes does not depend on who works when.
//!
//! A **plan** is a list of stages, each of which reads from lower ones or from bytes; the last
//! one gives the plan's list, which a sink writes. A stage is known by its contract alone: what
//! it gives, wants and refuses is a function of the bytes that it has read and of what it has had
//! of its sources, and what it has given stays given when more comes. Records may be of any type.
//!
//! Stages are joined by **links** that hold so many records and one end. In one **turn** an actor
//! (a stage or the sink) moves one record, or reads bytes, or passes on its end. Whoever is ready
//! may be next. The theorem is on every list of such turns, so on every order:
//!
//! - what each link has had is a prefix of what its stage means over its whole inputs, also where
//!   the inputs go on in another way than they did ([`every_order`]: `front`, `any_rest`);
//! - a link never holds more than its size (`links`);
//! - until the run is over some actor is ready, and whoever is ready has a turn (`progress`,
//!   `goes`);
//! - the turns of each actor are bounded by what it moved, all of them by what all moved, and a
//!   run's by its plan alone (`each`, `all`, `bounded`);
//! - when the sink has heard the last stage's end, it has had the plan's whole list (`whole`);
//! - the end that it heard is the fault of the lowest-numbered stage that refuses, the one met
//!   where the stages are evaluated one after another ([`whose_fault`]);
//! - where each stage makes scores of scores, what the plan means is one ([`every_meaning_is_fine`]);
//! - a failed read, a failed write or running out of memory may end a run at any turn: what was written
//!   is still a prefix of the plan's text, for every way in which the inputs may go on
//!   ([`every_turn`]: `front`);
//! - so a run that has ended did so by a failure, or it has written exactly the plan's text and
//!   its result is what the plan means ([`every_end`]);
//! - an order that picks the next actor by what is ready, and may remember, is always given a
//!   turn while the run goes on ([`every_pick`]), and where nothing fails it comes to the end
//!   ([`every_order_ends`]);
//! - a turn changes only links that its actor looks at, so who looks at none of these stays as
//!   ready as it was ([`every_turn_is_near`]);
//! - a source that reads bytes gives nothing in that turn, and it sets its end in the turn that meets it
//!   ([`every_source_marks`]).
//!
//! Each of these is the contract of a function without a body: its statement stands in `specs`,
//! and what the words mean too. [`Order`] is what code drives a run by, and [`RunResult`] how a
//! run ends.
#![tactic(auto)]

mod order;
mod result;
mod theorems;

pub use order::{Leftmost, Order, Rightmost, Side, choose};
pub use result::RunResult;
pub use theorems::{
    every_end, every_meaning_is_fine, every_order, every_order_ends, every_pick,
    every_source_marks, every_turn, every_turn_is_near, whose_fault,
};
