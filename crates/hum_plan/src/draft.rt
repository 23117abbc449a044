//! A plan in the making.
ghost use Rattle.std.specs.Prelude.{◌≤◌, length};

use crate::branches::Branches;
use crate::stages::PlanStage;
use std::alloc::Global;

/// The stages so far, and the branches of the lines before.
#[derive(Drop)]
pub(crate) struct Draft<'a> {
    pub(crate) alloc: Global,
    pub(crate) stages: Vec<PlanStage>,
    pub(crate) branches: Branches<'a>,
    ghost within: { length stages.items ≤ 64 },
}
