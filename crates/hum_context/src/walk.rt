//! What a walk down a spine has come to.
ghost use Rattle.std.specs.Prelude.{◌≤◌};
ghost use Rattle.hum_stage.specs.declared.TheConstants.{MOST_RECORDS};

use crate::short::ShortText;
use hum_stage::MOST_RECORDS;

/// What a walk from a cell down its spine has come to.
#[derive(Clone, Copy)]
pub(crate) struct Walk {
    /// How many records had come before the next one.
    pub(crate) at: u64,
    /// The column of the next cell, if there is one.
    pub(crate) column: Option<usize>,
    /// How many tokens are collected.
    pub(crate) count: u64,
    /// Their text, where so many are wanted.
    pub(crate) text: ShortText,
    /// Whether they are enough.
    pub(crate) enough: bool,
    /// Whether the future is ended.
    pub(crate) ended: bool,
    /// How many records had come when it was last asked how far it goes.
    pub(crate) seen: u32,
    pub ghost within: { (at ≤ MOST_RECORDS) × (count ≤ at) },
}
