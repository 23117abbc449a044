//! How many of the records that wait stand before one that is known to be too long.
ghost use Rattle.std.specs.Prelude.{◌≡◌, ◌<◌, ◌≤◌, ◌+◌, ◌∷◌, ℕ, List, [], length, drop, None, if◌then◌else◌};
ghost use Rattle.hum_score.specs.Score.{path_after};
ghost use Rattle.hum_stage.specs.Settles.{lasting, or_stop};
ghost use Rattle.hum_score.specs.Row.{Row};
ghost use Rattle.hum_context.specs.Context.{Choice, context, taken};
ghost use Rattle.hum_context.specs.Heard.{wanted_of};
ghost use Rattle.hum_context.specs.Queue.{Knows};

use crate::becoming::{Weight, weigh};
use crate::queued::Queued;
use hum_stage::MOST_RECORDS;
use std::collections::VecDeque;

/// Whether the k-th record that waits is known to be too long.
fn is_refused(held: &VecDeque<Queued>, k: usize, wanted: Option<u16>) -> bool
    requires few { length held.now.items ≤ MOST_RECORDS }
    requires within { k < length held.now.items }
    ensures { (o : Choice) (past : List Row) (row : Row) (rows : List Row)
        → wanted ≡ wanted_of o.extent → taken o.extent [] ≡ None
        → Knows o (path_after past) (drop k held.now.items) (row ∷ rows)
        → (n : ℕ) → or_stop (context o past row rows) n ≡ (if result then 0 else n + 1) }
{
    if held[k].is_quiet() {
        return false;
    }
    match weigh(held, k, wanted) {
        Weight::Long => true,
        Weight::Undecided => false,
        Weight::Fits => false,
    }
}

/// How many records stand before the first that is known to be refused.
pub(crate) fn lasting(held: &VecDeque<Queued>, wanted: Option<u16>) -> usize
    requires few { length held.now.items ≤ MOST_RECORDS }
    ensures { (o : Choice) (past rows : List Row) → wanted ≡ wanted_of o.extent
        → taken o.extent [] ≡ None → Knows o (path_after past) held.now.items rows
        → result ≡ lasting (context o) past rows }
{
    for k in 0..held.len() {
        if is_refused(held, k, wanted) {
            return k;
        }
    }
    held.len()
}
