//! Letting records go that waited.
ghost use Rattle.std.specs.Prelude.{◌≤◌};
ghost use Rattle.std.specs.VecDeque.{deque_len};
ghost use Rattle.hum_stage.specs.Refusals.{IfAnswered};
ghost use Rattle.hum_stage.specs.Settles.{HasSettledNext, with_next};

use crate::MOST_WAITING;
use crate::faults::{Refusal, Rule};
use crate::looks_ahead::{LooksAhead, Verdict};
use hum_record::{Record, Spare};
use std::collections::VecDeque;

/// Lets the first records that wait go, up to one that becomes a record, and answers that record;
/// none where no more wait or the next is undecided.
///
/// # Errors
/// The rule by which the next is refused, H1 where it is undecided with 65,536 behind it; or out of
/// memory.
pub fn settle_next<C: LooksAhead>(
    memory: &mut C,
    pool: &mut Spare,
    waiting: &mut VecDeque<C::Held>,
) -> Result<Option<Record>, Refusal>
    ensures fewer { IfAnswered result (λ next. with_next next (deque_len waiting.new)
        ≤ deque_len waiting.old) }
    ensures settles { IfAnswered result (λ next. HasSettledNext MOST_WAITING
        (C.follows memory.old waiting.old.items) (C.follows memory.new waiting.new.items)
        (deque_len waiting.new) next) }
{
    while !waiting.is_empty() {
        match memory.settle(pool, waiting)? {
            Verdict::Waits => {
                if waiting.len() > MOST_WAITING {
                    return Err(Refusal::Rule(Rule::H1));
                }
                return Ok(None);
            }
            Verdict::Gives(None) => {}
            Verdict::Gives(Some(due)) => return Ok(Some(due)),
        }
    }
    Ok(None)
}
