//! Whole lists through a stage.
ghost use Rattle.std.specs.Prelude.{◌≡◌, ◌≤◌, ◌++◌, ◌∷◌, [], None, length, IfOk, OnOk};
ghost use Rattle.hum_score.specs.InOrder.{IsScore, IsClosed};
ghost use Rattle.hum_stage.specs.Meaning.{Meaning, Moment, opening, MayPut, after_put, IsWhole, TookAll};

use crate::MOST_RECORDS;
use crate::contract::Stage;
use crate::faults::{End, State};
use hum_record::{Record, Spare};
use std::alloc::{AllocError, Global};
use std::collections::VecDeque;

/// Takes all that is settled.
pub fn drain<S: Stage>(
    stage: &mut S,
    pool: &mut Spare,
    out: &mut Vec<Record>,
) -> Result<(), AllocError>
    requires { (t : Moment) × S.stands stage.old t }
    ensures { OnOk result ((t : Moment) → S.stands stage.old t
        → TookAll (S.stands stage.new) out.old.items out.new.items t) }
{
    while let Some(next) = stage.take_with(pool)?.0 {
        out.push(next)?;
    }
    Ok(())
}

/// Puts the next record, and takes all that is settled then.
fn put_and_drain<S: Stage>(
    stage: &mut S,
    next: Record,
    pool: &mut Spare,
    out: &mut Vec<Record>,
) -> Result<(), AllocError>
    requires { MayPut (S.stands stage.old) next }
    ensures { OnOk result ((t : Moment) → S.stands stage.old t → t.ended ≡ None → IsScore (t.put ++ next ∷ [])
        → TookAll (S.stands stage.new) out.old.items out.new.items (after_put t next)) }
{
    let mut first = None;
    stage.put_with(next, pool, true, &mut first)?;
    if let Some(row) = first {
        out.push(row)?;
    }
    drain(stage, pool, out)
}

/// Puts all records into a stage that was given none, and takes what it gives: exactly what its
/// command makes of the list, and how that ends.
///
/// # Errors
/// Out of memory.
pub fn whole<S: Stage + Drop>(
    alloc: Global,
    mut stage: S,
    records: Vec<Record>,
    end: End,
) -> Result<(Vec<Record>, End), AllocError>
    requires fresh { (m : Meaning) × S.stands stage (opening m) }
    requires score { IsScore records.items }
    requires closed { end ≡ End.Closed → IsClosed records.items }
    requires few { length records.items ≤ MOST_RECORDS }
    ensures { IfOk result (λ r. (m : Meaning) → S.stands stage (opening m)
        → IsWhole m records.items end r.0.items r.1) }
{
    let mut rest = VecDeque::from_vec(records);
    let mut out = Vec::new(alloc);
    let mut pool = Spare::none(alloc);
    while let Some(next) = rest.pop_front() {
        put_and_drain(&mut stage, next, &mut pool, &mut out)?;
    }
    stage.end(end);
    let State::Done(ending) = stage.state() else {
        unreachable!()
    };
    Ok((out, ending))
}
