//! The contract of a stage.
//!
//! A state stands for a moment: the meaning of its command, the records put so far, how many
//! of what is settled were given, and the end once it came. Each call is one step from moment to
//! moment, so whatever calls were made, what a stage has given is a prefix of what its command makes
//! of its whole input, and it is all of it once the stage is done.
ghost use Rattle.std.specs.Prelude.{◌≡◌, ℕ, ◌≤◌, ◌⊎◌, length, None, false, IfOk, OnOk, OnErr, IsErr};
ghost use Rattle.hum_stage.specs.Meaning.{Moment, IsLawful, MayPut, MayEnd, all_of};
ghost use Rattle.hum_stage.specs.Meaning.{HasPut, HasPutAndTaken, HasEnded, HasTaken, LeavesFewer, ShowsHeld, ShowsRoom};
ghost use Rattle.hum_stage.specs.Meaning.{ShowsState, ShowsReadiness};

use crate::faults::{End, Readiness, State};
use hum_record::{Record, Spare};
use std::alloc::{AllocError, Global};

/// A command over a stream of records.
///
/// After running out of memory a stage is spent: each later call that takes memory answers it again.
pub trait Stage {
    /// What a state stands for.
    ghost stands: { Self → Moment → Type 0 };

    /// How many records it can give at most before it wants one.
    ghost left: { Self → ℕ };

    /// It ran out of memory, and each call that takes memory fails.
    ghost spent: { Self → Type 0 };

    /// Puts one record more into a stage that wants it; those put with this one are a score. Where it may, it
    /// takes at once the first record that this settles, if that is easily had, into a place for it. It tells
    /// what it is ready for then. A record that it is done with goes to the pool.
    fn put_with(
        &mut self,
        next: Record,
        pool: &mut Spare,
        may_take: bool,
        first: &mut Option<Record>,
    ) -> Result<Readiness, AllocError>
        requires may { spent self.old ⊎ MayPut (stands self.old) next }
        requires empty { first.old ≡ None }
        ensures ok { OnOk result
            (HasPutAndTaken (stands self.old) (stands self.new) next first.new) }
        ensures none { may_take ≡ false → OnOk result (first.new ≡ None) }
        ensures ready { IfOk result (ShowsReadiness (stands self.new)) }
        ensures err { OnErr result (spent self.new) }
        ensures stays_spent { spent self.old → IsErr result };

    /// The next record that is settled, if there is one, and what it is ready for then. A record that it makes
    /// of its own is made in what the pool has left of one that is done with.
    fn take_with(&mut self, pool: &mut Spare) -> Result<(Option<Record>, Readiness), AllocError>
        ensures ok { IfOk result (λ r. HasTaken (stands self.old) (stands self.new) r.0) }
        ensures fewer { IfOk result (λ r. LeavesFewer r.0 (left self.old) (left self.new)) }
        ensures ready { IfOk result (λ r. ShowsReadiness (stands self.new) r.1) }
        ensures err { OnErr result (spent self.new) }
        ensures stays_spent { spent self.old → IsErr result };

    /// Says that no record comes any more.
    fn end(&mut self, end: End)
        requires { spent self.old ⊎ MayEnd (stands self.old) end }
        ensures ended { HasEnded (stands self.old) (stands self.new) end }
        ensures stays_spent { spent self.old → spent self.new };

    /// What it is ready for: it gives while it has records that are settled, then wants more, and
    /// is done after the end.
    fn state(&self) -> State
        ensures { ShowsState (stands self.now) result };

    /// How many records wait inside.
    fn held(&self) -> usize
        ensures { ShowsHeld (stands self.now) result };

    /// How many bytes the records that wait inside take, beside their own size: no more than what they say
    /// needs.
    fn room(&self) -> usize
        ensures { ShowsRoom (stands self.now) result };

    /// What it takes memory from.
    fn alloc(&self) -> Global;

    /// [`Stage::put_with`] without a pool, which takes nothing.
    fn put(&mut self, next: Record) -> Result<(), AllocError>
        requires { spent self.old ⊎ MayPut (stands self.old) next }
        ensures ok { OnOk result (HasPut (stands self.old) (stands self.new) next) }
        ensures err { OnErr result (spent self.new) }
        ensures stays_spent { spent self.old → IsErr result }
    {
        let mut pool = Spare::none(self.alloc());
        self.put_with(next, &mut pool, false, &mut None)?;
        Ok(())
    }

    /// [`Stage::take_with`] without a pool.
    fn take(&mut self) -> Result<Option<Record>, AllocError>
        ensures ok { IfOk result (HasTaken (stands self.old) (stands self.new)) }
        ensures fewer { IfOk result (λ taken. LeavesFewer taken (left self.old) (left self.new)) }
        ensures err { OnErr result (spent self.new) }
        ensures stays_spent { spent self.old → IsErr result }
    {
        let mut pool = Spare::none(self.alloc());
        let (taken, _) = self.take_with(&mut pool)?;
        Ok(taken)
    }

    /// No more was given than is settled.
    ghost within: { (s : Self) (t : Moment) → stands s t → t.given ≤ length (all_of t) };

    /// What the command has settled stays, whatever follows; in a closed score it decides each record,
    /// and it never waits for more records than it may.
    ghost lawful: { (s : Self) (t : Moment) → stands s t → IsLawful t.meaning };
}
