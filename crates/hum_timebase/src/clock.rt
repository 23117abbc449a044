//! The time of each record.
ghost use Rattle.std.specs.Prelude.{◌≡◌, ◌==◌, ◌&&◌, ◌+◌, ◌<◌, ◌^◌, IfOk, OnOk, IfErr, Ok, Err, None, Some, []};
ghost use Rattle.hum_frac.specs.Multiples.{is_multiple};
ghost use Rattle.hum_timebase.specs.{Clock.time_after, Placed.OfColumns};
ghost use Rattle.hum_timebase.specs.Timebase.{multiples_from, count_before, count_after};

use crate::ends::{drop_untimed, ends_by, has_clash, next_end, sound};
use crate::notes::NoteAt;
use hum_frac::Frac;
use hum_path::{Marks, Moves};
use hum_stage::Rule;
use std::alloc::{AllocError, Global};
use std::marker::Model;

/// How many multiples of the step there are from `a`, it included, to `b`, that not included.
#[tactic(auto, using(crate::proofs::Late::none_from))]
fn multiples_from(a: Frac, b: Frac, step: Frac) -> u128
    requires { 0 < step.top }
    ensures count { result ≡ multiples_from a b step }
    ensures below { result < 2 ^ 127 + 1 }
{
    if a >= b {
        return 0;
    }
    let (on_grid, count) = a.multiples_to(b, step);
    if on_grid { count + 1 } else { count }
}

/// How many from the least end after the last timed record to the time of this one.
fn count_before(step: Frac, end: Option<Frac>, time: Frac) -> u128
    requires { 0 < step.top }
    ensures { result ≡ count_before step end time }
{
    match end {
        None => 0,
        Some(end) => multiples_from(end, time, step),
    }
}

/// Whether a time is on the grid, and how many of its places are between the time and the least end
/// after it.
fn grid_after(step: Frac, time: Frac, end: Option<Frac>) -> (bool, u128)
    requires { 0 < step.top }
    ensures stays { result.0 ≡ is_multiple time step }
    ensures after { result.1 ≡ count_after step time end }
{
    match end {
        None => (time.is_multiple(step), 0),
        Some(end) => time.multiples_to(end, step),
    }
}

/// The time of a timed record, by that of the last one and the ends before its cells.
fn time_after(last: Option<Frac>, ends: &[Option<Frac>]) -> Option<Frac>
    ensures { result ≡ time_after last ends.now }
{
    match last {
        None => Some(Frac::zero()),
        Some(last) => next_end(last, ends),
    }
}

/// What a timed record becomes: so many null records, itself if its time is on the grid, and so
/// many null records.
#[derive(Clone, Copy)]
pub(crate) struct Strike {
    pub(crate) before: u128,
    pub(crate) stays: bool,
    pub(crate) after: u128,
}

impl Strike {
    /// Whether the record stays, and no null records stand round it.
    pub(crate) fn is_lone(self) -> bool
        ensures { result ≡ (self.stays && ((self.before == 0) && (self.after == 0))) }
    {
        self.stays && self.before == 0 && self.after == 0
    }
}

/// The time of the last timed record, the least end after it, and one end for each spine.
#[derive(Drop)]
pub(crate) struct Clock {
    last: Option<Frac>,
    next: Option<Frac>,
    ends: Vec<Option<Frac>>,
    // no end was dropped or moved since the last timed record: the least one is the next time
    is_settled: bool,
}

impl Model for Clock {
    ghost use Rattle.hum_timebase.specs.Kept.{Kept, IsSettledIf};

    ghost Value = { Kept };

    ghost view = { λ c. record { last = c.last; next = c.next; ends = c.ends.items } };

    ghost invariant = { λ c. IsSettledIf c.is_settled c.last c.next c.ends.items };
}

impl Clock {
    ghost use Rattle.hum_timebase.specs.Kept.{rested, led, kept_at, strike};

    /// Before the first record.
    pub(crate) fn new(alloc: Global) -> Clock
        ensures { result ≡ record { last = None; next = None; ends = [] } }
    {
        Clock {
            last: None,
            next: None,
            ends: Vec::new(alloc),
            is_settled: false,
        }
    }

    /// Takes a record whose cells stand in these columns, but for its notes.
    pub(crate) fn keep_timed(&mut self, timed: &Marks)
        ensures { self.new ≡ rested timed.now self.old }
    {
        if timed.all() {
            return;
        }
        let dropped = drop_untimed(timed.each(), &mut self.ends);
        self.is_settled &= !dropped;
    }

    /// The spines move.
    pub(crate) fn lead(&mut self, alloc: Global, found: &Moves) -> Result<(), AllocError>
        ensures { OnOk result (self.new ≡ led found.now self.old) }
    {
        let next = ends_by(alloc, &self.ends, found)?;
        self.ends = next;
        self.is_settled = false;
        Ok(())
    }

    /// The time of a timed record, by that of the last one and the ends before its cells.
    fn time(&self) -> Option<Frac>
        ensures { result ≡ time_after self.now.last self.now.ends }
    {
        if self.is_settled {
            self.next
        } else {
            time_after(self.last, &self.ends)
        }
    }

    /// How many null records stand before a timed record of this time: none where it comes at the
    /// least end after the last one.
    fn count_before(&self, step: Frac, time: Frac) -> u128
        requires positive { 0 < step.top }
        requires time { time_after self.now.last self.now.ends ≡ Some time }
        ensures { result ≡ count_before step self.now.next time }
    {
        if self.is_settled {
            return 0;
        }
        count_before(step, self.next, time)
    }

    /// Takes the notes of a timed record, and says what it becomes.
    ///
    /// # Errors
    /// B2 where the notes before it don't end at its time, or a note's own column goes on; F1 where
    /// a note's end doesn't fit.
    pub(crate) fn strike(&mut self, step: Frac, notes: &[NoteAt]) -> Result<Strike, Rule>
        requires { 0 < step.top }
        ensures made { IfOk result (λ made. OfColumns notes.now
            (λ columns. strike step self.old columns ≡ Ok made)) }
        ensures refused { IfErr result (λ rule. OfColumns notes.now
            (λ columns. strike step self.old columns ≡ Err rule)) }
        ensures after { OnOk result (OfColumns notes.now (λ columns. self.new
            ≡ kept_at (time_after self.old.last self.old.ends) columns self.old)) }
    {
        let Some(time) = self.time() else {
            return Err(Rule::B2);
        };
        if has_clash(time, notes, &self.ends) {
            return Err(Rule::B2);
        }
        let before = self.count_before(step, time);
        self.is_settled = false;
        if sound(time, notes, &mut self.ends).is_err() {
            return Err(Rule::F1);
        }
        self.last = Some(time);
        self.next = next_end(time, &self.ends);
        self.is_settled = true;
        let (stays, after) = grid_after(step, time, self.next);
        Ok(Strike {
            before,
            stays,
            after,
        })
    }
}
