//! Several scores side by side, record by record.
ghost use Rattle.std.specs.Prelude.{◌≡◌, ◌≤◌, ◌<◌, ◌+◌, ◌⊎◌, ℕ, true, false, List, [], length, map};
ghost use Rattle.std.specs.Prelude.{is_none, None, Some, Option, IfSome, IfOk, OnOk, OnErr, IsErr};
ghost use Rattle.std.specs.List.{position_from};
ghost use Rattle.hum_words.specs.declared.commands.Command.TheVariants.{Assemble as AssembleCommand};
ghost use Rattle.hum_record.specs.Room.{rooms_for};
ghost use Rattle.hum_stage.specs.declared.faults.Fault.{Fault};
ghost use Rattle.hum_stage.specs.Meaning.{fault_at, resting_state, readiness_by};
ghost use Rattle.hum_assemble.specs.Change.{Input, More, Ends, IsOpenInput};
ghost use Rattle.hum_assemble.specs.{Groups.GivesByGroups, Groups.IsTakenByGroups};
ghost use Rattle.hum_assemble.specs.Meaning.{Moment, MayPut, MayEnd, HasChanged, HasTaken};
ghost use Rattle.hum_assemble.specs.Meaning.{state_of, wants_of, held_at, lower, inputs_end};
ghost use Rattle.hum_assemble.specs.Meaning.{heads, waiting_by, waiting_at};
ghost use Rattle.hum_assemble.specs.Meaning.{HasGrown, held_by, total, empty_moment, KeepsScores};
ghost use Rattle.hum_assemble.specs.Meaning.{all_of, output, GivesOneAsItIs};
ghost use Rattle.hum_assemble.specs.Standing.{Stands, HoldOneEach, state_by, wants_by};

use crate::places::Next;
use crate::round::{ahead_open, give, look_ahead};
use crate::source_head::SourceHead;
use hum_record::{Record, Spare};
use hum_stage::{Command, End, Fault, MOST_RECORDS, Readiness, Rule, State};
use std::alloc::{AllocError, Global};
use std::marker::Model;

/// Several scores side by side, of each of which one record is kept at most.
///
/// It is served as a stage is, but that it names the source whose record it wants
/// ([`Assemble::wants`]). It wants until every source has ended, also after a fault of its own.
#[derive(Drop)]
pub struct Assemble {
    alloc: Global,
    stage: u8,
    sources: Vec<SourceHead>,
    given: u64,
    // whether a round goes on, and what can be done next
    going: bool,
    next: Next,
    spent: bool,
}

impl Model for Assemble {
    ghost use Rattle.hum_assemble.specs.Standing.{Assembler, IsTold};

    ghost Value = { Assembler };

    ghost view = { λ a. record {
      stage = a.stage;
      merge = record { sources = a.sources.items; given = a.given };
      spent = a.spent;
    } };

    ghost invariant = { λ a. IsTold a.sources.items a.given a.going a.next a.spent };
}

/// The lower-numbered fault.
fn lower(a: End, b: End) -> End
    ensures { result ≡ lower a b }
{
    match (a, b) {
        (End::Closed, b) => b,
        (a, End::Closed) => a,
        (End::Broken(f), End::Broken(g)) => { if g.stage < f.stage { b } else { a } }
    }
}

/// The lowest-numbered fault of the sources, if all have ended.
fn inputs_end(sources: &[SourceHead]) -> Option<End>
    ensures { result ≡ inputs_end (map (λ s. s.ended) sources.now) }
{
    let [source, rest @ ..] = sources else {
        return Some(End::Closed);
    };
    let end = source.ended()?;
    let others = inputs_end(rest)?;
    Some(lower(end, others))
}

/// The leftmost source that hasn't ended.
#[inline(never)]
fn first_open(sources: &[SourceHead]) -> Option<usize>
    ensures { result ≡ position_from is_none 0 (map (λ s. s.ended) sources.now) }
{
    sources
        .iter()
        .map(|source| source.ended())
        .position(|end| end.is_none())
}

/// How many records wait.
fn count(sources: &[SourceHead]) -> usize
    ensures total { result ≡ total sources.now }
    ensures at_most { result ≤ length sources.now }
    ensures each { HoldOneEach sources.now }
{
    match sources {
        [] => 0,
        [source, rest @ ..] => source.held() + count(rest),
    }
}

/// The own fault, if no source is broken, once all have ended.
fn refused(end: Option<End>, stage: u8, given: u64, rule: Rule) -> State
    requires { given ≤ MOST_RECORDS }
    ensures { result
        ≡ resting_state (fault_at stage AssembleCommand (Some (given + 1, rule))) end }
{
    match end {
        None => State::Wants,
        Some(End::Broken(fault)) => State::Done(End::Broken(fault)),
        Some(End::Closed) => State::Done(End::Broken(Fault {
            stage,
            command: Command::Assemble,
            line: given + 1,
            rule,
        })),
    }
}

/// What an assembler is ready for that gives no more.
fn resting(end: Option<End>) -> Readiness
    ensures { (own : Option Fault) → result ≡ readiness_by (resting_state own end) }
{
    match end {
        None => Readiness::Wants,
        Some(_) => Readiness::Done,
    }
}

/// What an assembler is ready for, by what can be done next.
fn state_by(sources: &[SourceHead], stage: u8, given: u64, next: Next) -> State
    requires { given ≤ MOST_RECORDS }
    ensures { result
        ≡ state_by stage (record { sources = sources.now; given = given }) next }
{
    match next {
        Next::Gives(_) => State::Gives,
        Next::Wants(_) => State::Wants,
        Next::Over => match inputs_end(sources) {
            None => State::Wants,
            Some(end) => State::Done(end),
        },
        Next::Refused(rule) => refused(inputs_end(sources), stage, given, rule),
    }
}

/// The same without its end.
fn readiness_by(sources: &[SourceHead], next: Next) -> Readiness
    ensures { (stage given : ℕ) → result
        ≡ readiness_by (state_by stage (record { sources = sources.now; given = given }) next) }
{
    match next {
        Next::Gives(_) => Readiness::Gives,
        Next::Wants(_) => Readiness::Wants,
        Next::Over => resting(inputs_end(sources)),
        Next::Refused(_) => resting(inputs_end(sources)),
    }
}

/// The source whose record or end it wants.
fn wants_by(sources: &[SourceHead], next: Next) -> Option<usize>
    ensures { (given : ℕ)
        → result ≡ wants_by (record { sources = sources.now; given = given }) next }
{
    match next {
        Next::Gives(_) => None,
        Next::Wants(j) => Some(j),
        Next::Over => first_open(sources),
        Next::Refused(_) => first_open(sources),
    }
}

/// How many records wait inside, as long as more can be given.
fn held_by(sources: &[SourceHead], next: Next) -> usize
    ensures held { result ≡ held_by sources.now next }
    ensures at_most { result ≤ length sources.now }
    ensures each { HoldOneEach sources.now }
{
    let all = count(sources);
    match next {
        Next::Gives(_) => all,
        Next::Wants(_) => all,
        Next::Over => 0,
        Next::Refused(_) => 0,
    }
}

/// How many bytes the records that wait take.
fn room_of(sources: &[SourceHead]) -> usize
    ensures { result ≤ rooms_for (heads sources.now) }
{
    match sources {
        [] => 0,
        [source, rest @ ..] => source.room().saturating_add(room_of(rest)),
    }
}

/// How many bytes the records that wait inside take, as long as more can be given.
fn room_by(sources: &[SourceHead], next: Next) -> usize
    ensures { result ≤ rooms_for (waiting_by sources.now next) }
{
    match next {
        Next::Gives(_) => room_of(sources),
        Next::Wants(_) => room_of(sources),
        Next::Over => 0,
        Next::Refused(_) => 0,
    }
}

impl Assemble {
    /// The stage of this number, from 1, over so many sources, of which nothing was put yet.
    ///
    /// # Errors
    /// Out of memory.
    pub fn new(alloc: Global, stage: u8, sources: usize) -> Result<Assemble, AllocError>
        requires { sources ≤ 15 }
        ensures stands { IfOk result (λ a. Stands a (empty_moment stage sources)) }

        // Of scores it makes scores.
        ensures keeps { KeepsScores stage }

        // What is given of scores is what their groups give, round by round; the own fault is that
        // of the first record at which writing stops.
        ensures groups { GivesByGroups }

        // One score alone is given as it is.
        ensures one { GivesOneAsItIs }

        // It gives no more records than a score may have.
        ensures few { (xs : List Input) → length (output xs) ≤ MOST_RECORDS }
    {
        let mut heads = Vec::new(alloc);
        for _ in 0..sources {
            heads.push(SourceHead::new(alloc))?;
        }
        let (going, next) = look_ahead(&heads, 0);
        Ok(Assemble {
            alloc,
            stage,
            sources: heads,
            given: 0,
            going,
            next,
            spent: false,
        })
    }

    /// Puts the next record of the source that is wanted, and tells what it is ready for then; the records of that
    /// source are then a score. A record that it has no use for goes to the pool.
    ///
    /// # Errors
    /// Out of memory, which each later call that takes memory answers again.
    pub fn put_with(&mut self, next: Record, pool: &mut Spare) -> Result<Readiness, AllocError>
        requires { self.old.spent ≡ true ⊎ ((source : ℕ) × MayPut (Stands self.old) source next) }
        ensures ok { OnOk result ((source : ℕ) → MayPut (Stands self.old) source next
            → HasChanged (Stands self.old) (Stands self.new) source (More next)) }
        ensures grows { (source : ℕ) → MayPut (Stands self.old) source next
            → HasGrown (Stands self.old) source (More next) }
        ensures ready { IfOk result (λ is. (t : Moment) → Stands self.new t
            → is ≡ readiness_by (state_of t)) }
        ensures err { OnErr result (self.new.spent ≡ true) }
        ensures stays_spent { self.old.spent ≡ true → IsErr result }
    {
        if self.spent {
            return Err(AllocError);
        }
        let Next::Wants(source) = self.next else {
            pool.keep(next);
            return Ok(self.readiness());
        };
        // the others show what they did, and those before it all that is asked
        self.sources[source].put(next, pool);
        self.next = ahead_open(&self.sources, self.given, self.going, source + 1);
        Ok(self.readiness())
    }

    /// [`Assemble::put_with`] without a pool.
    ///
    /// # Errors
    /// Out of memory, which each later call that takes memory answers again.
    pub fn put(&mut self, _source: usize, next: Record) -> Result<(), AllocError>
        requires { self.old.spent ≡ true ⊎ MayPut (Stands self.old) _source next }
        ensures ok { OnOk result
            (HasChanged (Stands self.old) (Stands self.new) _source (More next)) }
        ensures grows { HasGrown (Stands self.old) _source (More next) }
        ensures err { OnErr result (self.new.spent ≡ true) }
        ensures stays_spent { self.old.spent ≡ true → IsErr result }
    {
        let mut pool = Spare::none(self.alloc);
        self.put_with(next, &mut pool)?;
        Ok(())
    }

    /// Says how the source that is wanted ends: closed only after a closed score.
    pub fn end(&mut self, source: usize, end: End)
        requires { self.old.spent ≡ true ⊎ MayEnd (Stands self.old) source end }
        ensures ended { HasChanged (Stands self.old) (Stands self.new) source (Ends end) }
        ensures grows { HasGrown (Stands self.old) source (Ends end) }
        ensures stays_spent { self.old.spent ≡ true → self.new.spent ≡ true }
    {
        if self.spent {
            return;
        }
        self.sources[source].end(end);
        let (going, next) = look_ahead(&self.sources, self.given);
        self.going = going;
        self.next = next;
    }

    /// The next record that is settled, if there is one, and what it is ready for then. Those of which it is made
    /// go to the pool.
    ///
    /// # Errors
    /// Out of memory, which each later call that takes memory answers again.
    pub fn take_with(&mut self, pool: &mut Spare) -> Result<(Option<Record>, Readiness), AllocError>
        ensures ok { IfOk result (λ r. HasTaken (Stands self.old) (Stands self.new) r.0) }

        // Of scores it is the next of those that their groups give.
        ensures groups { IfOk result (λ r. IsTakenByGroups (Stands self.old) r.0) }
        ensures ready { IfOk result (λ r. (t : Moment) → Stands self.new t
            → r.1 ≡ readiness_by (state_of t)) }
        ensures err { OnErr result (self.new.spent ≡ true) }
        ensures stays_spent { self.old.spent ≡ true → IsErr result }
    {
        if self.spent {
            return Err(AllocError);
        }
        let Next::Gives(place) = self.next else {
            return Ok((None, self.readiness()));
        };
        self.spent = true;
        let row = give(self.alloc, &mut self.sources, self.going, place, pool)?;
        self.given += 1;
        let (going, next) = look_ahead(&self.sources, self.given);
        self.going = going;
        self.next = next;
        self.spent = false;
        Ok((Some(row), self.readiness()))
    }

    /// [`Assemble::take_with`] without a pool.
    ///
    /// # Errors
    /// Out of memory, which each later call that takes memory answers again.
    pub fn take(&mut self) -> Result<Option<Record>, AllocError>
        ensures ok { IfOk result (HasTaken (Stands self.old) (Stands self.new)) }

        // Of scores it is the next of those that their groups give.
        ensures groups { IfOk result (IsTakenByGroups (Stands self.old)) }
        ensures err { OnErr result (self.new.spent ≡ true) }
        ensures stays_spent { self.old.spent ≡ true → IsErr result }
    {
        let mut pool = Spare::none(self.alloc);
        let (taken, _) = self.take_with(&mut pool)?;
        Ok(taken)
    }

    /// What it is ready for, as [`Assemble::state`] says without its end.
    pub fn readiness(&self) -> Readiness
        ensures { (t : Moment) → Stands self.now t → result ≡ readiness_by (state_of t) }
    {
        readiness_by(&self.sources, self.next)
    }

    /// What it is ready for: it gives while it has records that are settled, then wants until
    /// every source has ended. It is done then, with the lowest-numbered fault of a source, else
    /// its own.
    pub fn state(&self) -> State
        ensures { (t : Moment) → Stands self.now t → result ≡ state_of t }
    {
        state_by(&self.sources, self.stage, self.given, self.next)
    }

    /// The source, counted from 0, whose record or end it wants: the leftmost whose record is
    /// needed; once nothing more can be given, the leftmost that hasn't ended.
    pub fn wants(&self) -> Option<usize>
        ensures wanted { (t : Moment) → Stands self.now t → result ≡ wants_of t }

        // That source hasn't ended.
        ensures awaits { (t : Moment) → Stands self.now t
            → IfSome result (λ j. IsOpenInput j t.inputs) }
    {
        wants_by(&self.sources, self.next)
    }

    /// How many records wait inside: at most one of each source.
    pub fn held(&self) -> usize
        ensures held { (t : Moment) → Stands self.now t → result ≡ held_at t }
        ensures at_most { (t : Moment) → Stands self.now t → result ≤ length t.inputs }
        ensures each { HoldOneEach self.now.merge.sources }

        // At most so many records are taken before the next is put.
        ensures takes { (t : Moment) → Stands self.now t
            → length (all_of t) ≤ t.given + result }
    {
        held_by(&self.sources, self.next)
    }

    /// How many bytes the records that wait inside take, beside their own size: no more than what they say needs.
    pub fn room(&self) -> usize
        ensures { (t : Moment) → Stands self.now t → result ≤ rooms_for (waiting_at t) }
    {
        room_by(&self.sources, self.next)
    }
}
