//! The stage round a command that decides each record at once.
ghost use Rattle.std.specs.Prelude.{◌≡◌, ◌<◌, ◌⊎◌, true, false, length, [], None, Some, Ok, is_some};
ghost use Rattle.std.specs.Prelude.{IsSomeAnd, IfOk, OnOk, OnErr, IsErr};
ghost use Rattle.hum_stage.specs.declared.faults.Rule.TheVariants.{L2};
ghost use Rattle.hum_stage.specs.Meaning.{Moment, opening, MayPut, HasPut, HasPutAndTaken, ShowsReadiness};
ghost use Rattle.hum_stage.specs.Refusals.{rule_in};
ghost use Rattle.hum_stage.specs.Decided.{at_once, Leaves};
ghost use Rattle.hum_stage.specs.Standing.{Standing, StandsCounted, fault_in, is_out};

use crate::contract::Stage;
use crate::deciding::Decides;
use crate::due::DueRecords;
use crate::faults::{End, Fault, Readiness, Refusal, Rule, State, resting};
use hum_record::{Record, Spare};
use hum_words::Command;
use std::alloc::{AllocError, Global};
use std::mem::{forget, replace};

/// A command that decides each record at once, as a stage.
pub struct AtOnce<C: Decides> {
    alloc: Global,
    memory: C,
    stage: u8,
    command: Command,
    line: u64,
    total: u32,
    due: C::Due,
    // why nothing more is given: its own fault, or that memory ran out
    stopped: Option<Result<Fault, AllocError>>,
    ended: Option<End>,
}

// Written out, so that a caller's proof sees one call and not the drop of each field.
impl<C: Decides + Drop> Drop for AtOnce<C> {
    fn drop(self) {
        let AtOnce {
            alloc: _,
            memory: _memory,
            stage: _,
            command: _,
            line: _,
            total: _,
            due: _due,
            stopped: _,
            ended: _,
        } = self;
    }
}

impl<C: Decides> AtOnce<C> {
    ghost use Rattle.hum_stage.specs.Meaning.{KeepsScore, IsWithinLag};

    /// The stage of this number, from 1, that is told to do so.
    pub fn new(alloc: Global, stage: u8, options: C::Options) -> AtOnce<C>
        // It stands for what the options say, with nothing put yet.
        ensures stands { ⟦<AtOnce<C> as Stage>⟧.stands result
            (opening (at_once stage C.command (C.decide options))) }

        // Of scores it makes scores.
        ensures keeps { C.keeps options
            → KeepsScore (at_once stage C.command (C.decide options)).outcomes }

        // No record waits for a later one.
        ensures within { IsWithinLag 0 (at_once stage C.command (C.decide options)) }
    {
        AtOnce {
            alloc,
            memory: C::begin(alloc, options),
            stage,
            command: C::command(),
            line: 0,
            total: 0,
            due: C::Due::none(alloc),
            stopped: None,
            ended: None,
        }
    }

    /// Breaks a rule at the last record that was put, which then becomes nothing.
    fn refuse(&mut self, rule: Rule)
        ensures fault { self.new ≡ record self.old {
          due = self.new.due;
          stopped = Some (Ok (record {
            stage = self.old.stage;
            command = self.old.command;
            line = self.old.line;
            rule = rule;
          }));
        } }
        ensures nothing { C.Due.rows self.new.due ≡ [] }
    {
        self.due.clear();
        self.stopped = Some(Ok(Fault {
            stage: self.stage,
            command: self.command,
            line: self.line,
            rule,
        }));
    }

    /// The same by this rule; or memory ran out.
    #[inline(never)]
    fn stop(&mut self, why: Refusal) -> Result<(), AllocError>
        ensures fault { OnOk result (IsSomeAnd (rule_in why) (λ rule. self.new ≡ record self.old {
          due = self.new.due;
          stopped = Some (Ok (record {
            stage = self.old.stage;
            command = self.old.command;
            line = self.old.line;
            rule = rule;
          }));
        })) }
        ensures nothing { OnOk result (C.Due.rows self.new.due ≡ []) }
        ensures out { OnErr result (is_out self.new.stopped ≡ true) }
    {
        match why {
            Refusal::Rule(rule) => {
                self.refuse(rule);
                Ok(())
            }
            Refusal::Memory => {
                self.stopped = Some(Err(AllocError));
                Err(AllocError)
            }
        }
    }

    /// The same by L2, where this one record is too many.
    #[inline(never)]
    fn refuse_lone(&mut self, _row: Record)
        ensures fault { self.new ≡ record self.old {
          due = self.new.due;
          stopped = Some (Ok (record {
            stage = self.old.stage;
            command = self.old.command;
            line = self.old.line;
            rule = L2;
          }));
        } }
        ensures nothing { C.Due.rows self.new.due ≡ [] }
    {
        self.refuse(Rule::L2);
    }

    /// Counts what is due, and breaks L2 where there is no room for it. Tells what it is ready for then.
    #[inline(never)]
    fn count(&mut self) -> Readiness
        requires { self.old.stopped ≡ None }
        ensures stands { (t : Moment) → StandsCounted (C.follows self.old.memory) (record {
          stage = self.old.stage;
          command = self.old.command;
          line = self.old.line;
          total = self.old.total;
          due = C.Due.rows self.old.due;
          fault = None;
        }) self.old.ended t → ⟦<AtOnce<C> as Stage>⟧.stands self.new t }
        ensures ready { ShowsReadiness (⟦<AtOnce<C> as Stage>⟧.stands self.new) result }
    {
        let room = (u32::MAX - self.total) as u64;
        let count = self.due.count();
        if count > room {
            self.refuse(Rule::L2);
        } else {
            self.total += count as u32;
        }
        self.readiness()
    }

    /// What it is ready for.
    fn readiness(&self) -> Readiness
        ensures { ShowsReadiness (⟦<AtOnce<C> as Stage>⟧.stands self.now) result }
    {
        match self.ended {
            _ if !self.due.is_empty() => Readiness::Gives,
            None => Readiness::Wants,
            Some(_) => Readiness::Done,
        }
    }

    /// Its own fault.
    fn fault(&self) -> Option<Fault>
        ensures { result ≡ fault_in self.now.stopped }
    {
        match self.stopped {
            Some(Ok(fault)) => Some(fault),
            Some(Err(_)) => None,
            None => None,
        }
    }

    /// Whether memory ran out.
    fn is_out(&self) -> bool
        ensures { result ≡ is_out self.now.stopped }
    {
        match self.stopped {
            Some(Ok(_)) => false,
            Some(Err(_)) => true,
            None => false,
        }
    }

    /// Puts one record more where it has stopped, which becomes nothing.
    #[inline(never)]
    fn put_in_vain(&mut self, next: &Record) -> Result<Readiness, AllocError>
        requires may { ⟦<AtOnce<C> as Stage>⟧.spent self.old
            ⊎ MayPut (⟦<AtOnce<C> as Stage>⟧.stands self.old) next.now }
        requires stopped { is_some self.old.stopped ≡ true }
        ensures ok { OnOk result (HasPut (⟦<AtOnce<C> as Stage>⟧.stands self.old)
            (⟦<AtOnce<C> as Stage>⟧.stands self.new) next.now) }
        ensures ready { IfOk result (ShowsReadiness (⟦<AtOnce<C> as Stage>⟧.stands self.new)) }
        ensures err { OnErr result (⟦<AtOnce<C> as Stage>⟧.spent self.new) }
        ensures stays_spent { ⟦<AtOnce<C> as Stage>⟧.spent self.old → IsErr result }
    {
        if self.is_out() {
            return Err(AllocError);
        }
        self.line += 1;
        Ok(self.readiness())
    }

    /// Whether the next record becomes itself, there is room for it, and nothing has to be remembered of it.
    fn leaves(&self, next: &Record) -> bool
        ensures going { result ≡ true → self.now.stopped ≡ None }
        ensures left { result ≡ true → Leaves (C.follows self.now.memory) next.now }
        ensures room { result ≡ true → self.now.total < 4294967295 }
    {
        self.memory.leaves(next) && self.stopped.is_none() && self.total < u32::MAX
    }

    /// Puts one record more, as [`Stage::put_with`] does, whatever becomes of it.
    // What happens seldom is a call, so that a record that becomes one other pays for none of it. The place is
    // empty, so that nothing in it has to be dropped.
    fn put_any(
        &mut self,
        next: Record,
        pool: &mut Spare,
        may_take: bool,
        first: &mut Option<Record>,
    ) -> Result<Readiness, AllocError>
        requires may { ⟦<AtOnce<C> as Stage>⟧.spent self.old
            ⊎ MayPut (⟦<AtOnce<C> as Stage>⟧.stands self.old) next }
        requires empty { first.old ≡ None }
        ensures ok { OnOk result (HasPutAndTaken (⟦<AtOnce<C> as Stage>⟧.stands self.old)
            (⟦<AtOnce<C> as Stage>⟧.stands self.new) next first.new) }
        ensures none { may_take ≡ false → OnOk result (first.new ≡ None) }
        ensures ready { IfOk result (ShowsReadiness (⟦<AtOnce<C> as Stage>⟧.stands self.new)) }
        ensures err { OnErr result (⟦<AtOnce<C> as Stage>⟧.spent self.new) }
        ensures stays_spent { ⟦<AtOnce<C> as Stage>⟧.spent self.old → IsErr result }
    {
        if self.stopped.is_some() {
            let is = self.put_in_vain(&next)?;
            pool.keep(next);
            return Ok(is);
        }
        self.line += 1;
        let room = (u32::MAX - self.total) as u64;
        match self.memory.step(next, room, pool, &mut self.due) {
            Ok(()) => {}
            Err(why) => {
                self.stop(why)?;
                return Ok(Readiness::Wants);
            }
        }
        if !may_take {
            return Ok(self.count());
        }
        let Some(row) = self.due.take_lone(pool) else {
            return Ok(self.count());
        };
        self.total = self.total.wrapping_add(1);
        if self.total == 0 {
            self.refuse_lone(row);
            return Ok(Readiness::Wants);
        }
        forget(replace(first, Some(row)));
        Ok(Readiness::Wants)
    }
}

impl<C: Decides> Stage for AtOnce<C> {
    ghost stands = { λ s t. Standing (C.follows s.memory) (record {
      stage = s.stage;
      command = s.command;
      line = s.line;
      total = s.total;
      due = C.Due.rows s.due;
      fault = fault_in s.stopped;
    }) s.ended (is_out s.stopped) t };

    ghost left = { λ s. length (C.Due.rows s.due) };

    ghost spent = { λ s. is_out s.stopped ≡ true };

    ghost use Rattle.hum_stage.specs.Laws.{standing_within};
    ghost use Rattle.hum_stage.specs.Lawful.{standing_lawful};

    ghost within = { λ s t h. standing_within _ _ _ _ t h };

    ghost lawful = { λ s t h. standing_lawful _ _ _ _ t h };

    // Inlined, so that a record that becomes itself costs no call.
    #[inline(always)]
    fn put_with(
        &mut self,
        next: Record,
        pool: &mut Spare,
        may_take: bool,
        first: &mut Option<Record>,
    ) -> Result<Readiness, AllocError> {
        if may_take && self.leaves(&next) {
            self.line += 1;
            self.total += 1;
            forget(replace(first, Some(next)));
            return Ok(Readiness::Wants);
        }
        self.put_any(next, pool, may_take, first)
    }

    #[inline(always)]
    fn take_with(&mut self, pool: &mut Spare) -> Result<(Option<Record>, Readiness), AllocError> {
        if self.is_out() {
            return Err(AllocError);
        }
        match self.due.next(pool) {
            Ok(next) => Ok((next, self.readiness())),
            Err(_) => {
                self.stopped = Some(Err(AllocError));
                Err(AllocError)
            }
        }
    }

    fn end(&mut self, end: End) {
        self.ended = Some(end);
    }

    fn state(&self) -> State {
        if !self.due.is_empty() {
            return State::Gives;
        }
        resting(self.ended, self.fault())
    }

    fn held(&self) -> usize {
        if self.due.is_empty() { 0 } else { 1 }
    }

    fn room(&self) -> usize {
        self.due.room()
    }

    fn alloc(&self) -> Global {
        self.alloc
    }
}
