//! The stage round a command whose records wait for later ones.
ghost use Rattle.std.specs.Prelude.{◌≡◌, ◌-◌, true, false, Some, Err, IfOk, IsErr, OnOk, OnErr};
ghost use Rattle.std.specs.VecDeque.{deque_len};
ghost use Rattle.hum_stage.specs.Meaning.{opening, ShowsReadiness};
ghost use Rattle.hum_stage.specs.Look.{looking};
ghost use Rattle.hum_stage.specs.Lagging.{Lags};
ghost use Rattle.hum_stage.specs.Settles.{with_due};
ghost use Rattle.hum_stage.specs.declared.faults.Rule.{Rule};
ghost use Rattle.hum_stage.specs.declared.faults.Refusal.TheVariants as refusals;

use crate::MOST_WAITING;
use crate::contract::Stage;
use crate::due::DueRecords;
use crate::faults::{End, Fault, Readiness, Refusal, Rule, State, resting};
use crate::looks_ahead::LooksAhead;
use crate::settling::settle_next;
use hum_record::{Record, Spare};
use hum_words::Command;
use std::alloc::{AllocError, Global};
use std::collections::VecDeque;
use std::mem::{forget, replace};

/// A command whose records wait for later ones, as a stage.
///
/// What a record costs doesn't grow with how many wait. At most one is made that isn't taken yet:
/// those behind it go on waiting, decided or not. A record that is still undecided with 65,536
/// behind it is refused by H1, at its own line. Those that are undecided when the input ends are
/// never given.
pub struct Lagging<C: LooksAhead> {
    alloc: Global,
    memory: C,
    stage: u8,
    command: Command,
    line: u64,
    waiting: VecDeque<C::Held>,
    due: Option<Record>,
    fault: Option<Fault>,
    ended: Option<End>,
    spent: bool,
}

// Written out, so that a caller's proof sees one call and not the drop of each field.
impl<C: LooksAhead + Drop> Drop for Lagging<C> {
    fn drop(self) {
        let Lagging {
            alloc: _,
            memory: _memory,
            stage: _,
            command: _,
            line: _,
            waiting: _waiting,
            due: _due,
            fault: _,
            ended: _,
            spent: _,
        } = self;
    }
}

impl<C: LooksAhead> Lagging<C> {
    ghost use Rattle.hum_stage.specs.Meaning.{KeepsScore, DecidesClosed, IsWithinLag};

    /// The stage of this number, from 1, that is told to do so.
    pub fn new(alloc: Global, stage: u8, options: C::Options) -> Lagging<C>
        // It stands for what the options say, with nothing put yet.
        ensures stands { ⟦<Lagging<C> as Stage>⟧.stands result
            (opening (looking MOST_WAITING stage C.command (C.look options))) }

        // Of scores it makes scores.
        ensures keeps { KeepsScore
            (looking MOST_WAITING stage C.command (C.look options)).outcomes }

        // In a closed score none is undecided.
        ensures decides { DecidesClosed
            (looking MOST_WAITING stage C.command (C.look options)).outcomes }

        // No record waits for more than 65,536 later ones.
        ensures within { IsWithinLag MOST_WAITING
            (looking MOST_WAITING stage C.command (C.look options)) }
    {
        Lagging {
            alloc,
            memory: C::begin(alloc, options),
            stage,
            command: C::command(),
            line: 0,
            waiting: VecDeque::new(alloc),
            due: None,
            fault: None,
            ended: None,
            spent: false,
        }
    }

    /// Breaks a rule at the first record that waits; none waits any more.
    fn refuse(&mut self, rule: Rule)
        ensures fault { self.new ≡ record self.old {
          waiting = self.new.waiting;
          fault = Some (record {
            stage = self.old.stage;
            command = self.old.command;
            line = self.old.line - (deque_len self.old.waiting - 1);
            rule = rule;
          });
        } }
        ensures none { deque_len self.new.waiting ≡ 0 }
    {
        // Each that waits has a line of its own, so that the difference isn't cut short.
        let behind = self.waiting.len().saturating_sub(1) as u64;
        self.waiting.clear();
        self.fault = Some(Fault {
            stage: self.stage,
            command: self.command,
            line: self.line.saturating_sub(behind),
            rule,
        });
    }

    /// Takes note of what comes next of those that wait: that is due, or its record is refused.
    fn note(&mut self, next: Result<Option<Record>, Refusal>) -> Result<(), AllocError>
        ensures due { IfOk next (λ due. self.new ≡ record self.old { due = due; spent = false }) }
        ensures refused { (rule : Rule) → next ≡ Err (refusals.Rule rule) → self.new ≡ record self.old {
          waiting = self.new.waiting;
          fault = Some (record {
            stage = self.old.stage;
            command = self.old.command;
            line = self.old.line - (deque_len self.old.waiting - 1);
            rule = rule;
          });
          spent = false;
        } }
        ensures none { IsErr next → OnOk result (deque_len self.new.waiting ≡ 0) }
        ensures out { next ≡ Err refusals.Memory → IsErr result }
        ensures same { OnErr result (self.new ≡ self.old) }
    {
        match next {
            Ok(due) => self.due = due,
            Err(Refusal::Rule(rule)) => self.refuse(rule),
            Err(Refusal::Memory) => return Err(AllocError),
        }
        self.spent = false;
        Ok(())
    }

    /// What it is ready for.
    fn readiness(&self) -> Readiness
        ensures { ShowsReadiness (⟦<Lagging<C> as Stage>⟧.stands self.now) result }
    {
        match self.ended {
            _ if self.due.is_some() => Readiness::Gives,
            None => Readiness::Wants,
            Some(_) => Readiness::Done,
        }
    }
}

impl<C: LooksAhead> Stage for Lagging<C> {
    ghost use Rattle.hum_stage.specs.declared.TheConstants.{MOST_WAITING};

    ghost stands = { λ s t. Lags MOST_WAITING (C.follows s.memory s.waiting.items) (record {
      stage = s.stage;
      command = s.command;
      line = s.line;
      due = s.due;
      fault = s.fault;
    }) s.ended s.spent t };

    ghost left = { λ s. with_due s.due (deque_len s.waiting) };

    ghost spent = { λ s. s.spent ≡ true };

    ghost use Rattle.hum_stage.specs.LookLaws.{lags_within};
    ghost use Rattle.hum_stage.specs.Lawful.{lags_lawful};

    ghost within = { λ s t h. lags_within _ _ _ _ _ t h };

    ghost lawful = { λ s t h. lags_lawful _ _ _ _ _ t h };

    // Where no more wait, the record that is due is all that is held, and none is looked at once it is taken. The
    // place is empty, so that nothing in it has to be dropped.
    #[inline(never)]
    fn put_with(
        &mut self,
        next: Record,
        pool: &mut Spare,
        may_take: bool,
        first: &mut Option<Record>,
    ) -> Result<Readiness, AllocError> {
        if self.spent {
            return Err(AllocError);
        }
        self.line += 1;
        if self.fault.is_some() {
            pool.keep(next);
            return Ok(self.readiness());
        }
        self.spent = true;
        self.memory.put(next, pool, &mut self.waiting)?;
        let due = settle_next(&mut self.memory, pool, &mut self.waiting);
        self.note(due)?;
        if may_take && self.waiting.is_empty() {
            forget(replace(first, self.due.take()));
        }
        Ok(self.readiness())
    }

    fn take_with(&mut self, pool: &mut Spare) -> Result<(Option<Record>, Readiness), AllocError> {
        if self.spent {
            return Err(AllocError);
        }
        let Some(row) = self.due.take() else {
            return Ok((None, self.readiness()));
        };
        self.spent = true;
        let due = settle_next(&mut self.memory, pool, &mut self.waiting);
        self.note(due)?;
        Ok((Some(row), self.readiness()))
    }

    fn end(&mut self, end: End) {
        self.ended = Some(end);
    }

    // Inlined, its answer would be taken to pieces as small as a fault's fields.
    #[inline(never)]
    fn state(&self) -> State {
        if self.due.is_some() {
            return State::Gives;
        }
        resting(self.ended, self.fault)
    }

    fn held(&self) -> usize {
        if self.ended.is_some() || self.fault.is_some() {
            return 0;
        }
        let lasting = self.memory.lasting(&self.waiting);
        if self.due.is_some() {
            // No more wait than there is room for, so that the sum isn't cut short.
            return lasting.saturating_add(1);
        }
        lasting
    }

    fn room(&self) -> usize {
        if self.fault.is_some() {
            return 0;
        }
        self.due
            .room()
            .saturating_add(self.memory.room(&self.waiting))
    }

    fn alloc(&self) -> Global {
        self.alloc
    }
}
