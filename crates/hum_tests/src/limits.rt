//! A stage that gives as many records as a score may have, and one that would give one more.
ghost use Rattle.std.specs.Prelude.{◌≤◌, length};
ghost use Rattle.hum_score.specs.InOrder.{IsClosed};
ghost use Rattle.hum_stage.specs.Meaning.{Meaning, opening};
ghost use Rattle.hum_tests.specs.Copies.{copies, repeating};
ghost use Rattle.hum_words.specs.declared.commands.Command.TheVariants.{Rid};

use crate::compared::{holds, same};
use crate::scores::{Lines, score};
use hum_record::{Record, Spare};
use hum_stage::{
    AtOnce, Command, Decides, DueRecords, End, Fault, MOST_RECORDS, Refusal, Rule, Stage, State,
};
use std::alloc::{AllocError, Global};
use std::collections::VecDeque;
use std::process::Abort;

/// So many copies of one record, which are counted and never made.
#[derive(Drop)]
struct Copies {
    row: Option<Record>,
    times: u64,
}

impl DueRecords for Copies {
    ghost rows = { λ s. copies s.row s.times };

    fn none(_alloc: Global) -> Self {
        Copies {
            row: None,
            times: 0,
        }
    }

    fn next(&mut self, _pool: &mut Spare) -> Result<Option<Record>, AllocError> {
        if self.is_empty() {
            return Ok(None);
        }
        Err(AllocError)
    }

    fn count(&self) -> u64 {
        match self.row {
            Some(_) => self.times,
            None => 0,
        }
    }

    fn is_empty(&self) -> bool {
        self.count() == 0
    }

    fn room(&self) -> usize {
        0
    }

    fn clear(&mut self) {
        self.row = None;
    }
}

/// A command that gives each record so many times.
#[derive(Drop)]
struct Repeating {
    times: u64,
}

impl Decides for Repeating {
    type Options = u64;

    type Due = Copies;

    ghost command = { Rid };

    ghost decide = { repeating };

    ghost use Rattle.std.specs.Prelude.{◌≡◌};

    ghost keeps = { λ _. ⊥ };

    ghost follows = { λ s decide _. decide ≡ repeating s.times };

    fn command() -> Command {
        Command::Rid
    }

    fn begin(_alloc: Global, options: u64) -> Self {
        Repeating { times: options }
    }

    fn step(
        &mut self,
        next: Record,
        _room: u64,
        _pool: &mut Spare,
        out: &mut Copies,
    ) -> Result<(), Refusal> {
        *out = Copies {
            row: Some(next),
            times: self.times,
        };
        Ok(())
    }
}

// What a stage is ready for that has been put records until it wants none, or all of a closed score.
fn told<S: Stage + Drop>(rt: &impl Abort, mut stage: S, records: Vec<Record>) -> State
    requires fresh { (m : Meaning) × S.stands stage (opening m) }
    requires closed { IsClosed records.items }
    requires few { length records.items ≤ MOST_RECORDS }
{
    let mut rest = VecDeque::from_vec(records);
    while let Some(next) = rest.pop_front() {
        stage.put(next).expect(rt, "memory");
        match stage.state() {
            State::Wants => {}
            other => return other,
        }
    }
    stage.end(End::Closed);
    stage.state()
}

// The stage of that command.
fn stage_of(alloc: Global, times: u64) -> AtOnce<Repeating>
    ensures { (m : Meaning) × ⟦<AtOnce<Repeating> as Stage>⟧.stands result (opening m) }
{
    <AtOnce<Repeating>>::new(alloc, 2, times)
}

#[test]
fn a_stage_gives_as_many_records_as_a_score_may_have(rt: HostRuntime) {
    let lines: Lines = &[b"**x", b"*-"];
    let as_many = stage_of(rt.alloc(), MOST_RECORDS);
    let is = told(&rt, as_many, score(&rt, rt.alloc(), lines));
    holds(&rt, matches!(is, State::Gives), "as many");
    let one_more = stage_of(rt.alloc(), MOST_RECORDS + 1);
    let State::Done(end) = told(&rt, one_more, score(&rt, rt.alloc(), lines)) else {
        panic!(rt; "one more is given");
    };
    let fault = Fault {
        stage: 2,
        command: Command::Rid,
        line: 1,
        rule: Rule::L2,
    };
    same(&rt, end, End::Broken(fault), "one more");
}
