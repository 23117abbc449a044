//! What yank remembers of the records so far and of those that wait.
ghost use Rattle.std.specs.Prelude.{◌≡◌, if◌then◌else◌};
ghost use Rattle.hum_yank.specs.{Options.form_of, Memory.adds, Marks.last_in};

use crate::held::{Held, adds};
use crate::passages::Passages;
use hum_choices::{Markers, YankOptions};
use hum_path::Paths;
use hum_record::{Record, Spare};
use hum_stage::{Command, LooksAhead, Refusal, Verdict};
use std::alloc::{AllocError, Global};
use std::collections::VecDeque;

/// The spines, the passage at hand and the last number.
#[derive(Drop)]
pub struct PassageMemory {
    options: YankOptions,
    paths: Paths,
    passages: Passages,
    // the last number so far: comments after the end of the last spine add nothing to it
    last: u32,
}

/// The last number after a record, given whether no spine was open before it.
fn last_after(passages: &Passages, markers: &Markers, row: &Record, closed: bool, last: u32) -> u32
    ensures { result ≡ (if adds closed row.now then last_in (form_of markers.now) passages.now
        else last) }
{
    if adds(closed, row) {
        passages.last(markers)
    } else {
        last
    }
}

impl LooksAhead for PassageMemory {
    type Options = YankOptions;

    type Held = Held;

    ghost use Rattle.hum_words.specs.declared.commands.Command.TheVariants.{Yank};
    ghost use Rattle.hum_yank.specs.{Yank.yank, Options.choice_of, Memory.Follows};
    ghost use Rattle.hum_yank.specs.{Memory.tell_each};

    ghost command = { Yank };

    ghost look = { λ options. yank (choice_of options) };

    ghost follows = { λ s held. Follows s.options s.paths.path s.passages s.last held };

    ghost each = { λ s held look past rows h.
        tell_each (choice_of s.options) past rows held h.tell };

    fn command() -> Command {
        Command::Yank
    }

    fn begin(alloc: Global, options: YankOptions) -> PassageMemory {
        let passages = Passages::new(&options.markers);
        PassageMemory {
            options,
            paths: Paths::new(alloc),
            passages,
            last: 0,
        }
    }

    fn put(
        &mut self,
        next: Record,
        pool: &mut Spare,
        held: &mut VecDeque<Held>,
    ) -> Result<(), AllocError> {
        let closed = self.paths.is_closed();
        let _moves = self.paths.follow(&next)?;
        let number = self.passages.step(&mut self.options.markers, &next);
        self.last = last_after(
            &self.passages,
            &self.options.markers,
            &next,
            closed,
            self.last,
        );
        let kept = Held::of(&self.options.ranges, !closed, next, number, pool);
        held.push_back(kept)?;
        Ok(())
    }

    fn settle(&mut self, pool: &mut Spare, held: &mut VecDeque<Held>) -> Result<Verdict, Refusal> {
        let closed = self.paths.is_closed();
        let Some(first) = held.front() else {
            return Ok(Verdict::Waits)
        };
        let Some(stays) = first.decided(&self.options.ranges, closed, self.last) else {
            return Ok(Verdict::Waits)
        };
        match held.pop_front() {
            None => Ok(Verdict::Waits),
            Some(first) => Ok(Verdict::Gives(first.given(stays, pool))),
        }
    }

    fn lasting(&self, held: &VecDeque<Held>) -> usize {
        held.len()
    }

    fn room(&self, held: &VecDeque<Held>) -> usize {
        let mut room: usize = 0;
        for kept in held {
            room = room.saturating_add(kept.room());
        }
        room
    }
}
