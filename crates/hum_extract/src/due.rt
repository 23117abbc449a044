//! Records that are due, mostly one.
ghost use Rattle.std.specs.Prelude.{◌≡◌, ◌∷◌, []};

use hum_record::{Record, Spare};
use hum_stage::DueRecords;
use std::alloc::{AllocError, Global};
use std::collections::VecDeque;
use std::marker::Model;
use std::mem::{forget, replace};

/// Records that are due: one, without a list of them, or as many as an interpretation becomes.
#[derive(Drop)]
pub struct MostlyOne {
    one: Option<Record>,
    pub(crate) many: VecDeque<Record>,
}

impl Model for MostlyOne {
    ghost use Rattle.std.specs.Prelude.{List, ◌++◌};
    ghost use Rattle.std.specs.Option.{option_to_list};
    ghost use Rattle.hum_score.specs.Row.{Row};

    ghost Value = { List Row };

    ghost view = { λ due. option_to_list due.one ++ due.many.items };
}

impl MostlyOne {
    /// This record is due.
    pub fn put(&mut self, row: Record)
        requires { self.old ≡ [] }
        ensures { self.new ≡ row ∷ [] }
    {
        forget(replace(&mut self.one, Some(row)));
    }
}

impl DueRecords for MostlyOne {
    ghost rows = { λ s. s };

    fn none(alloc: Global) -> Self {
        MostlyOne {
            one: None,
            many: VecDeque::new(alloc),
        }
    }

    fn next(&mut self, _pool: &mut Spare) -> Result<Option<Record>, AllocError> {
        if self.one.is_some() {
            return Ok(self.one.take());
        }
        Ok(self.many.pop_front())
    }

    fn take_lone(&mut self, _pool: &mut Spare) -> Option<Record> {
        if !self.many.is_empty() {
            return None;
        }
        self.one.take()
    }

    fn count(&self) -> u64 {
        if self.one.is_some() {
            1 + self.many.len() as u64
        } else {
            self.many.len() as u64
        }
    }

    fn is_empty(&self) -> bool {
        self.one.is_none() && self.many.is_empty()
    }

    fn room(&self) -> usize {
        self.one.room().saturating_add(self.many.room())
    }

    fn clear(&mut self) {
        self.one = None;
        self.many.clear();
    }
}
