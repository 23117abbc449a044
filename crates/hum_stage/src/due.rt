//! Records that are due.
ghost use Rattle.std.specs.Prelude.{◌≡◌, ◌≤◌, [], ◌∷◌, ◌==◌, ◌<◌, List, length, IfOk};
ghost use Rattle.std.specs.Option.{option_to_list};
ghost use Rattle.hum_score.specs.Row.{Row};
ghost use Rattle.hum_record.specs.Room.{rooms_for};
ghost use Rattle.hum_stage.specs.Dues.{IsNext, IsLone};

use hum_record::{Record, Spare};
use std::alloc::{AllocError, Global};
use std::collections::VecDeque;
use std::marker::Model;

/// Records that are due, in their order.
///
/// A list of them is one way to hold them. A command that gives at most one record for each that it
/// takes needs none, nor does one that gives two at the most ([`UpToTwo`]), and one that gives many
/// alike may count them.
pub trait DueRecords: Drop {
    /// The records.
    ghost rows: { Self → List Row };

    /// Nothing is due.
    fn none(alloc: Global) -> Self
        ensures { rows result ≡ [] };

    /// Takes the next, if there is one. A record that has yet to be made is made in what the pool has left of
    /// one that is done with.
    fn next(&mut self, pool: &mut Spare) -> Result<Option<Record>, AllocError>
        ensures { IfOk result (IsNext (rows self.old) (rows self.new)) };

    /// Takes the one record that is due, where there is just one and it is easily had. Else it leaves them
    /// as they are.
    fn take_lone(&mut self, _pool: &mut Spare) -> Option<Record>
        ensures { IsLone (rows self.old) (rows self.new) result }
    {
        None
    }

    /// How many there are.
    fn count(&self) -> u64
        ensures { result ≡ length (rows self.now) };

    /// Whether nothing is due.
    fn is_empty(&self) -> bool
        ensures { result ≡ (length (rows self.now) == 0) };

    /// How many bytes they take, beside their own size: no more than what they say needs.
    fn room(&self) -> usize
        ensures { result ≤ rooms_for (rows self.now) };

    /// Drops them all.
    fn clear(&mut self)
        ensures { rows self.new ≡ [] };
}

impl DueRecords for VecDeque<Record> {
    ghost rows = { λ s. s.items };

    fn none(alloc: Global) -> Self {
        VecDeque::new(alloc)
    }

    fn next(&mut self, _pool: &mut Spare) -> Result<Option<Record>, AllocError> {
        Ok(self.pop_front())
    }

    fn take_lone(&mut self, _pool: &mut Spare) -> Option<Record> {
        if self.len() != 1 {
            return None;
        }
        self.pop_front()
    }

    fn count(&self) -> u64 {
        self.len() as u64
    }

    fn is_empty(&self) -> bool {
        VecDeque::is_empty(self)
    }

    fn room(&self) -> usize {
        let mut room: usize = 0;
        for row in self {
            room = room.saturating_add(row.room());
        }
        room
    }

    fn clear(&mut self) {
        VecDeque::clear(self)
    }
}

impl DueRecords for Option<Record> {
    ghost rows = { option_to_list };

    fn none(_alloc: Global) -> Self {
        None
    }

    fn next(&mut self, _pool: &mut Spare) -> Result<Option<Record>, AllocError> {
        Ok(self.take())
    }

    fn take_lone(&mut self, _pool: &mut Spare) -> Option<Record> {
        self.take()
    }

    fn count(&self) -> u64 {
        if self.is_some() { 1 } else { 0 }
    }

    fn is_empty(&self) -> bool {
        self.is_none()
    }

    fn room(&self) -> usize {
        match self {
            Some(row) => row.room(),
            None => 0,
        }
    }

    fn clear(&mut self) {
        *self = None;
    }
}

/// At most two records that are due, without a list of them.
#[derive(Drop)]
pub struct UpToTwo {
    first: Option<Record>,
    second: Option<Record>,
}

impl Model for UpToTwo {
    ghost use Rattle.std.specs.Prelude.{List, ◌++◌};
    ghost use Rattle.std.specs.Option.{option_to_list};
    ghost use Rattle.hum_score.specs.Row.{Row};

    ghost Value = { List Row };

    ghost view = { λ due. option_to_list due.first ++ option_to_list due.second };
}

impl UpToTwo {
    /// This record is due, in place of those that were. Mostly there were none.
    #[inline(always)]
    pub fn put(&mut self, row: Record)
        ensures { self.new ≡ row ∷ [] }
    {
        if self.first.is_some() || self.second.is_some() {
            self.put_instead(row);
            return;
        }
        self.first = Some(row);
    }

    /// The same whatever was due.
    fn put_instead(&mut self, row: Record)
        ensures { self.new ≡ row ∷ [] }
    {
        self.first = Some(row);
        self.second = None;
    }

    /// This record is due and then another, in place of those that were.
    pub fn put_both(&mut self, row: Record, behind: Record)
        ensures { self.new ≡ row ∷ behind ∷ [] }
    {
        self.first = Some(row);
        self.second = Some(behind);
    }
}

impl DueRecords for UpToTwo {
    ghost rows = { λ s. s };

    fn none(_alloc: Global) -> Self {
        UpToTwo {
            first: None,
            second: None,
        }
    }

    fn next(&mut self, _pool: &mut Spare) -> Result<Option<Record>, AllocError> {
        if self.first.is_some() {
            return Ok(self.first.take());
        }
        Ok(self.second.take())
    }

    fn take_lone(&mut self, _pool: &mut Spare) -> Option<Record> {
        if self.second.is_some() {
            return None;
        }
        self.first.take()
    }

    fn count(&self) -> u64 {
        self.first.count() + self.second.count()
    }

    fn is_empty(&self) -> bool {
        self.first.is_none() && self.second.is_none()
    }

    fn room(&self) -> usize {
        self.first.room().saturating_add(self.second.room())
    }

    fn clear(&mut self) {
        self.first = None;
        self.second = None;
    }
}
