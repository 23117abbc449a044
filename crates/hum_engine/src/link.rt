//! The link of a stage.
ghost use Rattle.std.specs.Prelude.{◌≡◌, ◌≤◌, ◌<◌, ℕ, true, is_none, is_some, IfOk, ◌||◌};
ghost use Rattle.std.specs.Prelude.{nat_lt, length};
ghost use Rattle.hum_turns.specs.Links.{fresh, linked, has_room, has_some};
ghost use Rattle.hum_turns.specs.Turns.{pushed, popped};
ghost use Rattle.hum_engine.specs.Traffic.{Traffic, ended};
ghost use Rattle.hum_score.specs.Row.{Row};
ghost use Rattle.hum_record.specs.Room.{rooms_for};
ghost use Rattle.hum_engine.specs.Links.{IsLink, Tells, Goes, room, taken_of, is_some_of};
ghost use Rattle.hum_engine.specs.declared.link.Taken.TheVariants as kinds;

use circular_buffer::HeapCircularBuffer;
use hum_record::Record;
use hum_stage::End;
use std::alloc::{AllocError, Global};

/// The link that a stage gives to: the records that wait on it, the end that the stage has set, and
/// the end that the link's reader has heard.
///
/// It is made with room for so many records; the end takes no room.
#[derive(Drop)]
pub struct Link {
    waiting: HeapCircularBuffer<Record>,
    mark: Option<End>,
    heard: Option<End>,
}

/// What is taken from a link.
#[derive(Drop)]
pub enum Taken {
    /// The record that has waited longest.
    Record(Record),
    /// The end, which comes behind all records.
    End(End),
    /// Nothing: no record waits, and the end isn't set.
    Nothing,
}

impl Link {
    /// A link over which nothing has passed, with room for so many records.
    ///
    /// # Errors
    /// Out of memory.
    pub fn new(alloc: Global, size: usize) -> Result<Link, AllocError>
        ensures { IfOk result (λ link. IsLink size link fresh) }
    {
        let waiting = HeapCircularBuffer::with_capacity(alloc, size)?;
        Ok(Link {
            waiting,
            mark: None,
            heard: None,
        })
    }

    /// Puts a record onto the link, which has room.
    #[inline(always)]
    pub fn push(&mut self, row: Record)
        requires room { room self.old ≡ true }
        ensures pushed { Goes self.old self.new (λ l. pushed l row) }
    {
        let _refused = self.waiting.try_push_back(row);
    }

    /// Takes the record that has waited longest. Where none waits the end is heard, if it was set.
    #[inline(always)]
    pub fn take(&mut self) -> Taken
        ensures taken { Tells self.old result (λ size l. taken_of l.waiting l.mark) }
        ensures popped { is_some_of result ≡ true → Goes self.old self.new (λ l. popped l l.waiting) }
        ensures same { result ≡ kinds.Nothing → self.new ≡ self.old }
        ensures room { (row : Row) → result ≡ kinds.Record row → room self.new ≡ true }
    {
        // its clause says that no more wait than have room
        let _capacity = self.waiting.capacity();
        if let Some(row) = self.waiting.pop_front() {
            return Taken::Record(row);
        }
        match self.mark {
            Some(end) => {
                self.heard = self.mark;
                Taken::End(end)
            }
            None => Taken::Nothing,
        }
    }

    /// Sets the end. The records that wait come before it.
    pub fn end(&mut self, end: End)
        ensures { Goes self.old self.new (ended end) }
    {
        self.mark = Some(end);
    }

    /// Whether it has room for a record more.
    pub fn has_room(&self) -> bool
        ensures room { result ≡ room self.now }
        ensures has_room { Tells self.now result has_room }
    {
        self.waiting.len() < self.waiting.capacity()
    }

    /// Whether there is something to take: a record, or an end that wasn't heard.
    pub fn has_some(&self) -> bool
        ensures { Tells self.now result (λ size l. has_some l) }
    {
        self.heard.is_none() && self.has_more()
    }

    /// The same of a link whose end wasn't heard.
    #[inline(always)]
    pub fn has_more(&self) -> bool
        ensures { Tells self.now result (λ size l. nat_lt 0 (length l.waiting) || is_some l.mark) }
    {
        self.waiting.len() > 0 || self.mark.is_some()
    }

    /// Whether the stage has set no end yet.
    pub fn is_unset(&self) -> bool
        ensures { Tells self.now result (λ size l. is_none l.mark) }
    {
        self.mark.is_none()
    }

    /// The end that the link's reader has heard.
    pub fn heard(&self) -> Option<End>
        ensures { Tells self.now result (λ size l. l.heard) }
    {
        self.heard
    }

    /// How many bytes the records that wait take, beside their own size: no more than what they say needs.
    pub fn room(&self) -> usize
        ensures { (size : ℕ) (l : Traffic) → IsLink size self.now l → result ≤ rooms_for l.waiting }
    {
        let mut room: usize = 0;
        for row in self.waiting.iter() {
            room = room.saturating_add(row.room());
        }
        room
    }

    /// How many records wait: those that were put and not taken.
    pub fn len(&self) -> usize
        ensures waiting { Tells self.now result (λ size l. linked l) }
        ensures within { (size : ℕ) (l : Traffic) → IsLink size self.now l → result ≤ size }
    {
        self.waiting.len()
    }
}
