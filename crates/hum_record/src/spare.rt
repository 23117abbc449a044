//! What is left of a record that is done with.
ghost use Rattle.std.specs.Prelude.{◌≡◌, [], IfOk};

use crate::body::Body;
use crate::reading::Record;
use std::alloc::{AllocError, Global};
use std::marker::Model;

/// How many bodies wait behind the first, and how many bytes each of them may take: what is kept takes
/// little memory, however long the records are.
const MOST_OTHERS: usize = 32;

const MOST_ROOM: usize = 8192;

/// What is left of records that are done with: the next that are made in it need no memory of their
/// own.
///
/// Nothing of what stood in them shows, so one spare is like another.
#[derive(Drop)]
pub struct Spare {
    // what is kept and taken again where records come and go one by one
    first: Option<Box<Body>>,
    // what is left of others, where several go before the next ones come
    others: Vec<Box<Body>>,
}

impl Model for Spare {
    ghost use Rattle.std.specs.Prelude.{⊤};

    ghost Value = { ⊤ };

    ghost view = { λ s. tt };
}

impl Spare {
    /// No record was done with as yet.
    pub fn none(alloc: Global) -> Spare {
        Spare {
            first: None,
            others: Vec::new(alloc),
        }
    }

    /// Whether one stands in front, in which the next record is made at once.
    pub fn has_first(&self) -> bool {
        self.first.is_some()
    }

    /// Whether one stands in front, brought there from behind where it has to be.
    pub fn bring_first(&mut self) -> bool {
        if self.first.is_none() {
            self.first = self.others.pop();
        }
        self.first.is_some()
    }

    /// Keeps a record that is done with: in front where none is there, or behind where it isn't too large and
    /// not too many are.
    #[inline]
    pub fn keep(&mut self, row: Record) {
        let _refused = self.offer(row);
    }

    /// The same, but what isn't kept is handed back.
    pub fn offer(&mut self, row: Record) -> Option<Record> {
        if self.first.is_some() {
            return self.offer_behind(row);
        }
        self.first = Some(row.into_body());
        None
    }

    #[inline(never)]
    fn offer_behind(&mut self, row: Record) -> Option<Record> {
        if self.others.len() >= MOST_OTHERS || row.room() > MOST_ROOM {
            return Some(row);
        }
        // without memory for its place it is let go
        let _kept = self.others.push(row.into_body());
        None
    }

    /// Hands out what is left of one, which may hold anything.
    pub(crate) fn take(&mut self) -> Option<Box<Body>> {
        match self.first.take() {
            Some(body) => Some(body),
            None => self.take_other(),
        }
    }

    /// The same of the first one alone.
    pub(crate) fn take_first(&mut self) -> Option<Box<Body>> {
        if self.first.is_none() {
            return None;
        }
        self.first.take()
    }

    /// Keeps what was taken in vain.
    // Inlined, so that a caller that has found no room in it makes no call.
    #[inline(always)]
    pub(crate) fn put_back(&mut self, body: Box<Body>) {
        self.first = Some(body);
    }

    #[inline(never)]
    fn take_other(&mut self) -> Option<Box<Body>> {
        self.others.pop()
    }

    /// Hands out what is left of one, or where nothing is, new buffers.
    pub(crate) fn take_or_new(&mut self, alloc: Global) -> Result<Box<Body>, AllocError> {
        match self.first.take() {
            Some(body) => Ok(body),
            None => self.other_or_new(alloc),
        }
    }

    #[inline(never)]
    fn other_or_new(&mut self, alloc: Global) -> Result<Box<Body>, AllocError> {
        match self.others.pop() {
            Some(body) => Ok(body),
            None => new_body(alloc),
        }
    }
}

/// Empty buffers.
#[inline(never)]
pub(crate) fn new_body(alloc: Global) -> Result<Box<Body>, AllocError>
    ensures text { IfOk result (λ body. body.value.text ≡ []) }
    ensures ends { IfOk result (λ body. body.value.ends ≡ []) }
{
    Ok(Box::new(alloc, Body::new(alloc))?)
}
