//! Which tokens are left of records of one width.
ghost use Rattle.std.specs.Prelude.{◌≡◌, [], not, IfOk};
ghost use Rattle.std.specs.List.{list_any};
ghost use Rattle.hum_record.specs.Selecting.{front_of, moved_of};

use std::alloc::{AllocError, Global};
use std::marker::Model;

/// Which columns are left of records that have as many, found once for all of these records.
#[derive(Drop)]
pub struct Selection {
    each: Vec<bool>,
    // how many stand in front of the first that isn't left: nobody moves these
    front: usize,
    // where the others stand that are left
    moved: Vec<usize>,
}

impl Model for Selection {
    ghost use Rattle.std.specs.Prelude.{Bool, List};

    ghost Value = { List Bool };

    ghost use Rattle.std.specs.Prelude.{◌≡◌};
    ghost use Rattle.hum_record.specs.Selecting.{front_of, moved_of};

    ghost view = { λ s. s.each.items };

    ghost invariant = { λ s.
        (s.front ≡ front_of s.each.items) × (s.moved.items ≡ moved_of s.each.items) };
}

/// How many marks stand in front of the first that isn't set.
fn count_in_front(marks: &[bool]) -> usize
    ensures { result ≡ front_of marks.now }
{
    for (front, mark) in marks.iter().enumerate() {
        if !*mark {
            return front;
        }
    }
    marks.len()
}

impl Selection {
    /// Those with a mark.
    pub fn new(alloc: Global, marks: &[bool]) -> Result<Selection, AllocError>
        ensures { IfOk result (λ selection. selection ≡ marks.now) }
    {
        let front = count_in_front(marks);
        let mut moved = Vec::new(alloc);
        for j in front..marks.len() {
            if marks[j] {
                moved.push(j)?;
            }
        }
        let mut each = Vec::new(alloc);
        each.extend_from_slice(marks)?;
        Ok(Selection { each, front, moved })
    }

    /// None of no columns.
    pub fn none(alloc: Global) -> Selection
        ensures { result ≡ [] }
    {
        Selection {
            each: Vec::new(alloc),
            front: 0,
            moved: Vec::new(alloc),
        }
    }

    /// Whether no column is left.
    pub fn is_none(&self) -> bool
        ensures { result ≡ not (list_any (λ b. b) self.now) }
    {
        self.front == 0 && self.moved.is_empty()
    }

    /// How many columns in front are left where they stand.
    pub(crate) fn front(&self) -> usize
        ensures { result ≡ front_of self.now }
    {
        self.front
    }

    /// Where the others stand that are left.
    pub(crate) fn moved(&self) -> &[usize]
        ensures { result.now ≡ moved_of self.now }
    {
        &self.moved
    }
}
