//! The spines of a score, and which of their columns are chosen.
ghost use Rattle.std.specs.Prelude.{◌≡◌, None, [], true, IfOk, OnOk, OnErr, IsTrue, IsErr};
ghost use Rattle.hum_score.specs.Spines.{Unopened, moves, after};
ghost use Rattle.hum_score.specs.{Rules.fault_of, Rules.is_closed};
ghost use Rattle.hum_path.specs.{Step.ComeFrom};
ghost use Rattle.hum_columns.specs.Following.{memory, passed};

use crate::marks::moved;
use hum_path::{Marks, Moves, Paths};
use hum_record::{Record, Selection};
use std::alloc::{AllocError, Global};
use std::marker::Model;

/// The spines of a score so far, and for each of their columns whether it is chosen.
///
/// Once it has run out of memory it is *spent*: each later call that takes a record fails.
#[derive(Drop)]
pub struct ChosenColumns {
    alloc: Global,
    paths: Paths,
    marks: Marks,
    // the same, for records that are left with these columns alone
    selection: Selection,
    spent: bool,
}

impl Model for ChosenColumns {
    ghost use Rattle.hum_columns.specs.Following.{Memory};

    ghost Value = { Memory };

    ghost use Rattle.std.specs.Prelude.{◌≡◌};

    ghost view = { λ c. record { path = c.paths.path; each = c.marks; spent = c.spent } };

    ghost invariant = { λ c. c.selection ≡ c.marks };
}

impl ChosenColumns {
    /// No spine was opened yet.
    pub fn none(alloc: Global) -> ChosenColumns
        ensures { result ≡ memory Unopened [] }
    {
        ChosenColumns {
            alloc,
            paths: Paths::new(alloc),
            marks: Marks::none(alloc),
            selection: Selection::none(alloc),
            spent: false,
        }
    }

    /// Whether no spine is open, so that the next interpretation is the opening record.
    pub fn is_unopened(&self) -> bool
        ensures { result ≡ is_closed self.now.path }
    {
        self.paths.is_closed()
    }

    /// For each column whether it is chosen.
    pub fn marks(&self) -> &Marks
        ensures { result.now ≡ self.now.each }
    {
        &self.marks
    }

    /// The columns that are chosen.
    pub fn selection(&self) -> &Selection
        ensures { result.now ≡ self.now.each }
    {
        &self.selection
    }

    /// Follows the spines. It counts as spent until its columns are chosen anew.
    fn follow(&mut self, row: &Record) -> Result<Moves, AllocError>
        requires { fault_of self.old.path row.now ≡ None }
        ensures moves { IfOk result (λ found. found ≡ moves self.old.path row.now) }
        ensures after { OnOk result (self.new ≡ record self.old {
          path = after self.old.path row.now;
          spent = true;
        }) }
        ensures sources { IfOk result (ComeFrom row.now) }
        ensures spent { OnErr result (IsTrue self.new.spent) }
        ensures again { IsTrue self.old.spent → IsErr result }
    {
        if self.spent {
            return Err(AllocError);
        }
        self.spent = true;
        self.paths.follow(row)
    }

    /// These columns are chosen from now on, and it isn't spent.
    fn choose(&mut self, marks: Marks) -> Result<(), AllocError>
        ensures chosen { OnOk result (self.new ≡ memory self.old.path marks) }
        ensures kept { OnErr result (self.new ≡ self.old) }
    {
        self.selection = Selection::new(self.alloc, marks.each())?;
        self.marks = marks;
        self.spent = false;
        Ok(())
    }

    /// Takes the opening record, of which these columns are chosen.
    ///
    /// # Errors
    /// Out of memory, which each later call answers again.
    pub fn open(&mut self, row: &Record, marks: Marks) -> Result<(), AllocError>
        requires { fault_of self.old.path row.now ≡ None }
        ensures opened { OnOk result (self.new ≡ memory (after self.old.path row.now) marks) }
        ensures spent { OnErr result (IsTrue self.new.spent) }
        ensures again { IsTrue self.old.spent → IsErr result }
    {
        let _found = self.follow(row)?;
        self.choose(marks)
    }

    /// Takes a later interpretation: what comes of a chosen column is chosen.
    ///
    /// # Errors
    /// Out of memory, which each later call answers again.
    pub fn pass(&mut self, alloc: Global, row: &Record) -> Result<(), AllocError>
        requires { fault_of self.old.path row.now ≡ None }
        ensures passed { OnOk result (self.new ≡ passed self.old row.now) }
        ensures sources { OnOk result (ComeFrom row.now (moves self.old.path row.now)) }
        ensures spent { OnErr result (IsTrue self.new.spent) }
        ensures again { IsTrue self.old.spent → IsErr result }
    {
        let found = self.follow(row)?;
        let marks = moved(alloc, &self.marks, &found)?;
        self.choose(marks)
    }
}
