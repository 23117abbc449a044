//! Records that are due round one.
ghost use Rattle.std.specs.Prelude.{◌≡◌, ◌+◌, ◌<◌, ◌^◌, ◌∷◌, [], true, is_some, IfOk};
ghost use Rattle.std.specs.Prelude.{None, Some, OnOk, if◌then◌else◌};
ghost use Rattle.hum_score.specs.Row.{kind_of, tokens_of, text_of, width_of};
ghost use Rattle.hum_record.specs.{Nulls.null_row};
ghost use Rattle.hum_score.specs.{Spelling.IsTextOf};
ghost use Rattle.hum_score.specs.declared.records.Kind.TheVariants.{Values as AnyValues};
ghost use Rattle.hum_timebase.specs.Dues.{row_in, due_rows, AreNulls};
ghost use Rattle.hum_timebase.specs.Timebase.{around};

use hum_record::{Record, Spare, null_record};
use hum_stage::DueRecords;
use std::alloc::{AllocError, Global};
use std::marker::Model;
use std::mem::{forget, replace};

/// So many copies of a record, a single one if it is there, and so many copies again. Copies are
/// counted, and made when they are taken. The record that they are of stays for later ones: most
/// often it is the null record of a score's width.
#[derive(Drop)]
pub struct Around {
    alloc: Global,
    before: u64,
    single: Option<Record>,
    after: u64,
    other: Option<Record>,
    // how many tokens the other has where it is a null record, else 0
    nulls: usize,
}

impl Model for Around {
    ghost use Rattle.std.specs.Prelude.{List};
    ghost use Rattle.hum_score.specs.Row.{Row};
    ghost use Rattle.hum_timebase.specs.Dues.{due_rows, AreDue};

    ghost Value = { List Row };

    ghost view = { λ d. due_rows d.before d.single d.after d.other };

    ghost invariant = { λ d. AreDue d.before d.single d.after d.other d.nulls };
}

fn copy_of(alloc: Global, other: &Option<Record>, pool: &mut Spare) -> Result<Record, AllocError>
    requires { is_some other.now ≡ true }
    ensures { IfOk result (λ row. row ≡ row_in other.now) }
{
    match other {
        Some(row) => row.copy_into(alloc, pool),
        None => unreachable!(),
    }
}

/// Makes another record the null record as wide as a data record, if it is wanted and isn't that
/// already.
fn make_null(
    alloc: Global,
    wanted: bool,
    row: &Record,
    other: &mut Option<Record>,
    nulls: &mut usize,
) -> Result<(), AllocError>
    requires lawful { IsTextOf row.now (text_of row.now) }
    requires kind { kind_of row.now ≡ AnyValues }
    requires nulls { AreNulls nulls.old other.old }
    ensures made { OnOk result
        (wanted ≡ true → other.new ≡ Some (null_row (width_of row.now))) }
    ensures nulls { AreNulls nulls.new other.new }
{
    if !wanted {
        return Ok(());
    }
    if *nulls == row.width() {
        return Ok(());
    }
    let made = null_record(alloc, row.width())?;
    *other = Some(made);
    *nulls = row.width();
    Ok(())
}

/// Whether there are copies.
fn are_some(before: u64, after: u64) -> bool
    ensures { 0 < before + after → result ≡ true }
{
    before > 0 || after > 0
}

/// The record, if it stays. Else it is done with.
fn kept_if(stays: bool, row: Record, pool: &mut Spare) -> Option<Record>
    ensures { result ≡ (if stays then Some row else None) }
{
    if stays {
        return Some(row);
    }
    pool.keep(row);
    None
}

impl Around {
    /// This record alone is due.
    pub fn put(&mut self, row: Record)
        requires { self.old ≡ [] }
        ensures { self.new ≡ row ∷ [] }
    {
        forget(replace(&mut self.single, Some(row)));
    }

    /// One record is due and then another, in place of those that were.
    pub fn put_both(&mut self, row: Record, behind: Record)
        ensures { self.new ≡ row ∷ behind ∷ [] }
    {
        self.before = 0;
        self.single = Some(row);
        self.after = 1;
        self.other = Some(behind);
        self.nulls = 0;
    }

    /// A data record is due, if it stays, among so many null records as wide as it is, in place of
    /// those that were. Where it doesn't stay it is done with.
    pub fn put_among(
        &mut self,
        before: u64,
        row: Record,
        stays: bool,
        after: u64,
        pool: &mut Spare,
    ) -> Result<(), AllocError>
        requires lawful { IsTextOf row (text_of row) }
        requires kind { kind_of row ≡ AnyValues }
        requires few { before + (if stays then 1 else 0) + after < 2 ^ 64 }
        ensures { OnOk result (self.new ≡ around before stays after (tokens_of row)) }
    {
        self.before = 0;
        self.after = 0;
        make_null(
            self.alloc,
            are_some(before, after),
            &row,
            &mut self.other,
            &mut self.nulls,
        )?;
        self.before = before;
        self.single = kept_if(stays, row, pool);
        self.after = after;
        Ok(())
    }
}

impl DueRecords for Around {
    ghost rows = { λ s. s };

    fn none(alloc: Global) -> Self {
        Around {
            alloc,
            before: 0,
            single: None,
            after: 0,
            other: None,
            nulls: 0,
        }
    }

    fn next(&mut self, pool: &mut Spare) -> Result<Option<Record>, AllocError> {
        if self.before > 0 {
            let row = copy_of(self.alloc, &self.other, pool)?;
            self.before -= 1;
            return Ok(Some(row));
        }
        if let Some(row) = self.single.take() {
            return Ok(Some(row));
        }
        if self.after > 0 {
            let row = copy_of(self.alloc, &self.other, pool)?;
            self.after -= 1;
            return Ok(Some(row));
        }
        Ok(None)
    }

    fn take_lone(&mut self, _pool: &mut Spare) -> Option<Record> {
        if self.before > 0 || self.after > 0 {
            return None;
        }
        self.single.take()
    }

    fn count(&self) -> u64 {
        let single = if self.single.is_some() { 1 } else { 0 };
        self.before + single + self.after
    }

    fn is_empty(&self) -> bool {
        self.count() == 0
    }

    // Of copies that aren't made yet it counts the record that they are of.
    fn room(&self) -> usize {
        let single = self.single.room();
        if self.before > 0 || self.after > 0 {
            single.saturating_add(self.other.room())
        } else {
            single
        }
    }

    fn clear(&mut self) {
        self.before = 0;
        self.single = None;
        self.after = 0;
    }
}
