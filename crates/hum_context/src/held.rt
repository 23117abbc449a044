//! A record that waits, or what it takes to make it again.
ghost use Rattle.std.specs.Prelude.{◌≡◌, ◌≢◌, ◌<◌, ◌≤◌, false, true, length, Some, IfOk};
ghost use Rattle.std.specs.List.{list_all};
ghost use Rattle.hum_score.specs.declared.records.SpinedKind.TheVariants.{Values};
ghost use Rattle.hum_record.specs.{Contents.is_null, Nulls.null_row, Room.room_for};
ghost use Rattle.hum_score.specs.Row.{Row, kind_of, row_of, text_of, token_at, tokens_of, width_of};
ghost use Rattle.hum_score.specs.Spelling.{IsTextOf, IsTokenOf};
ghost use Rattle.hum_score.specs.declared.records.Kind.TheVariants.{Interpretation};
ghost use Rattle.hum_context.specs.Held.{held_row, MayHold};

use hum_record::{Kind, MOST_BYTES, Record, is_null, null_record};
use std::alloc::{AllocError, Global};
use std::marker::Model;

/// Null tokens up to so many stay a record.
const FEW_COLUMNS: usize = 64;

/// What is held of a record.
#[derive(Drop)]
enum HeldForm {
    /// One that moves no spines.
    Whole(Record),
    /// One that may.
    Interpretation(Record),
    /// So many null tokens.
    Nulls(usize),
}

/// A record that waits. A wide one of null tokens, of which nothing is collected, is held by their
/// number.
pub struct HeldRecord {
    holding: HeldForm,
}

// Written out, so that a caller's proof sees one call and not both ways to hold a record.
impl Drop for HeldRecord {
    fn drop(self) {
        let HeldRecord { holding: _holding } = self;
    }
}

impl Model for HeldRecord {
    ghost use Rattle.hum_score.specs.Row.{Row};
    ghost use Rattle.hum_context.specs.Held.{held_row, MayHold};

    ghost Value = { Row };

    ghost view = { λ h. held_row h.holding };

    ghost invariant = { λ h. MayHold h.holding };
}

/// Whether each token of a record is null.
fn all_null(row: &Record) -> bool
    ensures { result ≡ list_all is_null (tokens_of row.now) }
{
    row.tokens().all(|token| is_null(token))
}

/// Whether a record is data, and null.
fn is_null_data(row: &Record) -> bool
    ensures { result ≡ true → row.now ≡ null_row (width_of row.now) }
{
    match row.kind() {
        Kind::Values => all_null(row),
        Kind::Interpretation => false,
        Kind::Local => false,
        Kind::Global => false,
    }
}

/// What is held of a record, which may be any.
fn whole_form(row: Record) -> HeldForm
    ensures row { held_row result ≡ row }
    ensures may_hold { MayHold result }
{
    match row.kind() {
        Kind::Interpretation => HeldForm::Interpretation(row),
        Kind::Values => HeldForm::Whole(row),
        Kind::Local => HeldForm::Whole(row),
        Kind::Global => HeldForm::Whole(row),
    }
}

impl HeldRecord {
    /// What is held of a record, of which something is collected or nothing.
    pub(crate) fn of(row: Record, is_quiet: bool) -> HeldRecord
        ensures { result ≡ row }
    {
        let width = row.width();
        let holding = if is_quiet && width > FEW_COLUMNS && is_null_data(&row) {
            HeldForm::Nulls(width)
        } else {
            whole_form(row)
        };
        HeldRecord { holding }
    }

    /// What the record is.
    pub(crate) fn kind(&self) -> Kind
        ensures kind { result ≡ kind_of self.now }
        ensures lawful { IsTextOf self.now (text_of self.now) }
        ensures shape { self.now ≡ row_of result (text_of self.now) (tokens_of self.now) }
        ensures at_most { length (text_of self.now) ≤ MOST_BYTES }
    {
        match &self.holding {
            HeldForm::Whole(row) => row.kind(),
            HeldForm::Interpretation(row) => row.kind(),
            HeldForm::Nulls(_) => Kind::Values,
        }
    }

    /// Whether it is an interpretation.
    pub(crate) fn is_interpretation(&self) -> bool
        ensures is { result ≡ true → kind_of self.now ≡ Interpretation }
        ensures other { result ≡ false → kind_of self.now ≢ Interpretation }
    {
        match &self.holding {
            HeldForm::Whole(_) => false,
            HeldForm::Interpretation(_) => true,
            HeldForm::Nulls(_) => false,
        }
    }

    /// How many tokens it has.
    pub(crate) fn width(&self) -> usize
        ensures { result ≡ width_of self.now }
    {
        match &self.holding {
            HeldForm::Whole(row) => row.width(),
            HeldForm::Interpretation(row) => row.width(),
            HeldForm::Nulls(width) => *width,
        }
    }

    /// Its token at place j.
    pub(crate) fn token(&self, j: usize) -> &[u8]
        requires { j < width_of self.now }
        ensures token { result.now ≡ token_at self.now j }
        ensures lawful { IsTokenOf self.now result.now }
    {
        match &self.holding {
            HeldForm::Whole(row) => row.token(j),
            HeldForm::Interpretation(row) => row.token(j),
            HeldForm::Nulls(_) => b".",
        }
    }

    /// How many bytes the record takes, beside its own size, unless it is held by its width.
    pub(crate) fn room(&self) -> usize
        ensures { result ≤ room_for self.now }
    {
        match &self.holding {
            HeldForm::Whole(row) => row.room(),
            HeldForm::Interpretation(row) => row.room(),
            HeldForm::Nulls(_) => 0,
        }
    }

    /// The record, unless it is held by its width.
    pub(crate) fn whole(self) -> Option<Record>
        ensures { (row : Row) → result ≡ Some row → self ≡ row }
    {
        let HeldRecord { holding } = self;
        match holding {
            HeldForm::Whole(row) => Some(row),
            HeldForm::Interpretation(row) => Some(row),
            HeldForm::Nulls(_) => None,
        }
    }

    /// The record itself, made if it wasn't held.
    ///
    /// # Errors
    /// Out of memory.
    pub(crate) fn into_record(self, alloc: Global) -> Result<Record, AllocError>
        ensures { IfOk result (λ row. row ≡ self) }
    {
        let HeldRecord { holding } = self;
        match holding {
            HeldForm::Whole(row) => Ok(row),
            HeldForm::Interpretation(row) => Ok(row),
            HeldForm::Nulls(width) => null_record(alloc, width),
        }
    }
}
