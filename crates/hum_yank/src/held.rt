//! What is kept of a record that waits.
ghost use Rattle.std.specs.Prelude.{◌≡◌, ◌≤◌};
ghost use Rattle.hum_score.specs.Row.{Row};
ghost use Rattle.hum_record.specs.Room.{room_for};
ghost use Rattle.hum_yank.specs.declared.held.Held.TheVariants.{Goes};
ghost use Rattle.hum_yank.specs.Memory.{numbered_held, held_of, decided_of, given, adds, IsOf};

use crate::ranges::{any_early, is_chosen};
use hum_choices::YankRange;
use hum_record::{Kind, Record, Spare};

/// What is kept of a record, whose passage is known.
pub enum Held {
    /// It stays.
    Stays(Record),
    /// It is dropped.
    Goes,
    /// The last number decides whether this one is chosen.
    Waits(Record, u32),
}

// Written out, so that a caller's proof sees one call.
impl Drop for Held {
    fn drop(self) {
        match self {
            Held::Stays(_row) => {}
            Held::Goes => {}
            Held::Waits(_row, _number) => {}
        }
    }
}

impl Held {
    /// What is kept of a record that is dropped: it is gone, to be made use of.
    fn dropped(row: Record, pool: &mut Spare) -> Held
        ensures { result ≡ Goes }
    {
        pool.keep(row);
        Held::Goes
    }

    /// What is kept of a record of a passage with this number, or without one.
    fn numbered(
        ranges: &[YankRange],
        within: bool,
        row: Record,
        number: Option<u32>,
        pool: &mut Spare,
    ) -> Held
        ensures { result ≡ numbered_held ranges.now within row number }
    {
        let Some(number) = number else {
            return Held::dropped(row, pool);
        };
        if any_early(ranges, number) {
            return Held::Stays(row);
        }
        if within {
            return Held::Waits(row, number);
        }
        Held::dropped(row, pool)
    }

    /// What is kept of a record, by its passage and whether a spine is open.
    pub(crate) fn of(
        ranges: &[YankRange],
        within: bool,
        row: Record,
        number: Option<u32>,
        pool: &mut Spare,
    ) -> Held
        ensures { result ≡ held_of ranges.now within row number }
    {
        match row.kind() {
            Kind::Interpretation => Held::Stays(row),
            Kind::Global | Kind::Local | Kind::Values => {
                Held::numbered(ranges, within, row, number, pool)
            }
        }
    }

    /// Whether the record stays, if that is decided.
    pub(crate) fn decided(&self, ranges: &[YankRange], closed: bool, last: u32) -> Option<bool>
        ensures { result ≡ decided_of ranges.now closed last self.now }
    {
        match self {
            Held::Stays(_) => Some(true),
            Held::Goes => Some(false),
            Held::Waits(_, number) => is_chosen(ranges, closed, last, *number),
        }
    }

    /// How many bytes the record that is kept takes, beside its own size.
    pub(crate) fn room(&self) -> usize
        ensures { (row : Row) → IsOf row self.now → result ≤ room_for row }
    {
        match self {
            Held::Stays(row) => row.room(),
            Held::Goes => 0,
            Held::Waits(row, _) => row.room(),
        }
    }

    /// The record, if it stays.
    pub(crate) fn given(self, stays: bool, pool: &mut Spare) -> Option<Record>
        ensures { result ≡ given self stays }
    {
        match self {
            Held::Stays(row) => Some(row),
            Held::Goes => None,
            Held::Waits(row, _) => {
                if stays {
                    return Some(row);
                }
                pool.keep(row);
                None
            }
        }
    }
}

/// Whether the last number counts a record, given whether no spine was open before it.
pub(crate) fn adds(closed: bool, row: &Record) -> bool
    ensures { result ≡ adds closed row.now }
{
    match row.kind() {
        Kind::Global => !closed,
        Kind::Local | Kind::Interpretation | Kind::Values => true,
    }
}
