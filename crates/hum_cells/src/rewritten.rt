//! What is decided of a record.
ghost use Rattle.std.specs.Prelude.{◌≡◌, Ok};
ghost use Rattle.hum_cells.specs.Rewriter.{decision};

use hum_record::{Record, Spare};
use hum_stage::UpToTwo;

/// What a record becomes that isn't refused.
pub(crate) enum Rewritten {
    /// itself
    Same,
    /// another record
    Other(Record),
    /// itself and another behind it
    With(Record),
}

// Written out, so that a caller's proof sees one call and not the drop of each variant.
impl Drop for Rewritten {
    #[inline]
    fn drop(self) {
        match self {
            Rewritten::Same => {}
            Rewritten::Other(_made) => {}
            Rewritten::With(_behind) => {}
        }
    }
}

impl Rewritten {
    /// Puts what was decided of a record. One that gives way to another is done with.
    #[inline(always)]
    pub(crate) fn put(self, row: Record, spare: &mut Spare, out: &mut UpToTwo)
        ensures { decision row (Ok self) ≡ Ok out.new }
    {
        match self {
            Rewritten::Same => out.put(row),
            Rewritten::Other(made) => {
                spare.keep(row);
                out.put(made);
            }
            Rewritten::With(behind) => out.put_both(row, behind),
        }
    }
}
