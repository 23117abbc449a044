//! Records that are left with their chosen tokens.
ghost use Rattle.std.specs.Prelude.{◌≡◌, ◌∷◌, [], IfOk, if◌then◌else◌};
ghost use Rattle.hum_score.specs.{Row.text_of, Spelling.IsTextOf};
ghost use Rattle.hum_columns.specs.Following.{AsWide};
ghost use Rattle.hum_extract.specs.Kept.{kept};

use crate::due::MostlyOne;
use hum_record::{Record, Selection, Spare};
use std::alloc::AllocError;

/// Leaves the chosen tokens of a record alone, and tells whether there are any. A global comment has none, and stays.
///
/// # Errors
/// Out of memory.
pub fn keep(selection: &Selection, row: &mut Record) -> Result<bool, AllocError>
    requires as_wide { AsWide selection.now row.old }
    requires lawful { IsTextOf row.old (text_of row.old) }
    ensures { IfOk result
        (λ stays. (if stays then row.new ∷ [] else []) ≡ kept selection.now row.old) }
{
    if row.width() == 0 {
        return Ok(true);
    }
    if selection.is_none() {
        return Ok(false);
    }
    row.retain(selection)?;
    Ok(true)
}

/// A record that stays is due; another goes to the pool.
pub fn put_if(stays: bool, row: Record, pool: &mut Spare, out: &mut MostlyOne)
    requires { out.old ≡ [] }
    ensures { out.new ≡ (if stays then row ∷ [] else []) }
{
    if stays {
        out.put(row);
    } else {
        pool.keep(row);
    }
}
