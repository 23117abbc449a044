//! The spread rule: joins that come side by side are written one after another.
//!
//! A command that drops or merges columns keeps some tokens of an interpretation. Where two of its
//! joins (`*v` side by side; Humdrum Toolkit: Reference Manual, syntax) would then stand next to
//! each other, a reader would see one join. [`write_pieces`] writes such a record as several, one join in
//! each.
ghost use Rattle.std.specs.Prelude.{◌≡◌, ◌≤◌, [], Ok};
ghost use Rattle.hum_score.specs.declared.records.SpinedKind.TheVariants.{Interpretation};
ghost use Rattle.hum_stage.specs.Refusals.{IfTold};
ghost use Rattle.hum_columns.specs.Spread.{spread, filled, one_by_one, before_last};
ghost use Rattle.hum_columns.specs.{Writing.Fit, Following.AnswersInRoom};

use crate::pieces::JoinedToken;
use crate::writing::{joins_in, touches, write_each};
use hum_record::Record;
use hum_stage::{Refusal, check_room};
use std::alloc::Global;
use std::collections::VecDeque;

/// Writes an interpretation of these tokens by the spread rule: nothing where there are none; where
/// two joins have come side by side one record for each join, each but the last with its join alone
/// and `*` elsewhere; else one record.
///
/// # Errors
/// L2 where there is no room for so many; or out of memory.
pub fn write_pieces(
    alloc: Global,
    pieces: &[JoinedToken<'_>],
    room: u64,
    out: &mut VecDeque<Record>,
) -> Result<(), Refusal>
    requires empty { out.old.items ≡ [] }
    requires fit { Fit pieces.now }
    ensures { IfTold result
        (AnswersInRoom (Ok (filled Interpretation (spread pieces.now))) room out.new.items) }
{
    if pieces.is_empty() {
        return Ok(());
    }
    let records = records_for(pieces);
    check_room(records as u128, room)?;
    write_each(alloc, pieces, records, out)?;
    Ok(())
}

/// How many records pieces are written in, if there are any.
fn records_for(pieces: &[JoinedToken<'_>]) -> usize
    ensures records { spread pieces.now ≡ one_by_one (before_last result) pieces.now }
    ensures some { 1 ≤ result }
{
    if touches(pieces) { joins_in(pieces) } else { 1 }
}
