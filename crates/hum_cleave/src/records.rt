//! Records whose cleaved columns have become one.
ghost use Rattle.std.specs.Prelude.{◌≡◌, ℕ, List, [], true, false, length, IfOk};
ghost use Rattle.hum_score.specs.declared.records.SpinedKind.{SpinedKind};
ghost use Rattle.hum_score.specs.declared.records.SpinedKind.TheVariants.{Local, Values};
ghost use Rattle.hum_score.specs.Row.{Spined, tokens_of, width_of, text_of};
ghost use Rattle.hum_score.specs.{Spelling.IsToken, Spelling.IsTextOf};
ghost use Rattle.hum_record.specs.{RecordDraft.IsMade};
ghost use Rattle.hum_stage.specs.Refusals.{IfTold};
ghost use Rattle.hum_columns.specs.Following.{AsWide, Answers, is_interpretation};
ghost use Rattle.hum_cleave.specs.Columns.{together};
ghost use Rattle.hum_cleave.specs.{Cleave.one_record, Cleave.text_told};
ghost use Rattle.hum_choices.specs.Cleave.{fits_in_token};

use crate::tokens::{gather, leftmost_comment};
use hum_path::Marks;
use hum_record::{GrowingText, Kind, Record, RecordDraft, Spare, SpinedKind};
use hum_stage::{Refusal, unless_long};
use std::alloc::{AllocError, Global};
use std::collections::VecDeque;

/// The record with one token in place of those in the cleaved columns, unless it is too long.
pub fn put_together(
    alloc: Global,
    kind: SpinedKind,
    marks: &[bool],
    one: &[u8],
    row: &Record,
    pool: &mut Spare,
) -> Result<Option<Record>, AllocError>
    requires shape { row.now ≡ Spined kind (tokens_of row.now) }
    requires valid { IsTextOf row.now (text_of row.now) }
    requires lawful { IsToken kind one.now }
    requires as_wide { length marks.now ≡ width_of row.now }
    ensures { IfOk result (IsMade kind (together one.now marks.now (tokens_of row.now))) }
{
    let mut making = RecordDraft::new(alloc, kind, pool);
    let mut is_done = false;
    for (j, mark) in marks.iter().enumerate() {
        if !*mark {
            making.push(row.token(j))?;
        } else if !is_done {
            making.push(one)?;
            is_done = true;
        }
    }
    Ok(making.finish())
}

/// Gives what was made of a record. The record that gives way goes to the pool.
///
/// # Errors
/// L1 where that would be too long; or out of memory.
pub fn give(
    row: Record,
    made: Option<Record>,
    pool: &mut Spare,
    out: &mut VecDeque<Record>,
) -> Result<(), Refusal>
    requires empty { out.old.items ≡ [] }
    ensures { IfTold result (λ refused. (kind : SpinedKind) (tokens : List (List ℕ)) (room : ℕ)
        → IsMade kind tokens made
        → Answers (one_record kind tokens) room out.new.items refused) }
{
    out.push_back(unless_long(made)?)?;
    pool.keep(row);
    Ok(())
}

/// Gives what a record becomes that isn't an interpretation. A joined token is made in the text.
///
/// # Errors
/// L1; or out of memory.
pub fn give_text(
    alloc: Global,
    separator: &[u8],
    marks: &Marks,
    row: Record,
    text: &mut GrowingText,
    pool: &mut Spare,
    out: &mut VecDeque<Record>,
) -> Result<(), Refusal>
    requires between { fits_in_token separator.now ≡ true }
    requires as_wide { AsWide marks.now row }
    requires empty { out.old.items ≡ [] }
    requires kind { is_interpretation row ≡ false }
    requires lawful { IsTextOf row (text_of row) }
    ensures { IfTold result (λ refused. (room : ℕ)
        → Answers (text_told separator.now marks.now row) room out.new.items refused) }
{
    if !marks.some() {
        out.push_back(row)?;
        return Ok(());
    }
    match row.kind() {
        Kind::Local => {
            let marks = marks.each();
            let one = leftmost_comment(marks, &row);
            let made = put_together(alloc, SpinedKind::Local, marks, one, &row, pool)?;
            give(row, made, pool, out)
        }
        Kind::Values => {
            let marks = marks.each();
            gather(alloc, separator, marks, &row, text)?;
            let one = text.as_slice();
            let made = put_together(alloc, SpinedKind::Values, marks, one, &row, pool)?;
            give(row, made, pool, out)
        }
        _ => {
            out.push_back(row)?;
            Ok(())
        }
    }
}
