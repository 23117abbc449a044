//! Which columns are chosen, along the spines.
ghost use Rattle.std.specs.Prelude.{◌≡◌, false, slice_index_or, IfOk};
ghost use Rattle.hum_score.specs.Spines.{source};
ghost use Rattle.hum_columns.specs.Following.{moved};

use hum_path::{Marks, Move, Moves};
use std::alloc::{AllocError, Global};

/// Whether a column that comes by a move is chosen.
fn mark_at(marks: &[bool], from: Move) -> bool
    ensures { result ≡ slice_index_or marks.now (source from) false }
{
    match from {
        Move::Same(j) | Move::Left(j) | Move::Right(j) | Move::Join(j, _) | Move::Added(j) => {
            (j as usize) < marks.len() && marks[j as usize]
        }
    }
}

/// The marks of the columns that come of these by moves.
///
/// # Errors
/// Out of memory.
pub(crate) fn moved(alloc: Global, marks: &Marks, found: &Moves) -> Result<Marks, AllocError>
    ensures { IfOk result (λ next. next ≡ moved marks.now found.now) }
{
    let flags = marks.each();
    let mut each = Vec::new(alloc);
    for i in 0..found.len() {
        each.push(mark_at(flags, found.get(i)))?;
    }
    Ok(Marks::new(each))
}
