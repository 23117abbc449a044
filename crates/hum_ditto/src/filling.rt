//! Data records whose null tokens are filled.
ghost use Rattle.std.specs.Prelude.{◌≡◌, ◌≢◌, ◌<◌, ◌∷◌, ◌++◌, ℕ, List, []};
ghost use Rattle.std.specs.Prelude.{true, length, None, slice_index_or};
ghost use Rattle.std.specs.Prelude.{IfOk, OnOk};
ghost use Rattle.std.specs.List.{list_any};
ghost use Rattle.hum_score.specs.declared.records.Kind.TheVariants.{Values as AnyValues};
ghost use Rattle.hum_score.specs.declared.records.SpinedKind.TheVariants.{Values};
ghost use Rattle.hum_score.specs.Row.{tokens_of, width_of, kind_of};
ghost use Rattle.hum_score.specs.Spelling.{IsToken};
ghost use Rattle.hum_record.specs.RecordDraft.{Holds, IsMade};
ghost use Rattle.hum_record.specs.Contents.{is_null};
ghost use Rattle.hum_ditto.specs.Ditto.{written, filled, all_filled};

use crate::memory::LastTokens;
use hum_record::{Record, RecordDraft, Spare, SpinedKind, is_null};
use std::alloc::{AllocError, Global};

/// Whether a record has a null data token.
pub(crate) fn has_null(row: &Record) -> bool
    ensures { result ≡ list_any is_null (tokens_of row.now) }
{
    row.tokens().any(|token| is_null(token))
}

/// Writes a token in parentheses.
fn parenthesize(token: &[u8], shown: &mut Vec<u8>) -> Result<(), AllocError>
    ensures { OnOk result (shown.new.items ≡ written true token.now) }
{
    shown.clear();
    shown.push(b'(')?;
    shown.extend_from_slice(token)?;
    shown.push(b')')?;
    Ok(())
}

/// Adds what a token becomes, by what is remembered of its column.
fn push_filled(
    memory: &LastTokens,
    j: usize,
    token: &[u8],
    shown: &mut Vec<u8>,
    making: &mut RecordDraft,
) -> Result<(), AllocError>
    requires within { j < length memory.now.each }
    requires lawful { IsToken Values token.now }
    requires kind { making.old.builder.kind ≡ Values }
    ensures kind { making.new.builder.kind ≡ Values }
    ensures pushed { OnOk result ((tokens : List (List ℕ))
        → Holds Values making.old.builder making.old.is_long tokens
        → Holds Values making.new.builder making.new.is_long
        (tokens ++ filled memory.now.options.parentheses
        (slice_index_or memory.now.each j None) token.now ∷ [])) }
{
    if !is_null(token) {
        return making.push(token);
    }
    match memory.token(j) {
        None => making.push(token),
        Some(source) => {
            if memory.parentheses() {
                parenthesize(source, shown)?;
                making.push(shown)
            } else {
                making.push(source)
            }
        }
    }
}

/// The record that a data record becomes, by what is remembered of its columns, unless it is too
/// long.
pub(crate) fn rebuilt(
    alloc: Global,
    row: &Record,
    memory: &LastTokens,
    shown: &mut Vec<u8>,
    spare: &mut Spare,
) -> Result<Option<Record>, AllocError>
    requires kind { kind_of row.now ≡ AnyValues }
    requires width { length memory.now.each ≡ width_of row.now }
    requires tokens { tokens_of row.now ≢ [] }
    ensures { IfOk result
        (IsMade Values (all_filled memory.now.options.parentheses memory.now.each
        (tokens_of row.now))) }
{
    match memory.filled(row, spare) {
        Some(made) => Ok(Some(made)),
        None => rebuilt_by_tokens(alloc, row, memory, shown, spare),
    }
}

/// The same, token by token.
fn rebuilt_by_tokens(
    alloc: Global,
    row: &Record,
    memory: &LastTokens,
    shown: &mut Vec<u8>,
    spare: &mut Spare,
) -> Result<Option<Record>, AllocError>
    requires kind { kind_of row.now ≡ AnyValues }
    requires width { length memory.now.each ≡ width_of row.now }
    requires tokens { tokens_of row.now ≢ [] }
    ensures { IfOk result
        (IsMade Values (all_filled memory.now.options.parentheses memory.now.each
        (tokens_of row.now))) }
{
    let mut making = RecordDraft::new(alloc, SpinedKind::Values, spare);
    for j in 0..row.width() {
        push_filled(memory, j, row.token(j), shown, &mut making)?;
    }
    Ok(making.finish())
}
