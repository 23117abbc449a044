//! Which opening spines are chosen.
ghost use Rattle.std.specs.Prelude.{◌≡◌, ◌+◌, ◌<◌, true, false, map, IfOk, MatchOption};
ghost use Rattle.std.specs.List.{list_any};
ghost use Rattle.std.specs.Str.{bytes_eq};
ghost use Rattle.hum_score.specs.Row.{tokens_of};
ghost use Rattle.hum_score.specs.Texts.{texts};
ghost use Rattle.hum_choices.specs.Extract.{field_of, range_of, choice_of};
ghost use Rattle.hum_extract.specs.Choice.{number, holds, is_beyond, is_chosen, names_beyond};
ghost use Rattle.hum_extract.specs.Choice.{opening_flags, misses};

use hum_choices::{ExtractOptions, Field, FieldRange};
use hum_path::Marks;
use hum_record::Record;
use std::alloc::{AllocError, Global};

/// The number of a field of an opening record of this width.
fn number(width: usize, field: Field) -> usize
    ensures { result ≡ number width (field_of field) }
{
    match field {
        Field::Number(n) => n as usize,
        Field::Last => width,
    }
}

fn holds(range: FieldRange, width: usize, n: usize) -> bool
    ensures { result ≡ holds width n (range_of range) }
{
    number(width, range.first) <= n && n <= number(width, range.last)
}

fn is_beyond(range: FieldRange, width: usize) -> bool
    ensures { result ≡ is_beyond width (range_of range) }
{
    width < number(width, range.first) || width < number(width, range.last)
}

fn some_holds(ranges: &[FieldRange], width: usize, n: usize) -> bool
    ensures { result ≡ list_any (holds width n) (map range_of ranges.now) }
{
    for range in ranges {
        if holds(*range, width, n) {
            return true;
        }
    }
    false
}

fn some_is_beyond(ranges: &[FieldRange], width: usize) -> bool
    ensures { result ≡ list_any (is_beyond width) (map range_of ranges.now) }
{
    for range in ranges {
        if is_beyond(*range, width) {
            return true;
        }
    }
    false
}

fn some_is(names: &[Vec<u8>], name: &[u8]) -> bool
    ensures { result ≡ list_any (bytes_eq name.now) (texts names.now) }
{
    for other in names {
        if name == other.as_slice() {
            return true;
        }
    }
    false
}

/// Whether the opening spine of this number and name is chosen.
fn is_chosen(choice: &ExtractOptions, width: usize, n: usize, name: &[u8]) -> bool
    ensures { result ≡ is_chosen (choice_of choice.now) width n name.now }
{
    match choice {
        ExtractOptions::Fields(ranges) => some_holds(ranges, width, n),
        ExtractOptions::Names(names) => some_is(names, name),
    }
}

/// Whether a field beyond the width is named.
fn names_beyond(choice: &ExtractOptions, width: usize) -> bool
    ensures { result ≡ names_beyond (choice_of choice.now) width }
{
    match choice {
        ExtractOptions::Fields(ranges) => some_is_beyond(ranges, width),
        ExtractOptions::Names(_) => false,
    }
}

/// For each opening spine whether it is chosen.
fn opening_marks(
    alloc: Global,
    choice: &ExtractOptions,
    row: &Record,
) -> Result<Vec<bool>, AllocError>
    ensures { IfOk result
        (λ marks. marks.items ≡ opening_flags (choice_of choice.now) (tokens_of row.now)) }
{
    let mut marks = Vec::new(alloc);
    for j in 0..row.width() {
        marks.push(is_chosen(choice, row.width(), j + 1, row.token(j)))?;
    }
    Ok(marks)
}

/// The same, unless a field beyond the width is named or no opening spine is chosen.
pub(crate) fn marks(
    alloc: Global,
    choice: &ExtractOptions,
    row: &Record,
) -> Result<Option<Marks>, AllocError>
    ensures { IfOk result (λ found. MatchOption found
        (misses (choice_of choice.now) (tokens_of row.now) ≡ true)
        (λ marks. (misses (choice_of choice.now) (tokens_of row.now) ≡ false)
        × (marks ≡ opening_flags (choice_of choice.now) (tokens_of row.now)))) }
{
    if names_beyond(choice, row.width()) {
        return Ok(None);
    }
    let marks = Marks::new(opening_marks(alloc, choice, row)?);
    if marks.some() {
        Ok(Some(marks))
    } else {
        Ok(None)
    }
}
