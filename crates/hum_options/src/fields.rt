//! Numbers of fields and of tokens.
ghost use Rattle.std.specs.Prelude.{◌≡◌, ◌≤◌, ◌<◌, [], Some, IfSome, IfOk};
ghost use Rattle.std.specs.Option.{option_map};
ghost use Rattle.hum_choices.specs.declared.extract.FieldRange.{FieldRange};
ghost use Rattle.hum_options.specs.Fields.{IsCount, AreFields, count_of, fields_of};
ghost use Rattle.hum_options.specs.Fields.{from_number, by_dash};
ghost use Rattle.hum_options.specs.{Items.AreListed, Items.items_of, Read.IsReadAs};

use crate::cutting::cut;
use crate::items::{Item, read_items};
use crate::numbers::positive;
use hum_choices::{Field, FieldRange, GREATEST_COUNT, TokenCount};
use std::alloc::{AllocError, Global};

fn small_count(text: &[u8]) -> Option<u16>
    ensures read { result ≡ count_of text.now }
    ensures within { IfSome result (λ n. (0 < n) × (n ≤ GREATEST_COUNT)) }
{
    Some(positive(text, GREATEST_COUNT)? as u16)
}

fn read_count(text: &[u8]) -> Option<TokenCount>
    ensures { option_map (λ count. count.number) result ≡ count_of text.now }
{
    Some(TokenCount {
        number: small_count(text)?,
    })
}

/// The number of tokens, from 1 to 4,096, that a text is, if it is one.
pub fn count(text: &[u8]) -> Option<TokenCount>
    ensures { IsReadAs (IsCount text.now) (count_of text.now)
        (option_map (λ count. count.number) result) }
{
    read_count(text)
}

/// The fields from a number through what stands behind the dash.
fn from_number(text: &[u8], first: u16) -> Option<FieldRange>
    ensures { result ≡ from_number text.now (Some first) }
{
    if text == b"$".as_slice() {
        return Some(FieldRange {
            first: Field::Number(first),
            last: Field::Last,
        });
    }
    match small_count(text) {
        Some(last) if first <= last => Some(FieldRange {
            first: Field::Number(first),
            last: Field::Number(last),
        }),
        _ => None,
    }
}

/// The one field that a text is, if it is one.
fn one_field(text: &[u8]) -> Option<FieldRange>
    ensures { result ≡ by_dash text.now [] }
{
    let field = if text == b"$".as_slice() {
        Field::Last
    } else {
        Field::Number(small_count(text)?)
    };
    Some(FieldRange {
        first: field,
        last: field,
    })
}

/// The fields that an item is, if it is some.
fn field_range(item: &[u8]) -> Option<FieldRange>
    ensures { result ≡ fields_of item.now }
{
    let (before, rest) = cut(item, b'-');
    match rest {
        [] => one_field(before),
        [_, behind @ ..] => from_number(behind, small_count(before)?),
    }
}

impl Item for FieldRange {
    ghost Value = { FieldRange };

    ghost view = { λ range. range };

    ghost value_of = { fields_of };

    fn read(_alloc: Global, text: &[u8]) -> Result<Option<FieldRange>, AllocError> {
        Ok(field_range(text))
    }
}

/// The fields that a list names, if it is one: 1 to 64 items between commas, each `a`, `$` for the
/// last field, `a-b` with `a` at most `b`, or `a-$`. Numbers are from 1 to 4,096.
pub fn field_ranges(alloc: Global, text: &[u8]) -> Result<Option<Vec<FieldRange>>, AllocError>
    ensures { IfOk result (λ found. IsReadAs (AreListed AreFields text.now)
        (items_of fields_of text.now) (option_map (λ ranges. ranges.items) found)) }
{
    read_items(alloc, text)
}
