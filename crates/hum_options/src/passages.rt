//! Numbers of passages.
ghost use Rattle.std.specs.Prelude.{◌≡◌, Some, IfOk};
ghost use Rattle.std.specs.Option.{option_map};
ghost use Rattle.hum_choices.specs.declared.yank.YankRange.{YankRange};
ghost use Rattle.hum_options.specs.Numbers.{number_of, positive_of};
ghost use Rattle.hum_options.specs.Passages.{ArePassages, passages_of, greatest, distance_of};
ghost use Rattle.hum_options.specs.Passages.{through, near_end, by_distance, by_number};
ghost use Rattle.hum_options.specs.{Items.AreListed, Items.items_of, Read.IsReadAs};

use crate::cutting::cut;
use crate::items::{Item, read_items};
use crate::numbers::{number, positive};
use hum_choices::{GREATEST_PASSAGE, YankRange};
use std::alloc::{AllocError, Global};

fn passage(text: &[u8]) -> Option<u32>
    ensures { result ≡ number_of greatest text.now }
{
    Some(number(text, GREATEST_PASSAGE)? as u32)
}

fn so_many(text: &[u8]) -> Option<u32>
    ensures { result ≡ positive_of greatest text.now }
{
    Some(positive(text, GREATEST_PASSAGE)? as u32)
}

/// How far before the last number a text is: `$` is 0, `$-n` is n.
fn distance(text: &[u8]) -> Option<u32>
    ensures { result ≡ distance_of text.now }
{
    match text {
        [b'$'] => Some(0),
        [b'$', b'-', number @ ..] => so_many(number),
        _ => None,
    }
}

/// The passages from a number through what stands behind the dash.
fn through(first: u32, end: &[u8]) -> Option<YankRange>
    ensures { result ≡ through first end.now (distance_of end.now) }
{
    match distance(end) {
        Some(0) => Some(YankRange::Onward { first }),
        Some(before) => Some(YankRange::ToEnd { first, before }),
        None => match passage(end) {
            Some(last) if first <= last => Some(YankRange::Through { first, last }),
            _ => None,
        },
    }
}

/// `a`, `a-b`, `a-$` or `a-$-n`.
fn by_number(item: &[u8]) -> Option<YankRange>
    ensures { result ≡ by_number item.now }
{
    let (before, rest) = cut(item, b'-');
    match rest {
        [] => {
            let first = passage(before)?;
            Some(YankRange::Through { first, last: first })
        }
        [_, end @ ..] => through(passage(before)?, end),
    }
}

/// The passages from so many before the last through what stands behind the dash.
fn near_end(from: u32, end: &[u8]) -> Option<YankRange>
    ensures { result ≡ near_end from (distance_of end.now) }
{
    match distance(end) {
        Some(to) if to <= from => Some(YankRange::FromEnd { from, to }),
        _ => None,
    }
}

/// What stands behind `$-`: `m`, `m-$` or `m-$-n`.
fn by_distance(text: &[u8]) -> Option<YankRange>
    ensures { result ≡ by_distance text.now }
{
    let (before, rest) = cut(text, b'-');
    match rest {
        [] => {
            let from = so_many(before)?;
            Some(YankRange::FromEnd { from, to: from })
        }
        [_, end @ ..] => near_end(so_many(before)?, end),
    }
}

/// The passages that an item is, if it is some.
fn passage_range(item: &[u8]) -> Option<YankRange>
    ensures { result ≡ passages_of item.now }
{
    match item {
        [] => None,
        [b'$'] => Some(YankRange::FromEnd { from: 0, to: 0 }),
        [b'$', b'-', text @ ..] => by_distance(text),
        [b'$', _, ..] => None,
        _ => by_number(item),
    }
}

impl Item for YankRange {
    ghost Value = { YankRange };

    ghost view = { λ range. range };

    ghost value_of = { passages_of };

    fn read(_alloc: Global, text: &[u8]) -> Result<Option<YankRange>, AllocError> {
        Ok(passage_range(text))
    }
}

/// The passages that a list names, if it is one: 1 to 64 items between commas, each `a`, `a-b` with
/// `a` at most `b`, `a-$` for `a` and all above, `a-$-n`, `$` for the last, `$-m` for the one m
/// before it, `$-m-$`, or `$-m-$-n` with `m` at least `n`. Numbers are at most 4,294,967,295; `m`
/// and `n` are from 1.
pub fn passage_ranges(alloc: Global, text: &[u8]) -> Result<Option<Vec<YankRange>>, AllocError>
    ensures { IfOk result (λ found. IsReadAs (AreListed ArePassages text.now)
        (items_of passages_of text.now) (option_map (λ ranges. ranges.items) found)) }
{
    read_items(alloc, text)
}
