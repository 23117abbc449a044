//! The cut of a line into tokens.
ghost use Rattle.std.specs.Prelude.{◌≡◌, ◌<◌, ◌≤◌, ◌+◌, ◌^◌, ◌&&◌, [], ◌++◌, length, IfOk, OnOk, true, false};
ghost use Rattle.std.specs.Prelude.{slice_index, slice_range};
ghost use Rattle.std.specs.List.{list_any};
ghost use Rattle.hum_score.specs.Spelling.{kind_of_token, kind_of_tokens, parts};
ghost use Rattle.hum_score.specs.Spelling.{is_comment, same_kind};
ghost use Rattle.hum_score.specs.declared.records.SpinedKind.TheVariants.{Local};
ghost use Rattle.hum_record.specs.Fields.{begins_at, ends_from};
ghost use Rattle.hum_record.specs.Cutting.{bits_of, tabs_from, IsCut};
ghost use Rattle.hum_record.specs.Plain.{has_mark};

use crate::bits::{bits_of, holds};
use crate::{RecordFault, SpinedKind};
use std::alloc::AllocError;

/// How many bytes of a long line are looked at at once.
const BLOCK: usize = 32;

/// The kind that a token's first byte shows.
pub fn token_kind(token: &[u8]) -> SpinedKind
    ensures { result ≡ kind_of_token token.now }
{
    match token {
        [b'!', ..] => SpinedKind::Local,
        [b'*', ..] => SpinedKind::Interpretation,
        _ => SpinedKind::Values,
    }
}

/// What a line is found to be while it is cut into tokens.
pub enum Cut {
    /// Data, each of whose tokens is lawful.
    Plain,
    /// Tokens that are still to be looked at one by one.
    Whole,
    /// No tokens: a carriage return stands in it.
    Broken,
}

/// Adds the place of each tab in a block of a text that begins at a place, by the bits of these.
fn push_tabs(block: &[u8], tabs: u64, start: u32, ends: &mut Vec<u32>) -> Result<(), AllocError>
    requires short { length block.now ≤ 32 }
    requires few { start + length block.now < 2 ^ 32 }
    requires bits { tabs ≡ bits_of 9 block.now }
    ensures { OnOk result (ends.new.items ≡ ends.old.items ++ tabs_from start block.now) }
{
    let mut rest = tabs;
    let mut at = start;
    while rest != 0 {
        let passed = rest.trailing_zeros();
        at += passed;
        ends.push(at)?;
        at += 1;
        rest = (rest >> passed) >> 1;
    }
    Ok(())
}

/// Whether some token that begins in a block of a text may be none of plain data: none is where this
/// answers no. The block is the head of a token, or not.
fn may_have_mark(block: &[u8], is_head: bool, tabs: u64, bangs: u64, stars: u64) -> bool
    requires short { length block.now ≤ 32 }
    requires tabs { tabs ≡ bits_of 9 block.now }
    requires bangs { bangs ≡ bits_of 33 block.now }
    requires stars { stars ≡ bits_of 42 block.now }
    ensures { result ≡ false → has_mark is_head block.now ≡ false }
{
    let heads = u64::from(is_head) + 2 * tabs;
    let has_empty = heads & tabs != 0;
    let has_comment = heads & bangs != 0;
    let has_interpretation = heads & stars != 0;
    has_empty | has_comment | has_interpretation
}

/// Adds where each token of a text ends to an empty list, and tells what the text was found to be.
/// It is looked at block by block.
pub fn push_ends(ends: &mut Vec<u32>, text: &[u8]) -> Result<Cut, AllocError>
    requires at_most { length text.now ≤ 1048576 }
    requires empty { ends.old.items ≡ [] }
    ensures { IfOk result (λ cut. IsCut text.now ends.new.items cut) }
{
    let mut has_return = false;
    let mut has_mark = false;
    let mut is_head = true;
    let mut start = 0;
    let mut rest = text;
    while !rest.is_empty() {
        let (block, tail) = rest.split_at(rest.len().min(BLOCK));
        let tabs = bits_of(block, b'\t');
        push_tabs(block, tabs, start as u32, ends)?;
        has_return |= holds(block, b'\r');
        let bangs = bits_of(block, b'!');
        let stars = bits_of(block, b'*');
        has_mark |= may_have_mark(block, is_head, tabs, bangs, stars);
        is_head = block[block.len() - 1] == b'\t';
        start += block.len();
        rest = tail;
    }
    ends.push(text.len() as u32)?;
    if has_return {
        return Ok(Cut::Broken);
    }
    Ok(if has_mark || is_head {
        Cut::Whole
    } else {
        Cut::Plain
    })
}

/// The one kind of a text's tokens, by where each ends, or the first rule that they break.
pub fn lawful_kind(text: &[u8], ends: &[u32]) -> Result<SpinedKind, RecordFault>
    requires { ends.now ≡ ends_from 0 (parts text.now) }
    ensures { result ≡ kind_of_tokens (parts text.now) }
{
    let kind = token_kind(text);
    let mut has_empty = false;
    let mut mixes_kinds = false;
    for j in 0..ends.len() {
        let token = token_at_end(text, ends, j);
        has_empty |= token.is_empty();
        mixes_kinds |= token_kind(token) != kind;
    }
    if has_empty {
        return Err(RecordFault::S4);
    }
    if mixes_kinds {
        return Err(RecordFault::S5);
    }
    if is_local_with_comment(kind, text, ends) {
        return Err(RecordFault::S6);
    }
    Ok(kind)
}

/// Whether tokens are local comments of which one begins with `!!`.
fn is_local_with_comment(kind: SpinedKind, text: &[u8], ends: &[u32]) -> bool
    requires { ends.now ≡ ends_from 0 (parts text.now) }
    ensures { result ≡ (same_kind kind Local && list_any is_comment (parts text.now)) }
{
    kind == SpinedKind::Local && has_comment(text, ends)
}

/// Whether some token of a text begins with `!!`, by where each token ends.
fn has_comment(text: &[u8], ends: &[u32]) -> bool
    requires { ends.now ≡ ends_from 0 (parts text.now) }
    ensures { result ≡ list_any is_comment (parts text.now) }
{
    for j in 0..ends.len() {
        if token_at_end(text, ends, j).starts_with(b"!!") {
            return true;
        }
    }
    false
}

/// Where the token `j` of a text begins, by where each token ends: past the tab behind the one before.
fn begin_at(ends: &[u32], j: usize) -> usize
    requires { j < length ends.now }
    ensures { result ≡ begins_at ends.now j }
{
    match j.checked_sub(1) {
        None => 0,
        Some(before) => ends[before] as usize + 1,
    }
}

/// The token `j` of a text, by where each token ends.
pub fn token_at_end<'t>(text: &'t [u8], ends: &[u32], j: usize) -> &'t [u8]
    requires counted { j < length ends.now }
    requires order { begins_at ends.now j ≤ slice_index ends.now j }
    requires within { slice_index ends.now j ≤ length text.now }
    ensures { result.now ≡ slice_range text.now (begins_at ends.now j) (slice_index ends.now j) }
{
    &text[begin_at(ends, j)..ends[j] as usize]
}
