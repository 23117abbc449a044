//! Tokens that are left of a record, in its own memory.
ghost use Rattle.std.specs.Prelude.{◌≡◌, ◌<◌, ◌≤◌, ◌+◌, ◌-◌, ◌*◌, ◌^◌, ◌==◌, length, take, if◌then◌else◌};
ghost use Rattle.std.specs.List.{copy_within};
ghost use Rattle.hum_score.specs.Row.{chosen};
ghost use Rattle.hum_score.specs.Spelling.{parts};
ghost use Rattle.hum_record.specs.Building.{spelled};
ghost use Rattle.hum_record.specs.Fields.{begins_at, ends_from};

use crate::selection::Selection;
use std::simd::prelude::*;

/// Moves `N` to twice as many bytes to the left, by the first `N` of them and the last.
fn move_by<const N: usize>(text: &mut [u8], from: usize, end: usize, to: usize)
    requires leftward { to ≤ from }
    requires few { from + N ≤ end }
    requires many { end ≤ from + 2 * N }
    requires within { end ≤ length text.old }
    ensures { text.new ≡ copy_within text.old from end to }
{
    let first = Simd::<u8, N>::from_slice(&text[from..]);
    let last = Simd::<u8, N>::from_slice(&text[end - N..]);
    first.copy_to_slice(&mut text[to..]);
    last.copy_to_slice(&mut text[to + (end - N - from)..]);
}

/// Moves any number of bytes to the left.
fn move_any(text: &mut [u8], from: usize, end: usize, to: usize)
    requires leftward { to ≤ from }
    requires order { from ≤ end }
    requires within { end ≤ length text.old }
    ensures { text.new ≡ copy_within text.old from end to }
{
    text.copy_within(from..end, to);
}

/// Moves what stands between two places to the left. Most tokens are short.
fn move_left(text: &mut [u8], from: usize, end: usize, to: usize)
    requires leftward { to ≤ from }
    requires order { from ≤ end }
    requires within { end ≤ length text.old }
    ensures { text.new ≡ copy_within text.old from end to }
{
    let size = end - from;
    if size < 4 {
        if size < 2 {
            move_any(text, from, end, to);
        } else {
            move_by::<2>(text, from, end, to);
        }
    } else if size <= 8 {
        move_by::<4>(text, from, end, to);
    } else if size <= 16 {
        move_by::<8>(text, from, end, to);
    } else {
        move_any(text, from, end, to);
    }
}

/// Where what is moved of a token begins: at the tab before it, or behind that where none is left so
/// far.
fn moved_from(before: usize, count: usize) -> usize
    requires { before < 2 ^ 32 }
    ensures { result ≡ (if count == 0 then before + 1 else before) }
{
    if count == 0 { before + 1 } else { before }
}

/// How long the text of the tokens in front is.
fn front_len(ends: &[u32], front: usize) -> usize
    requires { front ≤ length ends.now }
    ensures { result ≡ begins_at ends.now front - 1 }
{
    match front.checked_sub(1) {
        None => 0,
        Some(last) => ends[last] as usize,
    }
}

/// Moves the selected tokens of a text to its front, by where each token ends in it, and answers how
/// many bytes and tokens these are. Those in front stay where they stand.
#[inline(always)]
fn move_to_front(text: &mut [u8], ends: &mut [u32], selection: &Selection) -> (usize, usize)
    requires cut { ends.old ≡ ends_from 0 (parts text.old) }
    requires as_wide { length selection.now ≡ length ends.old }
    requires at_most { length text.old ≤ 1048576 }
    ensures text { take result.0 text.new ≡ spelled (chosen selection.now (parts text.old)) }
    ensures ends { take result.1 ends.new ≡ ends_from 0 (chosen selection.now (parts text.old)) }
    ensures shorter { result.0 ≤ length text.new }
    ensures fewer { result.1 ≤ length ends.new }
{
    let mut count = selection.front();
    let mut len = front_len(ends, count);
    for j in selection.moved() {
        let end = ends[*j] as usize;
        let from = moved_from(ends[*j - 1] as usize, count);
        move_left(text, from, end, len);
        len += end - from;
        ends[count] = len as u32;
        count += 1;
    }
    (len, count)
}

/// The same of a text that is the first `len` bytes, of whose tokens the first `count` places say where
/// they end.
#[inline(always)]
pub fn move_in_front(
    text: &mut [u8],
    len: usize,
    ends: &mut [u32],
    count: usize,
    selection: &Selection,
) -> (usize, usize)
    requires text_within { len ≤ length text.old }
    requires ends_within { count ≤ length ends.old }
    requires cut { take count ends.old ≡ ends_from 0 (parts (take len text.old)) }
    requires as_wide { length selection.now ≡ count }
    requires at_most { len ≤ 1048576 }
    ensures text { take result.0 text.new
        ≡ spelled (chosen selection.now (parts (take len text.old))) }
    ensures ends { take result.1 ends.new
        ≡ ends_from 0 (chosen selection.now (parts (take len text.old))) }
    ensures shorter { result.0 ≤ len }
    ensures fewer { result.1 ≤ count }
{
    move_to_front(&mut text[..len], &mut ends[..count], selection)
}
