//! Null tokens that give way to what stands above them.
ghost use Rattle.std.specs.Prelude.{◌≡◌, ◌<◌, ◌≤◌, ◌+◌, ◌-◌, ◌++◌, length, slice_index};
ghost use Rattle.std.specs.Prelude.{slice_range, take, IfSome, if◌then◌else◌};
ghost use Rattle.hum_record.specs.Building.{spelled};
ghost use Rattle.hum_record.specs.Contents.{filled_from, is_null};
ghost use Rattle.hum_record.specs.Fields.{ends_from};
ghost use Rattle.hum_score.specs.Spelling.{parts};

use std::simd::prelude::*;

/// How many bytes are copied of a token, whatever it has: no long token is copied so.
pub const WHOLE: usize = 16;

/// Whether a null token stands between two places.
fn is_null_at(text: &[u8], begin: usize, end: usize) -> bool
    requires order { begin ≤ end }
    requires within { end ≤ length text.now }
    ensures { result ≡ is_null (slice_range text.now begin end) }
{
    end - begin == 1 && text[begin] == b'.'
}

/// Puts what stands between two places of some bytes at a place of a text, where it is short, and tells
/// where it ends.
fn put_short(text: &mut [u8], at: usize, held: &[u8], begin: usize, end: usize) -> Option<usize>
    requires order { begin ≤ end }
    requires filled { end + 16 ≤ length held.now }
    requires room { at + 16 ≤ length text.old }
    ensures text { IfSome result (λ to. take to text.new
        ≡ take at text.old ++ slice_range held.now begin end) }
    ensures end { IfSome result (λ to. to ≡ at + (end - begin)) }
{
    if end - begin > WHOLE {
        return None;
    }
    u8x16::from_slice(&held[begin..]).copy_to_slice(&mut text[at..]);
    Some(at + (end - begin))
}

/// The same of a token of a row, or where that is null of what stands above it.
fn put_one(
    text: &mut [u8],
    at: usize,
    row: &[u8],
    begin: usize,
    end: usize,
    above: &[u8],
    above_begin: usize,
    above_end: usize,
) -> Option<usize>
    requires order { begin ≤ end }
    requires above_order { above_begin ≤ above_end }
    requires filled { end + 16 ≤ length row.now }
    requires above_filled { above_end + 16 ≤ length above.now }
    requires room { at + 16 ≤ length text.old }
    ensures text { IfSome result (λ to. take to text.new
        ≡ take at text.old ++ (if is_null (slice_range row.now begin end)
        then slice_range above.now above_begin above_end else slice_range row.now begin end)) }
    ensures most { IfSome result (λ to. to ≤ at + (end - begin) + (above_end - above_begin)) }
    ensures least { IfSome result (λ to. at ≤ to) }
{
    if is_null_at(row, begin, end) {
        put_short(text, at, above, above_begin, above_end)
    } else {
        put_short(text, at, row, begin, end)
    }
}

/// Puts the tokens of a row in front of what stands in a text, and for a null one what stands above it, and
/// where each ends. It tells how long they are, if all are short.
#[inline(always)]
pub fn put_filled(
    text: &mut [u8],
    places: &mut [u32],
    row: &[u8],
    row_len: usize,
    ends: &[u32],
    above: &[u8],
    above_len: usize,
    above_ends: &[u32],
) -> Option<usize>
    requires row { row_len + 16 ≤ length row.now }
    requires above { above_len + 16 ≤ length above.now }
    requires cut { ends.now ≡ ends_from 0 (parts (take row_len row.now)) }
    requires above_cut { above_ends.now ≡ ends_from 0 (parts (take above_len above.now)) }
    requires as_wide { length ends.now ≡ length above_ends.now }
    requires few { row_len + above_len < 1048576 }
    requires room { row_len + above_len + 32 ≤ length text.old }
    requires places { length ends.now ≤ length places.old }
    ensures text { IfSome result (λ len. take len text.new
        ≡ spelled (filled_from (parts (take above_len above.now)) (parts (take row_len row.now)))) }
    ensures ends { IfSome result (λ len. take (length ends.now) places.new
        ≡ ends_from 0 (filled_from (parts (take above_len above.now)) (parts (take row_len row.now)))) }
    ensures ended { IfSome result (λ len. slice_index text.new len ≡ 10) }
    ensures at_most { IfSome result (λ len. len ≤ row_len + above_len + 1) }
{
    let mut len = 0;
    let mut begin = 0;
    let mut above_begin = 0;
    for j in 0..ends.len() {
        let end = ends[j] as usize;
        let above_end = above_ends[j] as usize;
        let to = put_one(text, len, row, begin, end, above, above_begin, above_end)?;
        text[to] = b'\t';
        places[j] = to as u32;
        len = to + 1;
        begin = end + 1;
        above_begin = above_end + 1;
    }
    let to = len - 1;
    text[to] = b'\n';
    Some(to)
}
