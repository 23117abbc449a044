//! Tokens that are put behind others.
ghost use Rattle.std.specs.Prelude.{◌≡◌, ◌≤◌, ◌<◌, ◌+◌, ◌-◌, ◌*◌, ◌^◌, ◌++◌, length, map, slice_index, take};
ghost use Rattle.std.specs.List.{AllByRecursion};
ghost use Rattle.hum_record.specs.Building.{between};
ghost use lib.Seq.{paste};

use std::simd::prelude::*;

/// Puts one byte at a place.
fn put_one(text: &mut [u8], at: usize, token: &[u8])
    requires one { length token.now ≡ 1 }
    requires within { at + length token.now ≤ length text.old }
    ensures { text.new ≡ paste text.old at token.now (length token.now) }
{
    text[at] = token[0];
}

/// Puts `N` to twice as many bytes at a place, by the first `N` of them and the last.
fn put_by<const N: usize>(text: &mut [u8], at: usize, token: &[u8])
    requires few { N ≤ length token.now }
    requires many { length token.now ≤ 2 * N }
    requires within { at + length token.now ≤ length text.old }
    ensures { text.new ≡ paste text.old at token.now (length token.now) }
{
    let behind = token.len() - N;
    let first = Simd::<u8, N>::from_slice(token);
    let last = Simd::<u8, N>::from_slice(&token[behind..]);
    first.copy_to_slice(&mut text[at..]);
    last.copy_to_slice(&mut text[at + behind..]);
}

/// Puts any number of bytes at a place.
fn put_any(text: &mut [u8], at: usize, token: &[u8])
    requires within { at + length token.now ≤ length text.old }
    ensures { text.new ≡ paste text.old at token.now (length token.now) }
{
    text[at..at + token.len()].copy_from_slice(token);
}

/// Puts a token at a place of a text, and answers where it ends. Most tokens are short.
pub fn put_token(text: &mut [u8], at: usize, token: &[u8]) -> usize
    requires within { at + length token.now ≤ length text.old }
    ensures text { text.new ≡ paste text.old at token.now (length token.now) }
    ensures end { result ≡ at + length token.now }
{
    let size = token.len();
    if size < 4 {
        if size >= 2 {
            put_by::<2>(text, at, token);
        } else if size == 1 {
            put_one(text, at, token);
        } else {
            put_any(text, at, token);
        }
    } else if size <= 8 {
        put_by::<4>(text, at, token);
    } else if size <= 16 {
        put_by::<8>(text, at, token);
    } else if size <= 32 {
        put_by::<16>(text, at, token);
    } else if size <= 64 {
        put_by::<32>(text, at, token);
    } else {
        put_any(text, at, token);
    }
    at + size
}

/// Puts a token behind the first `len` bytes of a text, a tab before it if tokens stand there, and LF
/// behind it; and answers where it ends.
pub fn put_behind(text: &mut [u8], len: usize, count: usize, token: &[u8]) -> usize
    requires { len + length token.now + 1 < length text.old }
    ensures end { result ≡ len + (length (between count) + length token.now) }
    ensures text { take result text.new ≡ take len text.old ++ (between count ++ token.now) }
    ensures ended { slice_index text.new result ≡ 10 }
{
    let mut begin = len;
    if count != 0 {
        text[begin] = b'\t';
        begin += 1;
    }
    let end = put_token(text, begin, token);
    text[end] = b'\n';
    end
}

/// Puts where some tokens end behind the first `count` of a list, so many bytes further on.
#[inline(always)]
pub fn put_ends(places: &mut [u32], count: usize, ends: &[u32], begin: u32)
    requires room { count + length ends.now ≤ length places.old }
    requires few { AllByRecursion (λ end. begin + end < 2 ^ 32) ends.now }
    ensures { take (count + length ends.now) places.new
        ≡ take count places.old ++ map (λ end. begin + end) ends.now }
{
    for k in 0..ends.len() {
        places[count + k] = begin + ends[k];
    }
}
