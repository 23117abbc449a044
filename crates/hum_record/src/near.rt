//! Lines of plain data, all of whose bytes are looked at in one go.
ghost use Rattle.std.specs.Prelude.{◌≡◌, ◌≤◌, ◌<◌, ◌+◌, ◌*◌, ◌^◌, ◌++◌, true, length, map, take, IfSome};
ghost use Rattle.std.specs.Prelude.{bit_and};
ghost use Rattle.std.specs.Simd.Lanes.{chunk, mask_l, put_chunk};
ghost use Rattle.hum_record.specs.Cutting.{set_places};
ghost use Rattle.hum_record.specs.Lines.{IsBehind};
ghost use Rattle.hum_record.specs.Plain.{is_stop, EndsLine};

use crate::bits::bits_at;
use std::simd::prelude::*;

/// How many bytes are looked at at once.
pub const NEAR: usize = 64;

/// How many of a short line: most lines are shorter.
pub const SHORT: usize = 32;

/// How many tokens are put without a loop: most lines have no more.
const USUAL: usize = 16;

/// How many places are copied at once: most lines have fewer tokens.
pub const FEW: usize = 8;

/// Where the text of a line ends, how many bytes the line has with its line end, and where tokens end in the
/// last bytes that were looked at, as the bits of a number.
#[derive(Clone, Copy)]
pub struct LineEnd {
    pub len: usize,
    pub size: usize,
    pub ends: u64,
}

/// Where LF stands among `N` bytes, or a byte that seldom stands in data, as the bits of a number.
pub fn stop_bits<const N: usize>(held: &[u8], at: usize) -> u64
    requires few { N ≤ 64 }
    requires within { at + N ≤ length held.now }
    ensures { result ≡ mask_l (map is_stop (chunk at N held.now)) }
{
    let lanes = Simd::<u8, N>::from_slice(&held[at..]);
    // LF and `*` differ in one bit
    ((lanes | Simd::splat(32)).simd_eq(Simd::splat(b'*'))
        | lanes.simd_eq(Simd::splat(b'!'))
        | lanes.simd_eq(Simd::splat(b'\r'))).to_bitmask()
}

/// Whether no token is empty of those that begin in a word, by the bits of where its tokens end. `head` is
/// 1 where one begins with the word, or 0.
pub fn is_apart(head: u64, ends: u64) -> bool
    requires { head ≤ 1 }
    ensures { result ≡ true → bit_and (head + 2 * ends) ends ≡ 0 }
{
    let heads = (ends << 1) + head;
    heads & ends == 0
}

/// Where LF stands behind a text that ends at a place: there, or behind a CR, in front of another place.
fn lf_behind(held: &[u8], len: usize, end: usize) -> Option<usize>
    requires near { len < end }
    requires within { end ≤ length held.now }
    ensures { IfSome result (IsBehind held.now len) }
{
    if held[len] == b'\n' {
        return Some(len);
    }
    if is_cr_lf(held, len, end) {
        return Some(len + 1);
    }
    None
}

fn is_cr_lf(held: &[u8], len: usize, end: usize) -> bool
    requires near { len < end }
    requires within { end ≤ length held.now }
    ensures { result ≡ true → IsBehind held.now len (len + 1) }
{
    held[len] == b'\r' && len + 1 < end && held[len + 1] == b'\n'
}

/// The end of a line that ends among the `N` bytes from a place on, by the bits of the stops among these, if
/// the bytes up to there show plain data.
pub fn line_end<const N: usize>(held: &[u8], at: usize, head: u64, stops: u64) -> Option<LineEnd>
    requires few { N ≤ 64 }
    requires within { at + N ≤ length held.now }
    requires head { head ≤ 1 }
    requires stops { stops ≡ mask_l (map is_stop (chunk at N held.now)) }
    requires some { 0 < stops }
    ensures near { IfSome result (λ end. end.len < at + N) }
    ensures ends { IfSome result (λ end. EndsLine held.now at head end.len end.size end.ends) }
{
    let rest = stops.trailing_zeros() as usize;
    let len = at + rest;
    let lf = lf_behind(held, len, at + N)?;
    let tabs = bits_at::<N>(held, at, b'\t') & ((1u64 << rest) - 1);
    let ends = tabs + (1u64 << rest);
    if !is_apart(head, ends) {
        return None;
    }
    Some(LineEnd {
        len,
        size: lf + 1,
        ends,
    })
}

/// Puts the place of the lowest of some bits into a list, and answers the others.
fn put_place(places: &mut [u32], end: usize, start: u32, bits: u64) -> u64
    requires some { 0 < bits }
    requires room { end < length places.old }
    requires few { start + 64 < 2 ^ 32 }
    ensures put { take (end + 1) places.new ++ set_places 64 start result
        ≡ take end places.old ++ set_places 64 start bits }
    ensures within { end < length places.new }
    ensures less { result < bits }
{
    places[end] = start + bits.trailing_zeros();
    bits & (bits - 1)
}

/// Puts the places of bits, of which the lowest has this place, behind the first `count` of a list, and
/// answers how many there are then.
#[inline(always)]
pub fn put_places(places: &mut [u32], count: usize, start: u32, bits: u64) -> usize
    requires room { count + length (set_places 64 start bits) ≤ length places.old }
    requires few { start + 64 < 2 ^ 32 }
    ensures count { result ≡ count + length (set_places 64 start bits) }
    ensures places { take result places.new ≡ take count places.old ++ set_places 64 start bits }
{
    let mut end = count;
    let mut rest = bits;
    for _ in 0..USUAL {
        if rest == 0 {
            return end;
        }
        rest = put_place(places, end, start, rest);
        end += 1;
    }
    while rest != 0 {
        rest = put_place(places, end, start, rest);
        end += 1;
    }
    end
}

/// Puts the first `N` bytes of what is held in front of what stands in a list.
pub fn copy_near<const N: usize>(text: &mut [u8], held: &[u8])
    requires filled { N ≤ length held.now }
    requires room { N ≤ length text.old }
    ensures { text.new ≡ put_chunk 0 text.old (chunk 0 N held.now) }
{
    Simd::<u8, N>::from_slice(held).copy_to_slice(text);
}

/// The same of places.
pub fn copy_places(places: &mut [u32], held: &[u32])
    requires filled { 8 ≤ length held.now }
    requires room { 8 ≤ length places.old }
    ensures { places.new ≡ put_chunk 0 places.old (chunk 0 8 held.now) }
{
    u32x8::from_slice(held).copy_to_slice(places);
}
