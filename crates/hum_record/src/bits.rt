//! The places of a byte in a short text, as the bits of a number.
ghost use Rattle.std.specs.Prelude.{◌≡◌, ◌+◌, ◌-◌, ◌*◌, ◌≤◌, length};
ghost use Rattle.std.specs.Simd.Lanes.{chunk};
ghost use Rattle.hum_record.specs.Cutting.{bits_of};
ghost use Rattle.hum_score.specs.Spelling.{has_byte};

use std::simd::prelude::*;

/// The bits of a byte in `N` bytes of a text.
pub fn bits_at<const N: usize>(text: &[u8], at: usize, byte: u8) -> u64
    requires few { N ≤ 64 }
    requires within { at + N ≤ length text.now }
    ensures { result ≡ bits_of byte (chunk at N text.now) }
{
    Simd::<u8, N>::from_slice(&text[at..])
        .simd_eq(Simd::splat(byte))
        .to_bitmask()
}

/// The bits of a byte in a text, from those in its first bytes and in as many of its last: the two
/// may overlap.
fn joined(text: &[u8], byte: u8, each: usize, first: u64, last: u64) -> u64
    requires few { each ≤ 16 }
    requires filled { each ≤ length text.now }
    requires covered { length text.now ≤ 2 * each }
    requires first { first ≡ bits_of byte (chunk 0 each text.now) }
    requires last { last ≡ bits_of byte (chunk (length text.now - each) each text.now) }
    ensures { result ≡ bits_of byte text.now }
{
    let twice = 2 * each - text.len();
    first + ((last >> twice) << each)
}

/// The bits of a byte in a text, one by one from the last.
fn bits_one_by_one(text: &[u8], byte: u8) -> u64
    requires { length text.now ≤ 32 }
    ensures { result ≡ bits_of byte text.now }
{
    let mut bits = 0;
    let mut i = text.len();
    while i > 0 {
        i -= 1;
        bits = 2 * bits + (text[i] == byte) as u64;
    }
    bits
}

/// The number whose bit `k` says whether byte `k` of a text is this one.
pub fn bits_of(text: &[u8], byte: u8) -> u64
    requires { length text.now ≤ 32 }
    ensures { result ≡ bits_of byte text.now }
{
    let count = text.len();
    if count >= 16 {
        let first = bits_at::<16>(text, 0, byte);
        return joined(text, byte, 16, first, bits_at::<16>(text, count - 16, byte));
    }
    if count >= 8 {
        let first = bits_at::<8>(text, 0, byte);
        return joined(text, byte, 8, first, bits_at::<8>(text, count - 8, byte));
    }
    bits_one_by_one(text, byte)
}

/// Whether a byte stands in a short text.
pub fn holds(text: &[u8], byte: u8) -> bool
    requires { length text.now ≤ 32 }
    ensures { result ≡ has_byte byte text.now }
{
    bits_of(text, byte) != 0
}
