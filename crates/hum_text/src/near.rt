//! The first LF of some bytes.
ghost use Rattle.std.specs.Prelude.{◌≡◌, ◌≤◌, ◌+◌, length, map, Some, IfSome};
ghost use Rattle.std.specs.Simd.Lanes.{chunk, mask_l};
ghost use Rattle.memchr.specs.Find.{IsFirstByte, is_byte};
ghost use Rattle.hum_text.specs.Text.{lf};

use std::simd::prelude::*;

/// How many bytes are looked at: hardly a line is longer.
const NEAR: usize = 256;

/// How many of them at once: most lines are shorter still.
const STEP: usize = 32;

/// Where LF stands in 32 bytes from a place on, as the bits of a number.
fn near_bits(bytes: &[u8], at: usize) -> u64
    requires { at + 32 ≤ length bytes.now }
    ensures { result ≡ mask_l (map (is_byte lf) (chunk at 32 bytes.now)) }
{
    u8x32::from_slice(&bytes[at..])
        .simd_eq(u8x32::splat(b'\n'))
        .to_bitmask()
}

/// Where the first LF stands, if it is found by looking at the first 256 bytes step by step, as far as
/// there are whole steps; else none.
pub fn near_lf(bytes: &[u8]) -> Option<usize>
    ensures { IfSome result (λ k. IsFirstByte (is_byte lf) bytes.now (Some k)) }
{
    let mut at = 0;
    while at < NEAR && bytes.len() - at >= STEP {
        let near = near_bits(bytes, at);
        if near != 0 {
            return Some(at + near.trailing_zeros() as usize);
        }
        at += STEP;
    }
    None
}
