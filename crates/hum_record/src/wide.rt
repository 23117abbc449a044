//! Longer lines of plain data, looked at in words of 64 bytes.
ghost use Rattle.std.specs.Prelude.{◌≡◌, ◌<◌, ◌≤◌, ◌+◌, ◌*◌, length, take, vec_len, IfSome};
ghost use Rattle.hum_record.specs.Lines.{IsLine};
ghost use Rattle.hum_record.specs.Plain.{HasPlaces};

use crate::MOST_BYTES;
use crate::bits::bits_at;
use crate::near::{FEW, NEAR, is_apart, line_end, put_places, stop_bits};
use crate::room::give_places;
use std::simd::prelude::*;

/// How many words are looked at: a record has no more.
const MOST_WORDS: usize = MOST_BYTES / NEAR;

/// A line: how long its text is, how many tokens end in it, and in how many words it stands.
#[derive(Clone, Copy)]
pub struct FarLine {
    pub len: usize,
    pub count: usize,
    pub words: usize,
}

/// Puts where the tokens of the line in front of what is held end in front of what stands in a list, if its
/// bytes show that it is plain data, and there is memory for them.
pub fn put_line(places: &mut Vec<u32>, held: &[u8]) -> Option<FarLine>
    ensures line { IfSome result (λ line. IsLine held.now line.len) }
    ensures within { IfSome result (λ line. line.count ≤ vec_len places.new) }
    ensures plain { IfSome result (λ line.
        HasPlaces (take line.len held.now) (take line.count places.new.items)) }
    ensures words { IfSome result (λ line. 64 * line.words ≤ length held.now) }
    ensures last { IfSome result (λ line. line.len < 64 * line.words) }
    ensures few { IfSome result (λ line. 64 * line.words ≤ line.len + 64) }
    ensures at_most { IfSome result (λ line. line.len ≤ 1048576) }
{
    let mut count = 0;
    let mut head = 1;
    let mut words = 0;
    while words < MOST_WORDS && held.len() - NEAR * words >= NEAR {
        let at = NEAR * words;
        words += 1;
        let Ok(()) = give_places(places, count + NEAR) else {
            return None;
        };
        let stops = stop_bits::<64>(held, at);
        if stops != 0 {
            let end = line_end::<64>(held, at, head, stops)?;
            return Some(FarLine {
                len: end.len,
                count: put_places(places, count, at as u32, end.ends),
                words,
            });
        }
        let ends = bits_at::<64>(held, at, b'\t');
        if !is_apart(head, ends) {
            return None;
        }
        count = put_places(places, count, at as u32, ends);
        head = ends >> 63;
    }
    None
}

/// Puts the first words of what is held in front of what stands in a text.
pub fn copy_words(text: &mut [u8], held: &[u8], words: usize)
    requires filled { 64 * words ≤ length held.now }
    requires room { 64 * words ≤ length text.old }
    ensures { take (64 * words) text.new ≡ take (64 * words) held.now }
{
    for k in 0..words {
        u8x64::from_slice(&held[NEAR * k..]).copy_to_slice(&mut text[NEAR * k..]);
    }
}

/// Puts the first groups of eight places in front of what stands in a list.
pub fn copy_groups(places: &mut [u32], held: &[u32], groups: usize)
    requires filled { 8 * groups ≤ length held.now }
    requires room { 8 * groups ≤ length places.old }
    ensures { take (8 * groups) places.new ≡ take (8 * groups) held.now }
{
    for k in 0..groups {
        u32x8::from_slice(&held[FEW * k..]).copy_to_slice(&mut places[FEW * k..]);
    }
}
