//! Subtokens as most are: a pitch with at most one sign, among bytes that say nothing of a note.
ghost use Rattle.std.specs.Prelude.{◌≡◌, ◌∷◌, ◌+◌, ◌<◌, ◌≤◌, ◌^◌, length, take, drop, true, IfSome};
ghost use Rattle.std.specs.List.{AllByRecursion};
ghost use Rattle.hum_kern.specs.Classes.{is_letter, is_sign, is_plain};
ghost use Rattle.hum_pitch.specs.Pitch.{IsAlteration};
ghost use Rattle.hum_kern.specs.Note.{reading, alteration_of};
ghost use Rattle.hum_kern.specs.Usual.{tie_at_end, IsReadAlone};

use crate::notes::{Note, natural};
use crate::runs::{Class, is_letter, run_end};
use hum_pitch::Pitch;

/// The alteration by the sign at a place, and how many signs stand there: one, or none.
fn sign_at(bytes: &[u8], at: usize) -> (i8, usize)
    requires { at ≤ length bytes.now }
    ensures few { result.1 ≤ 1 }
    ensures within { result.1 ≤ length (drop at bytes.now) }
    ensures signs { AllByRecursion (λ b. is_sign b ≡ true) (take result.1 (drop at bytes.now)) }
    ensures alteration { result.0 ≡ alteration_of (take result.1 (drop at bytes.now)) }
    ensures in_range { IsAlteration result.0 }
{
    match bytes.split_at(at).1 {
        [b'#', ..] => (1, 1),
        [b'-', ..] => (-1, 1),
        [b'n', ..] => (0, 1),
        _ => (0, 0),
    }
}

/// Whether the last byte, if there is one, says that a tie goes on or ends; none where it is another, or
/// more stand there.
fn tie_at_end(last: &[u8]) -> Option<bool>
    ensures { result ≡ tie_at_end last.now }
{
    match last {
        [] => Some(false),
        [b] => {
            if *b == b'_' || *b == b']' {
                Some(true)
            } else {
                None
            }
        }
        _ => None,
    }
}

// The places in the token are all counted from its front: what stands between them is never taken as a
// text of its own, so that no length is worked out.

/// What a subtoken says by its first letter, which stands behind plain bytes, if it is as most are.
#[inline(always)]
fn read_pitch(bytes: &[u8], start: usize, letter: u8) -> Option<Note>
    requires within { start < length bytes.now }
    requires fits { length bytes.now < 2 ^ 64 }
    requires plain { AllByRecursion (λ b. is_plain b ≡ true) (take start bytes.now) }
    requires at { drop start bytes.now ≡ letter ∷ drop (start + 1) bytes.now }
    requires letter { is_letter letter ≡ true }
    ensures { IfSome result (λ found. IsReadAlone bytes.now (reading found)) }
{
    let behind = run_end(bytes, start + 1, Class::Repeat(letter));
    let (alteration, signs) = sign_at(bytes, behind);
    let end = behind + signs;
    let last = run_end(bytes, end, Class::Plain);
    let continued = match tie_at_end(bytes.split_at(last).1) {
        Some(continued) => continued,
        None => return None,
    };
    let letters = behind - start;
    if letters > 8 {
        return None;
    }
    let note = natural(letter, letters);
    Some(Note {
        pitch: Some(Pitch {
            step: note.step,
            octave: note.octave,
            alteration,
        }),
        start,
        end,
        rest: false,
        grace: false,
        continued,
    })
}

/// What a subtoken says by its first byte that isn't plain, if it is as most are.
#[inline(always)]
fn read_behind(bytes: &[u8], start: usize, first: u8) -> Option<Note>
    requires within { start < length bytes.now }
    requires fits { length bytes.now < 2 ^ 64 }
    requires plain { AllByRecursion (λ b. is_plain b ≡ true) (take start bytes.now) }
    requires at { drop start bytes.now ≡ first ∷ drop (start + 1) bytes.now }
    ensures { IfSome result (λ found. IsReadAlone bytes.now (reading found)) }
{
    if first == b'r' && start + 1 == bytes.len() {
        return Some(Note {
            pitch: None,
            start: 0,
            end: 0,
            rest: true,
            grace: false,
            continued: false,
        });
    }
    if is_letter(first) {
        return read_pitch(bytes, start, first);
    }
    None
}

/// What a token says that is one subtoken and as most are: a rest whose sign is the last byte, or one run
/// of a repeated letter with at most one sign, and at most a tie's mark, which is the last byte; or none
/// where it isn't such a one.
#[inline(always)]
pub fn read_lone(bytes: &[u8]) -> Option<Note>
    ensures { IfSome result (λ found. IsReadAlone bytes.now (reading found)) }
{
    let start = run_end(bytes, 0, Class::Plain);
    if start == bytes.len() {
        return None;
    }
    read_behind(bytes, start, bytes[start])
}
