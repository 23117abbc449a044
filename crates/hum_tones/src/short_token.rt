//! Tokens in the making that are short, as most are.
ghost use Rattle.std.specs.Prelude.{◌≡◌, ◌+◌, ◌≤◌, ◌++◌, [], true, length, replicate, take, drop};
ghost use Rattle.arrayvec.specs.ArrayVec.{array_vec_len};
ghost use Rattle.hum_pitch.specs.Given.{spelled};
ghost use Rattle.hum_pitch.specs.Spelling.{spelling};

use arrayvec::ArrayVec;
use hum_pitch::{Pitch, Repeated, accidentals, letters};

/// The text of a token, of at most 16 bytes.
pub(crate) type ShortToken = ArrayVec<u8, 16>;

/// Adds any number of bytes.
#[inline(always)]
fn put_many(text: &mut ShortToken, bytes: &[u8])
    requires { array_vec_len text.old + length bytes.now ≤ 16 }
    ensures items { text.new.items ≡ text.old.items ++ bytes.now }
    ensures len { array_vec_len text.new ≡ array_vec_len text.old + length bytes.now }
{
    let mut rest = bytes;
    while let [b, more @ ..] = rest {
        text.push(*b);
        rest = more;
    }
}

/// Adds bytes, of which there are mostly one or two.
#[inline(always)]
fn put_bytes(text: &mut ShortToken, bytes: &[u8])
    requires { array_vec_len text.old + length bytes.now ≤ 16 }
    ensures items { text.new.items ≡ text.old.items ++ bytes.now }
    ensures len { array_vec_len text.new ≡ array_vec_len text.old + length bytes.now }
{
    match bytes {
        [] => {}
        [a] => text.push(*a),
        [a, b] => {
            text.push(*a);
            text.push(*b);
        }
        _ => put_many(text, bytes),
    }
}

/// Adds a byte any number of times.
#[inline(always)]
fn put_often(text: &mut ShortToken, byte: u8, count: usize)
    requires { array_vec_len text.old + count ≤ 16 }
    ensures items { text.new.items ≡ text.old.items ++ replicate count byte }
    ensures len { array_vec_len text.new ≡ array_vec_len text.old + count }
{
    let mut left = count;
    while left > 0 {
        text.push(byte);
        left -= 1;
    }
}

/// Adds a byte some times, mostly twice at most.
#[inline(always)]
fn put_repeated(text: &mut ShortToken, repeated: Repeated)
    requires { array_vec_len text.old + repeated.count ≤ 16 }
    ensures items { text.new.items ≡ text.old.items ++ replicate repeated.count repeated.byte }
    ensures len { array_vec_len text.new ≡ array_vec_len text.old + repeated.count }
{
    match repeated.count {
        0 => {}
        1 => text.push(repeated.byte),
        2 => {
            text.push(repeated.byte);
            text.push(repeated.byte);
        }
        count => put_often(text, repeated.byte, count),
    }
}

/// Makes the empty text a token with a pitch in the place of what stands from `start` to `end`, unless one
/// of them is long; and tells which.
#[inline(always)]
pub(crate) fn put_with_pitch(
    text: &mut ShortToken,
    token: &[u8],
    start: usize,
    end: usize,
    pitch: Pitch,
) -> bool
    requires empty { text.old.items ≡ [] }
    requires start { start ≤ length token.now }
    requires end { end ≤ length token.now }
    ensures { result ≡ true → text.new.items
        ≡ take start token.now ++ (spelling (spelled pitch) ++ drop end token.now) }
{
    if token.len() > 16 {
        return false;
    }
    let before = token.split_at(start).0;
    let behind = token.split_at(end).1;
    let letters = letters(pitch);
    let accidentals = accidentals(pitch);
    if before.len() + letters.count + accidentals.count + behind.len() > 16 {
        return false;
    }
    put_bytes(text, before);
    put_repeated(text, letters);
    put_repeated(text, accidentals);
    put_bytes(text, behind);
    true
}
