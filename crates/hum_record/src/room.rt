//! Room for a text, and for the places where its tokens end.
//!
//! A short text has little room, and a long one twice what it needs: no record holds much memory that
//! a longer one left.
ghost use Rattle.std.specs.Prelude.{◌≡◌, ◌≤◌, ◌<◌, ◌+◌, ◌*◌, ◌^◌, max, nat_le, OnOk, OnErr, take, vec_len};
ghost use Rattle.hum_record.specs.Room.{IsGiven};

use crate::filling::WHOLE;
use crate::near::NEAR;
use std::alloc::AllocError;

/// How many bytes and places there are at least once there are some, so that a short record finds
/// room in what another one left.
pub const LEAST_BYTES: usize = NEAR + WHOLE;

pub const LEAST_PLACES: usize = 32;

/// How many bytes and places there may be, however short a text is. One of so many bytes has half as many
/// tokens.
pub const SHORT_BYTES: usize = 512;

pub const SHORT_PLACES: usize = SHORT_BYTES / 2 + LEAST_PLACES;

/// Whether there is no more room than a short text has, and twice what is needed.
#[inline]
pub fn is_within(room: usize, short: usize, count: usize) -> bool
    ensures { result ≡ nat_le room (short + 2 * count) }
{
    let more = room.saturating_sub(short);
    more / 2 + more % 2 <= count
}

/// Fills up a list to this length, where it is shorter.
#[inline(never)]
pub fn fill_bytes(held: &mut Vec<u8>, count: usize) -> Result<(), AllocError>
    ensures kept { take (vec_len held.old) held.new.items ≡ held.old.items }
    ensures more { vec_len held.old ≤ vec_len held.new }
    ensures room { OnOk result (count ≤ vec_len held.new) }
    ensures most { vec_len held.new ≤ max (vec_len held.old) (max count 80) }
    ensures full { OnErr result (vec_len held.new ≡ vec_len held.old) }
{
    let count = count.max(LEAST_BYTES);
    if held.len() < count {
        held.reserve_exact(count - held.len())?;
        held.resize(count, 0)?;
    }
    Ok(())
}

#[inline(never)]
pub fn fill_places(places: &mut Vec<u32>, count: usize) -> Result<(), AllocError>
    ensures kept { take (vec_len places.old) places.new.items ≡ places.old.items }
    ensures more { vec_len places.old ≤ vec_len places.new }
    ensures room { OnOk result (count ≤ vec_len places.new) }
    ensures most { vec_len places.new ≤ max (vec_len places.old) (max count 32) }
    ensures full { OnErr result (vec_len places.new ≡ vec_len places.old) }
{
    let count = count.max(LEAST_PLACES);
    if places.len() < count {
        places.resize(count, 0)?;
    }
    Ok(())
}

/// The same, but most often it is as long already.
pub fn give_bytes(held: &mut Vec<u8>, count: usize) -> Result<(), AllocError>
    ensures kept { take (vec_len held.old) held.new.items ≡ held.old.items }
    ensures more { vec_len held.old ≤ vec_len held.new }
    ensures room { OnOk result (count ≤ vec_len held.new) }
    ensures most { vec_len held.new ≤ max (vec_len held.old) (max count 80) }
{
    if held.len() < count {
        return fill_bytes(held, count);
    }
    Ok(())
}

pub fn give_places(places: &mut Vec<u32>, count: usize) -> Result<(), AllocError>
    ensures kept { take (vec_len places.old) places.new.items ≡ places.old.items }
    ensures more { vec_len places.old ≤ vec_len places.new }
    ensures room { OnOk result (count ≤ vec_len places.new) }
    ensures most { vec_len places.new ≤ max (vec_len places.old) (max count 32) }
{
    if places.len() < count {
        return fill_places(places, count);
    }
    Ok(())
}

/// Makes room for so many bytes and places, if there is memory for both, and tells whether there was. Most often
/// the room is there already.
pub fn make_room(held: &mut Vec<u8>, bytes: usize, places: &mut Vec<u32>, count: usize) -> bool
    requires few { bytes < 2 ^ 62 }
    requires few_places { count < 2 ^ 62 }
    ensures bytes { IsGiven result held.old held.new bytes (max (2 * bytes) 80) }
    ensures places { IsGiven result places.old places.new count (max (2 * count) 32) }
{
    if held.len() >= bytes && places.len() >= count {
        return true;
    }
    make_more(held, bytes, places, count)
}

// The same, with room for as much again.
#[inline(never)]
fn make_more(held: &mut Vec<u8>, bytes: usize, places: &mut Vec<u32>, count: usize) -> bool
    requires few { bytes < 2 ^ 62 }
    requires few_places { count < 2 ^ 62 }
    ensures bytes { IsGiven result held.old held.new bytes (max (2 * bytes) 80) }
    ensures places { IsGiven result places.old places.new count (max (2 * count) 32) }
{
    let before = places.len();
    let Ok(()) = fill_places(places, 2 * count) else {
        return false;
    };
    let Ok(()) = fill_bytes(held, 2 * bytes) else {
        places.truncate(before);
        return false;
    };
    true
}

/// Lets go of what a list holds, and of its memory.
#[inline(never)]
pub fn let_go<T: Copy>(list: &mut Vec<T>)
    ensures { vec_len list.new ≡ 0 }
{
    list.clear();
    list.shrink_to_fit();
}

/// Lets go of lists that have more room than those of a short text.
#[inline]
pub fn shorten(held: &mut Vec<u8>, places: &mut Vec<u32>)
    ensures bytes { vec_len held.new ≤ 512 }
    ensures places { vec_len places.new ≤ 288 }
{
    if held.len() > SHORT_BYTES {
        let_go(held);
    }
    if places.len() > SHORT_PLACES {
        let_go(places);
    }
}

/// Moves the first items of a list to memory of their own.
#[inline(never)]
pub fn move_front<T: Copy>(list: &mut Vec<T>, count: usize) -> Result<(), AllocError>
    requires { count ≤ vec_len list.old }
    ensures { OnOk result (list.new.items ≡ take count list.old.items) }
{
    let mut front = Vec::with_capacity(*list.allocator(), count)?;
    front.extend_from_slice(&list[..count])?;
    *list = front;
    Ok(())
}
