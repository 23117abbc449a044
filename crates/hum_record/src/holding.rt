//! Lists that hold a text, LF behind it, and the places where its tokens end.
ghost use Rattle.std.specs.Prelude.{◌≡◌, ◌≤◌, ◌<◌, ◌+◌, ◌^◌, ◌++◌, ◌∷◌, [], length, take, slice_index};
ghost use Rattle.std.specs.Prelude.{OnOk, IfOk, IfErr, IfSome, Ok, false, vec_len};
ghost use Rattle.hum_record.specs.Building.{between};
ghost use Rattle.hum_record.specs.Fields.{AreFields, row_in};
ghost use Rattle.hum_record.specs.Lines.{IsLine};
ghost use Rattle.hum_record.specs.Plain.{HasPlaces};
ghost use Rattle.hum_record.specs.Room.{IsRoomOf, most_places};
ghost use Rattle.hum_score.specs.Spelling.{has_byte, reading, Fails};

use crate::RecordFault;
use crate::near::{FEW, NEAR};
use crate::reading::cut;
use crate::room::{
    LEAST_BYTES, LEAST_PLACES, SHORT_BYTES, SHORT_PLACES, fill_bytes, fill_places, give_bytes,
    is_within, let_go, move_front,
};
use crate::wide::{FarLine, copy_words, put_line};
use std::alloc::AllocError;

/// Puts a text in place of what is held, and LF behind it.
fn hold(held: &mut Vec<u8>, text: &[u8]) -> Result<(), AllocError>
    ensures text { OnOk result (take (length text.now) held.new.items ≡ text.now) }
    ensures room { OnOk result (IsRoomOf held.new (length text.now)) }
{
    if !is_within(held.len(), SHORT_BYTES, text.len()) {
        let_go(held);
    }
    held.clear();
    held.extend_from_slice(text)?;
    fill_bytes(held, text.len() + NEAR)?;
    held[text.len()] = b'\n';
    Ok(())
}

/// Puts a token behind the first `len` bytes of a text, a tab before it if tokens stand there, and LF behind it; puts
/// where it ends behind the first `count` places; and answers that.
pub fn hold_behind(
    held: &mut Vec<u8>,
    len: usize,
    places: &mut Vec<u32>,
    count: usize,
    token: &[u8],
) -> Result<usize, AllocError>
    requires text { len ≤ vec_len held.old }
    requires places { count ≤ vec_len places.old }
    requires few { len + length token.now < 2 ^ 31 }
    ensures text { IfOk result (λ end. take end held.new.items
        ≡ take len held.old.items ++ (between count ++ token.now)) }
    ensures room { IfOk result (IsRoomOf held.new) }
    ensures ends { IfOk result (λ end. places.new.items ≡ take count places.old.items ++ end ∷ []) }
{
    held.truncate(len);
    held.reserve(token.len() + 2)?;
    if count != 0 {
        held.push(b'\t')?;
    }
    held.extend_from_slice(token)?;
    let end = held.len();
    held.push(b'\n')?;
    places.truncate(count);
    places.push(end as u32)?;
    Ok(end)
}

/// Puts a line in place of what is held, and where its tokens end, and answers how many; or finds the first
/// rule that it breaks.
pub fn hold_line(
    held: &mut Vec<u8>,
    places: &mut Vec<u32>,
    text: &[u8],
) -> Result<usize, RecordFault>
    requires at_most { length text.now ≤ 1048576 }
    requires one_line { has_byte 10 text.now ≡ false }
    ensures text { OnOk result (take (length text.now) held.new.items ≡ text.now) }
    ensures room { OnOk result (IsRoomOf held.new (length text.now)) }
    ensures fields { IfOk result (λ count. AreFields text.now (take count places.new.items)) }
    ensures within { IfOk result (λ count. count ≤ vec_len places.new) }
    ensures most { IfOk result (λ count. vec_len places.new ≤ most_places count) }
    ensures read { OnOk result (reading text.now ≡ Ok (row_in text.now)) }
    ensures refused { IfErr result (λ fault. Fails fault (reading text.now)) }
{
    if places.len() > SHORT_PLACES {
        let_go(places);
    }
    cut(places, text)?;
    let count = places.len();
    fill_places(places, count)?;
    hold(held, text)?;
    Ok(count)
}

/// Puts the line in front of some bytes in place of what is held, and where its tokens end, if its bytes show
/// that it is plain data, there is memory for it, and the places have no more room than it may have.
#[inline(always)]
pub fn hold_far(held: &mut Vec<u8>, places: &mut Vec<u32>, line: &[u8]) -> Option<FarLine>
    ensures line { IfSome result (λ far. IsLine line.now far.len) }
    ensures at_most { IfSome result (λ far. far.len ≤ 1048576) }
    ensures text { IfSome result (λ far. take far.len held.new.items ≡ take far.len line.now) }
    ensures room { IfSome result (λ far. IsRoomOf held.new far.len) }
    ensures plain { IfSome result (λ far.
        HasPlaces (take far.len line.now) (take far.count places.new.items)) }
    ensures within { IfSome result (λ far. far.count ≤ vec_len places.new) }
    ensures most { IfSome result (λ far. vec_len places.new ≤ most_places far.count) }
{
    let far = put_line(places, line)?;
    if !is_within(places.len(), SHORT_PLACES, far.count) {
        return None;
    }
    if !is_within(held.len(), SHORT_BYTES, far.len) {
        let_go(held);
    }
    let Ok(()) = give_bytes(held, NEAR * far.words) else {
        return None;
    };
    copy_words(held, line, far.words);
    held[far.len] = b'\n';
    Some(far)
}

/// Puts a copy of a text in place of what is held, and of where its tokens end.
pub fn hold_copy(
    held: &mut Vec<u8>,
    places: &mut Vec<u32>,
    text: &[u8],
    ends: &[u32],
) -> Result<(), AllocError>
    ensures text { OnOk result (take (length text.now) held.new.items ≡ text.now) }
    ensures room { OnOk result (IsRoomOf held.new (length text.now)) }
    ensures ends { OnOk result (take (length ends.now) places.new.items ≡ ends.now) }
    ensures within { OnOk result (length ends.now ≤ vec_len places.new) }
    ensures most { OnOk result (vec_len places.new ≤ most_places (length ends.now)) }
{
    hold(held, text)?;
    if !is_within(places.len(), SHORT_PLACES, ends.len()) {
        let_go(places);
    }
    places.clear();
    places.extend_from_slice(ends)?;
    fill_places(places, ends.len() + FEW)
}

/// Moves a text and the places to memory of their own, where there is too much room for them.
pub fn fit(
    held: &mut Vec<u8>,
    len: usize,
    places: &mut Vec<u32>,
    count: usize,
) -> Result<(), AllocError>
    requires text { len < vec_len held.old }
    requires ended { slice_index held.old.items len ≡ 10 }
    requires ends { count ≤ vec_len places.old }
    ensures text { OnOk result (take len held.new.items ≡ take len held.old.items) }
    ensures room { OnOk result (IsRoomOf held.new len) }
    ensures ends { OnOk result (take count places.new.items ≡ take count places.old.items) }
    ensures within { OnOk result (count ≤ vec_len places.new) }
    ensures most { OnOk result (vec_len places.new ≤ most_places count) }
{
    if !is_within(held.len(), SHORT_BYTES, len) {
        move_front(held, len + LEAST_BYTES)?;
    }
    if !is_within(places.len(), SHORT_PLACES, count) {
        move_front(places, count + LEAST_PLACES)?;
    }
    Ok(())
}
