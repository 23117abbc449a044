//! The text of a record, and where its tokens end in it.
ghost use Rattle.std.specs.Prelude.{◌≡◌, ◌≤◌, ◌<◌, ◌+◌, ◌-◌, ◌*◌, ◌/◌, ◌^◌, ◌++◌, ◌∷◌, [], length, take};
ghost use Rattle.std.specs.Prelude.{bit_and, slice_index};
ghost use Rattle.std.specs.Prelude.{ℕ, OnOk, IfErr, IfSome, Ok, true, false, vec_len};
ghost use Rattle.hum_record.specs.Building.{tab_between, spelled};
ghost use Rattle.hum_record.specs.Contents.{filled_from};
ghost use Rattle.hum_record.specs.Cutting.{set_places};
ghost use Rattle.hum_record.specs.Fields.{AreFields, ends_from, row_in, written};
ghost use Rattle.hum_record.specs.Lines.{IsLine};
ghost use Rattle.hum_record.specs.Plain.{HasPlaces};
ghost use Rattle.hum_record.specs.Room.{IsRoomOf, most_places, most_room, least_room};
ghost use Rattle.hum_score.specs.Row.{chosen};
ghost use Rattle.hum_score.specs.Spelling.{has_byte, reading, parts, Fails};

use crate::filling::{WHOLE, put_filled};
use crate::holding::{fit, hold_behind, hold_copy, hold_far, hold_line};
use crate::leaving::move_in_front;
use crate::near::{FEW, LineEnd, NEAR, copy_near, copy_places, put_places};
use crate::putting::{put_behind, put_ends};
use crate::room::{
    SHORT_BYTES, SHORT_PLACES, fill_bytes, fill_places, give_bytes, give_places, is_within,
    make_room, shorten,
};
use crate::selection::Selection;
use crate::wide::{copy_groups, copy_words};
use crate::{MOST_BYTES, RecordFault};
use std::alloc::{AllocError, Global};
use std::marker::Model;

/// No token is empty, so no more end among the bytes that are looked at at once.
const MOST_NEAR: usize = NEAR / 2;

/// A text, and where each of its tokens ends in it.
///
/// Behind both there is room that doesn't count: a short text is put there in one piece, and no list is
/// cut or grown for it.
pub struct Body {
    held: Vec<u8>,
    len: usize,
    places: Vec<u32>,
    count: usize,
}

// Written out, so that a proof of who drops a record sees one call and not the drop of each field.
impl Drop for Body {
    fn drop(self) {
        let Body {
            held: _held,
            len: _,
            places: _places,
            count: _,
        } = self;
    }
}

impl Model for Body {
    ghost use Rattle.std.specs.Prelude.{◌≤◌, take, vec_len};
    ghost use Rattle.hum_record.specs.Fields.{Written, written};

    ghost Value = { Written };

    ghost view = { λ b. written (take b.len b.held.items) (take b.count b.places.items) };

    ghost use Rattle.hum_record.specs.Lines.{IsEnded};
    ghost use Rattle.hum_record.specs.Room.{most_bytes, most_places};

    ghost invariant = { λ b. (b.len ≤ vec_len b.held) × (b.count ≤ vec_len b.places)
        × IsEnded b.held.items b.len
        × (vec_len b.held ≤ most_bytes b.len) × (vec_len b.places ≤ most_places b.count) };
}

/// Puts the tokens of a row in place of what is held, and for a null one what stands above it in another row,
/// and answers how long they are, if all of them are short and there is memory for them.
#[inline(always)]
fn hold_filled(held: &mut Vec<u8>, places: &mut Vec<u32>, row: &Body, above: &Body) -> Option<usize>
    requires cut { row.now.ends ≡ ends_from 0 (parts row.now.text) }
    requires above_cut { above.now.ends ≡ ends_from 0 (parts above.now.text) }
    requires as_wide { length row.now.ends ≡ length above.now.ends }
    ensures text { IfSome result (λ len. take len held.new.items
        ≡ spelled (filled_from (parts above.now.text) (parts row.now.text))) }
    ensures ends { IfSome result (λ _. take (length row.now.ends) places.new.items
        ≡ ends_from 0 (filled_from (parts above.now.text) (parts row.now.text))) }
    ensures at_most { IfSome result (λ len. len ≤ 1048576) }
    ensures bytes { IfSome result (λ len. IsRoomOf held.new len) }
    ensures places { IfSome result (λ _. (length row.now.ends ≤ vec_len places.new)
        × (vec_len places.new ≤ most_places (length row.now.ends))) }
{
    let most = row.len + above.len;
    if most >= MOST_BYTES
        || row.held.len() - row.len < WHOLE
        || above.held.len() - above.len < WHOLE
    {
        return None;
    }
    let Ok(()) = give_bytes(held, most + 2 * WHOLE) else {
        return None;
    };
    let count = row.width();
    let Ok(()) = give_places(places, count) else {
        return None;
    };
    let len = put_filled(
        held,
        places,
        &row.held,
        row.len,
        row.ends(),
        &above.held,
        above.len,
        above.ends(),
    )?;
    if held.len() <= SHORT_BYTES && places.len() <= SHORT_PLACES {
        return Some(len);
    }
    if !is_within(held.len(), SHORT_BYTES, len) || !is_within(places.len(), SHORT_PLACES, count) {
        return None;
    }
    Some(len)
}

impl Body {
    /// No text, and no memory as yet.
    pub fn new(alloc: Global) -> Body
        ensures { result ≡ written [] [] }
    {
        Body {
            held: Vec::new(alloc),
            len: 0,
            places: Vec::new(alloc),
            count: 0,
        }
    }

    /// The text.
    pub fn text(&self) -> &[u8]
        ensures { result.now ≡ self.now.text }
    {
        &self.held[..self.len]
    }

    /// The text, and LF.
    pub fn text_lf(&self) -> &[u8]
        requires { 0 < length self.now.text }
        ensures { result.now ≡ self.now.text ++ 10 ∷ [] }
    {
        &self.held[..self.len + 1]
    }

    /// Where each of its tokens ends in it.
    pub fn ends(&self) -> &[u32]
        ensures { result.now ≡ self.now.ends }
    {
        &self.places[..self.count]
    }

    /// How many tokens end in it.
    pub fn width(&self) -> usize
        ensures { result ≡ length self.now.ends }
    {
        self.count
    }

    /// How many bytes it takes beside its own size.
    pub fn room(&self) -> usize
        ensures most { result ≤ most_room (length self.now.text) (length self.now.ends) }
        ensures least { least_room (length self.now.text) (length self.now.ends) ≤ result }
    {
        self.held
            .len()
            .saturating_add(self.places.len().saturating_mul(4))
    }

    /// The allocator of its memory.
    pub fn alloc(&self) -> Global {
        *self.held.allocator()
    }

    /// Leaves nothing but room.
    pub fn clear(&mut self)
        ensures { self.new ≡ written [] [] }
    {
        self.len = 0;
        self.count = 0;
        shorten(&mut self.held, &mut self.places);
    }

    /// Puts the first `len` bytes of what is held in place of the text, and the places of bits in place
    /// of where tokens end, no two of which stand side by side, if there is room; and tells whether there
    /// was.
    #[inline(always)]
    pub fn put_near<const N: usize>(&mut self, held: &[u8], len: usize, ends: u64) -> bool
        requires few { N ≤ 64 }
        requires filled { N ≤ length held.now }
        requires short { len < N }
        requires apart { bit_and (1 + 2 * ends) ends ≡ 0 }
        ensures text { result ≡ true → self.new.text ≡ take len held.now }
        ensures ends { result ≡ true → self.new.ends ≡ set_places 64 0 ends }
    {
        if self.held.len() < NEAR || self.held.len() > SHORT_BYTES {
            return false;
        }
        if self.places.len() < MOST_NEAR || self.places.len() > SHORT_PLACES {
            return false;
        }
        copy_near::<N>(&mut self.held, held);
        self.held[len] = b'\n';
        let count = put_places(&mut self.places, 0, 0, ends);
        self.len = len;
        self.count = count;
        true
    }

    /// Puts a line that ends in the second 64 bytes of what is held in place of the text, and the places of bits
    /// in both in place of where tokens end, no two of which stand side by side, if there is room; and tells
    /// whether there was.
    #[inline(always)]
    pub fn put_pair(&mut self, held: &[u8], ends: u64, end: LineEnd) -> bool
        requires filled { 128 ≤ length held.now }
        requires short { end.len < 128 }
        requires apart { bit_and (1 + 2 * ends) ends ≡ 0 }
        requires next_apart { bit_and (ends / 2 ^ 63 + 2 * end.ends) end.ends ≡ 0 }
        ensures text { result ≡ true → self.new.text ≡ take end.len held.now }
        ensures ends { result ≡ true
            → self.new.ends ≡ set_places 64 0 ends ++ set_places 64 64 end.ends }
    {
        if self.held.len() < 2 * NEAR || self.held.len() > SHORT_BYTES {
            return false;
        }
        if self.places.len() < NEAR || self.places.len() > SHORT_PLACES {
            return false;
        }
        copy_words(&mut self.held, held, 2);
        self.held[end.len] = b'\n';
        let count = put_places(&mut self.places, 0, 0, ends);
        let all = put_places(&mut self.places, count, 64, end.ends);
        self.len = end.len;
        self.count = all;
        true
    }

    /// Puts the line in front of what is held in place of the text, and where its tokens end, if its
    /// bytes show that it is plain data, and there is memory for it; and tells whether it did.
    pub fn put_far(&mut self, held: &[u8]) -> bool
        ensures { result ≡ true → (len : ℕ) × IsLine held.now len × (len ≤ 1048576)
            × (self.new.text ≡ take len held.now) × HasPlaces (take len held.now) self.new.ends }
    {
        self.len = 0;
        self.count = 0;
        let Some(line) = hold_far(&mut self.held, &mut self.places, held) else {
            shorten(&mut self.held, &mut self.places);
            return false;
        };
        self.len = line.len;
        self.count = line.count;
        true
    }

    /// Puts a line in place of the text, and where its tokens end; or finds the first rule that it
    /// breaks.
    pub fn put(&mut self, text: &[u8]) -> Result<(), RecordFault>
        requires at_most { length text.now ≤ 1048576 }
        requires one_line { has_byte 10 text.now ≡ false }
        ensures text { OnOk result (self.new.text ≡ text.now) }
        ensures fields { OnOk result (AreFields text.now self.new.ends) }
        ensures read { OnOk result (reading text.now ≡ Ok (row_in text.now)) }
        ensures refused { IfErr result (λ fault. Fails fault (reading text.now)) }
    {
        self.len = 0;
        self.count = 0;
        match hold_line(&mut self.held, &mut self.places, text) {
            Ok(count) => {
                self.len = text.len();
                self.count = count;
                Ok(())
            }
            Err(fault) => {
                shorten(&mut self.held, &mut self.places);
                Err(fault)
            }
        }
    }

    /// Puts what another one is in place of this where that is short, as most are, or else nothing; and
    /// tells which.
    pub fn copy_short(&mut self, other: &Body) -> bool
        ensures copied { result ≡ true → self.new ≡ other.now }
        ensures kept { result ≡ false → self.new ≡ self.old }
    {
        if other.len < NEAR
            && other.held.len() >= NEAR
            && self.held.len() >= NEAR
            && self.held.len() <= SHORT_BYTES
        {
            if other.count <= FEW
                && other.places.len() >= FEW
                && self.places.len() >= FEW
                && self.places.len() <= SHORT_PLACES
            {
                copy_near::<NEAR>(&mut self.held, &other.held);
                self.len = other.len;
                copy_places(&mut self.places, &other.places);
                self.count = other.count;
                return true;
            }
        }
        false
    }

    /// The same of a longer one where there is room for it.
    #[inline(never)]
    pub fn copy_far(&mut self, other: &Body) -> bool
        ensures copied { result ≡ true → self.new ≡ other.now }
        ensures kept { result ≡ false → self.new ≡ self.old }
    {
        let words = other.len / NEAR + 1;
        let groups = other.count / FEW + 1;
        if other.held.len() / NEAR < words || self.held.len() / NEAR < words {
            return false;
        }
        if other.places.len() / FEW < groups || self.places.len() / FEW < groups {
            return false;
        }
        if !is_within(self.held.len(), SHORT_BYTES, other.len)
            || !is_within(self.places.len(), SHORT_PLACES, other.count)
        {
            return false;
        }
        copy_words(&mut self.held, &other.held, words);
        self.len = other.len;
        copy_groups(&mut self.places, &other.places, groups);
        self.count = other.count;
        true
    }

    /// Puts the tokens of a row in place of the text, and for a null one what stands above it in another row,
    /// if all of them are short and there is memory for them; and tells whether it did.
    #[inline(never)]
    pub fn put_filled(&mut self, row: &Body, above: &Body) -> bool
        requires cut { row.now.ends ≡ ends_from 0 (parts row.now.text) }
        requires above_cut { above.now.ends ≡ ends_from 0 (parts above.now.text) }
        requires as_wide { length row.now.ends ≡ length above.now.ends }
        ensures text { result ≡ true → self.new.text
            ≡ spelled (filled_from (parts above.now.text) (parts row.now.text)) }
        ensures ends { result ≡ true → self.new.ends
            ≡ ends_from 0 (filled_from (parts above.now.text) (parts row.now.text)) }
        ensures at_most { result ≡ true → length self.new.text ≤ 1048576 }
    {
        self.len = 0;
        self.count = 0;
        let Some(len) = hold_filled(&mut self.held, &mut self.places, row, above) else {
            shorten(&mut self.held, &mut self.places);
            return false;
        };
        self.len = len;
        self.count = row.count;
        true
    }

    /// Puts what another one is in place of this.
    pub fn copy_of(&mut self, other: &Body) -> Result<(), AllocError>
        ensures { OnOk result (self.new ≡ other.now) }
    {
        if self.copy_short(other) {
            return Ok(());
        }
        self.copy_any(other)
    }

    #[inline(never)]
    fn copy_any(&mut self, other: &Body) -> Result<(), AllocError>
        ensures { OnOk result (self.new ≡ other.now) }
    {
        self.len = 0;
        self.count = 0;
        match hold_copy(&mut self.held, &mut self.places, other.text(), other.ends()) {
            Ok(()) => {
                self.len = other.len;
                self.count = other.count;
                Ok(())
            }
            Err(refused) => {
                shorten(&mut self.held, &mut self.places);
                Err(refused)
            }
        }
    }

    /// Leaves the selected tokens alone where it has no more room than a short one, or else nothing; and tells
    /// which.
    pub fn leave(&mut self, selection: &Selection) -> bool
        requires cut { self.old.ends ≡ ends_from 0 (parts self.old.text) }
        requires as_wide { length selection.now ≡ length self.old.ends }
        requires at_most { length self.old.text ≤ 1048576 }
        requires some { 0 < length self.old.text }
        ensures text { result ≡ true
            → self.new.text ≡ spelled (chosen selection.now (parts self.old.text)) }
        ensures ends { result ≡ true
            → self.new.ends ≡ ends_from 0 (chosen selection.now (parts self.old.text)) }
        ensures short { result ≡ true → length self.new.text ≤ length self.old.text }
        ensures kept { result ≡ false → self.new ≡ self.old }
    {
        if self.held.len() > SHORT_BYTES || self.places.len() > SHORT_PLACES {
            return false;
        }
        let (len, count) = move_in_front(
            &mut self.held,
            self.len,
            &mut self.places,
            self.count,
            selection,
        );
        self.held[len] = b'\n';
        self.len = len;
        self.count = count;
        true
    }

    /// Leaves the selected tokens alone, in memory of their own where there is too much room for them.
    pub fn leave_long(&mut self, selection: &Selection) -> Result<(), AllocError>
        requires cut { self.old.ends ≡ ends_from 0 (parts self.old.text) }
        requires as_wide { length selection.now ≡ length self.old.ends }
        requires at_most { length self.old.text ≤ 1048576 }
        requires some { 0 < length self.old.text }
        ensures text { OnOk result
            (self.new.text ≡ spelled (chosen selection.now (parts self.old.text))) }
        ensures ends { OnOk result
            (self.new.ends ≡ ends_from 0 (chosen selection.now (parts self.old.text))) }
        ensures short { OnOk result (length self.new.text ≤ length self.old.text) }
    {
        let (len, count) = move_in_front(
            &mut self.held,
            self.len,
            &mut self.places,
            self.count,
            selection,
        );
        self.held[len] = b'\n';
        self.len = 0;
        self.count = 0;
        match fit(&mut self.held, len, &mut self.places, count) {
            Ok(()) => {
                self.len = len;
                self.count = count;
                Ok(())
            }
            Err(refused) => {
                shorten(&mut self.held, &mut self.places);
                Err(refused)
            }
        }
    }

    /// Adds a token behind the others, and a tab before it if there are any.
    #[inline(never)]
    pub fn add(&mut self, token: &[u8]) -> Result<(), AllocError>
        requires { length self.old.text + length token.now < 2 ^ 31 }
        ensures text { OnOk result
            (self.new.text ≡ self.old.text ++ (tab_between self.old.ends ++ token.now)) }
        ensures ends { OnOk result
            (self.new.ends ≡ self.old.ends ++ length self.new.text ∷ []) }
    {
        if token.len() > SHORT_BYTES && self.held.len() - self.len <= token.len() + 1 {
            return self.add_long(token);
        }
        self.add_short(token)
    }

    // The same, in room that is made first for as much again.
    fn add_short(&mut self, token: &[u8]) -> Result<(), AllocError>
        requires { length self.old.text + length token.now < 2 ^ 31 }
        ensures text { OnOk result
            (self.new.text ≡ self.old.text ++ (tab_between self.old.ends ++ token.now)) }
        ensures ends { OnOk result
            (self.new.ends ≡ self.old.ends ++ length self.new.text ∷ []) }
    {
        if self.places.len() == self.count {
            fill_places(&mut self.places, 2 * self.count + 1)?;
        }
        if self.held.len() - self.len <= token.len() + 1 {
            fill_bytes(&mut self.held, 2 * (self.len + 1 + token.len()))?;
        }
        let end = put_behind(&mut self.held, self.len, self.count, token);
        self.len = end;
        self.places[self.count] = end as u32;
        self.count += 1;
        Ok(())
    }

    // The same of a long token, for which there is no room: the text grows by it, and nothing is filled first.
    #[inline(never)]
    fn add_long(&mut self, token: &[u8]) -> Result<(), AllocError>
        requires { length self.old.text + length token.now < 2 ^ 31 }
        ensures text { OnOk result
            (self.new.text ≡ self.old.text ++ (tab_between self.old.ends ++ token.now)) }
        ensures ends { OnOk result
            (self.new.ends ≡ self.old.ends ++ length self.new.text ∷ []) }
    {
        let (len, count) = (self.len, self.count);
        self.len = 0;
        self.count = 0;
        match hold_behind(&mut self.held, len, &mut self.places, count, token) {
            Ok(end) => {
                self.len = end;
                self.count = count + 1;
                Ok(())
            }
            Err(refused) => {
                shorten(&mut self.held, &mut self.places);
                Err(refused)
            }
        }
    }

    /// The same of a token of 1 to 16 bytes, as most are, where there is room for it and no doubt that the
    /// text isn't too long, or else nothing; and tells which.
    pub fn add_near(&mut self, token: &[u8]) -> bool
        ensures text { result ≡ true
            → self.new.text ≡ self.old.text ++ (tab_between self.old.ends ++ token.now) }
        ensures ends { result ≡ true
            → self.new.ends ≡ self.old.ends ++ length self.new.text ∷ [] }
        ensures fits { result ≡ true → length self.old.text
            + length (tab_between self.old.ends) + length token.now ≤ 1048576 }
        ensures kept { result ≡ false → self.new ≡ self.old }
    {
        let count = self.count;
        if token.is_empty() || token.len() > 16 {
            return false;
        }
        if self.held.len() > MOST_BYTES
            || self.held.len() - self.len <= token.len() + 1
            || self.places.len() == count
        {
            return false;
        }
        let end = put_behind(&mut self.held, self.len, count, token);
        self.places[count] = end as u32;
        self.len = end;
        self.count = count + 1;
        true
    }

    /// Adds all tokens of another one, which are cut as those of a record, if there is memory for them and no
    /// doubt that the text isn't too long, or else nothing; and tells which.
    pub fn add_row(&mut self, other: &Body) -> bool
        requires cut { other.now.ends ≡ ends_from 0 (parts other.now.text) }
        ensures text { result ≡ true
            → self.new.text ≡ self.old.text ++ (tab_between self.old.ends ++ other.now.text) }
        ensures ends { result ≡ true → self.new.ends ≡ self.old.ends
            ++ ends_from (length self.old.text + length (tab_between self.old.ends)) (parts other.now.text) }
        ensures fits { result ≡ true → length self.old.text
            + length (tab_between self.old.ends) + length other.now.text ≤ 1048576 }
        ensures kept { result ≡ false → self.new ≡ self.old }
    {
        let text = other.text();
        let ends = other.ends();
        let count = self.count;
        if self.len + text.len() >= MOST_BYTES {
            return false;
        }
        let bytes = self.len + text.len() + 2;
        if !make_room(&mut self.held, bytes, &mut self.places, count + ends.len()) {
            return false;
        }
        let end = put_behind(&mut self.held, self.len, count, text);
        put_ends(&mut self.places, count, ends, (end - text.len()) as u32);
        self.len = end;
        self.count = count + ends.len();
        true
    }
}
