//! A record, and how a line is read as one.
ghost use Rattle.std.specs.Prelude.{◌≡◌, ◌≢◌, ◌<◌, ◌≤◌, true, false, Ok, IfOk, IfErr, OnOk, OnErr, MatchResult};
ghost use Rattle.std.specs.Prelude.{IfSome, length, map, take, ◌++◌, ◌∷◌, []};
ghost use Rattle.std.specs.Simd.Lanes.{chunk, mask_l};
ghost use Rattle.hum_score.specs.Spelling.{IsTokenOf, IsTextOf, has_byte, is_comment, reading};
ghost use Rattle.hum_score.specs.Spelling.{Gives, Fails, Breaks};
ghost use Rattle.hum_record.specs.Fields.{AreFields, row_in};
ghost use Rattle.hum_record.specs.Lines.{IsRead, IsReadTo};
ghost use Rattle.hum_record.specs.Plain.{EndsLine, HasNoStop, is_stop};
ghost use Rattle.hum_record.specs.declared.reading.Beyond.TheVariants.{Longer};
ghost use Rattle.hum_record.specs.Room.{room_for, least_room};
ghost use Rattle.hum_score.specs.Row.{Row, kind_of, row_of, tokens_of, width_of, token_at, text_of};
ghost use Rattle.hum_score.specs.Row.{Spined, with_chosen};
ghost use Rattle.hum_record.specs.Contents.{filled_from};
ghost use Rattle.hum_score.specs.declared.records.Kind.TheVariants.{Values};
ghost use Rattle.hum_score.specs.declared.records.SpinedKind.TheVariants.{Values as SpinedValues};
ghost use Rattle.std.specs.List.{list_any};
ghost use Rattle.hum_score.specs.declared.records.RecordFault.TheVariants.{Memory};

use crate::bits::bits_at;
use crate::body::Body;
use crate::iter::Tokens;
use crate::near::{LineEnd, NEAR, SHORT, is_apart, line_end, stop_bits};
use crate::selection::Selection;
use crate::spare::Spare;
use crate::tokens::{Cut, lawful_kind, push_ends, token_at_end, token_kind};
use crate::{Kind, RecordFault};
use memchr::memchr;
use std::alloc::{AllocError, Global};
use std::marker::Model;

/// With so many tokens most lines are longer than 32 bytes, with so many more than 64, and with so many more
/// than 128.
const WIDE: usize = 8;

const WIDEST: usize = 16;

const FAR: usize = 32;

/// One record: a global comment, or a token of one kind for each spine.
///
/// It is as large as a pointer, so that it is moved as quickly.
pub struct Record {
    body: Box<Body>,
}

/// The record of a line, and how many bytes the line has with its line end.
#[derive(Drop)]
pub struct ShortLine {
    pub record: Record,
    pub size: usize,
}

/// Why the first 64 bytes of what is held don't say what the line is.
#[derive(Clone, Copy)]
pub enum Beyond {
    /// It doesn't end among them, and nothing in them shows that it is no plain data.
    Longer,
    /// Anything else.
    Other,
}

// Written out, so that a caller's proof sees one call and not the drop of each field.
impl Drop for Record {
    #[inline]
    fn drop(self) {
        let Record { body: _body } = self;
    }
}

impl Model for Record {
    ghost use Rattle.hum_score.specs.Row.{Row};

    ghost Value = { Row };

    ghost use Rattle.hum_record.specs.Fields.{row_in, AreFields};

    ghost view = { λ r. row_in r.body.value.text };

    ghost invariant = { λ r. AreFields r.body.value.text r.body.value.ends };
}

impl Record {
    ghost use Rattle.hum_record.specs.Fields.{AreFields, row_in};

    /// Reads the text of one line, without its line end, as [`Record::parse_into`] does.
    pub fn parse(alloc: Global, text: Vec<u8>) -> Result<Record, RecordFault>
        requires at_most { length text.items ≤ 1048576 }
        requires one_line { has_byte 10 text.items ≡ false }

        // What is read has this text.
        ensures found { IfOk result (λ read. IsTextOf read text.items) }

        // The text of a record is read as that record, unless memory runs out.
        ensures only { (row : Row) → IsTextOf row text.items →
            MatchResult result (λ read. read ≡ row) (λ fault. fault ≡ Memory) }

        // A fault is told only of a text that breaks its rule.
        ensures broken { IfErr result (λ fault. fault ≢ Memory → Breaks fault text.items) }

        // Which fault it is.
        ensures exact { Gives result (reading text.items) }
    {
        Self::parse_into(alloc, &mut Spare::none(alloc), &text, text.len())
    }

    /// Reads the text of one line, without its line end, and copies it into what is left of a
    /// record that is done with. The text is the first `len` bytes of what is held.
    ///
    /// # Errors
    /// The rules are tested in this order, and the first that is broken is the fault:
    /// [`RecordFault::S8`], and but for a global comment [`RecordFault::S4`], [`RecordFault::S5`]
    /// and [`RecordFault::S6`]. [`RecordFault::Memory`] comes only where memory was refused.
    #[inline]
    pub fn parse_into(
        alloc: Global,
        spare: &mut Spare,
        held: &[u8],
        len: usize,
    ) -> Result<Record, RecordFault>
        requires within { len ≤ length held.now }
        requires at_most { length (take len held.now) ≤ 1048576 }
        requires one_line { has_byte 10 (take len held.now) ≡ false }

        // What is read has this text.
        ensures found { IfOk result (λ read. IsTextOf read (take len held.now)) }

        // The text of a record is read as that record, unless memory runs out.
        ensures only { (row : Row) → IsTextOf row (take len held.now) →
            MatchResult result (λ read. read ≡ row) (λ fault. fault ≡ Memory) }

        // A fault is told only of a text that breaks its rule.
        ensures broken { IfErr result (λ fault. fault ≢ Memory
            → Breaks fault (take len held.now)) }

        // Which fault it is.
        ensures exact { Gives result (reading (take len held.now)) }
    {
        Self::of_any(alloc, spare, &held[..len])
    }

    /// The same of a text.
    #[inline(never)]
    fn of_any(alloc: Global, spare: &mut Spare, text: &[u8]) -> Result<Record, RecordFault>
        requires at_most { length text.now ≤ 1048576 }
        requires one_line { has_byte 10 text.now ≡ false }
        ensures { Gives result (reading text.now) }
    {
        let mut body = spare.take_or_new(alloc)?;
        body.put(text)?;
        Ok(Record { body })
    }

    /// Reads the line in front of what is held, up to LF, or CR and LF, into what is left of the first
    /// record that is done with, if there is one that has room, and the first 32 bytes show that the line
    /// ends among them and is plain data. Where it may have many tokens they aren't looked at.
    // It makes no call, so a caller that makes none but its last one keeps nothing on the stack.
    #[inline(always)]
    pub fn parse_short(spare: &mut Spare, held: &[u8], width: usize) -> Option<ShortLine>
        ensures { IfSome result (λ line. IsReadTo held.now line.record line.size) }
    {
        if held.len() < NEAR || width >= WIDE {
            return None;
        }
        let stops = stop_bits::<SHORT>(held, 0);
        if stops == 0 {
            return None;
        }
        Self::of_first::<SHORT>(spare, held, stops)
    }

    /// The same by the first 64 bytes.
    #[inline(always)]
    pub fn parse_near(spare: &mut Spare, held: &[u8], width: usize) -> Result<ShortLine, Beyond>
        ensures line { IfOk result (λ line. IsReadTo held.now line.record line.size) }
        ensures longer { IfErr result (λ why. why ≡ Longer → HasNoStop held.now) }
    {
        if held.len() < NEAR || width >= WIDEST {
            return Err(Beyond::Other);
        }
        let stops = stop_bits::<NEAR>(held, 0);
        if stops == 0 {
            return Err(Beyond::Longer);
        }
        Self::of_first::<NEAR>(spare, held, stops).ok_or(Beyond::Other)
    }

    /// The record of a line that ends at the first of these stops among the first `N` bytes, if it is plain data.
    #[inline(always)]
    fn of_first<const N: usize>(spare: &mut Spare, held: &[u8], stops: u64) -> Option<ShortLine>
        requires few { N ≤ 64 }
        requires filled { N ≤ length held.now }
        requires stops { stops ≡ mask_l (map is_stop (chunk 0 N held.now)) }
        requires some { 0 < stops }
        ensures { IfSome result (λ line. IsReadTo held.now line.record line.size) }
    {
        let end = line_end::<N>(held, 0, 1, stops)?;
        let body = spare.take_first()?;
        let record = Self::of_near::<N>(spare, body, held, end)?;
        Some(ShortLine {
            record,
            size: end.size,
        })
    }

    /// The record of a line of any length, into what is left of any record, where the first 64 bytes haven't
    /// shown what it is. By how many tokens it may have it is known in what pieces it is best looked at. What
    /// any other line is, [`Record::parse_into`] tells.
    #[inline(always)]
    pub fn parse_line(spare: &mut Spare, held: &[u8], width: usize) -> Option<Record>
        ensures { IfSome result (IsRead held.now) }
    {
        if held.len() < NEAR || width >= FAR {
            return Self::parse_wide(spare, held);
        }
        if stop_bits::<NEAR>(held, 0) != 0 {
            if width >= WIDEST {
                return Self::parse_wide(spare, held);
            }
            return None;
        }
        Self::parse_longer(spare, held)
    }

    /// The same where it doesn't end among the first 64 bytes, by the next 64 or by all.
    #[inline(always)]
    pub fn parse_longer(spare: &mut Spare, held: &[u8]) -> Option<Record>
        requires free { 64 ≤ length held.now → HasNoStop held.now }
        ensures { IfSome result (IsRead held.now) }
    {
        if held.len() < 2 * NEAR {
            return Self::parse_wide(spare, held);
        }
        let stops = stop_bits::<NEAR>(held, NEAR);
        if stops == 0 {
            return Self::parse_wide(spare, held);
        }
        let ends = bits_at::<NEAR>(held, 0, b'\t');
        if !is_apart(1, ends) {
            return None;
        }
        let end = line_end::<NEAR>(held, NEAR, ends >> 63, stops)?;
        let mut body = spare.take_first()?;
        if body.put_pair(held, ends, end) {
            return Some(Record { body });
        }
        spare.put_back(body);
        Self::parse_wide(spare, held)
    }

    /// The record of a line that ends among the first `N` bytes of what is held, in what was taken.
    #[inline(always)]
    fn of_near<const N: usize>(
        spare: &mut Spare,
        mut body: Box<Body>,
        held: &[u8],
        end: LineEnd,
    ) -> Option<Record>
        requires few { N ≤ 64 }
        requires filled { N ≤ length held.now }
        requires near { end.len < N }
        requires ends { EndsLine held.now 0 1 end.len end.size end.ends }
        ensures { IfSome result (λ row. IsReadTo held.now row end.size) }
    {
        if body.put_near::<N>(held, end.len, end.ends) {
            return Some(Record { body });
        }
        spare.put_back(body);
        None
    }

    /// The record of a line of several words.
    fn parse_wide(spare: &mut Spare, held: &[u8]) -> Option<Record>
        ensures { IfSome result (IsRead held.now) }
    {
        let mut body = spare.take()?;
        if body.put_far(held) {
            return Some(Record { body });
        }
        spare.put_back(body);
        None
    }

    /// The record of a text, by where each token ends in it.
    pub(crate) fn of_body(body: Box<Body>) -> Record
        requires { AreFields body.value.text body.value.ends }
        ensures { result ≡ row_in body.value.text }
    {
        Record { body }
    }

    /// Its text, and where its tokens end in it.
    pub(crate) fn body(&self) -> &Body
        ensures fields { AreFields result.now.text result.now.ends }
        ensures text { self.now ≡ row_in result.now.text }
    {
        &self.body
    }

    /// What is left of a record that is done with.
    pub(crate) fn into_body(self) -> Box<Body>
        ensures fields { AreFields result.value.text result.value.ends }
        ensures text { self ≡ row_in result.value.text }
    {
        let Record { body } = self;
        body
    }

    /// How many bytes it takes, beside its own size: no more than a short text has room for, and twice what it
    /// says.
    pub fn room(&self) -> usize
        ensures most { result ≤ room_for self.now }
        ensures least { least_room (length (text_of self.now)) (width_of self.now) ≤ result }
    {
        self.body.room()
    }

    /// A second record that is the same.
    pub fn copy(&self, alloc: Global) -> Result<Record, AllocError>
        ensures { IfOk result (λ r. r ≡ self.now) }
    {
        self.copy_into(alloc, &mut Spare::none(alloc))
    }

    /// The same in what is left of a record that is done with. Nothing of that record shows.
    ///
    /// # Errors
    /// Out of memory.
    pub fn copy_into(&self, alloc: Global, spare: &mut Spare) -> Result<Record, AllocError>
        ensures { IfOk result (λ r. r ≡ self.now) }
    {
        let mut body = spare.take_or_new(alloc)?;
        body.copy_of(&self.body)?;
        Ok(Record { body })
    }

    /// Becomes a copy of another record where that is short, as most are, or else stays as it is; and
    /// tells which.
    pub fn copy_short(&mut self, other: &Record) -> bool
        ensures copied { result ≡ true → self.new ≡ other.now }
        ensures kept { result ≡ false → self.new ≡ self.old }
    {
        self.body.copy_short(&other.body)
    }

    /// The same of a longer one where there is room for it.
    pub fn copy_far(&mut self, other: &Record) -> bool
        ensures copied { result ≡ true → self.new ≡ other.now }
        ensures kept { result ≡ false → self.new ≡ self.old }
    {
        self.body.copy_far(&other.body)
    }

    /// Data whose null tokens are filled by what stands above them in other data, in what is left of a record
    /// that is done with, where all tokens are short; or else nothing.
    pub fn filled_from(&self, above: &Record, spare: &mut Spare) -> Option<Record>
        requires kind { kind_of self.now ≡ Values }
        requires kind_above { kind_of above.now ≡ Values }
        requires as_wide { width_of self.now ≡ width_of above.now }
        ensures made { IfSome result (λ row.
            row ≡ Spined SpinedValues (filled_from (tokens_of above.now) (tokens_of self.now))) }
        ensures at_most { IfSome result (λ row. length (text_of row) ≤ 1048576) }
    {
        let mut body = spare.take()?;
        if body.put_filled(&self.body, &above.body) {
            return Some(Record { body });
        }
        spare.put_back(body);
        None
    }

    /// Leaves the selected tokens alone, at least one of which there is, in the record's own memory where that
    /// hasn't too much room for them.
    ///
    /// # Errors
    /// Out of memory. Then it is as it was.
    pub fn retain(&mut self, selection: &Selection) -> Result<(), AllocError>
        requires as_wide { length selection.now ≡ width_of self.old }
        requires some { list_any (λ b. b) selection.now ≡ true }
        ensures left { OnOk result (self.new ≡ with_chosen selection.now self.old) }
        ensures kept { OnErr result (self.new ≡ self.old) }
    {
        if self.body.leave(selection) {
            return Ok(());
        }
        self.retain_long(selection)
    }

    /// The same of a longer one, in other memory.
    #[inline(never)]
    fn retain_long(&mut self, selection: &Selection) -> Result<(), AllocError>
        requires as_wide { length selection.now ≡ width_of self.old }
        requires some { list_any (λ b. b) selection.now ≡ true }
        ensures left { OnOk result (self.new ≡ with_chosen selection.now self.old) }
        ensures kept { OnErr result (self.new ≡ self.old) }
    {
        let mut copy = self.copy(self.body.alloc())?.into_body();
        copy.leave_long(selection)?;
        self.body = copy;
        Ok(())
    }

    /// What the record is.
    pub fn kind(&self) -> Kind
        ensures kind { result ≡ kind_of self.now }
        ensures lawful { IsTextOf self.now (text_of self.now) }
        ensures shape { self.now ≡ row_of result (text_of self.now) (tokens_of self.now) }
        ensures at_most { length (text_of self.now) ≤ 1048576 }
    {
        if is_global(self.body.text()) {
            Kind::Global
        } else {
            token_kind(self.body.text()).into()
        }
    }

    /// How many tokens it has, one for each spine: 0 for a global comment.
    pub fn width(&self) -> usize
        ensures { result ≡ width_of self.now }
    {
        self.body.width()
    }

    /// The token of the spine `j`, counted from 0.
    pub fn token(&self, j: usize) -> &[u8]
        requires { j < width_of self.now }
        ensures token { result.now ≡ token_at self.now j }
        ensures lawful { IsTokenOf self.now result.now }
    {
        token_at_end(self.body.text(), self.body.ends(), j)
    }

    /// The tokens, from the left: one for each spine, and none of a global comment.
    pub fn tokens(&self) -> Tokens<'_>
        ensures { result ≡ tokens_of self.now }
    {
        Tokens::all(self.body.text(), self.body.ends())
    }

    /// The whole text, and LF.
    pub fn text_lf(&self) -> &[u8]
        ensures { result.now ≡ text_of self.now ++ 10 ∷ [] }
    {
        self.body.text_lf()
    }

    /// The whole text: the tokens, a tab between two.
    pub fn text(&self) -> &[u8]
        ensures text { result.now ≡ text_of self.now }
        ensures at_most { length (text_of self.now) ≤ 1048576 }

        // Its text is read as the record itself.
        ensures read_back { reading (text_of self.now) ≡ Ok self.now }
    {
        self.body.text()
    }
}

/// Finds where each token of a line ends, into a list that may hold anything, or the first rule that
/// the line breaks.
pub fn cut(ends: &mut Vec<u32>, text: &[u8]) -> Result<(), RecordFault>
    requires at_most { length text.now ≤ 1048576 }
    requires one_line { has_byte 10 text.now ≡ false }
    ensures fields { OnOk result (AreFields text.now ends.new.items) }
    ensures read { OnOk result (reading text.now ≡ Ok (row_in text.now)) }
    ensures refused { IfErr result (λ fault. Fails fault (reading text.now)) }
{
    ends.clear();
    if is_global(text) {
        if has_return(text) {
            return Err(RecordFault::S8);
        }
        return Ok(());
    }
    match push_ends(ends, text)? {
        Cut::Plain => {}
        Cut::Whole => {
            lawful_kind(text, ends)?;
        }
        Cut::Broken => return Err(RecordFault::S8),
    }
    Ok(())
}

/// Whether a carriage return stands in a text.
fn has_return(text: &[u8]) -> bool
    ensures { result ≡ has_byte 13 text.now }
{
    memchr(b'\r', text).is_some()
}

/// Whether a text is a global comment.
fn is_global(text: &[u8]) -> bool
    ensures { result ≡ is_comment text.now }
{
    text.starts_with(b"!!")
}
