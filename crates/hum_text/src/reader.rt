//! The lines of a source, one at a time.
ghost use Rattle.std.specs.Prelude.{◌≡◌, ◌≢◌, ◌==◌, ℕ, ◌+◌, ◌<◌, ◌≤◌, true, false, List, []};
ghost use Rattle.std.specs.Prelude.{◌-◌, length, take, drop, slice_index, ◌⊎◌, ◌++◌, Some, None};
ghost use Rattle.std.specs.Prelude.{IfOk, IfErr, OnOk, IfSome, IfNone};
ghost use Rattle.std.specs.Io.KnownBytes.{Consumes, IsAtEnd};
ghost use Rattle.memchr.specs.Find.{IsFirstByte, is_byte};
ghost use Rattle.hum_text.specs.Text.{lf, without_cr, IsLawful, BreaksFirst};

use crate::block::Block;
use crate::calls::{LARGEST_READ, Source};
use crate::near::near_lf;
use crate::rules::{first_fault, sound_len, strip_cr, within_limits};
use crate::{Limits, TextFault};
use std::alloc::Global;
use std::marker::Model;

/// As many bytes at least are shown ahead, if any are.
const NEAR: u64 = 64;

/// What a poll gives.
#[derive(Debug, Clone, Copy, PartialEq, Eq)]
pub enum Step {
    /// The next line: [`LineReader::line`] shows it until the next poll.
    Line,
    /// Nothing yet: the poll has made a read, which gave bytes.
    More,
    /// Nothing more: every line was given.
    End,
}

/// The lines of a source.
#[derive(Drop)]
pub struct LineReader<R> {
    source: R,
    limits: Limits,
    block: Block,
    given: u64,
    // how many bytes may be handed out in all before a limit is to be asked for again
    free: u64,
    // the same, but so that more than 63 are left
    near: u64,
    taken: u64,
    ended: bool,
    fault: Option<TextFault>,
}

impl<R> Model for LineReader<R> {
    ghost use Rattle.hum_text.specs.Reading.{Reader};

    ghost Value = { Reader R };

    ghost view = { λ r. record {
      source = r.source;
      limits = r.limits;
      line = r.block.line;
      pending = r.block.pending;
      given = r.given;
      taken = r.taken;
      ended = r.ended;
      fault = r.fault;
    } };

    ghost use Rattle.std.specs.Prelude.{◌-◌, ◌≤◌};
    ghost use Rattle.hum_text.specs.Reading.{IsWithin};

    ghost invariant = { λ r. IsWithin r.limits r.given r.taken r.block.pending (r.free - r.taken)
        × (r.near ≤ r.free - 63) };
}

// How many bytes stand up to place k, it included.
fn through(held: &[u8], k: usize) -> usize
    requires { k < length held.now }
    ensures { result ≡ k + 1 }
{
    held[..k].len() + 1
}

// How many bytes a line has with its line end, by its text: LF stands behind that, or CR and LF.
fn size_of_line(held: &[u8], len: usize) -> usize
    requires { len < length held.now }
    ensures lf { slice_index held.now len ≡ lf → result ≡ len + 1 }
    ensures cr { slice_index held.now len ≢ lf → result ≡ len + 2 }
{
    if held[len] == b'\n' { len + 1 } else { len + 2 }
}

impl<R: Source> LineReader<R> {
    ghost use Rattle.hum_text.specs.Reading.{opening, Holds, GivesNext, bytes_read};
    ghost use Rattle.hum_text.specs.Reading.{NeedsRead, ReadsOnce, IsUnread, IsFed};
    ghost use Rattle.hum_text.specs.Reading.{IsOver, KeepsLimits, Fails, left_to_do, Nears};
    ghost use Rattle.hum_text.specs.Reading.{GivesLine, GoesUnread, GoesReading};

    /// The reader of a source of which nothing was read yet.
    pub fn new(alloc: Global, source: R, limits: Limits) -> LineReader<R>
        ensures opening { result ≡ opening source limits }
        ensures holds { (all : List ℕ) → Holds result all [] all }
    {
        LineReader {
            source,
            limits,
            block: Block::new(alloc),
            given: 0,
            taken: 0,
            ended: false,
            fault: None,
            free: 0,
            near: 0,
        }
    }

    /// The line that the last poll gave, without its line end; where it gave none, what this shows is
    /// of no use.
    pub fn line(&self) -> &[u8]
        ensures { result.now ≡ self.now.line }
    {
        self.block.line()
    }

    /// That line with the bytes that the reader holds behind it, and how many bytes of these are
    /// the line: so it can be looked at in pieces of one size.
    pub fn from_line(&self) -> (&[u8], usize)
        ensures within { result.1 ≤ length result.0.now }
        ensures line { take result.1 result.0.now ≡ self.now.line }
    {
        self.block.from_line()
    }

    /// How many lines were given.
    pub fn given(&self) -> u64
        ensures given { result ≡ self.now.given }
        ensures at_most { result ≤ self.now.limits.records }
    {
        self.given
    }

    /// Bytes that come next, or none where these are few: whatever line LF ends among them, it keeps to the
    /// limits.
    pub fn ahead(&self) -> &[u8]
        ensures next { (behind : List ℕ) × (self.now.pending ≡ result.now ++ behind) }
        ensures line { length result.now ≤ self.now.limits.line }
        ensures records { self.now.given + length result.now ≤ self.now.limits.records }
        ensures bytes { self.now.taken + length result.now ≤ self.now.limits.bytes }
    {
        if self.taken >= self.near {
            return &[];
        }
        // that there are as many is known, but written so, nobody asks it again
        &self.block.pending()[..(self.free - self.taken).max(NEAR) as usize]
    }

    // From here on each poll gives this fault.
    fn fail(&mut self, fault: TextFault) -> Result<Step, TextFault>
        ensures result { result ≡ Err fault }
        ensures state { self.new ≡ record self.old { fault = Some fault } }
    {
        self.fault = Some(fault);
        Err(fault)
    }

    // Hands out the first `len` bytes as a line, but for a CR at their end, and drops `size` bytes.
    fn hand_out(&mut self, len: usize, size: usize)
        requires some { 0 < size }
        requires order { len ≤ size }
        requires within { size ≤ length self.old.pending }
        requires records { self.old.given < self.old.limits.records }
        requires bytes { self.old.taken + size ≤ self.old.limits.bytes }
        ensures { self.new ≡ record self.old {
          line = without_cr (take len self.old.pending);
          pending = drop size self.old.pending;
          given = self.old.given + 1;
          taken = self.old.taken + size;
        } }
    {
        let line = strip_cr(&self.block.pending()[..len]).len();
        self.block.hand_out(line, size);
        self.given += 1;
        self.taken += size as u64;
    }

    // The first fault in the first `size` bytes, of which only the last may be LF.
    fn fault_in(&self, size: usize) -> Option<TextFault>
        requires within { size ≤ length self.now.pending }
        requires one_line { (k : ℕ) → k + 1 < size → slice_index self.now.pending k ≢ lf }
        ensures found { IfSome result (BreaksFirst self.now.limits (self.now.given + 1)
            self.now.taken (take size self.now.pending)) }
        ensures none { IfNone result (IsLawful self.now.limits (self.now.given + 1)
            self.now.taken (take size self.now.pending)) }
        ensures records { IfNone result (0 < size → self.now.given < self.now.limits.records) }
        ensures bytes { IfNone result (0 < size → self.now.taken + size ≤ self.now.limits.bytes) }
    {
        let held = &self.block.pending()[..size];
        first_fault(&self.limits, self.given, self.taken, held)
    }

    /// Gives the first `len` bytes as a line, and drops them and its line end: LF, or CR and LF.
    pub fn take_line(&mut self, len: usize)
        requires no_fault { self.old.fault ≡ None }
        requires first { (k : ℕ) × IsFirstByte (is_byte lf) self.old.pending (Some k)
            × (len ≡ length (without_cr (take k self.old.pending)))
            × (self.old.taken + (k + 1) ≤ self.old.limits.bytes) }
        requires filled { 0 < len }
        requires short { len ≤ self.old.limits.line }
        requires records { self.old.given < self.old.limits.records }
        ensures gives { GivesLine self.old self.new }
        ensures line { self.new.line ≡ take len self.old.pending }
    {
        let size = size_of_line(self.block.pending(), len);
        self.give_line(len, size);
    }

    /// Gives the first `len` bytes as a line, and drops `size` bytes: these and its line end.
    pub fn give_line(&mut self, len: usize, size: usize)
        requires no_fault { self.old.fault ≡ None }
        requires some { 0 < size }
        requires first { IsFirstByte (is_byte lf) self.old.pending (Some (size - 1)) }
        requires len { len ≡ length (without_cr (take (size - 1) self.old.pending)) }
        requires filled { 0 < len }
        requires short { len ≤ self.old.limits.line }
        requires records { self.old.given < self.old.limits.records }
        requires bytes { self.old.taken + size ≤ self.old.limits.bytes }
        ensures gives { GivesLine self.old self.new }
        ensures line { self.new.line ≡ without_cr (take (size - 1) self.old.pending) }
    {
        self.hand_out_line(len, size);
    }

    // Hands it out, whatever the line is.
    fn hand_out_line(&mut self, len: usize, size: usize)
        requires some { 0 < size }
        requires within { size ≤ length self.old.pending }
        requires len { len ≡ length (without_cr (take (size - 1) self.old.pending)) }
        requires records { self.old.given < self.old.limits.records }
        requires bytes { self.old.taken + size ≤ self.old.limits.bytes }
        ensures { self.new ≡ record self.old {
          line = without_cr (take (size - 1) self.old.pending);
          pending = drop size self.old.pending;
          given = self.old.given + 1;
          taken = self.old.taken + size;
        } }
    {
        self.block.hand_out(len, size);
        self.given += 1;
        self.taken += size as u64;
    }

    // Hands out the line whose LF is at `k`, if it breaks no rule, and tells whether it did.
    fn sound_line(&mut self, k: usize) -> bool
        requires no_fault { self.old.fault ≡ None }
        requires first { IsFirstByte (is_byte lf) self.old.pending (Some k) }
        ensures line { result ≡ true → GivesLine self.old self.new }
        ensures same { result ≡ false → self.new ≡ self.old }
    {
        let piece = &self.block.pending()[..k];
        match sound_len(&self.limits, self.given, self.taken, piece) {
            Some(len) => {
                let size = piece.len() + 1;
                self.give_line(len, size);
                true
            }
            None => false,
        }
    }

    // The line whose LF is at `k`, or the first fault in it.
    fn check_line(&mut self, k: usize) -> Result<Step, TextFault>
        requires no_fault { self.old.fault ≡ None }
        requires first { IsFirstByte (is_byte lf) self.old.pending (Some k) }
        ensures goes { GoesUnread self.old result self.new }
        ensures not_end { result ≢ Ok Step.End }
    {
        let size = through(self.block.pending(), k);
        match self.fault_in(size) {
            Some(fault) => self.fail(fault),
            None => {
                self.hand_out(k, size);
                Ok(Step::Line)
            }
        }
    }

    // The last line, which no LF ends, or the first fault in it; or the end.
    fn last_line(&mut self) -> Result<Step, TextFault>
        requires no_fault { self.old.fault ≡ None }
        requires unended { IsFirstByte (is_byte lf) self.old.pending None }
        requires ended { self.old.ended ≡ true }
        ensures goes { GoesUnread self.old result self.new }
        ensures over { IsOver self.old → (result ≡ Ok Step.End) × (self.new ≡ self.old) }
    {
        let size = self.block.pending().len();
        if size == 0 {
            return Ok(Step::End);
        }
        let is_empty = strip_cr(self.block.pending()).is_empty();
        match self.fault_in(size) {
            Some(fault) => self.fail(fault),
            None if is_empty => self.fail(TextFault::S1),
            None => {
                self.hand_out(size, size);
                Ok(Step::Line)
            }
        }
    }

    // Counts how many bytes may be handed out from here on, whatever lines they are.
    fn count_free(&mut self)
        ensures { self.new ≡ self.old }
    {
        let held = self.block.pending().len();
        self.free = self.taken + within_limits(&self.limits, self.given, self.taken, held);
        self.near = self.free.saturating_sub(NEAR - 1);
    }

    // The same behind a read, in front of which so many bytes were searched in vain: where there are any, none are
    // shown ahead, and polls find the end of that line, each going on where the last one stopped.
    fn count_ahead(&mut self, searched: usize)
        ensures { self.new ≡ self.old }
    {
        self.count_free();
        if searched > 0 {
            self.near = 0;
        }
    }

    // Counts it anew behind such a line.
    fn show_ahead(&mut self)
        ensures { self.new ≡ self.old }
    {
        if self.near == 0 {
            self.count_free();
        }
    }

    // What a poll gives where no LF was read: a fault of the line so far, or what a read gives.
    fn read_on(&mut self) -> Result<Step, TextFault>
        requires no_fault { self.old.fault ≡ None }
        requires unended { IsFirstByte (is_byte lf) self.old.pending None }
        requires going { self.old.ended ≡ false }
        ensures { GoesReading R.remaining R.calls R.failed self.old result self.new }
    {
        let size = self.block.pending().len();
        match self.fault_in(size) {
            Some(fault) => self.fail(fault),
            None => match self.block.fill(&mut self.source) {
                Err(fault) => self.fail(fault),
                Ok(0) => {
                    self.ended = true;
                    self.last_line()
                }
                Ok(_) => {
                    self.count_ahead(size);
                    Ok(Step::More)
                }
            },
        }
    }

    // Hands out the next line, if it was read to its end and breaks no rule, and tells whether it
    // did. Where it didn't, nothing has changed.
    fn next_line(&mut self) -> bool
        requires no_fault { self.old.fault ≡ None }
        ensures line { result ≡ true → GivesLine self.old self.new }
        ensures same { result ≡ false → self.new ≡ self.old }
    {
        match near_lf(self.block.pending()) {
            Some(k) => self.sound_line(k),
            None => self.far_line(),
        }
    }

    // The same where no LF is near.
    fn far_line(&mut self) -> bool
        requires no_fault { self.old.fault ≡ None }
        ensures line { result ≡ true → GivesLine self.old self.new }
        ensures same { result ≡ false → self.new ≡ self.old }
    {
        let Some(k) = self.block.find_line_end() else {
            return false;
        };
        self.sound_line(k)
    }

    /// The next step. A line or a fault that was read is given without a read, and no poll reads
    /// twice. After a fault it gives that fault again, and after the end the end.
    pub fn poll(&mut self) -> Result<Step, TextFault>
        // What is given depends on the bytes read so far alone, however the input goes on.
        ensures gives { self.old.fault ≡ None → GivesNext self.old result self.new }

        // It reads where it has to, and then once.
        ensures reads_not { ¬ NeedsRead self.old → IsUnread self.old self.new }
        ensures reads_once { NeedsRead self.old
            → ReadsOnce R.calls R.failed self.old result self.new }
        ensures more { result ≡ Ok Step.More → IsFed self.old self.new }
        ensures unfed { result ≢ Ok Step.More → bytes_read self.old self.new ≡ [] }
        ensures asked { length (bytes_read self.old self.new) ≤ LARGEST_READ }
        ensures consumes { Consumes (R.remaining self.old.source) (R.remaining self.new.source)
            (bytes_read self.old self.new) }
        ensures at_end { self.new.ended ≡ true
            → (self.old.ended ≡ true) ⊎ IsAtEnd (R.remaining self.new.source) }
        ensures failed { result ≡ Err TextFault.Read
            → (self.old.fault ≡ Some TextFault.Read) ⊎ (R.failed self.new.source ≡ true) }

        // Only a read takes memory.
        ensures memory { result ≡ Err TextFault.Memory
            → (self.old.fault ≡ Some TextFault.Memory) ⊎ NeedsRead self.old }

        // A line keeps to the limits.
        ensures within { IfOk result
            (λ step. KeepsLimits self.old.limits step self.new.line self.new.given) }

        // The end and a fault last.
        ensures end { result ≡ Ok Step.End → IsOver self.new }
        ensures over { IsOver self.old → (result ≡ Ok Step.End) × (self.new ≡ self.old) }
        ensures no_fault { OnOk result (self.new.fault ≡ None) }
        ensures err { IfErr result (Fails self.old self.new) }
        ensures again { IfSome self.old.fault (λ f. (result ≡ Err f) × (self.new ≡ self.old)) }

        // So each run of polls ends.
        ensures nears { IfOk result
            (λ step. Nears step (left_to_do self.old) (left_to_do self.new)) }
        ensures limits { self.new.limits ≡ self.old.limits }
        ensures taken { self.new.taken ≤ self.new.limits.bytes }
    {
        if let Some(fault) = self.fault {
            return Err(fault);
        }
        if self.next_line() {
            self.show_ahead();
            return Ok(Step::Line);
        }
        match self.block.find_line_end() {
            Some(k) => self.check_line(k),
            None if self.ended => self.last_line(),
            None => self.read_on(),
        }
    }
}
