//! The bytes that were read and not yet handed out, and the line that was handed out last.
ghost use Rattle.std.specs.Prelude.{◌≡◌, ℕ, ◌+◌, ◌-◌, ◌<◌, ◌≤◌, List, [], ◌++◌, length};
ghost use Rattle.std.specs.Prelude.{take, drop, vec_len, Some, IfOk, IfErr, OnOk, OnErr};
ghost use Rattle.std.specs.Prelude.{slice_range, ◌⊎◌, is_err, false, true};
ghost use Rattle.std.specs.Io.KnownBytes.{Consumes, IsAtEnd, Keeps};
ghost use Rattle.memchr.specs.Find.{IsFirstByte, is_byte};
ghost use Rattle.hum_text.specs.Text.{lf};
ghost use Rattle.hum_text.specs.Calls.{IsCalled};

use crate::TextFault;
use crate::calls::{LARGEST_READ, Source};
use memchr::memchr;
use std::alloc::{AllocError, Global};
use std::io;
use std::marker::Model;

/// How much room is left behind the bytes of a source that tells how many it has.
const SLACK: usize = 64;

/// The bytes that were read and not yet handed out, and in front of them the line that was handed
/// out last, until the next read.
#[derive(Drop)]
pub struct Block {
    bytes: Vec<u8>,
    line_start: usize,
    line_len: usize,
    start: usize,
    scanned: usize,
    end: usize,
}

impl Model for Block {
    ghost use Rattle.std.specs.Prelude.{slice_range, max, ◌+◌, ◌≤◌};
    ghost use Rattle.hum_text.specs.Window.{Held, IsWindow};

    ghost Value = { Held };

    ghost view = { λ b. record {
      line = slice_range b.bytes.items b.line_start (b.line_start + b.line_len);
      pending = slice_range b.bytes.items b.start b.end;
    } };

    ghost invariant = { λ b. IsWindow b.bytes.items b.start (max b.scanned b.start) b.end
        × (b.line_start + b.line_len ≤ b.end) };
}

impl Block {
    pub fn new(alloc: Global) -> Block
        ensures { result ≡ record { line = []; pending = [] } }
    {
        Block {
            bytes: Vec::new(alloc),
            line_start: 0,
            line_len: 0,
            start: 0,
            scanned: 0,
            end: 0,
        }
    }

    /// The line that was handed out last.
    pub fn line(&self) -> &[u8]
        ensures { result.now ≡ self.now.line }
    {
        &self.bytes[self.line_start..self.line_start + self.line_len]
    }

    /// The buffer from that line on, and how many bytes of it are the line.
    pub fn from_line(&self) -> (&[u8], usize)
        ensures within { result.1 ≤ length result.0.now }
        ensures line { take result.1 result.0.now ≡ self.now.line }
    {
        (&self.bytes[self.line_start..], self.line_len)
    }

    /// The bytes that were not yet handed out.
    pub fn pending(&self) -> &[u8]
        ensures { result.now ≡ self.now.pending }
    {
        &self.bytes[self.start..self.end]
    }

    /// Where the first LF stands. What was searched in vain isn't searched again.
    pub fn find_line_end(&mut self) -> Option<usize>
        ensures found { IsFirstByte (is_byte lf) self.old.pending result }
        ensures same { self.new ≡ self.old }
    {
        let from = self.scanned.max(self.start);
        match memchr(b'\n', &self.bytes[from..self.end]) {
            None => {
                self.scanned = self.end;
                None
            }
            Some(k) => Some(from - self.start + k),
        }
    }

    /// Hands out the first `len` bytes as a line, and drops `size` bytes.
    pub fn hand_out(&mut self, len: usize, size: usize)
        requires order { len ≤ size }
        requires within { size ≤ length self.old.pending }
        ensures { self.new ≡ record {
          line = take len self.old.pending;
          pending = drop size self.old.pending;
        } }
    {
        self.line_start = self.start;
        self.line_len = len;
        self.start += size;
    }

    /// Makes one read, and takes what it gives to the end. The line is gone.
    pub fn fill<R: Source>(&mut self, reader: &mut R) -> Result<usize, TextFault>
        ensures line { self.new.line ≡ [] }
        ensures ok { IfOk result (λ n. (bs : List ℕ)
            × (self.new.pending ≡ self.old.pending ++ bs) × (length bs ≡ n)
            × Consumes (R.remaining reader.old) (R.remaining reader.new) bs
            × (n ≡ 0 → IsAtEnd (R.remaining reader.new))) }
        ensures asked { IfOk result (λ n. n ≤ LARGEST_READ) }
        ensures read { OnOk result (IsCalled R.calls R.failed reader.old reader.new false) }
        ensures err { OnErr result ((self.new.pending ≡ self.old.pending)
            × Keeps (R.remaining reader.old) (R.remaining reader.new)) }
        ensures kind { IfErr result (λ f. ((f ≡ TextFault.Memory) × (reader.new ≡ reader.old))
            ⊎ ((f ≡ TextFault.Read) × IsCalled R.calls R.failed reader.old reader.new true)) }
    {
        self.line_start = 0;
        self.line_len = 0;
        let Ok(from) = make_room(&mut self.bytes, self.start, self.end, reader.hint()) else {
            return Err(TextFault::Memory);
        };
        self.end = from + (self.end - self.start);
        self.scanned = from + (self.scanned.max(self.start) - self.start);
        self.start = from;
        match read_at(&mut self.bytes, self.end, reader) {
            Ok(n) => {
                self.end += n;
                Ok(n)
            }
            Err(_) => Err(TextFault::Read),
        }
    }
}

// Reads into the buffer from `at` on.
fn read_at<R: Source>(bytes: &mut Vec<u8>, at: usize, reader: &mut R) -> io::Result<usize>
    requires { at < vec_len bytes.old }
    ensures within { IfOk result (λ n. at + n ≤ vec_len bytes.new) }
    ensures asked { IfOk result (λ n. n ≤ LARGEST_READ) }
    ensures front { take at bytes.new.items ≡ take at bytes.old.items }
    ensures len { vec_len bytes.new ≡ vec_len bytes.old }
    ensures read { IfOk result (λ n. Consumes (R.remaining reader.old) (R.remaining reader.new)
        (slice_range bytes.new.items at (at + n))) }
    ensures end { IfOk result (λ n. n ≡ 0 → IsAtEnd (R.remaining reader.new)) }
    ensures err { OnErr result (Keeps (R.remaining reader.old) (R.remaining reader.new)) }
    ensures called { IsCalled R.calls R.failed reader.old reader.new (is_err result) }
{
    let to = bytes.len().min(at.saturating_add(LARGEST_READ));
    reader.read(&mut bytes[at..to])
}

// Makes room behind the window, and says where it begins then: at first for as many bytes as are left, as far as is
// known, and for a large read where these weren't all.
fn make_room(
    bytes: &mut Vec<u8>,
    start: usize,
    end: usize,
    hint: usize,
) -> Result<usize, AllocError>
    requires order { start ≤ end }
    requires within { end ≤ vec_len bytes.old }
    ensures room { IfOk result (λ from. (from ≤ start)
        × (from + (end - start) < vec_len bytes.new)) }
    ensures kept { IfOk result (λ from. slice_range bytes.new.items from (from + (end - start))
        ≡ slice_range bytes.old.items start end) }
    ensures err { OnErr result (bytes.new.items ≡ bytes.old.items) }
{
    let len = bytes.len();
    if len == 0 && hint < 2 * LARGEST_READ {
        bytes.resize(hint + SLACK, 0)?;
        return Ok(0);
    }
    if start == end && len > 0 {
        return Ok(0);
    }
    if len - end >= LARGEST_READ {
        return Ok(start);
    }
    if len >= 2 * LARGEST_READ && start > 0 && end - start <= len / 2 {
        bytes.copy_within(start..end, 0);
        return Ok(0);
    }
    bytes.resize(len.saturating_mul(2).max(2 * LARGEST_READ), 0)?;
    Ok(start)
}
