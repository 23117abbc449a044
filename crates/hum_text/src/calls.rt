//! Readers and writers that show how often they were called and whether a call failed.
ghost use Rattle.std.specs.Prelude.{◌≡◌, ℕ, Bool, List, ◌||◌, is_err, is_ok, false, length};
ghost use Rattle.std.specs.Prelude.{◌<◌, ◌≤◌, true, Option};
ghost use Rattle.std.specs.Io.{ReadsAtMost, WritesAtMost};
ghost use Rattle.std.specs.Io.KnownBytes.{Appends, ReadConsumes, WriteAppends, Keeps};
ghost use Rattle.hum_text.specs.Calls.{counted, write_fails};

use std::io;
use std::io::{Read, Write};
use std::marker::Model;

/// How many bytes a read asks for at most.
pub const LARGEST_READ: usize = 65_536;

/// For how many there is room at first where a source doesn't tell how many it has, so that a short score takes little.
const FIRST_READ: usize = 8_128;

/// What bytes are read from.
pub trait Source {
    // the bytes that reads will give from here on, where they are known
    ghost remaining: { Self → Option (List ℕ) };
    // how many calls were made
    ghost calls: { Self → ℕ };
    // whether a call failed
    ghost failed: { Self → Bool };

    /// How many bytes it has left, as far as it knows: room for them is made at once. More may come.
    fn hint(&self) -> usize {
        FIRST_READ
    }

    /// Reads into `buf`, which has room for 1 to 65,536 bytes. 0 bytes are the end.
    fn read(&mut self, buf: &mut [u8]) -> io::Result<usize>
        requires some { 0 < length buf.old }
        requires bounded { length buf.old ≤ LARGEST_READ }
        ensures bound { ReadsAtMost result buf.new }
        ensures bytes { ReadConsumes (remaining self.old) (remaining self.new) result buf.new }
        ensures calls { calls self.new ≡ counted (calls self.old) }
        ensures failed { failed self.new ≡ (failed self.old || is_err result) };
}

/// What bytes are written to.
pub trait Sink {
    // the bytes that it holds, where they are known
    ghost contents: { Self → Option (List ℕ) };
    // how many calls were made
    ghost calls: { Self → ℕ };
    // how many of them were flushes
    ghost flushes: { Self → ℕ };
    // whether a call failed
    ghost failed: { Self → Bool };
    // whether the last call was a flush that didn't fail
    ghost flushed: { Self → Bool };

    /// Writes some of the bytes. Taking none is a failure.
    fn write(&mut self, buf: &[u8]) -> io::Result<usize>
        ensures bound { WritesAtMost result buf.now }
        ensures bytes { WriteAppends (contents self.old) (contents self.new) result buf.now }
        ensures calls { calls self.new ≡ counted (calls self.old) }
        ensures flushes { flushes self.new ≡ flushes self.old }
        ensures failed { failed self.new ≡ (failed self.old || write_fails result) }
        ensures flushed { flushed self.new ≡ false };

    /// Writes all of the bytes in one call that can't fail, where that is to be had at once; or else nothing. Tells which.
    fn write_near(&mut self, _buf: &[u8]) -> bool
        ensures some { result ≡ true → 0 < length _buf.now }
        ensures bytes { result ≡ true → Appends (contents self.old) (contents self.new) _buf.now }
        ensures calls { result ≡ true → calls self.new ≡ counted (calls self.old) }
        ensures flushes { result ≡ true → flushes self.new ≡ flushes self.old }
        ensures failed { result ≡ true → failed self.new ≡ failed self.old }
        ensures flushed { result ≡ true → flushed self.new ≡ false }
        ensures kept { result ≡ false → self.new ≡ self.old }
    {
        false
    }

    /// Hands on what was written and still waits.
    fn flush(&mut self) -> io::Result<()>
        ensures bytes { Keeps (contents self.old) (contents self.new) }
        ensures calls { calls self.new ≡ counted (calls self.old) }
        ensures flushes { flushes self.new ≡ counted (flushes self.old) }
        ensures failed { failed self.new ≡ (failed self.old || is_err result) }
        ensures flushed { flushed self.new ≡ is_ok result };
}

/// Any reader or writer of std, with what is shown of the calls on it.
#[derive(Drop)]
pub struct Marked<T> {
    inner: T,
    calls: u64,
    flushes: u64,
    failed: bool,
    flushed: bool,
}

impl<T> Model for Marked<T> {
    ghost use Rattle.hum_text.specs.Calls.{Calls};

    ghost Value = { Calls T };

    ghost view = { λ m. record {
      inner = m.inner;
      calls = m.calls;
      flushes = m.flushes;
      failed = m.failed;
      flushed = m.flushed;
    } };
}

impl<T> Marked<T> {
    /// A reader or a writer on which no call was made yet.
    pub fn new(inner: T) -> Marked<T>
        ensures { result ≡ record { inner = inner; calls = 0; flushes = 0; failed = false; flushed = false } }
    {
        Marked {
            inner,
            calls: 0,
            flushes: 0,
            failed: false,
            flushed: false,
        }
    }

    // Counts a call that didn't fail and was no flush.
    fn count(&mut self)
        ensures { self.new ≡ record self.old {
          calls = counted self.old.calls;
          flushed = false;
        } }
    {
        self.calls = self.calls.saturating_add(1);
        self.flushed = false;
    }

    // Counts a call, and marks whether it failed, and whether it was a flush that didn't.
    fn note(&mut self, failed: bool, flushed: bool)
        ensures { self.new ≡ record self.old {
          calls = counted self.old.calls;
          failed = self.old.failed || failed;
          flushed = flushed;
        } }
    {
        self.calls = self.calls.saturating_add(1);
        self.failed = self.failed || failed;
        self.flushed = flushed;
    }

    /// Whether a call failed, a write of 0 bytes too.
    pub fn failed(&self) -> bool
        ensures { result ≡ self.now.failed }
    {
        self.failed
    }

    /// Whether the last call was a flush that didn't fail.
    pub fn flushed(&self) -> bool
        ensures { result ≡ self.now.flushed }
    {
        self.flushed
    }
}

impl<T: Read> Source for Marked<T> {
    ghost remaining = { λ m. T.remaining m.inner };

    ghost calls = { λ m. m.calls };

    ghost failed = { λ m. m.failed };

    fn read(&mut self, buf: &mut [u8]) -> io::Result<usize> {
        let result = self.inner.read(buf);
        self.note(result.is_err(), false);
        result
    }
}

impl<T: Write> Sink for Marked<T> {
    ghost contents = { λ m. T.contents m.inner };

    ghost calls = { λ m. m.calls };

    ghost flushes = { λ m. m.flushes };

    ghost failed = { λ m. m.failed };

    ghost flushed = { λ m. m.flushed };

    fn write(&mut self, buf: &[u8]) -> io::Result<usize> {
        let result = self.inner.write(buf);
        match &result {
            Ok(1..) => self.count(),
            _ => self.note(true, false),
        }
        result
    }

    fn flush(&mut self) -> io::Result<()> {
        let result = self.inner.flush();
        self.note(result.is_err(), result.is_ok());
        self.flushes = self.flushes.saturating_add(1);
        result
    }
}
