//! A writer that gathers short texts.
ghost use Rattle.std.specs.Prelude.{◌≡◌, ◌≤◌, ◌+◌, ◌*◌, [], ◌||◌, length, take, false, is_err, is_ok, IfOk, OnOk};
ghost use Rattle.std.specs.Io.{WritesAtMost};
ghost use Rattle.std.specs.Io.KnownBytes.{Appends, Keeps, WriteAppends, append_known};
ghost use Rattle.std.specs.Simd.Lanes.{chunk, put_chunk};
ghost use Rattle.hum_text.specs.Calls.{counted, write_fails};

use crate::calls::Sink;
use std::alloc::{AllocError, Global};
use std::io;
use std::io::{ErrorKind, Write};
use std::marker::Model;
use std::simd::prelude::*;

/// How many bytes are gathered: so few stay in the fastest cache.
const ROOM: usize = 4_096;

/// A writer of std in front of which what is written is gathered, with what is shown of the calls on it.
///
/// Short texts are copied without a branch that hangs on how long they are: a guess of that is wrong at
/// every other record.
pub struct Gathered<T: Write + Drop> {
    inner: T,
    room: Vec<u8>,
    len: usize,
    calls: u64,
    flushes: u64,
    failed: bool,
    flushed: bool,
}

impl<T: Write + Drop> Model for Gathered<T> {
    ghost use Rattle.std.specs.Prelude.{◌≡◌, ◌≤◌, take, vec_len};
    ghost use Rattle.hum_text.specs.declared.gathered.TheConstants.{ROOM};
    ghost use Rattle.hum_text.specs.Gathered.{Gathering};

    ghost Value = { Gathering T };

    ghost view = { λ g. record {
      inner = g.inner;
      held = take g.len g.room.items;
      calls = g.calls;
      flushes = g.flushes;
      failed = g.failed;
      flushed = g.flushed;
    } };

    ghost invariant = { λ g. (g.len ≤ ROOM) × (vec_len g.room ≡ ROOM) };
}

/// Puts `N` of the bytes to their place, from one of them on.
fn put_piece<const N: usize>(held: &mut [u8], at: usize, bytes: &[u8], from: usize)
    requires few { N ≤ 64 }
    requires whole { from + N ≤ length bytes.now }
    requires room { at + length bytes.now ≤ length held.old }
    ensures { held.new ≡ put_chunk (at + from) held.old (chunk from N bytes.now) }
{
    Simd::<u8, N>::from_slice(&bytes[from..]).copy_to_slice(&mut held[at + from..]);
}

/// Puts bytes over those from a place on, by four pieces that may overlap.
fn put_pieces<const N: usize>(held: &mut [u8], at: usize, bytes: &[u8])
    requires few { N ≤ 64 }
    requires least { N ≤ length bytes.now }
    requires most { length bytes.now ≤ 4 * N }
    requires room { at + length bytes.now ≤ length held.old }
    ensures { held.new ≡ put_chunk at held.old bytes.now }
{
    let last = bytes.len() - N;
    put_piece::<N>(held, at, bytes, 0);
    put_piece::<N>(held, at, bytes, last.min(N));
    put_piece::<N>(held, at, bytes, last.min(2 * N));
    put_piece::<N>(held, at, bytes, last);
}

/// The same of any bytes. It stands apart, so that no piece becomes a copy of any length.
#[inline(never)]
fn put_any(held: &mut [u8], at: usize, bytes: &[u8])
    requires room { at + length bytes.now ≤ length held.old }
    ensures { held.new ≡ put_chunk at held.old bytes.now }
{
    held[at..at + bytes.len()].copy_from_slice(bytes);
}

/// Puts bytes over those from a place on.
fn put(held: &mut [u8], at: usize, bytes: &[u8])
    requires room { at + length bytes.now ≤ length held.old }
    ensures { held.new ≡ put_chunk at held.old bytes.now }
{
    match bytes.len() {
        8..=32 => put_pieces::<8>(held, at, bytes),
        33..=64 => put_pieces::<16>(held, at, bytes),
        65..=128 => put_pieces::<32>(held, at, bytes),
        _ => put_any(held, at, bytes),
    }
}

/// Writes until all is written or a write fails, and answers how many bytes were written.
fn hand_on<T: Write>(bytes: &[u8], inner: &mut T) -> (usize, io::Result<()>)
    ensures bound { result.0 ≤ length bytes.now }
    ensures all { OnOk result.1 (result.0 ≡ length bytes.now) }
    ensures bytes { Appends (T.contents inner.old) (T.contents inner.new) (take result.0 bytes.now) }
{
    let mut written = 0;
    while written < bytes.len() {
        match inner.write(&bytes[written..]) {
            Ok(0) => return (written, Err(io::Error::from(ErrorKind::WriteZero))),
            Ok(n) => written += n,
            Err(error) => return (written, Err(error)),
        }
    }
    (written, Ok(()))
}

impl<T: Write + Drop> Gathered<T> {
    /// A writer on which no call was made yet.
    ///
    /// # Errors
    /// Out of memory.
    pub fn new(alloc: Global, inner: T) -> Result<Gathered<T>, AllocError>
        ensures { IfOk result (λ g. g ≡ record {
          inner = inner;
          held = [];
          calls = 0;
          flushes = 0;
          failed = false;
          flushed = false;
        }) }
    {
        let room = vec![in alloc; 0; ROOM]?;
        Ok(Gathered {
            inner,
            room,
            len: 0,
            calls: 0,
            flushes: 0,
            failed: false,
            flushed: false,
        })
    }

    // Counts a call, and marks whether it failed, and whether it was a flush that didn't.
    fn note(&mut self, failed: bool, flushed: bool)
        ensures { self.new ≡ record self.old {
          calls = counted self.old.calls;
          failed = self.old.failed || failed;
          flushed = flushed;
        } }
    {
        self.calls = self.calls.saturating_add(1);
        self.failed = self.failed || failed;
        self.flushed = flushed;
    }

    // Hands on what is held. What a failure leaves is still held.
    fn drain(&mut self) -> io::Result<()>
        ensures held { OnOk result (self.new.held ≡ []) }
        ensures bytes { Keeps (append_known (T.contents self.old.inner) self.old.held)
            (append_known (T.contents self.new.inner) self.new.held) }
        ensures calls { self.new.calls ≡ self.old.calls }
        ensures flushes { self.new.flushes ≡ self.old.flushes }
        ensures failed { self.new.failed ≡ self.old.failed }
        ensures flushed { self.new.flushed ≡ self.old.flushed }
    {
        let len = self.len;
        let (written, result) = hand_on(&self.room[..len], &mut self.inner);
        self.room.copy_within(written..len, 0);
        self.len = len - written;
        result
    }

    // Hands on what is held, and then these bytes.
    #[inline(never)]
    fn write_out(&mut self, buf: &[u8]) -> io::Result<usize>
        ensures bound { WritesAtMost result buf.now }
        ensures bytes { WriteAppends (append_known (T.contents self.old.inner) self.old.held)
            (append_known (T.contents self.new.inner) self.new.held) result buf.now }
        ensures calls { self.new.calls ≡ counted self.old.calls }
        ensures flushes { self.new.flushes ≡ self.old.flushes }
        ensures failed { self.new.failed ≡ (self.old.failed || write_fails result) }
        ensures flushed { self.new.flushed ≡ false }
    {
        let written = match self.drain() {
            Ok(()) => self.inner.write(buf),
            Err(error) => Err(error),
        };
        self.note(!matches!(written, Ok(1..)), false);
        written
    }
}

impl<T: Write + Drop> Sink for Gathered<T> {
    ghost contents = { λ g. append_known (T.contents g.inner) g.held };

    ghost calls = { λ g. g.calls };

    ghost flushes = { λ g. g.flushes };

    ghost failed = { λ g. g.failed };

    ghost flushed = { λ g. g.flushed };

    #[inline(always)]
    fn write(&mut self, buf: &[u8]) -> io::Result<usize> {
        if self.write_near(buf) {
            return Ok(buf.len());
        }
        self.write_out(buf)
    }

    #[inline(always)]
    fn write_near(&mut self, buf: &[u8]) -> bool {
        let n = buf.len();
        if n == 0 || ROOM - self.len < n {
            return false;
        }
        put(&mut self.room, self.len, buf);
        self.len += n;
        self.calls = self.calls.saturating_add(1);
        self.flushed = false;
        true
    }

    fn flush(&mut self) -> io::Result<()>
        ensures bytes { Keeps (append_known (T.contents self.old.inner) self.old.held)
            (append_known (T.contents self.new.inner) self.new.held) }
        ensures calls { self.new.calls ≡ counted self.old.calls }
        ensures flushes { self.new.flushes ≡ counted self.old.flushes }
        ensures failed { self.new.failed ≡ (self.old.failed || is_err result) }
        ensures flushed { self.new.flushed ≡ is_ok result }
        ensures held { OnOk result (self.new.held ≡ []) }
    {
        let result = match self.drain() {
            Ok(()) => self.inner.flush(),
            Err(error) => Err(error),
        };
        self.note(result.is_err(), result.is_ok());
        self.flushes = self.flushes.saturating_add(1);
        result
    }
}

impl<T: Write + Drop> Drop for Gathered<T> {
    // What fails here fails unseen.
    fn drop(mut self) {
        let _ = self.drain();
        let Gathered {
            inner: _inner,
            room: _room,
            len: _,
            calls: _,
            flushes: _,
            failed: _,
            flushed: _,
        } = self;
    }
}
