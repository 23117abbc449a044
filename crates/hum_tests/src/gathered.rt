//! Texts that are gathered in front of writers that take little at a call, and fail.
use crate::compared::{same, same_bytes};
use hum_text::calls::Sink;
use hum_text::gathered::Gathered;
use std::alloc::Global;
use std::io;
use std::io::{Error, ErrorKind, Write};
use std::process::Abort;

/// Takes so many bytes at a call at most, and is interrupted once, after `good` writes.
#[derive(Drop)]
struct Taker {
    bytes: Vec<u8>,
    most: usize,
    good: usize,
    flushes: usize,
}

impl Taker {
    fn new(alloc: Global, most: usize, good: usize) -> Taker {
        Taker {
            bytes: Vec::new(alloc),
            most,
            good,
            flushes: 0,
        }
    }
}

impl Write for Taker {
    fn write(&mut self, buf: &[u8]) -> io::Result<usize> {
        if self.good == 0 {
            self.good = usize::MAX;
            return Err(Error::from(ErrorKind::Interrupted));
        }
        self.good -= 1;
        let n = self.most.min(buf.len());
        self.bytes.extend_from_slice(&buf[..n])?;
        Ok(n)
    }

    fn flush(&mut self) -> io::Result<()> {
        self.flushes = self.flushes.saturating_add(1);
        Ok(())
    }
}

// Writes a text to its end, every other one at once where that may be, and answers how many calls failed.
fn put<S: Sink>(sink: &mut S, text: &[u8]) -> usize {
    if text.len() % 2 == 0 && sink.write_near(text) {
        return 0;
    }
    let mut rest = text;
    let mut failed = 0usize;
    for _ in 0..1_000 {
        if rest.is_empty() {
            return failed;
        }
        match sink.write(rest) {
            Ok(n) => rest = &rest[n..],
            Err(_) => failed = failed.saturating_add(1),
        }
    }
    failed
}

// Writes texts of all lengths from 1 to 300, one behind the other to `want` too, and flushes until it
// succeeds. Answers how many calls failed.
fn put_all<S: Sink>(rt: &impl Abort, alloc: Global, sink: &mut S, want: &mut Vec<u8>) -> usize {
    let mut letters = Vec::new(alloc);
    let mut failed = 0usize;
    for letter in 1..=300u16 {
        letters.push((letter % 251) as u8).expect(rt, "memory");
        want.extend_from_slice(&letters).expect(rt, "memory");
        failed = failed.saturating_add(put(sink, &letters));
    }
    for _ in 0..10 {
        if sink.flush().is_ok() {
            return failed;
        }
        failed = failed.saturating_add(1);
    }
    failed
}

// All bytes come, in their order, so many calls fail, and one flush is handed on.
fn check_taker(rt: &impl Abort, alloc: Global, most: usize, good: usize, failed: usize) {
    let mut taker = Taker::new(alloc, most, good);
    let mut want = Vec::new(alloc);
    {
        let mut sink = Gathered::new(alloc, &mut taker).expect(rt, "memory");
        let found = put_all(rt, alloc, &mut sink, &mut want);
        same(rt, found, failed, (most, good));
    }
    same_bytes(rt, &taker.bytes, &want, (most, good));
    same(rt, taker.flushes, 1, (most, good));
}

#[test]
fn texts_of_all_lengths_are_gathered(rt: HostRuntime) {
    for most in [usize::MAX, 1_000, 7] {
        check_taker(&rt, rt.alloc(), most, usize::MAX, 0);
    }
}

#[test]
fn nothing_is_lost_or_doubled_where_a_write_fails(rt: HostRuntime) {
    for most in [usize::MAX, 1_000] {
        for good in 0..12usize {
            check_taker(&rt, rt.alloc(), most, good, 1);
        }
    }
}

#[test]
fn what_is_held_comes_where_the_writer_is_dropped(rt: HostRuntime) {
    let mut taker = Taker::new(rt.alloc(), usize::MAX, usize::MAX);
    {
        let mut sink = Gathered::new(rt.alloc(), &mut taker).expect(&rt, "memory");
        same(&rt, put(&mut sink, b"4e\t4B-\n"), 0, "no call fails");
    }
    same_bytes(&rt, &taker.bytes, b"4e\t4B-\n", "held");
}
