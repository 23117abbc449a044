//! Answers that are written.
ghost use Rattle.std.specs.Prelude.{◌≡◌, ◌≤◌, [], ◌||◌, length, take, drop, is_err, OnOk, IfErr};
ghost use Rattle.std.specs.Io.KnownBytes.{Appends};
ghost use Rattle.hum_packets.specs.Streams.{HasAnswered, Hands, Serves, is_write};

use crate::stop::Stop;
use crate::writing::write_answer;
use hum_text::calls::Sink;
use std::alloc::Global;
use std::marker::Model;

/// How many bytes wait at most behind an answer.
const BLOCK: usize = 65_536;

/// How large a room may be that is kept.
const LARGE: usize = 1_048_576;

/// A sink, and the answers that wait to be written to it.
#[derive(Drop)]
pub struct Answers<W: Sink + Drop> {
    alloc: Global,
    sink: W,
    waiting: Vec<u8>,
}

impl<W: Sink + Drop> Model for Answers<W> {
    ghost use Rattle.hum_packets.specs.Streams.{Writing};

    ghost Value = { Writing W };

    ghost view = { λ a. record { sink = a.sink; waiting = a.waiting.items } };
}

/// Writes until all is written or a write fails, and answers how many bytes were written.
fn hand_on<W: Sink>(bytes: &[u8], sink: &mut W) -> (usize, Result<(), Stop>)
    ensures bound { result.0 ≤ length bytes.now }
    ensures all { OnOk result.1 (result.0 ≡ length bytes.now) }
    ensures bytes { Appends (W.contents sink.old) (W.contents sink.new) (take result.0 bytes.now) }
    ensures failed { W.failed sink.new ≡ (W.failed sink.old || is_err result.1) }
    ensures stop { IfErr result.1 (λ stop. stop ≡ Stop.Write) }
{
    let mut written = 0;
    while written < bytes.len() {
        match sink.write(&bytes[written..]) {
            Ok(0) => return (written, Err(Stop::Write)),
            Ok(n) => written += n,
            Err(_) => return (written, Err(Stop::Write)),
        }
    }
    (written, Ok(()))
}

impl<W: Sink + Drop> Answers<W> {
    /// A sink to which no answer was written yet.
    pub fn new(alloc: Global, sink: W) -> Answers<W>
        ensures { result ≡ record { sink = sink; waiting = [] } }
    {
        Answers {
            alloc,
            sink,
            waiting: Vec::new(alloc),
        }
    }

    /// The sink. Answers that wait are let go.
    pub fn into_sink(self) -> W
        ensures { result ≡ self.sink }
    {
        let Answers {
            alloc: _,
            sink,
            waiting: _waiting,
        } = self;
        sink
    }

    /// Lets go what was written, and a large room with it.
    fn forget(&mut self, written: usize)
        requires { written ≤ length self.old.waiting }
        ensures { self.new ≡ record self.old { waiting = drop written self.old.waiting } }
    {
        if written == self.waiting.len() {
            self.waiting.clear();
            if self.waiting.capacity() > LARGE {
                self.waiting = Vec::new(self.alloc);
            }
        } else {
            let left = self.waiting.len() - written;
            self.waiting.copy_within(written.., 0);
            self.waiting.truncate(left);
        }
    }

    /// Writes the answers that wait.
    ///
    /// # Errors
    /// A write failed. What it left still waits.
    pub fn send(&mut self) -> Result<(), Stop>
        ensures sent { OnOk result (self.new.waiting ≡ []) }
        ensures serves { Serves W.Sink self.old self.new (is_write result) }
        ensures stop { IfErr result (λ stop. stop ≡ Stop.Write) }
    {
        if self.waiting.is_empty() {
            return Ok(());
        }
        let (written, result) = hand_on(&self.waiting, &mut self.sink);
        self.forget(written);
        if result.is_err() {
            return Err(Stop::Write);
        }
        match self.sink.flush() {
            Ok(()) => Ok(()),
            Err(_) => Err(Stop::Write),
        }
    }

    /// Answers with a text and what is told of it, and writes what waits if it is much.
    ///
    /// # Errors
    /// Out of memory, or a write failed.
    pub fn answer(&mut self, text: &[u8], told: &[u8]) -> Result<(), Stop>
        ensures answered { HasAnswered W.Sink text.now told.now self.old self.new result }
        ensures hands { Hands W.Sink self.old self.new (is_write result) }
    {
        let len = self.waiting.len();
        if write_answer(&mut self.waiting, text, told).is_err() {
            self.waiting.truncate(len);
            return Err(Stop::Memory);
        }
        if self.waiting.len() < BLOCK {
            return Ok(());
        }
        self.send()
    }
}
