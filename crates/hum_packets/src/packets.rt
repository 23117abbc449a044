//! Packets that are read.
ghost use Rattle.std.specs.Prelude.{◌≡◌, ◌+◌, ◌*◌, ◌<◌, ◌≤◌, [], length, take, drop, true};
ghost use Rattle.std.specs.Prelude.{IfOk, IfErr, OnErr, IfSome, slice_range, vec_len};
ghost use Rattle.std.specs.Io.KnownBytes.{Keeps, Consumes, IsAtEnd};
ghost use Rattle.hum_packets.specs.Packets.{digit_of, pair_of, joined, size_by, size_at};
ghost use Rattle.hum_packets.specs.Lists.{Stops};
ghost use Rattle.hum_packets.specs.Streams.{coming, further, Is, Lost, Serves, is_write};
ghost use Rattle.hum_packets.specs.Held.{HoldsPacket, IsFed, Fed, Begins, LostAhead, TookOne};

use crate::answers::Answers;
use crate::stop::Stop;
use hum_text::calls::{LARGEST_READ, Sink, Source};
use std::alloc::{AllocError, Global};
use std::marker::Model;

/// How many digits stand in front of a packet.
const DIGITS: usize = 4;

/// How long a packet may be, its digits included.
const LONGEST: usize = 65_520;

/// How many bytes are held at most.
const ROOM: usize = 131_072;

/// The packets of a source.
#[derive(Drop)]
pub struct Packets<R: Source + Drop> {
    source: R,
    room: Vec<u8>,
    // where the last packet's data begin, and where what was read and not handed out begins and ends
    from: usize,
    start: usize,
    end: usize,
    passed: u64,
}

impl<R: Source + Drop> Model for Packets<R> {
    ghost use Rattle.std.specs.Prelude.{◌≡◌, ◌≤◌, slice_range, vec_len};
    ghost use Rattle.hum_packets.specs.declared.packets.TheConstants.{ROOM};
    ghost use Rattle.hum_packets.specs.Streams.{Reading};

    ghost Value = { Reading R };

    ghost view = { λ p. record {
      source = p.source;
      last = slice_range p.room.items p.from p.start;
      pending = slice_range p.room.items p.start p.end;
      passed = p.passed;
    } };

    ghost invariant = { λ p. (p.from ≤ p.start) × (p.start ≤ p.end) × (p.end ≤ ROOM) × (vec_len p.room ≡ ROOM) };
}

/// The digit that a byte writes.
fn digit(byte: u8) -> Option<u16>
    ensures is { result ≡ digit_of byte }
    ensures small { IfSome result (λ digit. digit < 16) }
{
    match byte {
        b'0'..=b'9' => Some((byte - b'0') as u16),
        b'a'..=b'f' => Some((byte - b'a') as u16 + 10),
        b'A'..=b'F' => Some((byte - b'A') as u16 + 10),
        _ => None,
    }
}

/// The number that two bytes write.
fn pair(a: u8, b: u8) -> Option<u16>
    ensures is { result ≡ pair_of a b }
    ensures small { IfSome result (λ number. number < 256) }
{
    let Some(high) = digit(a) else {
        return None;
    };
    let Some(low) = digit(b) else {
        return None;
    };
    Some(high * 16 + low)
}

/// The number that four bytes write.
fn number(a: u8, b: u8, c: u8, d: u8) -> Option<u16>
    ensures { result ≡ joined 256 (pair_of a b) (pair_of c d) }
{
    let Some(high) = pair(a, b) else {
        return None;
    };
    let Some(low) = pair(c, d) else {
        return None;
    };
    Some(high * 256 + low)
}

/// A size, where a number is one.
fn size_by(number: Option<u16>) -> Option<usize>
    ensures is { result ≡ size_by number }
    ensures small { IfSome result (λ size. size ≤ LONGEST) }
{
    let size = number? as usize;
    if size == 0 || (size >= DIGITS && size <= LONGEST) {
        Some(size)
    } else {
        None
    }
}

/// The size that the first four of some bytes write.
#[tactic(auto, unfolding(crate::specs::Packets::size_at), using(crate::proofs::Fronts::size_at_short, crate::proofs::Fronts::size_at_four))]
fn size_at(bytes: &[u8]) -> Option<usize>
    ensures is { result ≡ size_at bytes.now }
    ensures small { IfSome result (λ size. size ≤ LONGEST) }
{
    match bytes {
        [a, b, c, d, ..] => size_by(number(*a, *b, *c, *d)),
        _ => None,
    }
}

/// Reads once, when no answer waits. This is the only read.
fn read_once<R: Source, W: Sink + Drop>(
    source: &mut R,
    room: &mut Vec<u8>,
    end: usize,
    answers: &Answers<W>,
) -> Result<usize, Stop>
    requires sent { answers.now.waiting ≡ [] }
    requires room { end + LARGEST_READ ≤ vec_len room.old }
    ensures within { IfOk result (λ n. end + n ≤ vec_len room.new) }
    ensures front { take end room.new.items ≡ take end room.old.items }
    ensures len { vec_len room.new ≡ vec_len room.old }
    ensures read { IfOk result (λ n. Consumes (R.remaining source.old) (R.remaining source.new)
        (slice_range room.new.items end (end + n))) }
    ensures end { IfOk result (λ n. n ≡ 0 → IsAtEnd (R.remaining source.new)) }
    ensures err { OnErr result (Keeps (R.remaining source.old) (R.remaining source.new)) }
    ensures stop { IfErr result (λ stop. stop ≡ Stop.Read) }
    ensures failed { OnErr result (R.failed source.new ≡ true) }
{
    match source.read(&mut room[end..end + LARGEST_READ]) {
        Ok(n) => Ok(n),
        Err(_) => Err(Stop::Read),
    }
}

impl<R: Source + Drop> Packets<R> {
    /// The packets of a source of which nothing was read yet.
    ///
    /// # Errors
    /// Out of memory.
    pub fn new(alloc: Global, source: R) -> Result<Packets<R>, AllocError>
        ensures { IfOk result (λ packets. packets ≡ record {
          source = source;
          last = [];
          pending = [];
          passed = 0;
        }) }
    {
        let room = vec![in alloc; 0; ROOM]?;
        Ok(Packets {
            source,
            room,
            from: 0,
            start: 0,
            end: 0,
            passed: 0,
        })
    }

    /// The data of the last packet.
    pub fn last(&self) -> &[u8]
        ensures { result.now ≡ self.now.last }
    {
        &self.room[self.from..self.start]
    }

    /// How many bytes were handed out: where the next packet stands.
    pub fn passed(&self) -> u64
        ensures { result ≡ self.now.passed }
    {
        self.passed
    }

    /// What was read and not handed out.
    fn pending(&self) -> &[u8]
        ensures { result.now ≡ self.now.pending }
    {
        &self.room[self.start..self.end]
    }

    /// Reads once, and tells whether that gave bytes.
    fn fill<W: Sink + Drop>(&mut self, answers: &Answers<W>) -> Result<bool, Stop>
        requires sent { answers.now.waiting ≡ [] }
        requires few { length self.old.pending ≤ LONGEST }
        ensures fed { IsFed R.Source self.old self.new }
        ensures more { IfOk result (λ some. Fed R.Source (length self.old.pending + 1) self.new (Ok some)) }
        ensures stop { IfErr result (λ stop. stop ≡ Stop.Read) }
        ensures same { OnErr result (self.new.pending ≡ self.old.pending) }
        ensures failed { OnErr result (R.failed self.new.source ≡ true) }
    {
        self.room.copy_within(self.start..self.end, 0);
        self.end -= self.start;
        self.start = 0;
        self.from = 0;
        let n = read_once(&mut self.source, &mut self.room, self.end, answers)?;
        self.end += n;
        Ok(n > 0)
    }

    /// Reads until so many bytes are pending, and tells whether they are.
    fn hold<W: Sink + Drop>(&mut self, len: usize, answers: &mut Answers<W>) -> Result<bool, Stop>
        requires { len ≤ LONGEST }
        ensures fed { IsFed R.Source self.old self.new }
        ensures held { Fed R.Source len self.new result }
        ensures serves { Serves W.Sink answers.old answers.new (is_write result) }
    {
        while self.pending().len() < len {
            answers.send()?;
            if !self.fill(answers)? {
                return Ok(false);
            }
        }
        Ok(true)
    }

    /// Tells whether the input ends here.
    ///
    /// # Errors
    /// A read or a write failed.
    pub fn is_at_end<W: Sink + Drop>(&mut self, answers: &mut Answers<W>) -> Result<bool, Stop>
        ensures fed { IsFed R.Source self.old self.new }
        ensures end { IfOk result (λ end. Begins R.Source end self.new) }
        ensures lost { IfErr result (LostAhead R.Source self.old) }
        ensures serves { Serves W.Sink answers.old answers.new (is_write result) }
    {
        Ok(!self.hold(1, answers)?)
    }

    /// Reads until a packet is pending, or the end of a list, and tells its size.
    fn hold_packet<W: Sink + Drop>(&mut self, answers: &mut Answers<W>) -> Result<usize, Stop>
        ensures fed { IsFed R.Source self.old self.new }
        ensures held { IfOk result (HoldsPacket self.new.pending) }
        ensures lost { IfErr result (Lost R.Source Stops self.new) }
        ensures serves { Serves W.Sink answers.old answers.new (is_write result) }
    {
        if !self.hold(DIGITS, answers)? {
            return Err(Stop::Broken(self.passed));
        }
        let Some(size) = size_at(self.pending()) else {
            return Err(Stop::Broken(self.passed));
        };
        if !self.hold(size, answers)? {
            return Err(Stop::Broken(self.passed));
        }
        Ok(size)
    }

    /// Hands out so many bytes.
    fn pass(&mut self, size: usize)
        requires digits { 4 ≤ size }
        requires held { size ≤ length self.old.pending }
        ensures { self.new ≡ record self.old {
          last = drop 4 (take size self.old.pending);
          pending = drop size self.old.pending;
          passed = further self.old.passed size;
        } }
    {
        self.from = self.start + DIGITS;
        self.start += size;
        self.passed = self.passed.saturating_add(size as u64);
    }

    /// Hands out the next packet, or the end of its list: whether it is a packet.
    ///
    /// # Errors
    /// There is neither, or a read or a write failed.
    pub fn next<W: Sink + Drop>(&mut self, answers: &mut Answers<W>) -> Result<bool, Stop>
        ensures took { IfOk result (λ is_packet. TookOne R.Source is_packet self.old self.new) }
        ensures lost { IfErr result (Lost R.Source Stops self.old) }
        ensures serves { Serves W.Sink answers.old answers.new (is_write result) }
    {
        let size = self.hold_packet(answers)?;
        if size == 0 {
            self.pass(DIGITS);
            return Ok(false);
        }
        self.pass(size);
        Ok(true)
    }
}
