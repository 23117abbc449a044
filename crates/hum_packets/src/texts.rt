//! Texts that are read: the data of a list's packets, one behind the other.
ghost use Rattle.std.specs.Prelude.{◌≡◌, ◌≤◌, ◌++◌, ℕ, List, length, OnOk, IfOk, IfErr};
ghost use Rattle.hum_packets.specs.Lists.{StopsInList};
ghost use Rattle.hum_packets.specs.Streams.{Holds, Lost, Serves, is_write};
ghost use Rattle.hum_packets.specs.Texts.{IsHeld};

use crate::answers::Answers;
use crate::packets::Packets;
use crate::stop::Stop;
use hum_text::calls::{Sink, Source};
use std::alloc::Global;

/// The first bytes of a text, and whether they are all.
#[derive(Drop)]
pub struct Text {
    pub bytes: Vec<u8>,
    pub is_whole: bool,
}

/// Adds bytes to those of which so many are held at most.
fn hold(text: &mut Text, bytes: &[u8], most: usize) -> Result<(), Stop>
    ensures held { OnOk result ((all : List ℕ) → Holds most all text.old.bytes.items text.old.is_whole
        → Holds most (all ++ bytes.now) text.new.bytes.items text.new.is_whole) }
    ensures stop { IfErr result (λ stop. stop ≡ Stop.Memory) }
{
    let room = most.saturating_sub(text.bytes.len());
    let held = bytes.len().min(room);
    if text.bytes.extend_from_slice(&bytes[..held]).is_err() {
        return Err(Stop::Memory);
    }
    text.is_whole = text.is_whole && held == bytes.len();
    Ok(())
}

/// Reads the data of a list's packets, and holds the first so many bytes.
///
/// # Errors
/// The list doesn't end, a read or a write failed, or memory ran out.
pub fn read_text<R: Source + Drop, W: Sink + Drop>(
    alloc: Global,
    packets: &mut Packets<R>,
    answers: &mut Answers<W>,
    most: usize,
) -> Result<Text, Stop>
    ensures took { IfOk result (λ text. IsHeld R.Source most packets.old packets.new text.bytes.items text.is_whole) }
    ensures lost { IfErr result (Lost R.Source StopsInList packets.old) }
    ensures serves { Serves W.Sink answers.old answers.new (is_write result) }
{
    let mut text = Text {
        bytes: Vec::new(alloc),
        is_whole: true,
    };
    for _ in 0..u64::MAX {
        if !packets.next(answers)? {
            return Ok(text);
        }
        hold(&mut text, packets.last(), most)?;
    }
    Err(Stop::Memory)
}
