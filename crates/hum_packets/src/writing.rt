//! Lists of packets, written behind one another.
ghost use Rattle.std.specs.Prelude.{◌≡◌, ◌+◌, ◌<◌, ◌≤◌, ◌++◌, length, OnOk, OnErr, ℕ, List};
ghost use Rattle.std.specs.Io.{StartsWith};
ghost use Rattle.hum_packets.specs.Packets.{hex, digits, packet_of, list_of};
ghost use Rattle.hum_packets.specs.Lists.{IsCut};
ghost use Rattle.hum_packets.specs.Streams.{IsAnswer};

use std::alloc::AllocError;

/// How many bytes a packet's data may be.
const MOST: usize = 65_516;

/// The byte that writes a digit.
fn hex_digit(digit: u16) -> u8
    requires { digit < 16 }
    ensures { result ≡ hex digit }
{
    if digit < 10 {
        48 + digit as u8
    } else {
        87 + digit as u8
    }
}

/// The four digits of a number.
#[tactic(auto, unfolding(crate::specs::Packets::digits))]
fn size_digits(size: u16) -> [u8; 4]
    ensures { result ≡ digits size }
{
    [
        hex_digit(size / 4096 % 16),
        hex_digit(size / 256 % 16),
        hex_digit(size / 16 % 16),
        hex_digit(size % 16),
    ]
}

/// Adds a packet of these bytes.
fn write_packet(out: &mut Vec<u8>, bytes: &[u8]) -> Result<(), AllocError>
    requires { length bytes.now ≤ MOST }
    ensures ok { OnOk result (out.new.items ≡ out.old.items ++ packet_of bytes.now) }
    ensures err { StartsWith out.new.items out.old.items }
{
    out.extend_from_slice(&size_digits(bytes.len() as u16 + 4))?;
    out.extend_from_slice(bytes)
}

/// Adds a list of packets whose bytes, one behind the other, are these.
fn write_list(out: &mut Vec<u8>, bytes: &[u8]) -> Result<(), AllocError>
    ensures ok { OnOk result ((packets : List (List ℕ)) × IsCut bytes.now packets
        × (out.new.items ≡ out.old.items ++ list_of packets)) }
    ensures err { StartsWith out.new.items out.old.items }
{
    let mut rest = bytes;
    while !rest.is_empty() {
        let (packet, more) = rest.split_at(rest.len().min(MOST));
        write_packet(out, packet)?;
        rest = more;
    }
    out.extend_from_slice(b"0000")
}

/// Adds an answer: a list with a text, and one with what is told of it.
pub(crate) fn write_answer(out: &mut Vec<u8>, text: &[u8], told: &[u8]) -> Result<(), AllocError>
    ensures ok { OnOk result ((answer : List ℕ) × IsAnswer text.now told.now answer
        × (out.new.items ≡ out.old.items ++ answer)) }
    ensures err { StartsWith out.new.items out.old.items }
{
    write_list(out, text)?;
    write_list(out, told)
}
