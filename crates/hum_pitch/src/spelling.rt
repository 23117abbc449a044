//! Pitches as text.
ghost use Rattle.std.specs.Prelude.{◌≡◌, ◌≤◌, ◌++◌, OnOk, IfOk, replicate, Some};
ghost use Rattle.hum_pitch.specs.Given.{spelled};
ghost use Rattle.hum_pitch.specs.Spelling.{letters_of, accidentals, spelling, read_pitch};

use crate::pitch::Pitch;
use std::alloc::{AllocError, Global};

/// A byte, and how often it is written.
#[derive(Clone, Copy)]
pub struct Repeated {
    /// The byte.
    pub byte: u8,
    /// How often it is written.
    pub count: usize,
}

impl Repeated {
    /// A byte so many times.
    pub(crate) fn times(count: usize, byte: u8) -> Repeated
        ensures { result ≡ record { byte = byte; count = count } }
    {
        Repeated { byte, count }
    }
}

/// The letters of a pitch.
pub fn letters(pitch: Pitch) -> Repeated
    ensures exact { replicate result.count result.byte ≡ letters_of (spelled pitch) }
    ensures few { result.count ≤ 8 }
{
    let step = usize::from(pitch.step);
    if pitch.octave >= 4 {
        Repeated {
            byte: b"cdefgab"[step],
            count: (pitch.octave - 3) as usize,
        }
    } else {
        Repeated {
            byte: b"CDEFGAB"[step],
            count: (4 - pitch.octave) as usize,
        }
    }
}

/// The accidentals of a pitch.
pub fn accidentals(pitch: Pitch) -> Repeated
    ensures exact { replicate result.count result.byte ≡ accidentals pitch.alteration }
    ensures few { result.count ≤ 7 }
{
    if pitch.alteration >= 0 {
        Repeated {
            byte: b'#',
            count: pitch.alteration as usize,
        }
    } else {
        Repeated {
            byte: b'-',
            count: (0 - pitch.alteration) as usize,
        }
    }
}

/// Adds a byte some times, mostly twice at most.
pub(crate) fn push_repeated(text: &mut Vec<u8>, repeated: Repeated) -> Result<(), AllocError>
    requires { repeated.count ≤ 1000 }
    ensures { OnOk result (text.new.items
        ≡ text.old.items ++ replicate repeated.count repeated.byte) }
{
    match repeated.count {
        0 => Ok(()),
        1 => {
            text.push(repeated.byte)?;
            Ok(())
        }
        2 => text.extend_from_slice(&[repeated.byte, repeated.byte]),
        count => text.resize(text.len() + count, repeated.byte),
    }
}

/// Adds a pitch to a text, as it is written in `**kern`, without the sign of a natural. What is written
/// is read again as the same pitch.
///
/// # Errors
/// Out of memory.
pub fn push_pitch(text: &mut Vec<u8>, pitch: Pitch) -> Result<(), AllocError>
    ensures written { OnOk result (text.new.items ≡ text.old.items ++ spelling (spelled pitch)) }
    ensures read { OnOk result (read_pitch (spelling (spelled pitch)) ≡ Some (spelled pitch)) }
{
    push_repeated(text, letters(pitch))?;
    push_repeated(text, accidentals(pitch))
}

/// A pitch as a text of its own.
///
/// # Errors
/// Out of memory.
pub fn write_pitch(alloc: Global, pitch: Pitch) -> Result<Vec<u8>, AllocError>
    ensures written { IfOk result (λ text. text.items ≡ spelling (spelled pitch)) }
    ensures read { IfOk result (λ text. read_pitch text.items ≡ Some (spelled pitch)) }
{
    let mut text = Vec::new(alloc);
    push_pitch(&mut text, pitch)?;
    Ok(text)
}
