//! Pitches and marks.

ghost use Rattle.std.specs.Prelude.{◌≡◌, ◌<◌, ◌≤◌, ◌+◌, ◌^◌, length, true, Ok, Some, []};
ghost use Rattle.std.specs.Prelude.{IfOk, ◌==◌, ◌∷◌, ◌||◌, not, nat_lt};
ghost use Rattle.std.specs.List.{list_any, list_all};
ghost use Rattle.hum_pitch.specs.Given.{spelled};
ghost use Rattle.hum_pitch.specs.Pitch.{IsOctave, IsAlteration};
ghost use Rattle.hum_pitch.specs.Spelling.{read_letters, natural_note, spelling};
ghost use Rattle.hum_pitch.specs.declared.pitch.Pitch.{Pitch as PitchValue};
ghost use Rattle.hum_kern.specs.Classes.{is_letter};
ghost use Rattle.hum_kern.specs.Note.{Notation, is_uniform, alteration_of, notation};
ghost use Rattle.hum_kern.specs.Note.{marks_of, with_pitch, pitched, note_by, note};
ghost use Rattle.hum_kern.specs.Note.{reading, reading_in};
ghost use Rattle.hum_kern.specs.NoteParts.{AreNoteParts, SaysNote, IsRead, CanBeReplaced};
ghost use Rattle.hum_kern.specs.Lasting.{KeepsDuration};

use crate::KernFault;
use crate::runs::{Class, is_letter, split_run};
use crate::usual::read_lone;
use hum_pitch::Pitch;

/// What a subtoken says of its pitch, and the marks that it bears.
#[derive(Clone, Copy)]
pub struct Note {
    /// The pitch. A rest has none, nor has a subtoken without a letter of pitches.
    pub pitch: Option<Pitch>,
    /// How many bytes stand before the pitch; 0 where there is none.
    pub start: usize,
    /// Where the pitch with its accidentals ends; 0 where there is none.
    pub end: usize,
    /// Whether it is a rest: it holds `r`.
    pub rest: bool,
    /// Whether it is a grace note: it holds `q` or `Q`.
    pub grace: bool,
    /// Whether it goes on or ends a tie: it holds `_` or `]`.
    pub continued: bool,
}

/// A natural note: its step and its octave.
#[derive(Clone, Copy)]
pub(crate) struct NaturalNote {
    pub(crate) step: u8,
    pub(crate) octave: i8,
}

/// The steps of the letters from a on, by the rests of the bytes by 8: 1 for `a` and `A`, up to 7.
const STEPS: [u8; 8] = [0, 5, 6, 0, 1, 2, 3, 4];

fn all_are(bytes: &[u8], byte: u8) -> bool
    ensures { result ≡ list_all (λ x. x == byte) bytes.now }
{
    bytes.iter().all(|b| *b == byte)
}

fn is_uniform(bytes: &[u8]) -> bool
    ensures { result ≡ is_uniform bytes.now }
{
    match bytes {
        [first, rest @ ..] => all_are(rest, *first),
        [] => true,
    }
}

fn has_letter(bytes: &[u8]) -> bool
    ensures { result ≡ list_any is_letter bytes.now }
{
    bytes.iter().any(|b| is_letter(*b))
}

/// Whether what stands behind the letters leaves the pitch open.
fn is_doubtful(signs: &[u8], left: &[u8]) -> bool
    ensures { result ≡ (list_any is_letter left.now || not (is_uniform signs.now)) }
{
    has_letter(left) || !is_uniform(signs)
}

/// Whether so many letters or so many signs are more than a pitch has.
fn is_excessive(letters: usize, signs: usize) -> bool
    ensures { result ≡ (nat_lt 8 letters || nat_lt 7 signs) }
{
    letters > 8 || signs > 7
}

/// The alteration by signs that are all the same.
fn alteration(signs: &[u8]) -> i8
    requires { length signs.now ≤ 7 }
    ensures exact { result ≡ alteration_of signs.now }
    ensures in_range { IsAlteration result }
{
    match signs {
        [b'#', ..] => signs.len() as i8,
        [b'-', ..] => 0 - (signs.len() as i8),
        _ => 0,
    }
}

/// The natural note of a letter that stands so many times.
pub(crate) fn natural(letter: u8, count: usize) -> NaturalNote
    requires letter { is_letter letter ≡ true }
    requires some { 0 < count }
    requires few { count ≤ 8 }
    ensures exact { read_letters letter count ≡ Some (natural_note result.step result.octave) }
    ensures step { result.step < 7 }
    ensures octave { IsOctave result.octave }
{
    if letter >= b'a' {
        NaturalNote {
            step: STEPS[(letter % 8) as usize],
            octave: 3 + count as i8,
        }
    } else {
        NaturalNote {
            step: STEPS[(letter % 8) as usize],
            octave: 4 - count as i8,
        }
    }
}

/// What a subtoken with these marks says by its first letter of pitches and what stands behind.
fn read_pitch(marks: Note, before: &[u8], letter: u8, rest: &[u8]) -> Result<Note, KernFault>
    requires fits { length before.now + 1 + length rest.now < 2 ^ 64 }
    requires letter { is_letter letter ≡ true }
    ensures { reading_in result
        ≡ pitched (reading marks) (notation before.now (letter ∷ rest.now)) }
{
    let (more, behind) = split_run(rest, Class::Repeat(letter));
    let (signs, left) = split_run(behind, Class::Sign);
    if is_doubtful(signs, left) {
        return Err(KernFault::K1);
    }
    let letters = more.len() + 1;
    if is_excessive(letters, signs.len()) {
        return Err(KernFault::K2);
    }
    let note = natural(letter, letters);
    Ok(Note {
        pitch: Some(Pitch {
            step: note.step,
            octave: note.octave,
            alteration: alteration(signs),
        }),
        start: before.len(),
        end: before.len() + letters + signs.len(),
        ..marks
    })
}

/// The marks of a subtoken.
fn marks(bytes: &[u8]) -> Note
    ensures { reading result ≡ marks_of bytes.now }
{
    let mut rest = false;
    let mut grace = false;
    let mut continued = false;
    for b in bytes {
        rest |= *b == b'r';
        grace |= *b == b'q' || *b == b'Q';
        continued |= *b == b'_' || *b == b']';
    }
    Note {
        pitch: None,
        start: 0,
        end: 0,
        rest,
        grace,
        continued,
    }
}

/// What a subtoken says, whatever it holds.
fn read_any(bytes: &[u8]) -> Result<Note, KernFault>
    ensures { reading_in result ≡ note bytes.now }
{
    let marks = marks(bytes);
    if marks.rest {
        return Ok(marks);
    }
    let (before, rest) = split_run(bytes, Class::NoLetter);
    match rest {
        [letter, behind @ ..] => read_pitch(marks, before, *letter, behind),
        [] => Ok(marks),
    }
}

#[inline(always)]
fn read_subtoken(bytes: &[u8]) -> Result<Note, KernFault>
    ensures { reading_in result ≡ note bytes.now }
{
    match read_lone(bytes) {
        Some(note) => Ok(note),
        None => read_any(bytes),
    }
}

/// The pitch of a subtoken and its marks. A rest, which holds `r`, has no pitch, whatever else it
/// holds. Else the pitch is the one run of a repeated letter (`a` to `g` or `A` to `G`), with the
/// run of `#`, `-` or `n` directly behind it: `c` is middle c, `cc` the c an octave higher, `C` an
/// octave lower, `CC` two; each `#` raises it by a semitone, each `-` lowers it by one, and `n`
/// leaves it natural.
///
/// # Errors
/// K1: two runs of letters, or different bytes in the accidental. K2: over 8 letters or over 7
/// bytes of the accidental. Where both hold it is K1.
#[inline(always)]
pub fn read_note(bytes: &[u8]) -> Result<Note, KernFault>
    ensures read { reading_in result ≡ note bytes.now }
    ensures says { SaysNote bytes.now (reading_in result) }
    // There is one way alone to cut the text into such parts.
    ensures alone { (parts : Notation) → AreNoteParts bytes.now parts
        → reading_in result ≡ note_by bytes.now parts }
    ensures within { IfOk result (λ found.
        (found.start ≤ found.end) × (found.end ≤ length bytes.now)) }
    ensures text { IfOk result (IsRead bytes.now) }
    ensures replaced { IfOk result (CanBeReplaced bytes.now) }
    ensures keeps_duration { IfOk result (KeepsDuration bytes.now) }
    // A pitch that is written is read as that pitch, and nothing else.
    ensures written { (pitch : PitchValue) → bytes.now ≡ spelling (spelled pitch)
        → reading_in result ≡ Ok (with_pitch (marks_of []) (Some (spelled pitch)) 0 (length bytes.now)) }
{
    read_subtoken(bytes)
}
