//! Pitches by their spelling, as numbers.
ghost use Rattle.std.specs.Prelude.{◌≡◌, ◌<◌, ◌≤◌, pos, negsuc, ◌+ℤ◌, ◌-ℤ◌, ◌*ℤ◌, ◌≤ℤ◌};
ghost use Rattle.std.specs.Prelude.{MatchBool};
ghost use Rattle.hum_pitch.specs.Pitch.{IsPitch, IsWithin, IsOutside, IsAway};
ghost use Rattle.hum_pitch.specs.Pitch.{natural, natural_at, semitones, step_number, away};

use thiserror::Error;

/// Why a transposed pitch has no spelling.
#[derive(Clone, Copy, Debug, PartialEq, Eq, Error)]
pub enum PitchFault {
    /// It would need over seven sharps or flats.
    #[error("TR1: a transposed pitch would need over seven sharps or flats")]
    TR1,
    /// Its octave would be below -4 or above 11.
    #[error("TR2: a transposed pitch would be in an octave below -4 or above 11")]
    TR2,
}

/// A pitch by its spelling.
#[derive(Clone, Copy)]
pub struct Pitch {
    /// The diatonic step, 0 to 6: c, d, e, f, g, a, b.
    pub step: u8,
    /// The octave, -4 to 11. Middle c is in octave 4.
    pub octave: i8,
    /// The alteration in semitones, -7 to 7: sharps are positive, flats negative.
    pub alteration: i8,
    pub ghost in_range: { IsPitch step octave alteration },
}

/// A note by its spelling, whether it has one within the limits or not.
#[derive(Clone, Copy)]
struct SpelledNote {
    step: u32,
    octave: i32,
    alteration: i32,
}

/// The semitones from c up to each step above it.
const NATURALS: [u8; 7] = [0, 2, 4, 5, 7, 9, 11];

/// Whether a number is neither below one limit nor above another.
fn is_within(low: i32, number: i32, high: i32) -> bool
    ensures { MatchBool result (IsWithin low number high) (IsOutside low number high) }
{
    (low..=high).contains(&number)
}

/// The semitones from c up to a step above it.
#[tactic(auto, using(crate::proofs::Steps::natural_le), unfolding(crate::specs::Pitch::natural))]
fn natural(step: u32) -> u8
    requires { step < 7 }
    ensures exact { result ≡ natural step }
    ensures small { result ≤ 11 }
{
    NATURALS[step as usize]
}

/// The semitones from middle c up to a natural note.
fn natural_semits(octave: i32, step: u32) -> i32
    requires step { step < 7 }
    requires octave { IsWithin (negsuc 99) octave (pos 100) }
    ensures exact { result ≡ (pos 12 *ℤ (octave -ℤ pos 4)) +ℤ pos (natural step) }
    ensures bounded { IsWithin (negsuc 1299) result (pos 1299) }
    ensures above { (pos 12 *ℤ octave) ≤ℤ (result +ℤ pos 48) }
    ensures under { (result +ℤ pos 37) ≤ℤ (pos 12 *ℤ octave) }
{
    12 * (octave - 4) + i32::from(natural(step))
}

/// The octave and the step of a step number.
fn natural_at(number: i32) -> (i32, u32)
    requires { IsWithin (negsuc 76) number (pos 200) }
    ensures octave { result.0 ≡ (natural_at number).octave }
    ensures step { result.1 ≡ (natural_at number).step }
    ensures below { result.1 < 7 }
    ensures number { (pos 7 *ℤ result.0) +ℤ pos result.1 ≡ number }
{
    let above = (number + 77) as u32;
    // A seventh of a number below 680 is found by a product, which costs less than a division.
    let octaves = above * 293 / 2048;
    (octaves as i32 - 11, above - 7 * octaves)
}

impl SpelledNote {
    ghost use Rattle.hum_pitch.specs.Given.{noted, Answers};

    /// The pitch, if it can be spelled.
    fn spelled(self) -> Result<Pitch, PitchFault>
        requires { self.step < 7 }
        ensures { Answers (noted self) result }
    {
        if !is_within(-7, self.alteration, 7) {
            return Err(PitchFault::TR1);
        }
        if !is_within(-4, self.octave, 11) {
            return Err(PitchFault::TR2);
        }
        Ok(Pitch {
            step: self.step as u8,
            octave: self.octave as i8,
            alteration: self.alteration as i8,
        })
    }
}

impl Pitch {
    ghost use Rattle.std.specs.Prelude.{IfOk, IfErr};
    ghost use Rattle.hum_pitch.specs.declared.pitch.Pitch.{Pitch};
    ghost use Rattle.hum_pitch.specs.Given.{spelled, noted, Answers};

    /// The number of its step, counted from the c of octave 0.
    pub(crate) fn step_number(self) -> i32
        ensures exact { result ≡ step_number (spelled self) }
        ensures in_range { IsWithin (negsuc 27) result (pos 83) }
    {
        7 * i32::from(self.octave) + i32::from(self.step)
    }

    /// The semitones above middle c, which is 0; below it they are negative.
    pub fn semits(self) -> i32
        ensures exact { result ≡ semitones (spelled self) }
        ensures in_range { IsWithin (negsuc 102) result (pos 102) }
    {
        natural_semits(i32::from(self.octave), u32::from(self.step)) + i32::from(self.alteration)
    }

    /// The note that is some steps and some semitones away, whether it can be spelled or not.
    fn away(self, steps: i32, semitones: i32) -> SpelledNote
        requires steps { IsWithin (negsuc 48) steps (pos 49) }
        requires semitones { IsWithin (negsuc 83) semitones (pos 84) }
        ensures exact { noted result ≡ away steps semitones (spelled self) }
        ensures below { result.step < 7 }
    {
        let (octave, step) = natural_at(self.step_number() + steps);
        let alteration = self.semits() + semitones - natural_semits(octave, step);
        SpelledNote {
            step,
            octave,
            alteration,
        }
    }

    /// The pitch that is some diatonic steps and some semitones higher (lower, where they are
    /// negative).
    ///
    /// # Errors
    /// [`PitchFault::TR1`] and [`PitchFault::TR2`], the first of them where both hold.
    pub fn transpose(self, steps: i32, semitones: i32) -> Result<Pitch, PitchFault>
        requires steps { IsWithin (negsuc 48) steps (pos 49) }
        requires semitones { IsWithin (negsuc 83) semitones (pos 84) }
        ensures exact { Answers (away steps semitones (spelled self)) result }
        ensures apart { IfOk result (λ q. IsAway steps semitones (spelled self) (spelled q)) }
        ensures none { IfErr result (λ _. (q : Pitch) →
            ¬ IsAway steps semitones (spelled self) (spelled q)) }
    {
        self.away(steps, semitones).spelled()
    }
}
