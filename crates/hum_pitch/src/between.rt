//! What lies between two pitches.
ghost use Rattle.std.specs.Prelude.{◌≡◌, ◌-ℤ◌};
ghost use Rattle.hum_pitch.specs.Pitch.{IsAway, step_number, semitones};
ghost use Rattle.hum_pitch.specs.Given.{spelled};

use crate::intervals::Interval;
use crate::pitch::Pitch;

/// The interval from one pitch to another.
pub fn interval(from: Pitch, to: Pitch) -> Interval
    ensures steps { result.d ≡ step_number (spelled to) -ℤ step_number (spelled from) }
    ensures semitones { result.s ≡ semitones (spelled to) -ℤ semitones (spelled from) }
    ensures apart { IsAway result.d result.s (spelled from) (spelled to) }
{
    Interval {
        d: to.step_number() - from.step_number(),
        s: to.semits() - from.semits(),
    }
}
