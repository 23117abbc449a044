//! Intervals and pitches.
ghost use Rattle.std.specs.Prelude.{◌≡◌, ◌+ℤ◌, ◌-ℤ◌, pos, negsuc, MatchResult};
ghost use Rattle.hum_pitch.specs.Pitch.{IsAway, IsWithin, semitones, step_number};
ghost use Rattle.hum_pitch.specs.Given.{spelled};

use hum_pitch::{Interval, Pitch, PitchFault, interval};

/// Intervals add up: that from one pitch to another, and that from there to a third, are together
/// that from the first to the third.
pub fn intervals_add_up(from: Pitch, by: Pitch, to: Pitch) -> (Interval, Interval, Interval)
    ensures first { IsAway result.0.d result.0.s (spelled from) (spelled by) }
    ensures second { IsAway result.1.d result.1.s (spelled by) (spelled to) }
    ensures whole { IsAway result.2.d result.2.s (spelled from) (spelled to) }
    ensures steps { result.0.d +ℤ result.1.d ≡ result.2.d }
    ensures semitones { result.0.s +ℤ result.1.s ≡ result.2.s }
{
    (interval(from, by), interval(by, to), interval(from, to))
}

/// A pitch that is transposed by the interval to another one is that one.
///
/// # Errors
/// None: the other pitch is spelled already.
pub fn interval_leads(from: Pitch, to: Pitch) -> Result<Pitch, PitchFault>
    requires steps { IsWithin (negsuc 48)
        (step_number (spelled to) -ℤ step_number (spelled from)) (pos 49) }
    requires semitones { IsWithin (negsuc 83)
        (semitones (spelled to) -ℤ semitones (spelled from)) (pos 84) }
    ensures { MatchResult result (λ there. spelled there ≡ spelled to) (λ _. ⊥) }
{
    let way = interval(from, to);
    from.transpose(way.d, way.s)
}
