//! How far pitches go.
ghost use Rattle.std.specs.Prelude.{pos, negsuc};
ghost use Rattle.hum_pitch.specs.Pitch.{IsWithin};

/// How far pitches go.
#[derive(Clone, Copy)]
pub struct TransOptions {
    /// Diatonic steps, -49 to 49: up, or down where they are negative.
    pub steps: i32,
    /// Semitones, -84 to 84.
    pub semitones: i32,
    pub ghost in_range: { IsWithin (negsuc 48) steps (pos 49)
        × IsWithin (negsuc 83) semitones (pos 84) },
}
