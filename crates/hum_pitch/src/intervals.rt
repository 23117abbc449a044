//! Intervals between pitches.
ghost use Rattle.std.specs.Prelude.{pos, negsuc};
ghost use Rattle.hum_pitch.specs.Pitch.{IsWithin};

/// The interval from one pitch to another.
#[derive(Clone, Copy)]
pub struct Interval {
    /// The diatonic steps from the first to the second, -111 to 111: negative downwards.
    pub d: i32,
    /// The semitones from the first to the second, -205 to 205.
    pub s: i32,
    pub ghost in_range: { IsWithin (negsuc 110) d (pos 111)
        × IsWithin (negsuc 204) s (pos 205) },
}

/// Whether an interval leads up or down.
#[derive(Clone, Copy)]
pub(crate) enum Direction {
    Up,
    Down,
    Level,
}

/// The quality of an interval, with the semitones by which it is augmented or diminished.
#[derive(Clone, Copy)]
pub(crate) enum Quality {
    Perfect,
    Major,
    Minor,
    Augmented(u32),
    Diminished(u32),
}
