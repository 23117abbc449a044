//! The perfect and major intervals, by their steps.
ghost use Rattle.std.specs.Prelude.{◌≡◌, ◌≤◌};
ghost use Rattle.hum_pitch.specs.Intervals.{natural_width, can_be_perfect};

/// How many steps are told of: intervals between pitches have at most one less.
const MOST: usize = 112;

/// The semitones of the perfect or major interval, by its steps.
const WIDTHS: [u8; MOST] = [
    0, 2, 4, 5, 7, 9, 11, 12, 14, 16, 17, 19, 21, 23, 24, 26, 28, 29, 31, 33, 35, 36, 38, 40, 41,
    43, 45, 47, 48, 50, 52, 53, 55, 57, 59, 60, 62, 64, 65, 67, 69, 71, 72, 74, 76, 77, 79, 81, 83,
    84, 86, 88, 89, 91, 93, 95, 96, 98, 100, 101, 103, 105, 107, 108, 110, 112, 113, 115, 117, 119,
    120, 122, 124, 125, 127, 129, 131, 132, 134, 136, 137, 139, 141, 143, 144, 146, 148, 149, 151,
    153, 155, 156, 158, 160, 161, 163, 165, 167, 168, 170, 172, 173, 175, 177, 179, 180, 182, 184,
    185, 187, 189, 191,
];

/// Whether the interval is perfect, and not major, by its steps.
const PERFECT: [bool; MOST] = [
    true, false, false, true, true, false, false, true, false, false, true, true, false, false,
    true, false, false, true, true, false, false, true, false, false, true, true, false, false,
    true, false, false, true, true, false, false, true, false, false, true, true, false, false,
    true, false, false, true, true, false, false, true, false, false, true, true, false, false,
    true, false, false, true, true, false, false, true, false, false, true, true, false, false,
    true, false, false, true, true, false, false, true, false, false, true, true, false, false,
    true, false, false, true, true, false, false, true, false, false, true, true, false, false,
    true, false, false, true, true, false, false, true, false, false, true, true, false, false,
];

/// The semitones of the perfect or major interval of so many steps.
pub(crate) fn natural_width(steps: u32) -> u8
    requires { steps ≤ 111 }
    ensures exact { result ≡ natural_width steps }
    ensures bounded { result ≤ 191 }
{
    WIDTHS[steps as usize]
}

/// Whether intervals of so many steps are perfect, and not major or minor.
pub(crate) fn can_be_perfect(steps: u32) -> bool
    requires { steps ≤ 111 }
    ensures { result ≡ can_be_perfect steps }
{
    PERFECT[steps as usize]
}
