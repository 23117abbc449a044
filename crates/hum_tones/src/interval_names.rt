//! The short texts that most notes become.
ghost use Rattle.std.specs.Prelude.{◌≡◌, ◌≤◌, pos, negsuc, false, IfSome, codes, if◌then◌else◌};
ghost use Rattle.hum_score.specs.declared.records.SpinedKind.TheVariants.{Values};
ghost use Rattle.hum_score.specs.Spelling.{IsToken};
ghost use Rattle.hum_pitch.specs.Pitch.{IsWithin};
ghost use Rattle.hum_pitch.specs.Intervals.{named};
ghost use Rattle.hum_tones.specs.IntervalNames.{steps_at, semitones_at, text_at};

use hum_pitch::Interval;

// There is a row for each number of steps from -32 to 31, and in it a place for each interval that is at
// most two semitones wider or narrower than the perfect or major one.

/// The semitones of the perfect or major interval of each row, and 64.
const WIDTHS: [u8; 64] = [
    9, 11, 12, 14, 16, 17, 19, 21, 23, 24, 26, 28, 29, 31, 33, 35, 36, 38, 40, 41, 43, 45, 47, 48,
    50, 52, 53, 55, 57, 59, 60, 62, 64, 66, 68, 69, 71, 73, 75, 76, 78, 80, 81, 83, 85, 87, 88, 90,
    92, 93, 95, 97, 99, 100, 102, 104, 105, 107, 109, 111, 112, 114, 116, 117,
];

/// The names whose quality is one letter, each in four bytes, of which not all may count; and behind
/// them a null token and a rest.
const NAMES: &[u8; 1288] = b"\
    ....-A33-P33-d33........-A32-P32-d32........-A31-M31-m31-d31....-A30-M30-m30-d30\
    ....-A29-P29-d29........-A28-M28-m28-d28....-A27-M27-m27-d27....-A26-P26-d26....\
    ....-A25-P25-d25........-A24-M24-m24-d24....-A23-M23-m23-d23....-A22-P22-d22....\
    ....-A21-M21-m21-d21....-A20-M20-m20-d20....-A19-P19-d19........-A18-P18-d18....\
    ....-A17-M17-m17-d17....-A16-M16-m16-d16....-A15-P15-d15........-A14-M14-m14-d14\
    ....-A13-M13-m13-d13....-A12-P12-d12........-A11-P11-d11........-A10-M10-m10-d10\
    ....-A9.-M9.-m9.-d9.....-A8.-P8.-d8.........-A7.-M7.-m7.-d7.....-A6.-M6.-m6.-d6.\
    ....-A5.-P5.-d5.........-A4.-P4.-d4.........-A3.-M3.-m3.-d3.....-A2.-M2.-m2.-d2.\
    ....-A1.P1..+A1.....+d2.+m2.+M2.+A2.....+d3.+m3.+M3.+A3.........+d4.+P4.+A4.....\
    ....+d5.+P5.+A5.....+d6.+m6.+M6.+A6.....+d7.+m7.+M7.+A7.........+d8.+P8.+A8.....\
    +d9.+m9.+M9.+A9.....+d10+m10+M10+A10........+d11+P11+A11........+d12+P12+A12....\
    +d13+m13+M13+A13....+d14+m14+M14+A14........+d15+P15+A15....+d16+m16+M16+A16....\
    +d17+m17+M17+A17........+d18+P18+A18........+d19+P19+A19....+d20+m20+M20+A20....\
    +d21+m21+M21+A21........+d22+P22+A22....+d23+m23+M23+A23....+d24+m24+M24+A24....\
    ....+d25+P25+A25........+d26+P26+A26....+d27+m27+M27+A27....+d28+m28+M28+A28....\
    ....+d29+P29+A29....+d30+m30+M30+A30....+d31+m31+M31+A31........+d32+P32+A32....\
    ....r...";

/// How many bytes of each count: none where no name stands there.
const SIZES: [u8; 322] = [
    0, 4, 4, 4, 0, 0, 4, 4, 4, 0, 0, 4, 4, 4, 4, 0, 4, 4, 4, 4, 0, 4, 4, 4, 0, 0, 4, 4, 4, 4, 0, 4,
    4, 4, 4, 0, 4, 4, 4, 0, 0, 4, 4, 4, 0, 0, 4, 4, 4, 4, 0, 4, 4, 4, 4, 0, 4, 4, 4, 0, 0, 4, 4, 4,
    4, 0, 4, 4, 4, 4, 0, 4, 4, 4, 0, 0, 4, 4, 4, 0, 0, 4, 4, 4, 4, 0, 4, 4, 4, 4, 0, 4, 4, 4, 0, 0,
    4, 4, 4, 4, 0, 4, 4, 4, 4, 0, 4, 4, 4, 0, 0, 4, 4, 4, 0, 0, 4, 4, 4, 4, 0, 3, 3, 3, 3, 0, 3, 3,
    3, 0, 0, 3, 3, 3, 3, 0, 3, 3, 3, 3, 0, 3, 3, 3, 0, 0, 3, 3, 3, 0, 0, 3, 3, 3, 3, 0, 3, 3, 3, 3,
    0, 3, 2, 3, 0, 3, 3, 3, 3, 0, 3, 3, 3, 3, 0, 0, 3, 3, 3, 0, 0, 3, 3, 3, 0, 3, 3, 3, 3, 0, 3, 3,
    3, 3, 0, 0, 3, 3, 3, 0, 3, 3, 3, 3, 0, 4, 4, 4, 4, 0, 0, 4, 4, 4, 0, 0, 4, 4, 4, 0, 4, 4, 4, 4,
    0, 4, 4, 4, 4, 0, 0, 4, 4, 4, 0, 4, 4, 4, 4, 0, 4, 4, 4, 4, 0, 0, 4, 4, 4, 0, 0, 4, 4, 4, 0, 4,
    4, 4, 4, 0, 4, 4, 4, 4, 0, 0, 4, 4, 4, 0, 4, 4, 4, 4, 0, 4, 4, 4, 4, 0, 0, 4, 4, 4, 0, 0, 4, 4,
    4, 0, 4, 4, 4, 4, 0, 4, 4, 4, 4, 0, 0, 4, 4, 4, 0, 4, 4, 4, 4, 0, 4, 4, 4, 4, 0, 0, 4, 4, 4, 0,
    1, 1,
];

/// The row of so many steps, if there is one.
fn row_of(steps: i32) -> Option<usize>
    ensures few { IfSome result (λ row. row ≤ 63) }
    ensures exact { IfSome result (λ row. steps ≡ steps_at row) }
{
    if steps < -32 || steps > 31 {
        return None;
    }
    Some((steps + 32) as usize)
}

/// The place of so many semitones in a row, if there is one.
fn place_in(row: usize, semitones: i32) -> Option<usize>
    requires row { row ≤ 63 }
    requires semitones { IsWithin (negsuc 204) semitones (pos 205) }
    ensures few { IfSome result (λ from. from ≤ 4) }
    ensures exact { IfSome result (λ from. semitones ≡ semitones_at row from) }
{
    let from = semitones + 66 - i32::from(WIDTHS[row]);
    if from < 0 || from > 4 {
        return None;
    }
    Some(from as usize)
}

/// A short text that may stand as a token: by its place in the table.
#[derive(Clone, Copy)]
pub(crate) struct ShortName {
    place: u16,
    pub ghost within: { place ≤ 321 },
    pub ghost lawful: { IsToken Values (text_at place) },
}

/// What a token becomes that has no new note: `r` for a rest.
pub(crate) fn still(rest: bool) -> ShortName
    ensures { text_at result.place ≡ (if rest then codes "r" else codes ".") }
{
    if rest {
        return ShortName { place: 321 };
    }
    ShortName { place: 320 }
}

impl ShortName {
    /// The text.
    pub(crate) fn as_bytes(self) -> &'static [u8]
        ensures { result.now ≡ text_at self.place }
    {
        let place = self.place as usize;
        NAMES
            .split_at(4 * place)
            .1
            .split_at(SIZES[place] as usize)
            .0
    }
}

/// The name that stands at a place in a row, if there is one.
fn name_at(row: usize, from: usize) -> Option<ShortName>
    requires row { row ≤ 63 }
    requires from { from ≤ 4 }
    ensures { IfSome result (λ name.
        text_at name.place ≡ named false false (steps_at row) (semitones_at row from)) }
{
    let place = 5 * row + from;
    if SIZES[place] == 0 {
        return None;
    }
    Some(ShortName {
        place: place as u16,
    })
}

/// The name of an interval, where it has few steps and its quality is one letter, as most are.
pub(crate) fn interval_name(interval: Interval) -> Option<ShortName>
    ensures { IfSome result (λ name. text_at name.place ≡ named false false interval.d interval.s) }
{
    let Some(row) = row_of(interval.d) else {
        return None;
    };
    match place_in(row, interval.s) {
        Some(from) => name_at(row, from),
        None => None,
    }
}
