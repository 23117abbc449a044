//! Pitches and intervals, by hand.
use crate::compared::{same, same_bytes};
use hum_kern::read_note;
use hum_pitch::{Pitch, PitchFault, interval, write_interval, write_pitch};
use std::process::Abort;

// The pitch that a token has.
fn pitch(rt: &impl Abort, token: &[u8]) -> Pitch {
    read_note(token)
        .expect(rt, "a note")
        .pitch
        .expect(rt, "a pitch")
}

/// Tokens, and the pitch of each a step and two semitones higher, or why there is none.
const HIGHER: &[(&[u8], Result<&[u8], PitchFault>)] = &[
    (b"4e", Ok(b"f#")),
    (b"4B-", Ok(b"c")),
    (b"8bb", Ok(b"ccc#")),
    (b"2.E#######", Err(PitchFault::TR1)),
    (b"cccccccc", Ok(b"dddddddd")),
    (b"bbbbbbbb", Err(PitchFault::TR2)),
];

#[test]
fn pitches_are_transposed_and_written(rt: HostRuntime) {
    for row in HIGHER {
        let (token, want) = *row;
        match (pitch(&rt, token).transpose(1, 2), want) {
            (Ok(there), Ok(want)) => {
                let text = write_pitch(rt.alloc(), there).expect(&rt, "memory");
                same_bytes(&rt, &text, want, token);
            }
            (found, want) => same(&rt, found.err(), want.err(), token),
        }
    }
}

/// Two tokens, the steps and the semitones from the first to the second, and the name of the interval
/// with its sign and its quality, and without both.
type Row = (
    &'static [u8],
    &'static [u8],
    i32,
    i32,
    &'static [u8],
    &'static [u8],
);

const INTERVALS: &[Row] = &[
    (b"4c", b"4e-", 2, 3, b"+m3", b"3"),
    (b"4e-", b"4e-", 0, 0, b"P1", b"1"),
    (b"4e-", b"4B", -3, -4, b"-d4", b"4"),
    (b"c", b"c#", 0, 1, b"+A1", b"1"),
    (b"c", b"dd", 8, 14, b"+M9", b"9"),
];

#[test]
fn intervals_are_named(rt: HostRuntime) {
    for row in INTERVALS {
        let (from, to, d, s, name, size) = *row;
        let found = interval(pitch(&rt, from), pitch(&rt, to));
        same(&rt, (found.d, found.s), (d, s), (from, to));
        let text = write_interval(rt.alloc(), found, false, false).expect(&rt, "memory");
        same_bytes(&rt, &text, name, (from, to));
        let text = write_interval(rt.alloc(), found, true, true).expect(&rt, "memory");
        same_bytes(&rt, &text, size, (from, to));
    }
}
