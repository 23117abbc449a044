//! Notes and durations worked by hand.
use crate::compared::same;
use hum_frac::Frac;
use hum_kern::{
    KernFault, Length, leading_duration, read_duration, read_leading, read_note, read_recip,
};
use std::process::Abort;

/// A text, its value as a numerator and a denominator, and where the duration stands in it.
type Row = (&'static [u8], u32, u32, usize, usize);

fn check_durations(rt: &impl Abort, rows: &[Row]) {
    for row in rows {
        let (text, top, bottom, start, end) = *row;
        assert!(rt; bottom > 0);
        let value = Some(Frac::new(top as u64, bottom as u64));
        let want = Length { value, start, end };
        same(rt, read_duration(text), Ok(want), text);
    }
}

const PLAIN: &[Row] = &[
    (b"4c", 1, 4, 0, 1),
    (b"[4.c", 3, 8, 1, 3),
    (b"16.c]", 3, 32, 0, 3),
    (b"2.G--", 3, 4, 0, 2),
    (b"12r", 1, 12, 0, 2),
    (b"4096", 1, 4096, 0, 4),
    // 1/4 + 1/8 + 1/16 + .. + 1/256
    (b"4......", 127, 256, 0, 7),
    (b"0", 2, 1, 0, 1),
    (b"(0.c", 3, 1, 1, 3),
    (b"00c", 4, 1, 0, 2),
    // 4 + 2 + 1
    (b"00..", 7, 1, 0, 4),
    (b"000e", 8, 1, 0, 3),
    // The second digits are no part of the first run.
    (b"c4d8", 1, 4, 1, 2),
    (b".4", 1, 4, 1, 2),
];

/// Tokens, and whether each begins with a digit and is one subtoken without the sign of a grace note.
const LEADING: &[(&[u8], bool)] = &[
    (b"4c", true),
    (b"16.c]", true),
    (b"3%2d", true),
    (b"0", true),
    (b"4097c", true),
    (b"1", true),
    (b"99", true),
    (b"100r", true),
    (b"16.", true),
    (b"16%3c", true),
    (b"16/", true),
    (b"08", true),
    (b"[4c", false),
    (b"c4", false),
    (b"r", false),
    (b"4cq", false),
    (b"4c 4e", false),
    (b"4c ", false),
    (b"16Q", false),
    (b"16 16", false),
    (b"4;c q", false),
];

#[test]
fn leading_durations(rt: HostRuntime) {
    for row in LEADING {
        let (token, leads) = *row;
        let want = if leads {
            Some(read_duration(token))
        } else {
            None
        };
        same(&rt, read_leading(token), want, token);
    }
}

// whether one or two digits at the front alone tell the duration
const SHORT: &[(&[u8], bool)] = &[
    (b"4c", true),
    (b"1", true),
    (b"16[", true),
    (b"99r", true),
    (b"2GG#;", true),
    (b"", false),
    (b"0c", false),
    (b"08", false),
    (b"100", false),
    (b"16.c", false),
    (b"8%3", false),
    (b"4/", false),
    (b"[4c", false),
    (b"16Q", false),
    (b"4cq", false),
    (b"4c 4e", false),
];

#[test]
fn leading_parts(rt: HostRuntime) {
    for row in SHORT {
        let (token, tells) = *row;
        let want = match read_duration(token) {
            Ok(found) if tells => found.value,
            _ => None,
        };
        same(&rt, leading_duration(token), want, token);
    }
}

const QUOTIENTS: &[Row] = &[
    (b"3%2d", 2, 3, 0, 3),
    (b"3%4c", 4, 3, 0, 3),
    // 2/3 + 1/3
    (b"3%2.f", 1, 1, 0, 4),
    // 3/5 + 3/10 + 3/20
    (b"{5%3..f", 21, 20, 1, 6),
    (b"4096%4096", 1, 1, 0, 9),
    (b"1%4096", 4096, 1, 0, 6),
    (b"10%20", 2, 1, 0, 5),
    // A percent sign behind the dots is no part of the duration, nor is one before the digits.
    (b"4.%2", 3, 8, 0, 2),
    (b"3%2.%5", 1, 1, 0, 4),
    (b"%2", 1, 2, 1, 2),
];

#[test]
fn durations(rt: HostRuntime) {
    check_durations(&rt, PLAIN);
    check_durations(&rt, QUOTIENTS);
}

const WITHOUT: &[&[u8]] = &[b"", b"r", b"cc#", b".", b"8ddq", b"4Q", b"04q", b"%"];

const NOTHING: Length = Length {
    value: None,
    start: 0,
    end: 0,
};

const REFUSED: &[&[u8]] = &[
    b"0000c",
    b"04",
    b"01c",
    b"4097",
    b"99999999999999999999999999999999",
    b"4.......",
    b"0%2c",
    b"00%2c",
    b"3%c",
    b"3%",
    b"3%%2",
    b"3%.2",
    b"3%0c",
    b"3%02c",
    b"03%2",
    b"3%2%2c",
    b"3%2%",
    b"4097%2c",
    b"3%4097c",
    b"3%2.......",
];

// Each text is read so as a subtoken, and is no duration by itself.
fn check_no_recip(rt: &impl Abort, texts: &[&[u8]], want: &Result<Length, KernFault>) {
    for text in texts {
        let found = (read_duration(*text), read_recip(*text));
        same(rt, found, (*want, Err(KernFault::K3)), *text);
    }
}

#[test]
fn without_a_duration_or_refused(rt: HostRuntime) {
    check_no_recip(&rt, WITHOUT, &Ok(NOTHING));
    check_no_recip(&rt, REFUSED, &Err(KernFault::K3));
}

/// Texts, each with its value as a numerator and a denominator. Those without are no duration, though
/// each has one.
const ALONE: &[(&[u8], Option<(u32, u32)>)] = &[
    (b"16", Some((1, 16))),
    (b"3%2.", Some((1, 1))),
    (b"00", Some((4, 1))),
    (b"4c", None),
    (b" 4", None),
    (b"4 ", None),
    (b"4 8", None),
    (b".4", None),
    (b"4.%2", None),
    (b"%2", None),
];

#[test]
fn durations_and_nothing_else(rt: HostRuntime) {
    for row in ALONE {
        let (text, value) = *row;
        let want = match value {
            Some((top, bottom)) => Ok(Frac::new(top as u64, bottom.max(1) as u64)),
            None => Err(KernFault::K3),
        };
        same(&rt, read_recip(text), want, text);
    }
}

/// A text, and whether it is a rest, a grace note and the rest of a tie.
type Marked = (&'static [u8], bool, bool, bool);

fn check_marks(rt: &impl Abort, rows: &[Marked], pitched: bool) {
    for row in rows {
        let (text, rest, grace, continued) = *row;
        let note = read_note(text).expect(rt, "a note");
        let place = if pitched {
            (0, 0)
        } else {
            (note.start, note.end)
        };
        let found = (note.rest, note.grace, note.continued, note.pitch.is_some());
        same(
            rt,
            (found, place),
            ((rest, grace, continued, pitched), (0, 0)),
            text,
        );
    }
}

const PITCHED: &[Marked] = &[
    (b"4c", false, false, false),
    (b"8ddq", false, true, false),
    (b"cQ", false, true, false),
    (b"[4c", false, false, false),
    (b"4c_", false, false, true),
    (b"4c]", false, false, true),
    (b"Qd]", false, true, true),
    (b"q_e-", false, true, true),
    (b"4.cR", false, false, false),
];

const UNPITCHED: &[Marked] = &[
    (b"", false, false, false),
    (b".", false, false, false),
    (b"4", false, false, false),
    (b"4#", false, false, false),
    (b"(", false, false, false),
    (b"q]", false, true, true),
    (b"4r", true, false, false),
    (b"r", true, false, false),
    (b"ccr", true, false, false),
    // a rest is read for no pitch
    (b"cdr", true, false, false),
    (b"rccccccccc#-", true, false, false),
    (b"rq", true, true, false),
    (b"_r]", true, false, true),
];

#[test]
fn marks(rt: HostRuntime) {
    check_marks(&rt, PITCHED, true);
    check_marks(&rt, UNPITCHED, false);
}
