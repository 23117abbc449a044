//! Laws between commands: what their functions answer of small scores.
use crate::compared::same;
use crate::scores::{Lines, check_lines, score};
use hum_ditto::DittoOptions;
use hum_extract::{ExtractOptions, Field, FieldRange};
use hum_laws::{ClosedScore, Given, extract_ditto, semits_shifted, there_and_back};
use hum_stage::End;
use hum_tones::{SemitsOptions, TransOptions};
use std::process::Abort;

/// Up by a whole tone.
const UP: TransOptions = TransOptions {
    steps: 1,
    semitones: 2,
};

// These lines are given, and all that is put is taken.
fn check_given(rt: &impl Abort, given: &Given, want: Lines) {
    check_lines(rt, &given.records, want);
    same(rt, given.end, End::Closed, "no stage refuses");
}

#[test]
fn a_score_is_transposed_there_and_back(rt: HostRuntime) {
    let lines: Lines = &[b"**kern", b"*k[]", b"4e", b"4B-", b"8bb", b"*-"];
    let records = score(&rt, rt.alloc(), lines);
    let closed = ClosedScore {
        alloc: rt.alloc(),
        records: &records,
    };
    let (there, back) = there_and_back(closed, UP).expect(&rt, "memory");
    check_given(
        &rt,
        &there,
        &[
            b"**kern", b"*Trd1c2", b"*k[]", b"4f#", b"4c", b"8ccc#", b"*-",
        ],
    );
    check_given(
        &rt,
        &back,
        &[
            b"**kern",
            b"*Trd-1c-2",
            b"*Trd1c2",
            b"*k[]",
            b"4e",
            b"4B-",
            b"8bb",
            b"*-",
        ],
    );
}

#[test]
fn semitones_are_shifted(rt: HostRuntime) {
    let lines: Lines = &[b"**kern", b"4c", b"4dd#", b"4r", b"=2", b"2.G--", b"*-"];
    let records = score(&rt, rt.alloc(), lines);
    let options = SemitsOptions {
        ties_left_out: false,
    };
    let closed = ClosedScore {
        alloc: rt.alloc(),
        records: &records,
    };
    let (moved, still) = semits_shifted(closed, UP, options).expect(&rt, "memory");
    check_given(
        &rt,
        &moved,
        &[
            b"**semits",
            b"*Trd1c2",
            b"2",
            b"17",
            b"r",
            b"=2",
            b"-5",
            b"*-",
        ],
    );
    check_given(
        &rt,
        &still,
        &[b"**semits", b"0", b"15", b"r", b"=2", b"-7", b"*-"],
    );
}

#[test]
fn columns_are_extracted_and_filled_in_any_order(rt: HostRuntime) {
    let records = score(&rt, rt.alloc(), &[b"**a\t**b", b"1\t2", b".\t3", b"*-\t*-"]);
    let mut ranges = Vec::new(rt.alloc());
    let one = FieldRange {
        first: Field::Number(1),
        last: Field::Number(1),
    };
    ranges.push(one).expect(&rt, "memory");
    let options = DittoOptions {
        skip: None,
        parentheses: false,
    };
    let chosen = ExtractOptions::Fields(ranges);
    let closed = ClosedScore {
        alloc: rt.alloc(),
        records: &records,
    };
    let (extracted, filled) = extract_ditto(closed, chosen, options).expect(&rt, "memory");
    check_given(&rt, &extracted, &[b"**a", b"1", b"1", b"*-"]);
    check_given(&rt, &filled, &[b"**a", b"1", b"1", b"*-"]);
}
