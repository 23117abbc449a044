//! Records: each call once, with ample memory, and its answer.
ghost use Rattle.std.specs.Prelude.{◌≡◌, ◌<◌, IfOk};
ghost use Rattle.hum_score.specs.Spelling.{has_byte, IsToken};
ghost use Rattle.hum_score.specs.declared.records.SpinedKind.TheVariants.{Values};

use crate::compared::{same, same_bytes};
use hum_record::{
    GrowingText, Kind, MOST_BYTES, Record, RecordBuilder, RecordFault, Selection, Spare, SpinedKind,
};
use std::alloc::{AllocError, Global};
use std::process::Abort;

fn has_line_feed(text: &[u8]) -> bool
    ensures { result ≡ has_byte 10 text.now }
{
    text.contains(&b'\n')
}

// What a line is read as.
fn parse(rt: &impl Abort, alloc: Global, line: &[u8]) -> Result<Record, RecordFault> {
    assert!(rt; line.len() <= MOST_BYTES && !has_line_feed(line));
    Record::parse(alloc, line.to_vec(alloc).expect(rt, "memory"))
}

/// The record of a line that is one.
pub(crate) fn read(rt: &impl Abort, alloc: Global, line: &[u8]) -> Record {
    parse(rt, alloc, line).expect(rt, "a record")
}

/// The text of a record, its kind and its tokens.
type Row = (&'static [u8], Kind, &'static [&'static [u8]]);

// The record is that of the row.
fn check_record(rt: &impl Abort, record: &Record, row: &Row) {
    let (text, kind, tokens) = *row;
    same_bytes(rt, record.text(), text, text);
    if let Some((last, front)) = record.text_lf().split_last() {
        same(rt, *last, b'\n', text);
        same_bytes(rt, front, text, text);
    }
    same(rt, record.kind(), kind, text);
    same(rt, record.width(), tokens.len(), text);
    for (j, token) in tokens.iter().enumerate() {
        if j < record.width() {
            same_bytes(rt, record.token(j), *token, j);
        }
    }
}

// Each text is read as the record of its row, and so are copies of it, one in what is left of the
// one before it.
fn check_read(rt: &impl Abort, alloc: Global, rows: &[Row]) {
    let mut spare = Spare::none(alloc);
    for row in rows {
        let record = read(rt, alloc, row.0);
        check_record(rt, &record, row);
        let copy = record.copy(alloc).expect(rt, "memory");
        check_record(rt, &copy, row);
        let other = copy.copy_into(alloc, &mut spare).expect(rt, "memory");
        check_record(rt, &other, row);
        spare.keep(other);
    }
}

const EACH_KIND: &[Row] = &[
    (b"**kern", Kind::Interpretation, &[b"**kern"]),
    (b"4B-", Kind::Values, &[b"4B-"]),
    (b"4c\t2e", Kind::Values, &[b"4c", b"2e"]),
    (b".\t4B-\t.", Kind::Values, &[b".", b"4B-", b"."]),
    (b"!a\t!", Kind::Local, &[b"!a", b"!"]),
    (b"!!x", Kind::Global, &[]),
    (b"!!!COM:\t\tBach", Kind::Global, &[]),
];

// Both have the same tokens.
fn check_alike(rt: &impl Abort, record: &Record, other: &Record) {
    same(rt, record.width(), other.width(), "tokens");
    for j in 0..record.width() {
        if j < other.width() {
            same_bytes(rt, record.token(j), other.token(j), j);
        }
    }
}

/// A text, which of its tokens are marked, and the text of these alone.
type Marked = (&'static [u8], &'static [bool], &'static [u8]);

/// A token of 600 bytes, and a short one.
const LONG_AND_SHORT: &[u8] =
    b"aaaaaaaaaaaaaaaaaaaaaaaaaaaaaaaaaaaaaaaaaaaaaaaaaaaaaaaaaaaaaaaaaaaaaaaaaaaaaaaaaaaaaaaaaaaaaaaaaaaa\
    aaaaaaaaaaaaaaaaaaaaaaaaaaaaaaaaaaaaaaaaaaaaaaaaaaaaaaaaaaaaaaaaaaaaaaaaaaaaaaaaaaaaaaaaaaaaaaaaaaaa\
    aaaaaaaaaaaaaaaaaaaaaaaaaaaaaaaaaaaaaaaaaaaaaaaaaaaaaaaaaaaaaaaaaaaaaaaaaaaaaaaaaaaaaaaaaaaaaaaaaaaa\
    aaaaaaaaaaaaaaaaaaaaaaaaaaaaaaaaaaaaaaaaaaaaaaaaaaaaaaaaaaaaaaaaaaaaaaaaaaaaaaaaaaaaaaaaaaaaaaaaaaaa\
    aaaaaaaaaaaaaaaaaaaaaaaaaaaaaaaaaaaaaaaaaaaaaaaaaaaaaaaaaaaaaaaaaaaaaaaaaaaaaaaaaaaaaaaaaaaaaaaaaaaa\
    aaaaaaaaaaaaaaaaaaaaaaaaaaaaaaaaaaaaaaaaaaaaaaaaaaaaaaaaaaaaaaaaaaaaaaaaaaaaaaaaaaaaaaaaaaaaaaaaaaaa\tb";

const MARKED: &[Marked] = &[
    (b"4c\t2e\t1g", &[true, false, true], b"4c\t1g"),
    (b"4c\t2e\t1g", &[false, true, true], b"2e\t1g"),
    (b"4c\t16.e]\t.", &[false, true, false], b"16.e]"),
    (b"4c\t2e\t.", &[false, false, true], b"."),
    (b"4c\t2e", &[true, true], b"4c\t2e"),
    (b"*^\t*\t*-", &[true, false, true], b"*^\t*-"),
    (b"!a\t!", &[false, true], b"!"),
    (LONG_AND_SHORT, &[true, false], &[b'a'; 600]),
    (LONG_AND_SHORT, &[false, true], b"b"),
    (LONG_AND_SHORT, &[true, true], LONG_AND_SHORT),
];

#[test]
fn retains_marked_tokens(rt: HostRuntime) {
    let alloc = rt.alloc();
    for row in MARKED {
        let (text, marks, left) = *row;
        let mut record = read(&rt, alloc, text);
        assert!(rt; marks.len() == record.width() && marks.contains(&true));
        let selection = Selection::new(alloc, marks).expect(&rt, "memory");
        record.retain(&selection).expect(&rt, "memory");
        same_bytes(&rt, record.text(), left, text);
        check_alike(&rt, &record, &read(&rt, alloc, left));
    }
}

/// More tokens than fit inline.
const MANY_TOKENS: &[Row] = &[(
    b"1\t22\t333\t4\t55\t6\t7\t88\t9\t10",
    Kind::Values,
    &[
        b"1", b"22", b"333", b"4", b"55", b"6", b"7", b"88", b"9", b"10",
    ],
)];

/// Texts of 7, 8, 11, 16, 24, 32 and 35 bytes: the tabs of up to 7 bytes, of 8 to 15 and of 16 to 32
/// are found in three ways, and those of longer texts in pieces of 32 bytes.
const SHORT_AND_LONG: &[(&[u8], &[&[u8]])] = &[
    (b"12345\t7", &[b"12345", b"7"]),
    (b"1\t345678", &[b"1", b"345678"]),
    (b"1\t3\t567\t9AB", &[b"1", b"3", b"567", b"9AB"]),
    (b"1234567\t9ABCDE\tG", &[b"1234567", b"9ABCDE", b"G"]),
    (
        b"123456789ABCDEF\tH\tJKLMNO\tQ",
        &[b"123456789ABCDEF", b"H", b"JKLMNO", b"Q"],
    ),
    (
        b"1\t3456789ABCDEFGHIJKLMNOPQRSTUV\tW",
        &[b"1", b"3456789ABCDEFGHIJKLMNOPQRSTUV", b"W"],
    ),
    (
        b"123456789ABCDEFGHIJKLMNOPQRSTUV\tX\tZ",
        &[b"123456789ABCDEFGHIJKLMNOPQRSTUV", b"X", b"Z"],
    ),
];

#[test]
fn reads_records(rt: HostRuntime) {
    check_read(&rt, rt.alloc(), EACH_KIND);
    check_read(&rt, rt.alloc(), MANY_TOKENS);
    let mut data = Vec::new(rt.alloc());
    for row in SHORT_AND_LONG {
        let (text, tokens) = *row;
        data.push((text, Kind::Values, tokens))
            .expect(&rt, "memory");
    }
    check_read(&rt, rt.alloc(), &data);
}

const REFUSED: &[(&[u8], RecordFault)] = &[
    (b"", RecordFault::S4),
    (b"4c\t", RecordFault::S4),
    (b"\t4c", RecordFault::S4),
    (b"1\t*", RecordFault::S5),
    (b"!a\t!!b", RecordFault::S6),
    (b"4c\r\t2e", RecordFault::S8),
    (b"!!a\rb", RecordFault::S8),
    // a text that breaks several rules
    (b"!a\t!!b\t*\t", RecordFault::S4),
    (b"!a\t!!b\t*", RecordFault::S5),
    (b"!a\t!!b\t*\t\t\r", RecordFault::S8),
    // a token that begins with two exclamation marks beside data is of another kind
    (b"4c\t!!b", RecordFault::S5),
];

#[test]
fn refuses_in_order(rt: HostRuntime) {
    for row in REFUSED {
        let (text, fault) = *row;
        let found = parse(&rt, rt.alloc(), text).err();
        same(&rt, found, Some(fault), text);
    }
}

const BUILT: &Row = &(b"!a\t!", Kind::Local, &[b"!a", b"!"]);

const BUILT_IN_A_SPARE: &Row = &(b"*", Kind::Interpretation, &[b"*"]);

#[test]
fn builds_records_and_nothing_of_a_spare_shows(rt: HostRuntime) {
    let alloc = rt.alloc();
    let mut builder = RecordBuilder::new(alloc, SpinedKind::Local);
    builder.push(b"!a").expect(&rt, "a token");
    builder.push(b"!").expect(&rt, "a token");
    check_record(&rt, &builder.finish(), BUILT);
    let mut spare = Spare::none(alloc);
    spare.keep(read(&rt, alloc, b"4c\t4e\t4g"));
    let mut builder = RecordBuilder::reusing(alloc, SpinedKind::Interpretation, &mut spare);
    builder.push(b"*").expect(&rt, "a token");
    check_record(&rt, &builder.finish(), BUILT_IN_A_SPARE);
}

// A token of data of so many bytes.
fn long_token(alloc: Global, len: usize) -> Result<Vec<u8>, AllocError>
    requires { 0 < len }
    ensures { IfOk result (λ token. IsToken Values token.items) }
{
    Ok(vec![in alloc; b'a'; len]?)
}

#[test]
fn builds_records_of_long_tokens(rt: HostRuntime) {
    let alloc = rt.alloc();
    let short = long_token(alloc, 3).expect(&rt, "memory");
    let long = long_token(alloc, 600).expect(&rt, "memory");
    let longer = long_token(alloc, 70_000).expect(&rt, "memory");
    let mut builder = RecordBuilder::new(alloc, SpinedKind::Values);
    builder.push(&short).expect(&rt, "a token");
    builder.push(&long).expect(&rt, "a token");
    builder.push(&short).expect(&rt, "a token");
    builder.push(&longer).expect(&rt, "a token");
    let record = builder.finish();
    let mut whole = Vec::new(alloc);
    for part in [
        short.as_slice(),
        b"\t",
        &long,
        b"\t",
        &short,
        b"\t",
        &longer,
    ] {
        whole.extend_from_slice(part).expect(&rt, "memory");
    }
    same_bytes(&rt, record.text(), &whole, "long tokens side by side");
    check_alike(&rt, &record, &read(&rt, alloc, &whole));
}

// What a second token is answered.
fn second_push(
    rt: &impl Abort,
    alloc: Global,
    first: &[u8],
    second: &[u8],
) -> Result<(), RecordFault>
    requires first { IsToken Values first.now }
    requires second { IsToken Values second.now }
{
    let mut builder = RecordBuilder::new(alloc, SpinedKind::Values);
    builder.push(first).expect(rt, "a token");
    builder.push(second)
}

/// How long a second token is beside a first of 524,287 bytes, and what it is answered: with the tab
/// between them both are one byte under the limit, or at it, or over it.
const LONG: &[(usize, Result<(), RecordFault>)] = &[
    (524_287, Ok(())),
    (524_288, Ok(())),
    (524_289, Err(RecordFault::L1)),
];

#[test]
fn refuses_what_would_be_too_long(rt: HostRuntime) {
    let alloc = rt.alloc();
    let half = long_token(alloc, 524_287).expect(&rt, "memory");
    for row in LONG {
        let (len, want) = *row;
        let other = long_token(alloc, len.max(1)).expect(&rt, "memory");
        let answer = second_push(&rt, alloc, &half, &other);
        same(&rt, answer, want, len);
    }
}

/// A record of data, one above it that is as wide, and the first with its null tokens filled by that.
const FILLED: &[(&[u8], &[u8], &[u8])] = &[
    (b".\t4c\t.", b"2a\t8b\t16.dd#", b"2a\t4c\t16.dd#"),
    (b"4c", b"8e", b"4c"),
    (b".", b"(8ee-L", b"(8ee-L"),
    (b".\t.", b".\t4r", b".\t4r"),
];

#[test]
fn fills_null_tokens_from_above(rt: HostRuntime) {
    let alloc = rt.alloc();
    let mut spare = Spare::none(alloc);
    spare.keep(read(&rt, alloc, b"4c\t4e\t4g\t4cc"));
    for row in FILLED {
        let (text, above, filled) = *row;
        let record = read(&rt, alloc, text);
        let above = read(&rt, alloc, above);
        assert!(&rt; record.width() == above.width());
        let (Kind::Values, Kind::Values) = (record.kind(), above.kind()) else {
            continue;
        };
        let made = record
            .filled_from(&above, &mut spare)
            .expect(&rt, "a record");
        check_alike(&rt, &made, &read(&rt, alloc, filled));
        same_bytes(&rt, made.text(), filled, text);
        spare.keep(made);
    }
}

/// Texts of fewer than 64 bytes.
const COPIED: &[&[u8]] = &[b"4c\t2e", b"*^\t*", b"!!!COM: Bach"];

/// A record with room for 200 bytes.
const ROOMY: &[u8] = &[b'a'; 200];

/// A line of 67 bytes, and as many bytes behind it.
const FURTHER: &[u8] = b"123456789ABCDEF\t123456789ABCDEF\t123456789ABCDEF\t123456789ABCDEF\tXYZ\n\
    123456789ABCDEF\t123456789ABCDEF\t123456789ABCDEF\t123456789ABCDEF\tXYZ\n";

#[test]
fn becomes_a_copy_in_its_own_memory(rt: HostRuntime) {
    let alloc = rt.alloc();
    let roomy = read(&rt, alloc, ROOMY);
    let mut held = roomy.copy(alloc).expect(&rt, "memory");
    for text in COPIED {
        let other = read(&rt, alloc, text).copy(alloc).expect(&rt, "memory");
        assert!(&rt; held.copy_short(&other));
        same_bytes(&rt, held.text(), text, *text);
        check_alike(&rt, &held, &other);
    }
    let mut spare = Spare::none(alloc);
    spare.keep(roomy.copy(alloc).expect(&rt, "memory"));
    let further = Record::parse_line(&mut spare, FURTHER, 5).expect(&rt, "a line of data");
    assert!(&rt; held.copy_far(&further));
    same_bytes(&rt, held.text(), &FURTHER[..67], "a longer text");
    check_alike(&rt, &held, &further);
}

/// Parts, one of which is longer than the room that there is for others.
const PARTS: &[&[u8]] = &[
    b"",
    b"4",
    b"c#",
    b"16.",
    b"(4dd--J",
    b"123456789ABCDEFGH",
    &[b'x'; 700],
    b"z",
];

#[test]
fn grows_by_parts(rt: HostRuntime) {
    let mut text = GrowingText::new(rt.alloc());
    let mut whole = Vec::new(rt.alloc());
    for _ in 0..2 {
        for part in PARTS {
            text.add(part).expect(&rt, "memory");
            whole.extend_from_slice(part).expect(&rt, "memory");
            same_bytes(&rt, text.as_slice(), &whole, part.len());
        }
        text.clear();
        whole.clear();
        same(&rt, text.is_empty(), true, "a text that was cleared");
    }
}
