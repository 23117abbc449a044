//! Scores read in pieces of several sizes, and from a source that fails.
use crate::compared::{holds, same, same_bytes};
use crate::sources::Pieces;
use hum_read::{ReadError, ScoreReader};
use hum_record::Spare;
use hum_stage::{Command, End, Fault, Rule};
use hum_text::calls::Marked;
use std::alloc::Global;
use std::process::Abort;

// Reads to the end or an error: the texts of the records, with LF after each, and why it stops.
fn read_all(
    rt: &impl Abort,
    alloc: Global,
    reader: &mut ScoreReader<Marked<Pieces<'static>>>,
) -> (Vec<u8>, Result<End, ReadError>) {
    let mut texts = Vec::new(alloc);
    let mut pool = Spare::none(alloc);
    for _ in 0..1_000 {
        if let Some(record) = reader.next(&mut pool) {
            texts.extend_from_slice(record.text()).expect(rt, "memory");
            texts.push(b'\n').expect(rt, "memory");
        }
        if let Some(stop) = reader.stopped() {
            return (texts, stop);
        }
    }
    panic!(rt; "no end")
}

// Read as stage 3 the source gives these texts and stops so. Asked once more it answers the same.
fn check_read(
    rt: &impl Abort,
    alloc: Global,
    source: Pieces<'static>,
    want: &[u8],
    stop: Result<End, ReadError>,
) {
    let mut reader = ScoreReader::new(alloc, 3, Marked::new(source));
    let (texts, found) = read_all(rt, alloc, &mut reader);
    same_bytes(rt, &texts, want, want);
    same(rt, found, stop, want);
    let mut pool = Spare::none(alloc);
    holds(rt, reader.next(&mut pool).is_none(), "it has stopped");
    same(rt, reader.stopped(), Some(stop), want);
}

fn end_of(fault: Option<(u64, Rule)>) -> End {
    match fault {
        None => End::Closed,
        Some((line, rule)) => End::Broken(Fault {
            stage: 3,
            command: Command::Read,
            line,
            rule,
        }),
    }
}

/// The text of a score, its records with LF behind each, and the line and the rule that breaks it.
type Row = (&'static [u8], &'static [u8], Option<(u64, Rule)>);

const SCORES: &[Row] = &[
    (b"", b"", None),
    (b"!!x\n!!!COM:\tBach", b"!!x\n!!!COM:\tBach\n", None),
    (b"**kern\n4c\n*-\n", b"**kern\n4c\n*-\n", None),
    (b"**kern\r\n4c\r\n*-", b"**kern\n4c\n*-\n", None),
    (b"**x\n*-\n!!y\r", b"**x\n*-\n!!y\n", None),
    (
        b"**kern\r\n*k[]\r\n4e\r\n4B-\r\n8bb\r\n*-",
        b"**kern\n*k[]\n4e\n4B-\n8bb\n*-\n",
        None,
    ),
    (b"4c\n", b"", Some((1, Rule::P1))),
    (b"**x\n1\t2\n", b"**x\n", Some((2, Rule::P2))),
    (b"**x\t**y\n*v\t*\n", b"**x\t**y\n", Some((2, Rule::P3))),
    (b"**x\t**y\n*x\t*\n", b"**x\t**y\n", Some((2, Rule::P4))),
    (b"**x\t**y\n*v\t*v\n", b"**x\t**y\n", Some((2, Rule::P5))),
    (b"**x\n*+\n*\t*\n", b"**x\n*+\n", Some((3, Rule::P6))),
    (b"**x\n*-\n1\n", b"**x\n*-\n", Some((3, Rule::P7))),
    (b"**kern\n4c\n", b"**kern\n4c\n", Some((3, Rule::P8))),
    (b"**kern\n4c", b"**kern\n4c\n", Some((3, Rule::P8))),
    (b"**x\n**\n*-\n", b"**x\n", Some((2, Rule::P10))),
    (b"**x\t**y\n**z\t*-\n", b"**x\t**y\n", Some((2, Rule::P11))),
    (b"**x\n\n*-\n", b"**x\n", Some((2, Rule::S1))),
    (b"**x\n*-\n\r", b"**x\n*-\n", Some((3, Rule::S1))),
    (b"**x\t**y\n1\t\t2\n", b"**x\t**y\n", Some((2, Rule::S4))),
    (b"**x\t**y\n1\t*\n", b"**x\t**y\n", Some((2, Rule::S5))),
    (b"**x\t**y\n!a\t!!b\n", b"**x\t**y\n", Some((2, Rule::S6))),
    (b"**x\n1\r\r\n*-\n", b"**x\n", Some((2, Rule::S8))),
    (b"4c\t\n\n", b"", Some((1, Rule::S4))),
];

/// Sizes of the pieces.
const SIZES: &[usize] = &[1, 2, 7];

#[test]
fn scores_in_pieces(rt: HostRuntime) {
    for size in SIZES {
        for row in SCORES {
            let size = *size;
            let (text, texts, fault) = *row;
            let good = usize::MAX;
            let source = Pieces { text, size, good };
            check_read(&rt, rt.alloc(), source, texts, Ok(end_of(fault)));
        }
    }
}

/// The size of the pieces, how many reads are good, and what was read before one failed.
const FAILED: &[(usize, usize, &[u8])] = &[
    (1, 0, b""),
    (2, 3, b"**x\n1\n"),
    (7, 2, b"**x\n1\n2\n*-\n"),
];

#[test]
fn a_read_fails(rt: HostRuntime) {
    let text = b"**x\n1\n2\n*-\n";
    for row in FAILED {
        let (size, good, texts) = *row;
        let source = Pieces { text, size, good };
        check_read(&rt, rt.alloc(), source, texts, Err(ReadError::Read));
    }
}
