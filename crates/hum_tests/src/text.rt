//! Lines of texts in pieces of every size, and sources and sinks that fail.
use crate::compared::{holds, same, same_bytes};
use crate::sources::Pieces;
use hum_text::calls::{Marked, Sink, Source};
use hum_text::reader::{LineReader, Step};
use hum_text::{Limits, TextFault};
use std::alloc::Global;
use std::io;
use std::io::{Error, ErrorKind, Write};
use std::process::Abort;

// Takes this many bytes in all.
#[derive(Drop)]
struct Room {
    room: usize,
}

impl Write for Room {
    fn write(&mut self, buf: &[u8]) -> io::Result<usize> {
        let n = self.room.min(buf.len());
        self.room -= n;
        Ok(n)
    }

    fn flush(&mut self) -> io::Result<()> {
        if self.room == 0 {
            Err(Error::from(ErrorKind::StorageFull))
        } else {
            Ok(())
        }
    }
}

// The source gives these lines, with LF after each, and this fault if it doesn't come to the end, and
// the same again when it is polled once more. Answers how many polls answered `More`.
fn check_lines(
    rt: &impl Abort,
    alloc: Global,
    source: Pieces<'_>,
    limits: Limits,
    (want, fault): (&[u8], Option<TextFault>),
) -> usize {
    let case = (source.size, want.len().min(100), fault);
    let mut reader = LineReader::new(alloc, Marked::new(source), limits);
    let mut lines = Vec::new(alloc);
    let mut reads = 0usize;
    for _ in 0..10_000 {
        let polled = reader.poll();
        match polled {
            Ok(Step::Line) => {
                lines.extend_from_slice(reader.line()).expect(rt, "memory");
                lines.push(b'\n').expect(rt, "memory");
            }
            Ok(Step::More) => reads = reads.saturating_add(1),
            Ok(Step::End) | Err(_) => {
                same(rt, (reader.poll(), polled.err()), (polled, fault), case);
                same_bytes(rt, &lines, want, case);
                return reads;
            }
        }
    }
    panic!(rt; "no end")
}

const SMALL: Limits = Limits {
    line: 4,
    records: 9,
    bytes: 10,
};

const TWO_RECORDS: Limits = Limits {
    records: 2,
    ..SMALL
};

const NO_RECORD: Limits = Limits {
    records: 0,
    ..SMALL
};

/// A text, its limits, its lines with LF behind each, and the fault that ends them.
type Row = (&'static [u8], Limits, &'static [u8], Option<TextFault>);

const TEXTS: &[Row] = &[
    (b"", SMALL, b"", None),
    (b"ab\ncd", SMALL, b"ab\ncd\n", None),
    (b"a\r\nb", SMALL, b"a\nb\n", None),
    (b"a\r\nb\r", SMALL, b"a\nb\n", None),
    (b"abcd\r\n", SMALL, b"abcd\n", None),
    (b"abcd\r", SMALL, b"abcd\n", None),
    (b"\n", NO_RECORD, b"", Some(TextFault::S1)),
    (b"a\n\nb", SMALL, b"a\n", Some(TextFault::S1)),
    (b"a\n\r\n", SMALL, b"a\n", Some(TextFault::S1)),
    (b"a\n\r", SMALL, b"a\n", Some(TextFault::S1)),
    (b"abcde", SMALL, b"", Some(TextFault::S2)),
    (b"abcd\re", SMALL, b"", Some(TextFault::S2)),
    (b"ab\ncd\ne", TWO_RECORDS, b"ab\ncd\n", Some(TextFault::S3)),
    (
        b"abc\ndef\nghi",
        TWO_RECORDS,
        b"abc\ndef\n",
        Some(TextFault::S3),
    ),
    (b"abc\ndef\nghi", SMALL, b"abc\ndef\n", Some(TextFault::S7)),
];

#[test]
fn texts_in_pieces(rt: HostRuntime) {
    for size in 1..=12usize {
        for row in TEXTS {
            let (text, limits, lines, fault) = *row;
            let good = usize::MAX;
            let source = Pieces { text, size, good };
            check_lines(&rt, rt.alloc(), source, limits, (lines, fault));
        }
    }
}

/// How many letters stand in front of CR and LF, how many bytes of lines are read, and the fault.
const LONGEST: &[(usize, usize, Option<TextFault>)] = &[
    (1_048_576, 1_048_577, None),
    (1_048_577, 0, Some(TextFault::S2)),
];

#[test]
fn the_longest_line(rt: HostRuntime) {
    for row in LONGEST {
        let (letters, lines, fault) = *row;
        let mut text = vec![in rt.alloc(); b'a'; letters].expect(&rt, "memory");
        text.extend_from_slice(b"\r\n").expect(&rt, "memory");
        let mut want = vec![in rt.alloc(); b'a'; letters].expect(&rt, "memory");
        want.push(b'\n').expect(&rt, "memory");
        let source = Pieces {
            text: &text,
            size: usize::MAX,
            good: usize::MAX,
        };
        let want = (&want[..lines.min(want.len())], fault);
        let reads = check_lines(&rt, rt.alloc(), source, Limits::standard(), want);
        same(&rt, reads, 17, letters);
    }
}

/// A text, the size of its pieces, how many reads are good, its lines, the fault that ends them, and
/// how many reads gave bytes.
type Reads = (
    &'static [u8],
    usize,
    usize,
    &'static [u8],
    Option<TextFault>,
    usize,
);

const READS: &[Reads] = &[
    // a score with CR, byte by byte
    (
        b"**kern\r\n*k[]\r\n4e\r\n4B-\r\n8bb\r\n*-",
        1,
        usize::MAX,
        b"**kern\n*k[]\n4e\n4B-\n8bb\n*-\n",
        None,
        30,
    ),
    // a read that fails
    (b"ab\ncd\nef\n", 2, 3, b"ab\ncd\n", Some(TextFault::Read), 3),
];

#[test]
fn reads_are_told(rt: HostRuntime) {
    for row in READS {
        let (text, size, good, lines, fault, reads) = *row;
        let source = Pieces { text, size, good };
        let limits = Limits::standard();
        let found = check_lines(&rt, rt.alloc(), source, limits, (lines, fault));
        same(&rt, found, reads, text);
    }
}

/// Whether a call fails, and whether one has, call after call.
const MARKED: &[(bool, bool)] = &[(false, false), (true, true), (false, true)];

#[test]
fn a_failed_read_is_marked(rt: HostRuntime) {
    let mut source = Marked::new(Pieces {
        text: b"ab",
        size: 1,
        good: 1,
    });
    let mut buf = [0u8; 4];
    for row in MARKED {
        let fails = source.read(&mut buf).is_err();
        same(&rt, (fails, source.failed()), *row, "reads");
    }
    same(&rt, buf[0], b'b', "the second read that is good");
}

#[test]
fn a_failed_write_is_marked(rt: HostRuntime) {
    let mut sink = Marked::new(Room { room: 3 });
    let _ = sink.write(b"ab");
    let _ = sink.flush();
    let _ = sink.write(b"cd");
    holds(&rt, !sink.failed(), "there was room");
    let _ = sink.write(b"d");
    holds(&rt, sink.failed(), "there is no room");

    let mut flushed = Marked::new(Room { room: 0 });
    let _ = flushed.flush();
    holds(&rt, flushed.failed(), "a flush");
}
