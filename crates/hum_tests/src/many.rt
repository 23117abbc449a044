//! Cases that are run in one process: their answers, streams that are cut, and calls that fail.
use hum_many::{ManyEnd, run_many};
use hum_text::calls::Marked;
use std::io::{self, Error, ErrorKind, Read, Write};
use std::process::Abort;

/// A reader that gives so many bytes at once, and fails after so many reads.
#[derive(Drop)]
struct Pieces {
    rest: &'static [u8],
    size: usize,
    good: usize,
}

impl Read for Pieces {
    fn read(&mut self, buf: &mut [u8]) -> io::Result<usize> {
        if self.good == 0 {
            return Err(Error::from(ErrorKind::Other));
        }
        self.good -= 1;
        let len = self.rest.len().min(self.size).min(buf.len());
        let (piece, rest) = self.rest.split_at(len);
        buf[..len].copy_from_slice(piece);
        self.rest = rest;
        Ok(len)
    }
}

/// A writer that takes so many bytes at once, and fails after so many writes.
#[derive(Drop)]
struct Scarce<'a> {
    page: &'a mut Vec<u8>,
    size: usize,
    good: usize,
}

impl Write for Scarce<'_> {
    fn write(&mut self, buf: &[u8]) -> io::Result<usize> {
        if self.good == 0 {
            return Err(Error::from(ErrorKind::Other));
        }
        self.good -= 1;
        let len = buf.len().min(self.size);
        match self.page.extend_from_slice(&buf[..len]) {
            Ok(()) => Ok(len),
            Err(_) => Err(Error::from(ErrorKind::OutOfMemory)),
        }
    }

    fn flush(&mut self) -> io::Result<()> {
        Ok(())
    }
}

const PLAN: usize = 28;

const STREAM: &[u8] = b"0018out: read a | rid -G00000005a000f!!g\n**x\n*-\n000000000005b00000000";

const ANSWERS: &[u8] =
    b"0000000500000000b**x\n*-\n00000005000000000002a3 humpipe: stage 1 (read): cannot open0000";
/// How much of them answers the plan, and the first case too.
const FRONTS: (usize, usize) = (13, 37);

/// How it ends: its status, and the byte that is told of a broken stream.
fn ending(end: ManyEnd) -> (u8, u64) {
    match end {
        ManyEnd::Broken(at) => (2, at),
        _ => (end.status(), 0),
    }
}

/// Runs an input, and compares what is written.
fn check(
    rt: &(impl Abort + AllocGlobal),
    input: Pieces,
    size: usize,
    good: usize,
    want: &[u8],
) -> (u8, u64) {
    let mut page = Vec::new(rt.alloc());
    let sink = Marked::new(Scarce {
        page: &mut page,
        size,
        good,
    });
    let (end, _sink) = run_many(rt.alloc(), Marked::new(input), sink);
    assert!(rt; page.as_slice() == want);
    ending(end)
}

fn piecewise(rest: &'static [u8], size: usize, good: usize) -> Pieces {
    Pieces { rest, size, good }
}

#[test]
fn each_case_is_answered(rt: HostRuntime) {
    assert!(rt; check(&rt, piecewise(STREAM, 4_096, 99), 4_096, 99, ANSWERS) == (0, 0));
    assert!(rt; check(&rt, piecewise(STREAM, 1, 999), 1, 999, ANSWERS) == (0, 0));
}

#[test]
fn a_refused_plan_is_answered(rt: HostRuntime) {
    let want = b"000000262 humpipe: plan line 1, word 5: N80000";
    assert!(rt;
        check(
            &rt,
            piecewise(b"0018out: read a | rid -x0000", 9, 9),
            99,
            9,
            want
        ) == (2, 0)
    );
}

#[test]
fn a_stream_may_be_cut_anywhere(rt: HostRuntime) {
    for cut in 0..STREAM.len() {
        let (front, _) = STREAM.split_at(cut);
        let want = match cut {
            0..28 => 0,
            28..56 => FRONTS.0,
            _ => FRONTS.1,
        };
        let (status, at) = check(&rt, piecewise(front, 7, 99), 99, 99, &ANSWERS[..want]);
        let whole = cut == PLAN || cut == 56;
        assert!(rt; whole == (status == 0));
        assert!(rt; at as usize <= cut);
    }
}

#[test]
fn calls_may_fail(rt: HostRuntime) {
    // a byte a read: the plan is read whole, and so is the first case
    assert!(rt; check(&rt, piecewise(STREAM, 1, 30), 99, 99, &ANSWERS[..FRONTS.0]) == (3, 0));
    assert!(rt; check(&rt, piecewise(STREAM, 1, 60), 99, 99, &ANSWERS[..FRONTS.1]) == (3, 0));
    assert!(rt; check(&rt, piecewise(STREAM, 1, 999), 1, 20, &ANSWERS[..20]) == (3, 0));
}

/// Plans with the options of each command over the same case twice, and what is answered.
const COPIED: &[(&[u8], &[u8])] = &[
    (
        b"0023out: read a | extract -f 1,3-$\n0000\
0005a0028**a\t**b\t**c\t**d\n1\t2\t3\t4\n*-\t*-\t*-\t*-\n00000000\
0005a0028**a\t**b\t**c\t**d\n1\t2\t3\t4\n*-\t*-\t*-\t*-\n00000000",
        b"0000000500000\
001f**a\t**c\t**d\n1\t3\t4\n*-\t*-\t*-\n0000000500000\
001f**a\t**c\t**d\n1\t3\t4\n*-\t*-\t*-\n0000000500000",
    ),
    (
        b"002bout: read a | extract -i **kern,**text\n0000\
0005a002b**kern\t**dynam\t**text\n4c\tp\tla\n*-\t*-\t*-\n00000000\
0005a002b**kern\t**dynam\t**text\n4c\tp\tla\n*-\t*-\t*-\n00000000",
        b"0000000500000\
001e**kern\t**text\n4c\tla\n*-\t*-\n0000000500000\
001e**kern\t**text\n4c\tla\n*-\t*-\n0000000500000",
    ),
    (
        b"0023out: read a | ditto -p -s '^='\n0000\
0005a0015**a\n.\n4c\n=1\n.\n*-\n00000000\
0005a0015**a\n.\n4c\n=1\n.\n*-\n00000000",
        b"0000000500000\
0018**a\n.\n4c\n=1\n(4c)\n*-\n0000000500000\
0018**a\n.\n4c\n=1\n(4c)\n*-\n0000000500000",
    ),
    (
        b"0021out: read a | timebase -t 4.\n0000\
0005a0016**kern\n4.c\n2.d\n*-\n00000000\
0005a0016**kern\n4.c\n2.d\n*-\n00000000",
        b"0000000500000\
001e**kern\n*tb4.\n4.c\n2.d\n.\n*-\n0000000500000\
001e**kern\n*tb4.\n4.c\n2.d\n.\n*-\n0000000500000",
    ),
    (
        b"001fout: read a | context -n 2\n0000\
0005a001c**x\na\n*^\nb\tc\n*v\t*v\nd\n*-\n00000000\
0005a001c**x\na\n*^\nb\tc\n*v\t*v\nd\n*-\n00000000",
        b"0000000500000\
0022**x\na b\n*^\nb d\tc d\n*v\t*v\n.\n*-\n0000000500000\
0022**x\na b\n*^\nb d\tc d\n*v\t*v\n.\n*-\n0000000500000",
    ),
    (
        b"0031out: read a | context -o r -b '[(]' -e '[)]'\n0000\
0005a001c**kern\n(4c\n4r\n4d)\n4e\n*-\n00000000\
0005a001c**kern\n(4c\n4r\n4d)\n4e\n*-\n00000000",
        b"0000000500000\
001d**kern\n(4c 4d)\n4r\n.\n.\n*-\n0000000500000\
001d**kern\n(4c 4d)\n4r\n.\n.\n*-\n0000000500000",
    ),
    (
        b"0022out: read a | trans -d 4 -c 6\n0000\
0005a0010**kern\nc\n*-\n00000000\
0005a0010**kern\nc\n*-\n00000000",
        b"0000000500000\
0019**kern\n*Trd4c6\ng-\n*-\n0000000500000\
0019**kern\n*Trd4c6\ng-\n*-\n0000000500000",
    ),
    (
        b"001fout: read a | semits -t -x\n0000\
0005a002e**kern\t**kern\n4c 4e 4g\t(\n4r_\t4c_ 4e\n*-\t*-\n00000000\
0005a002e**kern\t**kern\n4c 4e 4g\t(\n4r_\t4c_ 4e\n*-\t*-\n00000000",
        b"0000000500000\
0028**semits\t**semits\n0 4 7\t.\nr\t4\n*-\t*-\n0000000500000\
0028**semits\t**semits\n0 4 7\t.\nr\t4\n*-\t*-\n0000000500000",
    ),
    (
        b"001eout: read a | mint -b '}'\n0000\
0005a0021**kern\n[4c\n4c_\n4c]\n4d}\n4e\n*-\n00000000\
0005a0021**kern\n[4c\n4c_\n4c]\n4d}\n4e\n*-\n00000000",
        b"0000000500000\
001e**mint\n[c]\n.\n.\n+M2\n[e]\n*-\n0000000500000\
001e**mint\n[c]\n.\n.\n+M2\n[e]\n*-\n0000000500000",
    ),
    (
        b"0018out: read a | recip\n0000\
0005a001d**kern\n4.c\n8r\n2c 2e\n(\n*-\n00000000\
0005a001d**kern\n4.c\n8r\n2c 2e\n(\n*-\n00000000",
        b"0000000500000\
001b**recip\n4.\n8r\n2 2\n.\n*-\n0000000500000\
001b**recip\n4.\n8r\n2 2\n.\n*-\n0000000500000",
    ),
    (
        b"0021out: read a | yank -l -r 3-5\n0000\
0005a002a**kern\n!!up\n4c\n=1\n4d\n*k[]\n=2\n4e\n==\n*-\n00000000\
0005a002a**kern\n!!up\n4c\n=1\n4d\n*k[]\n=2\n4e\n==\n*-\n00000000",
        b"0000000500000\
001c**kern\n4c\n=1\n4d\n*k[]\n*-\n0000000500000\
001c**kern\n4c\n=1\n4d\n*k[]\n*-\n0000000500000",
    ),
    (
        b"0025out: read a | yank -n '^=' -r 12\n0000\
0005a0025**kern\n=012\n4c\n=13\n4d\n=12a\n4e\n*-\n00000000\
0005a0025**kern\n=012\n4c\n=13\n4d\n=12a\n4e\n*-\n00000000",
        b"0000000500000\
001e**kern\n=012\n4c\n=12a\n4e\n*-\n0000000500000\
001e**kern\n=012\n4c\n=12a\n4e\n*-\n0000000500000",
    ),
    (
        b"002eout: read a | yank -o '[{]' -e '}' -r 0-$\n0000\
0005a002b**kern\n4r\n{4c}\n4d\n!!g\n{4e\n.\n4f}\n!!h\n*-\n00000000\
0005a002b**kern\n4r\n{4c}\n4d\n!!g\n{4e\n.\n4f}\n!!h\n*-\n00000000",
        b"0000000500000\
001d**kern\n{4c}\n{4e\n.\n4f}\n*-\n0000000500000\
001d**kern\n{4c}\n{4e\n.\n4f}\n*-\n0000000500000",
    ),
    (
        b"0021out: read a | yank -s A -r 2\n0000\
0005a0023**kern\n*>A\n4c\n*>B\n4d\n*>A\n4e\n*-\n00000000\
0005a0023**kern\n*>A\n4c\n*>B\n4d\n*>A\n4e\n*-\n00000000",
        b"0000000500000\
001d**kern\n*>A\n*>B\n*>A\n4e\n*-\n0000000500000\
001d**kern\n*>A\n*>B\n*>A\n4e\n*-\n0000000500000",
    ),
    (
        b"002bout: read a | cleave -i '**a' -o '**b'\n0000\
0005a0034**a\t**a\t**z\n1\t.\tq\n=1\t=1\t=1\n.\t.\t.\n3\t4\t.\n*-\t*-\t*-\n00000000\
0005a0034**a\t**a\t**z\n1\t.\tq\n=1\t=1\t=1\n.\t.\t.\n3\t4\t.\n*-\t*-\t*-\n00000000",
        b"0000000500000\
0026**b\t**z\n1\tq\n=1\t=1\n.\t.\n3 4\t.\n*-\t*-\n0000000500000\
0026**b\t**z\n1\tq\n=1\t=1\n.\t.\n3 4\t.\n*-\t*-\n0000000500000",
    ),
];

#[test]
fn each_case_has_the_same_options(rt: HostRuntime) {
    for row in COPIED {
        let (stream, want) = *row;
        assert!(rt; check(&rt, piecewise(stream, 4_096, 99), 4_096, 99, want) == (0, 0));
    }
}
