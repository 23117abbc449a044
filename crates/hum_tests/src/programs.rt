//! The program over files in memory: what it writes, how it ends and what it tells.
use crate::compared::{same, same_bytes};
use crate::sources::Pieces;
use hum_net::Marked;
use hum_program::{Folder, run_program};
use std::io::{self, Error, ErrorKind};
use std::process::Abort;

/// Files by their names, with how many reads of each succeed before one fails.
#[derive(Drop)]
struct Drawer {
    files: &'static [(&'static str, &'static [u8], usize)],
}

impl Folder for Drawer {
    type File = Pieces<'static>;

    ghost use Rattle.std.specs.Prelude.{false, None};

    ghost is_known = { λ _. false };

    ghost file = { λ _ _. None };

    fn open(&self, name: &str) -> io::Result<Pieces<'static>> {
        for &(other, text, good) in self.files {
            if other == name {
                return Ok(Pieces {
                    text,
                    size: 4,
                    good,
                });
            }
        }
        Err(Error::from(ErrorKind::NotFound))
    }
}

const FILES: &[(&str, &[u8], usize)] = &[
    ("plan", b"out: read a | rid -G\n", usize::MAX),
    (
        "beside",
        b"p: read a\nq: read b\nout: assemble p q\n",
        usize::MAX,
    ),
    ("broken", b"out: read c | rid -G\n", usize::MAX),
    // a read that is interrupted is tried again where a plan is read
    ("retried", b"out: read a | rid -G\n", 1),
    ("a", b"**x\n1\n*-\n", usize::MAX),
    ("c", b"**x\n1\n*-\n", 1),
];

/// Words, the input, what is written, the status, and the line that is told.
type Row = (
    &'static [&'static str],
    &'static [u8],
    &'static [u8],
    u8,
    &'static str,
);

const BUNDLE: &[u8] = b"out: read a | rid -G\n--- a\n**y\n2\n*-\n";

const ROWS: &[Row] = &[
    (&["humpipe"], BUNDLE, b"**y\n2\n*-\n", 0, ""),
    (
        &["humpipe", "--link", "1", "--order", "right"],
        BUNDLE,
        b"**y\n2\n*-\n",
        0,
        "",
    ),
    (&["humpipe", "plan"], BUNDLE, b"**x\n1\n*-\n", 0, ""),
    (&["humpipe", "retried"], BUNDLE, b"**x\n1\n*-\n", 0, ""),
    (
        &["humpipe", "--order=right", "plan"],
        BUNDLE,
        b"**x\n1\n*-\n",
        0,
        "",
    ),
    (
        &["humpipe", "beside"],
        BUNDLE,
        b"",
        3,
        "humpipe: stage 2 (read): cannot open",
    ),
    (
        &["humpipe", "b"],
        BUNDLE,
        b"",
        3,
        "humpipe: cannot read plan",
    ),
    (
        &["humpipe", "a"],
        BUNDLE,
        b"",
        2,
        "humpipe: plan line 1, word 1: N3",
    ),
    // what was settled before a failed read is handed back
    (
        &["humpipe", "--link", "1", "--order", "right", "broken"],
        BUNDLE,
        b"**x\n",
        3,
        "humpipe: stage 1 (read): read failed",
    ),
    (
        &["humpipe", "--order", "up"],
        BUNDLE,
        b"",
        2,
        "humpipe: usage: humpipe [--link N] [--order left|right] [PIPELINE]",
    ),
];

fn check_row(rt: &(impl Abort + AllocGlobal), row: &Row) {
    let (texts, input, want, status, line) = *row;
    let mut words = Vec::new(rt.alloc());
    for text in texts {
        let word = String::from_str(rt.alloc(), text).expect(rt, "memory");
        words.push(word).expect(rt, "memory");
    }
    let folder = Drawer { files: FILES };
    let mut page = Vec::new(rt.alloc());
    let writer = Marked::new(&mut page);
    let (ending, _writer) = run_program(rt.alloc(), &words, input, &folder, writer);
    same_bytes(rt, &page, want, line);
    same(rt, ending.status(), status, line);
    let told = ending.to_string(rt.alloc()).expect(rt, "memory");
    same_bytes(rt, told.as_bytes(), line.as_bytes(), line);
}

#[test]
fn the_program_runs_what_is_asked(rt: HostRuntime) {
    for row in ROWS {
        check_row(&rt, row);
    }
}
