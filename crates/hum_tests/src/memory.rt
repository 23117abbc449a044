//! What the libraries do as memory runs out: a call that ran out of it does so once more, and what was given
//! by then is the front of what is given where memory lasts.
//!
//! Where memory lasts these tests end like others. `tests/faults.py` runs them while one request for memory
//! after the other fails.
ghost use Rattle.std.specs.Prelude.{◌≡◌, ◌≤◌, length};
ghost use Rattle.hum_score.specs.InOrder.{IsClosed};
ghost use Rattle.hum_score.specs.Spelling.{IsToken};
ghost use Rattle.hum_score.specs.declared.records.SpinedKind.TheVariants.{Values};
ghost use Rattle.hum_stage.specs.Meaning.{Meaning, opening};

use crate::compared::{holds, same, same_bytes};
use crate::record::read;
use crate::scores::{check_lines, score};
use crate::sources::Pieces;
use crate::stages::{ROWS, lines, stage};
use hum_net::{Outcome, Rightmost, run_bundle};
use hum_path::{Moves, Origins, PathFault, Paths};
use hum_record::{Record, RecordBuilder, RecordFault, Spare, SpinedKind};
use hum_stage::{MOST_RECORDS, Stage, drain};
use hum_text::calls::Marked;
use hum_text::reader::{LineReader, Step};
use hum_text::{Limits, TextFault};
use hum_turns::RunResult;
use std::alloc::{AllocError, Global};
use std::collections::VecDeque;
use std::process::Abort;

const TEXT: &[u8] = b"**kern\t**text\n4c\tla\n.\tlo\n*-\t*-\n";

const LIMITS: Limits = Limits {
    line: 99,
    records: 99,
    bytes: 999,
};

// What follows a line and its LF in a text.
fn behind_line<'a>(rt: &impl Abort, text: &'a [u8], line: &[u8]) -> &'a [u8] {
    if line.len() >= text.len() {
        panic!(rt; "a line that isn't there");
    }
    let (front, rest) = text.split_at(line.len());
    same_bytes(rt, front, line, "a line");
    rest.split_at(1).1
}

#[test]
fn lines_are_given_until_memory_runs_out(rt: HostRuntime) {
    let source = Pieces {
        text: TEXT,
        size: 5,
        good: usize::MAX,
    };
    let mut reader = LineReader::new(rt.alloc(), Marked::new(source), LIMITS);
    let mut left = TEXT;
    for _ in 0..1_000 {
        match reader.poll() {
            Ok(Step::Line) => left = behind_line(&rt, left, reader.line()),
            Ok(Step::More) => {}
            Ok(Step::End) => {
                same_bytes(&rt, left, b"", "the end");
                return;
            }
            Err(fault) => {
                same(&rt, fault, TextFault::Memory, "a poll");
                same(&rt, reader.poll(), Err(TextFault::Memory), "once more");
                return;
            }
        }
    }
    panic!(rt; "no end")
}

// Whether a token is taken; if not, memory has run out, and the next isn't either.
fn is_pushed(rt: &impl Abort, builder: &mut RecordBuilder, token: &[u8]) -> bool
    requires kind { builder.old.kind ≡ Values }
    requires token { IsToken Values token.now }
    ensures { builder.new.kind ≡ builder.old.kind }
{
    match builder.push(token) {
        Ok(()) => true,
        Err(fault) => {
            same(rt, fault, RecordFault::Memory, "a push");
            same(
                rt,
                builder.push(token),
                Err(RecordFault::Memory),
                "once more",
            );
            false
        }
    }
}

/// A token that is longer than what a builder has room for at first.
const LONG: &[u8] =
    b"4cccccccccccccccccccccccccccccccccccccccccccccccccccccccccccccccccccccccccccccccc";

#[test]
fn tokens_are_taken_until_memory_runs_out(rt: HostRuntime) {
    let mut builder = RecordBuilder::new(rt.alloc(), SpinedKind::Values);
    for _ in 0..9 {
        if !is_pushed(&rt, &mut builder, LONG) {
            return;
        }
    }
}

/// Records that lead spines through each kind of step.
const STEPS: &[&[u8]] = &[
    b"**kern\t**text",
    b"*^\t*+",
    b"*\t*\t*\t**dynam",
    b"*v\t*v\t*x\t*x",
    b"*-\t*-\t*-",
];

// Whether the origins go on; if not, memory has run out, and they don't once more either.
fn are_followed(rt: &impl Abort, origins: &mut Origins, row: &Record, found: &Moves) -> bool {
    if origins.follow(row, found).is_ok() {
        return true;
    }
    holds(rt, origins.follow(row, found).is_err(), "once more");
    false
}

#[test]
fn spines_are_followed_until_memory_runs_out(rt: HostRuntime) {
    let mut paths = Paths::new(rt.alloc());
    let mut origins = Origins::new(rt.alloc());
    for line in STEPS {
        let row = read(&rt, rt.alloc(), *line);
        match paths.step(&row) {
            Ok(found) => {
                if !are_followed(&rt, &mut origins, &row, &found) {
                    return;
                }
            }
            Err(fault) => {
                same(&rt, fault, PathFault::Memory, "a step");
                let again = paths.step(&row).err();
                same(&rt, again, Some(PathFault::Memory), "once more");
                return;
            }
        }
    }
    same(&rt, paths.close(), Ok(()), "no spine is open");
}

// Puts the records of a closed score into a stage, and takes what it gives, until memory runs out.
fn put_all<S: Stage>(
    alloc: Global,
    stage: &mut S,
    records: Vec<Record>,
    given: &mut Vec<Record>,
) -> Result<(), AllocError>
    requires fresh { (m : Meaning) × S.stands stage.old (opening m) }
    requires closed { IsClosed records.items }
    requires few { length records.items ≤ MOST_RECORDS }
{
    let mut pool = Spare::none(alloc);
    let mut rest = VecDeque::from_vec(records);
    while let Some(next) = rest.pop_front() {
        stage.put(next)?;
        drain(stage, &mut pool, given)?;
    }
    Ok(())
}

/// More records than a test puts or takes, so that a list of them finds memory at once.
const MANY: usize = 32;

#[test]
fn stages_give_until_memory_runs_out(rt: HostRuntime) {
    for row in ROWS {
        let (plan, puts) = *row;
        let (put, want) = lines(&rt, rt.alloc(), puts);
        let records = score(&rt, rt.alloc(), &put);
        let mut stage = stage(&rt, rt.alloc(), plan);
        let mut given = Vec::with_capacity(rt.alloc(), MANY).expect(&rt, "memory");
        let told = put_all(rt.alloc(), &mut stage, records, &mut given);
        let front = given.len().min(want.len());
        check_lines(&rt, &given, &want[..front]);
        match told {
            Ok(()) => same(&rt, given.len(), want.len(), plan),
            Err(_) => holds(&rt, stage.take().is_err(), "once more"),
        }
    }
}

/// Bundles, and what is written of each.
const RUNS: &[(&[u8], &[u8])] = &[
    (
        b"out: read a | extract -i '**kern'
--- a
**kern\t**dynam\t**kern
*^\t*\t*^
4c\t4e\tp\t4g\t4b
*v\t*v\t*\t*v\t*v
4c\tf\t4d
*-\t*-\t*-
",
        b"**kern\t**kern
*^\t*^
4c\t4e\t4g\t4b
*v\t*v\t*\t*
*\t*v\t*v
4c\t4d
*-\t*-
",
    ),
    (
        b"p: read a
q: read b
out: assemble p q | context -n 2
--- a
**x
1
*^
2\t3
*v\t*v
*-
--- b
**y
7
8
*-
",
        b"**x\t**y
1 2\t7 8
*^\t*
.\t.\t.
*v\t*v\t*
*-\t*-
",
    ),
];

// What is written of a bundle is the whole text, or where memory ran out its front.
fn check_run(rt: &impl Abort, alloc: Global, bundle: &[u8], want: &[u8], link: u16)
    requires least { 1 ≤ link }
    requires most { link ≤ 4096 }
{
    let mut page = Vec::with_capacity(alloc, 1_024).expect(rt, "memory");
    let writer = Marked::new(&mut page);
    let (outcome, _writer) = run_bundle(alloc, bundle, link, &mut Rightmost, writer);
    match outcome {
        Outcome::Run(RunResult::Finished) => same_bytes(rt, &page, want, link),
        Outcome::Run(RunResult::Memory) => holds(rt, want.starts_with(&page), link),
        _ => panic!(rt; "another end"),
    }
}

#[test]
fn runs_write_until_memory_runs_out(rt: HostRuntime) {
    for row in RUNS {
        let (bundle, want) = *row;
        check_run(&rt, rt.alloc(), bundle, want, 1);
        check_run(&rt, rt.alloc(), bundle, want, 16);
    }
}
