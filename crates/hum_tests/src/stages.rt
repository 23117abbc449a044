//! The stage of each command, call after call, and over whole lists.
ghost use Rattle.std.specs.Prelude.{◌≤◌, length};
ghost use Rattle.hum_score.specs.InOrder.{IsClosed};
ghost use Rattle.hum_stage.specs.Meaning.{Meaning, Moment, opening, given_to, all_of};

use crate::compared::{holds, same};
use crate::scores::{Lines, check_lines, score};
use hum_commands::CommandStage;
use hum_plan::{Options, parse_plan};
use hum_record::{Record, Spare};
use hum_stage::{End, MOST_RECORDS, Stage, State, drain, whole};
use std::alloc::Global;
use std::collections::VecDeque;
use std::process::Abort;

/// A line that is put, the lines that are given then, and how many records wait after them.
pub(crate) type Put = (&'static [u8], Lines, usize);

/// A plan with one command, and the lines of a closed score.
pub(crate) type Row = (&'static [u8], &'static [Put]);

pub(crate) const ROWS: &[Row] = &[
    (
        b"out: read a | rid -Tid",
        &[
            (b"!!x", &[b"!!x"], 0),
            (b"**kern", &[b"**kern"], 0),
            (b"*clefG2", &[], 0),
            (b"*", &[], 0),
            (b"!a", &[b"!a"], 0),
            (b".", &[], 0),
            (b"4c", &[b"4c"], 0),
            (b"*-", &[b"*-"], 0),
        ],
    ),
    (
        b"out: read a | extract -i '**kern'",
        &[
            (b"**kern\t**text\t**kern", &[b"**kern\t**kern"], 0),
            (b"*^\t*\t*^", &[b"*^\t*^"], 0),
            (b"1\t2\t3\t4\t5", &[b"1\t2\t4\t5"], 0),
            (b"*v\t*v\t*\t*v\t*v", &[b"*v\t*v\t*\t*", b"*\t*v\t*v"], 0),
            (b"*-\t*-\t*-", &[b"*-\t*-"], 0),
        ],
    ),
    (
        b"out: read a | ditto",
        &[
            (b"**x\t**y", &[b"**x\t**y"], 0),
            (b"a\tb", &[b"a\tb"], 0),
            (b"*x\t*x", &[b"*x\t*x"], 0),
            (b".\t.", &[b"b\ta"], 0),
            (b"*-\t*-", &[b"*-\t*-"], 0),
        ],
    ),
    (
        b"out: read a | timebase -t 16",
        &[
            (b"**kern", &[b"**kern", b"*tb16"], 0),
            (b"8c", &[b"8c", b"."], 0),
            (b"=2", &[b"=2"], 0),
            (b"8d", &[b"8d", b"."], 0),
            (b"4e", &[b"4e", b".", b".", b"."], 0),
            (b"*-", &[b"*-"], 0),
        ],
    ),
    (
        b"out: read a | context -n 2 -o '^='",
        &[
            (b"**x", &[b"**x"], 0),
            (b"a", &[], 1),
            (b"=1", &[], 2),
            (b".", &[], 3),
            (b"b", &[b"a b", b"=1", b"."], 1),
            (b"c", &[b"b c"], 1),
            (b"*-", &[b".", b"*-"], 0),
        ],
    ),
    (
        b"out: read a | trans -d 1 -c 2",
        &[
            (b"**kern", &[b"**kern", b"*Trd1c2"], 0),
            (b"*k[]", &[b"*k[]"], 0),
            (b"4e", &[b"4f#"], 0),
            (b"4B-", &[b"4c"], 0),
            (b"8bb", &[b"8ccc#"], 0),
            (b"*-", &[b"*-"], 0),
        ],
    ),
    (
        b"out: read a | semits -x",
        &[
            (b"**kern", &[b"**semits"], 0),
            (b"4c", &[b"0"], 0),
            (b"4dd#", &[b"15"], 0),
            (b"4r", &[b"r"], 0),
            (b"=2", &[b"=2"], 0),
            (b"2.G--", &[b"-7"], 0),
            (b"*-", &[b"*-"], 0),
        ],
    ),
    (
        b"out: read a | mint",
        &[
            (b"**kern", &[b"**mint"], 0),
            (b"4c", &[b"[c]"], 0),
            (b"4e-", &[b"+m3"], 0),
            (b"4e-", &[b"P1"], 0),
            (b"4B", &[b"-d4"], 0),
            (b"*-", &[b"*-"], 0),
        ],
    ),
    (
        b"out: read a | recip",
        &[
            (b"**kern", &[b"**recip"], 0),
            (b"4.c", &[b"4."], 0),
            (b"8r", &[b"8r"], 0),
            (b"2c 2e", &[b"2 2"], 0),
            (b"(", &[b"."], 0),
            (b"*-", &[b"*-"], 0),
        ],
    ),
    (
        b"out: read a | yank -o '^a' -r $",
        &[
            (b"**x", &[b"**x"], 0),
            (b"a1", &[], 1),
            (b"b", &[], 2),
            (b"a2", &[], 1),
            (b"*k[]", &[], 2),
            (b"*-", &[b"a2", b"*k[]", b"*-"], 0),
        ],
    ),
    (
        b"out: read a | cleave -i '**a' -o '**b'",
        &[
            (b"**a\t**a\t**z", &[b"**b\t**z"], 0),
            (b"1\t.\tq", &[b"1\tq"], 0),
            (b"=1\t=1\t=1", &[b"=1\t=1"], 0),
            (b".\t.\t.", &[b".\t."], 0),
            (b"3\t4\t.", &[b"3 4\t."], 0),
            (b"*-\t*-\t*-", &[b"*-\t*-"], 0),
        ],
    ),
];

// The stage of the command of a plan, to which nothing was put yet.
pub(crate) fn stage(rt: &impl Abort, alloc: Global, plan: &[u8]) -> CommandStage
    ensures { (m : Meaning) × ⟦<CommandStage as Stage>⟧.stands result (opening m) }
{
    let plan = parse_plan(alloc, plan).expect(rt, "a plan");
    let mut stages = plan.into_stages();
    let Some(last) = stages.pop() else {
        panic!(rt; "no stage");
    };
    let (_sources, options) = last.into_parts();
    match options {
        Options::Command(options) => CommandStage::new(alloc, 2, options),
        _ => panic!(rt; "no command"),
    }
}

// The lines that are put, and those that are given.
pub(crate) fn lines(
    rt: &impl Abort,
    alloc: Global,
    puts: &[Put],
) -> (Vec<&'static [u8]>, Vec<&'static [u8]>) {
    let mut put = Vec::new(alloc);
    let mut given = Vec::new(alloc);
    for (line, lines, _held) in puts {
        put.push(*line).expect(rt, "memory");
        given.extend_from_slice(*lines).expect(rt, "memory");
    }
    (put, given)
}

// A stage that doesn't give answers none, and is as it was.
fn gives_none<S: Stage>(rt: &impl Abort, stage: &mut S)
    ensures { (t : Moment) → S.stands stage.old t → S.stands stage.new t }
{
    match stage.take() {
        Ok(None) => {}
        _ => panic!(rt; "a record or no memory"),
    }
}

// Behind a put the stage gives these lines, and then it wants, and holds so many records.
fn check_given<S: Stage>(rt: &impl Abort, alloc: Global, stage: &mut S, put: &Put)
    requires { (t : Moment) × S.stands stage.old t }
    ensures { (t : Moment) → S.stands stage.old t
        → S.stands stage.new (given_to t (length (all_of t))) }
{
    let (text, lines, held) = *put;
    let gives = matches!(stage.state(), State::Gives);
    same(rt, gives, !lines.is_empty(), text);
    let mut given = Vec::new(alloc);
    drain(stage, &mut Spare::none(alloc), &mut given).expect(rt, "memory");
    check_lines(rt, &given, lines);
    holds(rt, matches!(stage.state(), State::Wants), text);
    same(rt, stage.held(), held, text);
}

// A stage that is put a closed score gives so much by each put, and none when it wants.
fn check_puts<S: Stage + Drop>(
    rt: &impl Abort,
    alloc: Global,
    mut stage: S,
    records: Vec<Record>,
    puts: &[Put],
)
    requires fresh { (m : Meaning) × S.stands stage (opening m) }
    requires closed { IsClosed records.items }
    requires few { length records.items ≤ MOST_RECORDS }
{
    let mut rest = VecDeque::from_vec(records);
    let mut left = puts.iter();
    while let Some(next) = rest.pop_front() {
        let Some(put) = left.next() else {
            panic!(rt; "a record more");
        };
        gives_none(rt, &mut stage);
        stage.put(next).expect(rt, "memory");
        check_given(rt, alloc, &mut stage, put);
    }
    if left.next().is_some() {
        panic!(rt; "a record is missing");
    }
    stage.end(End::Closed);
    gives_none(rt, &mut stage);
    holds(
        rt,
        matches!(stage.state(), State::Done(End::Closed)),
        "closed",
    );
}

#[test]
fn each_command_gives_what_is_settled(rt: HostRuntime) {
    for row in ROWS {
        let (plan, puts) = *row;
        let (put, _given) = lines(&rt, rt.alloc(), puts);
        let records = score(&rt, rt.alloc(), &put);
        check_puts(&rt, rt.alloc(), stage(&rt, rt.alloc(), plan), records, puts);
    }
}

#[test]
fn each_command_is_run_whole(rt: HostRuntime) {
    for row in ROWS {
        let (plan, puts) = *row;
        let (put, given) = lines(&rt, rt.alloc(), puts);
        let records = score(&rt, rt.alloc(), &put);
        let stage = stage(&rt, rt.alloc(), plan);
        let (found, end) = whole(rt.alloc(), stage, records, End::Closed).expect(&rt, "memory");
        check_lines(&rt, &found, &given);
        same(&rt, end, End::Closed, plan);
    }
}
