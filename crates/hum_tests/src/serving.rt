//! Two scores side by side, by hand: assemble is served by what it wants.
ghost use Rattle.std.specs.Prelude.{◌≡◌, ◌≤◌, ℕ, Some, length};
ghost use Rattle.hum_stage.specs.declared.faults.End.TheVariants as ends;
ghost use Rattle.hum_score.specs.InOrder.{IsScore, IsClosed};
ghost use Rattle.hum_assemble.specs.Meaning.{Moment, wants_of};
ghost use Rattle.hum_assemble.specs.Standing.{Stands};
ghost use Rattle.hum_tests.specs.Serving.{MayServe, IsServed};

use crate::compared::same;
use crate::scores::{Lines, check_lines, score};
use hum_assemble::Assemble;
use hum_record::Record;
use hum_stage::{Command, End, Fault, MOST_RECORDS, Rule, State};
use std::alloc::Global;
use std::collections::VecDeque;
use std::process::Abort;

// The source that is wanted goes on by its next record, or ends.
fn give(rt: &impl Abort, stage: &mut Assemble, j: usize, coming: &mut VecDeque<Record>, end: End)
    requires { MayServe (Stands stage.old) j coming.old.items end }
    ensures { (t : Moment) → Stands stage.old t → wants_of t ≡ Some j
        → IsServed (Stands stage.new) j t coming.old.items coming.new.items }
{
    match coming.pop_front() {
        Some(row) => stage.put(j, row).expect(rt, "memory"),
        None => stage.end(j, end),
    }
}

// Takes all that is settled.
fn take_all(rt: &impl Abort, stage: &mut Assemble, given: &mut Vec<Record>)
    ensures { (t : Moment) → Stands stage.old t
        → (n : ℕ) × Stands stage.new (record t { given = n }) }
{
    for _ in 0..stage.held() {
        match stage.take().expect(rt, "memory") {
            Some(row) => given.push(row).expect(rt, "memory"),
            None => {}
        }
    }
}

// What is given of two scores, of which the second ends so, and how.
fn serve(
    rt: &impl Abort,
    alloc: Global,
    first: Vec<Record>,
    second: Vec<Record>,
    end: End,
) -> (Vec<Record>, End)
    requires first { IsClosed first.items }
    requires few { length first.items ≤ MOST_RECORDS }
    requires second { IsScore second.items }
    requires closed { end ≡ ends.Closed → IsClosed second.items }
    requires few_too { length second.items ≤ MOST_RECORDS }
{
    let rounds = first.len() + second.len() + 2;
    let mut left = VecDeque::from_vec(first);
    let mut right = VecDeque::from_vec(second);
    let mut stage = Assemble::new(alloc, 3, 2).expect(rt, "memory");
    let mut given = Vec::new(alloc);
    for _ in 0..rounds {
        match stage.wants() {
            Some(0) => give(rt, &mut stage, 0, &mut left, End::Closed),
            Some(_) => give(rt, &mut stage, 1, &mut right, end),
            None => {}
        }
        take_all(rt, &mut stage, &mut given);
    }
    let State::Done(ending) = stage.state() else {
        panic!(rt; "something is wanted");
    };
    (given, ending)
}

// A closed score that breaks off in front of its last record.
fn without_last(mut records: Vec<Record>) -> Vec<Record>
    requires closed { IsClosed records.items }
    requires few { length records.items ≤ MOST_RECORDS }
    ensures score { IsScore result.items }
    ensures few { length result.items ≤ MOST_RECORDS }
{
    let len = records.len().saturating_sub(1);
    records.truncate(len);
    records
}

#[test]
fn two_scores_are_served_as_they_are_wanted(rt: HostRuntime) {
    let a: Lines = &[b"**x", b"*^", b"1\t2", b"*v\t*v", b"*-"];
    let b: Lines = &[b"**y", b"*^", b"7\t8", b"*v\t*v", b"9", b"*-"];
    let (first, second) = (score(&rt, rt.alloc(), a), score(&rt, rt.alloc(), b));
    let (given, ending) = serve(&rt, rt.alloc(), first, second, End::Closed);
    let want: Lines = &[
        b"**x\t**y",
        b"*^\t*",
        b"*\t*\t*^",
        b"1\t2\t7\t8",
        b"*v\t*v\t*\t*",
        b"*\t*v\t*v",
        b".\t9",
        b"*-\t*-",
    ];
    check_lines(&rt, &given, want);
    same(&rt, ending, End::Closed, "no stage refuses");
}

#[test]
fn a_score_that_breaks_off_ends_what_is_given(rt: HostRuntime) {
    let a = score(&rt, rt.alloc(), &[b"**x", b"1", b"2", b"*-"]);
    let b = without_last(score(&rt, rt.alloc(), &[b"**y", b"7", b"*-"]));
    let fault = Fault {
        stage: 2,
        command: Command::Read,
        line: 3,
        rule: Rule::P8,
    };
    let end = End::Broken(fault);
    let (given, ending) = serve(&rt, rt.alloc(), a, b, end);
    check_lines(&rt, &given, &[b"**x\t**y", b"1\t7"]);
    same(&rt, ending, end, "the fault of the source");
}
