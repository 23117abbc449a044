//! Closed scores, by hand.
ghost use Rattle.std.specs.Prelude.{◌≤◌, length};
ghost use Rattle.hum_score.specs.InOrder.{IsClosed};

use crate::compared::same_bytes;
use crate::record::read;
use hum_path::Paths;
use hum_record::Record;
use hum_stage::MOST_RECORDS;
use std::alloc::Global;
use std::process::Abort;

/// The lines of a score.
pub(crate) type Lines = &'static [&'static [u8]];

/// The records of these lines, which are a closed score.
pub(crate) fn score(rt: &impl Abort, alloc: Global, lines: &[&'static [u8]]) -> Vec<Record>
    ensures closed { IsClosed result.items }
    ensures few { length result.items ≤ MOST_RECORDS }
{
    let mut paths = Paths::new(alloc);
    let mut records = Vec::new(alloc);
    for line in lines {
        let record = read(rt, alloc, *line);
        let _moves = paths.step(&record).expect(rt, "no rule is broken");
        records.push(record).expect(rt, "memory");
    }
    paths.close().expect(rt, "no spine is open");
    if records.len() > 1_000 {
        panic!(rt; "too long for a test");
    }
    records
}

/// The records are those of these lines.
pub(crate) fn check_lines(rt: &impl Abort, found: &[Record], want: &[&'static [u8]]) {
    let mut lines = want.iter();
    for record in found {
        let Some(line) = lines.next() else {
            panic!(rt; "a record more");
        };
        same_bytes(rt, record.text(), *line, *line);
    }
    if lines.next().is_some() {
        panic!(rt; "a record is missing");
    }
}
