//! What a net has of its stages, by hand, call after call: a score that is read, and assemble.
use crate::compared::{holds, same, same_bytes};
use crate::sources::Pieces;
use hum_assemble::Assemble;
use hum_read::{ReadError, ScoreReader};
use hum_record::{Record, Spare};
use hum_stage::End;
use hum_text::calls::Marked;
use std::alloc::Global;
use std::process::Abort;

type Reader = ScoreReader<Marked<Pieces<'static>>>;

// What a turn has given, as text.
fn shown<'a>(reader: &Reader, next: &'a Option<Record>) -> &'a [u8] {
    match next {
        Some(record) => record.text(),
        None => match reader.stopped() {
            None => b"nothing",
            Some(Ok(End::Closed)) => b"closed",
            Some(Ok(End::Broken(_))) => b"broken",
            Some(Err(ReadError::Read)) => b"failed",
            Some(Err(ReadError::Memory)) => b"out of memory",
        },
    }
}

/// A text, how many reads of it are good, and what each turn gives.
const READ: &[(&[u8], usize, &[&[u8]])] = &[
    (
        b"**x\n*-",
        usize::MAX,
        &[b"nothing", b"**x", b"*-", b"closed", b"closed"],
    ),
    (
        b"**x\n\n*-\n",
        usize::MAX,
        &[b"nothing", b"**x", b"broken", b"broken"],
    ),
    (b"**x\n*-", 0, &[b"failed", b"failed"]),
];

// The reader of this source gives so much by each turn. What was given goes to the pool, and the next is
// read into it.
fn check_turns(rt: &impl Abort, alloc: Global, source: Pieces<'static>, turns: &[&[u8]]) {
    let mut reader = ScoreReader::new(alloc, 1, Marked::new(source));
    let mut pool = Spare::none(alloc);
    for want in turns {
        let next = reader.next(&mut pool);
        same_bytes(rt, shown(&reader, &next), *want, *want);
        if let Some(row) = next {
            pool.keep(row);
        }
    }
}

#[test]
fn scores_are_read(rt: HostRuntime) {
    for row in READ {
        let (text, good, turns) = *row;
        let size = text.len();
        check_turns(&rt, rt.alloc(), Pieces { text, size, good }, turns);
    }
}

#[test]
fn several_scores_are_wanted_from_the_left(rt: HostRuntime) {
    let mut stage = Assemble::new(rt.alloc(), 6, 3).expect(&rt, "memory");
    same(&rt, stage.wants(), Some(0), "the leftmost");
    same(&rt, stage.held(), 0, "no record");
    holds(
        &rt,
        stage.take().expect(&rt, "memory").is_none(),
        "none is given",
    );
}
