//! Links of a net by hand.
use crate::compared::{same, same_bytes};
use crate::record::read;
use hum_engine::{Link, Taken};
use hum_stage::End;
use std::alloc::Global;
use std::process::Abort;

/// What is done with a link.
#[derive(Clone, Copy)]
enum Call {
    // a record of this text is pushed
    Push(&'static [u8]),
    // its end is set
    End,
    // what comes next is taken: a record of this text, `end` for the end and nothing for nothing
    Next(&'static [u8]),
}

/// A call, and then how many records the link holds, whether there is room, whether there is
/// something to take, whether its end is unset, and the end that was heard.
type Step = (Call, (usize, bool, bool, bool, Option<End>));

// A link of this size, call after call.
fn check(rt: &impl Abort, alloc: Global, size: usize, steps: &[Step]) {
    let mut link = Link::new(alloc, size).expect(rt, "memory");
    for step in steps {
        let (call, told) = *step;
        match call {
            Call::Push(text) => {
                assert!(rt; link.has_room());
                link.push(read(rt, alloc, text));
            }
            Call::End => link.end(End::Closed),
            Call::Next(want) => match link.take() {
                Taken::Record(record) => same_bytes(rt, record.text(), want, "a record"),
                Taken::End(_) => same_bytes(rt, b"end", want, "the end"),
                Taken::Nothing => same_bytes(rt, b"", want, "nothing"),
            },
        }
        let (len, room) = (link.len(), link.has_room());
        let found = (len, room, link.has_some(), link.is_unset(), link.heard());
        same(rt, found, told, size);
    }
}

const IN_ORDER: &[Step] = &[
    (Call::Next(b""), (0, true, false, true, None)),
    (Call::Push(b"!!a"), (1, true, true, true, None)),
    (Call::Push(b"!!b"), (2, false, true, true, None)),
    (Call::End, (2, false, true, false, None)),
    (Call::Next(b"!!a"), (1, true, true, false, None)),
    (Call::Next(b"!!b"), (0, true, true, false, None)),
    (
        Call::Next(b"end"),
        (0, true, false, false, Some(End::Closed)),
    ),
];

/// An empty link gives nothing, and one of a single record goes round.
const ROUND: &[Step] = &[
    (Call::Next(b""), (0, true, false, true, None)),
    (Call::Push(b"!!a"), (1, false, true, true, None)),
    (Call::Next(b"!!a"), (0, true, false, true, None)),
    (Call::Push(b"!!a"), (1, false, true, true, None)),
    (Call::Next(b"!!a"), (0, true, false, true, None)),
    (Call::Push(b"!!a"), (1, false, true, true, None)),
    (Call::Next(b"!!a"), (0, true, false, true, None)),
    (Call::Push(b"!!a"), (1, false, true, true, None)),
    (Call::Next(b"!!a"), (0, true, false, true, None)),
    (Call::Push(b"!!a"), (1, false, true, true, None)),
    (Call::Next(b"!!a"), (0, true, false, true, None)),
];

#[test]
fn records_come_in_their_order_then_the_end(rt: HostRuntime) {
    check(&rt, rt.alloc(), 2, IN_ORDER);
    check(&rt, rt.alloc(), 1, ROUND);
}
