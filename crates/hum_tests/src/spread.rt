//! The spread rule on interpretations of some tokens, by hand.
ghost use Rattle.std.specs.Prelude.{◌≡◌};
ghost use lib.Chars.{codes};
ghost use Rattle.hum_columns.specs.Spread.{piece};
ghost use Rattle.hum_columns.specs.Writing.{Fit};

use crate::compared::{holds, same, same_bytes};
use hum_columns::{JoinedToken, write_pieces};
use hum_record::Record;
use hum_stage::{Refusal, Rule};
use std::alloc::Global;
use std::collections::VecDeque;
use std::process::Abort;

// What is answered where there is room for so many records, and the records, with LF behind each.
fn check(
    rt: &impl Abort,
    alloc: Global,
    pieces: &[JoinedToken],
    room: u64,
    want: (Result<(), Refusal>, &[u8]),
)
    requires { Fit pieces.now }
{
    let mut out: VecDeque<Record> = VecDeque::new(alloc);
    let answer = write_pieces(alloc, pieces, room, &mut out);
    let mut texts = Vec::new(alloc);
    for record in &out {
        texts.extend_from_slice(record.text()).expect(rt, "memory");
        texts.push(b'\n').expect(rt, "memory");
    }
    same(rt, answer, want.0, room);
    same_bytes(rt, &texts, want.1, room);
}

// A `*v`, which may be the first of its join.
fn of_join(begins: bool) -> JoinedToken<'static>
    ensures { result ≡ piece begins (codes "*v") }
{
    JoinedToken::new(begins, b"*v")
}

#[test]
fn writes_neighbouring_joins_one_after_another(rt: HostRuntime) {
    let alloc = rt.alloc();
    let null = JoinedToken::new(false, b"*");
    let apart = [
        of_join(true),
        of_join(false),
        null,
        of_join(true),
        of_join(false),
    ];
    check(&rt, alloc, &apart, 1, (Ok(()), b"*v\t*v\t*\t*v\t*v\n"));
    let split = JoinedToken::new(false, b"*^");
    let beside = [
        of_join(true),
        of_join(false),
        of_join(true),
        of_join(false),
        split,
    ];
    let texts = b"*v\t*v\t*\t*\t*\n*\t*v\t*v\t*^\n";
    check(&rt, alloc, &beside, 2, (Ok(()), texts));
    // no room, and no tokens
    check(&rt, alloc, &beside, 1, (Err(Refusal::Rule(Rule::L2)), b""));
    check(&rt, alloc, &[], 0, (Ok(()), b""));
}

#[test]
fn a_piece_is_a_token(rt: HostRuntime) {
    let piece = JoinedToken::new(true, b"*v");
    holds(&rt, piece.begins(), "a join begins");
    same_bytes(&rt, piece.token(), b"*v", "a token");
}
