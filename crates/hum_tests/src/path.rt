//! Spines of small scores, by hand: where they come from, and each rule broken once.
ghost use Rattle.std.specs.Prelude.{[]};

use crate::compared::{holds, same, same_bytes};
use crate::record::read;
use hum_path::{Carried, ColumnMemory, Move, Moves, PathFault, Paths};
use std::alloc::{AllocError, Global};
use std::marker::Model;
use std::process::Abort;

fn check_moves(rt: &impl Abort, found: &Moves, want: &[Move]) {
    same(rt, found.len(), want.len(), "spines");
    same(rt, found.is_empty(), want.is_empty(), "no spines");
    for (i, from) in want.iter().enumerate() {
        if i < found.len() {
            holds(rt, found.get(i) == *from, "where a spine comes from");
        }
    }
    if let Some(listed) = found.as_listed() {
        holds(rt, listed == want, "a list");
    }
}

fn check_names(rt: &impl Abort, paths: &Paths, want: &[&'static [u8]]) {
    same(rt, paths.width(), want.len(), "spines");
    for (j, name) in want.iter().enumerate() {
        if j < paths.width() {
            same_bytes(rt, paths.exclusive(j), *name, j);
        }
    }
}

/// A record, where the spines after it come from or the rule that it breaks, and the names of the
/// spines then. What breaks a rule leaves them as they were.
type Row = (
    &'static [u8],
    Result<&'static [Move], PathFault>,
    &'static [&'static [u8]],
);

fn check_steps(rt: &impl Abort, alloc: Global, paths: &mut Paths, rows: &[Row]) {
    for row in rows {
        let (text, want, names) = *row;
        let found = paths.step(&read(rt, alloc, text));
        match want {
            Ok(moves) => check_moves(rt, &found.expect(rt, "moves"), moves),
            Err(fault) => same(rt, found.err(), Some(fault), text),
        }
        check_names(rt, paths, names);
    }
}

const TWO: &[Move] = &[Move::Same(0), Move::Same(1)];

const THREE: &[Move] = &[Move::Same(0), Move::Same(1), Move::Same(2)];

const FOLLOWED: &[Row] = &[
    (b"!!title", Ok(&[]), &[]),
    (b"**x\t**y", Ok(TWO), &[b"**x", b"**y"]),
    (
        b"*x\t*x",
        Ok(&[Move::Same(1), Move::Same(0)]),
        &[b"**y", b"**x"],
    ),
    (
        b"*^\t*",
        Ok(&[Move::Left(0), Move::Right(0), Move::Same(1)]),
        &[b"**y", b"**y", b"**x"],
    ),
    (b"1\t2\t3", Ok(THREE), &[b"**y", b"**y", b"**x"]),
    (b"*\t*clefG2\t*", Ok(THREE), &[b"**y", b"**y", b"**x"]),
    (
        b"*v\t*v\t*",
        Ok(&[Move::Join(0, 1), Move::Same(2)]),
        &[b"**y", b"**x"],
    ),
    (
        b"*+\t*",
        Ok(&[Move::Same(0), Move::Added(0), Move::Same(1)]),
        &[b"**y", b"", b"**x"],
    ),
    (b"*\t**z\t*", Ok(THREE), &[b"**y", b"**z", b"**x"]),
];

const ENDED: &[Row] = &[(b"*-\t*-\t*-", Ok(&[]), &[])];

#[test]
fn follows_spines(rt: HostRuntime) {
    let alloc = rt.alloc();
    let mut paths = Paths::new(alloc);
    holds(&rt, paths.is_closed(), "no spine was opened");
    check_steps(&rt, alloc, &mut paths, FOLLOWED);
    same(&rt, paths.close(), Err(PathFault::P8), "spines are open");
    check_steps(&rt, alloc, &mut paths, ENDED);
    holds(&rt, paths.is_closed(), "all spines have ended");
    same(&rt, paths.close(), Ok(()), "all spines have ended");
}

const REFUSED: &[Row] = &[
    (b"4c", Err(PathFault::P1), &[]),
    (b"**x\t*", Err(PathFault::P1), &[]),
    (b"**x\t**", Err(PathFault::P10), &[]),
    (b"**x\t**x\t**y", Ok(THREE), &[b"**x", b"**x", b"**y"]),
    (b"1\t2", Err(PathFault::P2), &[b"**x", b"**x", b"**y"]),
    (b"*v\t*\t*", Err(PathFault::P3), &[b"**x", b"**x", b"**y"]),
    (b"*\t*\t*x", Err(PathFault::P4), &[b"**x", b"**x", b"**y"]),
    (b"*\t*v\t*v", Err(PathFault::P5), &[b"**x", b"**x", b"**y"]),
    (b"*\t**\t*", Err(PathFault::P10), &[b"**x", b"**x", b"**y"]),
    (
        b"**x\t*^\t*",
        Err(PathFault::P11),
        &[b"**x", b"**x", b"**y"],
    ),
    (
        b"*+\t*-\t*-",
        Ok(&[Move::Same(0), Move::Added(0)]),
        &[b"**x", b""],
    ),
    (b"1\t2", Err(PathFault::P6), &[b"**x", b""]),
    (b"*\t*", Err(PathFault::P6), &[b"**x", b""]),
    (b"*\t**z", Ok(TWO), &[b"**x", b"**z"]),
    (b"*-\t*-", Ok(&[]), &[]),
    (b"1", Err(PathFault::P7), &[]),
    (b"*", Err(PathFault::P7), &[]),
];

const OPENED: &[Row] = &[(b"**x", Ok(&[Move::Same(0)]), &[b"**x"])];

#[test]
fn refuses_what_breaks_a_rule(rt: HostRuntime) {
    let alloc = rt.alloc();
    let mut paths = Paths::new(alloc);
    check_steps(&rt, alloc, &mut paths, REFUSED);
    let mut other = Paths::new(alloc);
    check_steps(&rt, alloc, &mut other, OPENED);
}

/// The nearest cell above.
#[derive(Drop)]
struct Nearest {
    alloc: Global,
    token: Vec<u8>,
}

impl Model for Nearest {
    ghost use Rattle.std.specs.Prelude.{ℕ, List};

    ghost Value = { List ℕ };

    ghost view = { λ m. m.token.items };
}

impl ColumnMemory for Nearest {
    type Rule = ();

    ghost beginning = { [] };

    ghost seen = { λ _ token _. token };

    fn fresh(alloc: Global) -> Self {
        Nearest {
            alloc,
            token: Vec::new(alloc),
        }
    }

    fn see(&mut self, _rule: &mut (), token: &[u8]) -> Result<(), AllocError> {
        self.token.clear();
        self.token.extend_from_slice(token)?;
        Ok(())
    }

    fn copy(&self) -> Result<Self, AllocError> {
        Ok(Nearest {
            alloc: self.alloc,
            token: self.token.as_slice().to_vec(self.alloc)?,
        })
    }
}

fn check_nearest(rt: &impl Abort, carried: &Carried<Nearest>, want: &[&'static [u8]]) {
    same(rt, carried.width(), want.len(), "spines");
    for (i, token) in want.iter().enumerate() {
        if i < carried.width() {
            same_bytes(rt, &carried.at(i).token, *token, i);
        }
    }
}

/// A record, and the nearest cell above each spine after it.
const REMEMBERED: &[(&[u8], &[&[u8]])] = &[
    (b"!!c", &[]),
    (b"**x\t**y", &[b"**x", b"**y"]),
    (b"*x\t*x", &[b"*x", b"*x"]),
    (b"a\tb", &[b"a", b"b"]),
    (b"*^\t*I", &[b"*^", b"*^", b"*I"]),
    (b"c\td\te", &[b"c", b"d", b"e"]),
    (b"*\t*\t*M", &[b"*", b"*", b"*M"]),
    (b"*v\t*v\t*+", &[b"*v", b"*+", b""]),
    (b"*\t*\t**z", &[b"*", b"*", b"**z"]),
];

fn follow(
    rt: &impl Abort,
    alloc: Global,
    paths: &mut Paths,
    carried: &mut Carried<Nearest>,
    text: &[u8],
) {
    let row = read(rt, alloc, text);
    let found = paths.step(&row).expect(rt, "moves");
    carried.follow(&mut (), &row, &found).expect(rt, "memory");
}

#[test]
fn remembers_columns(rt: HostRuntime) {
    let alloc = rt.alloc();
    let mut paths = Paths::new(alloc);
    let mut carried = Carried::new(alloc);
    for line in REMEMBERED {
        let (text, nearest) = *line;
        follow(&rt, alloc, &mut paths, &mut carried, text);
        check_nearest(&rt, &carried, nearest);
    }
}
