//! Opening spines that columns come from, by hand.
use crate::compared::same;
use crate::record::read;
use hum_path::{Origins, Paths};
use std::process::Abort;

/// A record, and the origin of each spine after it.
const TRACED: &[(&[u8], &[u16])] = &[
    (b"!!c", &[]),
    (b"**kern\t**dynam\t**kern", &[0, 1, 2]),
    (b"*^\t*\t*^", &[0, 0, 1, 2, 2]),
    (b"4c\t4e\tp\t4g\t4b", &[0, 0, 1, 2, 2]),
    (b"*v\t*v\t*\t*v\t*v", &[0, 1, 2]),
    (b"4c\tf\t4d", &[0, 1, 2]),
    (b"*x\t*\t*x", &[2, 1, 0]),
    (b"*+\t*\t*", &[2, 2, 1, 0]),
    (b"*\t**z\t*\t*", &[2, 2, 1, 0]),
    (b"*-\t*x\t*\t*x", &[0, 1, 2]),
    (b"*-\t*-\t*-", &[]),
];

fn check_origins(rt: &impl Abort, origins: &Origins, want: &[u16]) {
    same(rt, origins.width(), want.len(), "spines");
    for (j, origin) in want.iter().enumerate() {
        if j < origins.width() {
            same(rt, origins.at(j), *origin, j);
        }
    }
}

#[test]
fn origins_are_followed(rt: HostRuntime) {
    let mut paths = Paths::new(rt.alloc());
    let mut origins = Origins::new(rt.alloc());
    for line in TRACED {
        let (text, want) = *line;
        let row = read(&rt, rt.alloc(), text);
        let found = paths.step(&row).expect(&rt, "moves");
        origins.follow(&row, &found).expect(&rt, "memory");
        check_origins(&rt, &origins, want);
    }
}
