//! Columns that are chosen, by hand: marks and torn joins.
use crate::compared::{holds, same};
use crate::record::read;
use hum_columns::is_torn;
use hum_path::Marks;

/// Marks, and whether some and all of them are set.
const MARKED: &[(&[bool], bool, bool)] = &[(&[false, true], true, false), (&[], false, true)];

#[test]
fn tells_some_and_all(rt: HostRuntime) {
    for row in MARKED {
        let (each, some, all) = *row;
        let marks = Marks::new(each.to_vec(rt.alloc()).expect(&rt, "memory"));
        same(&rt, (marks.some(), marks.all()), (some, all), each);
    }
    holds(&rt, !Marks::none(rt.alloc()).some(), "no marks");
}

#[test]
fn finds_torn_joins(rt: HostRuntime) {
    let row = read(&rt, rt.alloc(), b"*v\t*v\t*");
    assert!(rt; row.width() == 3);
    let torn = is_torn(&[true, false, false], &row);
    let whole = is_torn(&[true, true, false], &row);
    same(&rt, (torn, whole), (true, false), "a join");
}
