//! Fractions worked by hand, each call.
use crate::compared::{holds, same};
use hum_frac::{Frac, FracFault};
use std::process::Abort;

/// A numerator and a denominator.
type Ratio = (u64, u64);

const LARGE: u64 = 1 << 62;

fn frac(rt: &impl Abort, ratio: Ratio) -> Frac {
    let (top, bottom) = ratio;
    assert!(rt; top <= LARGE && 0 < bottom && bottom <= LARGE);
    Frac::new(top, bottom)
}

const LOWEST: &[(Ratio, Ratio)] = &[
    ((6, 4), (3, 2)),
    ((0, 7), (0, 1)),
    ((5, 5), (1, 1)),
    ((4096, 12), (1024, 3)),
];

#[test]
fn a_fraction_is_kept_in_lowest_terms(rt: HostRuntime) {
    for row in LOWEST {
        let (given, kept) = *row;
        same(&rt, frac(&rt, given), frac(&rt, kept), given);
    }
    same(&rt, Frac::zero(), frac(&rt, (0, 9)), "zero");
}

/// Two fractions, their sum if it fits, and whether the first is before the second.
const PAIRS: &[(Ratio, Ratio, Option<Ratio>, bool)] = &[
    ((1, 6), (1, 3), Some((1, 2)), true),
    ((3, 4), (0, 1), Some((3, 4)), false),
    ((1, LARGE), (1, LARGE - 1), None, true),
    ((1, LARGE), (1, LARGE), Some((1, LARGE / 2)), false),
    ((1, 3), (3, 8), Some((17, 24)), true),
    ((3, 8), (1, 3), Some((17, 24)), false),
    ((2, 6), (1, 3), Some((2, 3)), false),
];

fn wanted(rt: &impl Abort, sum: Option<Ratio>) -> Result<Frac, FracFault> {
    match sum {
        Some(sum) => Ok(frac(rt, sum)),
        None => Err(FracFault::F1),
    }
}

#[test]
fn sums_and_order(rt: HostRuntime) {
    for row in PAIRS {
        let (a, b, sum, before) = *row;
        let (one, other) = (frac(&rt, a), frac(&rt, b));
        let found = (one.add(other), one < other);
        same(&rt, found, (wanted(&rt, sum), before), (a, b));
    }
    holds(&rt, frac(&rt, (1, 3)) != frac(&rt, (3, 8)), "1/3 and 3/8");
}

/// Fractions, and whether each is a multiple of 3/16.
const MULTIPLES: &[(Ratio, bool)] = &[((3, 4), true), ((0, 1), true), ((1, 4), false)];

#[test]
fn multiples(rt: HostRuntime) {
    let unit = Frac::new(3, 16);
    for row in MULTIPLES {
        let (ratio, is) = *row;
        same(&rt, frac(&rt, ratio).is_multiple(unit), is, ratio);
    }
}

/// Two fractions, and how many quarters are strictly between them.
const BETWEEN: &[(Ratio, Ratio, u128)] = &[
    // 1/4, 2/4, 3/4 and 1 are strictly between 0 and 5/4, which is none of them.
    ((0, 1), (5, 4), 4),
    ((1, 8), (9, 8), 4),
    ((1, 4), (1, 2), 0),
    ((1, 2), (1, 4), 0),
];

#[test]
fn multiples_in_between(rt: HostRuntime) {
    let quarter = Frac::new(1, 4);
    for row in BETWEEN {
        let (from, to, count) = *row;
        let found = frac(&rt, from).multiples_between(frac(&rt, to), quarter);
        same(&rt, found, count, (from, to));
    }
}
