//! Patterns and tokens, by hand.
use crate::compared::same;
use hum_pattern::{Pattern, PatternFault};

/// Patterns, each with a token that it matches, where the first match ends, and a token that it doesn't
/// match.
const MATCHED: &[(&str, &[u8], usize, &[u8])] = &[
    ("^=", b"=1", 1, b"a="),
    ("a|b", b"cb", 2, b"c"),
    ("[0-9]+$", b"a12", 3, b"12a"),
    // bytes that are no text
    ("(?-u:\\xff)", b"a\xff", 2, b"a\xfe"),
    ("=", b"==12", 1, b"12"),
    ("b+", b"abbcbbb", 3, b"ac"),
    ("a|ab", b"cab", 2, b"cb"),
    ("^b", b"b", 1, b"ab"),
];

#[test]
fn matches_anywhere_in_a_token(rt: HostRuntime) {
    for row in MATCHED {
        let (text, matched, end, other) = *row;
        let mut pattern = Pattern::new(rt.alloc(), text).expect(&rt, "a pattern");
        let ends = (pattern.end_of_first(matched), pattern.end_of_first(other));
        let first = pattern.matches(matched);
        let second = pattern.matches(other);
        let third = pattern.matches(matched);
        let found = (first, second, third, ends);
        same(&rt, found, (true, false, true, (Some(end), None)), text);
        let mut copy = pattern.copy(rt.alloc()).expect(&rt, "memory");
        let found = (copy.matches(matched), copy.matches(other));
        same(&rt, found, (true, false), text);
    }
}

const REFUSED: &[(&str, PatternFault)] = &[
    ("(", PatternFault::Refused),
    ("a{9,1}", PatternFault::Refused),
    ("(?-u:.{1000000}){1000}", PatternFault::TooLarge),
];

#[test]
fn refuses_what_is_no_expression(rt: HostRuntime) {
    for row in REFUSED {
        let (text, fault) = *row;
        let found = Pattern::new(rt.alloc(), text).err();
        same(&rt, found, Some(fault), text);
    }
}
