//! The lines of a plan that are branches.
ghost use Rattle.std.specs.Prelude.{◌≡◌, ◌+◌, ◌<◌, ◌≤◌, ◌∷◌, length};
ghost use Rattle.hum_words.specs.Branches.{lines_of, without_cr, is_skipped};
ghost use Rattle.hum_words.specs.declared.text.TheConstants.{LONGEST_PLAN};

use crate::characters::skip_blanks;
use crate::text::LONGEST_PLAN;
use std::iter::Iterator;

/// A line that is a branch, with its number, from 1, among all lines.
#[derive(Clone, Copy)]
pub struct Line<'a> {
    pub number: u32,
    pub text: &'a str,
    pub ghost in_range: { length text.now ≤ LONGEST_PLAN },
}

/// The branches of a plan, in order.
#[derive(Drop)]
pub struct Lines<'a> {
    rest: &'a str,
    number: u32,
    ghost in_range: { number + length rest.now ≤ LONGEST_PLAN },
}

/// The first line of a text that isn't empty, and what follows it.
fn first_line(text: &str) -> (&str, &str)
    requires { 0 < length text.now }
    ensures first { lines_of text.now ≡ result.0.now ∷ lines_of result.1.now }
    ensures shorter { length result.0.now + length result.1.now ≤ length text.now }
    ensures less { length result.1.now < length text.now }
{
    match text.split_once('\n') {
        Some((line, rest)) => (line, rest),
        None => (text, ""),
    }
}

/// The line without one CR at its end.
fn strip_cr(line: &str) -> &str
    ensures value { result.now ≡ without_cr line.now }
    ensures shorter { length result.now ≤ length line.now }
{
    match line.strip_suffix('\r') {
        Some(front) => front,
        None => line,
    }
}

/// Whether the line has blanks alone, or is a comment.
fn is_skipped(line: &str) -> bool
    ensures { result ≡ is_skipped line.now }
{
    matches!(skip_blanks(line).as_bytes(), [] | [b'#', ..])
}

/// How many lines a plan has, those that are skipped among them.
pub fn line_count(plan: &str) -> u32
    requires { length plan.now ≤ LONGEST_PLAN }
    ensures { result ≡ length (lines_of plan.now) }
{
    let mut count = 0;
    let mut rest = plan;
    while !rest.is_empty() {
        rest = first_line(rest).1;
        count += 1;
    }
    count
}

impl<'a> Lines<'a> {
    ghost use Rattle.hum_words.specs.Branches.{branches_of};
    ghost use Rattle.hum_words.specs.Rest.{branches_left};

    /// The branches of a plan.
    pub fn new(plan: &'a str) -> Lines<'a>
        requires { length plan.now ≤ LONGEST_PLAN }
        ensures { branches_left result ≡ branches_of plan.now }
    {
        Lines {
            rest: plan,
            number: 0,
        }
    }
}

impl<'a> Iterator for Lines<'a> {
    type Item = Line<'a>;

    ghost use Rattle.std.specs.Iterator.{YieldsFirstBy, item_count};
    ghost use Rattle.hum_words.specs.Rest.{branch_of, branches_left};

    ghost next_gives = { YieldsFirstBy branch_of branches_left };

    ghost remaining = { item_count branches_left };

    fn next(&mut self) -> Option<Line<'a>> {
        while !self.rest.is_empty() {
            let (line, rest) = first_line(self.rest);
            self.rest = rest;
            self.number += 1;
            let text = strip_cr(line);
            if !is_skipped(text) {
                return Some(Line {
                    number: self.number,
                    text,
                });
            }
        }
        None
    }
}
