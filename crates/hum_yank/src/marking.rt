//! Which records begin and end passages.
ghost use Rattle.std.specs.Prelude.{◌≡◌, ◌≢◌, true, false, if◌then◌else◌, [], drop, Some, None};
ghost use Rattle.std.specs.List.{list_any, find, take_while};
ghost use Rattle.hum_score.specs.{Row.tokens_of};
ghost use Rattle.hum_record.specs.{Contents.is_null};
ghost use Rattle.hum_pattern.specs.Meaning.{matched, matched_by, first_end};
ghost use Rattle.hum_yank.specs.Passages.{passes, has_value, first_value, is_label, label_of};
ghost use Rattle.hum_yank.specs.Passages.{has_match, number_of, value_of, at_most, is_digit};
ghost use Rattle.hum_yank.specs.Passages.{is_last};
ghost use Rattle.hum_yank.specs.Options.{form_of};
ghost use Rattle.hum_yank.specs.Marks.{mark_of, marked, labelled};

use hum_choices::{GREATEST_PASSAGE, Markers};
use hum_pattern::Pattern;
use hum_record::{Kind, Record, is_null};

/// What a record begins.
#[derive(Clone, Copy, PartialEq, Eq)]
pub(crate) enum Mark {
    /// Nothing: it lies in the passage of the nearest marker above.
    Inside,
    /// A passage that is numbered by occurrence.
    Counted,
    /// A passage that bears this number, or none.
    Bears(Option<u32>),
}

/// Whether a token has a match of a pattern. Patterns are never tried on null tokens.
fn passes(pattern: &mut Pattern, token: &[u8]) -> bool
    ensures found { result ≡ passes (matched pattern.old) token.now }
    ensures kept { pattern.new ≡ pattern.old }
{
    !is_null(token) && pattern.matches(token)
}

fn any_passes(pattern: &mut Pattern, row: &Record) -> bool
    ensures found { result ≡ list_any (passes (matched pattern.old)) (tokens_of row.now) }
    ensures kept { pattern.new ≡ pattern.old }
{
    for token in row.tokens() {
        if passes(pattern, token) {
            return true;
        }
    }
    false
}

/// Whether a data record has a token that a pattern matches.
fn has_value(pattern: &mut Pattern, row: &Record) -> bool
    ensures found { result ≡ has_value (matched pattern.old) row.now }
    ensures kept { pattern.new ≡ pattern.old }
{
    match row.kind() {
        Kind::Values => any_passes(pattern, row),
        Kind::Global | Kind::Local | Kind::Interpretation => false,
    }
}

/// The same, if there is a pattern.
fn has_value_if(pattern: &mut Option<Pattern>, row: &Record) -> bool
    ensures found { result ≡ has_value (matched_by pattern.old) row.now }
    ensures kept { pattern.new ≡ pattern.old }
{
    match pattern {
        None => false,
        Some(pattern) => has_value(pattern, row),
    }
}

fn begins_with_digit(text: &[u8]) -> bool
    ensures none { result ≡ false → take_while is_digit text.now ≡ [] }
    ensures some { result ≡ true → take_while is_digit text.now ≢ [] }
{
    match text {
        [byte, ..] => byte.is_ascii_digit(),
        [] => false,
    }
}

/// The value of the digits at the front of a text, unless that is over 4,294,967,295.
fn value_at_front(text: &[u8]) -> Option<u32>
    ensures { result ≡ at_most (value_of 0 (take_while is_digit text.now)) }
{
    let mut value = 0u64;
    let mut rest = text;
    while let [byte, behind @ ..] = rest {
        if !byte.is_ascii_digit() {
            return Some(value as u32);
        }
        value = value * 10 + (*byte - b'0') as u64;
        if value > GREATEST_PASSAGE {
            return None;
        }
        rest = behind;
    }
    Some(value as u32)
}

/// The number at the front of a text, by the value of its digits.
fn number_at_front(text: &[u8]) -> Option<u32>
    ensures { result ≡ number_of (take_while is_digit text.now) }
{
    if begins_with_digit(text) {
        value_at_front(text)
    } else {
        None
    }
}

/// The number directly after a place in a token.
fn number_from(token: &[u8], end: usize) -> Option<u32>
    ensures { result ≡ number_of (take_while is_digit (drop end token.now)) }
{
    if end > token.len() {
        return None;
    }
    number_at_front(token.split_at(end).1)
}

/// What a token marks where passages bear numbers: nothing, if the pattern has no match in it.
fn mark_by_number(pattern: &mut Pattern, token: &[u8]) -> Mark
    ensures found { result ≡ marked (first_end pattern.old) (if passes
        (has_match (first_end pattern.old)) token.now then Some token.now else None) }
    ensures kept { pattern.new ≡ pattern.old }
{
    if is_null(token) {
        return Mark::Inside;
    }
    match pattern.end_of_first(token) {
        None => Mark::Inside,
        Some(end) => Mark::Bears(number_from(token, end)),
    }
}

/// The same of the leftmost token that marks anything.
fn first_by_number(pattern: &mut Pattern, row: &Record) -> Mark
    ensures found { result ≡ marked (first_end pattern.old)
        (find (passes (has_match (first_end pattern.old))) (tokens_of row.now)) }
    ensures kept { pattern.new ≡ pattern.old }
{
    for token in row.tokens() {
        let mark = mark_by_number(pattern, token);
        if mark != Mark::Inside {
            return mark;
        }
    }
    Mark::Inside
}

/// Whether a token is the label of a section.
fn is_label(token: &[u8]) -> bool
    ensures { result ≡ is_label token.now }
{
    token.starts_with(b"*>") && !token.contains(&b'[')
}

/// What a label marks.
fn mark_of_label(name: &[u8], label: &[u8]) -> Mark
    ensures { result ≡ labelled name.now (Some label.now) }
{
    match label {
        [b'*', b'>', rest @ ..] => if rest == name {
            Mark::Counted
        } else {
            Mark::Bears(None)
        },
        _ => Mark::Bears(None),
    }
}

/// What the leftmost label marks.
fn first_label(name: &[u8], row: &Record) -> Mark
    ensures { result ≡ labelled name.now (find is_label (tokens_of row.now)) }
{
    for token in row.tokens() {
        if is_label(token) {
            return mark_of_label(name, token);
        }
    }
    Mark::Inside
}

/// What a record begins.
pub(crate) fn mark_of(markers: &mut Markers, row: &Record) -> Mark
    ensures mark { result ≡ mark_of (form_of markers.old) row.now }
    ensures kept { markers.new ≡ markers.old }
{
    match markers {
        Markers::Lines => Mark::Counted,
        Markers::Numbers(pattern) => mark_numbers(pattern, row),
        Markers::Occurrences(begins, _) => if has_value(begins, row) {
            Mark::Counted
        } else {
            Mark::Inside
        },
        Markers::Labels(name) => mark_labels(name, row),
    }
}

/// Whether a passage ends with a record.
pub(crate) fn is_last(markers: &mut Markers, row: &Record) -> bool
    ensures ends { result ≡ is_last (form_of markers.old) row.now }
    ensures kept { markers.new ≡ markers.old }
{
    match markers {
        Markers::Lines => false,
        Markers::Numbers(_) => false,
        Markers::Occurrences(_, ends) => has_value_if(ends, row),
        Markers::Labels(_) => false,
    }
}

fn mark_numbers(pattern: &mut Pattern, row: &Record) -> Mark
    ensures mark { result ≡ marked (first_end pattern.old)
        (first_value (has_match (first_end pattern.old)) row.now) }
    ensures kept { pattern.new ≡ pattern.old }
{
    match row.kind() {
        Kind::Values => first_by_number(pattern, row),
        Kind::Global | Kind::Local | Kind::Interpretation => Mark::Inside,
    }
}

fn mark_labels(name: &[u8], row: &Record) -> Mark
    ensures { result ≡ labelled name.now (label_of row.now) }
{
    match row.kind() {
        Kind::Interpretation => first_label(name, row),
        Kind::Global | Kind::Local | Kind::Values => Mark::Inside,
    }
}
