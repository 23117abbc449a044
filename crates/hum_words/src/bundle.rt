//! Bundles: a plan and its scores in one stream.
//!
//! A bundle is the plan's lines, then for each score a line `--- NAME` and the score's bytes up to
//! the next line that begins with `--- ` or the end. A CR at the end of such a line is dropped, and
//! the first score of a name counts. A bundle has at most 67,108,864 bytes.
ghost use Rattle.std.specs.Prelude.{◌≡◌, ◌<◌, ◌++◌, ◌∷◌, length, option_map, nat_lt};
ghost use Rattle.hum_words.specs.Bundle.{largest, lines, without_last, name_in, names};
ghost use Rattle.hum_words.specs.Bundle.{before_name, plan_of, score_of};

use memchr::memchr;

/// How many bytes a bundle may have.
pub const LARGEST_BUNDLE: usize = 67_108_864;

/// Whether there are too many bytes for a bundle.
pub fn is_too_large(bundle: &[u8]) -> bool
    ensures { result ≡ nat_lt largest (length bundle.now) }
{
    bundle.len() > LARGEST_BUNDLE
}

/// The first line, with its LF, and what follows it.
fn cut_line(bytes: &[u8]) -> (&[u8], &[u8])
    requires { 0 < length bytes.now }
    ensures first { lines bytes.now ≡ result.0.now ∷ lines result.1.now }
    ensures whole { bytes.now ≡ result.0.now ++ result.1.now }
    ensures shorter { length result.1.now < length bytes.now }
{
    match memchr(b'\n', bytes) {
        Some(k) => bytes.split_at(k + 1),
        None => (bytes, &[]),
    }
}

/// A text without this byte at its end.
fn without_last(byte: u8, text: &[u8]) -> &[u8]
    ensures { result.now ≡ without_last byte text.now }
{
    match text {
        [front @ .., last] if *last == byte => front,
        _ => text,
    }
}

/// The name in a line that begins with `--- `.
fn name_in(line: &[u8]) -> Option<&[u8]>
    ensures { option_map (λ name. name.now) result ≡ name_in line.now }
{
    match line.strip_prefix(b"--- ") {
        Some(name) => Some(without_last(b'\r', without_last(b'\n', name))),
        None => None,
    }
}

/// Whether a line names the score of this name.
fn names(line: &[u8], name: &[u8]) -> bool
    ensures { result ≡ names (name_in line.now) name.now }
{
    match name_in(line) {
        Some(other) => other == name,
        None => false,
    }
}

/// The bytes in front of the first line that names a score.
fn before_name(bytes: &[u8]) -> &[u8]
    ensures { result.now ≡ before_name (lines bytes.now) }
{
    let mut len = 0;
    let mut rest = bytes;
    while !rest.is_empty() {
        let (line, behind) = cut_line(rest);
        if name_in(line).is_some() {
            return &bytes[..len];
        }
        len += line.len();
        rest = behind;
    }
    bytes
}

/// The plan's part of a bundle.
pub fn plan_part(bundle: &[u8]) -> &[u8]
    ensures { result.now ≡ plan_of bundle.now }
{
    before_name(bundle)
}

/// The bytes of the first score of this name.
pub fn score<'a>(bundle: &'a [u8], name: &str) -> Option<&'a [u8]>
    ensures { option_map (λ bytes. bytes.now) result ≡ score_of name.now bundle.entry.now }
{
    let mut rest = bundle;
    while !rest.is_empty() {
        let (line, behind) = cut_line(rest);
        if names(line, name.as_bytes()) {
            return Some(before_name(behind));
        }
        rest = behind;
    }
    None
}
