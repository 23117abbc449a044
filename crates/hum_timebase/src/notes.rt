//! Timed columns, and the notes in their cells.
ghost use Rattle.std.specs.Prelude.{◌≡◌, ◌∷◌, ◌++◌, ◌≤◌, ◌<◌, [], length, false, IfOk, OnOk};
ghost use Rattle.std.specs.Prelude.{IfSome, slice_index_or, is_some, ◌&&◌};
ghost use Rattle.hum_score.specs.{Row.tokens_of};
ghost use Rattle.hum_record.specs.{Contents.is_null, Contents.is_barline};
ghost use Rattle.hum_score.specs.Spines.{exclusives};
ghost use Rattle.hum_kern.specs.{Duration.value_in, Duration.is_refused, Runs.run};
ghost use Rattle.hum_kern.specs.{Subtokens.leads_shortly};
ghost use Rattle.hum_timebase.specs.Notes.{is_timed, timed_in, own_name, timed_at, is_sounding};
ghost use Rattle.hum_timebase.specs.Notes.{subtokens, first_duration, some_refused, note_of};
ghost use Rattle.hum_timebase.specs.Notes.{is_misread};
ghost use Rattle.hum_timebase.specs.Reading.{content_of, rest_parts, is_part, Read, IsNote, Reads};

use hum_frac::Frac;
use hum_kern::{KernFault, Length, leading_duration, read_duration, read_leading};
use hum_path::{Marks, Paths, token_sign};
use hum_record::{Record, is_barline, is_null};
use std::alloc::{AllocError, Global};

/// A note of a record: the column that it stands in, and its duration in whole notes.
#[derive(Clone, Copy)]
pub(crate) struct NoteAt {
    pub(crate) column: usize,
    pub(crate) lasting: Frac,
}

/// Whether columns under an exclusive interpretation are timed.
fn is_timed(name: &[u8]) -> bool
    ensures { result ≡ is_timed name.now }
{
    name == b"**kern".as_slice() || name == b"**recip".as_slice()
}

/// Which spines are timed.
pub(crate) fn timed_in(alloc: Global, paths: &Paths) -> Result<Marks, AllocError>
    ensures { IfOk result (λ timed. timed ≡ timed_in paths.now.path) }
{
    let mut timed = Vec::new(alloc);
    for j in 0..paths.width() {
        timed.push(is_timed(paths.exclusive(j)))?;
    }
    Ok(Marks::new(timed))
}

/// The exclusive interpretation that the token in a column stands under.
fn own_name<'a>(paths: &'a Paths, token: &'a [u8], j: usize) -> &'a [u8]
    ensures { result.now ≡ own_name (slice_index_or (exclusives paths.now.path) j []) token.now }
{
    if token_sign(token).is_exclusive() {
        token
    } else if j < paths.width() {
        paths.exclusive(j)
    } else {
        b""
    }
}

/// Which cells of an interpretation stand in timed columns.
pub(crate) fn timed_at(alloc: Global, paths: &Paths, row: &Record) -> Result<Marks, AllocError>
    ensures { IfOk result (λ timed. timed ≡ timed_at paths.now.path (tokens_of row.now)) }
{
    let mut timed = Vec::new(alloc);
    for j in 0..row.width() {
        timed.push(is_timed(own_name(paths, row.token(j), j)))?;
    }
    Ok(Marks::new(timed))
}

/// Whether a token is neither null nor a barline.
fn is_sounding(token: &[u8]) -> bool
    ensures { result ≡ is_sounding token.now }
{
    !(is_null(token) || is_barline(token))
}

/// What a data record holds.
#[derive(Clone, Copy)]
pub(crate) enum Content {
    /// null tokens alone
    Nulls,
    /// barlines, and null tokens
    Barlines,
    /// other tokens too
    Sounds,
}

/// What a data record holds.
pub(crate) fn content_of(row: &Record) -> Content
    ensures { result ≡ content_of (tokens_of row.now) }
{
    let mut found = false;
    for j in 0..row.width() {
        let token = row.token(j);
        if is_sounding(token) {
            return Content::Sounds;
        }
        found |= is_barline(token);
    }
    if found {
        Content::Barlines
    } else {
        Content::Nulls
    }
}

/// Where the first space stands, or the end.
fn first_space(text: &[u8]) -> usize
    ensures first { result ≡ run is_part text.now }
    ensures within { result ≤ length text.now }
{
    let mut n = 0;
    while n < text.len() && text[n] != b' ' {
        n += 1;
    }
    n
}

/// The first subtoken, and what stands behind it.
fn cut(text: &[u8]) -> (&[u8], &[u8])
    ensures parts { subtokens text.now ≡ (result.0).now ∷ rest_parts (result.1).now }
    ensures shorter { length (result.1).now ≤ length text.now }
{
    text.split_at(first_space(text))
}

/// The value of a duration that was read.
fn value_in(read: Result<Length, KernFault>) -> Result<Option<Frac>, KernFault>
    ensures { Reads (value_in read) (is_refused read) result }
{
    match read {
        Ok(found) => Ok(found.value),
        Err(fault) => Err(fault),
    }
}

/// The first duration of a token's subtokens, all of which are read.
///
/// # Errors
/// K3 where one of them is refused.
fn first_duration(token: &[u8]) -> Result<Option<Frac>, KernFault>
    ensures { Reads (first_duration (subtokens token.now)) (some_refused (subtokens token.now))
        result }
{
    match read_leading(token) {
        Some(read) => value_in(read),
        None => first_of_parts(token),
    }
}

/// The same by one subtoken after another.
fn first_of_parts(token: &[u8]) -> Result<Option<Frac>, KernFault>
    ensures { Reads (first_duration (subtokens token.now)) (some_refused (subtokens token.now))
        result }
{
    let (part, mut left) = cut(token);
    let mut found = value_in(read_duration(part))?;
    while let [_, more @ ..] = left {
        let (part, behind) = cut(more);
        let value = value_in(read_duration(part))?;
        if found.is_none() {
            found = value;
        }
        left = behind;
    }
    Ok(found)
}

/// The note of a token in a timed column whose duration one or two digits at its front tell, as those of most
/// do; none of others.
fn plain_note(timed: bool, token: &[u8]) -> Option<Frac>
    ensures which { is_some result ≡ (timed && leads_shortly token.now) }
    ensures note { IfSome result (IsNote timed token.now) }
{
    if timed { leading_duration(token) } else { None }
}

/// The note of any data token.
///
/// # Errors
/// K3 where a duration of it is refused.
fn note(timed: bool, token: &[u8]) -> Result<Option<Frac>, KernFault>
    ensures { Reads (note_of timed token.now) (is_misread timed token.now) result }
{
    if timed && is_sounding(token) {
        first_duration(token)
    } else {
        Ok(None)
    }
}

/// One note more.
fn put_note(notes: &mut Vec<NoteAt>, column: usize, lasting: Frac) -> Result<(), AllocError>
    ensures { OnOk result (notes.new.items ≡ notes.old.items
        ++ record { column = column; lasting = lasting } ∷ []) }
{
    notes.push(NoteAt { column, lasting })?;
    Ok(())
}

/// Reads the notes of a data record's tokens; or answers a fault, K3, where a duration is refused.
pub(crate) fn read_notes(
    timed: &[bool],
    row: &Record,
    notes: &mut Vec<NoteAt>,
) -> Result<Option<KernFault>, AllocError>
    ensures { IfOk result (Read timed.now (tokens_of row.now) notes.new.items) }
{
    notes.clear();
    let mut columns = timed;
    let mut column = 0;
    for token in row.tokens() {
        let [timed, behind @ ..] = columns else {
            return Ok(None);
        };
        let here = column;
        columns = behind;
        column += 1;
        if is_null(token) {
            continue;
        }
        if let Some(lasting) = plain_note(*timed, token) {
            put_note(notes, here, lasting)?;
            continue;
        }
        if is_barline(token) {
            continue;
        }
        match note(*timed, token) {
            Ok(None) => {}
            Ok(Some(lasting)) => put_note(notes, here, lasting)?,
            Err(fault) => return Ok(Some(fault)),
        }
    }
    Ok(None)
}
