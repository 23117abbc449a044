//! Ends of notes, one for each column.
ghost use Rattle.std.specs.Prelude.{◌≡◌, ◌++◌, true, false, map, None, Some, List, Option, IfOk};
ghost use Rattle.std.specs.Prelude.{OnErr, OnOk, slice_index_or, slice_set};
ghost use Rattle.std.specs.List.{list_any};
ghost use Rattle.hum_frac.specs.Ratio.{Ratio, plus};
ghost use Rattle.hum_timebase.specs.Ends.{later, sooner, beyond, next_end};
ghost use Rattle.hum_timebase.specs.Kept.{end_if_timed, ends_before, ends_after, end_by};
ghost use Rattle.hum_timebase.specs.{Placed.OfColumns, Spans.low_of, Spans.high_of};
ghost use Rattle.hum_timebase.specs.Timebase.{clash, clashes, is_too_long};

use crate::notes::NoteAt;
use hum_frac::{Frac, FracFault};
use hum_path::{Move, Moves};
use std::alloc::{AllocError, Global};

/// The later of two ends, where there are any.
fn later(a: Option<Frac>, b: Option<Frac>) -> Option<Frac>
    ensures { result ≡ later a b }
{
    match (a, b) {
        (Some(x), Some(y)) => { if x < y { Some(y) } else { Some(x) } }
        (Some(x), None) => Some(x),
        (None, other) => other,
    }
}

/// An end, if it is after a time.
fn beyond(time: Frac, end: Option<Frac>) -> Option<Frac>
    ensures { result ≡ beyond time end }
{
    match end {
        Some(end) if time < end => Some(end),
        _ => None,
    }
}

/// The sooner of two ends, the first of which counts only if it is after a time.
fn sooner_beyond(time: Frac, end: Option<Frac>, least: Frac) -> Frac
    ensures { Some result ≡ sooner (beyond time end) (Some least) }
{
    match end {
        Some(end) if end <= least && time < end => end,
        _ => least,
    }
}

/// The least of some ends that is after a time, where that of the ends behind them is known.
fn least_end(time: Frac, known: Frac, ends: &[Option<Frac>]) -> Frac
    ensures { (behind : List (Option Ratio)) → next_end time behind ≡ Some known
        → next_end time (ends.now ++ behind) ≡ Some result }
{
    let mut least = known;
    let mut left = ends;
    while let [front @ .., end] = left {
        least = sooner_beyond(time, *end, least);
        left = front;
    }
    least
}

/// The least of some ends that is after a time. Once there is one, none is asked any more whether there
/// was one behind it.
pub(crate) fn next_end(time: Frac, ends: &[Option<Frac>]) -> Option<Frac>
    ensures { result ≡ next_end time ends.now }
{
    let mut left = ends;
    while let [front @ .., end] = left {
        left = front;
        if let Some(end) = beyond(time, *end) {
            return Some(least_end(time, end, left));
        }
    }
    None
}

/// The end at a place, if there is one.
fn end_at(ends: &[Option<Frac>], j: usize) -> Option<Frac>
    ensures { result ≡ slice_index_or ends.now j None }
{
    if j < ends.len() { ends[j] } else { None }
}

/// Puts an end at a place, if that is there.
fn put_end(ends: &mut [Option<Frac>], j: usize, end: Option<Frac>)
    ensures { ends.new ≡ slice_set ends.old j end }
{
    if j < ends.len() {
        ends[j] = end;
    }
}

/// Drops the end at a place whose column isn't timed. Answers whether there was one.
fn drop_end(timed: bool, ends: &mut [Option<Frac>], j: usize) -> bool
    ensures end { ends.new
        ≡ slice_set ends.old j (end_if_timed timed (slice_index_or ends.old j None)) }
    ensures kept { result ≡ false → ends.new ≡ ends.old }
{
    if timed || end_at(ends, j).is_none() {
        return false;
    }
    put_end(ends, j, None);
    true
}

/// Columns that aren't timed have no end. Answers whether one had.
pub(crate) fn drop_untimed(timed: &[bool], ends: &mut [Option<Frac>]) -> bool
    ensures ends { ends.new ≡ ends_before timed.now ends.old }
    ensures kept { result ≡ false → ends.new ≡ ends.old }
{
    let mut dropped = false;
    for j in 0..timed.len() {
        dropped |= drop_end(timed[j], ends, j);
    }
    dropped
}

/// Where the cells begin whose next cell below is that of the spine that comes by a move.
fn low(from: Move) -> usize
    ensures { result ≡ low_of from }
{
    match from {
        Move::Same(j) | Move::Left(j) | Move::Join(j, _) => j as usize,
        Move::Right(_) | Move::Added(_) => 0,
    }
}

/// Where they end.
fn high(from: Move) -> usize
    ensures { result ≡ high_of from }
{
    match from {
        Move::Same(j) | Move::Left(j) | Move::Join(_, j) => j as usize + 1,
        Move::Right(_) | Move::Added(_) => 0,
    }
}

/// The greatest of their ends.
fn end_by(from: Move, ends: &[Option<Frac>]) -> Option<Frac>
    ensures { result ≡ end_by 0 from ends.now }
{
    let first = low(from);
    let mut end = None;
    let mut j = high(from).min(ends.len());
    while j > first {
        j -= 1;
        end = later(ends[j], end);
    }
    end
}

/// The same for each move.
pub(crate) fn ends_by(
    alloc: Global,
    ends: &[Option<Frac>],
    found: &Moves,
) -> Result<Vec<Option<Frac>>, AllocError>
    ensures { IfOk result (λ next. next.items
        ≡ map (λ move. end_by 0 move ends.now) found.now) }
{
    let mut next = Vec::new(alloc);
    for i in 0..found.len() {
        next.push(end_by(found.get(i), ends))?;
    }
    Ok(next)
}

/// Whether a note stands in a column whose end is after the time. Most often it is the time.
fn is_clash(time: Frac, note: NoteAt, ends: &[Option<Frac>]) -> bool
    ensures { result
        ≡ clash time (Some note.lasting) (slice_index_or ends.now note.column None) }
{
    match end_at(ends, note.column) {
        Some(end) => end != time && time < end,
        None => false,
    }
}

/// The same of some note.
pub(crate) fn has_clash(time: Frac, notes: &[NoteAt], ends: &[Option<Frac>]) -> bool
    ensures { OfColumns notes.now (λ columns. result ≡ clashes time columns ends.now) }
{
    for note in notes {
        if is_clash(time, *note, ends) {
            return true;
        }
    }
    false
}

/// The end after the cell of a note is that of the note.
///
/// # Errors
/// F1 where that doesn't fit.
fn sound_at(time: Frac, note: NoteAt, ends: &mut [Option<Frac>]) -> Result<(), FracFault>
    ensures end { OnOk result (ends.new
        ≡ slice_set ends.old note.column (Some (plus time note.lasting))) }
    ensures fits { OnOk result (is_too_long time (Some note.lasting) ≡ false) }
    ensures refused { OnErr result (is_too_long time (Some note.lasting) ≡ true) }
{
    match time.add(note.lasting) {
        Ok(sum) => {
            put_end(ends, note.column, Some(sum));
            Ok(())
        }
        Err(fault) => Err(fault),
    }
}

/// The same of all notes.
///
/// # Errors
/// F1 where a note's end doesn't fit.
pub(crate) fn sound(
    time: Frac,
    notes: &[NoteAt],
    ends: &mut [Option<Frac>],
) -> Result<(), FracFault>
    ensures ends { OnOk result (OfColumns notes.now
        (λ columns. ends.new ≡ ends_after time columns ends.old)) }
    ensures fits { OnOk result (OfColumns notes.now
        (λ columns. list_any (is_too_long time) columns ≡ false)) }
    ensures refused { OnErr result (OfColumns notes.now
        (λ columns. list_any (is_too_long time) columns ≡ true)) }
{
    for note in notes {
        sound_at(time, *note, ends)?;
    }
    Ok(())
}
