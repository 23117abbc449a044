//! What several sources give side by side.
ghost use Rattle.std.specs.Prelude.{◌≡◌, ◌≤◌, ℕ, ◌+◌, nat_lt, nat_le, true, not, ◌&&◌, ◌||◌};
ghost use Rattle.std.specs.Prelude.{None, Some, IfOk, OnOk, length, take};
ghost use Rattle.std.specs.List.{list_all, list_any, position_from};
ghost use Rattle.hum_score.specs.{Row.text_of};
ghost use Rattle.hum_assemble.specs.{Head.AllLawful, Places.kind_at, Places.is_shared};
ghost use Rattle.hum_assemble.specs.Round.{any_due, waits, is_lost, is_missing, earliest, AllKnown};
ghost use Rattle.hum_assemble.specs.Merge.{spines, all_moved, made, comment_given};
ghost use Rattle.hum_assemble.specs.Merge.{ahead, ahead_open, ahead_at, given_row, given_on};
ghost use Rattle.hum_assemble.specs.Taking.{row_taken, bytes_given, parts_given, AreNotes, IsGiving, IsAlone};

use crate::places::{Next, Place};
use crate::source_head::SourceHead;
use hum_path::MOST_SPINES;
use hum_record::{MOST_BYTES, Record, RecordBuilder, Spare, SpinedKind};
use hum_stage::{MOST_RECORDS, Rule};
use std::alloc::{AllocError, Global};

/// Whether a round goes on.
fn any_due(sources: &[SourceHead]) -> bool
    ensures { result ≡ any_due sources.now }
{
    sources.iter().any(|source| source.is_due())
}

/// Whether what is asked of a source isn't known yet.
fn is_missing(source: &SourceHead, going: bool) -> bool
    ensures { result ≡ is_missing going source.now }
{
    (source.is_due() || !going) && source.shown().is_none()
}

/// Whether what is asked of a source can't be known any more.
fn is_lost(source: &SourceHead, going: bool) -> bool
    ensures { result ≡ is_lost going source.now }
{
    (source.is_due() || !going) && (source.shown().is_none() && source.ended().is_some())
}

fn any_lost(sources: &[SourceHead], going: bool) -> bool
    ensures { result ≡ list_any (is_lost going) sources.now }
{
    sources.iter().any(|source| is_lost(source, going))
}

/// The leftmost source of which a record, or the end, is needed.
fn first_missing(sources: &[SourceHead], going: bool) -> Option<usize>
    ensures { result ≡ position_from (is_missing going) 0 sources.now }
{
    sources.iter().position(|source| is_missing(source, going))
}

/// The earliest place of those that are asked.
fn earliest(sources: &[SourceHead], going: bool) -> Place
    ensures { result ≡ earliest going sources.now }
{
    match sources {
        [] => Place::Over,
        [source, rest @ ..] => source.place_at(going).earlier(earliest(rest, going)),
    }
}

/// Whether a source further right may still give a record, by whether this one gives one.
fn still_free(free: bool, p: Place, taken: bool) -> bool
    ensures { result ≡ (free && (is_shared p || not taken)) }
{
    free && (p.is_shared() || !taken)
}

/// Whether more spines than are left stand behind the records at this place.
fn are_more_spines(sources: &[SourceHead], free: bool, going: bool, p: Place, left: usize) -> bool
    ensures { result ≡ nat_lt left (spines (all_moved free going p sources.now)) }
{
    match sources {
        [] => false,
        [source, rest @ ..] => {
            let taken = source.takes(free, going, p);
            let width = if taken {
                source.width_ahead()
            } else {
                source.width()
            };
            if width > left {
                true
            } else {
                are_more_spines(rest, still_free(free, p, taken), going, p, left - width)
            }
        }
    }
}

/// How long the text of the global comment at this place is.
fn comment_len(sources: &[SourceHead], going: bool, p: Place) -> usize
    ensures { result ≡ length (comment_given going p sources.now) }
{
    let mut rest = sources;
    while let [source, right @ ..] = rest {
        if source.takes(true, going, p) {
            return source.text_len();
        }
        rest = right;
    }
    0
}

/// Whether the tokens of the record at this place, with a tab for each, have more bytes than are
/// left.
fn are_more_bytes(sources: &[SourceHead], free: bool, going: bool, p: Place, left: usize) -> bool
    ensures { result ≡ nat_lt left (bytes_given free going p sources.now) }
{
    match sources {
        [] => false,
        [source, rest @ ..] => {
            let taken = source.takes(free, going, p);
            let bytes = source.part_len(taken, p);
            if bytes > left {
                true
            } else {
                are_more_bytes(rest, still_free(free, p, taken), going, p, left - bytes)
            }
        }
    }
}

/// Whether the record at this place is too long.
fn is_too_long(sources: &[SourceHead], going: bool, p: Place) -> bool
    ensures { result ≡ nat_lt MOST_BYTES (length (text_of (made going p sources.now))) }
{
    match p.kind() {
        None => comment_len(sources, going, p) > MOST_BYTES,
        Some(_) => are_more_bytes(sources, true, going, p, MOST_BYTES + 1),
    }
}

/// Whether the records at this place may be given.
#[inline(never)]
fn ahead_at(sources: &[SourceHead], given: u64, going: bool, p: Place) -> Next
    ensures { result ≡ ahead_at going p sources.now given }
{
    if p.is_over() {
        Next::Over
    } else if are_more_spines(sources, true, going, p, MOST_SPINES) {
        Next::Refused(Rule::A1)
    } else if is_too_long(sources, going, p) {
        Next::Refused(Rule::L1)
    } else if given >= MOST_RECORDS {
        Next::Refused(Rule::L2)
    } else {
        Next::Gives(p)
    }
}

/// Whether each source's next record is one of data, and so many spines and bytes are enough for all of them.
fn are_notes(sources: &[SourceHead], spines: usize, bytes: usize) -> bool
    ensures { result ≡ true → AreNotes spines bytes sources.now }
{
    match sources {
        [] => true,
        [source, rest @ ..] => {
            let Place::Note = source.place_at(false) else {
                return false;
            };
            let width = source.width_ahead();
            let len = source.part_len(true, Place::Note);
            width <= spines && len <= bytes && are_notes(rest, spines - width, bytes - len)
        }
    }
}

/// What can be done next where all that is asked is known. Mostly that is data of each source.
#[inline(always)]
fn ahead_known(sources: &[SourceHead], given: u64, going: bool) -> Next
    ensures { result ≡ ahead_at going (earliest going sources.now) sources.now given }
{
    if !going
        && !sources.is_empty()
        && given < MOST_RECORDS
        && are_notes(sources, MOST_SPINES, MOST_BYTES + 1)
    {
        return Next::Gives(Place::Note);
    }
    ahead_at(sources, given, going, earliest(sources, going))
}

/// Whether a record, or the end, of the first source is needed.
fn is_first_missing(sources: &[SourceHead], going: bool) -> bool
    ensures { result ≡ true → position_from (is_missing going) 0 sources.now ≡ Some 0 }
{
    match sources {
        [] => false,
        [source, ..] => is_missing(source, going),
    }
}

/// The same as [`ahead_open`], where the first source of which nothing is known isn't the next one.
#[inline(never)]
fn ahead_behind(sources: &[SourceHead], given: u64, going: bool, known: usize) -> Next
    requires within { known ≤ length sources.now }
    requires known { AllKnown going (take known sources.now) }
    ensures { result ≡ ahead_open going sources.now given }
{
    let (_, rest) = sources.split_at(known);
    match first_missing(rest, going) {
        Some(j) => Next::Wants(known + j),
        None => ahead_known(sources, given, going),
    }
}

/// What can be done next where all that is asked can still be known, and is known of the first
/// sources, so many. Mostly the next source is asked then.
#[inline(always)]
pub fn ahead_open(sources: &[SourceHead], given: u64, going: bool, known: usize) -> Next
    requires within { known ≤ length sources.now }
    requires known { AllKnown going (take known sources.now) }
    ensures { result ≡ ahead_open going sources.now given }
{
    let (_, rest) = sources.split_at(known);
    if is_first_missing(rest, going) {
        return Next::Wants(known);
    }
    ahead_behind(sources, given, going, known)
}

/// What can be done next, after so many records were given.
#[inline(never)]
fn ahead(sources: &[SourceHead], given: u64, going: bool) -> Next
    requires { going ≡ any_due sources.now }
    ensures { result ≡ ahead (record { sources = sources.now; given = given }) }
{
    if any_lost(sources, going) {
        return Next::Over;
    }
    ahead_open(sources, given, going, 0)
}

/// Whether nothing is known as yet of a source that isn't due.
fn waits(source: &SourceHead) -> bool
    ensures { result ≡ waits source.now }
{
    !source.is_due() && source.shown().is_none() && source.ended().is_none()
}

fn all_wait(sources: &[SourceHead]) -> bool
    ensures { result ≡ list_all waits sources.now }
{
    sources.iter().all(|source| waits(source))
}

/// Whether a round goes on, and what can be done next, after so many records were given. Behind data each
/// source is asked for its next record.
#[inline(always)]
pub fn look_ahead(sources: &[SourceHead], given: u64) -> (bool, Next)
    ensures going { result.0 ≡ any_due sources.now }
    ensures next { result.1 ≡ ahead (record { sources = sources.now; given = given }) }
{
    if !sources.is_empty() && all_wait(sources) {
        return (false, Next::Wants(0));
    }
    let going = any_due(sources);
    let next = ahead(sources, given, going);
    (going, next)
}

/// Whether at most so many sources have a part in the record at this place.
fn are_few_parts(sources: &[SourceHead], free: bool, going: bool, p: Place, left: usize) -> bool
    ensures { result ≡ nat_le (parts_given free going p sources.now) left }
{
    match sources {
        [] => true,
        [source, rest @ ..] => {
            let taken = source.takes(free, going, p);
            let free_on = still_free(free, p, taken);
            if !taken && source.width() == 0 {
                are_few_parts(rest, free_on, going, p, left)
            } else if left == 0 {
                false
            } else {
                are_few_parts(rest, free_on, going, p, left - 1)
            }
        }
    }
}

/// A record more is given, and the one before it is done with.
fn hand_on(given: &mut Option<Record>, row: Record, pool: &mut Spare)
    ensures { given.new ≡ Some row }
{
    if let Some(before) = given.take() {
        pool.keep(before);
    }
    *given = Some(row);
}

/// Lets the sources go on by the records at this place, and answers the one that was given last.
/// The others are done with.
fn go_on(
    sources: &mut [SourceHead],
    going: bool,
    p: Place,
    pool: &mut Spare,
) -> Result<Option<Record>, AllocError>
    ensures moved { OnOk result (sources.new ≡ all_moved true going p sources.old) }
    ensures row { IfOk result (λ o. o ≡ row_taken None true going p sources.old) }
{
    let mut free = true;
    let mut given = None;
    for source in sources.iter_mut() {
        let taken = source.takes(free, going, p);
        free = still_free(free, p, taken);
        if let Some(row) = source.go_on(taken, going, p)? {
            hand_on(&mut given, row, pool);
        }
    }
    Ok(given)
}

/// Gives the one record that stands at this place.
fn give_alone(
    sources: &mut [SourceHead],
    going: bool,
    p: Place,
    pool: &mut Spare,
) -> Result<Record, AllocError>
    requires giving { IsGiving going p sources.old }
    requires lawful { AllLawful sources.old }
    requires alone { IsAlone going p sources.old }
    ensures row { IfOk result (λ row. row ≡ made going p sources.old) }
    ensures sources { OnOk result (sources.new ≡ all_moved true going p sources.old) }
{
    let Some(row) = go_on(sources, going, p, pool)? else {
        unreachable!()
    };
    Ok(row)
}

/// Gives the one record of the records at this place, in the buffers of one that was done with. Those that it is
/// made of are done with then.
#[inline(always)]
fn give_side_by_side(
    alloc: Global,
    kind: SpinedKind,
    sources: &mut [SourceHead],
    going: bool,
    p: Place,
    pool: &mut Spare,
) -> Result<Record, AllocError>
    requires kind { kind_at p ≡ Some kind }
    requires giving { IsGiving going p sources.old }
    requires lawful { AllLawful sources.old }
    requires fits { length (text_of (made going p sources.old)) ≤ MOST_BYTES }
    ensures row { IfOk result (λ row. row ≡ made going p sources.old) }
    ensures sources { OnOk result (sources.new ≡ all_moved true going p sources.old) }
{
    let mut builder = RecordBuilder::reusing(alloc, kind, pool);
    let mut free = true;
    for source in sources.iter_mut() {
        let taken = source.takes(free, going, p);
        free = still_free(free, p, taken);
        source.push_part(taken, p, &mut builder)?;
        if let Some(row) = source.go_on(taken, going, p)? {
            source.lay_by(row, pool);
        }
    }
    Ok(builder.finish())
}

/// The same at any place, and not as often as of data.
#[inline(never)]
fn give_any(
    alloc: Global,
    kind: SpinedKind,
    sources: &mut [SourceHead],
    going: bool,
    p: Place,
    pool: &mut Spare,
) -> Result<Record, AllocError>
    requires kind { kind_at p ≡ Some kind }
    requires giving { IsGiving going p sources.old }
    requires lawful { AllLawful sources.old }
    requires fits { length (text_of (made going p sources.old)) ≤ MOST_BYTES }
    ensures row { IfOk result (λ row. row ≡ made going p sources.old) }
    ensures sources { OnOk result (sources.new ≡ all_moved true going p sources.old) }
{
    give_side_by_side(alloc, kind, sources, going, p, pool)
}

/// Gives the record at this place. One that needs no null tokens is moved, but of data it is seldom the only part.
fn give_at(
    alloc: Global,
    sources: &mut [SourceHead],
    going: bool,
    p: Place,
    pool: &mut Spare,
) -> Result<Record, AllocError>
    requires giving { IsGiving going p sources.old }
    requires lawful { AllLawful sources.old }
    requires fits { length (text_of (made going p sources.old)) ≤ MOST_BYTES }
    ensures row { IfOk result (λ row. row ≡ made going p sources.old) }
    ensures sources { OnOk result (sources.new ≡ all_moved true going p sources.old) }
{
    match p.kind() {
        None => give_alone(sources, going, p, pool),
        Some(kind) => {
            if matches!(p, Place::Note) && !going && sources.len() != 1 {
                give_side_by_side(alloc, kind, sources, going, p, pool)
            } else if are_few_parts(sources, true, going, p, 1) {
                give_alone(sources, going, p, pool)
            } else {
                give_any(alloc, kind, sources, going, p, pool)
            }
        }
    }
}

/// Gives the record at this place, which is the one that can be given next.
pub fn give(
    alloc: Global,
    sources: &mut [SourceHead],
    going: bool,
    p: Place,
    pool: &mut Spare,
) -> Result<Record, AllocError>
    requires going { going ≡ any_due sources.old }
    requires ahead { (given : ℕ)
        × (ahead (record { sources = sources.old; given = given }) ≡ Next.Gives p) }
    requires lawful { AllLawful sources.old }
    ensures row { IfOk result (λ row. (given : ℕ)
        → row ≡ given_row p (record { sources = sources.old; given = given })) }
    ensures sources { OnOk result ((given : ℕ)
        → record { sources = sources.new; given = given + 1 }
        ≡ given_on p (record { sources = sources.old; given = given })) }
    ensures lawful { OnOk result (AllLawful sources.new) }
{
    let row = give_at(alloc, sources, going, p, pool)?;
    Ok(row)
}
