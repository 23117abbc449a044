//! Records of pieces.
ghost use Rattle.std.specs.Prelude.{◌≡◌, ◌≢◌, ◌≤◌, [], ◌++◌, false, drop, length, IfOk, OnOk};
ghost use Rattle.std.specs.List.{AllByRecursion};
ghost use Rattle.hum_score.specs.{Row.Spined, Spelling.IsToken};
ghost use Rattle.hum_record.specs.{Building.spelled, Nulls.nulls};
ghost use Rattle.hum_score.specs.declared.records.SpinedKind.TheVariants.{Interpretation};
ghost use Rattle.hum_columns.specs.Spread.{tokens_in, touches, joins_in, first_alone, join_done};
ghost use Rattle.hum_columns.specs.Spread.{one_by_one, before_last, filled};
ghost use Rattle.hum_columns.specs.Writing.{Fit, MayAdd, draft, behind, next_phase, shown};
ghost use Rattle.hum_columns.specs.Writing.{HasPassed};

use crate::pieces::JoinedToken;
use hum_record::{MOST_BYTES, Record, RecordBuilder, SpinedKind};
use std::alloc::{AllocError, Global};
use std::collections::VecDeque;

/// Where a piece stands to the join that a record has alone.
#[derive(Clone, Copy)]
pub enum Phase {
    Before,
    Inside,
    After,
}

fn next_phase(phase: Phase, piece: &JoinedToken<'_>) -> Phase
    ensures { result ≡ next_phase phase piece.now }
{
    match phase {
        Phase::Before => {
            if piece.begins() {
                Phase::Inside
            } else {
                Phase::Before
            }
        }
        Phase::Inside => {
            if piece.goes_on() {
                Phase::Inside
            } else {
                Phase::After
            }
        }
        Phase::After => Phase::After,
    }
}

/// Whether a join begins directly after another one.
pub fn touches(pieces: &[JoinedToken<'_>]) -> bool
    ensures { result ≡ touches false pieces.now }
{
    let mut after_join = false;
    for piece in pieces {
        if after_join && piece.begins() {
            return true;
        }
        after_join = piece.joins();
    }
    false
}

/// How many joins there are.
pub fn joins_in(pieces: &[JoinedToken<'_>]) -> usize
    ensures count { result ≡ joins_in pieces.now }
    ensures at_most { result ≤ length pieces.now }
{
    let mut count = 0;
    for piece in pieces {
        if piece.begins() {
            count += 1;
        }
    }
    count
}

/// What is written of a piece that stands there.
fn shown<'t>(phase: Phase, piece: &JoinedToken<'t>) -> &'t [u8]
    requires { IsToken Interpretation piece.now.token }
    ensures value { result.now ≡ shown phase piece.now }
    ensures lawful { IsToken Interpretation result.now }
{
    match phase {
        Phase::Inside => piece.token(),
        _ => b"*",
    }
}

/// Adds the first join's tokens, and null ones elsewhere.
fn push_alone(builder: &mut RecordBuilder, pieces: &[JoinedToken<'_>]) -> Result<(), AllocError>
    requires { MayAdd builder.old (first_alone pieces.now) pieces.now }
    ensures { OnOk result (builder.new ≡ draft (builder.old.tokens ++ first_alone pieces.now)) }
{
    let mut phase = Phase::Before;
    for piece in pieces {
        phase = next_phase(phase, piece);
        builder.push_fitting(shown(phase, piece))?;
    }
    Ok(())
}

/// Adds all tokens.
fn push_all(builder: &mut RecordBuilder, pieces: &[JoinedToken<'_>]) -> Result<(), AllocError>
    requires { MayAdd builder.old (tokens_in pieces.now) pieces.now }
    ensures { OnOk result (builder.new ≡ draft (builder.old.tokens ++ tokens_in pieces.now)) }
{
    for piece in pieces {
        builder.push_fitting(piece.token())?;
    }
    Ok(())
}

/// The record with the first join alone, after so many null tokens.
fn alone(alloc: Global, before: usize, pieces: &[JoinedToken<'_>]) -> Result<Record, AllocError>
    requires lawful { AllByRecursion (λ piece. IsToken Interpretation piece.token) pieces.now }
    requires fits { length (spelled (nulls Interpretation before ++ first_alone pieces.now)) ≤ MOST_BYTES }
    requires filled { nulls Interpretation before ++ first_alone pieces.now ≢ [] }
    ensures { IfOk result
        (λ made. made ≡ Spined Interpretation (nulls Interpretation before ++ first_alone pieces.now)) }
{
    let mut builder = RecordBuilder::new(alloc, SpinedKind::Interpretation);
    builder.push_nulls(before)?;
    push_alone(&mut builder, pieces)?;
    Ok(builder.finish())
}

/// How many pieces go on with a join that has begun.
fn join_len(pieces: &[JoinedToken<'_>]) -> usize
    ensures pieces { drop result pieces.now ≡ join_done pieces.now }
    ensures at_most { result ≤ length pieces.now }
{
    for (i, piece) in pieces.iter().enumerate() {
        if !piece.goes_on() {
            return i;
        }
    }
    pieces.len()
}

/// How many tokens were added, and of how many pieces.
#[derive(Drop)]
struct Passed {
    tokens: usize,
    pieces: usize,
}

/// Adds the tokens before the first join, and a null one for it.
fn pass_join(last: &mut RecordBuilder, pieces: &[JoinedToken<'_>]) -> Result<Passed, AllocError>
    requires made { last.old ≡ draft last.old.tokens }
    requires fit { Fit (behind last.old.tokens pieces.now) }
    ensures { IfOk result (HasPassed pieces.now last.old last.new) }
{
    for (i, piece) in pieces.iter().enumerate() {
        if piece.begins() {
            last.push_fitting(b"*")?;
            let right = pieces.split_at(i + 1).1;
            return Ok(Passed {
                tokens: i + 1,
                pieces: i + 1 + join_len(right),
            });
        }
        last.push_fitting(piece.token())?;
    }
    Ok(Passed {
        tokens: pieces.len(),
        pieces: pieces.len(),
    })
}

/// Adds so many records: each but the last has one join.
pub(crate) fn write_each(
    alloc: Global,
    pieces: &[JoinedToken<'_>],
    records: usize,
    out: &mut VecDeque<Record>,
) -> Result<(), AllocError>
    requires fit { Fit pieces.now }
    requires filled { pieces.now ≢ [] }
    ensures { OnOk result (out.new.items ≡ out.old.items
        ++ filled Interpretation (one_by_one (before_last records) pieces.now)) }
{
    let mut last = RecordBuilder::new(alloc, SpinedKind::Interpretation);
    let mut before = 0;
    let mut start = 0;
    for _ in 1..records {
        let rest = pieces.split_at(start).1;
        let record = alone(alloc, before, rest)?;
        out.push_back(record)?;
        let passed = pass_join(&mut last, rest)?;
        before += passed.tokens;
        start += passed.pieces;
    }
    push_all(&mut last, pieces.split_at(start).1)?;
    out.push_back(last.finish())?;
    Ok(())
}
