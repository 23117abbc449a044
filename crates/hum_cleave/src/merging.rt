//! Interpretations whose cleaved columns become one.
ghost use Rattle.std.specs.Prelude.{◌≡◌, Bool, false, length, map, IfOk};
ghost use Rattle.std.specs.List.{list_any};
ghost use Rattle.hum_score.specs.Row.{tokens_of, width_of, chosen};
ghost use Rattle.hum_score.specs.Sign.{sign_of, is_exclusive};
ghost use Rattle.hum_score.specs.declared.spines.Sign.{Sign};
ghost use Rattle.hum_stage.specs.Refusals.{IfTold};
ghost use Rattle.hum_columns.specs.{Spread.piece, Chosen.each_piece, Following.AnswersInRoom};
ghost use Rattle.hum_columns.specs.{Following.IsPassed};
ghost use Rattle.hum_cleave.specs.Columns.{together};
ghost use Rattle.hum_cleave.specs.Cleave.{is_moved, is_end, ends_apart, is_entangled, merged};

use crate::tokens::leftmost_interpretation;
use hum_columns::{JoinedToken, is_torn, write_pieces};
use hum_path::{Sign, token_sign};
use hum_record::Record;
use hum_stage::{Refusal, Rule};
use std::alloc::{AllocError, Global};
use std::collections::VecDeque;

/// Whether what a cleaved column asks of its spine passes a test.
fn any_cleaved<F: Fn(Sign) -> bool>(marks: &[bool], row: &Record, test: F) -> bool
    requires as_wide { length marks.now ≡ width_of row.now }
    requires test { F.IsAlwaysCallable test }
    ensures { (p : Sign → Bool) → ((sign : Sign) (passes : Bool)
        → F.post test sign passes → passes ≡ p sign)
        → result ≡ list_any p (chosen marks.now (map sign_of (tokens_of row.now))) }
{
    for (j, mark) in marks.iter().enumerate() {
        if *mark && test(token_sign(row.token(j))) {
            return true;
        }
    }
    false
}

/// Whether a cleaved column has an exclusive interpretation.
fn has_exclusive(marks: &[bool], row: &Record) -> bool
    requires { length marks.now ≡ width_of row.now }
    ensures { result ≡ list_any is_exclusive (chosen marks.now (map sign_of (tokens_of row.now))) }
{
    any_cleaved(marks, row, |sign| sign.is_exclusive())
}

fn is_moved(sign: Sign) -> bool
    ensures { result ≡ is_moved sign }
{
    matches!(sign, Sign::Exchange | Sign::Add)
}

/// Whether a cleaved column is exchanged, or has a spine added to it.
fn has_moved(marks: &[bool], row: &Record) -> bool
    requires { length marks.now ≡ width_of row.now }
    ensures { result ≡ list_any is_moved (chosen marks.now (map sign_of (tokens_of row.now))) }
{
    any_cleaved(marks, row, |sign| is_moved(sign))
}

fn is_end(sign: Sign) -> bool
    ensures { result ≡ is_end sign }
{
    matches!(sign, Sign::End)
}

/// Whether some cleaved columns end and others don't.
fn ends_apart(marks: &[bool], row: &Record) -> bool
    requires { length marks.now ≡ width_of row.now }
    ensures { result ≡ ends_apart (chosen marks.now (map sign_of (tokens_of row.now))) }
{
    any_cleaved(marks, row, |sign| is_end(sign)) && any_cleaved(marks, row, |sign| !is_end(sign))
}

/// Whether the record asks of a cleaved column what can't be written in one column.
fn is_entangled(marks: &[bool], row: &Record) -> bool
    requires { length marks.now ≡ width_of row.now }
    ensures { result ≡ is_entangled marks.now (map sign_of (tokens_of row.now)) }
{
    has_moved(marks, row) || ends_apart(marks, row) || is_torn(marks, row)
}

/// The tokens that are left, each with whether it begins a join of the record.
fn pieces<'r>(
    alloc: Global,
    marks: &[bool],
    one: &'r [u8],
    row: &'r Record,
) -> Result<Vec<JoinedToken<'r>>, AllocError>
    requires { length marks.now ≡ width_of row.now }
    ensures { IfOk result (λ kept. kept.items
        ≡ together (piece false one.now) marks.now (each_piece false (tokens_of row.now))) }
{
    let mut kept = Vec::new(alloc);
    let mut is_done = false;
    let mut after_join = false;
    for (j, mark) in marks.iter().enumerate() {
        let token = row.token(j);
        let joins = token_sign(token).is_join();
        if !*mark {
            kept.push(JoinedToken::new(joins && !after_join, token))?;
        } else if !is_done {
            kept.push(JoinedToken::new(false, one))?;
            is_done = true;
        }
        after_join = joins;
    }
    Ok(kept)
}

/// What an interpretation after the opening record becomes.
///
/// # Errors
/// C1, C2 or L2; or out of memory.
pub fn merge(
    alloc: Global,
    marks: &[bool],
    row: &Record,
    room: u64,
    out: &mut VecDeque<Record>,
) -> Result<(), Refusal>
    requires { IsPassed marks.now row.now out.old.items }
    ensures { IfTold result
        (AnswersInRoom (merged marks.now (tokens_of row.now)) room out.new.items) }
{
    if has_exclusive(marks, row) {
        return Err(Refusal::Rule(Rule::C2));
    }
    if is_entangled(marks, row) {
        return Err(Refusal::Rule(Rule::C1));
    }
    let one = leftmost_interpretation(marks, row);
    let left = pieces(alloc, marks, one, row)?;
    write_pieces(alloc, &left, room, out)
}
