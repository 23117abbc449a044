//! Interpretations of which some columns are dropped.
ghost use Rattle.std.specs.Prelude.{◌≡◌, length, map, IfOk};
ghost use Rattle.hum_score.specs.Row.{tokens_of, width_of};
ghost use Rattle.hum_score.specs.Sign.{sign_of};
ghost use Rattle.hum_stage.specs.Refusals.{IfTold};
ghost use Rattle.hum_columns.specs.Following.{AnswersInRoom, IsPassed};
ghost use Rattle.hum_extract.specs.Extract.{exchanged_flags, is_lone, chosen_between};
ghost use Rattle.hum_extract.specs.Extract.{softened, pieces, cut};

use hum_columns::{JoinedToken, is_torn, write_pieces};
use hum_path::token_sign;
use hum_record::Record;
use hum_stage::{Refusal, Rule};
use std::alloc::{AllocError, Global};
use std::collections::VecDeque;

/// Whether of the exchanged columns one is chosen and the other isn't.
fn is_lone(marks: &[bool], row: &Record) -> bool
    requires { length marks.now ≡ width_of row.now }
    ensures { result
        ≡ is_lone (exchanged_flags marks.now (map sign_of (tokens_of row.now))) }
{
    let mut first = None;
    for (j, mark) in marks.iter().enumerate() {
        if token_sign(row.token(j)).is_exchange() {
            match first {
                None => first = Some(*mark),
                Some(other) => return other != *mark,
            }
        }
    }
    false
}

/// Whether a chosen column stands strictly between the exchanged ones.
fn chosen_between(marks: &[bool], row: &Record) -> bool
    requires { length marks.now ≡ width_of row.now }
    ensures { result ≡ chosen_between marks.now (map sign_of (tokens_of row.now)) }
{
    let mut inside = false;
    for (j, mark) in marks.iter().enumerate() {
        let exchanges = token_sign(row.token(j)).is_exchange();
        if inside && exchanges {
            return false;
        }
        if inside && *mark {
            return true;
        }
        inside |= exchanges;
    }
    false
}

/// A chosen column that is exchanged with a dropped one stays where it is.
fn softened(lone: bool, token: &[u8]) -> &[u8]
    ensures { result.now ≡ softened lone token.now }
{
    if lone && token_sign(token).is_exchange() {
        b"*"
    } else {
        token
    }
}

/// The chosen tokens, each with whether it begins a join of the record.
fn kept_pieces<'r>(
    alloc: Global,
    marks: &[bool],
    lone: bool,
    row: &'r Record,
) -> Result<Vec<JoinedToken<'r>>, AllocError>
    requires { length marks.now ≡ width_of row.now }
    ensures { IfOk result (λ kept. kept.items
        ≡ pieces marks.now (map (softened lone) (tokens_of row.now))) }
{
    let mut kept = Vec::new(alloc);
    let mut after_join = false;
    for (j, mark) in marks.iter().enumerate() {
        let token = softened(lone, row.token(j));
        let joins = token_sign(token).is_join();
        if *mark {
            kept.push(JoinedToken::new(joins && !after_join, token))?;
        }
        after_join = joins;
    }
    Ok(kept)
}

/// What an interpretation after the opening record becomes.
///
/// # Errors
/// X1, X3 or L2; or out of memory.
pub fn cut(
    alloc: Global,
    marks: &[bool],
    row: &Record,
    room: u64,
    out: &mut VecDeque<Record>,
) -> Result<(), Refusal>
    requires { IsPassed marks.now row.now out.old.items }
    ensures { IfTold result (AnswersInRoom (cut marks.now (tokens_of row.now)) room out.new.items) }
{
    if is_torn(marks, row) {
        return Err(Refusal::Rule(Rule::X1));
    }
    let lone = is_lone(marks, row);
    if lone && chosen_between(marks, row) {
        return Err(Refusal::Rule(Rule::X3));
    }
    let pieces = kept_pieces(alloc, marks, lone, row)?;
    write_pieces(alloc, &pieces, room, out)
}
