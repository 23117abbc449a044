//! The spines after an interpretation that asks something of them.
ghost use Rattle.std.specs.Prelude.{◌≡◌, ◌≢◌, ◌+◌, ◌<◌, ◌≤◌, [], ◌∷◌, ◌++◌, false, map, length};
ghost use Rattle.std.specs.Prelude.{slice_index_or, IfOk, OnOk};
ghost use Rattle.std.specs.List.{find};
ghost use Rattle.hum_score.specs.Row.{tokens_of};
ghost use Rattle.hum_score.specs.Spines.{exchanges, joins_at_front, partner, heirs, heirs_from};
ghost use Rattle.hum_score.specs.Spines.{same_upto, renamed, moves_at, Unopened, Spines};
ghost use Rattle.hum_path.specs.Tracked.{path_in};
ghost use Rattle.hum_score.specs.Texts.{texts};
ghost use Rattle.hum_score.specs.{Sign.sign_of, Rules.breaks};
ghost use Rattle.hum_path.specs.{Asked.IsStepBy, Step.IsStep};
ghost use Rattle.hum_score.specs.declared.spines.PathFault.TheVariants.{P9};

use crate::MOST_SPINES;
use crate::rules::{opening_fault, sign_fault, signs};
use hum_record::Record;
use hum_score::{Move, PathFault, Sign, token_sign};
use std::alloc::{AllocError, Global};

/// Where the spines come from, and their exclusive interpretations.
#[derive(Drop)]
pub struct NextSpines {
    pub moves: Vec<Move>,
    pub names: Vec<Vec<u8>>,
}

fn exchanges(alloc: Global, signs: &[Sign]) -> Result<Vec<u16>, AllocError>
    requires { length signs.now ≤ 4096 }
    ensures { IfOk result (λ v. v.items ≡ exchanges 0 signs.now) }
{
    let mut places = Vec::new(alloc);
    for j in 0..signs.len() {
        if signs[j].is_exchange() {
            places.push(j as u16)?;
        }
    }
    Ok(places)
}

fn joins_at_front(signs: &[Sign]) -> usize
    ensures run { result ≡ joins_at_front signs.now }
    ensures within { result ≤ length signs.now }
{
    let mut end = 0;
    while end < signs.len() && signs[end].is_join() {
        end += 1;
    }
    end
}

fn partner(pair: &[u16], j: u16) -> u16
    ensures { result ≡ partner pair.now j }
{
    if pair.len() < 2 {
        j
    } else if j == pair[0] {
        pair[1]
    } else {
        pair[0]
    }
}

/// Adds the spines that come of the one at place j.
fn push_heirs(
    moves: &mut Vec<Move>,
    pair: &[u16],
    j: u16,
    after_join: bool,
    sign: Sign,
    right: &[Sign],
) -> Result<(), AllocError>
    requires { j + length right.now < 4096 }
    ensures { OnOk result
        (moves.new.items ≡ moves.old.items ++ heirs pair.now j after_join sign right.now) }
{
    match sign {
        Sign::Split => {
            moves.push(Move::Left(j))?;
            moves.push(Move::Right(j))?;
        }
        Sign::Join => {
            if !after_join {
                let last = j + joins_at_front(right) as u16;
                moves.push(Move::Join(j, last))?;
            }
        }
        Sign::Exchange => moves.push(Move::Same(partner(pair, j)))?,
        Sign::Add => {
            moves.push(Move::Same(j))?;
            moves.push(Move::Added(j))?;
        }
        Sign::End => {}
        Sign::Exclusive | Sign::Plain => moves.push(Move::Same(j))?,
    }
    Ok(())
}

/// The spines that come of those under the signs.
fn heirs(alloc: Global, pair: &[u16], signs: &[Sign]) -> Result<Vec<Move>, AllocError>
    requires { length signs.now ≤ 4096 }
    ensures { IfOk result (λ v. v.items ≡ heirs_from pair.now 0 false signs.now) }
{
    let mut moves = Vec::new(alloc);
    let mut after_join = false;
    let mut j = 0;
    let mut rest = signs;
    while let [sign, right @ ..] = rest {
        push_heirs(&mut moves, pair, j, after_join, *sign, right)?;
        after_join = sign.is_join();
        j += 1;
        rest = right;
    }
    Ok(moves)
}

/// One spine for each place below the width.
fn same(alloc: Global, width: usize) -> Result<Vec<Move>, AllocError>
    requires { width ≤ 4096 }
    ensures { IfOk result (λ v. v.items ≡ same_upto 0 width) }
{
    let mut moves = Vec::new(alloc);
    for j in 0..width {
        moves.push(Move::Same(j as u16))?;
    }
    Ok(moves)
}

fn token_or_empty<'a>(row: &'a Record, j: u16) -> &'a [u8]
    ensures { result.now ≡ slice_index_or (tokens_of row.now) j [] }
{
    if (j as usize) < row.width() {
        row.token(j as usize)
    } else {
        &[]
    }
}

fn name_or_empty(names: &[Vec<u8>], j: u16) -> &[u8]
    ensures { result.now ≡ slice_index_or (texts names.now) j [] }
{
    if (j as usize) < names.len() {
        names[j as usize].as_slice()
    } else {
        &[]
    }
}

/// The exclusive interpretation of a spine after a record.
fn renamed<'a>(names: &'a [Vec<u8>], row: &'a Record, from: Move) -> &'a [u8]
    ensures { result.now ≡ renamed (texts names.now) (tokens_of row.now) from }
{
    match from {
        Move::Added(_) => &[],
        Move::Same(j) => {
            let token = token_or_empty(row, j);
            if token_sign(token).is_exclusive() {
                token
            } else {
                name_or_empty(names, j)
            }
        }
        Move::Left(j) | Move::Right(j) | Move::Join(j, _) => name_or_empty(names, j),
    }
}

fn all_renamed(
    alloc: Global,
    names: &[Vec<u8>],
    row: &Record,
    moves: &[Move],
) -> Result<Vec<Vec<u8>>, AllocError>
    ensures { IfOk result (λ after. texts after.items
        ≡ map (renamed (texts names.now) (tokens_of row.now)) moves.now) }
{
    let mut after = Vec::new(alloc);
    for from in moves {
        after.push(Vec::from_slice(alloc, renamed(names, row, *from))?)?;
    }
    Ok(after)
}

fn all_tokens(alloc: Global, row: &Record) -> Result<Vec<Vec<u8>>, AllocError>
    ensures { IfOk result (λ v. texts v.items ≡ tokens_of row.now) }
{
    let mut names = Vec::new(alloc);
    for token in row.tokens() {
        names.push(Vec::from_slice(alloc, token)?)?;
    }
    Ok(names)
}

/// The first spines and their exclusive interpretations.
fn open(alloc: Global, row: &Record) -> Result<NextSpines, PathFault>
    ensures { IsStep Unopened (tokens_of row.now) result }
{
    if let Some(fault) = opening_fault(row) {
        return Err(fault);
    }
    let moves = same(alloc, row.width())?;
    let names = all_tokens(alloc, row)?;
    Ok(NextSpines { moves, names })
}

/// The spines that come by these moves, unless there are too many.
fn next_spines(
    alloc: Global,
    names: &[Vec<u8>],
    row: &Record,
    moves: Vec<Move>,
) -> Result<NextSpines, PathFault>
    requires { moves.items ≡ moves_at (Spines (texts names.now)) (tokens_of row.now) }
    ensures { let path = Spines (texts names.now) in
        IsStepBy (find (breaks path (tokens_of row.now)) (P9 ∷ [])) path (tokens_of row.now) result }
{
    if moves.len() > MOST_SPINES {
        return Err(PathFault::P9);
    }
    let names = all_renamed(alloc, names, row, &moves)?;
    Ok(NextSpines { moves, names })
}

/// The spines after a record that is as wide as they are, under its signs.
fn advance_under(
    alloc: Global,
    names: &[Vec<u8>],
    row: &Record,
    signs: &[Sign],
) -> Result<NextSpines, PathFault>
    requires signs { signs.now ≡ map sign_of (tokens_of row.now) }
    requires wide { length (tokens_of row.now) ≡ length names.now }
    requires some { length names.now ≢ 0 }
    requires few { length names.now ≤ 4096 }
    ensures { IsStep (Spines (texts names.now)) (tokens_of row.now) result }
{
    let pair = exchanges(alloc, signs)?;
    match sign_fault(names, row, signs, &pair) {
        Some(fault) => Err(fault),
        None => {
            let moves = heirs(alloc, &pair, signs)?;
            next_spines(alloc, names, row, moves)
        }
    }
}

/// The spines after a record, and their exclusive interpretations.
fn advance(alloc: Global, names: &[Vec<u8>], row: &Record) -> Result<NextSpines, PathFault>
    requires { length names.now ≤ 4096 }
    ensures { IsStep (Spines (texts names.now)) (tokens_of row.now) result }
{
    if names.is_empty() {
        return Err(PathFault::P7);
    }
    if row.width() != names.len() {
        return Err(PathFault::P2);
    }
    let signs = signs(alloc, row)?;
    advance_under(alloc, names, row, &signs)
}

/// The spines after an interpretation that asks something of them, or the first rule it breaks.
pub(crate) fn spines_after(
    alloc: Global,
    opened: bool,
    names: &[Vec<u8>],
    row: &Record,
) -> Result<NextSpines, PathFault>
    requires { length names.now ≤ 4096 }
    ensures { IsStep (path_in opened (texts names.now)) (tokens_of row.now) result }
{
    if opened {
        advance(alloc, names, row)
    } else {
        open(alloc, row)
    }
}
