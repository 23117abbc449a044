//! What a record that waits becomes, by those behind it.
ghost use Rattle.std.specs.Prelude.{◌≡◌, ◌<◌, ◌≤◌, ◌+◌, ◌^◌, ◌∷◌, ℕ, List, [], length};
ghost use Rattle.std.specs.Prelude.{drop, false, true, slice_index_or};
ghost use Rattle.std.specs.Prelude.{Some, None, IfOk, IfSome, OnOk};
ghost use Rattle.hum_score.specs.declared.records.SpinedKind.TheVariants.{Values};
ghost use Rattle.hum_score.specs.Row.{Row, Spined, token_at};
ghost use Rattle.hum_record.specs.RecordDraft.{Holds, IsMade};
ghost use Rattle.hum_score.specs.Spelling.{IsToken};
ghost use Rattle.hum_score.specs.Spines.{Path};
ghost use Rattle.hum_context.specs.Context.{Choice, all_some, begins, chain, is_collectable, taken};
ghost use Rattle.hum_context.specs.Context.{new_tokens};
ghost use Rattle.hum_context.specs.Heard.{wanted_of};
ghost use Rattle.hum_context.specs.Queue.{HasToken, FirstIsData, Knows};
ghost use Rattle.hum_context.specs.Walking.{AllStand, AreKnown, Becomes, Counts, Halts, HasGrown, IsJoined};
ghost use Rattle.hum_context.specs.Walking.{Stands, Takes, Weighs, Writes, bytes_of, collected};

use crate::heard::Heard;
use crate::links::Sought;
use crate::measuring::measure;
use crate::queued::Queued;
use crate::skipping::Place;
use crate::stepping::is_enough;
use crate::text::Text;
use crate::walk::Walk;
use hum_record::{MOST_BYTES, Record, RecordDraft, Spare, SpinedKind};
use hum_stage::MOST_RECORDS;
use std::alloc::{AllocError, Global};
use std::collections::VecDeque;

// the most bytes of a record, and one more, since a tab is counted behind each token
const MOST: u64 = MOST_BYTES as u64 + 1;

/// What a token becomes, once that is known.
#[derive(Clone, Copy)]
pub(crate) enum Becoming {
    /// It stays as it is.
    Stays,
    /// It becomes null.
    Null,
    /// It becomes those that are collected.
    Collects,
}

/// What is known of a record's new tokens.
#[derive(Clone, Copy)]
pub(crate) enum Weight {
    /// One isn't known yet.
    Undecided,
    /// Together they are too long.
    Long,
    /// They fit into a record.
    Fits,
}

/// The walk from a cell of the record with this number, as far as it is known.
fn started(walks: &[Walk], at: u64, j: usize) -> Walk
    requires { at ≤ MOST_RECORDS }
    ensures behind { at ≤ result.at }
    ensures stands { (o : Choice) (path : Path) (rows : List Row) → taken o.extent [] ≡ None
        → AllStand o path at rows walks.now → Stands o path at rows j result }
{
    if j < walks.len() {
        let walk = walks[j];
        if at < walk.at {
            return walk;
        }
    }
    Walk::from(at, j)
}

/// The walk from a cell of the k-th record that waits, down to where it is decided.
fn walk_at(
    held: &VecDeque<Queued>,
    k: usize,
    gone: u64,
    walks: &[Walk],
    j: usize,
    wanted: Option<u16>,
) -> Walk
    requires few { gone + length held.now.items ≤ MOST_RECORDS }
    requires within { k ≤ length held.now.items }
    ensures { (o : Choice) (path : Path) (rows : List Row) → wanted ≡ wanted_of o.extent
        → taken o.extent [] ≡ None → Knows o path (drop k held.now.items) rows
        → AllStand o path (gone + k) rows walks.now → Halts o path (gone + k) rows j result }
{
    let mut walk = started(walks, gone + k as u64, j);
    walk.go_on(held, gone, wanted);
    walk
}

/// What the token of a cell becomes from which others are collected, by the walk from it.
fn becoming_by(walk: Walk) -> Option<Becoming>
    ensures { (o : Choice) (path : Path) (first : ℕ) (rows : List Row) (j : ℕ)
        → taken o.extent [] ≡ None
        → Halts o path first rows j walk
        → (token : List ℕ) → is_collectable o token ≡ true → begins o.extent token ≡ true
        → Becomes o token (chain path rows j) result }
{
    if walk.enough {
        return Some(Becoming::Collects);
    }
    if walk.ended {
        return Some(Becoming::Null);
    }
    None
}

/// What the token of a cell becomes from which others are collected, where the walk from it is known
/// to have enough of them.
fn enough_at(walks: &[Walk], at: u64, j: usize) -> Option<Becoming>
    requires { at ≤ MOST_RECORDS }
    ensures { (o : Choice) (path : Path) (rows : List Row) → taken o.extent [] ≡ None
        → AllStand o path at rows walks.now → (becoming : Becoming) → result ≡ Some becoming
        → (token : List ℕ) → is_collectable o token ≡ true → begins o.extent token ≡ true
        → Becomes o token (chain path rows j) (Some becoming) }
{
    if j >= walks.len() {
        return None;
    }
    let walk = walks[j];
    if at < walk.at && walk.enough {
        return Some(Becoming::Collects);
    }
    None
}

/// What the token of a cell of the k-th record that waits becomes, from which others are collected.
#[inline(never)]
fn becoming_at(
    held: &VecDeque<Queued>,
    k: usize,
    gone: u64,
    walks: &[Walk],
    j: usize,
    wanted: Option<u16>,
) -> Option<Becoming>
    requires few { gone + length held.now.items ≤ MOST_RECORDS }
    requires within { k ≤ length held.now.items }
    ensures { (o : Choice) (path : Path) (rows : List Row)
        → wanted ≡ wanted_of o.extent → taken o.extent [] ≡ None
        → Knows o path (drop k held.now.items) rows
        → AllStand o path (gone + k) rows walks.now
        → (token : List ℕ) → is_collectable o token ≡ true → begins o.extent token ≡ true
        → Becomes o token (chain path rows j) result }
{
    becoming_by(walk_at(held, k, gone, walks, j, wanted))
}

/// What the token at place j becomes of the k-th record that waits.
fn new_at(
    kept: &Queued,
    held: &VecDeque<Queued>,
    k: usize,
    gone: u64,
    walks: &[Walk],
    j: usize,
    wanted: Option<u16>,
) -> Option<Becoming>
    requires few { gone + length held.now.items ≤ MOST_RECORDS }
    requires within { k < length held.now.items }
    requires is { kept.now ≡ slice_index_or held.now.items k kept.now }
    ensures { (o : Choice) (path : Path) (tokens : List (List ℕ)) (rows : List Row)
        → wanted ≡ wanted_of o.extent → taken o.extent [] ≡ None
        → Knows o path (drop k held.now.items) (Spined Values tokens ∷ rows)
        → AllStand o path (gone + k) (Spined Values tokens ∷ rows) walks.now
        → Becomes o (token_at (Spined Values tokens) j)
        (chain path (Spined Values tokens ∷ rows) j) result }
{
    match kept.heard(j) {
        Heard::Passed => Some(Becoming::Stays),
        Heard::Taken { begins, ends: _ } => {
            if !begins {
                return Some(Becoming::Null);
            }
            if let Some(known) = enough_at(walks, gone + k as u64, j) {
                return Some(known);
            }
            becoming_at(held, k, gone, walks, j, wanted)
        }
    }
}

/// How many bytes the new token has of a cell of the k-th record that waits, and one more.
fn new_bytes(
    held: &VecDeque<Queued>,
    k: usize,
    j: usize,
    wanted: Option<u16>,
    becoming: Becoming,
) -> u64
    requires few { length held.now.items ≤ MOST_RECORDS }
    requires within { k < length held.now.items }
    ensures bytes { (o : Choice) (path : Path) (tokens : List (List ℕ)) (rows : List Row)
        → wanted ≡ wanted_of o.extent → taken o.extent [] ≡ None
        → Knows o path (drop k held.now.items) (Spined Values tokens ∷ rows)
        → Becomes o (token_at (Spined Values tokens) j)
        (chain path (Spined Values tokens ∷ rows) j) (Some becoming)
        → Takes o (token_at (Spined Values tokens) j)
        (chain path (Spined Values tokens ∷ rows) j) result }
    ensures few { result ≤ 2 ^ 53 }
{
    match becoming {
        Becoming::Stays => held[k].bytes(j),
        Becoming::Null => 2,
        Becoming::Collects => measure(held, k, j, wanted),
    }
}

/// More bytes, unless there are too many already.
fn plus(size: u64, more: u64) -> u64
    requires { (size ≤ 2 ^ 60) × (more ≤ 2 ^ 53) }
    ensures few { size ≤ 2 ^ 54 → result ≤ 2 ^ 54 }
    ensures counts { (bytes : ℕ) → Counts size bytes → Counts result (bytes + more) }
{
    if size > MOST { size } else { size + more }
}

/// What is known of new tokens that have so many bytes, with one behind each.
fn weight_of(size: u64) -> Weight
    ensures { (made : List (List ℕ)) → Counts size (bytes_of made) → Weighs (Some made) result }
{
    if size > MOST {
        Weight::Long
    } else {
        Weight::Fits
    }
}

/// What is known of the new tokens of the k-th record that waits.
pub(crate) fn weigh(held: &VecDeque<Queued>, k: usize, wanted: Option<u16>) -> Weight
    requires few { length held.now.items ≤ MOST_RECORDS }
    requires within { k < length held.now.items }
    ensures { (o : Choice) (path : Path) (tokens : List (List ℕ)) (rows : List Row)
        → wanted ≡ wanted_of o.extent → taken o.extent [] ≡ None
        → Knows o path (drop k held.now.items) (Spined Values tokens ∷ rows)
        → Weighs (all_some (new_tokens o path (Spined Values tokens) rows 0 tokens)) result }
{
    let kept = &held[k];
    let unknown: &[Walk] = &[];
    let mut size: u64 = 0;
    for j in 0..kept.row.width() {
        let Some(new) = new_at(kept, held, k, 0, unknown, j, wanted) else {
            return Weight::Undecided;
        };
        size = plus(size, new_bytes(held, k, j, wanted, new));
    }
    weight_of(size)
}

/// The text becomes the tokens that are collected from a cell of the first record that waits, until
/// they are more than a record holds.
#[inline(never)]
fn gather(
    text: &mut Text,
    held: &VecDeque<Queued>,
    j: usize,
    wanted: Option<u16>,
) -> Result<(), AllocError>
    requires few { length held.now.items ≤ MOST_RECORDS }
    ensures { OnOk result ((o : Choice) (path : Path) (rows : List Row)
        → wanted ≡ wanted_of o.extent → taken o.extent [] ≡ None → Knows o path held.now.items rows
        → (tokens : List (List ℕ)) → taken o.extent (collected o path rows j) ≡ Some tokens
        → IsJoined text.new tokens) }
{
    text.clear();
    let mut here = Place { n: 0, c: j };
    let mut count: u64 = 0;
    while here.n < held.len() {
        let next = &held[here.n];
        match next.heard(here.c) {
            Heard::Taken { begins: _, ends } => {
                text.add(next.token(here.c))?;
                count += 1;
                if is_enough(wanted, count, ends) {
                    return Ok(());
                }
                if text.is_long() {
                    return Ok(());
                }
                here.n += 1;
            }
            Heard::Passed => {
                let Some(to) = next.step(Sought::Any, here.c, held.len() - here.n) else {
                    return Ok(());
                };
                here = Place {
                    n: here.n + to.n,
                    c: to.c,
                };
            }
        }
    }
    Ok(())
}

/// The tokens that are collected from a cell, joined, where the walk from it has them all.
fn told_at(walks: &[Walk], at: u64, j: usize, wanted: Option<u16>) -> Option<&[u8]>
    requires { at ≤ MOST_RECORDS }
    ensures lawful { IfSome result (λ token. IsToken Values token.now) }
    ensures joined { IfSome result (λ token. (o : Choice) (path : Path) (rows : List Row)
        → wanted ≡ wanted_of o.extent → AllStand o path at rows walks.now
        → (tokens : List (List ℕ)) → taken o.extent (collected o path rows j) ≡ Some tokens
        → IsJoined token.now tokens) }
{
    let Some(_number) = wanted else {
        return None;
    };
    if j >= walks.len() {
        return None;
    }
    let walk = &walks[j];
    if at < walk.at && walk.enough {
        return walk.text.token();
    }
    None
}

/// Writes the new token of a cell of the first record that waits.
fn write_token(
    kept: &Queued,
    held: &VecDeque<Queued>,
    gone: u64,
    walks: &[Walk],
    j: usize,
    wanted: Option<u16>,
    becoming: Becoming,
    text: &mut Text,
    making: &mut RecordDraft,
) -> Result<(), AllocError>
    requires few { gone + length held.now.items ≤ MOST_RECORDS }
    requires kind { making.old.builder.kind ≡ Values }
    requires first { kept.now ≡ slice_index_or held.now.items 0 kept.now }
    requires token { HasToken held.now.items j }
    ensures kind { making.new.builder.kind ≡ Values }
    ensures grown { OnOk result (HasGrown (Holds Values making.old.builder making.old.is_long)
        (Holds Values making.new.builder making.new.is_long)) }
    ensures written { OnOk result ((o : Choice) (path : Path) (tokens : List (List ℕ))
        (rows : List Row) → wanted ≡ wanted_of o.extent → taken o.extent [] ≡ None
        → Knows o path held.now.items (Spined Values tokens ∷ rows)
        → AllStand o path gone (Spined Values tokens ∷ rows) walks.now
        → Becomes o (token_at (Spined Values tokens) j)
        (chain path (Spined Values tokens ∷ rows) j) (Some becoming)
        → Writes o (token_at (Spined Values tokens) j)
        (chain path (Spined Values tokens ∷ rows) j)
        (Holds Values making.old.builder making.old.is_long)
        (Holds Values making.new.builder making.new.is_long)) }
{
    match becoming {
        Becoming::Stays => making.push(kept.row.token(j)),
        Becoming::Null => making.push(b"."),
        Becoming::Collects => {
            if let Some(told) = told_at(walks, gone, j, wanted) {
                return making.push(told);
            }
            gather(text, held, j, wanted)?;
            making.push(text.token())
        }
    }
}

/// The record that the first that waits becomes. None where one of its new tokens isn't known, or they
/// are too long for one record.
pub(crate) fn write(
    alloc: Global,
    held: &VecDeque<Queued>,
    gone: u64,
    walks: &[Walk],
    wanted: Option<u16>,
    text: &mut Text,
    spare: &mut Spare,
) -> Result<Option<Record>, AllocError>
    requires few { gone + length held.now.items ≤ MOST_RECORDS }
    requires within { 0 < length held.now.items }
    requires data { FirstIsData held.now.items }
    ensures { IfOk result (λ made. (o : Choice) (path : Path) (tokens new : List (List ℕ))
        (rows : List Row) → wanted ≡ wanted_of o.extent → taken o.extent [] ≡ None
        → Knows o path held.now.items (Spined Values tokens ∷ rows)
        → AllStand o path gone (Spined Values tokens ∷ rows) walks.now
        → all_some (new_tokens o path (Spined Values tokens) rows 0 tokens) ≡ Some new
        → IsMade Values new made) }
{
    let kept = &held[0];
    let row = &kept.row;
    // Its text is lawful.
    let _kind = row.kind();
    let mut making = RecordDraft::new(alloc, SpinedKind::Values, spare);
    for j in 0..row.width() {
        let Some(new) = new_at(kept, held, 0, gone, walks, j, wanted) else {
            return Ok(None);
        };
        write_token(kept, held, gone, walks, j, wanted, new, text, &mut making)?;
    }
    Ok(making.finish())
}

/// Makes room for walks from so many cells of the record with this number.
fn widen(walks: &mut Vec<Walk>, gone: u64, count: usize) -> Result<(), AllocError>
    requires few { gone ≤ MOST_RECORDS }
    ensures wide { OnOk result (count ≤ length walks.new.items) }
    ensures stand { OnOk result ((o : Choice) (path : Path) (rows : List Row)
        → AllStand o path gone rows walks.old.items → AllStand o path gone rows walks.new.items) }
{
    for j in walks.len()..count {
        walks.push(Walk::from(gone, j))?;
    }
    Ok(())
}

/// A walk that isn't known begins at its cell, in the first record that waits.
fn begin_at(walk: &mut Walk, gone: u64, j: usize)
    requires { gone ≤ MOST_RECORDS }
    ensures behind { gone ≤ walk.new.at }
    ensures stands { (o : Choice) (path : Path) (rows : List Row) → taken o.extent [] ≡ None
        → (gone < walk.old.at → Stands o path gone rows j walk.old)
        → Stands o path gone rows j walk.new }
{
    if gone < walk.at {
        return;
    }
    *walk = Walk::from(gone, j);
}

/// A walk from a cell of the first record that waits goes on, down to where it is decided.
fn go_on_at(walk: &mut Walk, held: &VecDeque<Queued>, gone: u64, j: usize, wanted: Option<u16>)
    requires { gone + length held.now.items ≤ MOST_RECORDS }
    ensures { (o : Choice) (path : Path) (rows : List Row) → wanted ≡ wanted_of o.extent
        → taken o.extent [] ≡ None → Knows o path held.now.items rows
        → (gone < walk.old.at → Stands o path gone rows j walk.old)
        → Halts o path gone rows j walk.new }
{
    begin_at(walk, gone, j);
    walk.go_on(held, gone, wanted);
}

/// The walk from a cell of the first record that waits goes on. What the token of the cell becomes,
/// from which others are collected.
fn advance_walk(
    held: &VecDeque<Queued>,
    gone: u64,
    walks: &mut Vec<Walk>,
    j: usize,
    wanted: Option<u16>,
) -> Option<Becoming>
    requires few { gone + length held.now.items ≤ MOST_RECORDS }
    requires within { j < length walks.old.items }
    ensures wide { length walks.new.items ≡ length walks.old.items }
    ensures stand { (o : Choice) (path : Path) (rows : List Row)
        → wanted ≡ wanted_of o.extent → taken o.extent [] ≡ None → Knows o path held.now.items rows
        → AllStand o path gone rows walks.old.items → AllStand o path gone rows walks.new.items }
    ensures becomes { (o : Choice) (path : Path) (rows : List Row)
        → wanted ≡ wanted_of o.extent → taken o.extent [] ≡ None → Knows o path held.now.items rows
        → AllStand o path gone rows walks.old.items
        → (token : List ℕ) → is_collectable o token ≡ true → begins o.extent token ≡ true
        → Becomes o token (chain path rows j) result }
{
    go_on_at(&mut walks[j], held, gone, j, wanted);
    becoming_by(walks[j])
}

/// What the token at place j becomes of the first record that waits. The walk from it goes on.
fn advance_at(
    kept: &Queued,
    held: &VecDeque<Queued>,
    gone: u64,
    walks: &mut Vec<Walk>,
    j: usize,
    wanted: Option<u16>,
) -> Option<Becoming>
    requires few { gone + length held.now.items ≤ MOST_RECORDS }
    requires some { 0 < length held.now.items }
    requires first { kept.now ≡ slice_index_or held.now.items 0 kept.now }
    requires within { j < length walks.old.items }
    ensures wide { length walks.new.items ≡ length walks.old.items }
    ensures stand { (o : Choice) (path : Path) (rows : List Row)
        → wanted ≡ wanted_of o.extent → taken o.extent [] ≡ None → Knows o path held.now.items rows
        → AllStand o path gone rows walks.old.items → AllStand o path gone rows walks.new.items }
    ensures becomes { (o : Choice) (path : Path) (tokens : List (List ℕ)) (rows : List Row)
        → wanted ≡ wanted_of o.extent → taken o.extent [] ≡ None
        → Knows o path held.now.items (Spined Values tokens ∷ rows)
        → AllStand o path gone (Spined Values tokens ∷ rows) walks.old.items
        → Becomes o (token_at (Spined Values tokens) j)
        (chain path (Spined Values tokens ∷ rows) j) result }
{
    match kept.heard(j) {
        Heard::Passed => Some(Becoming::Stays),
        Heard::Taken { begins, ends: _ } => {
            if !begins {
                return Some(Becoming::Null);
            }
            if let Some(known) = enough_at(walks, gone, j) {
                return Some(known);
            }
            advance_walk(held, gone, walks, j, wanted)
        }
    }
}

/// Whether the new tokens of the first record that waits are known. The walks from it go on, to the
/// first that isn't decided.
#[inline(never)]
pub(crate) fn advance(
    held: &VecDeque<Queued>,
    gone: u64,
    walks: &mut Vec<Walk>,
    wanted: Option<u16>,
) -> Result<bool, AllocError>
    requires few { gone + length held.now.items ≤ MOST_RECORDS }
    requires within { 0 < length held.now.items }
    ensures stand { OnOk result ((o : Choice) (path : Path) (rows : List Row)
        → wanted ≡ wanted_of o.extent → taken o.extent [] ≡ None → Knows o path held.now.items rows
        → AllStand o path gone rows walks.old.items → AllStand o path gone rows walks.new.items) }
    ensures known { IfOk result (λ known. (o : Choice) (path : Path) (tokens : List (List ℕ))
        (rows : List Row) → wanted ≡ wanted_of o.extent → taken o.extent [] ≡ None
        → Knows o path held.now.items (Spined Values tokens ∷ rows)
        → AllStand o path gone (Spined Values tokens ∷ rows) walks.old.items
        → AreKnown (all_some (new_tokens o path (Spined Values tokens) rows 0 tokens)) known) }
{
    let kept = &held[0];
    let width = kept.row.width();
    widen(walks, gone, width)?;
    for j in 0..width {
        let Some(_new) = advance_at(kept, held, gone, walks, j, wanted) else {
            return Ok(false);
        };
    }
    Ok(true)
}
