//! One memory for each spine.
ghost use Rattle.std.specs.Prelude.{◌≡◌, ◌<◌, true, false, map, length, List, [], ℕ};
ghost use Rattle.std.specs.Prelude.{slice_index_or, slice_get, slice_set, Some, IsTrue, IsErr, OnOk, OnErr, IfOk};
ghost use Rattle.std.specs.List.{AllByRecursion};
ghost use Rattle.hum_score.specs.declared.records.{SpinedKind.SpinedKind, Kind.TheVariants.Interpretation};
ghost use Rattle.hum_score.specs.Row.{kind_of, width_of, tokens_of};
ghost use Rattle.hum_score.specs.Spelling.{IsToken};
ghost use Rattle.hum_score.specs.{Spines.source, Spines.same_upto};
ghost use Rattle.hum_path.specs.{Step.ComeFrom};
ghost use Rattle.hum_path.specs.Memories.{memory_of, seen_each, GoOn};

use crate::moved::Moves;
use hum_record::Record;
use hum_score::{Kind, Move};
use std::alloc::{AllocError, Global};
use std::marker::Model;

/// What is remembered of a column, from its first cell on.
pub trait ColumnMemory: Drop {
    /// How it remembers.
    type Rule;

    /// What is remembered of no cell.
    ghost beginning: { Self };

    /// What is remembered after one more cell.
    ghost seen: { Self.Rule → List ℕ → Self → Self };

    /// The memory of no cell.
    fn fresh(alloc: Global) -> Self
        ensures { result ≡ beginning };

    /// Sees one more cell. The rule may work with what it holds, as a pattern with its tables, and
    /// stays what it was.
    fn see(&mut self, rule: &mut Self::Rule, token: &[u8]) -> Result<(), AllocError>
        requires { (kind : SpinedKind) × IsToken kind token.now }
        ensures seen { OnOk result (self.new ≡ seen rule.old token.now self.old) }
        ensures kept { rule.new ≡ rule.old };

    /// The same memory once more.
    fn copy(&self) -> Result<Self, AllocError>
        ensures { IfOk result (λ memory. memory ≡ self.now) };
}

/// The memories of the spines.
#[derive(Drop)]
pub struct Carried<M: ColumnMemory> {
    alloc: Global,
    memories: Vec<M>,
    spent: bool,
}

impl<M: ColumnMemory> Model for Carried<M> {
    ghost use Rattle.hum_path.specs.Memories.{Memories};

    ghost Value = { Memories M };

    ghost view = { λ c. record { each = c.memories.items; spent = c.spent } };
}

/// A memory sees the token in a column.
#[inline(always)]
fn see_token<M: ColumnMemory>(
    memory: &mut M,
    rule: &mut M::Rule,
    row: &Record,
    j: usize,
) -> Result<(), AllocError>
    requires { j < width_of row.now }
    ensures seen { OnOk result
        (memory.new ≡ M.seen rule.old (slice_index_or (tokens_of row.now) j []) memory.old) }
    ensures kept { rule.new ≡ rule.old }
{
    memory.see(rule, row.token(j))
}

/// The memory of a spine after a record, from those before.
fn next_one<M: ColumnMemory>(
    alloc: Global,
    rule: &mut M::Rule,
    row: &Record,
    memories: &[M],
    from: Move,
) -> Result<M, AllocError>
    requires { source from < width_of row.now }
    ensures next { IfOk result (λ memory. memory
        ≡ memory_of (M.seen rule.old) M.beginning (tokens_of row.now) memories.now from) }
    ensures kept { rule.new ≡ rule.old }
{
    match from {
        Move::Added(_) => Ok(M::fresh(alloc)),
        Move::Same(j) | Move::Left(j) | Move::Right(j) | Move::Join(j, _) => {
            let mut memory = if (j as usize) < memories.len() {
                memories[j as usize].copy()?
            } else {
                M::fresh(alloc)
            };
            see_token(&mut memory, rule, row, j as usize)?;
            Ok(memory)
        }
    }
}

fn next_all<M: ColumnMemory>(
    alloc: Global,
    rule: &mut M::Rule,
    row: &Record,
    memories: &[M],
    found: &Moves,
) -> Result<Vec<M>, AllocError>
    requires { AllByRecursion (λ move. source move < width_of row.now) found.now }
    ensures next { IfOk result (λ next. next.items ≡ map
        (memory_of (M.seen rule.old) M.beginning (tokens_of row.now) memories.now) found.now) }
    ensures kept { rule.new ≡ rule.old }
{
    let mut next = Vec::new(alloc);
    for i in 0..found.len() {
        next.push(next_one(alloc, rule, row, memories, found.get(i))?)?;
    }
    Ok(next)
}

/// Each memory sees the token under it.
fn see_each<M: ColumnMemory>(
    rule: &mut M::Rule,
    row: &Record,
    memories: &mut Vec<M>,
) -> Result<(), AllocError>
    ensures seen { OnOk result
        (memories.new.items ≡ seen_each (M.seen rule.old) (tokens_of row.now) memories.old.items) }
    ensures kept { rule.new ≡ rule.old }
{
    for j in 0..row.width() {
        if j >= memories.len() {
            return Ok(());
        }
        see_token(&mut memories[j], rule, row, j)?;
    }
    Ok(())
}

/// Whether a record moves some of so many spines.
pub(crate) fn moves_some(row: &Record, found: &Moves, width: usize) -> bool
    ensures yes { result ≡ true → kind_of row.now ≡ Interpretation }
    ensures no { result ≡ false → kind_of row.now ≡ Interpretation
        → found.now ≡ same_upto 0 width }
{
    match row.kind() {
        Kind::Interpretation => match found.as_listed() {
            None => found.len() != width,
            Some(_) => true,
        },
        _ => false,
    }
}

/// The memories go on under a record.
fn go_on<M: ColumnMemory>(
    alloc: Global,
    rule: &mut M::Rule,
    row: &Record,
    found: &Moves,
    memories: &mut Vec<M>,
) -> Result<(), AllocError>
    requires { ComeFrom row.now found.now }
    ensures memories { OnOk result (GoOn (M.seen rule.old) M.beginning row.now found.now
        memories.old.items memories.new.items) }
    ensures kept { rule.new ≡ rule.old }
{
    if moves_some(row, found, memories.len()) {
        *memories = next_all(alloc, rule, row, memories, found)?;
        return Ok(());
    }
    see_each(rule, row, memories)
}

impl<M: ColumnMemory> Carried<M> {
    /// No spines yet.
    pub fn new(alloc: Global) -> Self
        ensures { result ≡ record { each = []; spent = false } }
    {
        Carried {
            alloc,
            memories: Vec::new(alloc),
            spent: false,
        }
    }

    /// How many spines there are.
    pub fn width(&self) -> usize
        ensures { result ≡ length self.now.each }
    {
        self.memories.len()
    }

    /// The memory of a spine, counted from 0.
    pub fn at(&self, j: usize) -> &M
        requires { j < length self.now.each }
        ensures { result.now ≡ slice_index_or self.now.each j result.now }
    {
        &self.memories[j]
    }

    /// A memory sees the token under it, of a record that moves no spine. Where such a record is taken column
    /// by column, each of its tokens is seen so.
    ///
    /// # Errors
    /// Out of memory.
    #[inline(always)]
    pub fn see(&mut self, rule: &mut M::Rule, j: usize, token: &[u8]) -> Result<(), AllocError>
        requires within { j < length self.old.each }
        requires lawful { (kind : SpinedKind) × IsToken kind token.now }
        ensures seen { OnOk result ((memory : M) → slice_get self.old.each j ≡ Some memory
            → self.new.each ≡ slice_set self.old.each j (M.seen rule.old token.now memory)) }
        ensures kept { rule.new ≡ rule.old }
        ensures spent { self.new.spent ≡ self.old.spent }
    {
        self.memories[j].see(rule, token)
    }

    /// Takes one more record, whose moves are known: memories of the cells above stay memories of
    /// the cells above.
    ///
    /// # Errors
    /// Out of memory, which each later call answers again.
    pub fn follow(
        &mut self,
        rule: &mut M::Rule,
        row: &Record,
        found: &Moves,
    ) -> Result<(), AllocError>
        requires { ComeFrom row.now found.now }
        ensures memories { OnOk result
            (GoOn (M.seen rule.old) M.beginning row.now found.now self.old.each self.new.each) }
        // The rule stays what it was.
        ensures kept { rule.new ≡ rule.old }
        ensures spent { OnErr result (IsTrue self.new.spent) }
        ensures again { IsTrue self.old.spent → IsErr result }
    {
        if self.spent {
            return Err(AllocError);
        }
        self.spent = true;
        go_on(self.alloc, rule, row, found, &mut self.memories)?;
        self.spent = false;
        Ok(())
    }
}
