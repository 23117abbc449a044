//! The opening spine that each spine comes from.
ghost use Rattle.std.specs.Prelude.{◌≡◌, ◌∷◌, ◌<◌, map, length, List, [], Some, slice_get, false};
ghost use Rattle.std.specs.Prelude.{IsTrue, IsErr, OnOk, OnErr, IfOk};
ghost use Rattle.hum_score.specs.Row.{Row};
ghost use Rattle.hum_score.specs.{Spines.moves, Score.IsOpen, Score.path_after};
ghost use Rattle.hum_path.specs.{Chains.origin_of};
ghost use Rattle.hum_path.specs.{Origins.origin, Origins.AreOrigins};

use crate::carried::moves_some;
use crate::moved::Moves;
use hum_record::Record;
use hum_score::Move;
use std::alloc::{AllocError, Global};
use std::marker::Model;

/// For each spine its origin: the opening spine that it comes from, through splits, joins and
/// exchanges, and from an added spine on through the one that it was added to.
#[derive(Drop)]
pub struct Origins {
    alloc: Global,
    each: Vec<u16>,
    spent: bool,
}

impl Model for Origins {
    ghost use Rattle.hum_path.specs.Origins.{Traced};

    ghost Value = { Traced };

    ghost view = { λ o. record { each = o.each.items; spent = o.spent } };
}

/// The origin of a spine that comes by a move, by those of the spines before. An opening spine is its
/// own.
fn origin_of(each: &[u16], from: Move) -> u16
    ensures { result ≡ origin_of each.now from }
{
    match from {
        Move::Same(j) | Move::Left(j) | Move::Right(j) | Move::Join(j, _) | Move::Added(j) => {
            if (j as usize) < each.len() {
                each[j as usize]
            } else {
                j
            }
        }
    }
}

/// The same of all spines after a record.
fn origins_of(alloc: Global, each: &[u16], found: &Moves) -> Result<Vec<u16>, AllocError>
    ensures { IfOk result (λ next. next.items ≡ map (origin_of each.now) found.now) }
{
    let mut next = Vec::new(alloc);
    for i in 0..found.len() {
        next.push(origin_of(each, found.get(i)))?;
    }
    Ok(next)
}

impl Origins {
    /// No spines yet.
    pub fn new(alloc: Global) -> Origins
        ensures empty { result ≡ record { each = []; spent = false } }
        ensures origins { AreOrigins [] result.each }
    {
        Origins {
            alloc,
            each: Vec::new(alloc),
            spent: false,
        }
    }

    /// How many spines there are.
    pub fn width(&self) -> usize
        ensures { result ≡ length self.now.each }
    {
        self.each.len()
    }

    /// The origin of a spine; both are counted from 0.
    pub fn at(&self, j: usize) -> u16
        requires { j < length self.now.each }
        ensures each { slice_get self.now.each j ≡ Some result }
        ensures origin { (past : List Row) → AreOrigins past self.now.each
            → result ≡ origin past j }
    {
        self.each[j]
    }

    /// Takes one more record, whose moves are known: origins stay origins.
    ///
    /// # Errors
    /// Out of memory, which each later call answers again.
    pub fn follow(&mut self, row: &Record, found: &Moves) -> Result<(), AllocError>
        ensures origins { OnOk result ((past : List Row) → AreOrigins past self.old.each
            → IsOpen (row.now ∷ past) → found.now ≡ moves (path_after past) row.now
            → AreOrigins (row.now ∷ past) self.new.each) }
        ensures spent { OnErr result (IsTrue self.new.spent) }
        ensures again { IsTrue self.old.spent → IsErr result }
    {
        if self.spent {
            return Err(AllocError);
        }
        if !moves_some(row, found, self.each.len()) {
            return Ok(());
        }
        self.spent = true;
        self.each = origins_of(self.alloc, &self.each, found)?;
        self.spent = false;
        Ok(())
    }
}
