//! Walks from the cells below, once a record is gone.
ghost use Rattle.std.specs.Prelude.{◌≡◌, ◌⊎◌, ◌<◌, ◌+◌, ◌-◌, ℕ, List, [], ◌∷◌, Some, OnOk, length};
ghost use Rattle.hum_score.specs.Row.{Row};
ghost use Rattle.hum_score.specs.Spines.{Path, after};
ghost use Rattle.hum_context.specs.{Columns.column_below, Context.Choice, Heard.wanted_of};
ghost use Rattle.hum_context.specs.{Queue.Known, Queue.column_in};
ghost use Rattle.hum_context.specs.Walking.{AllStand, Has, Says, Shortens, Stands};

use crate::heard::Heard;
use crate::queued::Queued;
use crate::walk::Walk;
use std::alloc::AllocError;

impl Walk {
    /// Its first token is taken away.
    fn lose_first(&mut self, enough: bool)
        ensures at { self.new.at ≡ self.old.at }
        ensures column { (self.new.column ≡ self.old.column) × (self.new.ended ≡ self.old.ended) }
        ensures less { self.new.count ≡ self.old.count - 1 }
        ensures enough { self.new.enough ≡ enough }
        ensures text { self.new.text ≡ self.old.text }
    {
        self.count = self.count.saturating_sub(1);
        self.enough = enough;
    }

    /// The same of a token that is collected, has so many bytes, and ends a group or doesn't; a walk that ended with it
    /// is made anew.
    fn lose_taken(&mut self, wanted: Option<u16>, ends: bool, first: usize)
        ensures at { (self.new.at ≡ self.old.at) ⊎ (self.new.at ≡ 0) }
        ensures has { Shortens wanted ends self.old self.new }
        ensures says { (n : ℕ) → wanted ≡ Some n → (token : List ℕ) (tokens : List (List ℕ))
            → first ≡ length token → Says self.old.text (token ∷ tokens)
            → Says self.new.text tokens }
    {
        match wanted {
            Some(_) => {
                self.text.lose(first);
                self.lose_first(false);
            }
            None => {
                if ends {
                    *self = Walk::from(0, 0);
                    return;
                }
                self.lose_first(self.enough);
            }
        }
    }

    /// It becomes the walk from the cell below, where it was one from a cell of the record that is gone.
    // In place: what pads its fields isn't moved along with them.
    fn lose(&mut self, kept: &Queued, j: usize, wanted: Option<u16>)
        ensures at { (self.new.at ≡ self.old.at) ⊎ (self.new.at ≡ 0) }
        ensures has { (o : Choice) (path : Path) (row : Row) (front : List Row) (i : ℕ)
            → wanted ≡ wanted_of o.extent → Known o path row kept.now
            → column_below path row j ≡ Some i → Has o path (row ∷ front) j self.old
            → 0 < self.new.at → Has o (after path row) front i self.new }
    {
        match kept.heard(j) {
            Heard::Passed => {}
            Heard::Taken { begins: _, ends } => {
                let first = kept.token(j).len();
                self.lose_taken(wanted, ends, first);
            }
        }
    }
}

/// Keeps a walk at its place, unless one is there that has come as far; those that aren't known stand
/// nowhere.
fn place(walks: &mut Vec<Walk>, i: usize, walk: Walk) -> Result<(), AllocError>
    ensures { OnOk result ((o : Choice) (path : Path) (first : ℕ) (rows : List Row)
        → AllStand o path first rows walks.old.items
        → (first < walk.at → Stands o path first rows i walk)
        → AllStand o path first rows walks.new.items) }
{
    for _ in walks.len()..i {
        walks.push(Walk::from(0, 0))?;
    }
    if walks.len() == i {
        walks.push(walk)?;
        return Ok(());
    }
    let other = walks[i];
    if other.at < walk.at {
        walks[i] = walk;
    }
    Ok(())
}

/// The walk from the cell below that at place j, if there is one, is kept at its place.
fn share_one(
    walk: Walk,
    kept: &Queued,
    j: usize,
    wanted: Option<u16>,
    next: &mut Vec<Walk>,
) -> Result<(), AllocError>
    ensures { OnOk result ((o : Choice) (path : Path) (first : ℕ) (row : Row) (rows : List Row)
        → wanted ≡ wanted_of o.extent → Known o path row kept.now
        → (first < walk.at → Stands o path first (row ∷ rows) j walk)
        → AllStand o (after path row) (first + 1) rows next.old.items
        → AllStand o (after path row) (first + 1) rows next.new.items) }
{
    match kept.below(j) {
        None => Ok(()),
        Some(i) => {
            let mut behind = walk;
            behind.lose(kept, j, wanted);
            place(next, i, behind)?;
            Ok(())
        }
    }
}

/// The walks from the cells below a record that is gone, by those from its cells.
pub(crate) fn share(
    walks: &[Walk],
    kept: &Queued,
    wanted: Option<u16>,
    next: &mut Vec<Walk>,
) -> Result<(), AllocError>
    requires { next.old.items ≡ [] }
    ensures { OnOk result ((o : Choice) (path : Path) (first : ℕ) (row : Row) (rows : List Row)
        → wanted ≡ wanted_of o.extent → Known o path row kept.now
        → AllStand o path first (row ∷ rows) walks.now
        → AllStand o (after path row) (first + 1) rows next.new.items) }
{
    for j in 0..walks.len() {
        let walk = walks[j];
        share_one(walk, kept, j, wanted, next)?;
    }
    Ok(())
}

/// The walks from the cells below a record that is gone, under which each spine stays where it is.
pub(crate) fn shorten(walks: &mut Vec<Walk>, kept: &Queued, wanted: Option<u16>)
    requires { (c : ℕ) → column_in kept.now.row kept.now.below c ≡ Some c }
    ensures { (o : Choice) (path : Path) (first : ℕ) (row : Row) (rows : List Row)
        → wanted ≡ wanted_of o.extent → Known o path row kept.now
        → AllStand o path first (row ∷ rows) walks.old.items
        → AllStand o (after path row) (first + 1) rows walks.new.items }
{
    for j in 0..walks.len() {
        walks[j].lose(kept, j, wanted);
    }
}
