//! Ways down a spine that are kept, so that what they lead past is gone through once.
ghost use Rattle.std.specs.Prelude.{◌≡◌, ◌<◌, ◌≤◌, ℕ, List, length, slice_index_or, OnOk};
ghost use Rattle.hum_score.specs.Row.{Row};
ghost use Rattle.hum_score.specs.Spines.{Path};
ghost use Rattle.hum_context.specs.Context.{Choice};
ghost use Rattle.hum_context.specs.Leads.{IsPut, LeadsFrom, link_in};
ghost use Rattle.hum_context.specs.Queue.{FirstIsData, Knows};
ghost use Rattle.hum_context.specs.Walking.{AllStand};
ghost use Rattle.hum_context.specs.declared.links.Sought.{Sought as AnySought};

use crate::below::Below;
use crate::heard::Heard;
use crate::links::{Link, Sought};
use crate::queued::Queued;
use crate::skipping::{Place, skip};
use crate::stepping::sought;
use crate::walk::Walk;
use hum_stage::MOST_RECORDS;
use std::alloc::AllocError;
use std::collections::VecDeque;

/// A way through more records is kept.
const FEW_RECORDS: usize = 16;

/// The last column from which and to which one is kept.
const LAST_COLUMN: usize = 65_535;

impl Queued {
    /// Whether it leads to other columns.
    fn moves(&self) -> bool {
        match &self.below {
            Below::Same(_) => false,
            Below::Listed(_) => true,
        }
    }

    /// From its cell in a column on this is known.
    fn put_link(&mut self, sought: Sought, c: usize, link: Link) -> Result<(), AllocError>
        requires { c ≤ LAST_COLUMN }
        ensures kept { OnOk result (self.new ≡ record self.old { links = self.new.links }) }
        ensures put { OnOk result ((s : AnySought) (i : ℕ)
            → IsPut self.old.links sought c link s i (link_in self.new.links s i)) }
    {
        self.links.put(sought, c, link)
    }
}

/// A cell leads to another below, if spines move under it or it is the first.
fn put_way(
    held: &mut VecDeque<Queued>,
    from: Place,
    to: Place,
    is_first: bool,
    sought: Sought,
) -> Result<(), AllocError>
    requires few { length held.old.items ≤ MOST_RECORDS }
    requires within { (from.n < to.n) × (to.n ≤ length held.old.items) }
    requires narrow { to.c ≤ LAST_COLUMN }
    ensures size { OnOk result (length held.new.items ≡ length held.old.items) }
    ensures valued { OnOk result (FirstIsData held.old.items → FirstIsData held.new.items) }
    ensures knows { OnOk result ((o : Choice) (path : Path) (rows : List Row)
        → LeadsFrom o sought path rows from.n from.c to.n to.c
        → Knows o path held.old.items rows → Knows o path held.new.items rows) }
{
    if from.c > LAST_COLUMN {
        return Ok(());
    }
    if !is_first && !held[from.n].moves() {
        return Ok(());
    }
    let link = Link {
        over: (to.n - from.n) as u32,
        column: to.c as u32,
    };
    held[from.n].put_link(sought, from.c, link)?;
    Ok(())
}

/// The same of a cell in which nothing is found, and of those on its way in which spines move.
fn link_way(
    held: &mut VecDeque<Queued>,
    from: Place,
    to: Place,
    sought: Sought,
) -> Result<(), AllocError>
    requires few { length held.old.items ≤ MOST_RECORDS }
    requires within { to.n ≤ length held.old.items }
    requires narrow { to.c ≤ LAST_COLUMN }
    requires leads { (o : Choice) (path : Path) (rows : List Row) → Knows o path held.old.items rows
        → LeadsFrom o sought path rows from.n from.c to.n to.c }
    ensures size { OnOk result (length held.new.items ≡ length held.old.items) }
    ensures valued { OnOk result (FirstIsData held.old.items → FirstIsData held.new.items) }
    ensures knows { OnOk result ((o : Choice) (path : Path) (rows : List Row)
        → Knows o path held.old.items rows → Knows o path held.new.items rows) }
{
    let mut here = from;
    while here.n < to.n {
        let Some(next) = held[here.n].step(sought, here.c, to.n - here.n) else {
            return Ok(());
        };
        let is_first = here.n == from.n;
        put_way(held, here, to, is_first, sought)?;
        here = Place {
            n: here.n + next.n,
            c: next.c,
        };
    }
    Ok(())
}

/// The long ways from cell to cell, from one of the first record on through so many, are kept.
fn link_ways(
    held: &mut VecDeque<Queued>,
    j: usize,
    count: usize,
    sought: Sought,
) -> Result<(), AllocError>
    requires few { length held.old.items ≤ MOST_RECORDS }
    ensures size { OnOk result (length held.new.items ≡ length held.old.items) }
    ensures valued { OnOk result (FirstIsData held.old.items → FirstIsData held.new.items) }
    ensures knows { OnOk result ((o : Choice) (path : Path) (rows : List Row)
        → Knows o path held.old.items rows → Knows o path held.new.items rows) }
{
    let mut here = Place { n: 0, c: j };
    while here.n < count && here.n < held.len() {
        match held[here.n].heard(here.c) {
            Heard::Taken { begins: _, ends: _ } => here.n += 1,
            Heard::Passed => {
                let Some(to) = skip(held, here, sought) else {
                    return Ok(());
                };
                if to.n - here.n > FEW_RECORDS && to.c <= LAST_COLUMN {
                    link_way(held, here, to, sought)?;
                }
                here = to;
            }
        }
    }
    Ok(())
}

/// The ways of a walk from a cell of the first record are kept: those from each token to the next only
/// where these are enough.
fn link_walk(
    held: &mut VecDeque<Queued>,
    gone: u64,
    j: usize,
    walk: Walk,
    wanted: Option<u16>,
) -> Result<(), AllocError>
    requires few { length held.old.items ≤ MOST_RECORDS }
    ensures size { OnOk result (length held.new.items ≡ length held.old.items) }
    ensures valued { OnOk result (FirstIsData held.old.items → FirstIsData held.new.items) }
    ensures knows { OnOk result ((o : Choice) (path : Path) (rows : List Row)
        → Knows o path held.old.items rows → Knows o path held.new.items rows) }
{
    let count = walk.at.saturating_sub(gone) as usize;
    if wanted.is_none() && walk.enough {
        link_ways(held, j, count, Sought::Any)?;
    }
    link_ways(held, j, count, sought(wanted))
}

/// The same of the walk from a cell of the first record, if it went far since it was last asked.
fn link_one(
    held: &mut VecDeque<Queued>,
    gone: u64,
    walks: &mut Vec<Walk>,
    j: usize,
    wanted: Option<u16>,
) -> Result<(), AllocError>
    requires few { length held.old.items ≤ MOST_RECORDS }
    requires within { j < length walks.old.items }
    ensures wide { length walks.new.items ≡ length walks.old.items }
    ensures size { OnOk result (length held.new.items ≡ length held.old.items) }
    ensures valued { OnOk result (FirstIsData held.old.items → FirstIsData held.new.items) }
    ensures knows { OnOk result ((o : Choice) (path : Path) (rows : List Row)
        → Knows o path held.old.items rows → Knows o path held.new.items rows) }
    ensures stand { (o : Choice) (path : Path) (first : ℕ) (rows : List Row)
        → AllStand o path first rows walks.old.items → AllStand o path first rows walks.new.items }
{
    let walk = walks[j];
    walks[j].seen = walk.at as u32;
    if walk.at.saturating_sub(walk.seen as u64) <= FEW_RECORDS as u64 {
        return Ok(());
    }
    link_walk(held, gone, j, walk, wanted)
}

/// The same of each of these walks.
#[inline(never)]
fn link_all(
    held: &mut VecDeque<Queued>,
    gone: u64,
    walks: &mut Vec<Walk>,
    wanted: Option<u16>,
) -> Result<(), AllocError>
    requires few { length held.old.items ≤ MOST_RECORDS }
    ensures size { OnOk result (length held.new.items ≡ length held.old.items) }
    ensures valued { OnOk result (FirstIsData held.old.items → FirstIsData held.new.items) }
    ensures knows { OnOk result ((o : Choice) (path : Path) (rows : List Row)
        → Knows o path held.old.items rows → Knows o path held.new.items rows) }
    ensures stand { OnOk result ((o : Choice) (path : Path) (first : ℕ) (rows : List Row)
        → AllStand o path first rows walks.old.items → AllStand o path first rows walks.new.items) }
{
    for j in 0..walks.len() {
        link_one(held, gone, walks, j, wanted)?;
    }
    Ok(())
}

/// The same where many records wait.
pub(crate) fn link(
    held: &mut VecDeque<Queued>,
    gone: u64,
    walks: &mut Vec<Walk>,
    wanted: Option<u16>,
) -> Result<(), AllocError>
    requires few { length held.old.items ≤ MOST_RECORDS }
    ensures size { OnOk result (length held.new.items ≡ length held.old.items) }
    ensures valued { OnOk result (FirstIsData held.old.items → FirstIsData held.new.items) }
    ensures knows { OnOk result ((o : Choice) (path : Path) (rows : List Row)
        → Knows o path held.old.items rows → Knows o path held.new.items rows) }
    ensures stand { OnOk result ((o : Choice) (path : Path) (first : ℕ) (rows : List Row)
        → AllStand o path first rows walks.old.items → AllStand o path first rows walks.new.items) }
{
    if held.len() <= FEW_RECORDS {
        return Ok(());
    }
    link_all(held, gone, walks, wanted)
}
