//! Ways down a spine, past records in which nothing is found.
ghost use Rattle.std.specs.Prelude.{◌≡◌, ◌-◌, ◌<◌, ◌≤◌, ℕ, List, ◌∷◌, drop, false, length};
ghost use Rattle.std.specs.Prelude.{slice_index_or, None, Some};
ghost use Rattle.hum_score.specs.Row.{Row};
ghost use Rattle.hum_score.specs.Spines.{Path};
ghost use Rattle.hum_context.specs.Context.{Choice};
ghost use Rattle.hum_context.specs.Leads.{Leads, Linked, is_found};
ghost use Rattle.hum_context.specs.Queue.{Known, Knows, column_in};
ghost use Rattle.hum_context.specs.declared.heard.Heard.TheVariants.{Passed};
ghost use Rattle.hum_context.specs.declared.queued.Queued.{Queued};

use crate::heard::Heard;
use crate::links::Sought;
use crate::queued::Queued;
use hum_stage::MOST_RECORDS;
use std::collections::VecDeque;

/// A cell of a record before which so many wait, or stand behind another.
#[derive(Clone, Copy)]
pub(crate) struct Place {
    pub(crate) n: usize,
    pub(crate) c: usize,
}

impl Queued {
    /// Whether what is looked for stands in a column.
    fn finds(&self, sought: Sought, c: usize) -> bool
        ensures { result ≡ is_found sought (slice_index_or self.now.heard.items c Passed) }
    {
        match self.heard(c) {
            Heard::Passed => false,
            Heard::Taken { begins: _, ends } => match sought {
                Sought::Any => true,
                Sought::Last => ends,
            },
        }
    }

    /// The cell to which one leads in which nothing is found, of so many records at most, where a way is
    /// kept.
    #[inline(never)]
    fn way(&self, sought: Sought, c: usize, most: usize) -> Option<Place>
        ensures within { (to : Place) → result ≡ Some to → (0 < to.n) × (to.n ≤ most) }
        ensures leads { (o : Choice) (path : Path) (rows : List Row)
            → Linked o path rows self.now.links → (to : Place) → result ≡ Some to
            → Leads o sought path rows c to.n to.c }
    {
        let link = self.links.of(sought, c);
        if 0 < link.over && link.over as usize <= most {
            return Some(Place {
                n: link.over as usize,
                c: link.column as usize,
            });
        }
        None
    }

    /// The same, or else the cell in the next record.
    pub(crate) fn step(&self, sought: Sought, c: usize, most: usize) -> Option<Place>
        requires { 0 < most }
        ensures within { (to : Place) → result ≡ Some to → (0 < to.n) × (to.n ≤ most) }
        ensures leads { (o : Choice) (path : Path) (row : Row) (rows : List Row)
            → Known o path row self.now → Linked o path (row ∷ rows) self.now.links
            → is_found sought (slice_index_or self.now.heard.items c Passed) ≡ false
            → (to : Place) → result ≡ Some to
            → Leads o sought path (row ∷ rows) c to.n to.c }
        ensures none { result ≡ None → column_in self.now.row self.now.below c ≡ None }
    {
        if !self.links.is_empty() {
            if let Some(to) = self.way(sought, c, most) {
                return Some(to);
            }
        }
        match self.column_below(c) {
            None => None,
            Some(below) => Some(Place { n: 1, c: below }),
        }
    }
}

/// From a cell in which nothing is found the first below in which something is, or in which its spine
/// stops, or one beyond all that wait. None where its spine stops there.
pub(crate) fn skip(held: &VecDeque<Queued>, from: Place, sought: Sought) -> Option<Place>
    requires few { length held.now.items ≤ MOST_RECORDS }
    requires within { from.n < length held.now.items }
    ensures within { (to : Place) → result ≡ Some to
        → (from.n < to.n) × (to.n ≤ length held.now.items) }
    ensures leads { (o : Choice) (path : Path) (rows : List Row) (kept : Queued)
        → kept ≡ slice_index_or held.now.items from.n kept
        → is_found sought (slice_index_or kept.heard.items from.c Passed) ≡ false
        → Knows o path (drop from.n held.now.items) rows → (to : Place) → result ≡ Some to
        → Leads o sought path rows from.c (to.n - from.n) to.c }
    ensures none { (kept : Queued) → kept ≡ slice_index_or held.now.items from.n kept
        → result ≡ None → column_in kept.row kept.below from.c ≡ None }
{
    let Some(first) = held[from.n].step(sought, from.c, held.len() - from.n) else {
        return None;
    };
    let mut here = Place {
        n: from.n + first.n,
        c: first.c,
    };
    while here.n < held.len() {
        let kept = &held[here.n];
        if kept.finds(sought, here.c) {
            return Some(here);
        }
        let Some(next) = kept.step(sought, here.c, held.len() - here.n) else {
            return Some(here);
        };
        here = Place {
            n: here.n + next.n,
            c: next.c,
        };
    }
    Some(here)
}
