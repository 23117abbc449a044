//! Where spines lead, past records in which nothing is found.
ghost use Rattle.std.specs.Prelude.{◌≡◌, ◌⊎◌, ◌==◌, ◌≤◌, ℕ, length, if◌then◌else◌, slice_index_or, OnOk};
ghost use Rattle.hum_context.specs.Leads.{IsPut, link_in, no_link, no_ways, with_way};
ghost use Rattle.hum_context.specs.declared.links.Sought.{Sought as AnySought};

use std::alloc::{AllocError, Global};

/// What is looked for down a spine.
#[derive(Clone, Copy)]
pub(crate) enum Sought {
    /// A token that is collected.
    Any,
    /// One that ends a group.
    Last,
}

/// From a cell on, in so many records, nothing is found; the spine then stands in this column.
/// Nothing is known where there are none.
#[derive(Clone, Copy)]
pub(crate) struct Link {
    pub(crate) over: u32,
    pub(crate) column: u32,
}

/// What is known from a cell on.
#[derive(Clone, Copy)]
pub(crate) struct Ways {
    pub(crate) any: Link,
    pub(crate) last: Link,
}

/// Nothing is known.
const NO_WAYS: Ways = Ways {
    any: Link { over: 0, column: 0 },
    last: Link { over: 0, column: 0 },
};

/// What is known from the cells of a record on.
#[derive(Drop)]
pub(crate) struct Links {
    ways: Vec<Ways>,
}

/// Makes room for so many cells.
fn widen(ways: &mut Vec<Ways>, count: usize) -> Result<(), AllocError>
    ensures kept { OnOk result ((c : ℕ) → slice_index_or ways.new.items c no_ways
        ≡ slice_index_or ways.old.items c no_ways) }
    ensures wide { OnOk result (count ≤ length ways.new.items) }
{
    for _ in ways.len()..count {
        ways.push(NO_WAYS)?;
    }
    Ok(())
}

/// From a cell on this is known.
fn put_ways(ways: &mut Vec<Ways>, c: usize, here: Ways) -> Result<(), AllocError>
    requires { c ≤ 4294967295 }
    ensures { OnOk result ((i : ℕ) → slice_index_or ways.new.items i no_ways
        ≡ (if c == i then here else slice_index_or ways.old.items i no_ways)) }
{
    widen(ways, c + 1)?;
    ways[c] = here;
    Ok(())
}

impl Ways {
    /// The same, where one more is known.
    fn with(self, sought: Sought, link: Link) -> Ways
        ensures { result ≡ with_way self sought link }
    {
        match sought {
            Sought::Any => Ways {
                any: link,
                last: self.last,
            },
            Sought::Last => Ways {
                any: self.any,
                last: link,
            },
        }
    }
}

impl Links {
    /// Nothing is known.
    pub(crate) fn none(alloc: Global) -> Links
        ensures { (sought : AnySought) (c : ℕ) → link_in result sought c ≡ no_link }
    {
        Links {
            ways: Vec::new(alloc),
        }
    }

    /// Whether nothing is known.
    pub(crate) fn is_empty(&self) -> bool {
        self.ways.is_empty()
    }

    /// What is known from a cell on.
    fn at(&self, c: usize) -> Ways
        ensures { result ≡ slice_index_or self.now.ways.items c no_ways }
    {
        if c < self.ways.len() {
            self.ways[c]
        } else {
            NO_WAYS
        }
    }

    /// What is known from a cell on of what is looked for.
    pub(crate) fn of(&self, sought: Sought, c: usize) -> Link
        ensures { result ≡ link_in self.now sought c }
    {
        if c >= self.ways.len() {
            return Link { over: 0, column: 0 };
        }
        match sought {
            Sought::Any => self.ways[c].any,
            Sought::Last => self.ways[c].last,
        }
    }

    /// From a cell on one more is known.
    pub(crate) fn put(&mut self, sought: Sought, c: usize, link: Link) -> Result<(), AllocError>
        requires { c ≤ 4294967295 }
        ensures { OnOk result ((s : AnySought) (i : ℕ)
            → IsPut self.old sought c link s i (link_in self.new s i)) }
    {
        let here = self.at(c).with(sought, link);
        put_ways(&mut self.ways, c, here)
    }
}
