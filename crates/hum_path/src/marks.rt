//! Marks of columns.
ghost use Rattle.std.specs.Prelude.{◌≡◌, []};
ghost use Rattle.std.specs.List.{list_any, list_all};

use std::alloc::Global;
use std::marker::Model;

/// For each column whether it is marked; and so that no record needs to look through them, whether
/// some are and whether all are.
#[derive(Drop)]
pub struct Marks {
    each: Vec<bool>,
    some: bool,
    all: bool,
}

impl Model for Marks {
    ghost use Rattle.std.specs.Prelude.{◌≡◌, Bool, List};
    ghost use Rattle.std.specs.List.{list_any, list_all};

    ghost Value = { List Bool };

    ghost view = { λ m. m.each.items };

    ghost invariant = { λ m.
        (m.some ≡ list_any (λ b. b) m.each.items) × (m.all ≡ list_all (λ b. b) m.each.items) };
}

fn has_marked(marks: &[bool]) -> bool
    ensures { result ≡ list_any (λ b. b) marks.now }
{
    marks.iter().any(|mark| *mark)
}

fn all_marked(marks: &[bool]) -> bool
    ensures { result ≡ list_all (λ b. b) marks.now }
{
    marks.iter().all(|mark| *mark)
}

impl Marks {
    /// A mark for each column.
    pub fn new(each: Vec<bool>) -> Marks
        ensures { result ≡ each.items }
    {
        let some = has_marked(&each);
        let all = all_marked(&each);
        Marks { each, some, all }
    }

    /// Of no columns.
    pub fn none(alloc: Global) -> Marks
        ensures { result ≡ [] }
    {
        Marks::new(Vec::new(alloc))
    }

    /// For each column whether it is marked.
    pub fn each(&self) -> &[bool]
        ensures { result.now ≡ self.now }
    {
        &self.each
    }

    /// Whether some column is marked.
    pub fn some(&self) -> bool
        ensures { result ≡ list_any (λ b. b) self.now }
    {
        self.some
    }

    /// Whether each column is marked.
    pub fn all(&self) -> bool
        ensures { result ≡ list_all (λ b. b) self.now }
    {
        self.all
    }
}
