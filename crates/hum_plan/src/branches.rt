//! The branches of a plan by their names, in order.
ghost use Rattle.std.specs.Prelude.{◌≡◌, ℕ, [], OnOk, length, option_map, not};
ghost use Rattle.std.specs.List.{find};
ghost use Rattle.hum_plan.specs.Branches.{branch_of, with_branch, first_unused, taken};
ghost use Rattle.indexmap.specs.IndexMap.{values};

use indexmap::IndexMap;
use std::alloc::{AllocError, Global};
use std::marker::Model;

/// A branch: the number of its last stage, whether an `assemble` took it, and its line. Nothing
/// takes `out`, and it counts as taken.
#[derive(Clone, Copy)]
pub struct Branch {
    pub last: u8,
    pub taken: bool,
    pub line: u32,
}

impl Branch {
    /// The branch, taken by an `assemble`.
    pub fn taken(self) -> Branch
        ensures { result ≡ taken self }
    {
        Branch {
            taken: true,
            ..self
        }
    }
}

/// The line of the first branch that isn't taken.
fn first_line_unused(index: &IndexMap<&str, Branch>) -> Option<u32>
    ensures { result ≡ option_map (λ b. b.line) (find (λ b. not b.taken) (values index.now)) }
{
    index
        .values()
        .find(|branch| !branch.taken)
        .map(|branch| branch.line)
}

/// Branches by name.
#[derive(Drop)]
pub struct Branches<'a> {
    index: IndexMap<&'a str, Branch>,
}

impl<'a> Model for Branches<'a> {
    ghost use Rattle.std.specs.Prelude.{ℕ, List, map};
    ghost use Rattle.hum_plan.specs.declared.branches.Branch.{Branch};

    ghost Value = { List (List ℕ × Branch) };

    ghost view = { λ b. map (λ e. (e.0.now, e.1)) b.index.entries };
}

impl<'a> Branches<'a> {
    pub fn new(alloc: Global) -> Branches<'a>
        ensures { result ≡ [] }
    {
        Branches {
            index: IndexMap::new(alloc),
        }
    }

    pub fn len(&self) -> usize
        ensures { result ≡ length self.now }
    {
        self.index.len()
    }

    /// The branch of this name.
    pub fn get(&self, name: &str) -> Option<Branch>
        ensures { result ≡ branch_of name.now self.now }
    {
        self.index.get(name).copied()
    }

    /// The line of the first branch that isn't taken.
    pub fn first_unused(&self) -> Option<u32>
        ensures { result ≡ first_unused self.now }
    {
        first_line_unused(&self.index)
    }

    /// Gives the branch of this name, new or not.
    pub fn put(&mut self, name: &'a str, branch: Branch) -> Result<(), AllocError>
        ensures { OnOk result (self.new ≡ with_branch self.old name.entry.now branch) }
    {
        self.index.insert(name, branch)?;
        Ok(())
    }
}
