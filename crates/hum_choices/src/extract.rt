//! Which opening spines are chosen.
ghost use Rattle.std.specs.Prelude.{◌≡◌, IfOk};
ghost use Rattle.hum_score.specs.Texts.{texts};
ghost use Rattle.hum_choices.specs.Extract.{choice_of};

use std::alloc::{AllocError, Global};

/// A field of the opening record, which has one for each opening spine.
#[derive(Clone, Copy)]
pub enum Field {
    /// by its number, from 1
    Number(u16),
    /// `$`: the last one
    Last,
}

/// The fields from one to another, both included. Where the first comes after the last there are
/// none.
#[derive(Clone, Copy)]
pub struct FieldRange {
    pub first: Field,
    pub last: Field,
}

/// Which opening spines are chosen.
#[derive(Drop)]
pub enum ExtractOptions {
    /// `-f LIST`: those of these fields
    Fields(Vec<FieldRange>),
    /// `-i NAMES`: those whose exclusive interpretation in the opening record is one of these
    Names(Vec<Vec<u8>>),
}

fn copied_ranges(alloc: Global, ranges: &[FieldRange]) -> Result<Vec<FieldRange>, AllocError>
    ensures { IfOk result (λ copy. copy.items ≡ ranges.now) }
{
    ranges.to_vec(alloc)
}

fn copied_names(alloc: Global, names: &[Vec<u8>]) -> Result<Vec<Vec<u8>>, AllocError>
    ensures { IfOk result (λ copy. texts copy.items ≡ texts names.now) }
{
    let mut copy = Vec::new(alloc);
    for name in names {
        copy.push(name.to_vec(alloc)?)?;
    }
    Ok(copy)
}

impl ExtractOptions {
    /// The same options once more.
    ///
    /// # Errors
    /// Out of memory.
    pub fn copy(&self, alloc: Global) -> Result<ExtractOptions, AllocError>
        ensures { IfOk result (λ copy. choice_of copy ≡ choice_of self.now) }
    {
        match self {
            ExtractOptions::Fields(ranges) => Ok(ExtractOptions::Fields(copied_ranges(
                alloc, ranges,
            )?)),
            ExtractOptions::Names(names) => Ok(ExtractOptions::Names(copied_names(alloc, names)?)),
        }
    }
}
