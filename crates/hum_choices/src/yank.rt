//! Which passages are chosen.
ghost use Rattle.std.specs.Prelude.{◌≡◌, IfOk};
ghost use Rattle.hum_choices.specs.Options.{markers_of};

use hum_pattern::{Pattern, copied};
use std::alloc::{AllocError, Global};

/// Where passages begin, and how they are numbered. A passage is a stretch of records, from a
/// marker to before the next or to the end.
pub enum Markers {
    /// `-l`: each record is a passage; its number is its line
    Lines,
    /// `-n`: data records with a token that this pattern matches; the number is the digits directly
    /// after the first match
    Numbers(Pattern),
    /// `-o`: data records with a token that the first pattern matches, numbered from 1 by
    /// occurrence. `-e`: a passage ends with its first data record that has a token matching the
    /// second pattern.
    Occurrences(Pattern, Option<Pattern>),
    /// `-s`: section labels, as `*>A`; the sections of this name are numbered from 1 by occurrence
    Labels(Vec<u8>),
}

/// The greatest number of a passage.
pub const GREATEST_PASSAGE: u64 = 4_294_967_295;

/// One item of `-r`: the numbers of passages that are chosen.
#[derive(Clone, Copy)]
pub enum YankRange {
    /// `a`, `a-b`: from the first through the last
    Through { first: u32, last: u32 },
    /// `a-$`: this number and all above
    Onward { first: u32 },
    /// `a-$-n`: from the first through so many before the last number
    ToEnd { first: u32, before: u32 },
    /// `$-m-$-n`: from so many before the last number through so many before it.
    /// `$` has 0 and 0, `$-m` has m and m, `$-m-$` has m and 0.
    FromEnd { from: u32, to: u32 },
}

/// Which passages are chosen.
#[derive(Drop)]
pub struct YankOptions {
    /// `-l`, `-n`, `-o` and `-e`, or `-s`
    pub markers: Markers,
    /// `-r`: what any of them chooses
    pub ranges: Vec<YankRange>,
}

// Written out, so that a caller's proof sees one call.
impl Drop for Markers {
    fn drop(self) {
        match self {
            Markers::Lines => {}
            Markers::Numbers(_pattern) => {}
            Markers::Occurrences(_opens, _ends) => {}
            Markers::Labels(_name) => {}
        }
    }
}

impl Markers {
    /// The same once more.
    fn copy(&self, alloc: Global) -> Result<Markers, AllocError>
        ensures { IfOk result (λ copy. markers_of copy ≡ markers_of self.now) }
    {
        match self {
            Markers::Lines => Ok(Markers::Lines),
            Markers::Numbers(pattern) => Ok(Markers::Numbers(pattern.copy(alloc)?)),
            Markers::Occurrences(opens, ends) => Ok(Markers::Occurrences(
                opens.copy(alloc)?,
                copied(alloc, ends)?,
            )),
            Markers::Labels(name) => Ok(Markers::Labels(name.to_vec(alloc)?)),
        }
    }
}

impl YankOptions {
    /// The same options once more.
    ///
    /// # Errors
    /// Out of memory.
    pub fn copy(&self, alloc: Global) -> Result<YankOptions, AllocError>
        ensures markers { IfOk result (λ copy. markers_of copy.markers ≡ markers_of self.now.markers) }
        ensures ranges { IfOk result (λ copy. copy.ranges.items ≡ self.now.ranges.items) }
    {
        Ok(YankOptions {
            markers: self.markers.copy(alloc)?,
            ranges: self.ranges.to_vec(alloc)?,
        })
    }
}
