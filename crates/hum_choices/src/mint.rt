//! How intervals are named, and where they begin anew.
ghost use Rattle.std.specs.Prelude.{◌≡◌, IfOk};

use hum_pattern::{Pattern, copied};
use std::alloc::{AllocError, Global};

/// How intervals are named, and where they begin anew.
#[derive(Drop)]
pub struct MintOptions {
    /// `-a`: without the direction
    pub signless: bool,
    /// `-d`: without the quality
    pub sizeonly: bool,
    /// `-b`: behind a token that this pattern matches the note before is forgotten
    pub breaks: Option<Pattern>,
}

impl MintOptions {
    /// The same options once more.
    ///
    /// # Errors
    /// Out of memory.
    pub fn copy(&self, alloc: Global) -> Result<MintOptions, AllocError>
        ensures { IfOk result (λ copy. copy ≡ self.now) }
    {
        Ok(MintOptions {
            signless: self.signless,
            sizeonly: self.sizeonly,
            breaks: copied(alloc, &self.breaks)?,
        })
    }
}
