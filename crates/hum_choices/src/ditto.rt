//! How null data tokens are filled.
ghost use Rattle.std.specs.Prelude.{◌≡◌, IfOk};

use hum_pattern::{Pattern, copied};
use std::alloc::{AllocError, Global};

/// How null data tokens are filled.
#[derive(Drop)]
pub struct DittoOptions {
    /// `-s`: tokens that this pattern matches are never repeated
    pub skip: Option<Pattern>,
    /// `-p`: a repeated token stands in parentheses
    pub parentheses: bool,
}

impl DittoOptions {
    /// The same options once more.
    ///
    /// # Errors
    /// Out of memory.
    pub fn copy(&self, alloc: Global) -> Result<DittoOptions, AllocError>
        ensures { IfOk result (λ copy. copy ≡ self.now) }
    {
        Ok(DittoOptions {
            skip: copied(alloc, &self.skip)?,
            parentheses: self.parentheses,
        })
    }
}
