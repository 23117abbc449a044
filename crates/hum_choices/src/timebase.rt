//! How far apart the records stand.
ghost use Rattle.std.specs.Prelude.{◌≡◌, Ok};
ghost use Rattle.hum_kern.specs.Duration.{recip};

use hum_frac::Frac;
use std::alloc::{AllocError, Global};

/// How far apart the records stand.
#[derive(Drop)]
pub struct TimebaseOptions {
    /// `-t`: the duration from one record to the next, in whole notes
    pub step: Frac,
    /// how that is written, as `16` or `4.`: a duration and nothing else
    pub text: Vec<u8>,
    pub ghost written: { recip text.items ≡ Ok step },
}

impl TimebaseOptions {
    ghost use Rattle.std.specs.Prelude.{IfOk};
    ghost use Rattle.hum_choices.specs.Timebase.{pace_of};

    /// The same options once more.
    ///
    /// # Errors
    /// Out of memory.
    pub fn copy(&self, alloc: Global) -> Result<TimebaseOptions, AllocError>
        ensures { IfOk result (λ copy. pace_of copy ≡ pace_of self.now) }
    {
        Ok(TimebaseOptions {
            step: self.step,
            text: self.text.to_vec(alloc)?,
        })
    }
}
