//! Null tokens, which stand where a spine has nothing to say.
ghost use Rattle.std.specs.Prelude.{◌≡◌, ◌≤◌, ◌++◌, length, IfOk, OnOk};
ghost use Rattle.hum_record.specs.{Building.spelled};
ghost use Rattle.hum_score.specs.{Row.text_of, Spelling.IsToken};
ghost use Rattle.hum_record.specs.Nulls.{null_of, nulls, null_row};

use crate::building::RecordBuilder;
use crate::reading::Record;
use crate::{MOST_BYTES, SpinedKind};
use std::alloc::{AllocError, Global};

/// The null token of a kind.
pub fn null_of(kind: SpinedKind) -> &'static [u8]
    ensures token { result.now ≡ null_of kind }
    ensures lawful { IsToken kind result.now }
{
    match kind {
        SpinedKind::Local => b"!",
        SpinedKind::Interpretation => b"*",
        SpinedKind::Values => b".",
    }
}

impl RecordBuilder {
    /// Adds so many null tokens, with which the record stays short enough.
    ///
    /// # Errors
    /// Out of memory.
    pub fn push_nulls(&mut self, count: usize) -> Result<(), AllocError>
        requires fits { length (spelled (self.old.tokens ++ nulls self.old.kind count)) ≤ MOST_BYTES }
        ensures { OnOk result (self.new ≡ record self.old {
          tokens = self.old.tokens ++ nulls self.old.kind count;
        }) }
    {
        let null = null_of(self.kind());
        for _ in 0..count {
            self.push_fitting(null)?;
        }
        Ok(())
    }
}

/// The data record of so many null tokens.
///
/// # Errors
/// Out of memory.
pub fn null_record(alloc: Global, width: usize) -> Result<Record, AllocError>
    requires some { 1 ≤ width }
    requires fits { length (text_of (null_row width)) ≤ MOST_BYTES }
    ensures { IfOk result (λ made. made ≡ null_row width) }
{
    let mut builder = RecordBuilder::new(alloc, SpinedKind::Values);
    builder.push_nulls(width)?;
    Ok(builder.finish())
}
