//! Which tokens are collected.
ghost use Rattle.std.specs.Prelude.{◌≡◌, ◌≤◌, IfOk};
ghost use Rattle.hum_choices.specs.declared.context.TheConstants.{GREATEST_COUNT};

use hum_pattern::{Pattern, copied};
use std::alloc::{AllocError, Global};

/// The greatest number of a field, and of tokens.
pub const GREATEST_COUNT: u64 = 4_096;

/// A number of tokens, from 1 to 4,096.
#[derive(Clone, Copy)]
pub struct TokenCount {
    /// The number.
    pub number: u16,
    pub ghost within: { (1 ≤ number) × (number ≤ GREATEST_COUNT) },
}

/// How many tokens are collected.
#[derive(Drop)]
pub enum Span {
    /// `-n`: so many
    Number(TokenCount),
    /// `-b` and `-e`: from one that the first pattern matches through the next that the second does
    Phrase(Pattern, Pattern),
}

/// Which tokens are collected.
#[derive(Drop)]
pub struct ContextOptions {
    /// `-n`, or `-b` and `-e`
    pub span: Span,
    /// `-o`: tokens that this pattern matches are left out
    pub omit: Option<Pattern>,
}

impl Span {
    /// The same once more.
    fn copy(&self, alloc: Global) -> Result<Span, AllocError>
        ensures { IfOk result (λ copy. copy ≡ self.now) }
    {
        match self {
            Span::Number(count) => Ok(Span::Number(*count)),
            Span::Phrase(begin, end) => Ok(Span::Phrase(begin.copy(alloc)?, end.copy(alloc)?)),
        }
    }
}

impl ContextOptions {
    /// The same options once more.
    ///
    /// # Errors
    /// Out of memory.
    pub fn copy(&self, alloc: Global) -> Result<ContextOptions, AllocError>
        ensures { IfOk result (λ copy. copy ≡ self.now) }
    {
        Ok(ContextOptions {
            span: self.span.copy(alloc)?,
            omit: copied(alloc, &self.omit)?,
        })
    }
}
