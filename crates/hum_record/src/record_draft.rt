//! A record in the making that may grow too long.
ghost use Rattle.std.specs.Prelude.{◌≡◌, ◌≢◌, ℕ, List, [], ◌∷◌, ◌++◌, Err, OnOk, IfErr};
ghost use Rattle.std.specs.Allocator.{alloc_error};
ghost use Rattle.hum_score.specs.declared.records.SpinedKind.{SpinedKind};
ghost use Rattle.std.specs.Prelude.{◌<◌, true};
ghost use Rattle.hum_score.specs.Spelling.{IsToken};
ghost use Rattle.hum_record.specs.RecordDraft.{Holds, IsMade, IsSpent};

use crate::building::RecordBuilder;
use crate::reading::Record;
use crate::spare::Spare;
use crate::{RecordFault, SpinedKind};
use std::alloc::{AllocError, Global};

/// A record in the making. Once its text would pass 1,048,576 bytes it takes further tokens, and
/// comes to nothing.
pub struct RecordDraft {
    builder: RecordBuilder,
    is_long: bool,
}

// Written out, so that a caller's proof sees one call and not the drop of each field.
impl Drop for RecordDraft {
    fn drop(self) {
        let RecordDraft {
            builder: _builder,
            is_long: _,
        } = self;
    }
}

impl RecordDraft {
    /// No tokens yet.
    pub fn new(alloc: Global, kind: SpinedKind, spare: &mut Spare) -> RecordDraft
        ensures { Holds kind result.builder result.is_long [] }
    {
        RecordDraft {
            builder: RecordBuilder::reusing(alloc, kind, spare),
            is_long: false,
        }
    }

    /// One token more, at the end.
    ///
    /// # Errors
    /// Out of memory; each later call answers it again.
    #[inline]
    pub fn push(&mut self, token: &[u8]) -> Result<(), AllocError>
        requires { IsToken self.old.builder.kind token.now }
        ensures kind { self.new.builder.kind ≡ self.old.builder.kind }
        ensures pushed { OnOk result ((kind : SpinedKind) (tokens : List (List ℕ))
            → Holds kind self.old.builder self.old.is_long tokens
            → Holds kind self.new.builder self.new.is_long (tokens ++ token.now ∷ [])) }
        ensures spent { IfErr result (λ _. IsSpent self.new.builder self.new.is_long) }
        ensures again { IsSpent self.old.builder self.old.is_long → result ≡ Err alloc_error }
    {
        if self.builder.push_near(token) {
            return Ok(());
        }
        self.push_far(token)
    }

    /// One token more where there is no room for it as yet.
    #[inline(never)]
    fn push_far(&mut self, token: &[u8]) -> Result<(), AllocError>
        requires { IsToken self.old.builder.kind token.now }
        ensures kind { self.new.builder.kind ≡ self.old.builder.kind }
        ensures pushed { OnOk result ((kind : SpinedKind) (tokens : List (List ℕ))
            → Holds kind self.old.builder self.old.is_long tokens
            → Holds kind self.new.builder self.new.is_long (tokens ++ token.now ∷ [])) }
        ensures spent { IfErr result (λ _. IsSpent self.new.builder self.new.is_long) }
        ensures again { IsSpent self.old.builder self.old.is_long → result ≡ Err alloc_error }
    {
        if self.is_long {
            return Ok(());
        }
        match self.builder.push_far(token) {
            Ok(()) => Ok(()),
            Err(RecordFault::L1) => {
                self.is_long = true;
                Ok(())
            }
            Err(_) => Err(AllocError),
        }
    }

    /// The record, unless it is too long.
    pub fn finish(self) -> Option<Record>
        requires { (kind : SpinedKind) × (tokens : List (List ℕ))
            × Holds kind self.builder self.is_long tokens × (tokens ≢ []) }
        ensures { (kind : SpinedKind) (tokens : List (List ℕ))
            → Holds kind self.builder self.is_long tokens → IsMade kind tokens result }
    {
        let RecordDraft { builder, is_long } = self;
        if is_long {
            return None;
        }
        Some(builder.finish())
    }
}
