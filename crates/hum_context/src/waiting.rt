//! What is asked of a record that waits.
ghost use Rattle.std.specs.Prelude.{◌≡◌, ◌≢◌, ◌==◌, ◌+◌, ◌≤◌, ℕ, [], true, length, Some, IfOk};
ghost use Rattle.std.specs.Prelude.{slice_index_or};
ghost use Rattle.hum_score.specs.declared.records.SpinedKind.TheVariants.{Values};
ghost use Rattle.hum_score.specs.declared.records.Kind.TheVariants.{Interpretation as AnyInterpretation};
ghost use Rattle.hum_score.specs.{Row.kind_of, Row.token_at, Row.tokens_of, Spelling.IsToken};
ghost use Rattle.hum_score.specs.Spines.{Path};
ghost use Rattle.hum_context.specs.{Context.is_last, Options.choice_of};
ghost use Rattle.hum_context.specs.Leads.{link_in, no_link};
ghost use Rattle.hum_context.specs.Queue.{IsStill, Known, LeadsBelow, column_in, is_last_in};
ghost use Rattle.hum_context.specs.declared.heard.Heard.TheVariants.{Passed};
ghost use Rattle.hum_context.specs.declared.links.Sought.{Sought};

use crate::below::Below;
use crate::heard::{Heard, SpareHeard, hear_row};
use crate::held::HeldRecord;
use crate::links::Links;
use crate::queued::Queued;
use hum_choices::ContextOptions;
use hum_path::{Sign, token_sign};
use hum_record::{Kind, Record};
use std::alloc::{AllocError, Global};

/// Whether a column's future is ended at its token.
fn is_last_at(row: &HeldRecord, c: usize) -> bool
    ensures { result ≡ is_last (slice_index_or (tokens_of row.now) c []) }
{
    if c >= row.width() {
        return false;
    }
    match token_sign(row.token(c)) {
        Sign::End | Sign::Exclusive => true,
        Sign::Split | Sign::Join | Sign::Exchange | Sign::Add | Sign::Plain => false,
    }
}

impl Queued {
    /// A record that comes, with where the spines under it go and what is heard of it, for which there
    /// is a list that is done with.
    pub(crate) fn new(
        alloc: Global,
        options: &mut ContextOptions,
        row: Record,
        below: Below,
        spare: &mut SpareHeard,
    ) -> Result<Queued, AllocError>
        ensures kept { options.new ≡ options.old }
        ensures known { IfOk result (λ queued. (path : Path) → LeadsBelow path row below
            → Known (choice_of options.old) path row queued) }
        ensures unlinked { IfOk result (λ queued. (sought : Sought) (c : ℕ)
            → link_in queued.links sought c ≡ no_link) }
    {
        // Its text is lawful.
        let _kind = row.kind();
        let heard = hear_row(alloc, options, &row, spare)?;
        let row = HeldRecord::of(row, heard.is_empty());
        let links = Links::none(alloc);
        Ok(Queued {
            row,
            heard,
            below,
            links,
        })
    }

    /// What was heard in a column; nothing beyond the last.
    pub(crate) fn heard(&self, c: usize) -> Heard
        ensures { result ≡ slice_index_or self.now.heard.items c Passed }
    {
        if c < self.heard.len() {
            self.heard[c].heard()
        } else {
            Heard::Passed
        }
    }

    /// Its token in a column that is collected.
    pub(crate) fn token(&self, c: usize) -> &[u8]
        requires { slice_index_or self.now.heard.items c Passed ≢ Passed }
        ensures token { result.now ≡ token_at self.now.row c }
        ensures lawful { IsToken Values result.now }
    {
        self.row.token(c)
    }

    /// Whether none of its tokens is collected.
    pub(crate) fn is_quiet(&self) -> bool
        ensures { result ≡ (length self.now.heard.items == 0) }
    {
        self.heard.is_empty()
    }

    /// Whether nothing of it is collected, and no spine moves or ends.
    pub(crate) fn is_still(&self) -> bool
        ensures { result ≡ true → IsStill self.now }
    {
        self.heard.is_empty() && self.keeps_columns()
    }

    /// Whether each spine stays where it is under it.
    pub(crate) fn keeps_columns(&self) -> bool
        ensures { result ≡ true → (c : ℕ) → column_in self.now.row self.now.below c ≡ Some c }
    {
        !self.row.is_interpretation()
    }

    /// Whether a column's future is ended at its token.
    pub(crate) fn is_last(&self, c: usize) -> bool
        ensures { result ≡ is_last_in self.now.row c }
    {
        match self.row.kind() {
            Kind::Interpretation => is_last_at(&self.row, c),
            Kind::Values => false,
            Kind::Local => false,
            Kind::Global => false,
        }
    }

    /// The column of the cell below, within the reach. Under data that is collected it is the same.
    pub(crate) fn below(&self, c: usize) -> Option<usize>
        ensures { result ≡ column_in self.now.row self.now.below c }
    {
        match self.heard(c) {
            Heard::Taken { begins: _, ends: _ } => Some(c),
            Heard::Passed => self.column_below(c),
        }
    }

    /// The same under an interpretation.
    #[inline(never)]
    fn column_under(&self, c: usize) -> Option<usize>
        requires { kind_of self.now.row ≡ AnyInterpretation }
        ensures { result ≡ column_in self.now.row self.now.below c }
    {
        if is_last_at(&self.row, c) {
            return None;
        }
        self.below.of(c)
    }

    /// The same, by what the record is.
    #[inline(always)]
    pub(crate) fn column_below(&self, c: usize) -> Option<usize>
        ensures { result ≡ column_in self.now.row self.now.below c }
    {
        if self.row.is_interpretation() {
            self.column_under(c)
        } else {
            Some(c)
        }
    }

    /// How many bytes its token in a column has, and one more.
    pub(crate) fn bytes(&self, c: usize) -> u64
        ensures bytes { result ≡ length (slice_index_or (tokens_of self.now.row) c []) + 1 }
        ensures few { result ≤ 1048577 }
    {
        if c < self.row.width() {
            // Its text is lawful.
            let _kind = self.row.kind();
            self.row.token(c).len() as u64 + 1
        } else {
            1
        }
    }
}
