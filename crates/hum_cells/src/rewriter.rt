//! What is a command's own.
ghost use Rattle.std.specs.Prelude.{◌≡◌, [], true, OnOk};
ghost use Rattle.hum_score.specs.declared.records.SpinedKind.TheVariants.{Values};
ghost use Rattle.hum_score.specs.Spelling.{IsToken};
ghost use Rattle.hum_record.specs.RecordDraft.{Holds};
ghost use Rattle.hum_path.specs.Step.{ComeFrom};
ghost use Rattle.hum_words.specs.declared.commands.Command.{Command};
ghost use Rattle.hum_stage.specs.Refusals.{IfTold};
ghost use Rattle.hum_cells.specs.Rewriting.{Rewriting, IsHeading, has_content};
ghost use Rattle.hum_cells.specs.Rewriter.{Columns, MayHear, HasHeard, HasRewritten};
ghost use Rattle.hum_cells.specs.Rewriter.{MayFollow, HasFollowed, ShowsHeading};

use hum_path::Moves;
use hum_record::{Record, RecordDraft};
use hum_stage::{Command, Refusal};
use std::alloc::{AllocError, Global};

/// What becomes of `**kern` where it stands in a record.
#[derive(Clone, Copy)]
pub enum Heading<'t> {
    /// This exclusive interpretation stands in its place.
    Renamed(&'t [u8]),
    /// Behind the record goes one with this tandem interpretation below it, and `*` elsewhere.
    Followed(&'t [u8]),
}

/// What a command makes of the tokens of kern columns, and what it remembers for it.
pub trait TokenRewriter: Drop {
    /// What the command was told to do.
    type Options;

    /// The command.
    ghost command: { Command };

    /// What it makes of kern columns.
    ghost rewriting: { Self.Options → Rewriting };

    /// It stands for columns of these cells, and makes this of kern columns.
    ghost follows: { Self → Rewriting → Columns → Type 0 };

    /// Which command it is.
    fn command() -> Command
        ensures { result ≡ command };

    /// Nothing has passed yet.
    fn begin(alloc: Global, options: Self::Options) -> Self
        ensures { follows result (rewriting options) [] };

    /// What becomes of `**kern`.
    fn heading(&self) -> Heading<'_>
        ensures { ShowsHeading (follows self.now) result };

    /// Hears the next cell of column `j`, a data token, and adds what it becomes to a record in the
    /// making. The token is neither null nor a barline.
    ///
    /// # Errors
    /// The rule by which it is refused; or out of memory.
    fn rewrite(&mut self, j: usize, token: &[u8], making: &mut RecordDraft) -> Result<(), Refusal>
        requires column { MayHear (follows self.old) j }
        requires lawful { IsToken Values token.now }
        requires told { has_content token.now ≡ true }
        requires kind { making.old.builder.kind ≡ Values }
        ensures rewritten { IfTold result
            (HasRewritten (follows self.old) (follows self.new) j token.now
            (Holds Values making.old.builder making.old.is_long)
            (Holds Values making.new.builder making.new.is_long)) }
        ensures kind { OnOk result (making.new.builder.kind ≡ Values) };

    /// Hears the next cell of column `j`, a data token that stays as it is.
    fn hear(&mut self, j: usize, token: &[u8]) -> Result<(), AllocError>
        requires column { MayHear (follows self.old) j }
        requires lawful { IsToken Values token.now }
        ensures { OnOk result (HasHeard (follows self.old) (follows self.new) j token.now) };

    /// Goes on with the next record, whose moves are known. The cells of data are heard one by one instead.
    fn follow(&mut self, row: &Record, found: &Moves) -> Result<(), AllocError>
        requires score { MayFollow (follows self.old) row.now found.now }
        requires sources { ComeFrom row.now found.now }
        ensures { OnOk result
            (HasFollowed (follows self.old) (follows self.new) row.now found.now) };

    /// The heading is lawful.
    ghost lawful: { (s : Self) (rewriting : Rewriting) (above : Columns)
        → follows s rewriting above → IsHeading rewriting.heading };
}
