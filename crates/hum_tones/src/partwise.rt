//! Commands whose tokens become what their parts give, the same wherever they stand.
ghost use Rattle.std.specs.Prelude.{◌≡◌, OnOk};
ghost use Rattle.hum_score.specs.declared.records.SpinedKind.TheVariants.{Values};
ghost use Rattle.hum_score.specs.Spelling.{IsToken};
ghost use Rattle.hum_record.specs.RecordDraft.{Holds};
ghost use Rattle.hum_stage.specs.Refusals.{IfTold};
ghost use Rattle.hum_words.specs.declared.commands.Command.{Command};
ghost use Rattle.hum_cells.specs.Rewriting.{Rewriting, Heading, IsHeading};
ghost use Rattle.hum_cells.specs.Rewriter.{shown, Pushes};
ghost use Rattle.hum_tones.specs.Commands.{given_under};
ghost use Rattle.hum_tones.specs.PartRule.{given};
ghost use Rattle.hum_tones.specs.declared.part_rule.PartRule.{PartRule};

use crate::part_rule::PartRule;
use hum_cells::{Heading, TokenRewriter};
use hum_path::Moves;
use hum_record::{Record, RecordDraft};
use hum_stage::{Command, Refusal};
use std::alloc::{AllocError, Global};

/// A command whose tokens become what their parts give. What each part gives is asked for at each
/// token, so that the code for one command has no other's in it.
pub trait Partwise: Drop {
    /// What the command was told to do.
    type Options;

    /// The command.
    ghost command: { Command };

    /// What it makes of kern columns.
    ghost rewriting: { Self.Options → Rewriting };

    /// What becomes of `**kern`.
    ghost heading: { Self → Heading };

    /// What each part of a token gives.
    ghost giving: { Self → PartRule };

    /// Which command it is.
    fn command() -> Command
        ensures { result ≡ command };

    /// The command that is told so.
    fn begin(options: Self::Options) -> Self
        ensures given { rewriting options ≡ given_under (heading result) (giving result) }
        ensures lawful { IsHeading (heading result) };

    /// What becomes of `**kern`.
    fn heading(&self) -> Heading<'_>
        ensures { shown result ≡ heading self.now };

    /// What each part of a token gives.
    fn giving(&self) -> PartRule
        ensures { result ≡ giving self.now };
}

/// What such a command makes of kern columns.
#[derive(Drop)]
pub struct PartwiseColumns<G> {
    command: G,
    // where the text of a token is made
    text: Vec<u8>,
}

impl<G: Partwise> PartwiseColumns<G> {
    /// Adds what any data token becomes to a record in the making.
    ///
    /// # Errors
    /// The rule by which it is refused; or out of memory.
    #[inline(never)]
    fn rewrite_any(&mut self, token: &[u8], making: &mut RecordDraft) -> Result<(), Refusal>
        requires lawful { IsToken Values token.now }
        requires kind { making.old.builder.kind ≡ Values }
        ensures same { self.new.command ≡ self.old.command }
        ensures pushed { IfTold result (Pushes (given (G.giving self.old.command) token.now)
            (Holds Values making.old.builder making.old.is_long)
            (Holds Values making.new.builder making.new.is_long)) }
        ensures kind { OnOk result (making.new.builder.kind ≡ Values) }
    {
        self.command
            .giving()
            .push_parts(token, &mut self.text, making)
    }
}

impl<G: Partwise> TokenRewriter for PartwiseColumns<G> {
    type Options = G::Options;

    ghost use Rattle.hum_tones.specs.Commands.{GivesUnder};

    ghost command = { G.command };

    ghost rewriting = { G.rewriting };

    ghost follows = { λ s rewriting above. GivesUnder (G.heading s.command) (G.giving s.command) rewriting };

    ghost lawful = { λ s rewriting above h. h.lawful };

    fn command() -> Command {
        G::command()
    }

    fn begin(alloc: Global, options: G::Options) -> Self {
        PartwiseColumns {
            command: G::begin(options),
            text: Vec::new(alloc),
        }
    }

    fn heading(&self) -> Heading<'_> {
        self.command.heading()
    }

    fn rewrite(
        &mut self,
        _j: usize,
        token: &[u8],
        making: &mut RecordDraft,
    ) -> Result<(), Refusal> {
        let pushed = self.command.giving().push_usual(token, making)?;
        if pushed {
            return Ok(());
        }
        self.rewrite_any(token, making)
    }

    fn hear(&mut self, _j: usize, _token: &[u8]) -> Result<(), AllocError> {
        Ok(())
    }

    fn follow(&mut self, _row: &Record, _found: &Moves) -> Result<(), AllocError> {
        Ok(())
    }
}
