//! The command mint: notes become the intervals from the notes before them.
ghost use Rattle.hum_words.specs.declared.commands.Command.TheVariants.{Mint as MintCommand};

use crate::last_note::LastNote;
use hum_cells::{CellStage, Heading, TokenRewriter};
use hum_choices::MintOptions;
use hum_path::{Carried, Moves};
use hum_record::{Record, RecordDraft};
use hum_stage::{Command, Refusal};
use std::alloc::{AllocError, Global};

/// What mint makes of tokens.
#[derive(Drop)]
pub struct MintTokens {
    options: MintOptions,
    // what was heard of each spine, and the note before
    carried: Carried<LastNote>,
    // where the text of a token is made
    text: Vec<u8>,
}

/// The command mint, as a stage.
pub type Mint = CellStage<MintTokens>;

impl TokenRewriter for MintTokens {
    type Options = MintOptions;

    ghost use Rattle.hum_tones.specs.Commands.{mint, Mints};

    ghost command = { MintCommand };

    ghost rewriting = { mint };

    ghost follows = { λ s. Mints s.options s.carried.each };

    ghost lawful = { λ s rewriting above h. h.lawful };

    fn command() -> Command {
        Command::Mint
    }

    fn begin(alloc: Global, options: MintOptions) -> Self {
        MintTokens {
            options,
            carried: Carried::new(alloc),
            text: Vec::new(alloc),
        }
    }

    fn heading(&self) -> Heading<'_> {
        Heading::Renamed(b"**mint".as_slice())
    }

    fn rewrite(&mut self, j: usize, token: &[u8], making: &mut RecordDraft) -> Result<(), Refusal> {
        self.carried.see(&mut self.options, j, token)?;
        self.carried.at(j).push(&mut self.text, making)
    }

    #[inline(always)]
    fn hear(&mut self, j: usize, token: &[u8]) -> Result<(), AllocError> {
        self.carried.see(&mut self.options, j, token)
    }

    fn follow(&mut self, row: &Record, found: &Moves) -> Result<(), AllocError> {
        self.carried.follow(&mut self.options, row, found)
    }
}
