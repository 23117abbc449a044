//! The command recip: notes become their durations, as they are written.
ghost use Rattle.hum_words.specs.declared.commands.Command.TheVariants.{Recip as RecipCommand};

use crate::part_rule::PartRule;
use crate::partwise::{Partwise, PartwiseColumns};
use hum_cells::{CellStage, Heading};
use hum_choices::RecipOptions;
use hum_stage::Command;

/// `**recip`, which stands in the place of `**kern`.
#[derive(Drop)]
pub struct RecipName;

/// The command recip, as a stage.
pub type Recip = CellStage<PartwiseColumns<RecipName>>;

impl Partwise for RecipName {
    type Options = RecipOptions;

    ghost use Rattle.std.specs.Prelude.{codes};
    ghost use Rattle.hum_cells.specs.Rewriting.{Renamed};
    ghost use Rattle.hum_tones.specs.declared.part_rule.PartRule.TheVariants.{Durations};
    ghost use Rattle.hum_tones.specs.Commands.{recip};

    ghost command = { RecipCommand };

    ghost rewriting = { recip };

    ghost heading = { λ s. Renamed (codes "**recip") };

    ghost giving = { λ s. Durations };

    fn command() -> Command {
        Command::Recip
    }

    fn begin(_options: RecipOptions) -> RecipName {
        RecipName
    }

    fn heading(&self) -> Heading<'_> {
        Heading::Renamed(b"**recip".as_slice())
    }

    fn giving(&self) -> PartRule {
        PartRule::Durations
    }
}
