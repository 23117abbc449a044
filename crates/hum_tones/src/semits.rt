//! The command semits: notes become their semitones.
ghost use Rattle.hum_words.specs.declared.commands.Command.TheVariants.{Semits as SemitsCommand};

use crate::part_rule::PartRule;
use crate::partwise::{Partwise, PartwiseColumns};
use hum_cells::{CellStage, Heading};
use hum_choices::SemitsOptions;
use hum_stage::Command;

/// `**semits`, which stands in the place of `**kern`, and which notes give their semitones.
#[derive(Drop)]
pub struct SemitsName {
    options: SemitsOptions,
}

/// The command semits, as a stage.
pub type Semits = CellStage<PartwiseColumns<SemitsName>>;

impl Partwise for SemitsName {
    type Options = SemitsOptions;

    ghost use Rattle.std.specs.Prelude.{codes};
    ghost use Rattle.hum_cells.specs.Rewriting.{Renamed};
    ghost use Rattle.hum_tones.specs.declared.part_rule.PartRule.TheVariants.{Semitones};
    ghost use Rattle.hum_tones.specs.Commands.{semits};

    ghost command = { SemitsCommand };

    ghost rewriting = { semits };

    ghost heading = { λ s. Renamed (codes "**semits") };

    ghost giving = { λ s. Semitones s.options.ties_left_out };

    fn command() -> Command {
        Command::Semits
    }

    fn begin(options: SemitsOptions) -> SemitsName {
        SemitsName { options }
    }

    fn heading(&self) -> Heading<'_> {
        Heading::Renamed(b"**semits".as_slice())
    }

    fn giving(&self) -> PartRule {
        PartRule::Semitones {
            ties_left_out: self.options.ties_left_out,
        }
    }
}
