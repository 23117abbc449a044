//! The command trans: notes are transposed.
ghost use Rattle.std.specs.Prelude.{◌≡◌};
ghost use Rattle.hum_words.specs.declared.commands.Command.TheVariants.{Trans as TransCommand};
ghost use Rattle.hum_tones.specs.Commands.{trans_sign};

use crate::part_rule::PartRule;
use crate::partwise::{Partwise, PartwiseColumns};
use arrayvec::ArrayString;
use hum_cells::{CellStage, Heading};
use hum_choices::TransOptions;
use hum_stage::Command;
use itoa::Buffer;

/// `*Trd1c2` and its like, which goes behind `**kern`, and how far pitches go.
#[derive(Drop)]
pub struct TransSign {
    text: ArrayString<32>,
    transposition: TransOptions,
}

/// The command trans, as a stage.
pub type Trans = CellStage<PartwiseColumns<TransSign>>;

/// What goes behind `**kern`.
fn sign(transposition: TransOptions) -> ArrayString<32>
    ensures { result.bytes ≡ trans_sign transposition.steps transposition.semitones }
{
    let mut number = Buffer::new();
    let mut text = ArrayString::new();
    text.push_str("*Trd");
    text.push_str(number.format(transposition.steps));
    text.push_str("c");
    text.push_str(number.format(transposition.semitones));
    text
}

impl Partwise for TransSign {
    type Options = TransOptions;

    ghost use Rattle.hum_cells.specs.Rewriting.{Followed};
    ghost use Rattle.hum_tones.specs.declared.part_rule.PartRule.TheVariants.{Transposed};
    ghost use Rattle.hum_tones.specs.Commands.{trans};

    ghost command = { TransCommand };

    ghost rewriting = { λ options. trans options.steps options.semitones };

    ghost heading = { λ s. Followed s.text.bytes };

    ghost giving = { λ s. Transposed s.transposition };

    fn command() -> Command {
        Command::Trans
    }

    fn begin(transposition: TransOptions) -> TransSign {
        TransSign {
            text: sign(transposition),
            transposition,
        }
    }

    fn heading(&self) -> Heading<'_> {
        Heading::Followed(self.text.as_str().as_bytes())
    }

    fn giving(&self) -> PartRule {
        PartRule::Transposed(self.transposition)
    }
}
