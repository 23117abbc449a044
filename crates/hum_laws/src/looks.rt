//! Commands that look ahead, where they leave a score as it is.
ghost use Rattle.std.specs.Prelude.{◌≡◌, IfOk, [], ◌∷◌};
ghost use Rattle.hum_words.specs.declared.commands.Command.TheVariants.{Yank as YankCommand};
ghost use Rattle.hum_stage.specs.declared.faults.End.TheVariants.{Closed};
ghost use Rattle.hum_stage.specs.Look.{looking};
ghost use Rattle.hum_choices.specs.declared.yank.YankRange.TheVariants.{Onward};
ghost use Rattle.hum_yank.specs.Passages.{Lines};
ghost use Rattle.hum_yank.specs.Yank.{yank};
ghost use Rattle.hum_words.specs.declared.commands.Command.TheVariants.{Context as ContextCommand};
ghost use Rattle.hum_context.specs.Context.{First, context};
ghost use Rattle.hum_context.specs.Options.{omits_of};
ghost use Rattle.hum_laws.specs.Piped.{IsAlone};

use crate::commands::alone;
use crate::given::{ClosedScore, Given};
use hum_commands::CommandOptions;
use hum_context::{ContextOptions, Span, TokenCount};
use hum_pattern::Pattern;
use hum_stage::MOST_WAITING;
use hum_yank::{Markers, YankOptions, YankRange};
use std::alloc::AllocError;

/// All lines of a score are the score: `yank -l -r 1-$`.
///
/// # Errors
/// Out of memory.
pub fn all_lines(score: ClosedScore<'_>) -> Result<Given, AllocError>
    ensures yanked { IfOk result (IsAlone (looking MOST_WAITING 1 YankCommand
        (yank (record { form = Lines; ranges = Onward 1 ∷ [] }))) score.entry.records.now) }
    ensures same { IfOk result (λ given. given.records.items ≡ score.entry.records.now) }
    ensures end { IfOk result (λ given. given.end ≡ Closed) }
{
    let mut ranges = Vec::new(score.alloc);
    ranges.push(YankRange::Onward { first: 1 })?;
    let options = YankOptions {
        markers: Markers::Lines,
        ranges,
    };
    alone(score, CommandOptions::Yank(options))
}

/// A context of one token is that token: `context -n 1` leaves a score as it is, with any `-o`.
///
/// # Errors
/// Out of memory.
pub fn context_of_one(score: ClosedScore<'_>, omit: Option<Pattern>) -> Result<Given, AllocError>
    ensures collected { IfOk result (IsAlone (looking MOST_WAITING 1 ContextCommand
        (context (record { extent = First 1; omits = omits_of omit }))) score.entry.records.now) }
    ensures same { IfOk result (λ given. given.end ≡ Closed →
        given.records.items ≡ score.entry.records.now) }
{
    let options = ContextOptions {
        span: Span::Number(TokenCount { number: 1 }),
        omit,
    };
    alone(score, CommandOptions::Context(options))
}
