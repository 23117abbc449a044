//! The command rid, again and again.
ghost use Rattle.std.specs.Prelude.{◌≡◌, ◌||◌, false, IfOk};
ghost use Rattle.hum_rid.specs.Rid.{meaning};
ghost use Rattle.hum_commands.specs.Meaning.{meaning as meaning_of};
ghost use Rattle.hum_laws.specs.Piped.{IsAlone, IsPiped, Same, SameWhereClosed};
ghost use Rattle.hum_laws.specs.Letters.{joint};
ghost use Rattle.hum_laws.specs.Comments.{all_comments, TellsByTokens, MeanTheSame};

use crate::commands::{again, piped, piped_and_alone};
use crate::given::{ClosedScore, Sides};
use hum_commands::CommandOptions;
use hum_commands::CommandOptions::Rid;
use hum_rid::RidOptions;

fn either(one: bool, other: bool) -> bool
    ensures { result ≡ one || other }
{
    one || other
}

/// The letters of both.
fn joint(some: &RidOptions, more: &RidOptions) -> RidOptions
    ensures { result ≡ joint some.now more.now }
{
    RidOptions {
        global_comments: either(some.global_comments, more.global_comments),
        empty_global_comments: either(some.empty_global_comments, more.empty_global_comments),
        local_comments: either(some.local_comments, more.local_comments),
        null_local_comments: either(some.null_local_comments, more.null_local_comments),
        interpretations: either(some.interpretations, more.interpretations),
        null_interpretations: either(some.null_interpretations, more.null_interpretations),
        tandems: either(some.tandems, more.tandems),
        values: either(some.values, more.values),
        null_values: either(some.null_values, more.null_values),
    }
}

/// Some letters of rid and then more of them drop what all of them drop at once:
/// `rid -G | rid -d` is `rid -Gd`.
///
/// # Errors
/// Out of memory.
pub fn rid_by_letters(score: ClosedScore<'_>, some: RidOptions, more: RidOptions) -> Sides
    requires interpretations { some.interpretations ≡ false }
    ensures in_turn { IfOk result (λ both.
        IsPiped (meaning 1 some) (meaning 2 more) score.entry.records.now both.0) }
    ensures at_once { IfOk result (λ both.
        IsAlone (meaning 1 (joint some more)) score.entry.records.now both.1) }
    ensures same { IfOk result (λ both. Same both.0 both.1) }
{
    let all = joint(&some, &more);
    piped_and_alone(score, Rid(some), Rid(more), Rid(all))
}

/// The same letters of rid twice are the same as once.
///
/// # Errors
/// Out of memory.
pub fn rid_twice(score: ClosedScore<'_>, options: RidOptions) -> Sides
    requires interpretations { options.interpretations ≡ false }
    ensures once { IfOk result (λ both. IsAlone (meaning 1 options) score.entry.records.now both.0) }
    ensures twice { IfOk result (λ both.
        IsPiped (meaning 1 options) (meaning 2 options) score.entry.records.now both.1) }
    ensures same { IfOk result (λ both. Same both.0 both.1) }
{
    let first = Rid(options);
    let second = Rid(options);
    again(score, first, second)
}

/// The letter `G` alone.
fn all_comments() -> RidOptions
    ensures { result ≡ all_comments }
{
    RidOptions {
        global_comments: true,
        empty_global_comments: false,
        local_comments: false,
        null_local_comments: false,
        interpretations: false,
        null_interpretations: false,
        tandems: false,
        values: false,
        null_values: false,
    }
}

/// Global comments may be dropped before or after a command on columns or notes, or ditto:
/// `rid -G | ditto` is `ditto | rid -G`. What is told to do the same is given twice, once for each
/// side.
///
/// # Errors
/// Out of memory.
pub fn comments_aside(
    score: ClosedScore<'_>,
    command: CommandOptions,
    alike: CommandOptions,
) -> Sides
    requires tells { TellsByTokens command }
    requires tells_too { TellsByTokens alike }
    requires alike { MeanTheSame command alike }
    ensures first { IfOk result (λ both.
        IsPiped (meaning 1 all_comments) (meaning_of 2 command) score.entry.records.now both.0) }
    ensures last { IfOk result (λ both.
        IsPiped (meaning_of 1 command) (meaning 2 all_comments) score.entry.records.now both.1) }
    ensures same { IfOk result (λ both. SameWhereClosed both.0 both.1) }
{
    let letter = all_comments();
    let first = piped(score, Rid(letter), command)?;
    let last = piped(score, alike, Rid(letter))?;
    Ok((first, last))
}
