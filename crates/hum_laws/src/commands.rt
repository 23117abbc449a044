//! What commands give of a score, one alone or two one after another.
//!
//! Here alone the stages of commands are made: a law is a call or two of the functions below.
ghost use Rattle.std.specs.Prelude.{IfOk};
ghost use Rattle.hum_stage.specs.Meaning.{KeepsScore};
ghost use Rattle.hum_commands.specs.Meaning.{meaning, MakesScores};
ghost use Rattle.hum_laws.specs.Piped.{IsAlone, IsPiped};

use crate::given;
use crate::given::{ClosedScore, Given, Sides};
use hum_commands::{CommandOptions, CommandStage};
use std::alloc::AllocError;

/// What a command gives of a closed score.
pub(crate) fn alone(score: ClosedScore<'_>, options: CommandOptions) -> Result<Given, AllocError>
    ensures { IfOk result (IsAlone (meaning 1 options) score.entry.records.now) }
{
    given::alone(score, CommandStage::new(score.alloc, 1, options))
}

/// What a closed score becomes by a command, and what that becomes by another one.
pub(crate) fn again(score: ClosedScore<'_>, first: CommandOptions, second: CommandOptions) -> Sides
    requires scores { MakesScores first }
    ensures given { IfOk result (λ both. IsAlone (meaning 1 first) score.entry.records.now both.0
        × IsPiped (meaning 1 first) (meaning 2 second) score.entry.records.now both.1) }
    ensures keeps { KeepsScore (meaning 1 first).outcomes }
{
    let first = CommandStage::new(score.alloc, 1, first);
    let second = CommandStage::new(score.alloc, 2, second);
    given::again(score, first, second)
}

/// What a closed score becomes by two commands, the second behind the first.
pub(crate) fn piped(
    score: ClosedScore<'_>,
    first: CommandOptions,
    second: CommandOptions,
) -> Result<Given, AllocError>
    requires scores { MakesScores first }
    ensures given { IfOk result (IsPiped (meaning 1 first) (meaning 2 second) score.entry.records.now) }
    ensures keeps { KeepsScore (meaning 1 first).outcomes }
{
    let (_, twice) = again(score, first, second)?;
    Ok(twice)
}

/// What a closed score becomes by two commands, and what it becomes by one.
pub(crate) fn piped_and_alone(
    score: ClosedScore<'_>,
    first: CommandOptions,
    second: CommandOptions,
    single: CommandOptions,
) -> Sides
    requires scores { MakesScores first }
    ensures given { IfOk result (λ both.
        IsPiped (meaning 1 first) (meaning 2 second) score.entry.records.now both.0
        × IsAlone (meaning 1 single) score.entry.records.now both.1) }
    ensures keeps { KeepsScore (meaning 1 first).outcomes }
{
    let in_turn = piped(score, first, second)?;
    let at_once = alone(score, single)?;
    Ok((in_turn, at_once))
}
