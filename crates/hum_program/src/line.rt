//! The command line: `humpipe [--link N] [--order left|right] [PIPELINE]`.
//!
//! A link holds 1 to 4,096 records, 16 where nothing is said. The order of turns is `left` where
//! nothing is said. PIPELINE is the file of the plan; without it a bundle is read. Any other line,
//! `--help` too, is refused.
ghost use Rattle.std.specs.Prelude.{◌≡◌, ◌≢◌, ◌≤◌, ℕ, IfOk, IfErr, MatchOption, map, option_map, string_bytes, false};
ghost use Rattle.clap.specs.Words.{app_of, first_of, rows_of, rule_of, found_of, kind_of};
ghost use Rattle.hum_program.specs.Line.{line, option, IsLink, IsOrder, Says, Asks, AskNothing};

use clap::error::ErrorKind;
use clap::{Arg, ArgAction, ArgMatches, Command};
pub use hum_turns::Side;
use std::alloc::{AllocError, Global};
use thiserror::Error;

/// How many records a link may hold at most.
const LARGEST_LINK: u16 = 4096;

/// How many it holds where the line doesn't say.
const USUAL_LINK: u16 = 16;

/// What a command line asks for.
#[derive(Clone, Copy)]
pub struct Choice<'a> {
    /// how many records a link holds
    pub link: u16,
    /// the side from which the actor is picked that takes its turn
    pub order: Side,
    /// the plan's file; without it a bundle is read
    pub file: Option<&'a str>,
}

/// Why a command line asks for nothing.
#[derive(Clone, Copy, Debug, Error)]
pub enum LineFault {
    /// It isn't of the form above.
    #[error("usage: humpipe [--link N] [--order left|right] [PIPELINE]")]
    Usage,
    /// Memory ran out.
    #[error("out of memory")]
    Memory(#[from(alloc)] AllocError),
}

/// An option of one value.
fn option<'a>(alloc: Global, name: &'a str) -> Arg<'a>
    ensures rule { rule_of result ≡ option name.entry.now }
    ensures global { result.global ≡ false }
{
    Arg::new(alloc, name).long(name).action(ArgAction::Set)
}

/// The arguments of the program.
fn arguments<'a>(alloc: Global) -> Result<Command<'a>, AllocError>
    ensures { IfOk result (λ command. app_of command ≡ line) }
{
    Command::new(alloc, "humpipe")
        .disable_help_flag(true)
        .arg(option(alloc, "link"))?
        .arg(option(alloc, "order"))?
        .arg(Arg::new(alloc, "PIPELINE").action(ArgAction::Set))
}

/// How many records a link is to hold, by the value of `--link`.
fn link_of(value: Option<&str>) -> Option<u16>
    ensures { MatchOption result ((n : ℕ) → ¬ IsLink (option_map (λ text. text.now) value.entry) n)
        (IsLink (option_map (λ text. text.now) value.entry)) }
{
    let Some(text) = value else {
        return Some(USUAL_LINK);
    };
    match text.parse::<u16>() {
        Ok(link) if 1 <= link && link <= LARGEST_LINK => Some(link),
        _ => None,
    }
}

/// The side that the value of `--order` names.
fn order_of(value: Option<&str>) -> Option<Side>
    ensures { MatchOption result ((side : Side) → ¬ IsOrder (option_map (λ text. text.now) value.entry) side)
        (IsOrder (option_map (λ text. text.now) value.entry)) }
{
    match value {
        None | Some("left") => Some(Side::Left),
        Some("right") => Some(Side::Right),
        Some(_) => None,
    }
}

/// What was said.
fn choice_of<'a>(matches: &ArgMatches<'a>) -> Option<Choice<'a>>
    ensures { MatchOption result
        ((choice : Choice) → ¬ Says (λ name. first_of name (rows_of (found_of matches.now))) choice)
        (Says (λ name. first_of name (rows_of (found_of matches.now)))) }
{
    let Some(link) = link_of(matches.get_str("link")) else {
        return None;
    };
    let Some(order) = order_of(matches.get_str("order")) else {
        return None;
    };
    Some(Choice {
        link,
        order,
        file: matches.get_str("PIPELINE"),
    })
}

/// What an error of a parse says of the words.
fn fault_of(error: &clap::Error) -> LineFault
    ensures { result ≡ LineFault.Usage → kind_of error.now ≢ ErrorKind.OutOfMemory }
{
    if error.kind() == ErrorKind::OutOfMemory {
        LineFault::Memory(AllocError)
    } else {
        LineFault::Usage
    }
}

/// What the words of a command line ask for, the program's name first.
///
/// # Errors
/// `Usage` where the line isn't of the program's form; `Memory`.
pub fn read_line<'a>(alloc: Global, words: &'a [String]) -> Result<Choice<'a>, LineFault>
    // It is what the words say, each option by its name, with the defaults; a link holds 1 to 4,096 records.
    ensures asked { IfOk result (Asks (map (λ word. string_bytes word) words.entry.now)) }
    ensures link { IfOk result (λ choice. (1 ≤ choice.link) × (choice.link ≤ LARGEST_LINK)) }

    // Words that ask for something are not refused.
    ensures refused { IfErr result (λ fault. fault ≡ LineFault.Usage
        → AskNothing (map (λ word. string_bytes word) words.entry.now)) }
{
    let arguments = match arguments(alloc) {
        Ok(arguments) => arguments,
        Err(error) => return Err(LineFault::Memory(error)),
    };
    let matches = match arguments.try_get_matches_from(words) {
        Ok(matches) => matches,
        Err(error) => return Err(fault_of(&error)),
    };
    match choice_of(&matches) {
        Some(choice) => Ok(choice),
        None => Err(LineFault::Usage),
    }
}
