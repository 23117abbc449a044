//! Words, read as options.
ghost use Rattle.std.specs.Prelude.{◌≡◌, [], ℕ};
ghost use Rattle.hum_words.specs.declared.commands.Command.{Command};
ghost use Rattle.hum_options.specs.declared.reading.Turn.TheVariants.{Free, Awaits};
ghost use Rattle.hum_options.specs.Answers.{next_option, Answers, IsAnswer};
ghost use Rattle.hum_options.specs.Seen.{words_of, value_fault, Takes, Tells};

use crate::faults::{OptionError, OptionRule, broken};
use crate::given::GivenOptions;
use crate::grammar::{ValueError, read_value};
use crate::letters::read_letters;
use crate::options::{CommandOption, option_of, put_together};
use crate::values::Value;
use hum_choices::CommandOptions;
use hum_pattern::Pattern;
use hum_words::{Command, Piece};
use std::alloc::Global;

/// Where words stand.
#[derive(Clone, Copy)]
enum Turn {
    /// in front of an option
    Free,
    /// in front of the value of an option, which is the word of this number
    Awaits(u32, CommandOption),
}

/// The option that a word is, if it may come behind those that were given.
fn next_option<P: Drop>(
    command: Command,
    given: &GivenOptions<P>,
    word: &str,
) -> Option<CommandOption>
    ensures { result ≡ next_option command given.now word.now }
{
    let option = option_of(command, word.as_bytes())?;
    if given.is_barred(command, option.letter) {
        None
    } else {
        Some(option)
    }
}

/// The fault of a value that is word `number`.
fn value_fault(number: u32, error: ValueError) -> OptionError
    ensures { result ≡ value_fault number error }
{
    match error {
        ValueError::Grammar => broken(number, OptionRule::N10),
        ValueError::Pattern(refusal) => broken(number, OptionRule::N12(refusal)),
        ValueError::Memory => OptionError::Memory,
    }
}

/// Takes a word as the value of an option.
fn at_value(
    alloc: Global,
    given: &mut GivenOptions<Pattern>,
    option: CommandOption,
    number: u32,
    text: &str,
) -> Result<Turn, OptionError>
    ensures { (command : Command) (k : ℕ)
        → Takes command number text.now given.old (Awaits k option) given.new result }
{
    match read_value(alloc, option.kind, text) {
        Ok(value) => {
            given.push(option.letter, value)?;
            Ok(Turn::Free)
        }
        Err(error) => Err(value_fault(number, error)),
    }
}

/// Takes a word as an option.
fn at_option(
    command: Command,
    given: &mut GivenOptions<Pattern>,
    number: u32,
    word: &str,
) -> Result<Turn, OptionError>
    ensures { Takes command number word.now given.old Free given.new result }
{
    let Some(option) = next_option(command, given, word) else {
        return Err(broken(number, OptionRule::N8));
    };
    if option.kind.is_alone() {
        given.push(option.letter, Value::Nothing)?;
        Ok(Turn::Free)
    } else {
        Ok(Turn::Awaits(number, option))
    }
}

fn at_word(
    alloc: Global,
    command: Command,
    given: &mut GivenOptions<Pattern>,
    turn: Turn,
    number: u32,
    word: &str,
) -> Result<Turn, OptionError>
    ensures { Takes command number word.now given.old turn given.new result }
{
    match turn {
        Turn::Free => at_option(command, given, number, word),
        Turn::Awaits(_, option) => at_value(alloc, given, option, number, word),
    }
}

/// What the options say behind the last word. The command is word `number`.
fn at_end(
    alloc: Global,
    command: Command,
    number: u32,
    given: &mut GivenOptions<Pattern>,
    turn: Turn,
) -> Result<CommandOptions, OptionError>
    ensures { Tells (Answers command number given.old turn []) result }
{
    match turn {
        Turn::Free => match put_together(alloc, command, given)? {
            Some(options) => Ok(options),
            None => Err(broken(number, OptionRule::N9)),
        },
        Turn::Awaits(place, _) => Err(broken(place, OptionRule::N9)),
    }
}

/// What the options say that stand behind a command, which is word `number`.
fn read_given(
    alloc: Global,
    command: Command,
    number: u32,
    pieces: &[Piece<'_>],
) -> Result<CommandOptions, OptionError>
    ensures { Tells (Answers command number [] Free (words_of pieces.now)) result }
{
    let mut given = GivenOptions::new(alloc);
    let mut turn = Turn::Free;
    for piece in pieces {
        match piece {
            Piece::Word(place, word) => {
                turn = at_word(alloc, command, &mut given, turn, *place, word)?;
            }
            Piece::Bar(_) => return at_end(alloc, command, number, &mut given, turn),
        }
    }
    at_end(alloc, command, number, &mut given, turn)
}

/// The options of a command, as the words behind it give them, up to the next bar or the end. The
/// command is word `number` of its line; `is_last` says whether its stage is the last of the plan.
///
/// # Errors
/// The first rule that the words break: N8, N9, N10 or N12 at an option, word by word, or N9 at
/// the command, where an option is missing that it requires. For rid N8, N11 or N9. `Memory`.
pub fn read_options(
    alloc: Global,
    command: Command,
    number: u32,
    pieces: &[Piece<'_>],
    is_last: bool,
) -> Result<CommandOptions, OptionError>
    ensures { Tells (IsAnswer command number is_last (words_of pieces.now)) result }
{
    if command == Command::Rid {
        read_letters(number, is_last, pieces)
    } else {
        read_given(alloc, command, number, pieces)
    }
}
