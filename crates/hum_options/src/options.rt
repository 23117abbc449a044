//! The options of each command, and what those that were given are together.
ghost use Rattle.std.specs.Prelude.{◌≡◌, ◌||◌, IfOk, codes};
ghost use Rattle.std.specs.Option.{option_map};
ghost use Rattle.hum_choices.specs.{Extract.choice_of, Timebase.pace_of};
ghost use Rattle.hum_choices.specs.Options.{Context, Trans, Yank, span_of, markers_of, options_of};
ghost use Rattle.hum_words.specs.declared.commands.Command.TheVariants as command;
ghost use Rattle.hum_options.specs.Answers.{is_alone};
ghost use Rattle.hum_options.specs.Options.{table, is_spelled, option_of, excludes, are_in};
ghost use Rattle.hum_options.specs.Options.{choice_meant, ditto_meant, pace_meant, span_meant, trans_meant};
ghost use Rattle.hum_options.specs.Options.{semits_meant, mint_meant, markers_meant, separator_meant};
ghost use Rattle.hum_options.specs.{Options.cleave_meant, Options.meant_by_kind, Options.meant, Given.get};

use crate::given::GivenOptions;
use crate::values::{Separator, Value, of_kind};
use hum_choices::{
    CleaveOptions, CommandOptions, ContextOptions, DittoOptions, ExtractOptions, Markers,
    MintOptions, RecipOptions, SemitsOptions, Span, TimebaseOptions, TransOptions, YankOptions,
};
use hum_pattern::Pattern;
use hum_words::Command;
use std::alloc::{AllocError, Global};

/// What an option's value is.
#[derive(Clone, Copy)]
pub(crate) enum ValueKind {
    /// the option stands alone
    Alone,
    /// LIST: fields
    Fields,
    /// NAMES of exclusive interpretations
    Names,
    /// NAME of an exclusive interpretation
    Name,
    /// TEXT that can stand in a token
    Text,
    /// RANGES of passages
    Ranges,
    /// LABEL of a section
    Label,
    /// PATTERN
    Pattern,
    /// N: a number of tokens
    Count,
    /// INT of at most 49
    Steps,
    /// INT of at most 84
    Semitones,
    /// RECIP: a duration
    Duration,
}

/// An option of a command.
#[derive(Clone, Copy)]
pub(crate) struct CommandOption {
    pub(crate) letter: u8,
    pub(crate) kind: ValueKind,
}

/// The letter and the kind of each option of a command. Those of rid are words of letters.
fn table(command: Command) -> &'static [(u8, ValueKind)]
    ensures { result.now ≡ table command }
{
    match command {
        Command::Read => &[],
        Command::Assemble => &[],
        Command::Rid => &[],
        Command::Extract => &[(b'f', ValueKind::Fields), (b'i', ValueKind::Names)],
        Command::Ditto => &[(b's', ValueKind::Pattern), (b'p', ValueKind::Alone)],
        Command::Timebase => &[(b't', ValueKind::Duration)],
        Command::Context => &[
            (b'n', ValueKind::Count),
            (b'b', ValueKind::Pattern),
            (b'e', ValueKind::Pattern),
            (b'o', ValueKind::Pattern),
        ],
        Command::Trans => &[(b'd', ValueKind::Steps), (b'c', ValueKind::Semitones)],
        Command::Semits => &[(b'x', ValueKind::Alone), (b't', ValueKind::Alone)],
        Command::Mint => &[
            (b'a', ValueKind::Alone),
            (b'd', ValueKind::Alone),
            (b'b', ValueKind::Pattern),
        ],
        Command::Recip => &[],
        Command::Yank => &[
            (b'l', ValueKind::Alone),
            (b'n', ValueKind::Pattern),
            (b'o', ValueKind::Pattern),
            (b'e', ValueKind::Pattern),
            (b's', ValueKind::Label),
            (b'r', ValueKind::Ranges),
        ],
        Command::Cleave => &[
            (b'i', ValueKind::Name),
            (b'o', ValueKind::Name),
            (b'd', ValueKind::Text),
        ],
    }
}

impl CommandOption {
    /// Whether a word is `-` and the option's letter.
    fn is_spelled(self, word: &[u8]) -> bool
        ensures { result ≡ is_spelled word.now self }
    {
        word == [b'-', self.letter].as_slice()
    }
}

/// The option that a word is, if it is one of the command.
pub(crate) fn option_of(command: Command, word: &[u8]) -> Option<CommandOption>
    ensures { result ≡ option_of command word.now }
{
    table(command)
        .iter()
        .map(|(letter, kind)| CommandOption {
            letter: *letter,
            kind: *kind,
        })
        .find(|option| option.is_spelled(word))
}

/// Whether both letters are in a group.
fn are_in(a: u8, b: u8, group: &[u8]) -> bool
    ensures { result ≡ are_in a b group.now }
{
    group.contains(&a) && group.contains(&b)
}

/// Whether a stage has at most one of the options of these letters.
pub(crate) fn excludes(command: Command, a: u8, b: u8) -> bool
    ensures { result ≡ excludes command a b }
{
    match command {
        Command::Extract => are_in(a, b, b"fi"),
        Command::Context => are_in(a, b, b"nb") || are_in(a, b, b"ne"),
        Command::Yank => are_in(a, b, b"lnos") || are_in(a, b, b"lnse"),
        _ => false,
    }
}

impl ValueKind {
    /// Whether the option takes no value.
    pub(crate) fn is_alone(self) -> bool
        ensures { result ≡ is_alone self }
    {
        match self {
            ValueKind::Alone => true,
            _ => false,
        }
    }
}

fn extract<P: Drop>(given: &mut GivenOptions<P>) -> Option<ExtractOptions>
    ensures { option_map choice_of result ≡ choice_meant given.old }
{
    if let Some(ranges) = given.fields(b'f') {
        return Some(ExtractOptions::Fields(ranges));
    }
    let names = of_kind!(given.take(b'i')?, Names)?;
    Some(ExtractOptions::Names(names))
}

fn ditto(given: &mut GivenOptions<Pattern>) -> DittoOptions
    ensures { result ≡ ditto_meant given.old }
{
    let parentheses = given.has(b'p');
    DittoOptions {
        skip: given.pattern(b's'),
        parentheses,
    }
}

fn timebase<P: Drop>(given: &mut GivenOptions<P>) -> Option<TimebaseOptions>
    ensures { option_map pace_of result ≡ pace_meant given.old }
{
    of_kind!(given.take(b't')?, Duration)
}

fn span(given: &mut GivenOptions<Pattern>) -> Option<Span>
    ensures { option_map span_of result ≡ span_meant given.old }
{
    if let Some(count) = given.count(b'n') {
        return Some(Span::Number(count));
    }
    let begin = given.pattern(b'b')?;
    let end = given.pattern(b'e')?;
    Some(Span::Phrase(begin, end))
}

fn context(given: &mut GivenOptions<Pattern>) -> Option<ContextOptions>
    ensures { option_map (λ options. Context (span_of options.span) options.omit) result
        ≡ meant command.Context given.old }
{
    let omit = given.pattern(b'o');
    let span = span(given)?;
    Some(ContextOptions { span, omit })
}

fn trans<P: Drop>(given: &mut GivenOptions<P>) -> Option<TransOptions>
    ensures { option_map (λ options. Trans options.steps options.semitones) result
        ≡ trans_meant given.old }
{
    let steps = given.steps(b'd')?;
    let semitones = of_kind!(given.take(b'c')?, Semitones)?;
    Some(TransOptions {
        steps: steps.number,
        semitones: semitones.number,
    })
}

fn semits<P: Drop>(given: &GivenOptions<P>) -> Option<SemitsOptions>
    ensures { result ≡ semits_meant given.now }
{
    if given.has(b'x') {
        let ties_left_out = given.has(b't');
        Some(SemitsOptions { ties_left_out })
    } else {
        None
    }
}

fn mint(given: &mut GivenOptions<Pattern>) -> MintOptions
    ensures { result ≡ mint_meant given.old }
{
    let signless = given.has(b'a');
    let sizeonly = given.has(b'd');
    MintOptions {
        signless,
        sizeonly,
        breaks: given.pattern(b'b'),
    }
}

fn label<P: Drop>(given: &mut GivenOptions<P>) -> Option<Vec<u8>>
    ensures { option_map (λ label. label.items) result ≡ get ValueKind.Label (codes "s") given.old }
{
    of_kind!(given.take(b's')?, Label)
}

fn markers(given: &mut GivenOptions<Pattern>) -> Option<Markers>
    ensures { option_map markers_of result ≡ markers_meant given.old }
{
    if given.has(b'l') {
        return Some(Markers::Lines);
    }
    if let Some(numbered) = given.pattern(b'n') {
        return Some(Markers::Numbers(numbered));
    }
    if let Some(begins) = given.pattern(b'o') {
        let ends = given.pattern(b'e');
        return Some(Markers::Occurrences(begins, ends));
    }
    let label = label(given)?;
    Some(Markers::Labels(label))
}

fn yank(given: &mut GivenOptions<Pattern>) -> Option<YankOptions>
    ensures { option_map (λ options. Yank (markers_of options.markers) options.ranges.items) result
        ≡ meant command.Yank given.old }
{
    let ranges = given.ranges(b'r')?;
    let markers = markers(given)?;
    Some(YankOptions { markers, ranges })
}

fn separator<P: Drop>(alloc: Global, given: &mut GivenOptions<P>) -> Result<Separator, AllocError>
    ensures { IfOk result (λ separator. separator.text.items ≡ separator_meant given.old) }
{
    match given.text(b'd') {
        Some(separator) => Ok(separator),
        None => Separator::space(alloc),
    }
}

fn cleave<P: Drop>(
    alloc: Global,
    given: &mut GivenOptions<P>,
) -> Result<Option<CleaveOptions>, AllocError>
    ensures { IfOk result (λ found. found ≡ cleave_meant given.old) }
{
    let Some(name) = given.name(b'i') else {
        return Ok(None);
    };
    let Some(new_name) = given.name(b'o') else {
        return Ok(None);
    };
    let separator = separator(alloc, given)?;
    Ok(Some(CleaveOptions::new(name.text, new_name.text, separator.text)))
}

/// What the options of any command but cleave are together, unless one is missing that it requires.
fn put_by_kind(command: Command, given: &mut GivenOptions<Pattern>) -> Option<CommandOptions>
    ensures { option_map options_of result ≡ meant_by_kind command given.old }
{
    match command {
        Command::Extract => Some(CommandOptions::Extract(extract(given)?)),
        Command::Ditto => Some(CommandOptions::Ditto(ditto(given))),
        Command::Timebase => Some(CommandOptions::Timebase(timebase(given)?)),
        Command::Context => Some(CommandOptions::Context(context(given)?)),
        Command::Trans => Some(CommandOptions::Trans(trans(given)?)),
        Command::Semits => Some(CommandOptions::Semits(semits(given)?)),
        Command::Mint => Some(CommandOptions::Mint(mint(given))),
        Command::Recip => Some(CommandOptions::Recip(RecipOptions)),
        Command::Yank => Some(CommandOptions::Yank(yank(given)?)),
        Command::Read | Command::Assemble | Command::Rid | Command::Cleave => None,
    }
}

/// What the options that were given are together, unless one is missing that the command requires.
pub(crate) fn put_together(
    alloc: Global,
    command: Command,
    given: &mut GivenOptions<Pattern>,
) -> Result<Option<CommandOptions>, AllocError>
    ensures { IfOk result (λ found. option_map options_of found ≡ meant command given.old) }
{
    if command != Command::Cleave {
        return Ok(put_by_kind(command, given));
    }
    match cleave(alloc, given)? {
        Some(options) => Ok(Some(CommandOptions::Cleave(options))),
        None => Ok(None),
    }
}
