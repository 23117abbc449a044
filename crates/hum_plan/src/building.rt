//! The stages of a line, one after another.
ghost use Rattle.std.specs.Prelude.{◌≡◌, ◌<◌, ◌&&◌, nat_le, true, false, [], ◌∷◌, ◌++◌, length};
ghost use Rattle.std.specs.Prelude.{option_map, is_none, string_bytes, IfSome, IfOk, OnOk, Ok, Err};
ghost use Rattle.hum_words.specs.Pieces.{items_of};
ghost use Rattle.hum_options.specs.{Seen.words_of, Answers.Answer, Answers.IsAnswer};
ghost use Rattle.hum_plan.specs.{Lines.behind_bar, Lines.groups, Seen.options_of, Tells.Tells};
ghost use Rattle.hum_plan.specs.{Tells.outline_of};
ghost use Rattle.hum_plan.specs.Answers.{name_read, with_read, joined, name_joined, names_joined};
ghost use Rattle.hum_plan.specs.Answers.{with_joined, with_stage, with_command, Begins};
ghost use Rattle.hum_plan.specs.Answers.{StageAnswer, StagesAnswer, is_source, nothing};
ghost use Rattle.hum_plan.specs.Branches.{Branches, with_branch, taken};

use crate::branches::{Branch, Branches};
use crate::draft::Draft;
use crate::faults::{PlanError, PlanRule, broken, in_line};
use crate::stages::{Options, PlanStage};
use hum_options::read_options;
use hum_words::{Command, Piece};
use std::alloc::{AllocError, Global};

/// How many stages a plan may have.
const MOST_STAGES: usize = 64;

/// How many branches an `assemble` may name.
const MOST_SOURCES: usize = 15;

/// Where a stage stands.
#[derive(Clone, Copy)]
pub(crate) struct StagePlace {
    /// the number of its line
    pub(crate) line: u32,
    /// whether it is the first of its line
    pub(crate) is_first: bool,
    /// whether it is the last of the plan
    pub(crate) is_last: bool,
}

impl StagePlace {
    /// The place of a stage with these pieces behind its bar, if it has one.
    fn new(line: u32, is_first: bool, is_out: bool, behind: Option<&[Piece<'_>]>) -> StagePlace
        ensures { result
            ≡ record { line = line; is_first = is_first; is_last = is_out && is_none behind.entry } }
    {
        StagePlace {
            line,
            is_first,
            is_last: is_out && behind.is_none(),
        }
    }
}

/// The name of the score behind `read`, which is word `number`.
fn read_name(
    alloc: Global,
    line: u32,
    number: u32,
    pieces: &[Piece<'_>],
) -> Result<String, PlanError>
    ensures { Tells string_bytes
        (λ answer. answer ≡ name_read line number (words_of pieces.now)) result }
{
    let [Piece::Word(place, name), rest @ ..] = pieces else {
        return Err(broken(line, number, PlanRule::N9));
    };
    if name.is_empty() {
        return Err(broken(line, *place, PlanRule::N10));
    }
    if let [Piece::Word(extra, _), ..] = rest {
        return Err(broken(line, *extra, PlanRule::N8));
    }
    Ok(String::from_str(alloc, name)?)
}

/// Takes a branch, whose last stage is one source more.
fn take_branch<'a>(
    branches: &mut Branches<'a>,
    sources: &mut Vec<u8>,
    name: &'a str,
    branch: Branch,
) -> Result<(), AllocError>
    ensures sources { OnOk result (sources.new.items ≡ sources.old.items ++ branch.last ∷ []) }
    ensures branches { OnOk result (branches.new
        ≡ with_branch branches.old name.entry.now (taken branch)) }
{
    sources.push(branch.last)?;
    branches.put(name, branch.taken())
}

/// Takes the branch that a word behind `assemble` names.
fn join_name<'a>(
    branches: &mut Branches<'a>,
    sources: &mut Vec<u8>,
    line: u32,
    place: u32,
    name: &'a str,
) -> Result<(), PlanError>
    ensures { Tells (λ _. joined sources.new.items branches.new) (λ answer. answer
        ≡ name_joined line place name.entry.now (joined sources.old.items branches.old)) result }
{
    if sources.len() == MOST_SOURCES {
        return Err(broken(line, place, PlanRule::N8));
    }
    let branch = match branches.get(name) {
        Some(branch) if !branch.taken => branch,
        _ => return Err(broken(line, place, PlanRule::N11)),
    };
    take_branch(branches, sources, name, branch)?;
    Ok(())
}

/// The sources, of which there is at least one.
#[tactic(auto, unfolding(crate::specs::Answers::names_joined))]
fn some_sources(line: u32, number: u32, sources: Vec<u8>) -> Result<Vec<u8>, PlanError>
    ensures { (branches : Branches) → Tells (λ all. joined all.items branches)
        (λ answer. answer ≡ names_joined line number (joined sources.items branches) []) result }
{
    if sources.is_empty() {
        Err(broken(line, number, PlanRule::N9))
    } else {
        Ok(sources)
    }
}

/// The stages that `assemble`, which is word `number`, names. Their branches are taken.
fn join_names<'a>(
    alloc: Global,
    branches: &mut Branches<'a>,
    line: u32,
    number: u32,
    pieces: &[Piece<'a>],
) -> Result<Vec<u8>, PlanError>
    ensures { Tells (λ all. joined all.items branches.new) (λ answer. answer
        ≡ names_joined line number (joined [] branches.old) (words_of pieces.entry.now)) result }
{
    let mut sources = Vec::new(alloc);
    for piece in pieces {
        match piece {
            Piece::Word(place, name) => join_name(branches, &mut sources, line, *place, name)?,
            Piece::Bar(_) => return some_sources(line, number, sources),
        }
    }
    some_sources(line, number, sources)
}

/// Whether a command stands first in its line, and there alone.
fn is_source(command: Command) -> bool
    ensures { result ≡ is_source command }
{
    matches!(command, Command::Read | Command::Assemble)
}

/// The stage of this number alone.
fn one_source(alloc: Global, stage: u8) -> Result<Vec<u8>, AllocError>
    ensures { IfOk result (λ sources. sources.items ≡ stage ∷ []) }
{
    let mut sources = Vec::new(alloc);
    sources.push(stage)?;
    Ok(sources)
}

impl<'a> Draft<'a> {
    /// No line so far.
    pub(crate) fn new(alloc: Global) -> Draft<'a>
        ensures { outline_of result ≡ nothing }
    {
        Draft {
            alloc,
            stages: Vec::new(alloc),
            branches: Branches::new(alloc),
        }
    }

    /// Whether there may be no further stage.
    fn is_full(&self) -> bool
        ensures value { result ≡ nat_le 64 (length (outline_of self.now).stages) }
        ensures room { result ≡ false → length self.now.stages.items < 64 }
    {
        self.stages.len() >= MOST_STAGES
    }

    /// One stage more.
    fn push(
        &mut self,
        command: Command,
        sources: Vec<u8>,
        options: Options,
    ) -> Result<(), AllocError>
        requires { length self.old.stages.items < 64 }
        ensures { OnOk result (outline_of self.new
            ≡ with_stage (outline_of self.old) command sources.items (options_of options)) }
    {
        self.stages.push(PlanStage {
            command,
            sources,
            options,
        })?;
        Ok(())
    }

    /// The stage `read`, which is word `number`.
    fn add_read(&mut self, line: u32, number: u32, pieces: &[Piece<'a>]) -> Result<(), PlanError>
        requires { length self.old.stages.items < 64 }
        ensures { Tells (λ _. outline_of self.new) (λ answer. answer
            ≡ with_read (outline_of self.old) (name_read line number (words_of pieces.entry.now))) result }
    {
        let name = read_name(self.alloc, line, number, pieces)?;
        self.push(Command::Read, Vec::new(self.alloc), Options::Read(name))?;
        Ok(())
    }

    /// The stage `assemble`, which is word `number`.
    fn add_assemble(
        &mut self,
        line: u32,
        number: u32,
        pieces: &[Piece<'a>],
    ) -> Result<(), PlanError>
        requires { length self.old.stages.items < 64 }
        ensures { Tells (λ _. outline_of self.new) (λ answer. answer ≡ with_joined (outline_of self.old)
            (names_joined line number (joined [] self.old.branches) (words_of pieces.entry.now))) result }
    {
        let sources = join_names(self.alloc, &mut self.branches, line, number, pieces)?;
        self.push(Command::Assemble, sources, Options::Assemble)?;
        Ok(())
    }

    /// A command that reads from the stage before it, and is word `number`.
    fn add_command(
        &mut self,
        place: StagePlace,
        command: Command,
        number: u32,
        pieces: &[Piece<'a>],
    ) -> Result<(), PlanError>
        requires { length self.old.stages.items < 64 }
        ensures { Tells (λ _. outline_of self.new) (λ answer. (found : Answer)
            × IsAnswer command number place.is_last (words_of pieces.entry.now) found
            × (answer ≡ with_command place.line (outline_of self.old) command found)) result }
    {
        let sources = one_source(self.alloc, self.stages.len() as u8)?;
        let options = match read_options(self.alloc, command, number, pieces, place.is_last) {
            Ok(options) => options,
            Err(error) => return Err(in_line(place.line, error)),
        };
        self.push(command, sources, Options::Command(options))?;
        Ok(())
    }

    /// A stage that begins with a command, which is word `number`, and goes on with the pieces.
    fn begin(
        &mut self,
        place: StagePlace,
        command: Command,
        number: u32,
        pieces: &[Piece<'a>],
    ) -> Result<(), PlanError>
        requires { length self.old.stages.items < 64 }
        ensures { Tells (λ _. outline_of self.new) (Begins place.line place.is_last
            (outline_of self.old) number (words_of pieces.entry.now) command) result }
    {
        match command {
            Command::Read => self.add_read(place.line, number, pieces),
            Command::Assemble => self.add_assemble(place.line, number, pieces),
            _ => self.add_command(place, command, number, pieces),
        }
    }

    /// The stage that pieces begin with: its first word should be a command.
    fn add_stage(&mut self, place: StagePlace, pieces: &[Piece<'a>]) -> Result<(), PlanError>
        ensures { Tells (λ _. outline_of self.new) (StageAnswer place.line place.is_first place.is_last
            (outline_of self.old) (words_of pieces.entry.now)) result }
    {
        let [Piece::Word(number, word), rest @ ..] = pieces else {
            return Ok(());
        };
        if self.is_full() {
            return Err(broken(place.line, *number, PlanRule::N11));
        }
        let Some(command) = Command::of_word(word) else {
            return Err(broken(place.line, *number, PlanRule::N7));
        };
        if is_source(command) == place.is_first {
            self.begin(place, command, *number, rest)
        } else {
            Err(broken(place.line, *number, PlanRule::N6))
        }
    }

    /// The stages of a line, whose pieces behind its name these are.
    pub(crate) fn add_stages(
        &mut self,
        line: u32,
        is_out: bool,
        pieces: &[Piece<'a>],
    ) -> Result<(), PlanError>
        ensures { Tells (λ _. outline_of self.new) (StagesAnswer line is_out true
            (outline_of self.old) (groups (items_of pieces.entry.now))) result }
    {
        let mut is_first = true;
        let mut rest = Some(pieces);
        while let Some(stage) = rest {
            rest = behind_bar(stage);
            let place = StagePlace::new(line, is_first, is_out, rest);
            self.add_stage(place, stage)?;
            is_first = false;
        }
        Ok(())
    }
}

/// What stands behind the next bar.
fn behind_bar<'p, 'a>(pieces: &'p [Piece<'a>]) -> Option<&'p [Piece<'a>]>
    ensures value { option_map (λ rest. items_of rest.now) result
        ≡ behind_bar (items_of pieces.entry.now) }
    ensures shorter { IfSome result (λ rest. length rest.now < length pieces.entry.now) }
{
    for (index, piece) in pieces.iter().enumerate() {
        if let Piece::Bar(_) = piece {
            return Some(&pieces[index + 1..]);
        }
    }
    None
}
