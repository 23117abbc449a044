//! The lines of a plan, one after another.
ghost use Rattle.std.specs.Prelude.{◌≡◌, ◌≤◌, true, length, OnOk, Some};
ghost use Rattle.hum_words.specs.{Branches.branches_of, Cutting.cut_line};
ghost use Rattle.hum_words.specs.{Pieces.items_of};
ghost use Rattle.hum_words.specs.Pieces as item;
ghost use Rattle.hum_plan.specs.{Lines.empty_stage, Tells.Tells, Tells.outline_of};
ghost use Rattle.hum_plan.specs.Answers.{name_fault, ended, nothing, NameAnswer, BranchAnswer};
ghost use Rattle.hum_plan.specs.Answers.{CutAnswer, LinesAnswer};

use crate::branches::{Branch, Branches};
use crate::draft::Draft;
use crate::faults::{PlanError, PlanFault, PlanRule, broken};
use hum_words::{LONGEST_PLAN, Line, Lines, Piece, WordFault, name_of, pieces};
use std::alloc::{AllocError, Global};
use std::iter::Iterator;

/// How many branches a plan may have.
const MOST_BRANCHES: usize = 16;

/// The name of the last branch.
const OUT: &str = "out";

/// The number of the last word in front of the leftmost stage without words. The pieces are those
/// behind the name of a line, which is word 1.
fn empty_stage(pieces: &[Piece<'_>]) -> Option<u32>
    ensures { result ≡ empty_stage 1 true (items_of pieces.now) }
{
    let mut last = 1;
    let mut lacks = true;
    for piece in pieces {
        match piece {
            Piece::Word(number, _) => {
                last = *number;
                lacks = false;
            }
            Piece::Bar(number) => {
                if lacks {
                    return Some(*number);
                }
                last = *number;
                lacks = true;
            }
        }
    }
    if lacks { Some(last) } else { None }
}

/// The first of a line's own rules that it breaks behind its name.
fn name_fault(
    line: u32,
    branches: &Branches<'_>,
    name: &str,
    pieces: &[Piece<'_>],
) -> Option<PlanFault>
    ensures { result ≡ name_fault line branches.now name.now (items_of pieces.now) }
{
    let (word, rule) = if branches.get(OUT).is_some() || branches.get(name).is_some() {
        (1, PlanRule::N4)
    } else if branches.len() >= MOST_BRANCHES {
        (1, PlanRule::N11)
    } else {
        (empty_stage(pieces)?, PlanRule::N5)
    };
    Some(PlanFault { line, word, rule })
}

impl<'a> Draft<'a> {
    /// Ends the branch of a line: its last stage is the last so far.
    fn end(&mut self, line: u32, name: &'a str) -> Result<(), AllocError>
        ensures { OnOk result (outline_of self.new
            ≡ ended line name.entry.now (outline_of self.old)) }
    {
        let branch = Branch {
            last: self.stages.len() as u8,
            taken: name == OUT,
            line,
        };
        self.branches.put(name, branch)
    }

    /// The branch of a name, whose stages these are.
    fn add_named(&mut self, line: u32, name: &'a str, pieces: &[Piece<'a>]) -> Result<(), PlanError>
        ensures { Tells (λ _. outline_of self.new) (NameAnswer line (outline_of self.old)
            (items_of pieces.entry.now) (Some name.entry.now)) result }
    {
        if let Some(fault) = name_fault(line, &self.branches, name, pieces) {
            return Err(PlanError::Fault(fault));
        }
        self.add_stages(line, name == OUT, pieces)?;
        self.end(line, name)?;
        Ok(())
    }

    /// The branch that pieces are, whose first word should be a name and a colon.
    fn add_branch(&mut self, line: u32, pieces: &[Piece<'a>]) -> Result<(), PlanError>
        ensures { Tells (λ _. outline_of self.new)
            (BranchAnswer line (outline_of self.old) (items_of pieces.entry.now)) result }
    {
        match pieces {
            [Piece::Word(_, word), rest @ ..] => match name_of(word) {
                Some(name) => self.add_named(line, name, rest),
                None => Err(broken(line, 1, PlanRule::N3)),
            },
            _ => Err(broken(line, 1, PlanRule::N3)),
        }
    }

    /// A line that is a branch.
    fn add_line(&mut self, line: Line<'a>) -> Result<(), PlanError>
        ensures { Tells (λ _. outline_of self.new) (CutAnswer line.entry.number (outline_of self.old)
            (cut_line line.entry.text.now)) result }
    {
        match pieces(self.alloc, line.text) {
            Ok(pieces) => self.add_branch(line.number, &pieces),
            Err(WordFault::Quote(word)) => Err(broken(line.number, word, PlanRule::N2)),
            Err(WordFault::Memory) => Err(PlanError::Memory),
        }
    }
}

/// The stages and branches of a plan's text.
pub(crate) fn read_lines<'a>(alloc: Global, text: &'a str) -> Result<Draft<'a>, PlanError>
    requires { length text.now ≤ LONGEST_PLAN }
    ensures { Tells outline_of (LinesAnswer nothing (branches_of text.entry.now)) result }
{
    let mut draft = Draft::new(alloc);
    let mut lines = Lines::new(text);
    while let Some(line) = lines.next() {
        draft.add_line(line)?;
    }
    Ok(draft)
}
