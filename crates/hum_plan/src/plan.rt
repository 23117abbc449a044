//! Plans.
ghost use Rattle.std.specs.Prelude.{◌≡◌, ◌-◌, ◌<◌, ◌≤◌, List, length, option_map, slice_get, Some, IfOk};
ghost use Rattle.hum_plan.specs.Answers.{whole_fault, WholeAnswer, PlanAnswer};
ghost use Rattle.hum_plan.specs.{Grammar.IsPlanOf, Laws.Agrees, Seen.stages_of, Tells.Tells};
ghost use Rattle.hum_plan.specs.{Tells.outline_of};
ghost use Rattle.hum_plan.specs.Stages.{Stage, IsTree, reads_of, ReadStage};

use crate::branches::Branches;
use crate::draft::Draft;
use crate::faults::{PlanError, PlanFault, PlanRule, of_text};
use crate::lines::read_lines;
use crate::stages::{Options, PlanStage};
use hum_words::{Command, line_count, plan_text};
use std::alloc::Global;
use std::marker::Model;

/// The first rule that only the whole plan, of so many lines, shows to be broken.
fn whole_fault(count: u32, branches: &Branches<'_>) -> Option<PlanFault>
    ensures { result ≡ whole_fault count branches.now }
{
    let (line, rule) = match branches.get("out") {
        None => (count.max(1), PlanRule::N4),
        Some(_) => (branches.first_unused()?, PlanRule::N11),
    };
    Some(PlanFault {
        line,
        word: 0,
        rule,
    })
}

/// The stages of a plan that has come to its end, behind so many lines.
fn finish(draft: Draft<'_>, count: u32) -> Result<Vec<PlanStage>, PlanError>
    ensures { Tells (λ stages. stages_of stages.items)
        (WholeAnswer count (outline_of draft.entry)) result }
{
    let Draft {
        alloc: _,
        stages,
        branches,
    } = draft;
    match whole_fault(count, &branches) {
        Some(fault) => Err(PlanError::Fault(fault)),
        None => Ok(stages),
    }
}

/// The stages of a plan.
fn read_stages(alloc: Global, bytes: &[u8]) -> Result<Vec<PlanStage>, PlanError>
    ensures { Tells (λ stages. stages_of stages.items) (PlanAnswer bytes.now) result }
{
    let text = match plan_text(bytes) {
        Ok(text) => text,
        Err(fault) => return Err(PlanError::Fault(of_text(fault))),
    };
    let draft = read_lines(alloc, text)?;
    finish(draft, line_count(text))
}

/// A plan: a tree of 1 to 64 stages, numbered from 1, of which the last gives the plan's score.
/// Each stage reads from stages with lower numbers, and each but the last is read from once.
#[derive(Drop)]
pub struct Plan {
    stages: Vec<PlanStage>,
}

impl Model for Plan {
    ghost use Rattle.std.specs.Prelude.{List};
    ghost use Rattle.hum_plan.specs.{Seen.stages_of, Stages.Stage, Stages.IsTree};

    ghost Value = { List Stage };

    ghost view = { λ plan. stages_of plan.stages.items };

    ghost invariant = { λ plan. IsTree (stages_of plan.stages.items) };
}

/// The k-th of the stages that read a score, from 0: its number, and the score's name.
fn find_read(stages: &[PlanStage], k: usize) -> Option<(u8, &str)>
    requires { length stages.now ≤ 64 }
    ensures { option_map (λ read. record { number = read.0; name = read.1.now }) result
        ≡ slice_get (reads_of (stages_of stages.now)) k }
{
    let mut left = k;
    for (index, stage) in stages.iter().enumerate() {
        if let Options::Read(name) = &stage.options {
            if left == 0 {
                return Some((index as u8 + 1, name.as_str()));
            }
            left -= 1;
        }
    }
    None
}

/// How many of the stages read a score.
fn count_reads(stages: &[PlanStage]) -> usize
    ensures { result ≡ length (reads_of (stages_of stages.now)) }
{
    let mut count = 0;
    for stage in stages {
        if let Options::Read(_) = &stage.options {
            count += 1;
        }
    }
    count
}

impl Plan {
    /// How many stages there are.
    pub fn stages(&self) -> usize
        ensures count { result ≡ length self.now }
        ensures tree { IsTree self.now }
    {
        self.stages.len()
    }

    /// How many stages read a score.
    pub fn reads(&self) -> usize
        ensures { result ≡ length (reads_of self.now) }
    {
        count_reads(&self.stages)
    }

    /// The number of the k-th stage that reads a score, from 0.
    pub fn read_stage(&self, k: usize) -> u8
        requires { k < length (reads_of self.now) }
        ensures { option_map (λ read. ReadStage.number read) (slice_get (reads_of self.now) k)
            ≡ Some result }
    {
        find_read(&self.stages, k).unwrap().0
    }

    /// The name of the score that it reads.
    pub fn file(&self, k: usize) -> &str
        requires { k < length (reads_of self.now) }
        ensures { option_map (λ read. ReadStage.name read) (slice_get (reads_of self.now) k)
            ≡ Some result.now }
    {
        find_read(&self.stages, k).unwrap().1
    }

    /// The command of a stage, by its number.
    pub fn command(&self, stage: u8) -> Command
        requires some { 0 < stage }
        requires within { stage ≤ length self.now }
        ensures { option_map (λ one. Stage.command one) (slice_get self.now (stage - 1))
            ≡ Some result }
    {
        self.stages[stage as usize - 1].command
    }

    /// The stages, in order.
    pub fn into_stages(self) -> Vec<PlanStage>
        ensures stages { stages_of result.items ≡ self }
        ensures tree { IsTree (stages_of result.items) }
    {
        self.stages
    }
}

/// Reads the text of a plan.
///
/// # Errors
/// The first rule that the bytes break: N1; then line by line N2, N3, N4, N11 for a 17th branch
/// and N5, and stage by stage N11 for a 65th stage, N7, N6, and the rules on its words; behind all
/// lines N4 where there is no `out`, and N11 where a branch is never used. `Memory`.
pub fn parse_plan(alloc: Global, bytes: &[u8]) -> Result<Plan, PlanError>
    // The answer is a lawful one: the stages, or the first rule that is broken.
    ensures answer { Tells (λ plan. plan) (PlanAnswer bytes.now) result }

    // By the grammar of plans the bytes are the plan of these stages, and these are a tree.
    ensures written { IfOk result (λ plan. IsPlanOf bytes.now plan) }

    // If by the grammar they are a plan, then that plan is answered, or else N12 or running out of memory.
    ensures only { (stages : List Stage) → IsPlanOf bytes.now stages
        → Tells (λ plan. plan) (Agrees stages) result }
    ensures tree { IfOk result (λ plan. IsTree plan) }
{
    let stages = read_stages(alloc, bytes)?;
    Ok(Plan { stages })
}
