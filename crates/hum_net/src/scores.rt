//! Runs of plans over scores that are found by their names.
ghost use Rattle.std.specs.Prelude.{◌≡◌, ◌≤◌, ◌<◌, ◌+◌, ◌||◌, length, true, false, ℕ, List, Option, Bool};
ghost use Rattle.std.specs.Prelude.{IfOk, OnOk, IfErr, None};
ghost use Rattle.hum_plan.specs.Stages.{IsTree, Read};
ghost use Rattle.hum_plan.specs.Seen.{stages_of, options_of};
ghost use Rattle.hum_plan.specs.Grammar.{IsPlanOf};
ghost use Rattle.hum_turns.specs.Ordering.{order_of};
ghost use Rattle.hum_net.specs.Nodes.{AreTold, readers_by, readers_of};
ghost use Rattle.hum_net.specs.Bundles.{Comes, LacksNow, LacksOne, LacksAt, IsRefusal, is_refused, IsFound};
ghost use Rattle.hum_net.specs.Bundles.{LacksHere, Adds, bytes_by, first_lacking, MayCome, Picks, Ends, Drives};
ghost use Rattle.hum_net.specs.Bundles.{is_failed_write, is_read_by};

use crate::outcome::Outcome;
use crate::running::run_stages;
use hum_plan::{Options, PlanError, PlanStage, parse_plan};
use hum_text::calls::{Sink, Source};
use hum_turns::{Order, RunResult};
use std::alloc::Global;

/// Where scores are found by their names.
pub trait Scores {
    /// What a score is read from.
    type Reader: Source + Drop;

    // whether it is known which scores there are, and what they say
    ghost is_known: { Self → Bool };
    // the score of a name, where there is one
    ghost score: { Self → List ℕ → Option (List ℕ) };

    /// A reader of the score of this name, if there is one.
    fn reader(&self, name: &str) -> Option<Self::Reader>
        ensures { is_known self.now ≡ true → IsFound Self.Reader.remaining (score self.now name.now) result };
}

/// The stages of a plan's text.
///
/// # Errors
/// What its run ends with: the first rule that it breaks, or running out of memory.
pub fn plan_stages(alloc: Global, text: &[u8]) -> Result<Vec<PlanStage>, Outcome>
    ensures plan { IfOk result (λ stages. IsPlanOf text.now (stages_of stages.items)) }
    ensures tree { IfOk result (λ stages. IsTree (stages_of stages.items)) }
    ensures refused { IfErr result (IsRefusal text.now) }
{
    match parse_plan(alloc, text) {
        Ok(plan) => Ok(plan.into_stages()),
        Err(PlanError::Fault(fault)) => Err(Outcome::Plan(fault)),
        Err(PlanError::Memory) => Err(Outcome::Run(RunResult::Memory)),
    }
}

/// Adds a reader of the score of this name.
fn add_score<S: Scores>(
    scores: &S,
    k: usize,
    name: &str,
    readers: &mut Vec<S::Reader>,
) -> Result<(), Outcome>
    requires { k < 64 }
    ensures many { OnOk result (length readers.new.items ≡ length readers.old.items + 1) }
    ensures added { S.is_known scores.now ≡ true → OnOk result (Adds S.Reader.remaining
        (S.score scores.now) (Read name.now) readers.old.items readers.new.items) }
    ensures lacks { IfErr result (LacksAt k (Read name.now)) }
    ensures lacks_here { S.is_known scores.now ≡ true → IfErr result
        (LacksHere (S.score scores.now) k (Read name.now)) }
{
    match scores.reader(name) {
        None => Err(Outcome::NoScore(k as u8 + 1)),
        Some(reader) => match readers.push(reader) {
            Ok(()) => Ok(()),
            Err(_) => Err(Outcome::Run(RunResult::Memory)),
        },
    }
}

/// Adds a reader for stage `k`, from 0, if it reads a score.
fn add_reader<S: Scores>(
    scores: &S,
    k: usize,
    stage: &PlanStage,
    readers: &mut Vec<S::Reader>,
) -> Result<(), Outcome>
    requires { k < 64 }
    ensures many { OnOk result (length readers.new.items
        ≡ length readers.old.items + readers_by (options_of stage.now.options)) }
    ensures added { S.is_known scores.now ≡ true → OnOk result (Adds S.Reader.remaining
        (S.score scores.now) (options_of stage.now.options) readers.old.items readers.new.items) }
    ensures lacks { IfErr result (LacksAt k (options_of stage.now.options)) }
    ensures lacks_here { S.is_known scores.now ≡ true → IfErr result
        (LacksHere (S.score scores.now) k (options_of stage.now.options)) }
{
    match &stage.options {
        Options::Read(name) => add_score(scores, k, name.as_str(), readers),
        Options::Assemble => Ok(()),
        Options::Command(_) => Ok(()),
    }
}

/// A reader for each stage that reads a score, in their order.
///
/// # Errors
/// What the run ends with: the first stage whose score isn't there, or running out of memory.
fn readers<S: Scores>(
    alloc: Global,
    scores: &S,
    stages: &[PlanStage],
) -> Result<Vec<S::Reader>, Outcome>
    requires { length stages.now ≤ 64 }
    ensures count { IfOk result (λ readers. readers_of (stages_of stages.now) ≡ length readers.items) }
    ensures there { S.is_known scores.now ≡ true → OnOk result
        (first_lacking (S.score scores.now) 1 (stages_of stages.now) ≡ None) }
    ensures told { S.is_known scores.now ≡ true → IfOk result (λ readers. AreTold S.Reader.remaining
        (bytes_by (S.score scores.now) (stages_of stages.now)) 0 (stages_of stages.now) readers.items) }
    ensures lacks { IfErr result (LacksOne (stages_of stages.now)) }
    ensures lacks_now { S.is_known scores.now ≡ true → IfErr result
        (LacksNow (S.score scores.now) (stages_of stages.now)) }
{
    let mut readers = Vec::new(alloc);
    for (k, stage) in stages.iter().enumerate() {
        add_reader(scores, k, stage, &mut readers)?;
    }
    Ok(readers)
}

/// Runs the stages of a plan over scores by their names, with links that hold so many records. The writer is handed
/// back with how it ended.
pub fn run_named<S: Scores, O: Order, W: Sink + Drop>(
    alloc: Global,
    stages: &[PlanStage],
    scores: &S,
    link: u16,
    order: &mut O,
    writer: W,
) -> (Outcome, W)
    requires tree { IsTree (stages_of stages.now) }
    requires link { 1 ≤ link }
    requires room { link ≤ 4096 }

    // Of each text that is the plan of these stages comes what [`run_scores`] says of it.
    ensures comes { (text : List ℕ) → IsPlanOf text (stages_of stages.now) → S.is_known scores.now ≡ true
        → Comes text (S.score scores.now) (W.contents writer) (W.contents result.1) (W.flushed result.1) result.0 }
    ensures picked { (text : List ℕ) → IsPlanOf text (stages_of stages.now) → S.is_known scores.now ≡ true
        → Picks (order_of O.Order) text (S.score scores.now) link order.old order.new result.0 }
    ensures ended { (text : List ℕ) → IsPlanOf text (stages_of stages.now) → S.is_known scores.now ≡ true
        → Ends (order_of O.Order) text (S.score scores.now) link order.old order.new (W.contents writer)
        (W.contents result.1) result.0 }
    ensures may { (text : List ℕ) → IsPlanOf text (stages_of stages.now) → MayCome text result.0 }
    ensures drives { (text : List ℕ) → IsPlanOf text (stages_of stages.now)
        → Drives (order_of O.Order) text link order.old order.new (W.contents writer) (W.contents result.1) result.0 }
    ensures marked { W.failed result.1 ≡ (W.failed writer || is_failed_write result.0) }
    ensures flushes { W.flushes result.1 ≤ W.flushes writer + 1 }
    ensures unread { ((reader : S.Reader) → S.Reader.failed reader ≡ false)
        → (k : ℕ) → is_read_by k result.0 ≡ false }
    ensures refused { is_refused result.0 ≡ true → (result.1 ≡ writer) × (order.new ≡ order.old) }
{
    let readers = match readers(alloc, scores, stages) {
        Ok(readers) => readers,
        Err(outcome) => return (outcome, writer),
    };
    let (end, writer) = run_stages(alloc, stages, readers, link, order, writer);
    (Outcome::Run(end), writer)
}

/// Runs the plan that a text is over scores by their names, with links that hold so many records. The writer is
/// handed back with how it ended.
pub fn run_scores<S: Scores, O: Order, W: Sink + Drop>(
    alloc: Global,
    text: &[u8],
    scores: &S,
    link: u16,
    order: &mut O,
    writer: W,
) -> (Outcome, W)
    requires link { 1 ≤ link }
    requires room { link ≤ 4096 }

    // A text that is no plan is refused by its first fault, and else the first stage whose score isn't there. Else the
    // plan's stages are run over the scores of their names: what was written is the text of what they mean, whatever
    // the order and the links, which is valid Humdrum unless interpretations are dropped, and the outcome is how that
    // ends; or a failure ended it, and a prefix of that text was written.
    ensures comes { S.is_known scores.now ≡ true → Comes text.now (S.score scores.now) (W.contents writer)
        (W.contents result.1) (W.flushed result.1) result.0 }

    // The turns are those that the order picked, to the run's end, and it is left as its picks leave it; where there
    // is no turn it is not asked.
    ensures picked { S.is_known scores.now ≡ true → Picks (order_of O.Order) text.now (S.score scores.now) link
        order.old order.new result.0 }

    // What was written is what the run had written at its last moment, after a failure too.
    ensures ended { S.is_known scores.now ≡ true → Ends (order_of O.Order) text.now (S.score scores.now) link
        order.old order.new (W.contents writer) (W.contents result.1) result.0 }

    // So it is over scores of which nothing is known: what the readers gave is what was run.
    ensures may { MayCome text.now result.0 }
    ensures drives { Drives (order_of O.Order) text.now link order.old order.new (W.contents writer)
        (W.contents result.1) result.0 }

    // A failed write or flush is told exactly where one set the writer's mark.
    ensures marked { W.failed result.1 ≡ (W.failed writer || is_failed_write result.0) }

    // It is flushed once at most, as the run ends.
    ensures flushes { W.flushes result.1 ≤ W.flushes writer + 1 }

    // Where no reader can fail, no failed read is told.
    ensures unread { ((reader : S.Reader) → S.Reader.failed reader ≡ false)
        → (k : ℕ) → is_read_by k result.0 ≡ false }

    // Where nothing was run, the writer and the order are as they were.
    ensures refused { is_refused result.0 ≡ true → (result.1 ≡ writer) × (order.new ≡ order.old) }
{
    let stages = match plan_stages(alloc, text) {
        Ok(stages) => stages,
        Err(outcome) => return (outcome, writer),
    };
    run_named(alloc, &stages, scores, link, order, writer)
}
