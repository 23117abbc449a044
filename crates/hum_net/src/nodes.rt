//! The stages of a plan as nodes of a net.
ghost use Rattle.std.specs.Prelude.{◌≡◌, ◌≤◌, ◌<◌, ◌+◌, ℕ, pred, List, ◌∷◌, map, length, IfOk};
ghost use Rattle.hum_plan.specs.Stages.{Stage as TreeStage, IsTree};
ghost use Rattle.hum_plan.specs.Seen.{options_of, stage_of, stages_of};
ghost use Rattle.hum_net.specs.Parts.{first_of};
ghost use Rattle.hum_stage.specs.Meaning.{opening, KeepsScore};
ghost use Rattle.hum_commands.specs.Meaning.{meaning, MakesScores};
ghost use Rattle.hum_valid.specs.Records.{KeepsRecords};
ghost use Rattle.hum_net.specs.Nodes.{AllFrom, Fits, Tells, AreTold, readers_by, readers_of};

use hum_choices::CommandOptions;
use hum_commands::CommandStage;
use hum_nodes::Node;
use hum_plan::{Options, PlanStage};
use hum_stage::Stage;
use hum_text::calls::Source;
use hum_valid::commands_keep_records;
use std::alloc::{AllocError, Global};
use std::collections::VecDeque;

/// Stages of commands, by what these are told.
pub(crate) trait OfOptions: Stage {
    /// The stage of this number, from 1, that is told to do so.
    fn of_options(alloc: Global, number: u8, options: CommandOptions) -> Self
        // It stands for what the options say, with nothing put yet.
        ensures stands { Self.stands result (opening (meaning number options)) }

        // Of scores it makes scores.
        ensures keeps { MakesScores options → KeepsScore (meaning number options).outcomes }

        // Of lawful records that are a score it makes lawful records.
        ensures records { KeepsRecords (meaning number options).outcomes };
}

impl OfOptions for CommandStage {
    fn of_options(alloc: Global, number: u8, options: CommandOptions) -> CommandStage {
        commands_keep_records(&options);
        CommandStage::new(alloc, number, options)
    }
}

/// A stage's number, counted from 0 in place of 1.
fn from_zero(number: u8) -> usize
    ensures { result ≡ pred number }
{
    (number as usize).saturating_sub(1)
}

fn all_from_zero(alloc: Global, numbers: &[u8]) -> Result<Vec<usize>, AllocError>
    ensures { IfOk result (λ from. from.items ≡ map pred numbers.now) }
{
    numbers
        .iter()
        .map(|number| from_zero(*number))
        .collect(alloc)
}

fn first_from_zero(numbers: &[u8]) -> usize
    ensures { result ≡ first_of numbers.now }
{
    match numbers {
        [first, ..] => from_zero(*first),
        [] => 0,
    }
}

/// The node of stage `k`, from 0, whose reader comes first among those that are left.
fn plan_node<S: OfOptions + Drop, R: Source + Drop>(
    alloc: Global,
    k: usize,
    stage: &PlanStage,
    readers: &mut VecDeque<R>,
) -> Result<Node<S, R>, AllocError>
    requires few { k < 64 }
    requires narrow { length stage.now.sources.items ≤ 15 }
    requires reader { readers_by (options_of stage.now.options) ≤ length readers.old.items }
    ensures left { length readers.new.items + readers_by (options_of stage.now.options)
        ≡ length readers.old.items }
    ensures fits { IfOk result (Fits S.Stage k stage.now) }
    ensures told { IfOk result (λ made. (bytes : ℕ → List ℕ) (stages : List TreeStage)
        → AreTold R.remaining bytes k (stage_of stage.now ∷ stages) readers.old.items
        → Tells R.remaining bytes k stage.now made
        × AreTold R.remaining bytes (k + 1) stages readers.new.items) }
{
    let number = k as u8 + 1;
    match &stage.options {
        Options::Read(_) => match readers.pop_front() {
            Some(reader) => Ok(Node::read(alloc, number, reader)),
            None => unreachable!(),
        },
        Options::Assemble => {
            let sources = all_from_zero(alloc, &stage.sources)?;
            Node::assemble(alloc, number, sources)
        }
        Options::Command(options) => {
            let made = S::of_options(alloc, number, options.copy(alloc)?);
            Ok(Node::command(made, first_from_zero(&stage.sources)))
        }
    }
}

/// The nodes of a plan's stages, with a reader for each that reads a score, in their order.
pub(crate) fn plan_nodes<S: OfOptions + Drop, R: Source + Drop>(
    alloc: Global,
    stages: &[PlanStage],
    readers: Vec<R>,
) -> Result<Vec<Node<S, R>>, AllocError>
    requires tree { IsTree (stages_of stages.now) }
    requires readers { readers_of (stages_of stages.now) ≡ length readers.items }
    ensures fits { IfOk result (λ nodes. AllFrom (Fits S.Stage) 0 stages.now nodes.items) }
    ensures told { IfOk result (λ nodes. (bytes : ℕ → List ℕ)
        → AreTold R.remaining bytes 0 (stages_of stages.now) readers.items
        → AllFrom (Tells R.remaining bytes) 0 stages.now nodes.items) }
{
    let mut left = VecDeque::from(readers);
    let mut nodes = Vec::with_capacity(alloc, stages.len())?;
    for stage in stages {
        let node = plan_node(alloc, nodes.len(), stage, &mut left)?;
        nodes.push(node)?;
    }
    Ok(nodes)
}
