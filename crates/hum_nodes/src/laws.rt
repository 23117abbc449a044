//! What is asked of the stages of a plan, each law the contract of a function without a body.
ghost use Rattle.std.specs.Prelude.{ℕ, List};
ghost use Rattle.hum_stage.specs.Meaning.{Meaning, IsLawful as IsLawfulMeaning, KeepsScore};
ghost use Rattle.hum_score.specs.Row.{Row};
ghost use Rattle.hum_turns.specs.Plan.{Stage, IsLawful, KeepsFine};
ghost use Rattle.hum_nodes.specs.At.{IsLimited};
ghost use Rattle.hum_nodes.specs.Fine.{fine, AreFine};
ghost use Rattle.hum_nodes.specs.Single.{single};
ghost use Rattle.hum_nodes.specs.Merging.{merging};
ghost use Rattle.hum_nodes.specs.Reading.{reading};
ghost use Rattle.hum_nodes.specs.Trees.{Part, IsTree, IsLawfulTree};

/// Exactly scores of at most 4,294,967,295 records may lie on a link, and those that end closed
/// only where no spine is open.
pub fn what_is_fine()
    ensures { AreFine }
{}

/// A stage of one input is a stage of a plan.
pub fn singles_are_lawful()
    ensures { (from : ℕ) (m : Meaning) → IsLawfulMeaning m
        → IsLawful fine (single from m).stage }
{}

/// What it makes may lie on a link, where its command makes scores of scores.
pub fn singles_keep_fine()
    ensures { (from : ℕ) (m : Meaning) → IsLawfulMeaning m → KeepsScore m.outcomes
        → KeepsFine fine (single from m).stage }
{}

/// It gives no more records than a score may have.
pub fn singles_are_limited()
    ensures { (from : ℕ) (m : Meaning) → IsLawfulMeaning m → IsLimited (single from m).stage }
{}

/// Nor does any stage whose records may lie on a link.
pub fn kept_stages_are_limited()
    ensures { (stage : Stage Row) → KeepsFine fine stage → IsLimited stage }
{}

/// Several scores side by side are a stage of a plan.
pub fn mergings_are_lawful()
    ensures { (number : ℕ) (from : List ℕ) → IsLawful fine (merging number from).stage }
{}

/// What they make may lie on a link.
pub fn mergings_keep_fine()
    ensures { (number : ℕ) (from : List ℕ) → KeepsFine fine (merging number from).stage }
{}

/// A score that is read is a stage of a plan: what has settled of the bytes so far stays, and where
/// it wants no more of them, all has settled.
pub fn readings_are_lawful()
    ensures { (number : ℕ) (all : List ℕ) → IsLawful fine (reading number all).stage }
{}

/// What it gives may lie on a link.
pub fn readings_keep_fine()
    ensures { (number : ℕ) (all : List ℕ) → KeepsFine fine (reading number all).stage }
{}

/// A tree of stages is a plan of stages that keep to their contracts, whose faults bear their
/// stages' numbers; it ends by the fault of the lowest-numbered stage that refuses.
pub fn trees_are_plans()
    ensures { (parts : List Part) → IsTree parts → IsLawfulTree parts }
{}
