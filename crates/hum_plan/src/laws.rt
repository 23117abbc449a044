//! What holds of every text, as contracts.
ghost use Rattle.std.specs.Prelude.{ℕ, List};
ghost use Rattle.hum_plan.specs.Laws.{IsReadAsWritten, IsOnePlan, HasATree};
ghost use Rattle.hum_plan.specs.{Refused.IsRefusedInOrder, Said.LinesSayAll};

/// A text is read as the plan that it is by the grammar, and refused where it is none.
pub fn texts_are_read_as_written()
    ensures { (bytes : List ℕ) → IsReadAsWritten bytes }
{}

/// A text is at most one plan, and one that is a plan is refused by N12 alone: a pattern in it is a
/// regular expression, but too large.
pub fn texts_are_one_plan()
    ensures { (bytes : List ℕ) → IsOnePlan bytes }
{}

/// The stages of a plan are a tree.
pub fn plans_are_trees()
    ensures { (bytes : List ℕ) → HasATree bytes }
{}

/// A text is refused for the first rule that it breaks, in the order in which it is written: the lines
/// before are branches, the stages before in the line are lawful, and so are the words before. Which
/// names there are then, which of them are taken, and how many lines and stages there are, these
/// lines say by their text alone.
pub fn texts_are_refused_in_order()
    ensures first { (bytes : List ℕ) → IsRefusedInOrder bytes }
    ensures lines { (lines : List (ℕ × List ℕ)) → LinesSayAll lines }
{}
