//! The theorems on turns, each the contract of a function without a body.
ghost use Rattle.hum_turns.specs.Meaning.{WhoseFault, EveryMeaningIsFine};
ghost use Rattle.hum_turns.specs.Holds.{EveryOrder};
ghost use Rattle.hum_turns.specs.Failures.{EveryTurn};
ghost use Rattle.hum_turns.specs.Orders.{EveryPick};
ghost use Rattle.hum_turns.specs.Ends.{EveryEnd, EveryOrderEnds};
ghost use Rattle.hum_turns.specs.Near.{EveryTurnIsNear};
ghost use Rattle.hum_turns.specs.Marking.{EverySourceMarks};

/// At every moment that any turns of ready actors lead to, for links of every size: each link has
/// had a prefix of its stage's meaning, the links are bounded, someone is ready until the run is
/// over, the turns are bounded, and at the end the whole list was taken.
pub fn every_order<R>()
    ensures { EveryOrder R }
{}

/// The plan's end is the fault that is met where the stages are evaluated in the order of their
/// numbers, each on its whole input, up to the first that refuses.
pub fn whose_fault<R>()
    ensures { WhoseFault R }
{}

/// Where the last stage too makes what may lie on a link, the plan's meaning may lie on one: a plan
/// of stages that make scores of scores means a score, a closed one where it ends closed.
pub fn every_meaning_is_fine<R>()
    ensures { EveryMeaningIsFine R }
{}

/// The same at every moment of a run that a failed read, a failed write or running out of memory may
/// end: what is written is a prefix of the plan's text, whatever was to be read.
pub fn every_turn<R>()
    ensures { EveryTurn R }
{}

/// A run that has ended did so by a failure, or it has written the plan's text and nothing else,
/// and tells the fault of the lowest-numbered stage that refuses, if one does.
pub fn every_end<R>()
    ensures { EveryEnd R }
{}

/// Wherever an order has led, all of this holds, and the order's choice is an actor that is
/// ready.
pub fn every_pick<R, O>()
    ensures { EveryPick R O }
{}

/// Every order comes to the end of the run, where nothing fails.
pub fn every_order_ends<R, O>()
    ensures { EveryOrderEnds R O }
{}

/// A turn leaves the links as they are that its actor doesn't look at, and those who look at none
/// of its links as ready as they were.
pub fn every_turn_is_near<R>()
    ensures { EveryTurnIsNear R }
{}

/// A source's turn gives a record or sets the end and reads no byte, or it has read bytes and not their end, and
/// gives nothing: so it sets the end in the turn that meets it.
pub fn every_source_marks<R>()
    ensures { EverySourceMarks R }
{}
