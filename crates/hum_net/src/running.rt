//! Runs of plans.
ghost use Rattle.std.specs.Prelude.{◌≡◌, ◌≤◌, ◌+◌, ◌||◌, ◌⊎◌, ℕ, false, List, Some, length};
ghost use Rattle.hum_plan.specs.Stages.{IsTree};
ghost use Rattle.hum_plan.specs.Seen.{stages_of};
ghost use Rattle.hum_turns.specs.Ordering.{order_of};
ghost use Rattle.hum_engine.specs.Readers.{is_write, is_read_of};
ghost use Rattle.hum_net.specs.Nodes.{AreTold, readers_of};
ghost use Rattle.hum_net.specs.Runs.{HasWritten, HasPicked, HasEnded, HasDriven, IsUnasked};

use crate::net::Net;
use hum_plan::PlanStage;
use hum_text::calls::{Sink, Source};
use hum_turns::{Order, RunResult};
use std::alloc::Global;

/// Runs the stages of a plan, with a reader for each that reads a score, in their order, and links
/// that hold so many records. The sink is handed back with how the run ended.
pub fn run_stages<R: Source + Drop, O: Order, W: Sink + Drop>(
    alloc: Global,
    stages: &[PlanStage],
    readers: Vec<R>,
    link: u16,
    order: &mut O,
    sink: W,
) -> (RunResult, W)
    requires tree { IsTree (stages_of stages.now) }
    requires readers { readers_of (stages_of stages.now) ≡ length readers.items }
    requires link { 1 ≤ link }
    requires room { link ≤ 4096 }

    // Whatever bytes the readers give, in whatever pieces, and whatever the order: what was written is
    // the text of what the stages mean over the scores that the bytes denote, which is valid Humdrum
    // unless interpretations are dropped, and the run ends as they mean; or a failed read or write, or
    // running out of memory, ended it, and a prefix of that text was written.
    ensures wrote { (bytes : ℕ → List ℕ) → AreTold R.remaining bytes 0 (stages_of stages.now) readers.items
        → HasWritten bytes (stages_of stages.now) (W.contents sink) (W.contents result.1) (W.flushed result.1)
        result.0 }

    // The turns are those that the order picked, to the run's end, and it is left as its picks leave
    // it; where memory runs out before the first, it is not asked.
    ensures picked { (bytes : ℕ → List ℕ) → AreTold R.remaining bytes 0 (stages_of stages.now) readers.items
        → HasPicked (order_of O.Order) bytes (stages_of stages.now) link result.0 order.old order.new
        ⊎ IsUnasked result.0 order.old order.new }

    // So they are whether the readers tell their bytes or not, and however these go on; and what was
    // written is what the run had written at its last moment, after a failure too.
    ensures driven { HasDriven (order_of O.Order) (stages_of stages.now) link result.0 order.old order.new
        (W.contents sink) (W.contents result.1) ⊎ IsUnasked result.0 order.old order.new }
    ensures ended { (bytes : ℕ → List ℕ) → AreTold R.remaining bytes 0 (stages_of stages.now) readers.items
        → HasEnded (order_of O.Order) bytes (stages_of stages.now) link result.0 order.old order.new
        (W.contents sink) (W.contents result.1) ⊎ IsUnasked result.0 order.old order.new }

    // A failed write or flush is told exactly where one set the sink's mark.
    ensures marked { W.failed result.1 ≡ (W.failed sink || is_write (Some result.0)) }

    // It is flushed once at most, as the run ends.
    ensures flushes { W.flushes result.1 ≤ W.flushes sink + 1 }

    // Where no reader can fail, no failed read is told.
    ensures unread { ((reader : R) → R.failed reader ≡ false)
        → (k : ℕ) → is_read_of k (Some result.0) ≡ false }
{
    match <Net<R, W>>::of_stages(alloc, stages, readers, sink, link) {
        Ok(mut net) => {
            let result = net.run(order);
            (result, net.into_writer())
        }
        Err(sink) => (RunResult::Memory, sink),
    }
}
