//! Nets of plans: their stages are those of commands.
ghost use Rattle.std.specs.Prelude.{◌≡◌, ◌≤◌, ℕ, List, None, length, IfOk, IfErr};
ghost use Rattle.hum_plan.specs.Stages.{reads_of};
ghost use Rattle.hum_engine.specs.Nets.{NetAt, Tells};
ghost use Rattle.hum_net.specs.Nodes.{AreTold};
ghost use Rattle.hum_net.specs.Scenes.{commands, scene_of, first_now};

use crate::net::Net;
use hum_plan::Plan;
use hum_text::calls::{Sink, Source};
use std::alloc::Global;

impl<R: Source + Drop, W: Sink> Net<R, W> {
    /// The net of a plan, with a reader for each stage that reads a score, in their order, and links
    /// that hold so many records.
    ///
    /// # Errors
    /// Out of memory, which hands the writer back.
    pub fn new(
        alloc: Global,
        plan: Plan,
        readers: Vec<R>,
        writer: W,
        link: u16,
    ) -> Result<Net<R, W>, W>
        requires readers { length (reads_of plan) ≡ length readers.items }
        requires link { 1 ≤ link }
        requires room { link ≤ 4096 }

        // Whatever bytes the readers have, it stands for the plan over them before the first turn.
        ensures opens { IfOk result (λ net. (bytes : ℕ → List ℕ)
            → NetAt commands W.Sink (W.contents writer) (scene_of bytes bytes plan link) net first_now) }

        // Where the readers tell their bytes, so do its sources.
        ensures tells { IfOk result (λ net. (bytes : ℕ → List ℕ) → AreTold R.remaining bytes 0 plan readers.items
            → Tells R.Source net.web.nodes.items bytes) }
        ensures sink { IfOk result (λ net. net.sink ≡ writer) }
        ensures failure { IfOk result (λ net. net.failure ≡ None) }
        ensures err { IfErr result (λ back. back ≡ writer) }
    {
        Net::of_stages(alloc, &plan.into_stages(), readers, writer, link)
    }
}
