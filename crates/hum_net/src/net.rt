//! The net of a plan, moved turn by turn.
ghost use Rattle.std.specs.Prelude.{◌≡◌, ◌≤◌, ◌<◌, ◌+◌, ◌||◌, ℕ, List, Option, None, length};
ghost use Rattle.std.specs.Prelude.{IfOk, IfErr, is_some};
ghost use Rattle.hum_turns.specs.Failures.{is_ready, result as ended};
ghost use Rattle.hum_turns.specs.Ordering.{order_of};
ghost use Rattle.hum_turns.specs.Counts.{most_in_all};
ghost use Rattle.hum_turns.specs.Holds.{SomeReady};
ghost use Rattle.hum_plan.specs.Stages.{IsTree};
ghost use Rattle.hum_plan.specs.Seen.{stages_of};
ghost use Rattle.hum_engine.specs.Scene.{plan_of, held_of, rooms_of, HoldsFew};
ghost use Rattle.hum_engine.specs.Readers.{failed_at, is_read_of, is_write};
ghost use Rattle.hum_engine.specs.Nets.{NetAt, Tells, HasTurned, RunsBy, WroteFront};
ghost use Rattle.hum_engine.specs.Nets.{CallsSink, FlushesSink, AtEach, HadFewEach, IsLinked};
ghost use Rattle.hum_turns.specs.Plan.{last};
ghost use Rattle.hum_net.specs.Nodes.{AreTold, readers_of};
ghost use Rattle.hum_net.specs.Parts.{AreSoundFrom};
ghost use Rattle.hum_net.specs.Scenes.{scene_of, first_now, IsReadyNow};

use crate::nodes::{OfOptions, plan_nodes};
use hum_commands::CommandStage;
use hum_engine::Net as Engine;
use hum_plan::PlanStage;
use hum_stage::Stage;
use hum_text::calls::{Sink, Source};
use hum_turns::{Order, RunResult};
use std::alloc::Global;
use std::marker::Model;

/// The stages of a plan over readers, the links between them, and the writer behind the last.
///
/// Actor `k`, from 0, is stage `k + 1`; the last actor is the sink, which writes. However the bytes go
/// on that its readers still have, it stands for a moment of the plan's run over them. What a net is
/// asked is the same whatever its commands do.
#[derive(Drop)]
pub struct Net<R: Source, W: Sink, S: Stage = CommandStage> {
    engine: Engine<S, R, W>,
}

impl<R: Source, W: Sink, S: Stage> Model for Net<R, W, S> {
    ghost use Rattle.hum_engine.specs.declared.net.Net.{Net as Engine};
    ghost use Rattle.hum_engine.specs.Nets.{IsNet};

    ghost Value = { Engine S R W };

    ghost view = { λ net. net.engine };

    ghost invariant = { λ net. IsNet S.Stage W.Sink net.engine };
}

impl<R: Source + Drop, W: Sink, S: OfOptions + Drop> Net<R, W, S> {
    /// The net of a plan's stages, as [`Net::new`] makes it.
    pub(crate) fn of_stages(
        alloc: Global,
        stages: &[PlanStage],
        readers: Vec<R>,
        writer: W,
        link: u16,
    ) -> Result<Net<R, W, S>, W>
        requires tree { IsTree (stages_of stages.now) }
        requires readers { readers_of (stages_of stages.now) ≡ length readers.items }
        requires link { 1 ≤ link }
        requires room { link ≤ 4096 }
        ensures opens { IfOk result (λ net. (bytes : ℕ → List ℕ)
            → NetAt S.Stage W.Sink (W.contents writer) (scene_of bytes bytes (stages_of stages.now) link) net
            first_now) }
        ensures tells { IfOk result (λ net. (bytes : ℕ → List ℕ)
            → AreTold R.remaining bytes 0 (stages_of stages.now) readers.items
            → Tells R.Source net.web.nodes.items bytes) }
        ensures valid { IfOk result (λ net. AreSoundFrom 0 (stages_of stages.now)) }
        ensures sink { IfOk result (λ net. net.sink ≡ writer) }
        ensures failure { IfOk result (λ net. net.failure ≡ None) }
        ensures err { IfErr result (λ back. back ≡ writer) }
    {
        let Ok(nodes) = plan_nodes(alloc, stages, readers) else {
            return Err(writer);
        };
        let engine = Engine::of_nodes(alloc, nodes, link, writer)?;
        Ok(Net { engine })
    }
}

impl<R: Source + Drop, W: Sink, S: Stage + Drop> Net<R, W, S> {
    /// How many actors there are: the stages and the sink.
    pub fn actors(&self) -> usize
        ensures count { result ≡ length self.now.actors.items }
        ensures stages { AtEach S.Stage W.Sink self.now (λ start s now. result ≡ s.count + 1) }
    {
        self.engine.actors()
    }

    /// Whether an actor is ready: it may have a turn. Once the run has ended none is.
    pub fn ready(&self, k: usize) -> bool
        requires { k < length self.now.actors.items }
        ensures { AtEach S.Stage W.Sink self.now (λ start s now. result ≡ is_ready (plan_of s) s.size now k) }
    {
        self.engine.ready(k)
    }

    /// One turn of an actor that is ready, and whether the run is over then.
    pub fn turn(&mut self, k: usize) -> bool
        requires within { k < length self.old.actors.items }
        requires ready { IsReadyNow S.Stage W.Sink k self.old }

        // It is one turn of this actor, whatever comes of the bytes that are still to be read.
        ensures turned { HasTurned S.Stage R.Source W.Sink k self.old self.new result }
        ensures turns { self.new.turns ≡ self.old.turns + 1 }
        ensures actors { self.new.actors ≡ self.old.actors }

        // A failed read or write ends the run exactly where a call has failed.
        ensures reads { (i : ℕ) → failed_at R.Source i self.new.web.nodes.items
            ≡ (failed_at R.Source i self.old.web.nodes.items || is_read_of i self.new.failure) }
        ensures writes { W.failed self.new.sink ≡ (W.failed self.old.sink || is_write self.new.failure) }

        // The writer is asked for no write but those of the record that the sink takes, or for one flush
        // at the end.
        ensures asked { AtEach S.Stage W.Sink self.old
            (λ start s now. k ≡ s.count → CallsSink (W.calls self.old.sink) (W.calls self.new.sink)
            (now.links (last (plan_of s))).waiting) }
        ensures flushes { AtEach S.Stage W.Sink self.old
            (λ start s now. k ≡ s.count → FlushesSink (W.flushes self.old.sink) (W.flushes self.new.sink)
            (now.links (last (plan_of s))).waiting) }
    {
        self.engine.turn(k)
    }

    /// Whether the run is over. Until then some actor is ready.
    pub fn over(&self) -> bool
        ensures progress { AtEach S.Stage W.Sink self.now
            (λ start s now. ended (plan_of s) now ≡ None → SomeReady (plan_of s) s.size now.links) }
        ensures over { AtEach S.Stage W.Sink self.now (λ start s now. result ≡ is_some (ended (plan_of s) now)) }
    {
        self.engine.over()
    }

    /// How the run ended, once it has.
    pub fn result(&self) -> Option<RunResult>
        ensures { AtEach S.Stage W.Sink self.now (λ start s now. result ≡ ended (plan_of s) now) }
    {
        self.engine.result()
    }

    /// How many turns were made: until a failure no more than the bytes, the records and the ends
    /// that were moved allow.
    pub fn turns(&self) -> u64
        ensures turns { result ≡ self.now.turns }
        ensures most { AtEach S.Stage W.Sink self.now
            (λ start s now. now.failure ≡ None → result ≤ most_in_all (plan_of s) now.links) }

        // Each actor has had no more of them than what it moved allows.
        ensures each { HadFewEach S.Stage W.Sink self.now }
    {
        self.engine.turns()
    }

    /// How many records wait inside an actor: none in a source or the sink.
    pub fn held(&self, k: usize) -> usize
        ensures held { AtEach S.Stage W.Sink self.now
            (λ start s now. now.failure ≡ None → k ≤ s.count → result ≡ held_of s now.links k) }

        // In a stage of one input at most one more than the greatest lag of its records, in assemble
        // at most one of each source.
        ensures few { AtEach S.Stage W.Sink self.now
            (λ start s now. now.failure ≡ None → HoldsFew s now.links k result) }
    {
        self.engine.held(k)
    }

    /// How many records lie on the link of an actor: those that it gave, less those taken. The sink has
    /// no link.
    pub fn linked(&self, k: usize) -> usize
        ensures { AtEach S.Stage W.Sink self.now (λ start s now. IsLinked s now k result) }
    {
        self.engine.linked(k)
    }

    /// How many bytes the records take, beside their own size, that lie on its links and wait inside its stages: no
    /// more than what they say needs.
    pub fn room(&self) -> usize
        ensures { AtEach S.Stage W.Sink self.now
            (λ start s now. now.failure ≡ None → result ≤ rooms_of s now.links) }
    {
        self.engine.room()
    }

    /// The writer, as the turns left it: at each moment a prefix of the plan's text was written, however
    /// the bytes go on that are still to come.
    pub fn into_writer(self) -> W
        ensures sink { result ≡ self.sink }
        ensures front { AtEach S.Stage W.Sink self (λ start s now. WroteFront s start (W.contents result)) }
    {
        self.engine.into_writer()
    }

    /// Makes the turns that the order picks, to the end of the run.
    pub fn run<O: Order>(&mut self, order: &mut O) -> RunResult
        ensures { RunsBy S.Stage R.Source W.Sink (order_of O.Order) order.old order.new self.old self.new result }
    {
        self.engine.run(order)
    }
}
