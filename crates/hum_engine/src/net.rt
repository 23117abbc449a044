//! A web whose last stage is written.
ghost use Rattle.std.specs.Prelude.{◌≡◌, ◌≤◌, ◌<◌, ◌+◌, ◌-◌, ◌^◌, ℕ, true};
ghost use Rattle.std.specs.Prelude.{List, length, Option, None, Some, is_some, is_none, slice_get};
ghost use Rattle.std.specs.Prelude.{MatchOption, IfOk, IfErr};
ghost use Rattle.hum_score.specs.Row.{Row};
ghost use Rattle.hum_turns.specs.Plan.{last};
ghost use Rattle.hum_turns.specs.declared.result.RunResult.TheVariants as ends;
ghost use Rattle.hum_turns.specs.Failures.{Now, IsFirst, is_ready, result as ended};
ghost use Rattle.hum_turns.specs.Orders.{ready_list};
ghost use Rattle.hum_turns.specs.Ordering.{order_of};
ghost use Rattle.hum_turns.specs.Counts.{most_in_all};
ghost use Rattle.hum_turns.specs.Holds.{SomeReady};
ghost use Rattle.hum_engine.specs.Scene.{Scene, plan_of, Somewhere, IsAt, IsNetPlan, IsBegun};
ghost use Rattle.hum_engine.specs.Scene.{held_of, rooms_of, HoldsFew, HasRoom};
ghost use Rattle.hum_turns.specs.declared.order.Side.TheVariants as side;
ghost use Rattle.hum_engine.specs.Looks as looks;
ghost use Rattle.hum_engine.specs.Looks.{leaning, left_at, along_at, right_at};
ghost use Rattle.hum_engine.specs.Nets.{HasSent, SinkWaited, SinkActed, MayGo, IsRunning, IsAmong};
ghost use Rattle.hum_engine.specs.Nets.{HadFewEach, IsLinked};
ghost use Rattle.hum_engine.specs.Nets.{NetAt, AtEach, AreBegun, IsNet, RunsBy, WroteFront};
ghost use Rattle.hum_engine.specs.Nets.{MayAsk, HasCome, HasGivenOn, HasGone, AsksLittle};
ghost use Rattle.hum_engine.specs.Nets.{fault_by, turns_by, failed_by, MayStep, HasAdvanced, IsCloser};

use crate::link::Taken;
use crate::takers::takers_of;
use crate::web::{Moved, Web};
use crate::writing::write_record;
use hum_nodes::Node;
use hum_read::ReadError;
use hum_record::Record;
use hum_stage::Stage;
use hum_text::calls::{Sink, Source};
use hum_turns::{Order, RunResult, Side, choose};
use std::alloc::Global;

/// Nodes and links, what the last stage is written to, and the failure that has ended the run.
#[derive(Drop)]
pub struct Net<S, R, W> {
    web: Web<S, R>,
    sink: W,
    failure: Option<RunResult>,
    turns: u64,
    // a flag for each actor, which an order picks by
    actors: Vec<bool>,
    // who takes from each link
    takers: Vec<usize>,
}

impl<S: Stage + Drop, R: Source + Drop, W: Sink> Net<S, R, W> {
    // The sink's turn, if it is ready, but that it isn't counted. Tells whether the run is over.
    #[inline(always)]
    fn sink_turn(&mut self) -> Option<bool>
        requires none { self.old.failure ≡ None }
        requires may { Somewhere (IsAt S.Stage self.old.web) }
        ensures { MatchOption result (SinkWaited S.Stage self.old self.new)
            (SinkActed S.Stage R.Source W.Sink self.old self.new) }
    {
        match self.web.take_out() {
            Taken::Record(row) => return Some(self.send(row)),
            Taken::End(_) => match self.sink.flush() {
                Ok(()) => {}
                Err(_) => self.fail_to_write(),
            },
            Taken::Nothing => return None,
        }
        Some(true)
    }

    // Writes a record, and tells whether the run is over.
    #[inline(always)]
    fn send(&mut self, row: Record) -> bool
        ensures { HasSent W.Sink row self.old self.new result }
    {
        match write_record(&mut self.sink, &row) {
            Ok(()) => {
                self.web.keep(row);
                false
            }
            Err(_) => {
                self.fail_to_write();
                true
            }
        }
    }

    // A failed read, or running out of memory, ends the run. It happens once, so no turn has a place for it.
    #[inline(never)]
    fn fail(&mut self, k: usize, error: ReadError)
        requires { k < 255 }
        ensures { self.new ≡ record self.old { failure = Some (fault_by k error) } }
    {
        self.failure = Some(match error {
            ReadError::Read => RunResult::Read((k + 1) as u8),
            ReadError::Memory => RunResult::Memory,
        });
    }

    #[inline(never)]
    fn fail_to_write(&mut self)
        ensures { self.new ≡ record self.old { failure = Some ends.Write } }
    {
        self.failure = Some(RunResult::Write);
    }

    // Counts the turn of a stage, which tells what it has come to. A failure ends the run.
    #[inline(always)]
    fn settle(&mut self, k: usize, moved: Moved)
        requires number { k < 255 }
        requires few { self.old.turns < 2 ^ 64 - 1 }
        ensures { self.new ≡ record self.old {
          turns = turns_by moved self.old.turns;
          failure = failed_by k moved self.old.failure;
        } }
    {
        match moved {
            Moved::Waits => return,
            Moved::Failed(error) => self.fail(k, error),
            Moved::Gave | Moved::Filled | Moved::Took(_) | Moved::Heard(_) | Moved::Over => {}
        }
        self.turns += 1;
    }

    /// A net of nodes that were asked nothing yet, with links of this size, from 1 to 4,096.
    ///
    /// # Errors
    /// Out of memory, which hands the sink back.
    pub fn of_nodes(
        alloc: Global,
        nodes: Vec<Node<S, R>>,
        size: u16,
        sink: W,
    ) -> Result<Net<S, R, W>, W>
        requires few { length nodes.items < 256 }
        ensures ok { IfOk result (λ net. (s : Scene) (now : Now Row) → IsFirst now
            → IsNetPlan s.count s.kinds s.size → IsBegun S.Stage size nodes.items s
            → NetAt S.Stage W.Sink (W.contents sink) s net now) }
        ensures runs { IfOk result (λ net. (scene : (ℕ → List ℕ) → Scene)
            → AreBegun S.Stage size nodes.items scene → IsNet S.Stage W.Sink net) }
        ensures nodes { IfOk result (λ net. net.web.nodes ≡ nodes) }
        ensures sink { IfOk result (λ net. net.sink ≡ sink) }
        ensures failure { IfOk result (λ net. net.failure ≡ None) }
        ensures err { IfErr result (λ back. back ≡ sink) }
    {
        let Ok(actors) = vec![in alloc; false; nodes.len() + 1] else {
            return Err(sink);
        };
        let Ok(takers) = takers_of(alloc, &nodes) else {
            return Err(sink);
        };
        match Web::new(alloc, nodes, usize::from(size)) {
            Ok(web) => Ok(Net {
                web,
                sink,
                failure: None,
                turns: 0,
                actors,
                takers,
            }),
            Err(_) => Err(sink),
        }
    }

    // Sets the flag of each actor: whether it is ready.
    fn mark(&mut self)
        requires { IsRunning S.Stage W.Sink self.old }
        ensures same { self.new ≡ record self.old { actors = self.new.actors } }
        ensures len { length self.new.actors.items ≡ length self.old.actors.items }
        ensures list { AtEach S.Stage W.Sink self.old
            (λ start s now. self.new.actors.items ≡ ready_list (plan_of s) s.size now) }
    {
        for k in 0..self.actors.len() {
            let is = self.ready(k);
            self.actors[k] = is;
        }
    }

    // How a run ended that is over.
    #[inline(never)]
    fn told(&self) -> RunResult
        requires { IsRunning S.Stage W.Sink self.now }
        ensures { AtEach S.Stage W.Sink self.now
            (λ start s now. (by : RunResult) → ended (plan_of s) now ≡ Some by → result ≡ by) }
    {
        match self.result() {
            Some(result) => result,
            None => RunResult::Finished,
        }
    }

    // A turn of this actor, if it is ready.
    #[inline(always)]
    fn act(&mut self, k: usize) -> Moved
        requires { MayAsk S.Stage W.Sink k self.old }
        ensures { HasCome S.Stage R.Source W.Sink k self.old self.new result }
    {
        if k == self.web.count() {
            return self.act_sink(k);
        }
        let moved = self.web.turn(k);
        self.settle(k, moved);
        moved
    }

    // The same of the sink.
    #[inline(always)]
    fn act_sink(&mut self, k: usize) -> Moved
        requires ask { MayAsk S.Stage W.Sink k self.old }
        requires sink { k ≡ length self.old.web.nodes.items }
        ensures { HasCome S.Stage R.Source W.Sink k self.old self.new result }
    {
        let last = self.web.last();
        let Some(is_over) = self.sink_turn() else {
            return Moved::Waits;
        };
        self.turns += 1;
        if is_over {
            return Moved::Over;
        }
        Moved::Took(last)
    }

    // The turn of a stage whose link has room, if it gives or reads at once.
    #[inline(always)]
    fn give_on(&mut self, k: usize) -> Moved
        requires ask { MayAsk S.Stage W.Sink k self.old }
        requires room { HasRoom k self.old.web }
        ensures { HasGivenOn S.Stage R.Source W.Sink k self.old self.new result }
    {
        let moved = self.web.give_on(k);
        self.settle(k, moved);
        moved
    }

    /// One turn of an actor that is ready: a stage by its number, from 0, or the sink by the number of stages.
    /// Tells whether the run is over.
    pub fn turn(&mut self, k: usize) -> bool
        requires { MayGo S.Stage W.Sink k self.old }
        ensures gone { HasGone S.Stage R.Source W.Sink k self.old self.new result }
        ensures little { AsksLittle S.Stage R.Source W.Sink k self.old self.new }
    {
        match self.act(k) {
            Moved::Waits => unreachable!(),
            Moved::Gave => false,
            Moved::Filled => false,
            Moved::Took(_) => false,
            Moved::Heard(_) => false,
            Moved::Failed(_) => true,
            Moved::Over => true,
        }
    }

    /// Makes the turns that the order picks, to the end of the run.
    pub fn run<O: Order>(&mut self, order: &mut O) -> RunResult
        requires { IsNet S.Stage W.Sink self.old }
        ensures { RunsBy S.Stage R.Source W.Sink (order_of O.Order) order.old order.new self.old self.new result }
    {
        if self.over() {
            return self.told();
        }
        self.run_on(order);
        self.told()
    }

    // The run goes on, to its end.
    fn run_on<O: Order>(&mut self, order: &mut O)
        requires { MayStep S.Stage W.Sink looks.Unseen self.old }
        ensures { HasAdvanced S.Stage R.Source W.Sink (order_of O.Order) order.old order.new looks.Unseen
            looks.Unseen self.old self.new true }
    {
        match order.side() {
            Some(Side::Left) => {
                if self.is_row() {
                    self.run_from_left()
                } else {
                    self.run_tree_from_left()
                }
            }
            Some(Side::Right) => self.run_from_right(),
            None => self.run_by(order),
        }
    }

    // Whether each stage but those that read gives to the next actor.
    fn is_row(&self) -> bool {
        for (k, taker) in self.takers.iter().enumerate() {
            if *taker != k + 1 && !self.web.reads(k) {
                return false;
            }
        }
        true
    }

    // Makes the turns of the leftmost actor that is ready: nobody to the left of the one that is asked is.
    // All that a stage's turn calls stands in this loop, and the loop in no caller's.
    #[inline(never)]
    fn run_from_left(&mut self)
        requires { MayStep S.Stage W.Sink looks.Unseen self.old }
        ensures { HasAdvanced S.Stage R.Source W.Sink (leaning side.Left) tt tt looks.Unseen looks.Unseen self.old
            self.new true }
    {
        let mut k = 0;
        while let Some(next) = self.step_left(k, false) {
            k = next;
        }
    }

    // The same of a tree, in which nobody asks another branch in vain.
    #[inline(never)]
    fn run_tree_from_left(&mut self)
        requires { MayStep S.Stage W.Sink looks.Unseen self.old }
        ensures { HasAdvanced S.Stage R.Source W.Sink (leaning side.Left) tt tt looks.Unseen looks.Unseen self.old
            self.new true }
    {
        let mut k = 0;
        while let Some(next) = self.step_left(k, true) {
            k = next;
        }
    }

    // Asks an actor, and tells who is asked next; nobody, where the run is over.
    // Each arm counts its turn, so that what a turn has come to is looked at once.
    #[inline(always)]
    fn step_left(&mut self, k: usize, is_tree: bool) -> Option<usize>
        requires { MayStep S.Stage W.Sink (looks.FromLeft k) self.old }
        ensures advanced { HasAdvanced S.Stage R.Source W.Sink (leaning side.Left) tt tt (looks.FromLeft k)
            (left_at result) self.old self.new (is_none result) }
        ensures closer { IsCloser (looks.FromLeft k) (left_at result) self.old self.new (is_none result) }
    {
        if k == self.web.count() {
            return self.sink_left(k, is_tree);
        }
        match self.web.turn(k) {
            Moved::Waits => Some(k + 1),
            Moved::Filled => {
                self.turns += 1;
                Some(k + 1)
            }
            Moved::Gave => {
                self.turns += 1;
                Some(k)
            }
            Moved::Heard(link) => {
                self.turns += 1;
                Some(link)
            }
            // room has come on that link: most often its stage gives at once
            Moved::Took(link) => {
                self.turns += 1;
                self.give_left(link, k, is_tree)
            }
            Moved::Failed(error) => {
                self.turns += 1;
                self.fail(k, error);
                None
            }
            Moved::Over => None,
        }
    }

    // The same of the sink.
    #[inline(always)]
    fn sink_left(&mut self, k: usize, is_tree: bool) -> Option<usize>
        requires may { MayStep S.Stage W.Sink (looks.FromLeft k) self.old }
        requires sink { k ≡ length self.old.web.nodes.items }
        ensures advanced { HasAdvanced S.Stage R.Source W.Sink (leaning side.Left) tt tt (looks.FromLeft k)
            (left_at result) self.old self.new (is_none result) }
        ensures closer { IsCloser (looks.FromLeft k) (left_at result) self.old self.new (is_none result) }
    {
        match self.act_sink(k) {
            Moved::Waits => Some(k + 1),
            Moved::Filled => Some(k + 1),
            Moved::Gave => Some(k),
            Moved::Heard(link) => Some(link),
            Moved::Took(link) => self.give_left(link, k, is_tree),
            Moved::Failed(_) => None,
            Moved::Over => None,
        }
    }

    // The turn of a stage onto whose link room has come, if it gives at once: it was to be asked next. Where it has filled
    // its link again, nobody is ready to the left of who has taken from it.
    #[inline(always)]
    fn give_left(&mut self, k: usize, taker: usize, is_tree: bool) -> Option<usize>
        requires may { MayStep S.Stage W.Sink (looks.Beside k taker) self.old }
        requires room { HasRoom k self.old.web }
        ensures { HasAdvanced S.Stage R.Source W.Sink (leaning side.Left) tt tt (looks.Beside k taker)
            (left_at result) self.old self.new (is_none result) }
    {
        match self.give_on(k) {
            Moved::Filled => Some(taker),
            Moved::Failed(_) => None,
            Moved::Over => None,
            Moved::Waits => self.go_along(k, taker, is_tree),
            Moved::Gave => self.go_along(k, taker, is_tree),
            Moved::Took(_) => self.go_along(k, taker, is_tree),
            Moved::Heard(_) => self.go_along(k, taker, is_tree),
        }
    }

    // Tells who is asked next, where to the left of the taker only those may be ready whom what this stage gives reaches. Where others
    // stand between, these have their turns first.
    fn go_along(&mut self, k: usize, taker: usize, is_tree: bool) -> Option<usize>
        requires may { MayStep S.Stage W.Sink (looks.Along k taker) self.old }
        requires less { k < taker }
        ensures { HasAdvanced S.Stage R.Source W.Sink (leaning side.Left) tt tt (looks.Along k taker)
            (left_at result) self.old self.new (is_none result) }
    {
        if is_tree && k + 1 < taker {
            return self.feed(k, taker);
        }
        Some(k)
    }

    // Makes the turns of these and of those from whom they take, until none of them is ready. The taker is asked next. All that
    // a stage's turn calls stands here once more, so that it costs a row nothing.
    #[inline(never)]
    fn feed(&mut self, from: usize, taker: usize) -> Option<usize>
        requires { MayStep S.Stage W.Sink (looks.Along from taker) self.old }
        ensures { HasAdvanced S.Stage R.Source W.Sink (leaning side.Left) tt tt (looks.Along from taker)
            (left_at result) self.old self.new (is_none result) }
    {
        let mut k = from;
        while k < taker {
            match self.step_along(k, taker) {
                Some(next) => k = next,
                None => return None,
            }
        }
        Some(taker)
    }

    // Who takes from the link of a stage.
    fn taker(&self, k: usize) -> usize
        requires { k < length self.now.takers.items }
        ensures { slice_get self.now.takers.items k ≡ Some result }
    {
        self.takers[k]
    }

    // Asks one of these, and tells which is asked next.
    fn step_along(&mut self, k: usize, taker: usize) -> Option<usize>
        requires may { MayStep S.Stage W.Sink (looks.Along k taker) self.old }
        requires less { k < taker }
        ensures advanced { HasAdvanced S.Stage R.Source W.Sink (leaning side.Left) tt tt (looks.Along k taker)
            (along_at taker result) self.old self.new (is_none result) }
        ensures closer { IsCloser (looks.Along k taker) (along_at taker result) self.old self.new (is_none result) }
    {
        match self.act(k) {
            Moved::Waits => Some(self.taker(k)),
            Moved::Filled => Some(self.taker(k)),
            Moved::Gave => Some(k),
            Moved::Heard(link) => Some(link),
            Moved::Took(link) => self.give_along(link, taker),
            Moved::Failed(_) => None,
            Moved::Over => None,
        }
    }

    // The turn of a stage onto whose link room has come, if it gives at once: it was to be asked next.
    fn give_along(&mut self, k: usize, taker: usize) -> Option<usize>
        requires may { MayStep S.Stage W.Sink (looks.Along k taker) self.old }
        requires less { k < taker }
        requires room { HasRoom k self.old.web }
        ensures { HasAdvanced S.Stage R.Source W.Sink (leaning side.Left) tt tt (looks.Along k taker)
            (along_at taker result) self.old self.new (is_none result) }
    {
        match self.give_on(k) {
            Moved::Filled => Some(self.taker(k)),
            Moved::Failed(_) => None,
            Moved::Over => None,
            Moved::Waits => Some(k),
            Moved::Gave => Some(k),
            Moved::Took(_) => Some(k),
            Moved::Heard(_) => Some(k),
        }
    }

    // Makes the turns of the rightmost actor that is ready: nobody to the right of the one that is asked is.
    #[inline(never)]
    fn run_from_right(&mut self)
        requires { MayStep S.Stage W.Sink looks.Unseen self.old }
        ensures { HasAdvanced S.Stage R.Source W.Sink (leaning side.Right) tt tt looks.Unseen looks.Unseen self.old
            self.new true }
    {
        let mut k = self.web.count();
        while let Some(next) = self.step_right(k) {
            k = next;
        }
    }

    // The same from the right.
    #[inline(always)]
    fn step_right(&mut self, k: usize) -> Option<usize>
        requires { MayStep S.Stage W.Sink (looks.FromRight k) self.old }
        ensures advanced { HasAdvanced S.Stage R.Source W.Sink (leaning side.Right) tt tt (looks.FromRight k)
            (right_at result) self.old self.new (is_none result) }
        ensures closer { IsCloser (looks.FromRight k) (right_at result) self.old self.new (is_none result) }
    {
        match self.act(k) {
            Moved::Waits => Some(k - 1),
            Moved::Gave => Some(self.takers[k]),
            Moved::Filled => Some(self.takers[k]),
            Moved::Took(_) => Some(k),
            Moved::Heard(_) => Some(k),
            Moved::Failed(_) => None,
            Moved::Over => None,
        }
    }

    // Asks each actor before each turn.
    #[inline(never)]
    fn run_by<O: Order>(&mut self, order: &mut O)
        requires { MayStep S.Stage W.Sink looks.Unseen self.old }
        ensures { HasAdvanced S.Stage R.Source W.Sink (order_of O.Order) order.old order.new looks.Unseen
            looks.Unseen self.old self.new true }
    {
        while !self.step_by(order) {}
    }

    // One turn, of the actor that the order picks. Tells whether the run is over.
    fn step_by<O: Order>(&mut self, order: &mut O) -> bool
        requires { MayStep S.Stage W.Sink looks.Unseen self.old }
        ensures advanced { HasAdvanced S.Stage R.Source W.Sink (order_of O.Order) order.old order.new looks.Unseen
            looks.Unseen self.old self.new result }
        ensures closer { IsCloser looks.Unseen looks.Unseen self.old self.new result }
    {
        self.mark();
        let pick = order.pick(&self.actors);
        let actor = choose(&self.actors, pick);
        self.turn(actor)
    }

    /// How the run ended, once it has.
    pub fn result(&self) -> Option<RunResult>
        requires { IsRunning S.Stage W.Sink self.now }
        ensures { AtEach S.Stage W.Sink self.now (λ start s now. result ≡ ended (plan_of s) now) }
    {
        if let Some(failure) = self.failure {
            return Some(failure);
        }
        match self.web.heard() {
            Some(end) => Some(RunResult::from_end(end)),
            None => None,
        }
    }

    /// Whether an actor is ready: a stage, or the sink by the number of stages. Once the run has ended none is.
    pub fn ready(&self, k: usize) -> bool
        requires { IsAmong S.Stage W.Sink k self.now }
        ensures { AtEach S.Stage W.Sink self.now
            (λ start s now. k ≤ s.count → result ≡ is_ready (plan_of s) s.size now k) }
    {
        match self.result() {
            Some(_) => false,
            None => self.web.ready(k),
        }
    }

    /// The sink, as the turns left it: at each moment a prefix of the plan's text was written, however
    /// the bytes go on that are still to come.
    pub fn into_writer(self) -> W
        ensures sink { result ≡ self.sink }
        ensures front { AtEach S.Stage W.Sink self (λ start s now. WroteFront s start (W.contents result)) }
    {
        let Net {
            web: _web,
            sink,
            failure: _,
            turns: _,
            actors: _actors,
            takers: _takers,
        } = self;
        sink
    }

    /// How many turns were made: until a failure no more than the bytes, records and ends that were moved allow.
    pub fn turns(&self) -> u64
        ensures count { result ≡ self.now.turns }
        ensures turns { (start : Option (List ℕ)) (s : Scene) (now : Now Row)
            → (at : NetAt S.Stage W.Sink start s self.now now) → result ≡ length at.turns }
        ensures most { AtEach S.Stage W.Sink self.now
            (λ start s now. now.failure ≡ None → result ≤ most_in_all (plan_of s) now.links) }

        // Each actor has had no more of them than what it moved allows.
        ensures each { HadFewEach S.Stage W.Sink self.now }
    {
        self.turns
    }

    /// The stages and the sink.
    pub fn actors(&self) -> usize
        ensures count { result ≡ length self.now.actors.items }
        ensures stages { AtEach S.Stage W.Sink self.now (λ start s now. result ≡ s.count + 1) }
    {
        self.actors.len()
    }

    /// How many records lie on the link of an actor: those that it gave, less those taken. The sink has
    /// no link.
    pub fn linked(&self, k: usize) -> usize
        ensures { AtEach S.Stage W.Sink self.now (λ start s now. IsLinked s now k result) }
    {
        self.web.linked(k)
    }

    /// How many records wait inside an actor: none in a source or the sink.
    pub fn held(&self, k: usize) -> usize
        ensures held { AtEach S.Stage W.Sink self.now
            (λ start s now. now.failure ≡ None → k ≤ s.count → result ≡ held_of s now.links k) }

        // In a stage of one input at most one more than the greatest lag of its records, in assemble
        // at most one of each source.
        ensures few { AtEach S.Stage W.Sink self.now
            (λ start s now. now.failure ≡ None → HoldsFew s now.links k result) }
    {
        self.web.held(k)
    }

    /// How many bytes the records take that lie on links or wait inside stages, beside their own size: no more than
    /// what they say needs.
    pub fn room(&self) -> usize
        ensures { AtEach S.Stage W.Sink self.now
            (λ start s now. now.failure ≡ None → result ≤ rooms_of s now.links) }
    {
        self.web.room()
    }

    /// Whether the run has ended. Until then some actor is ready.
    #[inline(always)]
    pub fn over(&self) -> bool
        requires { IsRunning S.Stage W.Sink self.now }
        ensures progress { AtEach S.Stage W.Sink self.now
            (λ start s now. ended (plan_of s) now ≡ None → SomeReady (plan_of s) s.size now.links) }
        ensures over { AtEach S.Stage W.Sink self.now (λ start s now. result ≡ is_some (ended (plan_of s) now)) }
    {
        self.result().is_some()
    }
}
