//! Nodes and their links.
ghost use Rattle.std.specs.Prelude.{◌≡◌, ◌≤◌, ◌<◌, ℕ, true, false, length};
ghost use Rattle.std.specs.Prelude.{IfOk, OnOk, Ok, ◌-◌};
ghost use Rattle.hum_turns.specs.Turns.{Gives, Takes, Ends, state, can, ready};
ghost use Rattle.hum_turns.specs.Plan.{last};
ghost use Rattle.hum_turns.specs.Near.{touched};
ghost use Rattle.hum_turns.specs.Links.{linked, IsOpening};
ghost use Rattle.hum_nodes.specs.At.{HoldsOneEach};
ghost use Rattle.hum_nodes.specs.Doing as does;
ghost use Rattle.hum_stage.specs.declared.faults.Readiness.TheVariants as kinds;
ghost use Rattle.hum_score.specs.Row.{Row};
ghost use Rattle.hum_engine.specs.Links.{taken_of, is_some_of};
ghost use Rattle.hum_engine.specs.declared.link.Taken.TheVariants as taken;
ghost use Rattle.hum_engine.specs.Told.{HasPolled, HasActed, ComesTo, GivesOn};
ghost use Rattle.hum_engine.specs.Scene.{Scene, plan_of, Somewhere, IsAt, IsActor, MayTurn, MayAct};
ghost use Rattle.hum_engine.specs.Scene.{IsKind, Keeps, Done, IsAbout};
ghost use Rattle.hum_engine.specs.Scene.{IsAboutKind, IsDoing, HasActor};
ghost use Rattle.hum_engine.specs.Scene.{IsBegun, Stands, HasStage, held_of, room_of, rooms_of, HasRoom, GivesAhead};

use crate::link::{Link, Taken};
use hum_nodes::Node;
use hum_read::ReadError;
use hum_record::{Record, Spare};
use hum_stage::{End, Readiness, Stage};
use hum_text::calls::Source;
use std::alloc::{AllocError, Global};

/// What the turn of a stage has come to.
#[derive(Clone, Copy)]
pub enum Moved {
    /// The stage isn't ready, and nothing has changed.
    Waits,
    /// It has changed its own link alone.
    Gave,
    /// It is a source, and what it gave has filled its link.
    Filled,
    /// It has taken a record from this link.
    Took(usize),
    /// It has heard the end on this link.
    Heard(usize),
    /// A read has failed, or memory ran out.
    Failed(ReadError),
    /// It is the sink, and the run is over.
    Over,
}

/// Nodes, and the link of each.
pub struct Web<S, R> {
    nodes: Vec<Node<S, R>>,
    links: Vec<Link>,
    // records that are done with, in which the next are made
    pool: Spare,
}

// Written out, so that a caller's proof sees one call and not the drop of each field.
impl<S: Drop, R: Drop> Drop for Web<S, R> {
    fn drop(self) {
        let Web {
            nodes: _nodes,
            links: _links,
            pool: _pool,
        } = self;
    }
}

impl<S: Stage + Drop, R: Source + Drop> Web<S, R> {
    /// Nodes that were asked nothing yet, each with a link of this size.
    ///
    /// # Errors
    /// Out of memory.
    pub fn new(alloc: Global, nodes: Vec<Node<S, R>>, size: usize) -> Result<Web<S, R>, AllocError>
        ensures stands { IfOk result (λ web. (s : Scene) → IsOpening s.links → IsBegun S.Stage size nodes.items s
            → Stands S.Stage web s) }
        ensures nodes { IfOk result (λ web. web.nodes ≡ nodes) }
    {
        let mut links = Vec::new(alloc);
        for _ in 0..nodes.len() {
            links.push(Link::new(alloc, size)?)?;
        }
        Ok(Web {
            nodes,
            links,
            pool: Spare::none(alloc),
        })
    }

    /// How many stages.
    pub fn count(&self) -> usize
        ensures { result ≡ length self.now.nodes.items }
    {
        self.nodes.len()
    }

    // A turn of a source, which changes its own link.
    #[inline(always)]
    fn poll(&mut self, k: usize) -> Moved
        requires turn { Somewhere (MayTurn S.Stage k self.old) }
        requires source { IsKind true k self.old }
        ensures { HasPolled S.Stage R.Source k self.old self.new result }
    {
        match self.nodes[k].next(&mut self.pool) {
            Some(row) => {
                self.links[k].push(row);
                if !self.links[k].has_room() {
                    return Moved::Filled;
                }
            }
            None => match self.nodes[k].stopped() {
                Some(Ok(end)) => self.links[k].end(end),
                Some(Err(error)) => return Moved::Failed(error),
                None => {}
            },
        }
        Moved::Gave
    }

    /// What the sink takes: the next record of the last stage, or its end, if there is anything.
    #[inline(always)]
    pub fn take_out(&mut self) -> Taken
        requires { Somewhere (IsAt S.Stage self.old) }
        ensures done { is_some_of result ≡ true → (s : Scene) → IsAt S.Stage self.old s
            → Done S.Stage s.count (Takes (last (plan_of s))) self.new s }
        ensures taken { (s : Scene) → IsAt S.Stage self.old s
            → result ≡ taken_of (s.links (last (plan_of s))).waiting (s.links (last (plan_of s))).mark }
        ensures room { (row : Row) → result ≡ taken.Record row
            → HasRoom (length self.old.links.items - 1) self.new }
        ensures links { length self.new.links.items ≡ length self.old.links.items }
        ensures nodes { self.new.nodes ≡ self.old.nodes }
        ensures same { result ≡ taken.Nothing → self.new ≡ self.old }
    {
        let last = self.links.len() - 1;
        self.links[last].take()
    }

    /// Keeps a record that is done with, for the next that is made.
    #[inline(always)]
    pub fn keep(&mut self, row: Record)
        ensures { self.new ≡ self.old }
    {
        self.pool.keep(row);
    }

    // A stage whose link has room gives the record that it has taken ahead.
    #[inline(always)]
    fn give_ahead(&mut self, k: usize)
        requires at { Somewhere (IsAt S.Stage self.old) }
        requires room { HasRoom k self.old }
        requires ahead { GivesAhead k self.old }
        ensures { HasActed S.Stage R.Source k self.old self.new (Ok k) }
    {
        let row = self.nodes[k].take_ahead();
        self.links[k].push(row);
    }

    // A stage gives a record onto its link.
    #[inline(always)]
    fn give(&mut self, k: usize) -> Result<(), AllocError>
        requires may { Somewhere (MayAct S.Stage k does.Gives self.old) }
        requires stage { IsKind false k self.old }
        ensures given { OnOk result ((s : Scene) → MayAct S.Stage k does.Gives self.old s
            → Done S.Stage k Gives self.new s) }
        ensures nodes { Keeps k self.old self.new }
    {
        if let Some(row) = self.nodes[k].take(&mut self.pool)? {
            self.links[k].push(row);
        }
        Ok(())
    }

    // A stage sets its end.
    fn finish(&mut self, k: usize, end: End)
        requires { Somewhere (MayAct S.Stage k (does.Done end) self.old) }
        ensures ended { (s : Scene) → MayAct S.Stage k (does.Done end) self.old s
            → Done S.Stage k Ends self.new s }
        ensures nodes { self.new.nodes ≡ self.old.nodes }
    {
        self.links[k].end(end);
    }

    // A stage that has done all sets its end. It happens once, so the end has no place where each record
    // passes.
    #[inline(never)]
    fn close(&mut self, k: usize)
        requires turn { Somewhere (MayTurn S.Stage k self.old) }
        requires done { IsDoing S.Stage k self.old kinds.Done }
        ensures done { (s : Scene) → MayTurn S.Stage k self.old s
            → Done S.Stage k (state (plan_of s) s.links k) self.new s }
        ensures link { (s : Scene) → IsActor S.Stage k self.old s → k ≡ touched k (state (plan_of s) s.links k) }
        ensures nodes { Keeps k self.old self.new }
    {
        if let Some(end) = self.nodes[k].end() {
            self.finish(k, end);
        }
    }

    // A stage takes from the link of the source that it wants from, if there is anything.
    #[inline(always)]
    fn pass(&mut self, k: usize) -> Moved
        requires about { (place : ℕ) × Somewhere (IsAbout S.Stage k (does.Wants place) self.old) }
        requires stage { IsKind false k self.old }
        ensures { ComesTo S.Stage R.Source k self.old self.new result }
    {
        let node = &mut self.nodes[k];
        let source = node.source();
        match self.links[source].take() {
            Taken::Record(row) => match node.put(row, &mut self.pool) {
                Ok(()) => Moved::Took(source),
                Err(_) => Moved::Failed(ReadError::Memory),
            },
            Taken::End(end) => {
                node.stop(end);
                Moved::Heard(source)
            }
            Taken::Nothing => Moved::Waits,
        }
    }

    /// The turn of a stage, if it is ready.
    #[inline(always)]
    pub fn turn(&mut self, k: usize) -> Moved
        requires { Somewhere (HasActor S.Stage k self.old) }
        ensures { ComesTo S.Stage R.Source k self.old self.new result }
    {
        if !self.nodes[k].gives_ahead() {
            return self.turn_by_readiness(k);
        }
        if !self.links[k].has_room() {
            return Moved::Waits;
        }
        self.give_ahead(k);
        Moved::Gave
    }

    // The same, by what it does next.
    #[inline(always)]
    fn turn_by_readiness(&mut self, k: usize) -> Moved
        requires { Somewhere (HasActor S.Stage k self.old) }
        ensures { ComesTo S.Stage R.Source k self.old self.new result }
    {
        let node = &self.nodes[k];
        if node.is_source() {
            if !self.may_read(k) {
                return Moved::Waits;
            }
            return self.poll(k);
        }
        match node.readiness() {
            Readiness::Wants => self.pass(k),
            Readiness::Gives => {
                if !self.links[k].has_room() {
                    return Moved::Waits;
                }
                match self.give(k) {
                    Ok(()) => Moved::Gave,
                    Err(_) => Moved::Failed(ReadError::Memory),
                }
            }
            Readiness::Done => {
                if !self.links[k].is_unset() {
                    return Moved::Waits;
                }
                self.close(k);
                Moved::Gave
            }
        }
    }

    // Whether a stage that isn't a source can do this.
    #[inline(always)]
    fn can(&self, k: usize, kind: Readiness) -> bool
        requires about { Somewhere (IsAboutKind S.Stage k kind self.now) }
        requires stage { IsKind false k self.now }
        ensures { (s : Scene) → IsAboutKind S.Stage k kind self.now s
            → result ≡ can s.size s.links k (state (plan_of s) s.links k) }
    {
        match kind {
            Readiness::Gives => self.links[k].has_room(),
            Readiness::Done => self.links[k].is_unset(),
            // while it wants more, it hasn't heard the end
            Readiness::Wants => {
                let source = self.nodes[k].source();
                self.links[source].has_more()
            }
        }
    }

    // Whether a source may read.
    #[inline(always)]
    fn may_read(&self, k: usize) -> bool
        requires stage { Somewhere (HasActor S.Stage k self.now) }
        requires source { IsKind true k self.now }
        ensures { (s : Scene) → HasActor S.Stage k self.now s → result ≡ ready (plan_of s) s.size s.links k }
    {
        self.links[k].is_unset() && self.links[k].has_room()
    }

    /// The turn of a stage whose link has room, if it has taken the record ahead that it gives next, or reads
    /// bytes and isn't at their end. Else it may be ready still, and nothing has changed.
    #[inline(always)]
    pub fn give_on(&mut self, k: usize) -> Moved
        requires at { Somewhere (IsAt S.Stage self.old) }
        requires room { HasRoom k self.old }
        ensures { GivesOn S.Stage R.Source k self.old self.new result }
    {
        if self.nodes[k].gives_ahead() {
            self.give_ahead(k);
            return Moved::Gave;
        }
        if self.nodes[k].is_source() && self.links[k].is_unset() {
            return self.poll(k);
        }
        Moved::Waits
    }

    /// Whether an actor is ready.
    #[inline(always)]
    pub fn ready(&self, k: usize) -> bool
        requires { Somewhere (IsActor S.Stage k self.now) }
        ensures { (s : Scene) → IsActor S.Stage k self.now s → result ≡ ready (plan_of s) s.size s.links k }
    {
        if k == self.nodes.len() {
            return self.links[k - 1].has_some();
        }
        let node = &self.nodes[k];
        if node.is_source() {
            return self.may_read(k);
        }
        self.can(k, node.readiness())
    }

    /// The number of the last stage, whose link the sink takes from.
    pub fn last(&self) -> usize
        requires { Somewhere (IsAt S.Stage self.now) }
        ensures last { (s : Scene) → IsAt S.Stage self.now s → result ≡ last (plan_of s) }
        ensures place { result ≡ length self.now.links.items - 1 }
    {
        self.links.len() - 1
    }

    /// Whether a stage reads bytes; not where there is no such stage.
    pub fn reads(&self, k: usize) -> bool
        ensures { IsKind result k self.now }
    {
        if k >= self.nodes.len() {
            return false;
        }
        self.nodes[k].is_source()
    }

    /// How many records lie on the link of a stage; none where there is no such stage.
    pub fn linked(&self, k: usize) -> usize
        ensures stage { (s : Scene) → HasStage S.Stage k self.now s
            → (result ≡ linked (s.links k)) × (result ≤ s.size) }
        ensures none { length self.now.links.items ≤ k → result ≡ 0 }
    {
        if k >= self.links.len() {
            return 0;
        }
        self.links[k].len()
    }

    /// How many records wait inside a stage: none in a source, and none where there is no such stage.
    pub fn held(&self, k: usize) -> usize
        ensures held { (s : Scene) → HasStage S.Stage k self.now s → result ≡ held_of s s.links k }
        ensures few { (s : Scene) → HasStage S.Stage k self.now s
            → HoldsOneEach (s.kinds k) (length (s.kinds k).stage.sources) result }
        ensures none { length self.now.nodes.items ≤ k → result ≡ 0 }
    {
        if k >= self.nodes.len() {
            return 0;
        }
        let node = &self.nodes[k];
        if node.is_source() {
            return 0;
        }
        node.held()
    }

    // How many bytes the records take that lie on the link of a stage or wait inside it; none where there is no such
    // stage.
    fn room_at(&self, k: usize) -> usize
        ensures { (s : Scene) → HasStage S.Stage k self.now s → result ≤ room_of s s.links k }
    {
        if k >= self.nodes.len() || k >= self.links.len() {
            return 0;
        }
        let node = &self.nodes[k];
        let waiting = self.links[k].room();
        if node.is_source() {
            return waiting;
        }
        waiting.saturating_add(node.room())
    }

    /// How many bytes the records take that lie on links or wait inside stages, beside their own size: no more than
    /// what they say needs.
    pub fn room(&self) -> usize
        ensures { (s : Scene) → Stands S.Stage self.now s → result ≤ rooms_of s s.links }
    {
        let mut room: usize = 0;
        for k in 0..self.nodes.len() {
            room = room.saturating_add(self.room_at(k));
        }
        room
    }

    /// The end that the sink has heard.
    pub fn heard(&self) -> Option<End>
        requires { Somewhere (IsAt S.Stage self.now) }
        ensures { (s : Scene) → IsAt S.Stage self.now s → result ≡ (s.links (last (plan_of s))).heard }
    {
        let last = self.links.len() - 1;
        self.links[last].heard()
    }
}
