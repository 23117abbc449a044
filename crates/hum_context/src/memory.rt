//! What context remembers of the records that wait.
ghost use Rattle.std.specs.Prelude.{◌≡◌, ◌+◌, ◌<◌, ◌≤◌, [], ◌∷◌, List, drop, slice_get, Some, None};
ghost use Rattle.std.specs.Prelude.{IfOk, OnOk};
ghost use Rattle.std.specs.VecDeque.{deque_len};
ghost use Rattle.hum_score.specs.Row.{Row};
ghost use Rattle.hum_score.specs.Spines.{Path, Unopened, after, width};
ghost use Rattle.hum_score.specs.Rules.{fault_of};
ghost use Rattle.hum_context.specs.{Options.choice_of, Walking.AllStand};
ghost use Rattle.hum_context.specs.Queue.{Known, Knows, LeadsBelow};
ghost use Rattle.hum_context.specs.declared.queued.Queued.{Queued};

use crate::becoming::{advance, write};
use crate::below::Below;
use crate::heard::{SpareHeard, wanted};
use crate::held::HeldRecord;
use crate::lasting::lasting;
use crate::linking::link;
use crate::queued::Queued;
use crate::sharing::{share, shorten};
use crate::text::Text;
use crate::walk::Walk;
use hum_choices::ContextOptions;
use hum_path::{MOST_SPINES, Paths};
use hum_record::{Kind, Record, Spare};
use hum_stage::{Command, LooksAhead, MOST_RECORDS, Refusal, Rule, Verdict};
use std::alloc::{AllocError, Global};
use std::collections::VecDeque;
use std::mem;

/// The options, the spines, and the walks from the first record that waits.
#[derive(Drop)]
pub struct Collecting {
    alloc: Global,
    options: ContextOptions,
    paths: Paths,
    // how many records are gone
    gone: u64,
    // from each cell of the first record that waits, as far as they are known
    walks: Vec<Walk>,
    // the same list in the making
    next: Vec<Walk>,
    // where a new token is made
    text: Text,
    // lists of what was heard of records that are gone
    spare_heard: SpareHeard,
}

/// Where the spines under a record go, if it may move them. Only an interpretation is followed: under
/// others each spine stays.
fn below_row(alloc: Global, paths: &mut Paths, row: &Record) -> Result<Below, AllocError>
    requires valid { fault_of paths.old.path row.now ≡ None }
    requires narrow { width (after paths.old.path row.now) ≤ MOST_SPINES }
    ensures after { OnOk result (paths.new.path ≡ after paths.old.path row.now) }
    ensures below { IfOk result (LeadsBelow paths.old.path row.now) }
{
    match row.kind() {
        Kind::Interpretation => {
            let found = paths.follow(row)?;
            let below = Below::by(alloc, &found)?;
            Ok(below)
        }
        Kind::Values => Ok(Below::Same(0)),
        Kind::Local => Ok(Below::Same(0)),
        Kind::Global => Ok(Below::Same(0)),
    }
}

impl LooksAhead for Collecting {
    type Options = ContextOptions;

    type Held = Queued;

    ghost use Rattle.hum_words.specs.declared.commands.Command.TheVariants.{Context};
    ghost use Rattle.hum_context.specs.{Context.context, Options.choice_of};

    ghost command = { Context };

    ghost look = { λ options. context (choice_of options) };

    ghost use Rattle.hum_context.specs.Memory.{Follows};

    ghost follows = { λ s held. Follows (choice_of s.options) s.paths.path s.gone s.walks.items
        held };

    ghost use Rattle.hum_context.specs.Memory.{follows_each};

    ghost each = { λ s held look past rows h. follows_each _ _ _ _ held look past rows h };

    fn command() -> Command {
        Command::Context
    }

    fn begin(alloc: Global, options: ContextOptions) -> Collecting {
        Collecting::new(alloc, options)
    }

    fn put(
        &mut self,
        next: Record,
        _pool: &mut Spare,
        held: &mut VecDeque<Queued>,
    ) -> Result<(), AllocError> {
        let below = below_row(self.alloc, &mut self.paths, &next)?;
        let queued = Queued::new(
            self.alloc,
            &mut self.options,
            next,
            below,
            &mut self.spare_heard,
        )?;
        held.push_back(queued)?;
        Ok(())
    }

    fn settle(
        &mut self,
        pool: &mut Spare,
        held: &mut VecDeque<Queued>,
    ) -> Result<Verdict, Refusal> {
        // no score has more records
        if self.gone.saturating_add(held.len() as u64) > MOST_RECORDS {
            return Ok(Verdict::Waits);
        }
        if held[0].is_quiet() {
            let row = self.let_go(held)?;
            return Ok(Verdict::Gives(Some(row.into_record(self.alloc)?)));
        }
        let wanted = wanted(&self.options.span);
        let known = advance(held, self.gone, &mut self.walks, wanted)?;
        link(held, self.gone, &mut self.walks, wanted)?;
        if !known {
            return Ok(Verdict::Waits);
        }
        let Some(made) = write(
            self.alloc,
            held,
            self.gone,
            &self.walks,
            wanted,
            &mut self.text,
            pool,
        )?
        else {
            return Err(Refusal::Rule(Rule::L1));
        };
        let row = self.let_go(held)?;
        if let Some(row) = row.whole() {
            pool.keep(row);
        }
        Ok(Verdict::Gives(Some(made)))
    }

    fn lasting(&self, held: &VecDeque<Queued>) -> usize {
        // no score has more records
        if held.len() as u64 > MOST_RECORDS {
            return 0;
        }
        lasting(held, wanted(&self.options.span))
    }

    // The records alone: what is heard of their tokens and where their spines go isn't counted.
    fn room(&self, held: &VecDeque<Queued>) -> usize {
        let mut room: usize = 0;
        for kept in held {
            room = room.saturating_add(kept.row.room());
        }
        room
    }
}

impl Collecting {
    /// There were no records yet.
    fn new(alloc: Global, options: ContextOptions) -> Collecting
        ensures options { result.options ≡ options }
        ensures path { result.paths.path ≡ Unopened }
        ensures walks { result.walks.items ≡ [] }
        ensures gone { result.gone ≡ 0 }
    {
        Collecting {
            alloc,
            options,
            paths: Paths::new(alloc),
            gone: 0,
            walks: Vec::new(alloc),
            next: Vec::new(alloc),
            text: Text::none(alloc),
            spare_heard: SpareHeard::none(alloc),
        }
    }

    /// The walks from the cells of the first record that waits become those from the cells below.
    fn pass_on(&mut self, kept: &Queued) -> Result<(), AllocError>
        ensures kept { OnOk result
            (self.new ≡ record self.old { walks = self.new.walks; next = self.new.next }) }
        ensures stand { OnOk result ((path : Path) (row : Row) (rows : List Row)
            → Known (choice_of self.old.options) path row kept.now
            → AllStand (choice_of self.old.options) path self.old.gone (row ∷ rows)
            self.old.walks.items
            → AllStand (choice_of self.old.options) (after path row) (self.old.gone + 1) rows
            self.new.walks.items) }
    {
        if kept.is_still() {
            return Ok(());
        }
        let wanted = wanted(&self.options.span);
        if kept.keeps_columns() {
            shorten(&mut self.walks, kept, wanted);
            return Ok(());
        }
        self.next.clear();
        share(&self.walks, kept, wanted, &mut self.next)?;
        mem::swap(&mut self.walks, &mut self.next);
        Ok(())
    }

    /// The first record that waits is gone.
    fn let_go(&mut self, held: &mut VecDeque<Queued>) -> Result<HeldRecord, AllocError>
        requires few { self.old.gone < MOST_RECORDS }
        requires some { 0 < deque_len held.old }
        ensures kept { OnOk result (self.new ≡ record self.old {
          gone = self.new.gone;
          walks = self.new.walks;
          next = self.new.next;
          spare_heard = self.new.spare_heard;
        }) }
        ensures gone { OnOk result (self.new.gone ≡ self.old.gone + 1) }
        ensures stand { OnOk result ((path : Path) (row : Row) (rows : List Row)
            → Knows (choice_of self.old.options) path held.old.items (row ∷ rows)
            → AllStand (choice_of self.old.options) path self.old.gone (row ∷ rows)
            self.old.walks.items
            → AllStand (choice_of self.old.options) (after path row) self.new.gone rows
            self.new.walks.items) }
        ensures held { OnOk result (held.new.items ≡ drop 1 held.old.items) }
        ensures row { IfOk result (λ row. (kept : Queued) → slice_get held.old.items 0 ≡ Some kept
            → row ≡ kept.row) }
    {
        let Some(kept) = held.pop_front() else {
            unreachable!()
        };
        self.pass_on(&kept)?;
        self.gone += 1;
        let Queued { row, heard, .. } = kept;
        self.spare_heard.keep(heard);
        Ok(row)
    }
}
