//! A command that decides a record by some of those behind it.
ghost use Rattle.std.specs.Prelude.{◌≡◌, ◌<◌, ◌≤◌, List, [], OnOk, length};
ghost use Rattle.std.specs.VecDeque.{deque_len};
ghost use Rattle.hum_score.specs.Row.{Row};
ghost use Rattle.hum_record.specs.Room.{rooms_for};
ghost use Rattle.hum_words.specs.declared.commands.Command.{Command};
ghost use Rattle.hum_stage.specs.Meaning.{KeepsScore};
ghost use Rattle.hum_stage.specs.Look.{Look, IsSteady, looking};
ghost use Rattle.hum_stage.specs.Refusals.{IfAnswered};
ghost use Rattle.hum_stage.specs.Settles.{MayWait, HasWaited, HasSettled, Lasts, left_by};

use crate::MOST_WAITING;
use crate::faults::Refusal;
use hum_record::{Record, Spare};
use hum_words::Command;
use std::alloc::{AllocError, Global};
use std::collections::VecDeque;

/// What becomes of the first record that waits, unless it is refused.
pub enum Verdict {
    /// It is undecided.
    Waits,
    /// It is decided: it becomes this record, or none.
    Gives(Option<Record>),
}

/// A command that decides a record by some of those behind it, with what it remembers of the
/// records so far and of those that wait.
///
/// The stage round it, [`Lagging`](crate::Lagging), keeps the queue of those that wait and lends it
/// to each call. A record that is decided goes on waiting until those in front of it are gone.
pub trait LooksAhead {
    /// What it is told to do.
    type Options;

    /// What is kept of a record that waits.
    type Held: Drop;

    /// Which command it is.
    ghost command: { Command };

    /// What it decides by its options.
    ghost look: { Self.Options → Look };

    /// With what is kept of those that wait it stands for a command, the records before them, the
    /// newest first, and for them, in their order.
    ghost follows: { Self → List Self.Held → Look → List Row → List Row → Type 0 };

    /// Which command it is.
    fn command() -> Command
        ensures { result ≡ command };

    /// There were no records yet.
    fn begin(alloc: Global, options: Self::Options) -> Self
        // It stands for what the options say.
        ensures follows { follows result [] (look options) [] [] }

        // A record that is decided stays so, and in a closed score each is.
        ensures steady { IsSteady (look options) }

        // Of scores it makes scores.
        ensures keeps { KeepsScore (looking MOST_WAITING 0 command (look options)).outcomes };

    /// Takes one record more, behind those that wait, of which there are 65,536 at most.
    fn put(
        &mut self,
        next: Record,
        pool: &mut Spare,
        held: &mut VecDeque<Self::Held>,
    ) -> Result<(), AllocError>
        requires { MayWait MOST_WAITING (follows self.old held.old.items) next }
        ensures { OnOk result (HasWaited
            (follows self.old held.old.items) (follows self.new held.new.items) next) };

    /// Lets the first record that waits go, if it is decided. What is kept of it is then gone from
    /// the queue. A record that is dropped goes to the pool.
    ///
    /// # Errors
    /// The rule by which that record is refused; or out of memory.
    fn settle(
        &mut self,
        pool: &mut Spare,
        held: &mut VecDeque<Self::Held>,
    ) -> Result<Verdict, Refusal>
        requires filled { 0 < deque_len held.old }
        ensures fewer { IfAnswered result (λ v. deque_len held.old
            ≡ left_by v (deque_len held.new)) }
        ensures settles { IfAnswered result (HasSettled
            (follows self.old held.old.items) (follows self.new held.new.items)) };

    /// How many of those that wait stand before the first that is known to be refused.
    fn lasting(&self, held: &VecDeque<Self::Held>) -> usize
        ensures { Lasts (follows self.now held.now.items) result };

    /// How many bytes the records take that are kept of those that wait, beside their own size: no more than what
    /// they say needs.
    fn room(&self, held: &VecDeque<Self::Held>) -> usize
        ensures { (look : Look) (past rows : List Row) → follows self.now held.now.items look past rows
            → result ≤ rooms_for rows };

    /// Something is kept of each record that waits.
    ghost each: { (s : Self) (held : List Self.Held) (look : Look) (past rows : List Row)
        → follows s held look past rows → length held ≡ length rows };
}
