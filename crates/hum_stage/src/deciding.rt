//! A command that decides each record at once.
ghost use Rattle.std.specs.Prelude.{◌≡◌, true, [], List, Result};
ghost use Rattle.hum_score.specs.Row.{Row};
ghost use Rattle.hum_words.specs.declared.commands.Command.{Command};
ghost use Rattle.hum_stage.specs.Meaning.{KeepsScore};
ghost use Rattle.hum_stage.specs.Decided.{Decision, at_once, MayStep, HasStepped, Leaves};
ghost use Rattle.hum_stage.specs.Refusals.{IfTold};

use crate::due::DueRecords;
use crate::faults::Refusal;
use hum_record::{Record, Spare};
use hum_words::Command;
use std::alloc::Global;

/// A command that decides each record at once, with what it remembers of the records so far.
pub trait Decides {
    /// What it is told to do.
    type Options;

    /// How the records are held that a record becomes.
    type Due: DueRecords;

    /// Which command it is.
    ghost command: { Command };

    /// What it decides by its options: of the records so far, the newest first, and the next one.
    ghost decide: { Self.Options → Decision };

    /// Options with which it makes scores of scores.
    ghost keeps: { Self.Options → Type 0 } = { λ _. Unit {0} };

    /// It stands for these records, the newest first, of which a command decides in this way.
    ghost follows: { Self → Decision → List Row → Type 0 };

    /// Which command it is.
    fn command() -> Command
        ensures { result ≡ command };

    /// No record has passed yet.
    fn begin(alloc: Global, options: Self::Options) -> Self
        // It stands for what the options say.
        ensures follows { follows result (decide options) [] }

        // Of scores it makes scores.
        ensures keeps { keeps options → KeepsScore (at_once 0 command (decide options)).outcomes };

    /// Whether the next record becomes itself, and nothing has to be remembered of it. What takes long to find
    /// out isn't told.
    fn leaves(&self, _next: &Record) -> bool
        ensures { result ≡ true → Leaves (follows self.now) _next.now }
    {
        false
    }

    /// Puts what the next record becomes where nothing is due. There is room for so many records: a
    /// command that would give more may stop and refuse by L2. A record that it is done with goes to the pool.
    ///
    /// # Errors
    /// The rule by which the record is refused; or out of memory.
    fn step(
        &mut self,
        next: Record,
        room: u64,
        pool: &mut Spare,
        out: &mut Self::Due,
    ) -> Result<(), Refusal>
        requires score { MayStep (follows self.old) next }
        requires empty { Self.Due.rows out.old ≡ [] }
        ensures { IfTold result
            (HasStepped (follows self.old) (follows self.new) next room (Self.Due.rows out.new)) };
}
