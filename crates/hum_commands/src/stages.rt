//! The commands of one input, in one list, and their stages.
ghost use Rattle.hum_stage.specs.Meaning.{opening, KeepsScore, IsWithinLag};
ghost use Rattle.hum_commands.specs.Meaning.{meaning, MakesScores, most_lag};

use crate::seen::IsSeen;
use hum_choices::CommandOptions;
use hum_cleave::Cleave;
use hum_context::Context;
use hum_ditto::Ditto;
use hum_extract::Extract;
use hum_record::{Record, Spare};
use hum_rid::Rid;
use hum_stage::{End, Readiness, Stage, State};
use hum_timebase::Timebase;
use hum_tones::{Mint, Recip, Semits, Trans};
use hum_yank::Yank;
use std::alloc::{AllocError, Global};

/// The stage of a command of one input.
pub enum CommandStage {
    Rid(Rid),
    Extract(Extract),
    Ditto(Ditto),
    Timebase(Timebase),
    Context(Context),
    Trans(Trans),
    Semits(Semits),
    Mint(Mint),
    Recip(Recip),
    Yank(Yank),
    Cleave(Cleave),
}

// The same of each command's stage.
macro_rules! each {
    ($all:expr, $stage:ident => $call:expr) => {
        match $all {
            CommandStage::Rid($stage) => $call,
            CommandStage::Extract($stage) => $call,
            CommandStage::Ditto($stage) => $call,
            CommandStage::Timebase($stage) => $call,
            CommandStage::Context($stage) => $call,
            CommandStage::Trans($stage) => $call,
            CommandStage::Semits($stage) => $call,
            CommandStage::Mint($stage) => $call,
            CommandStage::Recip($stage) => $call,
            CommandStage::Yank($stage) => $call,
            CommandStage::Cleave($stage) => $call,
        }
    };
}

// Written out, so that a caller's proof sees one call and not the drop of each command's stage.
impl Drop for CommandStage {
    fn drop(self) {
        each!(self, _stage => {})
    }
}

impl IsSeen for CommandStage {
    ghost use Rattle.hum_commands.specs.declared.stages.CommandStage.TheVariants as stage;

    ghost seen = { elim [
      | stage.Rid s ↦ ⟦<Rid as IsSeen>⟧.seen s
      | stage.Extract s ↦ ⟦<Extract as IsSeen>⟧.seen s
      | stage.Ditto s ↦ ⟦<Ditto as IsSeen>⟧.seen s
      | stage.Timebase s ↦ ⟦<Timebase as IsSeen>⟧.seen s
      | stage.Context s ↦ ⟦<Context as IsSeen>⟧.seen s
      | stage.Trans s ↦ ⟦<Trans as IsSeen>⟧.seen s
      | stage.Semits s ↦ ⟦<Semits as IsSeen>⟧.seen s
      | stage.Mint s ↦ ⟦<Mint as IsSeen>⟧.seen s
      | stage.Recip s ↦ ⟦<Recip as IsSeen>⟧.seen s
      | stage.Yank s ↦ ⟦<Yank as IsSeen>⟧.seen s
      | stage.Cleave s ↦ ⟦<Cleave as IsSeen>⟧.seen s
    ] };
}

impl CommandStage {
    /// The stage of this number, from 1, that is told to do so.
    pub fn new(alloc: Global, number: u8, options: CommandOptions) -> CommandStage
        // It stands for what the options say, with nothing put yet.
        ensures stands { ⟦<CommandStage as Stage>⟧.stands result
            (opening (meaning number options)) }

        // Of scores it makes scores.
        ensures keeps { MakesScores options → KeepsScore (meaning number options).outcomes }

        // What it holds of records that were put when it wanted them: one at most, or 65,537.
        ensures within { IsWithinLag (most_lag options) (meaning number options) }
    {
        match options {
            CommandOptions::Rid(told) => CommandStage::Rid(Rid::new(alloc, number, told)),
            CommandOptions::Extract(told) => CommandStage::Extract(Extract::new(
                alloc, number, told,
            )),
            CommandOptions::Ditto(told) => CommandStage::Ditto(Ditto::new(alloc, number, told)),
            CommandOptions::Timebase(told) => CommandStage::Timebase(Timebase::new(
                alloc, number, told,
            )),
            CommandOptions::Context(told) => CommandStage::Context(Context::new(
                alloc, number, told,
            )),
            CommandOptions::Trans(told) => CommandStage::Trans(Trans::new(alloc, number, told)),
            CommandOptions::Semits(told) => CommandStage::Semits(Semits::new(alloc, number, told)),
            CommandOptions::Mint(told) => CommandStage::Mint(Mint::new(alloc, number, told)),
            CommandOptions::Recip(told) => CommandStage::Recip(Recip::new(alloc, number, told)),
            CommandOptions::Yank(told) => CommandStage::Yank(Yank::new(alloc, number, told)),
            CommandOptions::Cleave(told) => CommandStage::Cleave(Cleave::new(alloc, number, told)),
        }
    }
}

impl Stage for CommandStage {
    ghost stands = { λ s. (⟦<CommandStage as IsSeen>⟧.seen s).stands };

    ghost left = { λ s. (⟦<CommandStage as IsSeen>⟧.seen s).left };

    ghost spent = { λ s. (⟦<CommandStage as IsSeen>⟧.seen s).spent };

    ghost within = { λ s t h. (⟦<CommandStage as IsSeen>⟧.seen s).within t h };

    ghost lawful = { λ s t h. (⟦<CommandStage as IsSeen>⟧.seen s).lawful t h };

    #[inline(always)]
    fn put_with(
        &mut self,
        next: Record,
        pool: &mut Spare,
        may_take: bool,
        first: &mut Option<Record>,
    ) -> Result<Readiness, AllocError> {
        each!(self, stage => stage.put_with(next, pool, may_take, first))
    }

    #[inline(always)]
    fn take_with(&mut self, pool: &mut Spare) -> Result<(Option<Record>, Readiness), AllocError> {
        each!(self, stage => stage.take_with(pool))
    }

    fn end(&mut self, end: End) {
        each!(self, stage => stage.end(end))
    }

    fn state(&self) -> State {
        each!(self, stage => stage.state())
    }

    fn held(&self) -> usize {
        each!(self, stage => stage.held())
    }

    fn room(&self) -> usize {
        each!(self, stage => stage.room())
    }

    fn alloc(&self) -> Global {
        each!(self, stage => stage.alloc())
    }
}
