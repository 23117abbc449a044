//! The command ditto: null data tokens become the tokens that they repeat.
//!
//! A null data token (`.`) stands for the last data token of its spine (Humdrum Toolkit: Reference
//! Manual, `ditto`). The spine is followed through splits, joins and exchanges, back to its nearest
//! exclusive interpretation.
#![tactic(auto)]

ghost use Rattle.std.specs.Prelude.{◌≡◌, ◌≤◌, length, OnOk};
ghost use Rattle.std.specs.Option.{option_to_list};
ghost use Rattle.hum_score.specs.declared.records.Kind.TheVariants.{Values};
ghost use Rattle.hum_score.specs.Row.{kind_of, text_of};
ghost use Rattle.hum_score.specs.Spelling.{IsTextOf};
ghost use Rattle.hum_stage.specs.Decided.{MayStep, HasStepped};
ghost use Rattle.hum_stage.specs.Refusals.{IfTold};
ghost use Rattle.hum_ditto.specs.Memory.{Follows, HasRemembered};
ghost use Rattle.hum_ditto.specs.Held.{IsGivenFor};

mod filling;
mod last_seen;
mod memory;

use filling::{has_null, rebuilt};
pub use hum_choices::DittoOptions;
use hum_path::Paths;
use hum_record::{Kind, Record, Spare};
use hum_stage::{AtOnce, Command, Decides, Refusal, Rule};
use memory::LastTokens;
use std::alloc::{AllocError, Global};
use std::mem::{forget, replace};

/// The spines, and what is remembered of each.
#[derive(Drop)]
pub struct Repeats {
    alloc: Global,
    paths: Paths,
    memory: LastTokens,
    // where a token is written in parentheses
    shown: Vec<u8>,
}

impl Repeats {
    /// Remembers a data record, and what it became. Where one is held the spines needn't be asked.
    #[inline(always)]
    fn remember(&mut self, row: &Record, given: &Record, pool: &mut Spare) -> Result<(), AllocError>
        requires score { MayStep
            (Follows self.old.memory.options self.old.paths.path self.old.memory.each) row.now }
        requires kind { kind_of row.now ≡ Values }
        requires lawful { IsTextOf row.now (text_of row.now) }
        requires given { IsGivenFor self.old.memory row.now given.now }
        ensures { OnOk result (HasRemembered
            (Follows self.old.memory.options self.old.paths.path self.old.memory.each)
            (Follows self.new.memory.options self.new.paths.path self.new.memory.each) row.now) }
    {
        if self.memory.see(row, given) {
            return Ok(());
        }
        self.remember_any(row, given, pool)
    }

    /// The same of any record.
    fn remember_any(
        &mut self,
        row: &Record,
        given: &Record,
        pool: &mut Spare,
    ) -> Result<(), AllocError>
        requires score { MayStep
            (Follows self.old.memory.options self.old.paths.path self.old.memory.each) row.now }
        requires given { IsGivenFor self.old.memory row.now given.now }
        ensures { OnOk result (HasRemembered
            (Follows self.old.memory.options self.old.paths.path self.old.memory.each)
            (Follows self.new.memory.options self.new.paths.path self.new.memory.each) row.now) }
    {
        let found = self.paths.follow(row)?;
        self.memory.follow(row, given, found, pool)
    }

    /// Puts what a data record becomes.
    fn step_data(
        &mut self,
        next: Record,
        _room: u64,
        pool: &mut Spare,
        out: &mut Option<Record>,
    ) -> Result<(), Refusal>
        requires score { MayStep
            (Follows self.old.memory.options self.old.paths.path self.old.memory.each) next }
        requires kind { kind_of next ≡ Values }
        requires lawful { IsTextOf next (text_of next) }
        requires at_most { length (text_of next) ≤ 1048576 }
        ensures { IfTold result (HasStepped
            (Follows self.old.memory.options self.old.paths.path self.old.memory.each)
            (Follows self.new.memory.options self.new.paths.path self.new.memory.each)
            next _room (option_to_list out.new)) }
    {
        if !has_null(&next) {
            self.remember(&next, &next, pool)?;
            forget(replace(out, Some(next)));
            return Ok(());
        }
        let rebuilt = rebuilt(self.alloc, &next, &self.memory, &mut self.shown, pool)?;
        match rebuilt {
            Some(made) => {
                self.remember(&next, &made, pool)?;
                forget(replace(out, Some(made)));
                pool.keep(next);
                Ok(())
            }
            None => Err(Refusal::Rule(Rule::L1)),
        }
    }
}

impl Decides for Repeats {
    type Options = DittoOptions;

    type Due = Option<Record>;

    ghost use Rattle.hum_words.specs.declared.commands.Command.TheVariants.{Ditto as DittoCommand};
    ghost use Rattle.hum_ditto.specs.Ditto.{ditto};
    ghost use Rattle.hum_ditto.specs.Memory.{Follows};

    ghost command = { DittoCommand };

    ghost decide = { ditto };

    ghost follows = { λ s. Follows s.memory.options s.paths.path s.memory.each };

    fn command() -> Command {
        Command::Ditto
    }

    fn begin(alloc: Global, options: DittoOptions) -> Repeats {
        Repeats {
            alloc,
            paths: Paths::new(alloc),
            memory: LastTokens::new(alloc, options),
            shown: Vec::new(alloc),
        }
    }

    fn step(
        &mut self,
        next: Record,
        _room: u64,
        pool: &mut Spare,
        out: &mut Option<Record>,
    ) -> Result<(), Refusal> {
        match next.kind() {
            Kind::Values => self.step_data(next, _room, pool, out),
            _ => {
                self.remember_any(&next, &next, pool)?;
                *out = Some(next);
                Ok(())
            }
        }
    }
}

/// The command ditto, as a stage.
pub type Ditto = AtOnce<Repeats>;
