//! The chosen columns, record by record.
ghost use Rattle.std.specs.Prelude.{◌≡◌, false, None, Err, IfSome, OnOk};
ghost use Rattle.hum_score.specs.Row.{Spined, tokens_of, text_of};
ghost use Rattle.hum_score.specs.Spelling.{IsTextOf};
ghost use Rattle.hum_score.specs.declared.records.SpinedKind.TheVariants.{Interpretation};
ghost use Rattle.hum_score.specs.{Sign.steers, Spines.after, Rules.fault_of};
ghost use Rattle.hum_stage.specs.Refusals.{IfTold};
ghost use Rattle.hum_columns.specs.Following.{memory};
ghost use Rattle.hum_extract.specs.Choice.{misses, opening_flags};
ghost use Rattle.hum_extract.specs.Extract.{opened, extract, column_command};
ghost use Rattle.hum_choices.specs.Extract.{choice_of};

use crate::choosing::marks;
use crate::cutting::cut;
use crate::due::MostlyOne;
use crate::kept::{keep, put_if};
use hum_choices::ExtractOptions;
use hum_columns::ChosenColumns;
use hum_path::steers;
use hum_record::{Kind, Record, Spare};
use hum_stage::{Command, Decides, Refusal, Rule};
use std::alloc::Global;

/// Whether a record asks something of the spines.
fn asks(row: &Record) -> bool
    ensures asks { result ≡ steers row.now }
    ensures lawful { IsTextOf row.now (text_of row.now) }
{
    match row.kind() {
        Kind::Interpretation => steers(row),
        _ => false,
    }
}

/// Opens the columns of the opening record that are chosen.
///
/// # Errors
/// X2; or out of memory.
fn open(
    alloc: Global,
    choice: &ExtractOptions,
    columns: &mut ChosenColumns,
    row: &Record,
) -> Result<(), Refusal>
    requires kind { row.now ≡ Spined Interpretation (tokens_of row.now) }
    requires valid { fault_of columns.old.path row.now ≡ None }
    ensures refused { IfTold result (λ refused. IfSome refused (λ rule.
        opened (choice_of choice.now) (tokens_of row.now) ≡ Err rule)) }
    ensures found { OnOk result (misses (choice_of choice.now) (tokens_of row.now) ≡ false) }
    ensures columns { OnOk result (columns.new ≡ memory (after columns.old.path row.now)
        (opening_flags (choice_of choice.now) (tokens_of row.now))) }
{
    match marks(alloc, choice, row)? {
        None => Err(Refusal::Rule(Rule::X2)),
        Some(marks) => {
            columns.open(row, marks)?;
            Ok(())
        }
    }
}

/// The chosen columns, and the spines that they are among.
#[derive(Drop)]
pub struct ExtractColumns {
    alloc: Global,
    choice: ExtractOptions,
    columns: ChosenColumns,
}

impl Decides for ExtractColumns {
    type Options = ExtractOptions;

    type Due = MostlyOne;

    ghost use Rattle.hum_words.specs.declared.commands.Command.TheVariants.{Extract};
    ghost use Rattle.hum_columns.specs.Following.{Follows};

    ghost command = { Extract };

    ghost decide = { λ choice. extract (choice_of choice) };

    ghost follows = { λ s. Follows (column_command (choice_of s.choice)) s.columns };

    fn command() -> Command {
        Command::Extract
    }

    fn begin(alloc: Global, choice: ExtractOptions) -> ExtractColumns {
        ExtractColumns {
            alloc,
            choice,
            columns: ChosenColumns::none(alloc),
        }
    }

    fn step(
        &mut self,
        mut next: Record,
        room: u64,
        pool: &mut Spare,
        out: &mut MostlyOne,
    ) -> Result<(), Refusal> {
        if asks(&next) {
            if !self.columns.is_unopened() {
                cut(
                    self.alloc,
                    self.columns.marks().each(),
                    &next,
                    room,
                    &mut out.many,
                )?;
                self.columns.pass(self.alloc, &next)?;
                pool.keep(next);
                return Ok(());
            }
            open(self.alloc, &self.choice, &mut self.columns, &next)?;
        }
        let stays = keep(self.columns.selection(), &mut next)?;
        put_if(stays, next, pool, out);
        Ok(())
    }
}
