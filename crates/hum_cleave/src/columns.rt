//! The columns of a score, record by record, and which of them are cleaved.
ghost use Rattle.std.specs.Prelude.{◌≡◌, ℕ, None, true, [], IfOk, OnOk};
ghost use Rattle.hum_score.specs.Row.{Spined, tokens_of, text_of};
ghost use Rattle.hum_score.specs.Spelling.{IsTextOf};
ghost use Rattle.hum_score.specs.declared.records.SpinedKind.TheVariants.{Interpretation};
ghost use Rattle.hum_score.specs.{Spines.after, Rules.fault_of};
ghost use Rattle.hum_stage.specs.Refusals.{IfTold};
ghost use Rattle.hum_columns.specs.Following.{Answers, memory, is_interpretation};
ghost use Rattle.hum_cleave.specs.Columns.{opening_flags};
ghost use Rattle.hum_cleave.specs.Cleave.{opened, cleave, column_command};

use crate::merging::merge;
use crate::records::{give, give_text, put_together};
use hum_choices::CleaveOptions;
use hum_columns::ChosenColumns;
use hum_path::Marks;
use hum_record::{GrowingText, Kind, Record, Spare, SpinedKind};
use hum_stage::{Command, Decides, Refusal};
use std::alloc::{AllocError, Global};
use std::collections::VecDeque;

/// Whether a record is an interpretation.
fn is_interpretation(row: &Record) -> bool
    ensures kind { result ≡ is_interpretation row.now }
    ensures lawful { IsTextOf row.now (text_of row.now) }
{
    match row.kind() {
        Kind::Interpretation => true,
        _ => false,
    }
}

/// For each opening spine whether it is cleaved.
fn opening_marks(alloc: Global, name: &[u8], row: &Record) -> Result<Vec<bool>, AllocError>
    ensures { IfOk result (λ marks. marks.items ≡ opening_flags name.now (tokens_of row.now)) }
{
    row.tokens().map(|token| name == token).collect(alloc)
}

/// What the opening record becomes, and which columns are cleaved.
///
/// # Errors
/// L1; or out of memory.
fn open(
    alloc: Global,
    options: &CleaveOptions,
    columns: &mut ChosenColumns,
    row: Record,
    pool: &mut Spare,
    out: &mut VecDeque<Record>,
) -> Result<(), Refusal>
    requires kind { row ≡ Spined Interpretation (tokens_of row) }
    requires lawful { IsTextOf row (text_of row) }
    requires valid { fault_of columns.old.path row ≡ None }
    requires empty { out.old.items ≡ [] }
    ensures decided { IfTold result (λ refused. (room : ℕ)
        → Answers (opened options.now (tokens_of row)) room out.new.items refused) }
    ensures columns { OnOk result (columns.new ≡ memory (after columns.old.path row)
        (opening_flags options.now.name (tokens_of row))) }
{
    let marks = Marks::new(opening_marks(alloc, options.name(), &row)?);
    let made = put_together(
        alloc,
        SpinedKind::Interpretation,
        marks.each(),
        options.new_name(),
        &row,
        pool,
    )?;
    columns.open(&row, marks)?;
    give(row, made, pool, out)
}

/// The cleaved columns, and the spines that they are among.
#[derive(Drop)]
pub struct CleaveColumns {
    alloc: Global,
    options: CleaveOptions,
    columns: ChosenColumns,
    // where a joined token is made
    text: GrowingText,
}

impl Decides for CleaveColumns {
    type Options = CleaveOptions;

    type Due = VecDeque<Record>;

    ghost use Rattle.hum_words.specs.declared.commands.Command.TheVariants.{Cleave};
    ghost use Rattle.hum_columns.specs.Following.{Follows};

    ghost command = { Cleave };

    ghost decide = { cleave };

    ghost follows = { λ s. Follows (column_command s.options) s.columns };

    fn command() -> Command {
        Command::Cleave
    }

    fn begin(alloc: Global, options: CleaveOptions) -> CleaveColumns {
        // The new name is one.
        let _new_name = options.new_name();
        CleaveColumns {
            alloc,
            options,
            columns: ChosenColumns::none(alloc),
            text: GrowingText::new(alloc),
        }
    }

    fn step(
        &mut self,
        next: Record,
        room: u64,
        pool: &mut Spare,
        out: &mut VecDeque<Record>,
    ) -> Result<(), Refusal> {
        if !is_interpretation(&next) {
            let separator = self.options.separator();
            let marks = self.columns.marks();
            return give_text(
                self.alloc,
                separator,
                marks,
                next,
                &mut self.text,
                pool,
                out,
            );
        }
        if self.columns.is_unopened() {
            return open(
                self.alloc,
                &self.options,
                &mut self.columns,
                next,
                pool,
                out,
            );
        }
        merge(self.alloc, self.columns.marks().each(), &next, room, out)?;
        self.columns.pass(self.alloc, &next)?;
        pool.keep(next);
        Ok(())
    }
}
