//! What each record becomes.
ghost use Rattle.std.specs.Prelude.{◌≡◌, [], ◌∷◌, Ok, Err, None, ℕ, OnOk, is_some};
ghost use Rattle.std.specs.Prelude.{if◌then◌else◌, List, Bool};
ghost use Rattle.std.specs.List.{list_any};
ghost use Rattle.hum_score.specs.Row.{Row, kind_of, tokens_of, text_of};
ghost use Rattle.hum_score.specs.Spelling.{IsTextOf};
ghost use Rattle.hum_score.specs.declared.records.Kind.TheVariants.{Interpretation as AnyInterpretation};
ghost use Rattle.hum_score.specs.declared.records.Kind.TheVariants.{Values as AnyValues};
ghost use Rattle.hum_score.specs.Spines.{after};
ghost use Rattle.hum_stage.specs.Decided.{Decision, MayStep, HasStepped};
ghost use Rattle.hum_stage.specs.Refusals.{IfTold};
ghost use Rattle.hum_timebase.specs.{Timebase.timebase, Timebase.around, Following.Follows};
ghost use Rattle.hum_timebase.specs.{Following.Answers, Notes.notes_of, Placed.OfColumns};
ghost use Rattle.hum_timebase.specs.{Reading.content_of, Reading.Read, Kept.sounding_rows};
ghost use Rattle.hum_timebase.specs.{Kept.struck};
ghost use Rattle.hum_choices.specs.Timebase.{pace_of};

use crate::clock::{Clock, Strike};
use crate::due::Around;
use crate::notes::{Content, NoteAt, content_of, read_notes, timed_at, timed_in};
use crate::pace::Pace;
use crate::records::tb_record;
use hum_choices::TimebaseOptions;
use hum_kern::KernFault;
use hum_path::{Marks, Paths, has_exclusive};
use hum_record::{Kind, Record, Spare};
use hum_stage::{Command, Decides, Refusal, Rule, check_room};
use std::alloc::{AllocError, Global};

fn has_note(notes: &[NoteAt]) -> bool
    ensures { OfColumns notes.now (λ columns. result ≡ list_any is_some columns) }
{
    !notes.is_empty()
}

fn single(stays: bool) -> u128
    ensures { result ≡ (if stays then 1 else 0) }
{
    if stays { 1 } else { 0 }
}

/// What a data record holds, by what was read of it: most often that tells.
fn content_by(misread: Option<KernFault>, notes: &[NoteAt], row: &Record) -> Content
    requires { (timed : List Bool) × Read timed (tokens_of row.now) notes.now misread }
    ensures { result ≡ content_of (tokens_of row.now) }
{
    if misread.is_some() {
        return Content::Sounds;
    }
    if has_note(notes) {
        return Content::Sounds;
    }
    content_of(row)
}

/// Puts what a timed record becomes where it is due.
///
/// # Errors
/// L2 where there is no room for it; or out of memory.
fn place(
    made: Strike,
    row: Record,
    room: u64,
    pool: &mut Spare,
    out: &mut Around,
) -> Result<(), Refusal>
    requires lawful { IsTextOf row (text_of row) }
    requires kind { kind_of row ≡ AnyValues }
    requires empty { out.old ≡ [] }
    ensures { IfTold result (Answers
        (Ok (around made.before made.stays made.after (tokens_of row))) room out.new) }
{
    if made.is_lone() && room > 0 {
        out.put(row);
        return Ok(());
    }
    let count = made
        .before
        .saturating_add(made.after)
        .saturating_add(single(made.stays));
    check_room(count, room)?;
    let before = made.before as u64;
    let after = made.after as u64;
    out.put_among(before, row, made.stays, after, pool)?;
    Ok(())
}

/// The spines, which of them are timed, and where the notes end.
#[derive(Drop)]
pub struct Grid {
    alloc: Global,
    pace: Pace,
    paths: Paths,
    timed: Marks,
    clock: Clock,
    // the notes of the record at hand
    notes: Vec<NoteAt>,
}

impl Grid {
    /// Follows the spines through an interpretation.
    fn follow(&mut self, row: &Record) -> Result<(), AllocError>
        requires kind { kind_of row.now ≡ AnyInterpretation }
        requires score { MayStep
            (Follows self.old.pace self.old.paths.path self.old.timed self.old.clock)
            row.now }
        ensures spines { OnOk result
            ((decide : Decision) (past : List Row)
            → Follows self.old.pace self.old.paths.path self.old.timed self.old.clock
            decide past
            → Follows self.new.pace self.new.paths.path self.new.timed self.new.clock
            decide (row.now ∷ past)) }
        ensures pace { self.new.pace ≡ self.old.pace }
    {
        let own = timed_at(self.alloc, &self.paths, row)?;
        let found = self.paths.follow(row)?;
        self.clock.keep_timed(&own);
        self.clock.lead(self.alloc, &found)?;
        self.timed = timed_in(self.alloc, &self.paths)?;
        Ok(())
    }

    /// Takes an interpretation, which is never refused.
    fn interpret(&mut self, row: Record, out: &mut Around) -> Result<(), AllocError>
        requires kind { kind_of row ≡ AnyInterpretation }
        requires score { MayStep
            (Follows self.old.pace self.old.paths.path self.old.timed self.old.clock) row }
        requires empty { out.old ≡ [] }
        ensures { OnOk result ((room : ℕ) → HasStepped
            (Follows self.old.pace self.old.paths.path self.old.timed self.old.clock)
            (Follows self.new.pace self.new.paths.path self.new.timed self.new.clock)
            row room out.new None) }
    {
        self.follow(&row)?;
        if !has_exclusive(&row) {
            out.put(row);
            return Ok(());
        }
        let other = tb_record(self.alloc, &self.pace, &row)?;
        out.put_both(row, other);
        Ok(())
    }

    /// Takes a data record with a token that is neither null nor a barline, whose columns that
    /// aren't timed have no end any more, and what was read of it.
    ///
    /// # Errors
    /// K3, B1, B2, F1 or L2; or out of memory.
    fn sound(
        &mut self,
        misread: Option<KernFault>,
        row: Record,
        room: u64,
        pool: &mut Spare,
        out: &mut Around,
    ) -> Result<(), Refusal>
        requires lawful { IsTextOf row (text_of row) }
        requires kind { kind_of row ≡ AnyValues }
        requires empty { out.old ≡ [] }
        requires read { Read self.old.timed (tokens_of row) self.old.notes.items misread }
        ensures decided { IfTold result (Answers (sounding_rows self.old.pace.step self.old.clock
            self.old.timed (tokens_of row)) room out.new) }
        ensures clock { OnOk result
            (self.new.clock ≡ struck (notes_of self.old.timed (tokens_of row)) self.old.clock) }
        ensures kept { OnOk result (self.new
            ≡ record self.old {
              clock = self.new.clock;
            }) }
    {
        if misread.is_some() {
            return Err(Refusal::Rule(Rule::K3));
        }
        if !self.timed.some() {
            return Err(Refusal::Rule(Rule::B1));
        }
        if !has_note(&self.notes) {
            return Ok(());
        }
        match self.clock.strike(self.pace.step(), &self.notes) {
            Ok(made) => place(made, row, room, pool, out),
            Err(rule) => Err(Refusal::Rule(rule)),
        }
    }

    /// Takes a data record.
    ///
    /// # Errors
    /// The rule by which it is refused; or out of memory.
    fn value(
        &mut self,
        row: Record,
        room: u64,
        pool: &mut Spare,
        out: &mut Around,
    ) -> Result<(), Refusal>
        requires lawful { IsTextOf row (text_of row) }
        requires kind { kind_of row ≡ AnyValues }
        requires empty { out.old ≡ [] }
        ensures { IfTold result (HasStepped
            (Follows self.old.pace self.old.paths.path self.old.timed self.old.clock)
            (Follows self.new.pace self.new.paths.path self.new.timed self.new.clock)
            row room out.new) }
    {
        self.clock.keep_timed(&self.timed);
        let misread = read_notes(self.timed.each(), &row, &mut self.notes)?;
        match content_by(misread, &self.notes, &row) {
            Content::Nulls => {
                pool.keep(row);
                Ok(())
            }
            Content::Barlines => {
                out.put(row);
                Ok(())
            }
            Content::Sounds => {
                self.sound(misread, row, room, pool, out)?;
                Ok(())
            }
        }
    }
}

impl Decides for Grid {
    type Options = TimebaseOptions;

    type Due = Around;

    ghost use Rattle.hum_words.specs.declared.commands.Command.TheVariants.{Timebase};

    ghost command = { Timebase };

    ghost decide = { λ options. timebase (pace_of options) };

    ghost follows = { λ s. Follows s.pace s.paths.path s.timed s.clock };

    fn command() -> Command {
        Command::Timebase
    }

    fn begin(alloc: Global, options: TimebaseOptions) -> Grid {
        Grid {
            alloc,
            pace: Pace::new(options),
            paths: Paths::new(alloc),
            timed: Marks::none(alloc),
            clock: Clock::new(alloc),
            notes: Vec::new(alloc),
        }
    }

    fn step(
        &mut self,
        next: Record,
        room: u64,
        pool: &mut Spare,
        out: &mut Around,
    ) -> Result<(), Refusal> {
        match next.kind() {
            Kind::Global => {
                out.put(next);
                Ok(())
            }
            Kind::Local => {
                self.clock.keep_timed(&self.timed);
                out.put(next);
                Ok(())
            }
            Kind::Interpretation => {
                self.interpret(next, out)?;
                Ok(())
            }
            Kind::Values => self.value(next, room, pool, out),
        }
    }
}
