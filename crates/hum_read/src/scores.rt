//! A score, read from a source record by record.
ghost use Rattle.std.specs.Prelude.{◌≡◌, ◌≢◌, ℕ, ◌<◌, ◌≤◌, ◌⊎◌, true, false, length};
ghost use Rattle.std.specs.Prelude.{List, [], None, Some, Ok, Err, IfOk, IfErr, IfSome, OnOk};
ghost use Rattle.hum_score.specs.Spines.{after};
ghost use Rattle.hum_score.specs.Rules.{fault_of, Refuses};
ghost use Rattle.std.specs.Io.KnownBytes.{Consumes, IsAtEnd};
ghost use Rattle.hum_read.specs.Denoted.{end_at};
ghost use Rattle.hum_read.specs.Steps.{stop_by};
ghost use Rattle.hum_stage.specs.Refusals.{rule_in};
ghost use Rattle.hum_record.specs.Plain.{HasNoStop};
ghost use Rattle.hum_score.specs.Spelling.{has_byte};
ghost use Rattle.hum_text.specs.Reading.{NeedsRead, IsUnread, IsFed, bytes_read, left_to_do};

use crate::ReadError;
use crate::rules::text_rule;
use hum_path::{PathFault, Paths};
use hum_record::{Beyond, Record, ShortLine, Spare};
use hum_stage::{Command, End, Fault, Refusal, Rule};
use hum_text::calls::{LARGEST_READ, Source};
use hum_text::reader::LineReader;
use hum_text::{Limits, TextFault, reader as lines};
use std::alloc::Global;
use std::marker::Model;

/// The end of a score that breaks a rule in this line.
fn broken(stage: u8, line: u64, rule: Rule) -> End
    ensures { result ≡ end_at stage (Some (line, rule)) }
{
    End::Broken(Fault {
        stage,
        command: Command::Read,
        line,
        rule,
    })
}

/// Stops a reader that has given so many lines, by a fault of the next. It happens once, and writes
/// where it is kept, so that no call of [`ScoreReader::next`] has a place for it.
#[inline(never)]
fn stop(stopped: &mut Option<Result<End, ReadError>>, stage: u8, given: u64, fault: TextFault)
    requires { given ≤ 4294967295 }
    ensures { stopped.new ≡ Some (stop_by stage given fault) }
{
    *stopped = Some(match text_rule(fault) {
        Some(rule) => Ok(broken(stage, given + 1, rule)),
        None if fault == TextFault::Read => Err(ReadError::Read),
        None => Err(ReadError::Memory),
    });
}

/// Takes the spines past a record.
fn pass(paths: &mut Paths, row: &Record) -> Result<(), PathFault>
    ensures valid { OnOk result (fault_of paths.old.path row.now ≡ None) }
    ensures after { OnOk result (paths.new.path ≡ after paths.old.path row.now) }
    ensures refused { IfErr result (λ fault. Refuses fault (fault_of paths.old.path row.now)) }
{
    if paths.keeps_spines(row) {
        return Ok(());
    }
    step_past(paths, row)
}

/// The same of any record.
#[inline(never)]
fn step_past(paths: &mut Paths, row: &Record) -> Result<(), PathFault>
    ensures valid { OnOk result (fault_of paths.old.path row.now ≡ None) }
    ensures after { OnOk result (paths.new.path ≡ after paths.old.path row.now) }
    ensures refused { IfErr result (λ fault. Refuses fault (fault_of paths.old.path row.now)) }
{
    match paths.step(row) {
        Ok(_) => Ok(()),
        Err(fault) => Err(fault),
    }
}

/// The records of a source: the stage `read`.
#[derive(Drop)]
pub struct ScoreReader<R> {
    alloc: Global,
    stage: u8,
    lines: LineReader<R>,
    paths: Paths,
    // the end that was told, or why nothing more can be read
    stopped: Option<Result<End, ReadError>>,
}

impl<R> Model for ScoreReader<R> {
    ghost use Rattle.hum_read.specs.Reading.{Scores};
    ghost use Rattle.hum_read.specs.Steps.{IsTidy};

    ghost Value = { Scores R };

    ghost view = { λ r. record {
      stage = r.stage;
      lines = r.lines;
      spines = r.paths;
      stopped = r.stopped;
    } };

    ghost invariant = { λ r. IsTidy r.lines r.stopped };
}

impl<R: Source> ScoreReader<R> {
    ghost use Rattle.hum_read.specs.Reading.{IsFresh, HasRead, GivesNext};
    ghost use Rattle.hum_read.specs.Reading.{IsCalledAtMostOnce, IsDue, ReadsOnce, Nears};
    ghost use Rattle.hum_read.specs.Reading.{ReadOn, stop_of, answer_of};
    ghost use Rattle.hum_read.specs.Steps.{IsAhead, IsAheadTo, ReadsLine, Nexts, refusal, end_of, given_by};

    /// The reader of a source of which nothing was read yet, as the stage of this number, from 1.
    pub fn new(alloc: Global, stage: u8, source: R) -> ScoreReader<R>
        ensures fresh { IsFresh result }
        ensures opening { (all : List ℕ) → HasRead result all [] all }
        ensures stage { result.stage ≡ stage }
        ensures source { result.lines.source ≡ source }
    {
        ScoreReader {
            alloc,
            stage,
            lines: LineReader::new(alloc, source, Limits::standard()),
            paths: Paths::new(alloc),
            stopped: None,
        }
    }

    /// The last line that was given is refused. It happens once, so it isn't inlined where each line
    /// passes.
    #[inline(never)]
    fn refuse(&mut self, why: Refusal)
        ensures { self.new ≡ record self.old {
          stopped = Some (refusal self.old.stage self.old.lines.given (rule_in why));
        } }
    {
        self.stopped = Some(match why {
            Refusal::Rule(rule) => Ok(broken(self.stage, self.lines.given(), rule)),
            Refusal::Memory => Err(ReadError::Memory),
        });
    }

    /// The record of the line that was just read, or none where it is refused.
    fn read_line(&mut self, pool: &mut Spare) -> Option<Record>
        requires going { self.old.stopped ≡ None }
        requires short { length self.old.lines.line ≤ 1048576 }
        requires one_line { has_byte 10 self.old.lines.line ≡ false }
        requires few { self.old.lines.given ≤ 4294967295 }
        ensures gives { ReadsLine self.old (given_by result self.new.stopped) self.new }
        ensures lines { self.new.lines ≡ self.old.lines }
        ensures stage { self.new.stage ≡ self.old.stage }
        ensures stops { self.new.stopped ≡ stop_of (given_by result self.new.stopped) }
        ensures told { given_by result self.new.stopped ≢ Ok ReadOn }
        ensures not_read { given_by result self.new.stopped ≢ Err ReadError.Read }
    {
        let (held, len) = self.lines.from_line();
        let record = match Record::parse_into(self.alloc, pool, held, len) {
            Ok(record) => record,
            Err(fault) => {
                self.refuse(fault.into());
                return None;
            }
        };
        match pass(&mut self.paths, &record) {
            Ok(()) => Some(record),
            Err(fault) => {
                self.refuse(fault.into());
                None
            }
        }
    }

    /// No line is left: the score is closed, or breaks P8 where a spine is still open.
    #[inline(never)]
    fn close(&mut self)
        ensures { self.new ≡ record self.old {
          stopped = Some (Ok (end_of self.old));
        } }
    {
        let end = match self.paths.close() {
            Ok(()) => End::Closed,
            Err(_) => broken(self.stage, self.lines.given() + 1, Rule::P8),
        };
        self.stopped = Some(Ok(end));
    }

    /// Why nothing more comes, once it has stopped: the end, or a failed read or running out of memory.
    pub fn stopped(&self) -> Option<Result<End, ReadError>>
        ensures { result ≡ self.now.stopped }
    {
        self.stopped
    }

    /// The next record, or none where there is nothing yet or it has stopped: [`ScoreReader::stopped`]
    /// tells which. Once it has stopped each later call gives none. The record is read into what the
    /// pool has left of one that is done with, if it has any. Most lines are plain data, with a token for
    /// each spine.
    // Inlined, or with an end and an error in its answer, that would be taken to pieces as small as a
    // fault's fields.
    #[inline(never)]
    pub fn next(&mut self, pool: &mut Spare) -> Option<Record>
        // What is given depends on the bytes read so far alone, however the input goes on.
        ensures gives { self.old.stopped ≡ None
            → GivesNext self.old (given_by result self.new.stopped) self.new }

        // An end and an error last.
        ensures stops { self.new.stopped ≡ stop_of (given_by result self.new.stopped) }
        ensures again { IfSome self.old.stopped
            (λ s. (given_by result self.new.stopped ≡ answer_of s) × (self.new ≡ self.old)) }
        ensures stage { self.new.stage ≡ self.old.stage }

        // It reads where it has to, and then once.
        ensures unread { ¬ NeedsRead self.old.lines → IsUnread self.old.lines self.new.lines }
        ensures once { NeedsRead self.old.lines
            → IsCalledAtMostOnce R.calls R.failed
            self.old.lines.source self.new.lines.source }
        ensures due { IsDue self.old → ReadsOnce R.calls R.failed self.old
            (given_by result self.new.stopped) self.new }
        ensures more { given_by result self.new.stopped ≡ Ok ReadOn
            → IsFed self.old.lines self.new.lines }
        ensures unfed { given_by result self.new.stopped ≢ Ok ReadOn
            → bytes_read self.old.lines self.new.lines ≡ [] }
        ensures asked { length (bytes_read self.old.lines self.new.lines) ≤ LARGEST_READ }
        ensures consumes { Consumes (R.remaining self.old.lines.source)
            (R.remaining self.new.lines.source) (bytes_read self.old.lines self.new.lines) }
        ensures at_end { self.new.lines.ended ≡ true
            → (self.old.lines.ended ≡ true) ⊎ IsAtEnd (R.remaining self.new.lines.source) }

        // It tells of a failed read only where a read has failed, and of each that fails.
        ensures failed { given_by result self.new.stopped ≡ Err ReadError.Read
            → (self.old.stopped ≡ Some (Err ReadError.Read))
            ⊎ (R.failed self.new.lines.source ≡ true) }
        ensures marked { R.failed self.new.lines.source ≡ true
            → (R.failed self.old.lines.source ≡ true)
            ⊎ (given_by result self.new.stopped ≡ Err ReadError.Read) }

        // What was handed out is within the limits.
        ensures taken { self.old.stopped ≡ None
            → self.new.lines.taken ≤ self.new.lines.limits.bytes }

        // So each run of turns ends.
        ensures nears { IfOk (given_by result self.new.stopped) (λ step.
            Nears step (left_to_do self.old.lines) (left_to_do self.new.lines)) }
    {
        if self.stopped.is_some() {
            return None;
        }
        if !pool.bring_first() {
            return self.next_long(pool);
        }
        let held = self.lines.ahead();
        let width = self.paths.width();
        if let Some(line) = Record::parse_short(pool, held, width) {
            return self.give_short(pool, line);
        }
        match Record::parse_near(pool, held, width) {
            Ok(line) => self.give_short(pool, line),
            Err(Beyond::Longer) => self.next_longer(pool),
            Err(Beyond::Other) => self.next_long(pool),
        }
    }

    /// The same where the next line doesn't end among the next 64 bytes.
    #[inline(never)]
    fn next_longer(&mut self, pool: &mut Spare) -> Option<Record>
        requires going { self.old.stopped ≡ None }
        requires free { HasNoStop self.old.lines.pending }
        ensures { Nexts R.remaining R.calls R.failed self.old (given_by result self.new.stopped) self.new }
    {
        let held = self.lines.ahead();
        match Record::parse_longer(pool, held) {
            Some(record) => self.give(pool, record),
            None => self.next_any(pool),
        }
    }

    /// The same where the line is no short one of plain data.
    fn next_long(&mut self, pool: &mut Spare) -> Option<Record>
        requires { self.old.stopped ≡ None }
        ensures { Nexts R.remaining R.calls R.failed self.old (given_by result self.new.stopped) self.new }
    {
        match Record::parse_line(pool, self.lines.ahead(), self.paths.width()) {
            Some(record) => self.give(pool, record),
            None => self.next_any(pool),
        }
    }

    /// The same where this is what the next line is read as, if it has a token for each spine.
    fn give(&mut self, pool: &mut Spare, row: Record) -> Option<Record>
        requires going { self.old.stopped ≡ None }
        requires ahead { IsAhead self.old.lines row }
        ensures { Nexts R.remaining R.calls R.failed self.old (given_by result self.new.stopped) self.new }
    {
        if !self.paths.keeps_data(row.width()) {
            return self.next_instead(pool, row);
        }
        self.lines.take_line(row.text().len());
        Some(row)
    }

    /// The same where it is known how many bytes the line has.
    fn give_short(&mut self, pool: &mut Spare, line: ShortLine) -> Option<Record>
        requires going { self.old.stopped ≡ None }
        requires ahead { IsAheadTo self.old.lines line.record line.size }
        ensures { Nexts R.remaining R.calls R.failed self.old (given_by result self.new.stopped) self.new }
    {
        let ShortLine { record: row, size } = line;
        if !self.paths.keeps_data(row.width()) {
            return self.next_instead(pool, row);
        }
        self.lines.give_line(row.text().len(), size);
        Some(row)
    }

    /// The same where this isn't given.
    #[inline(never)]
    fn next_instead(&mut self, pool: &mut Spare, row: Record) -> Option<Record>
        requires { self.old.stopped ≡ None }
        ensures { Nexts R.remaining R.calls R.failed self.old (given_by result self.new.stopped) self.new }
    {
        pool.keep(row);
        self.next_any(pool)
    }

    /// The same of any line, or where none was read as yet.
    fn next_any(&mut self, pool: &mut Spare) -> Option<Record>
        requires { self.old.stopped ≡ None }
        ensures { Nexts R.remaining R.calls R.failed self.old (given_by result self.new.stopped) self.new }
    {
        match self.lines.poll() {
            Ok(lines::Step::Line) => self.read_line(pool),
            Ok(lines::Step::More) => None,
            Ok(lines::Step::End) => {
                self.close();
                None
            }
            Err(fault) => {
                stop(&mut self.stopped, self.stage, self.lines.given(), fault);
                None
            }
        }
    }
}
