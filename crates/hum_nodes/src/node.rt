//! The stages of a plan as nodes of a net.
ghost use Rattle.std.specs.Prelude.{◌≡◌, ℕ, ◌<◌, ◌≤◌, ◌||◌, List, [], Some, true, false};
ghost use Rattle.std.specs.Prelude.{length, slice_index, slice_set, IfOk, OnOk, OnErr, Ok};
ghost use Rattle.hum_stage.specs.Meaning.{Meaning, opening, IsLawful, readiness_by};
ghost use Rattle.hum_assemble.specs.Standing.{Stands};
ghost use Rattle.hum_read.specs.Steps.{given_by};
ghost use Rattle.hum_nodes.specs.At.{At, fresh, sources_of, doing_of, holds_of, waits_of};
ghost use Rattle.hum_nodes.specs.At.{HoldsOneEach, HasTaken, MayPut, MayStop, HasPut, HasStopped};
ghost use Rattle.hum_nodes.specs.At.{set_each};
ghost use Rattle.hum_nodes.specs.Doing as does;
ghost use Rattle.hum_nodes.specs.Single.{single};
ghost use Rattle.hum_nodes.specs.Merging.{IsMerging, merging};
ghost use Rattle.hum_nodes.specs.Reading.{reading};
ghost use Rattle.hum_nodes.specs.Polls.{HasPolled, HasStayed, AsksAtMostOnce, is_failed_read};
ghost use Rattle.hum_nodes.specs.Nodes.{StandsAs, KnowsSource, is_source, gives_ahead, gives_next, readiness_at};
ghost use Rattle.hum_record.specs.Room.{rooms_for};
ghost use Rattle.hum_nodes.specs.Nodes.{remaining_of, ended_of, calls_of, failed_of, stopped_of};

use hum_assemble::Assemble;
use hum_read::{ReadError, ScoreReader};
use hum_record::{Record, Spare};
use hum_stage::{End, Readiness, Stage, State};
use hum_text::calls::Source;
use std::alloc::{AllocError, Global};

/// A stage of a plan in a net.
///
/// What it does next and, where it wants, the number of the stage that it takes from are learnt once after
/// each of its calls, since a net asks for them more often than the stage moves. Stages are numbered from 0
/// here.
#[derive(Drop)]
pub struct Node<S, R> {
    work: Work<S, R>,
    // the record that it gives next, if its command gave that as its input was put
    ahead: Option<Record>,
    // what it does next, behind that
    behind: Readiness,
    from: usize,
}

/// What a stage of a plan is.
#[derive(Drop)]
enum Work<S, R> {
    /// A command. It stands first, so that it is told from the others by one look.
    Command(S),
    /// A score is read.
    Read(ScoreReader<R>),
    /// Scores are put side by side, those of these stages.
    Assemble(Assemble, Vec<usize>),
}

/// Notes who takes from a stage, if there is a place for it.
fn note(takers: &mut [usize], source: usize, number: usize)
    ensures { takers.new ≡ slice_set takers.old source number }
{
    if source < takers.len() {
        takers[source] = number;
    }
}

/// The source at a place, from 0; 0 where there is no such place.
fn source_at(sources: &[usize], place: usize) -> usize
    ensures { result ≡ slice_index sources.now place }
{
    if place < sources.len() {
        return sources[place];
    }
    0
}

/// The stage that assemble takes from next, of these; 0 where it wants nothing.
fn wanted(stage: &Assemble, sources: &[usize]) -> usize
    ensures { (t : At) → IsMerging (Stands stage.now) sources.now t → KnowsSource result t }
{
    match stage.wants() {
        Some(place) => source_at(sources, place),
        None => 0,
    }
}

/// What a stage is ready for in this state.
fn readiness_by(state: State) -> Readiness
    ensures { result ≡ readiness_by state }
{
    match state {
        State::Wants => Readiness::Wants,
        State::Gives => Readiness::Gives,
        State::Done(_) => Readiness::Done,
    }
}

impl<S: Stage + Drop, R: Source + Drop> Node<S, R> {
    /// The stage of this number, from 1, that reads a score from a source of which nothing was read yet.
    pub fn read(alloc: Global, number: u8, source: R) -> Node<S, R>
        ensures kind { is_source result ≡ true }
        ensures stands { (all : List ℕ)
            → StandsAs S.stands result all (fresh (reading number all)) }
        ensures ended { ended_of result ≡ false }
        ensures remaining { remaining_of R.remaining result ≡ R.remaining source }
        ensures calls { calls_of R.calls result ≡ R.calls source }
        ensures failed { failed_of R.failed result ≡ R.failed source }
    {
        Node {
            work: Work::Read(ScoreReader::new(alloc, number, source)),
            ahead: None,
            behind: Readiness::Gives,
            from: 0,
        }
    }

    /// A command that was put nothing yet, and reads from the stage of this number, from 0.
    pub fn command(stage: S, source: usize) -> Node<S, R>
        ensures kind { is_source result ≡ false }
        ensures stands { (m : Meaning) (rest : List ℕ) → S.stands stage (opening m)
            → StandsAs S.stands result rest (fresh (single source m)) }

        // What it stands for keeps to the contract of stages.
        ensures lawful { (m : Meaning) → S.stands stage (opening m) → IsLawful m }
    {
        Node {
            work: Work::Command(stage),
            ahead: None,
            behind: Readiness::Wants,
            from: source,
        }
    }

    /// The command assemble as the stage of this number, from 1, which reads from the stages of these
    /// numbers, from 0.
    ///
    /// # Errors
    /// Out of memory.
    pub fn assemble(
        alloc: Global,
        number: u8,
        sources: Vec<usize>,
    ) -> Result<Node<S, R>, AllocError>
        requires { length sources.items ≤ 15 }
        ensures kind { IfOk result (λ node. is_source node ≡ false) }
        ensures stands { IfOk result (λ node. (rest : List ℕ)
            → StandsAs S.stands node rest (fresh (merging number sources.items))) }
    {
        let stage = Assemble::new(alloc, number, sources.len())?;
        let behind = stage.readiness();
        let from = wanted(&stage, &sources);
        Ok(Node {
            work: Work::Assemble(stage, sources),
            ahead: None,
            behind,
            from,
        })
    }

    /// Whether it reads bytes.
    pub fn is_source(&self) -> bool
        ensures { result ≡ is_source self.now }
    {
        match &self.work {
            Work::Read(_) => true,
            Work::Command(..) | Work::Assemble(..) => false,
        }
    }

    /// What it does next. A source gives: it may read first, and has no record then.
    #[inline(always)]
    pub fn readiness(&self) -> Readiness
        ensures { (rest : List ℕ) (t : At) → StandsAs S.stands self.now rest t
            → result ≡ readiness_at (is_source self.now) (doing_of t) }
    {
        if self.ahead.is_some() {
            return Readiness::Gives;
        }
        self.behind
    }

    /// Whether it gives next.
    #[inline(always)]
    pub fn gives(&self) -> bool
        ensures { result ≡ gives_next self.now }
    {
        if self.ahead.is_some() {
            return true;
        }
        match self.behind {
            Readiness::Gives => true,
            Readiness::Wants | Readiness::Done => false,
        }
    }

    /// Whether the record that it gives next was taken ahead.
    #[inline(always)]
    pub fn gives_ahead(&self) -> bool
        ensures ahead { result ≡ gives_ahead self.now }
        ensures gives { result ≡ true → (rest : List ℕ) (t : At) → StandsAs S.stands self.now rest t
            → (is_source self.now ≡ false) × (doing_of t ≡ does.Gives) }
    {
        self.ahead.is_some()
    }

    /// That record.
    pub fn take_ahead(&mut self) -> Record
        requires { gives_ahead self.old ≡ true }
        ensures kind { is_source self.new ≡ is_source self.old }
        ensures gives { (rest : List ℕ) (t : At) → StandsAs S.stands self.old rest t
            → (is_source self.old ≡ false) × (doing_of t ≡ does.Gives) }
        ensures taken { (rest : List ℕ) → HasTaken (StandsAs S.stands self.old rest)
            (StandsAs S.stands self.new rest) (Some result) }
    {
        let Some(row) = self.ahead.take() else {
            unreachable!()
        };
        row
    }

    /// Its end, where it is done and isn't a source.
    #[inline(never)]
    pub fn end(&self) -> Option<End>
        requires { is_source self.now ≡ false }
        ensures { (rest : List ℕ) (t : At) (end : End) → StandsAs S.stands self.now rest t
            → doing_of t ≡ does.Done end → result ≡ Some end }
    {
        let state = match &self.work {
            Work::Read(_) => unreachable!(),
            Work::Command(stage) => stage.state(),
            Work::Assemble(stage, _) => stage.state(),
        };
        match state {
            State::Done(end) => Some(end),
            State::Gives | State::Wants => None,
        }
    }

    /// The number, from 0, of the stage that it takes from, where it isn't a source and wants.
    pub fn source(&self) -> usize
        ensures { is_source self.now ≡ false → (rest : List ℕ) (t : At) (place : ℕ)
            → StandsAs S.stands self.now rest t → doing_of t ≡ does.Wants place
            → result ≡ slice_index (sources_of t) place }
    {
        self.from
    }

    /// Notes as which number, from 0, it takes from each stage that it reads from.
    pub fn note_sources(&self, number: usize, takers: &mut [usize])
        ensures len { length takers.new ≡ length takers.old }
        ensures noted { (rest : List ℕ) (t : At) → StandsAs S.stands self.now rest t
            → takers.new ≡ set_each (sources_of t) number takers.old }
    {
        match &self.work {
            Work::Read(_) => {}
            Work::Command(..) => note(takers, self.from, number),
            Work::Assemble(_, sources) => {
                for &source in sources {
                    note(takers, source, number);
                }
            }
        }
    }

    /// How many records wait inside a stage that isn't a source.
    pub fn held(&self) -> usize
        requires { is_source self.now ≡ false }
        ensures held { (rest : List ℕ) (t : At) → StandsAs S.stands self.now rest t
            → result ≡ holds_of t }

        // Where one of each input is all that waits, they are no more than the inputs.
        ensures few { (rest : List ℕ) (t : At) → StandsAs S.stands self.now rest t
            → HoldsOneEach t.kind (length t.inputs) result }
    {
        match &self.work {
            Work::Read(_) => unreachable!(),
            Work::Command(stage) => {
                if self.ahead.is_some() {
                    return 1;
                }
                stage.held()
            }
            Work::Assemble(stage, _) => stage.held(),
        }
    }

    /// How many bytes the records take that wait inside a stage that isn't a source, beside their own size: no more
    /// than what they say needs.
    pub fn room(&self) -> usize
        requires { is_source self.now ≡ false }
        ensures { (rest : List ℕ) (t : At) → StandsAs S.stands self.now rest t
            → result ≤ rooms_for (waits_of t) }
    {
        match &self.work {
            Work::Read(_) => unreachable!(),
            Work::Command(stage) => match &self.ahead {
                Some(row) => row.room(),
                None => stage.room(),
            },
            Work::Assemble(stage, _) => stage.room(),
        }
    }

    /// The next record that is settled, if there is one. One that is made only now is made in what the
    /// pool has left.
    ///
    /// # Errors
    /// Out of memory.
    #[inline(always)]
    pub fn take(&mut self, pool: &mut Spare) -> Result<Option<Record>, AllocError>
        requires { is_source self.old ≡ false }
        ensures kind { is_source self.new ≡ false }
        ensures taken { IfOk result (λ taken. (rest : List ℕ) → HasTaken
            (StandsAs S.stands self.old rest) (StandsAs S.stands self.new rest) taken) }
    {
        match &mut self.work {
            Work::Read(_) => unreachable!(),
            Work::Command(stage) => {
                if let Some(row) = self.ahead.take() {
                    return Ok(Some(row));
                }
                let (taken, behind) = stage.take_with(pool)?;
                self.behind = behind;
                Ok(taken)
            }
            Work::Assemble(stage, sources) => {
                let (taken, behind) = stage.take_with(pool)?;
                self.behind = behind;
                self.from = wanted(stage, sources);
                Ok(taken)
            }
        }
    }

    /// Puts the next record of the input that it wants. A record of which it is done goes to the pool.
    ///
    /// # Errors
    /// Out of memory.
    #[inline(always)]
    pub fn put(&mut self, next: Record, pool: &mut Spare) -> Result<(), AllocError>
        requires kind { is_source self.old ≡ false }
        requires may { (place : ℕ) × MayPut (StandsAs S.stands self.old []) place next }
        ensures kind { is_source self.new ≡ false }
        ensures put { OnOk result ((rest : List ℕ) (place : ℕ) → HasPut (StandsAs S.stands self.old rest)
            (StandsAs S.stands self.new rest) place next) }
    {
        match &mut self.work {
            Work::Read(_) => unreachable!(),
            Work::Command(stage) => {
                self.behind = stage.put_with(next, pool, true, &mut self.ahead)?;
                Ok(())
            }
            Work::Assemble(stage, sources) => {
                self.behind = stage.put_with(next, pool)?;
                self.from = wanted(stage, sources);
                Ok(())
            }
        }
    }

    /// Says how the input that it wants ends: closed only after a closed score.
    pub fn stop(&mut self, end: End)
        requires kind { is_source self.old ≡ false }
        requires may { (place : ℕ) × MayStop (StandsAs S.stands self.old []) place end }
        ensures kind { is_source self.new ≡ false }
        ensures stopped { (rest : List ℕ) (place : ℕ) → HasStopped (StandsAs S.stands self.old rest)
            (StandsAs S.stands self.new rest) place end }
    {
        match &mut self.work {
            Work::Read(_) => unreachable!(),
            Work::Command(stage) => {
                stage.end(end);
                self.behind = readiness_by(stage.state());
            }
            Work::Assemble(stage, sources) => {
                stage.end(stage.wants().unwrap_or(0), end);
                self.behind = stage.readiness();
                self.from = wanted(stage, sources);
            }
        }
    }

    /// A turn of a source: where nothing is settled that it hasn't given, it makes one read. It gives
    /// the next record, or none where there is nothing yet or it has stopped.
    #[inline(always)]
    pub fn next(&mut self, pool: &mut Spare) -> Option<Record>
        requires { is_source self.old ≡ true }
        ensures kind { is_source self.new ≡ true }
        ensures polled { IfOk (given_by result (stopped_of self.new))
            (HasPolled (StandsAs S.stands self.old) (StandsAs S.stands self.new)
            (ended_of self.old) (ended_of self.new)
            (remaining_of R.remaining self.old) (remaining_of R.remaining self.new)) }

        // It makes one call on its reader, or none.
        ensures once { AsksAtMostOnce (calls_of R.calls self.old) (failed_of R.failed self.old)
            (calls_of R.calls self.new) (failed_of R.failed self.new) }

        // It tells of a failed read exactly where a call failed.
        ensures marks { (rest : List ℕ) (t : At) → StandsAs S.stands self.old rest t
            → failed_of R.failed self.new ≡ (failed_of R.failed self.old
            || is_failed_read (given_by result (stopped_of self.new))) }

        // A turn that fails reads no byte.
        ensures stays { OnErr (given_by result (stopped_of self.new))
            (HasStayed (ended_of self.old) (ended_of self.new)
            (remaining_of R.remaining self.old) (remaining_of R.remaining self.new)) }
    {
        match &mut self.work {
            Work::Read(reader) => reader.next(pool),
            Work::Command(..) | Work::Assemble(..) => unreachable!(),
        }
    }

    /// Why a source has stopped, once it has: its end, or a failed read or out of memory.
    pub fn stopped(&self) -> Option<Result<End, ReadError>>
        requires { is_source self.now ≡ true }
        ensures { result ≡ stopped_of self.now }
    {
        match &self.work {
            Work::Read(reader) => reader.stopped(),
            Work::Command(..) | Work::Assemble(..) => unreachable!(),
        }
    }
}
