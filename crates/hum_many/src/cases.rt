//! Cases: scores by their names.
ghost use Rattle.std.specs.Prelude.{◌≡◌, ◌++◌, ◌∷◌, [], List, OnOk, IfOk, IfErr, MatchOption, None, Some};
ghost use Rattle.hum_packets.specs.Lists.{StopsInList};
ghost use Rattle.hum_packets.specs.Streams.{Lost, Serves, is_write};
ghost use Rattle.hum_many.specs.Cases.{Named, size_of, score_in, HoldsCase, HoldsScore, TookScore, TookCase};
ghost use Rattle.hum_many.specs.Cases.{StopsInCase, EndsHere, LostCase};

use hum_net::{HeldScore, Scores};
use hum_packets::{Answers, Packets, Stop, Text, read_text};
use hum_text::calls::{Sink, Source};
use hum_words::LARGEST_BUNDLE;
use std::alloc::Global;
use std::marker::Model;

/// A score, and what it is called.
#[derive(Drop)]
pub(crate) struct Score {
    name: Vec<u8>,
    text: Vec<u8>,
}

impl Model for Score {
    ghost use Rattle.hum_many.specs.Cases.{Named};

    ghost Value = { Named };

    ghost view = { λ s. record { name = s.name.items; text = s.text.items } };
}

/// The scores of a case, as far as they are held.
#[derive(Drop)]
pub(crate) struct Case {
    scores: Vec<Score>,
    // how many bytes may still come
    left: usize,
    pub(crate) is_too_large: bool,
}

impl Score {
    /// What it is called, and its bytes.
    fn parts(&self) -> (&[u8], &[u8])
        ensures name { result.0.now ≡ self.now.name }
        ensures text { result.1.now ≡ self.now.text }
    {
        (&self.name, &self.text)
    }

    /// How many bytes these are.
    fn size(&self) -> usize
        ensures { result ≡ size_of self.now }
    {
        self.name.len() + self.text.len()
    }
}

impl Case {
    /// A case of which no score has come.
    fn new(alloc: Global) -> Case
        ensures { HoldsCase [] result.scores.items result.left result.is_too_large }
    {
        Case {
            scores: Vec::new(alloc),
            left: LARGEST_BUNDLE,
            is_too_large: false,
        }
    }

    /// Adds a score, if it is held.
    fn add(&mut self, score: Option<Score>) -> Result<(), Stop>
        ensures held { OnOk result ((case : List Named) (it : Named)
            → HoldsCase case self.old.scores.items self.old.left self.old.is_too_large → HoldsScore self.old.left it score
            → HoldsCase (case ++ it ∷ []) self.new.scores.items self.new.left self.new.is_too_large) }
        ensures stop { IfErr result (λ stop. stop ≡ Stop.Memory) }
    {
        match score {
            Some(score) => {
                self.left = self.left.saturating_sub(score.size());
                match self.scores.push(score) {
                    Ok(()) => Ok(()),
                    Err(_) => Err(Stop::Memory),
                }
            }
            None => {
                self.left = 0;
                self.is_too_large = true;
                Ok(())
            }
        }
    }
}

/// The first score of a name.
fn find<'a>(scores: &'a [Score], name: &[u8]) -> Option<&'a [u8]>
    ensures { MatchOption result (score_in scores.now name.now ≡ None)
        (λ text. score_in scores.now name.now ≡ Some text.now) }
{
    for score in scores {
        let (known, text) = score.parts();
        if known == name {
            return Some(text);
        }
    }
    None
}

/// The scores of a case that is held.
#[derive(Drop)]
pub(crate) struct CaseScores<'a> {
    scores: &'a [Score],
}

impl Case {
    /// Its scores, by their names.
    pub(crate) fn scores(&self) -> CaseScores<'_>
        ensures { result.scores.now ≡ self.now.scores.items }
    {
        CaseScores {
            scores: &self.scores,
        }
    }
}

impl<'a> Scores for CaseScores<'a> {
    type Reader = HeldScore<'a>;

    ghost use Rattle.std.specs.Prelude.{true};
    ghost use Rattle.hum_many.specs.Cases.{score_in};

    ghost is_known = { λ _. true };

    ghost score = { λ s name. score_in s.scores.now name };

    fn reader(&self, name: &str) -> Option<HeldScore<'a>> {
        match find(self.scores, name.as_bytes()) {
            Some(text) => Some(HeldScore::new(text)),
            None => None,
        }
    }
}

/// Reads a score behind its name, and holds it if it has at most so many bytes.
fn read_score<R: Source + Drop, W: Sink + Drop>(
    alloc: Global,
    packets: &mut Packets<R>,
    answers: &mut Answers<W>,
    left: usize,
) -> Result<Option<Score>, Stop>
    ensures took { IfOk result (TookScore R.Source left packets.old packets.new) }
    ensures lost { IfErr result (Lost R.Source StopsInList packets.old) }
    ensures serves { Serves W.Sink answers.old answers.new (is_write result) }
{
    let len = packets.last().len();
    let held = len.min(left);
    let Ok(name) = Vec::from_slice(alloc, &packets.last()[..held]) else {
        return Err(Stop::Memory);
    };
    let Text { bytes, is_whole } = read_text(alloc, packets, answers, left - held)?;
    if held < len || !is_whole {
        return Ok(None);
    }
    Ok(Some(Score { name, text: bytes }))
}

/// Reads the scores of a case.
fn read_scores<R: Source + Drop, W: Sink + Drop>(
    alloc: Global,
    packets: &mut Packets<R>,
    answers: &mut Answers<W>,
) -> Result<Case, Stop>
    ensures took { IfOk result (λ case. TookCase R.Source packets.old packets.new case.scores.items case.is_too_large) }
    ensures lost { IfErr result (Lost R.Source StopsInCase packets.old) }
    ensures serves { Serves W.Sink answers.old answers.new (is_write result) }
{
    let mut case = Case::new(alloc);
    for _ in 0..u64::MAX {
        if !packets.next(answers)? {
            return Ok(case);
        }
        let score = read_score(alloc, packets, answers, case.left)?;
        case.add(score)?;
    }
    Err(Stop::Memory)
}

/// Reads the next case, or none where the input ends.
///
/// # Errors
/// The input ends in a case or has no packet there, a read or a write failed, or memory ran out.
pub(crate) fn read_case<R: Source + Drop, W: Sink + Drop>(
    alloc: Global,
    packets: &mut Packets<R>,
    answers: &mut Answers<W>,
) -> Result<Option<Case>, Stop>
    ensures took { IfOk result (λ found. MatchOption found (EndsHere R.Source packets.old)
        (λ case. TookCase R.Source packets.old packets.new case.scores.items case.is_too_large)) }
    ensures lost { IfErr result (LostCase R.Source packets.old) }
    ensures serves { Serves W.Sink answers.old answers.new (is_write result) }
{
    if packets.is_at_end(answers)? {
        return Ok(None);
    }
    Ok(Some(read_scores(alloc, packets, answers)?))
}
