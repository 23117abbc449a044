//! Answers to cases.
ghost use Rattle.std.specs.Prelude.{◌≡◌, ℕ, List, Some, nat_lt, false};
ghost use Rattle.hum_plan.specs.Stages.{IsTree};
ghost use Rattle.hum_plan.specs.Seen.{stages_of};
ghost use Rattle.hum_plan.specs.Grammar.{IsPlanOf};
ghost use Rattle.hum_words.specs.Bundle.{largest};
ghost use Rattle.hum_packets.specs.Streams.{HasAnswered, Hands, is_write};
ghost use Rattle.hum_many.specs.Answers.{told, CaseComes, held_outcome};
ghost use Rattle.hum_many.specs.Cases.{Named, size};

use crate::cases::Case;
use crate::held::HeldText;
use hum_net::{Outcome, Rightmost, RunResult, run_named};
use hum_packets::{Answers, Stop};
use hum_plan::PlanStage;
use hum_text::calls::Sink;
use std::alloc::{AllocError, Global};
use std::fmt;

/// How many records a link holds.
const LINK: u16 = 16;

/// What is told of an outcome: its status, and the line that tells it.
#[derive(Clone, Copy)]
struct Told {
    outcome: Outcome,
}

impl fmt::Display for Told {
    ghost use Rattle.hum_many.specs.Answers.{told};

    ghost output = { λ t. Some (told t.outcome) };

    fn fmt<W: fmt::Write>(&self, f: &mut fmt::Formatter<W>) -> fmt::Result {
        let outcome = self.outcome;
        match outcome.status() {
            0 => f.write_str("0"),
            status => write!(f, "{status} {outcome}"),
        }
    }
}

/// Answers with a text, and how it ended.
pub(crate) fn tell<W: Sink + Drop>(
    alloc: Global,
    answers: &mut Answers<W>,
    text: &[u8],
    outcome: Outcome,
) -> Result<(), Stop>
    ensures answered { HasAnswered W.Sink text.now (told outcome) answers.old answers.new result }
    ensures hands { Hands W.Sink answers.old answers.new (is_write result) }
{
    if outcome.status() == 0 {
        return answers.answer(text, b"0");
    }
    let told = match (Told { outcome }).to_string(alloc) {
        Ok(told) => told,
        Err(_) => return Err(Stop::Memory),
    };
    answers.answer(text, told.as_str().as_bytes())
}

/// A text is held, so that a write of it fails only where memory runs out.
fn held_outcome(outcome: Outcome) -> Outcome
    ensures { result ≡ held_outcome outcome }
{
    match outcome {
        Outcome::Run(RunResult::Write) => Outcome::Run(RunResult::Memory),
        _ => outcome,
    }
}

/// Runs the stages of a plan over a case.
pub(crate) fn run_case(alloc: Global, stages: &[PlanStage], case: &Case) -> (Outcome, Vec<u8>)
    requires { IsTree (stages_of stages.now) }
    ensures { (plan : List ℕ) → IsPlanOf plan (stages_of stages.now) → (scores : List Named)
        → case.now.is_too_large ≡ nat_lt largest (size scores)
        → (case.now.is_too_large ≡ false → case.now.scores.items ≡ scores)
        → CaseComes plan scores result.1.items result.0 }
{
    let text = HeldText::new(alloc);
    if case.is_too_large {
        return (Outcome::TooLarge, text.into_bytes());
    }
    // from the right, each record goes through before the next is read: few are held
    let (outcome, text) = run_named(alloc, stages, &case.scores(), LINK, &mut Rightmost, text);
    (held_outcome(outcome), text.into_bytes())
}
