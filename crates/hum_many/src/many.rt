//! A plan and cases that are read, and their answers.
ghost use Rattle.std.specs.Prelude.{◌≡◌, ◌||◌, true, false, ℕ, List, OnOk, IfOk, IfErr};
ghost use Rattle.hum_plan.specs.Stages.{IsTree};
ghost use Rattle.hum_plan.specs.Seen.{stages_of};
ghost use Rattle.hum_plan.specs.Grammar.{IsPlanOf};
ghost use Rattle.hum_packets.specs.Streams.{Hands, HasFailed, is_write, coming, going};
ghost use Rattle.hum_many.specs.Ends.{is_read_end, is_write_end};
ghost use Rattle.hum_many.specs.Many.{ManyCome};
ghost use Rattle.hum_many.specs.Talks.{TalkedToEnd, TalkedTo, AllCome, ReadFails, HasClosed};

use crate::answers::{run_case, tell};
use crate::cases::read_case;
use crate::end::{ManyEnd, end_of};
use hum_net::{Outcome, RunResult, plan_stages};
use hum_packets::{Answers, Packets, Stop, read_text};
use hum_plan::PlanStage;
use hum_text::calls::{Sink, Source};
use hum_words::LONGEST_PLAN;
use std::alloc::Global;

/// Answers the cases that are read, until there are none.
fn answer_cases<R: Source + Drop, W: Sink + Drop>(
    alloc: Global,
    stages: &[PlanStage],
    packets: &mut Packets<R>,
    answers: &mut Answers<W>,
) -> Result<(), Stop>
    requires { IsTree (stages_of stages.now) }
    ensures all { (plan : List ℕ) → IsPlanOf plan (stages_of stages.now)
        → OnOk result (TalkedToEnd R.Source W.Sink plan packets.old answers.old answers.new) }
    ensures stops { (plan : List ℕ) → IsPlanOf plan (stages_of stages.now)
        → IfErr result (TalkedTo R.Source W.Sink plan packets.old answers.old answers.new) }
    ensures hands { Hands W.Sink answers.old answers.new (is_write result) }
{
    for _ in 0..u64::MAX {
        let Some(case) = read_case(alloc, packets, answers)? else {
            return Ok(());
        };
        let (outcome, text) = run_case(alloc, stages, &case);
        tell(alloc, answers, &text, outcome)?;
    }
    Err(Stop::Memory)
}

/// Answers the plan, and then the cases: how that ends.
fn answer_all<R: Source + Drop, W: Sink + Drop>(
    alloc: Global,
    packets: &mut Packets<R>,
    answers: &mut Answers<W>,
) -> Result<ManyEnd, Stop>
    requires { packets.old.passed ≡ 0 }
    ensures come { AllCome R.Source W.Sink packets.old answers.old answers.new result }
    ensures hands { Hands W.Sink answers.old answers.new (is_write result) }
    ensures end { IfOk result (λ end. is_write_end end ≡ false) }
    ensures unread { IfOk result (λ end. is_read_end end ≡ false) }
    ensures failed { IfErr result (ReadFails R.Source) }
{
    let plan = read_text(alloc, packets, answers, LONGEST_PLAN + 1)?.bytes;
    let stages = match plan_stages(alloc, &plan) {
        Ok(stages) => stages,
        Err(outcome) => {
            tell(alloc, answers, b"", outcome)?;
            return Ok(ManyEnd::Plan(outcome));
        }
    };
    tell(alloc, answers, b"", Outcome::Run(RunResult::Finished))?;
    answer_cases(alloc, &stages, packets, answers)?;
    Ok(ManyEnd::Finished)
}

/// Does so, and tells how that ended.
fn answer_to_end<R: Source + Drop, W: Sink + Drop>(
    alloc: Global,
    packets: &mut Packets<R>,
    answers: &mut Answers<W>,
) -> ManyEnd
    requires { packets.old.passed ≡ 0 }
    ensures come { ManyCome (coming R.Source packets.old) (going W.Sink answers.old) (going W.Sink answers.new) result }
    ensures hands { Hands W.Sink answers.old answers.new (is_write_end result) }
    ensures failed { is_read_end result ≡ true → HasFailed R.Source }
{
    match answer_all(alloc, packets, answers) {
        Ok(end) => end,
        Err(stop) => end_of(stop),
    }
}

/// Writes what was answered, where no write failed before.
fn close<W: Sink + Drop>(answers: &mut Answers<W>, end: ManyEnd) -> ManyEnd
    ensures closed { HasClosed W.Sink answers.old answers.new end result }
{
    match end {
        ManyEnd::Write => ManyEnd::Write,
        _ => match answers.send() {
            Ok(()) => end,
            Err(_) => ManyEnd::Write,
        },
    }
}

/// Reads a plan and cases, and answers each in turn. The output is handed back with how that ended.
pub fn run_many<R: Source + Drop, W: Sink + Drop>(
    alloc: Global,
    input: R,
    output: W,
) -> (ManyEnd, W)
    // The plan is answered, and then each case, in their order: with the text that comes of this plan and this case,
    // and of nothing else, and how that ended. The input has ended behind the last; or the plan was refused; or what
    // stands at a byte is no packet that may stand there, and all whole cases before it are answered; or a read
    // failed, and those are answered that were read; or a write failed or memory ran out, and a front of that was written.
    ensures come { ManyCome (R.remaining input) (W.contents output) (W.contents result.1) result.0 }

    // A failed write or flush is told exactly where one set the output's mark.
    ensures marked { W.failed result.1 ≡ (W.failed output || is_write_end result.0) }

    // Where no read can fail, none is told to.
    ensures unread { ((reader : R) → R.failed reader ≡ false) → is_read_end result.0 ≡ false }
{
    let mut answers = Answers::new(alloc, output);
    let Ok(mut packets) = Packets::new(alloc, input) else {
        return (ManyEnd::Memory, answers.into_sink());
    };
    let end = answer_to_end(alloc, &mut packets, &mut answers);
    let end = close(&mut answers, end);
    (end, answers.into_sink())
}
