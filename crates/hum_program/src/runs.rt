//! Runs of a bundle that is read, and of a plan that is read from a file.
ghost use Rattle.std.specs.Prelude.{◌≡◌, ◌≤◌, true, IfOk, IfErr};
ghost use Rattle.hum_words.specs.declared.text.TheConstants.{LONGEST_PLAN};
ghost use Rattle.hum_turns.specs.Ordering.{order_of};
ghost use Rattle.hum_program.specs.Reads.{AreReadOf};
ghost use Rattle.hum_program.specs.Endings.{IsUnread};
ghost use Rattle.hum_program.specs.Runs.{RanBundle, RanPlan, RanOr};

use crate::ending::Ending;
use crate::folder::{Folder, FolderScores};
use crate::reading::{read_all, unread};
use hum_net::{Order, Sink, run_bundle, run_scores};
use hum_words::{LARGEST_BUNDLE, LONGEST_PLAN};
use std::alloc::Global;
use std::io::Read;

/// Runs the input as a bundle, with links that hold so many records. The writer is handed back with
/// how that ended.
pub(crate) fn run_input<R: Read + Drop, O: Order, W: Sink + Drop>(
    alloc: Global,
    input: R,
    link: u16,
    order: &mut O,
    writer: W,
) -> (Ending, W)
    requires link { 1 ≤ link }
    requires room { link ≤ 4096 }
    ensures { RanOr (order_of O.Order) link W.Sink order.old order.new writer result.1
        (RanBundle (order_of O.Order) link W.Sink order.old order.new writer result.1 (R.remaining input))
        result.0 }
{
    match read_all(alloc, input, LARGEST_BUNDLE as u32) {
        Ok(bundle) => {
            let (outcome, writer) = run_bundle(alloc, &bundle, link, order, writer);
            (Ending::Outcome(outcome), writer)
        }
        Err(ending) => (ending, writer),
    }
}

/// The bytes of a plan's file, or what the program ends with.
fn read_plan<F: Folder>(alloc: Global, folder: &F, name: &str) -> Result<Vec<u8>, Ending>
    ensures read { IfOk result (λ plan. F.is_known folder.now ≡ true
        → AreReadOf LONGEST_PLAN (F.file folder.now name.now) plan.items) }
    ensures unread { IfErr result IsUnread }
{
    match folder.open(name) {
        Ok(file) => read_all(alloc, file, LONGEST_PLAN as u32),
        Err(error) => Err(unread(&error)),
    }
}

/// Runs the plan of a file over the files that it names, with links that hold so many records. The
/// writer is handed back with how that ended.
pub(crate) fn run_plan<F: Folder, O: Order, W: Sink + Drop>(
    alloc: Global,
    folder: &F,
    name: &str,
    link: u16,
    order: &mut O,
    writer: W,
) -> (Ending, W)
    requires link { 1 ≤ link }
    requires room { link ≤ 4096 }
    ensures { RanOr (order_of O.Order) link W.Sink order.old order.new writer result.1
        (RanPlan (order_of O.Order) link W.Sink order.old order.new writer result.1
        (F.is_known folder.now) (F.file folder.now) name.now) result.0 }
{
    match read_plan(alloc, folder, name) {
        Ok(plan) => {
            let scores = FolderScores::new(folder);
            let (outcome, writer) = run_scores(alloc, &plan, &scores, link, order, writer);
            (Ending::Outcome(outcome), writer)
        }
        Err(failed) => (failed, writer),
    }
}
