//! The program, given its words, its input, its files and its output.
ghost use Rattle.std.specs.Prelude.{◌≤◌, map, string_bytes};
ghost use Rattle.hum_turns.specs.Ordering.{order_of};
ghost use Rattle.hum_program.specs.Program.{RanNamed, RanTo, Does};

use crate::ending::Ending;
use crate::folder::Folder;
use crate::line::{Choice, LineFault, Side, read_line};
use crate::runs::{run_input, run_plan};
use hum_net::{Leftmost, Order, Rightmost, Sink};
use std::alloc::Global;
use std::io::Read;

/// Runs what was chosen, in an order.
fn run_in_order<R: Read + Drop, F: Folder, O: Order, W: Sink + Drop>(
    alloc: Global,
    choice: Choice<'_>,
    input: R,
    folder: &F,
    order: &mut O,
    writer: W,
) -> (Ending, W)
    requires link { 1 ≤ choice.link }
    requires room { choice.link ≤ 4096 }
    ensures { RanNamed W.Sink writer result.1 (R.remaining input) (F.is_known folder.now) (F.file folder.now)
        (order_of O.Order) choice.entry.link order.old order.new choice.entry.file result.0 }
{
    match choice.file {
        None => run_input(alloc, input, choice.link, order, writer),
        Some(name) => run_plan(alloc, folder, name, choice.link, order, writer),
    }
}

/// Runs what was chosen, in the order that was chosen.
fn run_choice<R: Read + Drop, F: Folder, W: Sink + Drop>(
    alloc: Global,
    choice: Choice<'_>,
    input: R,
    folder: &F,
    writer: W,
) -> (Ending, W)
    requires link { 1 ≤ choice.link }
    requires room { choice.link ≤ 4096 }
    ensures { RanTo W.Sink writer result.1 (R.remaining input) (F.is_known folder.now) (F.file folder.now)
        choice.entry.order choice.entry result.0 }
{
    match choice.order {
        Side::Left => run_in_order(alloc, choice, input, folder, &mut Leftmost, writer),
        Side::Right => run_in_order(alloc, choice, input, folder, &mut Rightmost, writer),
    }
}

/// Runs what the words of a command line ask for, the program's name first: the input as a bundle, or
/// the plan of a file of the folder. The writer is handed back with how that ended.
pub fn run_program<R: Read + Drop, F: Folder, W: Sink + Drop>(
    alloc: Global,
    words: &[String],
    input: R,
    folder: &F,
    writer: W,
) -> (Ending, W)
    ensures { Does W.Sink writer result.1 (R.remaining input) (F.is_known folder.now) (F.file folder.now)
        (map (λ word. string_bytes word) words.now) result.0 }
{
    match read_line(alloc, words) {
        Ok(choice) => run_choice(alloc, choice, input, folder, writer),
        Err(LineFault::Usage) => (Ending::Usage, writer),
        Err(LineFault::Memory(_)) => (Ending::Memory, writer),
    }
}
