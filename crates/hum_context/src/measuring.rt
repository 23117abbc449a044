//! How much text is collected.
ghost use Rattle.std.specs.Prelude.{◌≡◌, ◌<◌, ◌≤◌, ◌^◌, ℕ, List, [], length, drop, Some, None};
ghost use Rattle.hum_score.specs.Row.{Row};
ghost use Rattle.hum_score.specs.Spines.{Path};
ghost use Rattle.hum_context.specs.{Context.Choice, Context.taken, Heard.wanted_of, Queue.Knows};
ghost use Rattle.hum_context.specs.{Walking.bytes_of, Walking.collected};

use crate::heard::Heard;
use crate::links::Sought;
use crate::queued::Queued;
use crate::skipping::Place;
use crate::stepping::is_enough;
use hum_stage::MOST_RECORDS;
use std::collections::VecDeque;

/// How many bytes the tokens have that are collected from a cell of the k-th record that waits, with
/// one behind each, where they are enough.
pub(crate) fn measure(held: &VecDeque<Queued>, k: usize, j: usize, wanted: Option<u16>) -> u64
    requires few { length held.now.items ≤ MOST_RECORDS }
    requires within { k < length held.now.items }
    ensures few { result ≤ 2 ^ 53 }
    ensures size { (o : Choice) (path : Path) (rows : List Row) → wanted ≡ wanted_of o.extent
        → taken o.extent [] ≡ None → Knows o path (drop k held.now.items) rows
        → (tokens : List (List ℕ)) → taken o.extent (collected o path rows j) ≡ Some tokens
        → result ≡ bytes_of tokens }
{
    let mut size: u64 = 0;
    let mut here = Place { n: k, c: j };
    let mut count: u64 = 0;
    while here.n < held.len() {
        let next = &held[here.n];
        match next.heard(here.c) {
            Heard::Taken { begins: _, ends } => {
                size += next.bytes(here.c);
                count += 1;
                if is_enough(wanted, count, ends) {
                    return size;
                }
                here.n += 1;
            }
            Heard::Passed => {
                let Some(to) = next.step(Sought::Any, here.c, held.len() - here.n) else {
                    return size;
                };
                here = Place {
                    n: here.n + to.n,
                    c: to.c,
                };
            }
        }
    }
    size
}
