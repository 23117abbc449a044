//! Orders of turns and results, and each theorem at types of its own.
use crate::compared::same;
use hum_stage::{Command, End, Fault, Rule};
use hum_turns::{Leftmost, Order, Rightmost, RunResult, choose};

#[test]
fn a_run_ends_by_what_the_sink_has_heard(rt: HostRuntime) {
    let fault = Fault {
        stage: 3,
        command: Command::Mint,
        line: 12,
        rule: Rule::K1,
    };
    let finished = RunResult::from_end(End::Closed);
    same(&rt, finished, RunResult::Finished, "closed");
    let broken = RunResult::from_end(End::Broken(fault));
    same(&rt, broken, RunResult::Fault(fault), "broken");
}

/// Picks, and what is chosen of four actors, of which the second and the last are ready.
const PICKS: &[(usize, usize)] = &[(3, 3), (1, 1), (0, 1), (2, 1), (4, 1), (usize::MAX, 1)];

#[test]
fn a_pick_that_is_not_ready_counts_as_the_leftmost(rt: HostRuntime) {
    let ready = [false, true, false, true];
    for row in PICKS {
        let (pick, chosen) = *row;
        same(&rt, choose(&ready, pick), chosen, pick);
    }
    // where none is ready the choice is none of them
    same(&rt, choose(&[], 0), 0, 0);
    same(&rt, choose(&[false, false], 1), 2, 1);
}

/// Whether each actor is ready, and which is picked from the left and from the right.
const SIDES: &[(&[bool], usize, usize)] = &[
    (&[false, true, false, true, false], 1, 3),
    (&[true], 0, 0),
];

#[test]
fn orders_pick_from_their_side(rt: HostRuntime) {
    for row in SIDES {
        let (ready, left, right) = *row;
        same(
            &rt,
            (Leftmost.pick(ready), Rightmost.pick(ready)),
            (left, right),
            ready,
        );
    }
}

#[test]
fn theorems_hold_at_each_type(_rt: HostRuntime) {
    hum_turns::every_order::<u8>();
    hum_turns::whose_fault::<u8>();
    hum_turns::every_meaning_is_fine::<u8>();
    hum_turns::every_turn::<u8>();
    hum_turns::every_pick::<u8, Leftmost>();
    hum_turns::every_end::<u8>();
    hum_turns::every_order_ends::<u8, Rightmost>();
    hum_turns::every_turn_is_near::<u8>();
}
