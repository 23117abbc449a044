//! The pipeline called as a library: a bundle is run, and a net is moved turn by turn.
ghost use Rattle.std.specs.Prelude.{◌≡◌, ◌||◌, ℕ, false, List, Option, length, nat_lt};
ghost use Rattle.hum_words.specs.Bundle.{largest, plan_of as plan_of_text, score_of};
ghost use Rattle.hum_score.specs.Row.{Row};
ghost use Rattle.hum_turns.specs.Failures.{Now, result as ended};
ghost use Rattle.hum_engine.specs.Scene.{Scene, plan_of};
ghost use Rattle.hum_engine.specs.Nets.{NetAt};
ghost use Rattle.hum_net.specs.Scenes.{commands};
ghost use Rattle.hum_net.specs.Bundles.{ComesOfBundle, is_failed_write, is_read_by};

use hum_net::{Leftmost, Net, Outcome, RunResult, Sink, Source, run_bundle};
use std::alloc::Global;

/// Runs a bundle, a plan and its scores in one stream: the leftmost actor that is ready has each turn.
pub fn run_leftmost<W: Sink + Drop>(alloc: Global, bundle: &[u8], writer: W) -> (Outcome, W)
    ensures comes { ComesOfBundle (nat_lt largest (length bundle.now)) (plan_of_text bundle.now)
        (λ name. score_of name bundle.now) (W.contents writer) (W.contents result.1)
        (W.flushed result.1) result.0 }
    ensures marked { W.failed result.1 ≡ (W.failed writer || is_failed_write result.0) }
    ensures unread { (k : ℕ) → is_read_by k result.0 ≡ false }
{
    run_bundle(alloc, bundle, 16, &mut Leftmost, writer)
}

/// Makes so many rounds of turns, in each of which every actor that is ready has one; answers how the
/// run ended, if it has.
pub fn make_rounds<R: Source + Drop, W: Sink>(
    net: &mut Net<R, W>,
    rounds: usize,
) -> Option<RunResult>
    ensures { (start : Option (List ℕ)) (s : Scene) (now : Now Row)
        → NetAt commands W.Sink start s net.new now → result ≡ ended (plan_of s) now }
{
    for _ in 0..rounds {
        for k in 0..net.actors() {
            if net.ready(k) {
                net.turn(k);
            }
        }
    }
    net.result()
}
