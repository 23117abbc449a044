//! Runs of bundles: a plan and its scores in one stream.
ghost use Rattle.std.specs.Prelude.{◌≡◌, ◌≤◌, ◌+◌, ◌||◌, length, nat_lt, true, false, ℕ};
ghost use Rattle.hum_turns.specs.Ordering.{order_of};
ghost use Rattle.hum_words.specs.Bundle.{largest, plan_of, score_of};
ghost use Rattle.hum_net.specs.Bundles.{ComesOfBundle, is_refused, Picks, Ends};
ghost use Rattle.hum_net.specs.Bundles.{is_failed_write, is_read_by};

use crate::held::HeldScore;
use crate::outcome::Outcome;
use crate::scores::{Scores, run_scores};
use hum_text::calls::Sink;
use hum_turns::Order;
use hum_words::{is_too_large, plan_part, score};
use std::alloc::Global;

/// The scores of a bundle.
#[derive(Drop)]
struct BundleScores<'a> {
    bundle: &'a [u8],
}

impl<'a> Scores for BundleScores<'a> {
    type Reader = HeldScore<'a>;

    ghost use Rattle.std.specs.Prelude.{true};
    ghost use Rattle.hum_words.specs.Bundle.{score_of};

    ghost is_known = { λ _. true };

    ghost score = { λ s name. score_of name s.bundle.now };

    fn reader(&self, name: &str) -> Option<HeldScore<'a>> {
        match score(self.bundle, name) {
            Some(bytes) => Some(HeldScore::new(bytes)),
            None => None,
        }
    }
}

/// Runs a bundle, with links that hold so many records. The writer is handed back with how it ended.
pub fn run_bundle<O: Order, W: Sink + Drop>(
    alloc: Global,
    bundle: &[u8],
    link: u16,
    order: &mut O,
    writer: W,
) -> (Outcome, W)
    requires link { 1 ≤ link }
    requires room { link ≤ 4096 }

    // A bundle that is too large is refused, and else a text that is no plan, by its first fault, and
    // else the first stage whose score isn't there. Else the plan's stages are run over the scores of
    // their names: what was written is the text of what they mean, whatever the order and the links,
    // which is valid Humdrum unless interpretations are dropped, and the outcome is how that ends; or a
    // failure ended it, and a prefix of that text was written.
    ensures comes { ComesOfBundle (nat_lt largest (length bundle.now)) (plan_of bundle.now)
        (λ name. score_of name bundle.now) (W.contents writer) (W.contents result.1) (W.flushed result.1) result.0 }

    // The turns are those that the order picked, to the run's end, and it is left as its picks leave
    // it; where there is no turn it is not asked.
    ensures picked { Picks (order_of O.Order) (plan_of bundle.now) (λ name. score_of name bundle.now) link
        order.old order.new result.0 }

    // What was written is what the run had written at its last moment, after a failure too.
    ensures ended { Ends (order_of O.Order) (plan_of bundle.now) (λ name. score_of name bundle.now) link
        order.old order.new (W.contents writer) (W.contents result.1) result.0 }

    // A failed write or flush is told exactly where one set the writer's mark.
    ensures marked { W.failed result.1 ≡ (W.failed writer || is_failed_write result.0) }

    // It is flushed once at most, as the run ends.
    ensures flushes { W.flushes result.1 ≤ W.flushes writer + 1 }

    // The scores are held, so that no read of one fails, and none is told to.
    ensures unread { (k : ℕ) → is_read_by k result.0 ≡ false }

    // Where nothing was run, the writer is as it was.
    ensures refused { is_refused result.0 ≡ true → result.1 ≡ writer }
{
    if is_too_large(bundle) {
        return (Outcome::TooLarge, writer);
    }
    let scores = BundleScores { bundle };
    run_scores(alloc, plan_part(bundle), &scores, link, order, writer)
}
