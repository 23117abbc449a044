//! Orders of turns.
ghost use Rattle.std.specs.Prelude.{◌≡◌, ℕ, List, Bool, true, false, get_or, IfSome};
ghost use Rattle.hum_turns.specs.Orders.{first_true, last_true, some_true, chosen, LeansTo};

/// A side of the row of actors, in which the stages stand by their numbers and the sink behind them.
#[derive(Clone, Copy, Debug, PartialEq, Eq)]
pub enum Side {
    /// Where the first stage stands.
    Left,
    /// Where the sink stands.
    Right,
}

/// A rule for whose turn is next, which may remember what it has seen.
///
/// What it picks and what it is afterwards are functions of what it was before and of which
/// actors are ready. A pick that isn't ready counts as the leftmost actor that is ([`choose`]).
pub trait Order {
    /// The place that it picks.
    ghost picks: { Self → List Bool → ℕ };

    /// What it is after that pick.
    ghost after: { Self → List Bool → Self };

    /// Picks one of the actors, of which at least one is ready.
    fn pick(&mut self, ready: &[bool]) -> usize
        requires { some_true ready.now ≡ true }
        ensures picks { result ≡ picks self.old ready.now }
        ensures after { self.new ≡ after self.old ready.now };

    /// The side that it leans to, if of the actors that are ready it picks the one furthest to that
    /// side, at each moment, and stays as it is. Whoever drives a run by it may then look for that
    /// actor without it.
    fn side(&self) -> Option<Side>
        ensures { IfSome result (λ side. LeansTo side picks after self.now) }
    {
        None
    }
}

/// What a pick counts as: itself, or the leftmost actor that is ready. Where none is, it is the
/// number of actors.
pub fn choose(ready: &[bool], pick: usize) -> usize
    ensures chosen { result ≡ chosen ready.now pick }
    ensures is_ready { some_true ready.now ≡ true → get_or ready.now result false ≡ true }
{
    if pick < ready.len() && ready[pick] {
        return pick;
    }
    for (k, &is) in ready.iter().enumerate() {
        if is {
            return k;
        }
    }
    ready.len()
}

/// The leftmost actor that is ready: records go no further than they have to.
#[derive(Drop)]
pub struct Leftmost;

impl Order for Leftmost {
    ghost picks = { λ _order ready. first_true ready };

    ghost after = { λ order _ready. order };

    fn pick(&mut self, ready: &[bool]) -> usize {
        choose(ready, ready.len())
    }

    fn side(&self) -> Option<Side> {
        Some(Side::Left)
    }
}

/// The rightmost actor that is ready: what can be written is written first.
#[derive(Drop)]
pub struct Rightmost;

impl Order for Rightmost {
    ghost picks = { λ _order ready. last_true ready };

    ghost after = { λ order _ready. order };

    fn pick(&mut self, ready: &[bool]) -> usize {
        let mut end = ready.len();
        while end > 0 {
            end -= 1;
            if ready[end] {
                return end;
            }
        }
        0
    }

    fn side(&self) -> Option<Side> {
        Some(Side::Right)
    }
}
