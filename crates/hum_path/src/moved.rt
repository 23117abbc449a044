//! Where the spines after a record come from.
ghost use Rattle.std.specs.Prelude.{◌≡◌, ◌==◌, ◌<◌, ◌≤◌, Some, length, slice_get, IfSome, IfNone};
ghost use Rattle.hum_score.specs.Spines.{same_upto};

use hum_score::Move;
use std::marker::Model;

/// For each spine after a record, where it comes from.
pub struct Moves {
    // a list, or so many spines that stay where they are
    listed: Option<Vec<Move>>,
    width: u16,
}

// Written out, so that a caller's proof sees one call and not a list that is there or not.
impl Drop for Moves {
    fn drop(self) {
        let Moves {
            listed: _listed,
            width: _,
        } = self;
    }
}

impl Model for Moves {
    ghost use Rattle.std.specs.Prelude.{List, ◌≤◌};
    ghost use Rattle.hum_score.specs.declared.spines.Move.{Move};
    ghost use Rattle.hum_path.specs.Tracked.{moves_in};

    ghost Value = { List Move };

    ghost view = { λ m. moves_in m.listed m.width };

    ghost invariant = { λ m. m.width ≤ 4096 };
}

#[tactic(auto, using(crate::proofs::Steady::same_upto_length))]
impl Moves {
    /// So many spines, each where it was.
    pub(crate) fn kept(width: u16) -> Moves
        requires { width ≤ 4096 }
        ensures { result ≡ same_upto 0 width }
    {
        Moves {
            listed: None,
            width,
        }
    }

    pub(crate) fn listed(moves: Vec<Move>) -> Moves
        ensures { result ≡ moves.items }
    {
        Moves {
            listed: Some(moves),
            width: 0,
        }
    }

    /// How many spines there are after the record.
    pub fn len(&self) -> usize
        ensures { result ≡ length self.now }
    {
        match &self.listed {
            None => self.width as usize,
            Some(moves) => moves.len(),
        }
    }

    /// Whether there are no spines after the record.
    pub fn is_empty(&self) -> bool
        ensures { result ≡ (length self.now == 0) }
    {
        self.len() == 0
    }

    /// Where a spine comes from.
    pub fn get(&self, i: usize) -> Move
        requires { i < length self.now }
        ensures { slice_get self.now i ≡ Some result }
    {
        match &self.listed {
            None => Move::Same(i as u16),
            Some(moves) => moves[i],
        }
    }

    /// The moves as a slice, or none where each spine stays where it is.
    pub fn as_listed(&self) -> Option<&[Move]>
        ensures listed { IfSome result (λ moves. moves.now ≡ self.now) }
        ensures kept { IfNone result (self.now ≡ same_upto 0 (length self.now)) }
    {
        match &self.listed {
            None => None,
            Some(moves) => Some(moves.as_slice()),
        }
    }
}
