//! Where the spines under a record go.
ghost use Rattle.std.specs.Prelude.{◌≡◌, ◌==◌, ◌≤◌, length, if◌then◌else◌, slice_index_or, Some, None};
ghost use Rattle.std.specs.Prelude.{◌&&◌, ℕ, nat_le, IfOk, OnOk};
ghost use Rattle.std.specs.List.{position};
ghost use Rattle.hum_path.specs.Chains.{goes_on};
ghost use Rattle.hum_context.specs.Queue.{place_in};

use hum_path::{MOST_SPINES, Move, Moves};
use std::alloc::{AllocError, Global};

/// For each spine under a record the place of the one that goes on from it.
#[derive(Drop)]
pub(crate) enum Below {
    /// Each of so many spines goes on at its place.
    Same(usize),
    /// They go on at these places, if they do.
    Listed(Vec<Option<u32>>),
}

/// Makes room for so many places.
fn widen(places: &mut Vec<Option<u32>>, count: usize) -> Result<(), AllocError>
    ensures kept { OnOk result ((c : ℕ) → slice_index_or places.new.items c None
        ≡ slice_index_or places.old.items c None) }
    ensures wide { OnOk result (count ≤ length places.new.items) }
{
    for _ in places.len()..count {
        places.push(None)?;
    }
    Ok(())
}

/// The spine at place j goes on at this place.
fn mark(places: &mut Vec<Option<u32>>, j: usize, place: u32) -> Result<(), AllocError>
    requires { j ≤ 65535 }
    ensures { OnOk result ((c : ℕ) → slice_index_or places.new.items c None
        ≡ (if j == c then Some place else slice_index_or places.old.items c None)) }
{
    widen(places, j + 1)?;
    places[j] = Some(place);
    Ok(())
}

/// Those from the first to the last do.
fn mark_all(
    places: &mut Vec<Option<u32>>,
    first: usize,
    last: usize,
    place: u32,
) -> Result<(), AllocError>
    requires { last ≤ 65535 }
    ensures { OnOk result ((c : ℕ) → slice_index_or places.new.items c None
        ≡ (if nat_le first c && nat_le c last then Some place
        else slice_index_or places.old.items c None)) }
{
    for j in first..last + 1 {
        mark(places, j, place)?;
    }
    Ok(())
}

/// Those that go on by a move do.
fn mark_move(places: &mut Vec<Option<u32>>, from: Move, place: u32) -> Result<(), AllocError>
    ensures { OnOk result ((c : ℕ) → slice_index_or places.new.items c None
        ≡ (if goes_on c from then Some place else slice_index_or places.old.items c None)) }
{
    match from {
        Move::Same(j) => mark(places, j as usize, place),
        Move::Left(j) => mark(places, j as usize, place),
        Move::Right(_) => Ok(()),
        Move::Added(_) => Ok(()),
        Move::Join(first, last) => mark_all(places, first as usize, last as usize, place),
    }
}

/// The places at which spines go on by some moves.
fn places_below(alloc: Global, moves: &[Move]) -> Result<Vec<Option<u32>>, AllocError>
    requires { length moves.now ≤ MOST_SPINES }
    ensures { IfOk result (λ places. (c : ℕ) → slice_index_or places.items c None
        ≡ position (goes_on c) moves.now) }
{
    let mut places = Vec::new(alloc);
    for n in 0..moves.len() {
        let i = moves.len() - 1 - n;
        let from = moves[i];
        mark_move(&mut places, from, i as u32)?;
    }
    Ok(places)
}

impl Below {
    /// By these moves.
    pub(crate) fn by(alloc: Global, found: &Moves) -> Result<Below, AllocError>
        requires { length found.now ≤ MOST_SPINES }
        ensures { IfOk result (λ below. (c : ℕ) → place_in below c
            ≡ position (goes_on c) found.now) }
    {
        match found.as_listed() {
            None => Ok(Below::Same(found.len())),
            Some(moves) => {
                let places = places_below(alloc, moves)?;
                Ok(Below::Listed(places))
            }
        }
    }

    /// The place at which the spine at place c goes on.
    pub(crate) fn of(&self, c: usize) -> Option<usize>
        ensures { result ≡ place_in self.now c }
    {
        match self {
            Below::Same(width) => { if c < *width { Some(c) } else { None } }
            Below::Listed(places) => {
                if c >= places.len() {
                    return None;
                }
                match places[c] {
                    None => None,
                    Some(place) => Some(place as usize),
                }
            }
        }
    }
}
