//! Tokens that were searched before.
ghost use Rattle.std.specs.Prelude.{◌≡◌, ℕ, Bool, List, Some, IfOk};
ghost use Rattle.hum_pattern.specs.Meaning.{matched};
ghost use Rattle.hum_pattern.specs.Searching.{AllFound, Finds};

use std::alloc::{AllocError, Global};

/// How many tokens are remembered at most.
const PLACES: usize = 64;

/// Longer tokens aren't remembered.
const LONGEST: usize = 64;

/// A token that was searched, and whether the pattern has a match in it, if one was.
#[derive(Drop)]
pub(crate) struct Searched {
    token: Vec<u8>,
    found: Option<bool>,
}

/// The place of a token among those that are remembered, by its bytes at both ends and its length.
fn place_of(token: &[u8]) -> usize {
    let ends = match token {
        [] => 0,
        [only] => *only as usize,
        [first, .., last] => *first as usize * 5 + *last as usize,
    };
    (ends + token.len() % PLACES) % PLACES
}

impl Searched {
    /// It becomes this token, in which a match was found or none.
    fn set(&mut self, token: &[u8], found: bool)
        ensures { (text : List ℕ) → matched text token.now ≡ found → Finds text self.new }
    {
        self.found = None;
        self.token.clear();
        if self.token.extend_from_slice(token).is_ok() {
            self.found = Some(found);
        }
    }

    /// Whether a match is known to be in this token.
    fn known(&self, token: &[u8]) -> Option<bool>
        ensures { (text : List ℕ) → Finds text self.now → (found : Bool) → result ≡ Some found
            → matched text token.now ≡ found }
    {
        if self.token.as_slice() == token {
            self.found
        } else {
            None
        }
    }
}

/// Makes the places that are still to be made, as far as there is memory for them.
fn make_places(searched: &mut Vec<Searched>)
    ensures { (text : List ℕ) → AllFound text searched.old.items → AllFound text searched.new.items }
{
    let alloc = *searched.allocator();
    for _ in searched.len()..PLACES {
        let place = Searched {
            token: Vec::new(alloc),
            found: None,
        };
        match searched.push(place) {
            Ok(()) => {}
            Err(_) => return,
        }
    }
}

/// Whether a match was found in a token, if that is remembered.
pub(crate) fn recalled(searched: &[Searched], token: &[u8]) -> Option<bool>
    ensures { (text : List ℕ) → AllFound text searched.now → (found : Bool) → result ≡ Some found
        → matched text token.now ≡ found }
{
    let place = place_of(token);
    if place >= searched.len() {
        return None;
    }
    searched[place].known(token)
}

/// A token is remembered in which a match was found or none, if there is memory for it.
pub(crate) fn remember(searched: &mut Vec<Searched>, token: &[u8], found: bool)
    ensures { (text : List ℕ) → AllFound text searched.old.items → matched text token.now ≡ found
        → AllFound text searched.new.items }
{
    if token.len() > LONGEST {
        return;
    }
    let place = place_of(token);
    make_places(searched);
    if place < searched.len() {
        searched[place].set(token, found);
    }
}
