//! The options that were given, each with its value.
ghost use Rattle.std.specs.Prelude.{◌≡◌, ◌==◌, ◌||◌, ◌++◌, [], ◌∷◌, is_some, position, OnOk};
ghost use Rattle.std.specs.List.{list_any};
ghost use Rattle.std.specs.Option.{option_map};
ghost use Rattle.hum_options.specs.{Options.excludes, Answers.is_barred, Seen.seen};
ghost use Rattle.hum_options.specs.Given.{value_at, kind_at, AreKept};

use crate::options::{ValueKind, excludes};
use crate::values::{Name, Separator, Steps, Value, of_kind};
use hum_choices::{FieldRange, TokenCount, YankRange};
use hum_words::Command;
use std::alloc::{AllocError, Global};
use std::marker::Model;

/// An option that was given.
#[derive(Drop)]
pub(crate) struct GivenOption<V> {
    letter: u8,
    value: V,
}

/// Whether one is the option of a letter or excludes it.
fn are_barring<V>(entries: &[GivenOption<V>], command: Command, letter: u8) -> bool
    ensures { result ≡ list_any (λ g. g.letter == letter || excludes command g.letter letter) entries.now }
{
    entries.iter().any(|given| given.letter == letter || excludes(command, given.letter, letter))
}

/// Where the first option of a letter stands.
fn place_of<V>(entries: &[GivenOption<V>], letter: u8) -> Option<usize>
    ensures { result ≡ position (λ g. g.letter == letter) entries.now }
{
    entries.iter().position(|given| given.letter == letter)
}

/// The options that were given, in order.
#[derive(Drop)]
pub(crate) struct GivenOptions<P> {
    entries: Vec<GivenOption<Value<P>>>,
}

impl<P> Model for GivenOptions<P> {
    ghost use Rattle.std.specs.Prelude.{List, map};
    ghost use Rattle.hum_options.specs.{Given.GivenOf, Seen.given_of};

    ghost Value = { List (GivenOf P) };

    ghost view = { λ g. map given_of g.entries.items };
}

impl<P: Drop> GivenOptions<P> {
    /// None so far.
    pub(crate) fn new(alloc: Global) -> GivenOptions<P>
        ensures { result ≡ [] }
    {
        GivenOptions {
            entries: Vec::new(alloc),
        }
    }

    /// One more.
    pub(crate) fn push(&mut self, letter: u8, value: Value<P>) -> Result<(), AllocError>
        ensures { OnOk result (self.new
            ≡ self.old ++ record { letter = letter; value = seen value } ∷ []) }
    {
        self.entries.push(GivenOption { letter, value })?;
        Ok(())
    }

    /// Whether the option of a letter was given, or one that excludes it.
    pub(crate) fn is_barred(&self, command: Command, letter: u8) -> bool
        ensures { result ≡ is_barred command self.now letter }
    {
        are_barring(&self.entries, command, letter)
    }

    /// Whether the option of a letter was given.
    pub(crate) fn has(&self, letter: u8) -> bool
        ensures { result ≡ is_some (value_at letter self.now) }
    {
        place_of(&self.entries, letter).is_some()
    }

    /// Takes out the value of the option of a letter, if it was given.
    pub(crate) fn take(&mut self, letter: u8) -> Option<Value<P>>
        ensures value { option_map seen result ≡ value_at letter self.old }
        ensures others { AreKept letter self.old self.new }
    {
        let place = place_of(&self.entries, letter)?;
        let GivenOption { letter: _, value } = self.entries.remove(place);
        Some(value)
    }

    // Each of these takes out the value of the option of a letter, if it was given and is of the kind.

    pub(crate) fn fields(&mut self, letter: u8) -> Option<Vec<FieldRange>>
        ensures value { option_map (λ ranges. ranges.items) result ≡ kind_at ValueKind.Fields letter self.old }
        ensures others { AreKept letter self.old self.new }
    {
        of_kind!(self.take(letter)?, Fields)
    }

    pub(crate) fn name(&mut self, letter: u8) -> Option<Name>
        ensures value { option_map (λ name. name.text.items) result ≡ kind_at ValueKind.Name letter self.old }
        ensures others { AreKept letter self.old self.new }
    {
        of_kind!(self.take(letter)?, Name)
    }

    pub(crate) fn text(&mut self, letter: u8) -> Option<Separator>
        ensures value { option_map (λ separator. separator.text.items) result ≡ kind_at ValueKind.Text letter self.old }
        ensures others { AreKept letter self.old self.new }
    {
        of_kind!(self.take(letter)?, Text)
    }

    pub(crate) fn ranges(&mut self, letter: u8) -> Option<Vec<YankRange>>
        ensures value { option_map (λ ranges. ranges.items) result ≡ kind_at ValueKind.Ranges letter self.old }
        ensures others { AreKept letter self.old self.new }
    {
        of_kind!(self.take(letter)?, Ranges)
    }

    pub(crate) fn pattern(&mut self, letter: u8) -> Option<P>
        ensures value { result ≡ kind_at ValueKind.Pattern letter self.old }
        ensures others { AreKept letter self.old self.new }
    {
        of_kind!(self.take(letter)?, Pattern)
    }

    pub(crate) fn count(&mut self, letter: u8) -> Option<TokenCount>
        ensures value { option_map (λ count. count.number) result ≡ kind_at ValueKind.Count letter self.old }
        ensures others { AreKept letter self.old self.new }
    {
        of_kind!(self.take(letter)?, Count)
    }

    pub(crate) fn steps(&mut self, letter: u8) -> Option<Steps>
        ensures value { option_map (λ steps. steps.number) result ≡ kind_at ValueKind.Steps letter self.old }
        ensures others { AreKept letter self.old self.new }
    {
        of_kind!(self.take(letter)?, Steps)
    }
}
