//! What options are given.
ghost use Rattle.std.specs.Prelude.{◌≡◌, ◌≤◌, None, nat_abs, true, codes, IfOk};
ghost use Rattle.hum_choices.specs.Cleave.{is_name, fits_in_token};

use hum_choices::{FieldRange, TimebaseOptions, TokenCount, YankRange};
use std::alloc::{AllocError, Global};

/// The name of an exclusive interpretation.
#[derive(Drop)]
pub(crate) struct Name {
    pub(crate) text: Vec<u8>,
    ghost lawful: { is_name text.items ≡ true },
}

/// A text that can stand in a token.
#[derive(Drop)]
pub(crate) struct Separator {
    pub(crate) text: Vec<u8>,
    ghost lawful: { fits_in_token text.items ≡ true },
}

impl Separator {
    /// One space.
    pub(crate) fn space(alloc: Global) -> Result<Separator, AllocError>
        ensures { IfOk result (λ separator. separator.text.items ≡ codes " ") }
    {
        let text = b" ".to_vec(alloc)?;
        Ok(Separator { text })
    }
}

/// Diatonic steps, up or down.
#[derive(Clone, Copy)]
pub(crate) struct Steps {
    pub(crate) number: i32,
    ghost within: { nat_abs number ≤ 49 },
}

/// Semitones, up or down.
#[derive(Clone, Copy)]
pub(crate) struct Semitones {
    pub(crate) number: i32,
    ghost within: { nat_abs number ≤ 84 },
}

/// What an option was given. `P` is what patterns are: what is generic in it is proved without the types
/// that a compiled pattern is made of.
#[derive(Drop)]
pub(crate) enum Value<P> {
    /// nothing: it stands alone
    Nothing,
    Fields(Vec<FieldRange>),
    Names(Vec<Vec<u8>>),
    Name(Name),
    Text(Separator),
    Ranges(Vec<YankRange>),
    Label(Vec<u8>),
    Pattern(P),
    Count(TokenCount),
    Steps(Steps),
    Semitones(Semitones),
    Duration(TimebaseOptions),
}

impl<P: Drop> Value<P> {
    /// Nothing, since the value is of another kind.
    pub(crate) fn of_another_kind<T>(self) -> Option<T>
        ensures { result ≡ None }
    {
        None
    }
}

/// What a value has, if it is of this kind.
macro_rules! of_kind {
    ($value:expr, $kind:ident) => {
        match $value {
            Value::$kind(found) => Some(found),
            other => other.of_another_kind(),
        }
    };
}

pub(crate) use of_kind;
