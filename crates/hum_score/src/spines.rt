//! What a token asks of the spines, where each spine comes from, and which path rule a record breaks.
ghost use Rattle.std.specs.Prelude.{◌≡◌};
ghost use Rattle.hum_score.specs.Sign.{sign_of, is_join, is_exchange, is_exclusive, is_plain, is_path_indicator};
ghost use Rattle.hum_score.specs.declared.spines.PathFault.TheVariants.{Memory};

use std::alloc::AllocError;
use thiserror::Error;

/// What a token of an interpretation asks of the spines (Humdrum Toolkit: Reference Manual,
/// syntax).
#[derive(Clone, Copy)]
pub enum Sign {
    /// `*^`: two spines
    Split,
    /// `*v`: one spine of all that stand side by side
    Join,
    /// `*x`: two spines change places
    Exchange,
    /// `*+`: one spine more, to the right
    Add,
    /// `*-`: the end of a spine
    End,
    /// `**name`: what the spine's data are
    Exclusive,
    /// nothing
    Plain,
}

impl Sign {
    /// Whether it joins spines.
    pub fn is_join(self) -> bool
        ensures { result ≡ is_join self }
    {
        matches!(self, Sign::Join)
    }

    /// Whether two spines change places.
    pub fn is_exchange(self) -> bool
        ensures { result ≡ is_exchange self }
    {
        matches!(self, Sign::Exchange)
    }

    /// Whether it says what the spine's data are.
    pub fn is_exclusive(self) -> bool
        ensures { result ≡ is_exclusive self }
    {
        matches!(self, Sign::Exclusive)
    }

    /// Whether it asks nothing.
    pub fn is_plain(self) -> bool
        ensures { result ≡ is_plain self }
    {
        matches!(self, Sign::Plain)
    }

    /// Whether it splits, joins, exchanges, adds or ends spines.
    pub fn is_path_indicator(self) -> bool
        ensures { result ≡ is_path_indicator self }
    {
        !matches!(self, Sign::Exclusive | Sign::Plain)
    }
}

/// What a token of an interpretation asks.
pub fn token_sign(token: &[u8]) -> Sign
    ensures { result ≡ sign_of token.now }
{
    match token {
        [b'*', b'*', ..] => Sign::Exclusive,
        b"*^" => Sign::Split,
        b"*v" => Sign::Join,
        b"*x" => Sign::Exchange,
        b"*+" => Sign::Add,
        b"*-" => Sign::End,
        _ => Sign::Plain,
    }
}

/// Where a spine after a record comes from. Spines are counted from 0, from the left.
#[derive(Clone, Copy, PartialEq, Eq)]
pub enum Move {
    /// It is that spine.
    Same(u16),
    /// It is the left child of that spine.
    Left(u16),
    /// It is the right child of that spine.
    Right(u16),
    /// It is what the spines from the first to the last are joined to.
    Join(u16, u16),
    /// It was added to the right of that spine.
    Added(u16),
}

/// Which path rule a record breaks, or that memory ran out.
#[derive(Clone, Copy, Debug, PartialEq, Eq, Error)]
#[error("{}", self.text())]
pub enum PathFault {
    /// The opening record has a token that is no exclusive interpretation.
    P1,
    /// There are more or fewer tokens than spines.
    P2,
    /// A `*v` stands without a `*v` beside it.
    P3,
    /// One `*x` stands alone, or there are more than two.
    P4,
    /// Neighbouring `*v` stand under different exclusive interpretations.
    P5,
    /// An added spine has no exclusive interpretation in the record behind it.
    P6,
    /// A record stands behind the end of the last spine.
    P7,
    /// The input ends while a spine is open.
    P8,
    /// More than 4,096 spines would be open.
    P9,
    /// The token `**` stands alone.
    P10,
    /// An exclusive interpretation and a path indicator stand in one record.
    P11,
    /// There was no memory.
    Memory,
}

impl PathFault {
    // What is told of it.
    fn text(self) -> &'static str {
        match self {
            PathFault::P1 => {
                "P1: an opening record with a token that is no exclusive interpretation"
            }
            PathFault::P2 => "P2: more or fewer tokens than spines",
            PathFault::P3 => "P3: a *v without a *v beside it",
            PathFault::P4 => "P4: a number of *x other than none and two",
            PathFault::P5 => "P5: neighbouring *v under different exclusive interpretations",
            PathFault::P6 => {
                "P6: an added spine without an exclusive interpretation in the next record"
            }
            PathFault::P7 => "P7: a record after the end of the last spine",
            PathFault::P8 => "P8: an open spine at the end of the input",
            PathFault::P9 => "P9: more than 4,096 spines",
            PathFault::P10 => "P10: an exclusive interpretation without a name",
            PathFault::P11 => "P11: an exclusive interpretation and a path indicator in one record",
            PathFault::Memory => "out of memory",
        }
    }
}

impl From<AllocError> for PathFault {
    ghost from_gives = { λ _ e. e ≡ Memory };

    fn from(_e: AllocError) -> PathFault {
        PathFault::Memory
    }
}
