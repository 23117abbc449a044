//! Tokens that an interpretation keeps.
ghost use Rattle.std.specs.Prelude.{◌≡◌};
ghost use Rattle.hum_columns.specs.Spread.{piece, joins, goes_on};

use hum_path::token_sign;
use std::marker::Model;

/// A token that an interpretation keeps, and whether it begins a join.
#[derive(Drop)]
pub struct JoinedToken<'a> {
    begins: bool,
    token: &'a [u8],
}

impl<'a> Model for JoinedToken<'a> {
    ghost use Rattle.hum_columns.specs.Spread.{JoinedToken, piece};

    ghost Value = { JoinedToken };

    ghost view = { λ p. piece p.begins p.token.now };
}

impl<'a> JoinedToken<'a> {
    /// A token, and whether it is the first of its join.
    pub fn new(begins: bool, token: &'a [u8]) -> JoinedToken<'a>
        ensures { result ≡ piece begins token.now }
    {
        JoinedToken { begins, token }
    }

    /// Whether it begins a join.
    pub fn begins(&self) -> bool
        ensures { result ≡ self.now.begins }
    {
        self.begins
    }

    /// The token.
    pub fn token(&self) -> &'a [u8]
        ensures { result.now ≡ self.now.token }
    {
        self.token
    }

    /// Whether it is a token of a join.
    pub(crate) fn joins(&self) -> bool
        ensures { result ≡ joins self.now }
    {
        token_sign(self.token).is_join()
    }

    /// Whether it belongs to the join that its left neighbour is of.
    pub(crate) fn goes_on(&self) -> bool
        ensures { result ≡ goes_on self.now }
    {
        self.joins() && !self.begins
    }
}
