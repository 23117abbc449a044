//! The text of a new token, as far as it is collected.
ghost use Rattle.std.specs.Prelude.{◌≡◌, ◌≢◌, [], OnOk, length, nat_lt};
ghost use Rattle.hum_score.specs.Spelling.{IsToken};
ghost use Rattle.hum_score.specs.declared.records.SpinedKind.TheVariants.{Values};
ghost use Rattle.hum_context.specs.Walking.{add_token};

use hum_record::{GrowingText, MOST_BYTES};
use std::alloc::{AllocError, Global};
use std::marker::Model;

/// Data tokens that are joined by spaces: a token, unless there are none.
#[derive(Drop)]
pub(crate) struct Text {
    bytes: GrowingText,
}

impl Model for Text {
    ghost use Rattle.std.specs.Prelude.{◌≢◌, [], ℕ, List};
    ghost use Rattle.hum_score.specs.Spelling.{IsToken};
    ghost use Rattle.hum_score.specs.declared.records.SpinedKind.TheVariants.{Values};

    ghost Value = { List ℕ };

    ghost view = { λ t. t.bytes };

    ghost invariant = { λ t. t.bytes ≢ [] → IsToken Values t.bytes };
}

/// A token behind those so far, and a space before it if there are any.
fn add_bytes(bytes: &mut GrowingText, token: &[u8]) -> Result<(), AllocError>
    ensures { OnOk result (bytes.new ≡ add_token bytes.old token.now) }
{
    if !bytes.is_empty() {
        bytes.add(b" ")?;
    }
    bytes.add(token)
}

impl Text {
    /// There are none.
    pub(crate) fn none(alloc: Global) -> Text
        ensures { result ≡ [] }
    {
        Text {
            bytes: GrowingText::new(alloc),
        }
    }

    /// There are none any more.
    pub(crate) fn clear(&mut self)
        ensures { self.new ≡ [] }
    {
        self.bytes.clear();
    }

    /// A token behind those so far.
    pub(crate) fn add(&mut self, token: &[u8]) -> Result<(), AllocError>
        requires { IsToken Values token.now }
        ensures { OnOk result (self.new ≡ add_token self.old token.now) }
    {
        match add_bytes(&mut self.bytes, token) {
            Ok(()) => Ok(()),
            Err(_) => {
                self.bytes.clear();
                Err(AllocError)
            }
        }
    }

    /// Whether they make more than a record holds.
    pub(crate) fn is_long(&self) -> bool
        ensures { result ≡ nat_lt MOST_BYTES (length self.now) }
    {
        self.bytes.len() > MOST_BYTES
    }

    /// The token that they make, joined; a null token where there are none.
    pub(crate) fn token(&self) -> &[u8]
        ensures joined { self.now ≢ [] → result.now ≡ self.now }
        ensures lawful { IsToken Values result.now }
    {
        if self.bytes.is_empty() {
            b"."
        } else {
            self.bytes.as_slice()
        }
    }
}
