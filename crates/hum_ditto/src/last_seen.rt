//! The token that a null token would repeat.
ghost use Rattle.std.specs.Prelude.{◌≡◌, true, OnOk, IfSome, Some, option_map};
ghost use Rattle.hum_score.specs.Spelling.{IsToken};
ghost use Rattle.hum_record.specs.Contents.{is_data, is_null};
ghost use Rattle.hum_score.specs.declared.records.SpinedKind.TheVariants.{Values};
ghost use Rattle.hum_ditto.specs.Ditto.{may_repeat};
ghost use Rattle.hum_ditto.specs.Memory.{shown};

use hum_path::ColumnMemory;
use hum_pattern::{Pattern, is_matched};
use hum_record::{is_data, is_null};
use std::alloc::{AllocError, Global};
use std::marker::Model;
use std::rc::Rc;

/// How many bytes of room a remembered token may have beside twice what it needs.
const MOST_ROOM: usize = 64;

/// A token, which spines that come of the same one share.
type Shared = Rc<Vec<u8>, Global>;

/// Whether a null token may repeat a token.
fn may_repeat(skip: &mut Option<Pattern>, token: &[u8]) -> bool
    ensures found { result ≡ may_repeat skip.old token.now }
    ensures kept { skip.new ≡ skip.old }
{
    is_data(token) && !is_null(token) && !is_matched(skip, token)
}

/// The last token of a column that a null token may repeat, if there is one.
#[derive(Drop)]
pub struct LastSeen {
    alloc: Global,
    token: Option<Shared>,
}

impl Model for LastSeen {
    ghost use Rattle.std.specs.Prelude.{ℕ, List, Option, IfSome};
    ghost use Rattle.hum_score.specs.Spelling.{IsToken};
    ghost use Rattle.hum_score.specs.declared.records.SpinedKind.TheVariants.{Values};
    ghost use Rattle.hum_ditto.specs.Memory.{shown};

    ghost Value = { Option (List ℕ) };

    ghost view = { λ m. shown m.token };

    ghost invariant = { λ m. IfSome (shown m.token) (IsToken Values) };
}

/// Puts a token in the memory of another, if nobody else has that and it hasn't much more room; and tells
/// whether it did.
fn put_over(last: &mut Option<Shared>, token: &[u8]) -> bool
    ensures { result ≡ true → shown last.new ≡ Some token.now }
{
    let Some(shared) = last else {
        return false;
    };
    let Some(held) = Rc::get_mut(shared) else {
        return false;
    };
    if held.capacity().saturating_sub(MOST_ROOM) / 2 > token.len() {
        return false;
    }
    held.clear();
    held.extend_from_slice(token).is_ok()
}

/// Puts a token in the place of another.
fn put(alloc: Global, last: &mut Option<Shared>, token: &[u8]) -> Result<(), AllocError>
    ensures { OnOk result (shown last.new ≡ Some token.now) }
{
    if put_over(last, token) {
        return Ok(());
    }
    *last = None;
    *last = Some(Rc::new(alloc, token.to_vec(alloc)?)?);
    Ok(())
}

impl LastSeen {
    /// The token.
    pub fn token(&self) -> Option<&[u8]>
        ensures token { option_map (λ t. t.now) result ≡ self.now }
        ensures lawful { IfSome result (λ t. IsToken Values t.now) }
    {
        match &self.token {
            Some(token) => Some(token.as_ref().as_slice()),
            None => None,
        }
    }
}

impl ColumnMemory for LastSeen {
    type Rule = Option<Pattern>;

    ghost use Rattle.std.specs.Prelude.{None};
    ghost use Rattle.hum_ditto.specs.Memory.{last_seen};

    ghost beginning = { None };

    ghost seen = { last_seen };

    fn fresh(alloc: Global) -> Self {
        LastSeen { alloc, token: None }
    }

    fn see(&mut self, skip: &mut Option<Pattern>, token: &[u8]) -> Result<(), AllocError> {
        // most cells are null, and change nothing
        if is_null(token) {
            return Ok(());
        }
        if may_repeat(skip, token) {
            let mut last = self.token.take();
            put(self.alloc, &mut last, token)?;
            self.token = last;
        } else if token.starts_with(b"**") {
            self.token = None;
        }
        Ok(())
    }

    fn copy(&self) -> Result<Self, AllocError> {
        let token = match &self.token {
            Some(token) => Some(token.clone()?),
            None => None,
        };
        Ok(LastSeen {
            alloc: self.alloc,
            token,
        })
    }
}
