//! The barlines that stand to the left in the cleaved columns of a record.
ghost use Rattle.std.specs.Prelude.{◌≡◌, [], true, false, IfOk};
ghost use Rattle.hum_record.specs.Contents.{is_barline, is_null};
ghost use Rattle.hum_cleave.specs.Barlines.{Tells};

use hum_record::{is_barline, is_null};
use std::alloc::{AllocError, Global};
use std::collections::HashSet;
use std::marker::Model;

/// The barlines among the tokens that were asked of so far: mostly they are all one.
#[derive(Drop)]
pub struct Barlines<'r> {
    first: Option<&'r [u8]>,
    others: HashSet<&'r [u8]>,
}

impl<'r> Model for Barlines<'r> {
    ghost use Rattle.std.specs.Prelude.{◌≡◌, ℕ, List, [], ◌++◌, None, map};
    ghost use Rattle.std.specs.Option.{option_to_list};

    ghost Value = { List (List ℕ) };

    ghost view = { λ b. map (λ token. token.now) (option_to_list b.first ++ b.others.keys) };

    ghost invariant = { λ b. b.first ≡ None → b.others.keys ≡ [] };
}

impl<'r> Barlines<'r> {
    /// None yet.
    pub fn none(alloc: Global) -> Barlines<'r>
        ensures { result ≡ [] }
    {
        Barlines {
            first: None,
            others: HashSet::new(alloc),
        }
    }

    /// Whether a data token is left out, behind those that were asked of before: it is null, or a
    /// barline that stands among them.
    pub fn leaves_out(&mut self, token: &'r [u8]) -> Result<bool, AllocError>
        ensures { IfOk result (Tells self.old self.new token.now) }
    {
        if is_null(token) {
            return Ok(true);
        }
        if !is_barline(token) {
            return Ok(false);
        }
        self.leaves_out_barline(token)
    }

    /// The same of a barline.
    #[inline(never)]
    fn leaves_out_barline(&mut self, token: &'r [u8]) -> Result<bool, AllocError>
        requires barline { is_barline token.now ≡ true }
        requires filled { is_null token.now ≡ false }
        ensures { IfOk result (Tells self.old self.new token.now) }
    {
        match self.first {
            None => {
                self.first = Some(token);
                Ok(false)
            }
            Some(first) => {
                if first == token {
                    return Ok(true);
                }
                let is_new = self.others.insert(token)?;
                Ok(!is_new)
            }
        }
    }
}
