//! The tokens of a record, one after another.
ghost use Rattle.std.specs.Prelude.{◌≡◌};
ghost use Rattle.std.specs.Iterator.{YieldsFirstRef, item_count};
ghost use Rattle.hum_record.specs.Coming.{tokens_by, LieIn};

use std::marker::Model;

/// The tokens of a record that are still to come, from the left.
#[derive(Drop)]
pub struct Tokens<'r> {
    text: &'r [u8],
    // where each of them ends in the text, and where the first begins
    ends: &'r [u32],
    begin: usize,
}

impl<'r> Model for Tokens<'r> {
    ghost use Rattle.std.specs.Prelude.{ℕ, List};

    ghost Value = { List (List ℕ) };

    ghost use Rattle.hum_record.specs.Coming.{tokens_by, LieIn};

    ghost view = { λ t. tokens_by t.text.now t.begin t.ends.now };

    ghost invariant = { λ t. LieIn t.text.now t.begin t.ends.now };
}

impl<'r> Tokens<'r> {
    /// All tokens of a text, by where each ends in it.
    pub(crate) fn all(text: &'r [u8], ends: &'r [u32]) -> Tokens<'r>
        requires { LieIn text.now 0 ends.now }
        ensures { result ≡ tokens_by text.now 0 ends.now }
    {
        Tokens {
            text,
            ends,
            begin: 0,
        }
    }
}

impl<'r> Iterator for Tokens<'r> {
    type Item = &'r [u8];

    ghost next_gives = { YieldsFirstRef (λ tokens. tokens) };

    ghost remaining = { item_count (λ tokens. tokens) };

    fn next(&mut self) -> Option<&'r [u8]> {
        let (end, behind) = self.ends.split_first()?;
        let token = &self.text[self.begin..*end as usize];
        self.begin = *end as usize + 1;
        self.ends = behind;
        Some(token)
    }
}
