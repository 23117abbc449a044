//! Which spines become one, under which name, and what goes between their data.
ghost use Rattle.std.specs.Prelude.{◌≡◌, IfOk, true};
ghost use Rattle.hum_score.specs.Spelling.{has_byte};
ghost use Rattle.hum_choices.specs.Cleave.{is_name, fits_in_token};

use hum_score::token_sign;
use std::alloc::{AllocError, Global};
use std::marker::Model;

/// Which spines become one, under which name, and what goes between their data tokens.
#[derive(Drop)]
pub struct CleaveOptions {
    name: Vec<u8>,
    new_name: Vec<u8>,
    separator: Vec<u8>,
}

impl Model for CleaveOptions {
    ghost use Rattle.hum_choices.specs.Cleave.{Options, AreLawful};

    ghost Value = { Options };

    ghost view = { λ o. record {
      name = o.name.items;
      new_name = o.new_name.items;
      separator = o.separator.items;
    } };

    ghost invariant = { λ o. AreLawful (record {
      name = o.name.items;
      new_name = o.new_name.items;
      separator = o.separator.items;
    }) };
}

fn has_byte(text: &[u8], byte: u8) -> bool
    ensures { result ≡ has_byte byte text.now }
{
    text.contains(&byte)
}

/// Whether a text can go between data tokens: it has no tab, LF or CR.
pub fn is_separator(text: &[u8]) -> bool
    ensures { result ≡ fits_in_token text.now }
{
    !(has_byte(text, b'\t') || has_byte(text, b'\r') || has_byte(text, b'\n'))
}

/// Whether a text is an exclusive interpretation: `**` and at least one more byte, without tab, LF
/// or CR.
pub fn is_name(text: &[u8]) -> bool
    ensures { result ≡ is_name text.now }
{
    token_sign(text).is_exclusive() && text != b"**".as_slice() && is_separator(text)
}

impl CleaveOptions {
    /// The spines that open under a name (`-i`) become one under a new name (`-o`); between their
    /// data tokens goes the separator (`-d`), which is one space by custom.
    pub fn new(name: Vec<u8>, new_name: Vec<u8>, separator: Vec<u8>) -> CleaveOptions
        requires named { is_name new_name.items ≡ true }
        requires between { fits_in_token separator.items ≡ true }
        ensures { result ≡ record {
          name = name.items;
          new_name = new_name.items;
          separator = separator.items;
        } }
    {
        CleaveOptions {
            name,
            new_name,
            separator,
        }
    }

    /// The same options once more.
    ///
    /// # Errors
    /// Out of memory.
    pub fn copy(&self, alloc: Global) -> Result<CleaveOptions, AllocError>
        ensures { IfOk result (λ copy. copy ≡ self.now) }
    {
        Ok(CleaveOptions {
            name: self.name.to_vec(alloc)?,
            new_name: self.new_name.to_vec(alloc)?,
            separator: self.separator.to_vec(alloc)?,
        })
    }

    /// The exclusive interpretation of the spines that become one.
    pub fn name(&self) -> &[u8]
        ensures { result.now ≡ self.now.name }
    {
        &self.name
    }

    /// What they become.
    pub fn new_name(&self) -> &[u8]
        ensures name { result.now ≡ self.now.new_name }
        ensures lawful { is_name self.now.new_name ≡ true }
    {
        &self.new_name
    }

    /// What goes between their data tokens.
    pub fn separator(&self) -> &[u8]
        ensures separator { result.now ≡ self.now.separator }
        ensures lawful { fits_in_token self.now.separator ≡ true }
    {
        &self.separator
    }
}
