//! Names and labels.
ghost use Rattle.std.specs.Prelude.{◌≡◌, ◌↔◌, List, ℕ, IfOk, IsTrue};
ghost use Rattle.std.specs.Option.{option_map};
ghost use Rattle.hum_score.specs.Texts.{texts};
ghost use Rattle.hum_options.specs.{Items.AreListed, Items.items_of, Read.IsReadAs};
ghost use Rattle.hum_options.specs.Names.{IsListedName, name_of, IsLabel, is_label};

use crate::items::{Item, read_items};
use hum_choices::{is_name, is_separator};
use std::alloc::{AllocError, Global};

impl Item for Vec<u8> {
    ghost Value = { List ℕ };

    ghost view = { λ name. name.items };

    ghost value_of = { name_of };

    fn read(alloc: Global, text: &[u8]) -> Result<Option<Vec<u8>>, AllocError> {
        if is_name(text) {
            Ok(Some(text.to_vec(alloc)?))
        } else {
            Ok(None)
        }
    }
}

/// The names of exclusive interpretations that a list has, if it is one: 1 to 64 between commas,
/// each `**` and at least one more byte, without comma, tab, LF and CR.
pub fn names(alloc: Global, text: &[u8]) -> Result<Option<Vec<Vec<u8>>>, AllocError>
    ensures { IfOk result (λ found. IsReadAs (AreListed IsListedName text.now)
        (items_of name_of text.now) (option_map (λ names. texts names.items) found)) }
{
    read_items(alloc, text)
}

/// Whether a text is the label of a section: some bytes without `[`, tab, LF and CR.
pub fn is_label(text: &[u8]) -> bool
    ensures test { result ≡ is_label text.now }
    ensures label { IsTrue result ↔ IsLabel text.now }
{
    !text.is_empty() && !text.contains(&b'[') && is_separator(text)
}
