//! Lists: items between commas.
ghost use Rattle.std.specs.Prelude.{◌≡◌, ℕ, List, Option, IfOk, map};
ghost use Rattle.std.specs.Option.{option_map};
ghost use Rattle.hum_options.specs.Items.{items_of};

use crate::cutting::cut;
use std::alloc::{AllocError, Global};

/// How many items a list may have.
const MOST_ITEMS: usize = 64;

/// What stands between the commas of a list.
pub(crate) trait Item: Sized + Drop {
    ghost Value: { Type 0 };

    // what contracts see of it
    ghost view: { Self → Value };

    // what a text is, if it is such an item
    ghost value_of: { List ℕ → Option Value };

    /// The item that a text is, if it is one.
    fn read(alloc: Global, text: &[u8]) -> Result<Option<Self>, AllocError>
        ensures { IfOk result (λ found. option_map view found ≡ value_of text.now) };
}

/// The items that stand between the commas of a text, if each is one and there are at most 64.
pub(crate) fn read_items<T: Item>(alloc: Global, text: &[u8]) -> Result<Option<Vec<T>>, AllocError>
    ensures { IfOk result (λ found.
        option_map (λ items. map T.view items.items) found ≡ items_of T.value_of text.now) }
{
    let mut items = Vec::new(alloc);
    let mut rest = text;
    loop {
        let (part, behind) = cut(rest, b',');
        let Some(item) = T::read(alloc, part)? else {
            return Ok(None);
        };
        if items.len() >= MOST_ITEMS {
            return Ok(None);
        }
        items.push(item)?;
        let [_, next @ ..] = behind else {
            return Ok(Some(items));
        };
        rest = next;
    }
}
