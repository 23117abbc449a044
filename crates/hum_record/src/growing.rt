//! A text that grows by short parts.
ghost use Rattle.std.specs.Prelude.{◌≡◌, ◌≤◌, ◌+◌, ◌++◌, ◌==◌, [], OnOk, OnErr, length, take, vec_len};

use crate::putting::put_token;
use crate::room::fill_bytes;
use std::alloc::{AllocError, Global};
use std::marker::Model;

/// How many bytes more there is room for where there was too little, or as many as there are.
const MORE_BYTES: usize = 256;

/// A text that grows by parts, most of them short, in memory that is used again.
///
/// Behind it there is room that doesn't count, so that no list is grown for a part.
#[derive(Drop)]
pub struct GrowingText {
    held: Vec<u8>,
    len: usize,
}

impl Model for GrowingText {
    ghost use Rattle.std.specs.Prelude.{◌≤◌, ℕ, List, take, vec_len};

    ghost Value = { List ℕ };

    ghost view = { λ t. take t.len t.held.items };

    ghost invariant = { λ t. t.len ≤ vec_len t.held };
}

/// Makes room for a part behind the first `len` bytes.
#[inline(never)]
fn widen(held: &mut Vec<u8>, len: usize, part: &[u8]) -> Result<(), AllocError>
    ensures kept { take (vec_len held.old) held.new.items ≡ held.old.items }
    ensures more { vec_len held.old ≤ vec_len held.new }
    ensures room { OnOk result (len + length part.now ≤ vec_len held.new) }
{
    let more = len.max(MORE_BYTES);
    let count = len.saturating_add(part.len()).saturating_add(more);
    fill_bytes(held, count)
}

impl GrowingText {
    /// No bytes, and no memory as yet.
    pub fn new(alloc: Global) -> GrowingText
        ensures { result ≡ [] }
    {
        GrowingText {
            held: Vec::new(alloc),
            len: 0,
        }
    }

    /// How many bytes it has.
    pub fn len(&self) -> usize
        ensures { result ≡ length self.now }
    {
        self.len
    }

    /// Whether it has none.
    pub fn is_empty(&self) -> bool
        ensures { result ≡ (length self.now == 0) }
    {
        self.len == 0
    }

    /// Its bytes.
    pub fn as_slice(&self) -> &[u8]
        ensures { result.now ≡ self.now }
    {
        &self.held[..self.len]
    }

    /// Leaves nothing but room.
    pub fn clear(&mut self)
        ensures { self.new ≡ [] }
    {
        self.len = 0;
    }

    /// One part more, at the end.
    ///
    /// # Errors
    /// Out of memory. Then it is as it was.
    #[inline]
    pub fn add(&mut self, part: &[u8]) -> Result<(), AllocError>
        ensures added { OnOk result (self.new ≡ self.old ++ part.now) }
        ensures kept { OnErr result (self.new ≡ self.old) }
    {
        if self.held.len() - self.len < part.len() {
            widen(&mut self.held, self.len, part)?;
        }
        self.len = put_token(&mut self.held, self.len, part);
        Ok(())
    }
}
