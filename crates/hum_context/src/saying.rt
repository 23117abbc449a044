//! What the text of collected tokens is, one token more or less.
ghost use Rattle.std.specs.Prelude.{◌≡◌, ◌∷◌, ◌++◌, ◌+◌, ◌-◌, ◌≤◌, ℕ, List, [], IfSome, drop, length, take, true};
ghost use Rattle.std.specs.List.{join_with_byte};
ghost use Rattle.hum_score.specs.Spelling.{IsToken};
ghost use Rattle.hum_score.specs.declared.records.SpinedKind.TheVariants.{Values};
ghost use Rattle.hum_context.specs.Walking.{Says};

use crate::heard::is_data;
use crate::short::{MOST_KEPT, ShortText};
use hum_record::put_token;
use hum_stage::MOST_RECORDS;

/// Puts a token behind the first `len` bytes of a text, a space before it.
fn put_behind(text: &mut [u8], len: usize, token: &[u8])
    requires { len + 1 + length token.now ≤ length text.old }
    ensures text { take (len + 1 + length token.now) text.new ≡ take len text.old ++ 32 ∷ token.now }
    ensures behind { (begin : ℕ) → begin ≤ len → drop begin (take (len + 1 + length token.now) text.new)
        ≡ drop begin (take len text.old) ++ 32 ∷ token.now }
{
    text[len] = b' ';
    put_token(text, len + 1, token);
}

/// Moves what stands between two places to the front.
fn move_to_front(text: &mut [u8], from: usize, end: usize)
    requires order { from ≤ end }
    requires within { end ≤ length text.old }
    ensures { take (end - from) text.new ≡ drop from (take end text.old) }
{
    text.copy_within(from..end, 0);
}

impl ShortText {
    /// There are no tokens.
    pub(crate) fn none() -> ShortText
        ensures { Says result [] }
    {
        ShortText {
            bytes: [0; MOST_KEPT],
            begin: 0,
            len: 0,
            missing: 0,
        }
    }

    /// It moves to the front of the bytes.
    #[inline(never)]
    fn settle(&mut self)
        ensures { (tokens : List (List ℕ)) → Says self.old tokens → Says self.new tokens }
    {
        move_to_front(&mut self.bytes, self.begin, self.len);
        self.len -= self.begin;
        self.begin = 0;
    }

    /// Whether there is room for so many bytes, once there is as much as there may be.
    fn make_room(&mut self, size: usize) -> bool
        ensures room { result ≡ true → self.new.len + size ≤ 64 }
        ensures says { (tokens : List (List ℕ)) → Says self.old tokens → Says self.new tokens }
    {
        if size <= MOST_KEPT - self.len {
            return true;
        }
        self.settle();
        size <= MOST_KEPT - self.len
    }

    /// A token behind so many, or none of them is kept.
    #[inline(always)]
    pub(crate) fn add(&mut self, count: u64, token: &[u8])
        requires few { count ≤ MOST_RECORDS }
        requires lawful { IsToken Values token.now }
        ensures { (tokens : List (List ℕ)) → count ≡ length tokens → Says self.old tokens
            → Says self.new (tokens ++ token.now ∷ []) }
    {
        if !self.make_room(token.len() + 1) {
            self.begin = 0;
            self.len = 0;
            self.missing = count + 1;
            return;
        }
        put_behind(&mut self.bytes, self.len, token);
        self.len += token.len() + 1;
    }

    /// The first token, which has so many bytes, is taken away.
    pub(crate) fn lose(&mut self, first: usize)
        ensures { (token : List ℕ) (tokens : List (List ℕ)) → first ≡ length token
            → Says self.old (token ∷ tokens) → Says self.new tokens }
    {
        if self.missing > 0 {
            self.missing -= 1;
            return;
        }
        if first >= self.len - self.begin {
            self.begin = self.len;
            return;
        }
        self.begin += first + 1;
    }

    /// The token that they make, joined, where all are kept.
    pub(crate) fn token(&self) -> Option<&[u8]>
        ensures lawful { IfSome result (λ token. IsToken Values token.now) }
        ensures joined { IfSome result (λ token. (tokens : List (List ℕ)) → Says self.now tokens
            → token.now ≡ join_with_byte 32 tokens) }
    {
        if self.missing > 0 || self.begin >= self.len {
            return None;
        }
        let token = &self.bytes[self.begin + 1..self.len];
        if is_data(token) {
            return Some(token);
        }
        None
    }
}
