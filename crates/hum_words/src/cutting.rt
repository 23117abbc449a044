//! The words and bars of a line.
ghost use Rattle.std.specs.Prelude.{◌≡◌, ◌≢◌, ℕ, ◌+◌, ◌<◌, ◌≤◌, ◌^◌, false, length};
ghost use Rattle.std.specs.Prelude.{List, ◌∷◌, IfOk, IfErr, IfSome, IfNone};
ghost use Rattle.std.specs.List.{prefix_len};
ghost use Rattle.hum_words.specs.Characters.{is_bare, begins_blank};
ghost use Rattle.hum_words.specs.Pieces.{Item, number_of, item_of};
ghost use Rattle.hum_words.specs.Writing.{BeginsWith, BeginsWithWord};
ghost use Rattle.hum_words.specs.Writing.{IsWrong, IsWritten};
ghost use Rattle.hum_words.specs.Cutting.{Tells, Gives, GivesItems, cut_line};
ghost use Rattle.hum_words.specs.declared.cutting.WordFault.TheVariants.{Quote, Memory};

use crate::characters::{bare_len, is_apart, skip_blanks};
use crate::text::LONGEST_PLAN;
use std::alloc::{AllocFailed, Global};
use thiserror::Error;

/// A word with its number, from 1, or a bar with the number of the last word before it, 0 where
/// there is none. Bars aren't counted.
#[derive(Clone, Copy)]
pub enum Piece<'a> {
    Word(u32, &'a str),
    Bar(u32),
}

/// Why a line isn't cut into pieces.
#[derive(Clone, Copy, Debug, Error)]
pub enum WordFault {
    /// The number of a word with a quote that isn't closed, with a quote in it, or with something
    /// else than a blank, a bar or the line's end behind its closing quote.
    #[error("N2: a quote in word {0} isn't closed, or doesn't stand alone")]
    Quote(u32),
    /// Memory ran out.
    #[error("out of memory")]
    Memory,
}

impl<T: Drop> From<AllocFailed<T>> for WordFault {
    ghost from_gives = { λ _ e. e ≡ Memory };

    fn from(_e: AllocFailed<T>) -> WordFault {
        WordFault::Memory
    }
}

impl Piece<'_> {
    /// How many words there are up to here.
    fn number(self) -> u32
        ensures { result ≡ number_of (item_of self.entry) }
    {
        match self {
            Piece::Word(number, _) => number,
            Piece::Bar(number) => number,
        }
    }
}

/// A word up to its closing quote, and what follows that, if it is apart.
fn quoted_word(line: &str) -> Option<(&str, &str)>
    ensures found { IfSome result (λ x. BeginsWithWord x.0.now x.1.now (39 ∷ line.now)) }
    ensures wrong { IfNone result (IsWrong (39 ∷ line.now)) }
    ensures shorter { IfSome result (λ x. length x.1.now < length line.now) }
{
    let (word, rest) = line.split_once('\'')?;
    if is_apart(rest) {
        Some((word, rest))
    } else {
        None
    }
}

/// A word without quotes, and what follows it, if it is apart.
fn plain_word(line: &str) -> Option<(&str, &str)>
    requires { 0 < prefix_len is_bare line.now }
    ensures found { IfSome result (λ x. BeginsWithWord x.0.now x.1.now line.now) }
    ensures wrong { IfNone result (IsWrong line.now) }
    ensures shorter { IfSome result (λ x. length x.1.now < length line.now) }
{
    let (word, rest) = line.split_at(bare_len(line.as_bytes()));
    if is_apart(rest) {
        Some((word, rest))
    } else {
        None
    }
}

/// The word at the front of a line, and what follows it, unless it is wrong with its quotes.
fn first_word(line: &str) -> Option<(&str, &str)>
    requires filled { 0 < length line.now }
    requires first { begins_blank line.now ≡ false }
    requires no_bar { (rest : List ℕ) → line.now ≢ 124 ∷ rest }
    ensures found { IfSome result (λ x. BeginsWithWord x.0.now x.1.now line.now) }
    ensures wrong { IfNone result (IsWrong line.now) }
    ensures shorter { IfSome result (λ x. length x.1.now < length line.now) }
{
    match line.strip_prefix('\'') {
        Some(behind) => quoted_word(behind),
        None => plain_word(line),
    }
}

/// The piece at the front of a line, behind as many words, and what follows it.
fn first_piece(line: &str, words: u32) -> Result<(Piece<'_>, &str), WordFault>
    requires filled { 0 < length line.now }
    requires first { begins_blank line.now ≡ false }
    requires room { words + 1 < 2 ^ 32 }
    ensures found { IfOk result (λ x. BeginsWith words (item_of x.0) x.1.now line.now) }
    ensures number { IfErr result (λ fault. fault ≡ Quote (words + 1)) }
    ensures wrong { IfErr result (λ _. IsWrong line.now) }
    ensures shorter { IfOk result (λ x. (length x.1.now < length line.now)
        × (number_of (item_of x.0) ≤ words + 1)) }
{
    if let Some(rest) = line.strip_prefix('|') {
        return Ok((Piece::Bar(words), rest));
    }
    match first_word(line) {
        Some((word, rest)) => Ok((Piece::Word(words + 1, word), rest)),
        None => Err(WordFault::Quote(words + 1)),
    }
}

/// The pieces of a line, each cut off its front.
fn cut(alloc: Global, line: &str) -> Result<Vec<Piece<'_>>, WordFault>
    requires { length line.now ≤ LONGEST_PLAN }
    ensures { Tells result line.now }
{
    let mut pieces = Vec::new(alloc);
    let mut words = 0;
    let mut rest = skip_blanks(line);
    while !rest.is_empty() {
        let (piece, behind) = first_piece(rest, words)?;
        pieces.push(piece)?;
        words = piece.number();
        rest = skip_blanks(behind);
    }
    Ok(pieces)
}

/// The words and bars of a line, in order.
///
/// # Errors
/// `Quote` exactly where a word of the line is wrong with its quotes, with the number of the first
/// such word; `Memory`.
pub fn pieces(alloc: Global, line: &str) -> Result<Vec<Piece<'_>>, WordFault>
    requires { length line.now ≤ LONGEST_PLAN }
    // The line is written by what is answered, or the word is wrong.
    ensures told { Tells result line.now }

    // By whichever pieces a line is written, those are answered.
    ensures only { (items : List Item) → IsWritten items line.now → GivesItems result items }
    ensures exact { Gives result (cut_line line.now) }
{
    cut(alloc, line)
}
