//! The words of rid: each is `-` and letters of what is dropped.
ghost use Rattle.std.specs.Prelude.{◌≡◌, map};
ghost use Rattle.std.specs.List.{list_all};
ghost use Rattle.hum_options.specs.Letters.{letters, is_among, is_letter_word};
ghost use Rattle.hum_options.specs.Letters.{drops, dropped};
ghost use Rattle.hum_options.specs.Answers.{has_none, word_fault, rid_fault, text_of_word};
ghost use Rattle.hum_options.specs.Answers.{rid_answer};
ghost use Rattle.hum_options.specs.Seen.{words_of, Tells};

use crate::faults::{OptionError, OptionFault, OptionRule, broken};
use hum_choices::{CommandOptions, RidOptions};
use hum_words::Piece;

fn is_letter(byte: u8) -> bool
    ensures { result ≡ is_among letters byte }
{
    b"GLIDdilgT".contains(&byte)
}

fn all_are_letters(bytes: &[u8]) -> bool
    ensures { result ≡ list_all (is_among letters) bytes.now }
{
    bytes.iter().all(|byte| is_letter(*byte))
}

/// Whether a word is `-` and at least one letter.
fn is_letter_word(word: &[u8]) -> bool
    ensures { result ≡ is_letter_word word.now }
{
    match word {
        [b'-', letters @ ..] => !letters.is_empty() && all_are_letters(letters),
        _ => false,
    }
}

/// The fault of a word, if it has one.
fn word_fault(is_last: bool, number: u32, word: &[u8]) -> Option<OptionFault>
    ensures { result ≡ word_fault is_last (number, word.now) }
{
    if !is_letter_word(word) {
        Some(OptionFault {
            word: number,
            rule: OptionRule::N8,
        })
    } else if !is_last && word.contains(&b'I') {
        Some(OptionFault {
            word: number,
            rule: OptionRule::N11,
        })
    } else {
        None
    }
}

/// The first fault of the words.
fn first_fault(is_last: bool, pieces: &[Piece<'_>]) -> Option<OptionFault>
    ensures { result ≡ rid_fault is_last (words_of pieces.now) }
{
    for piece in pieces {
        match piece {
            Piece::Word(number, word) => {
                if let Some(found) = word_fault(is_last, *number, word.as_bytes()) {
                    return Some(found);
                }
            }
            Piece::Bar(_) => return None,
        }
    }
    None
}

/// Whether one of the words has the letter.
fn drops(letter: u8, pieces: &[Piece<'_>]) -> bool
    ensures { result ≡ drops letter (map text_of_word (words_of pieces.now)) }
{
    for piece in pieces {
        match piece {
            Piece::Word(_, word) => {
                if word.as_bytes().contains(&letter) {
                    return true;
                }
            }
            Piece::Bar(_) => return false,
        }
    }
    false
}

/// What the words drop.
fn dropped(pieces: &[Piece<'_>]) -> RidOptions
    ensures { result ≡ dropped (map text_of_word (words_of pieces.now)) }
{
    RidOptions {
        global_comments: drops(b'G', pieces),
        empty_global_comments: drops(b'g', pieces),
        local_comments: drops(b'L', pieces),
        null_local_comments: drops(b'l', pieces),
        interpretations: drops(b'I', pieces),
        null_interpretations: drops(b'i', pieces),
        tandems: drops(b'T', pieces),
        values: drops(b'D', pieces),
        null_values: drops(b'd', pieces),
    }
}

fn has_none(pieces: &[Piece<'_>]) -> bool
    ensures { result ≡ has_none (words_of pieces.now) }
{
    match pieces {
        [Piece::Word(_, _), ..] => false,
        _ => true,
    }
}

/// What the words of rid say, behind the command, which is word `number`.
pub(crate) fn read_letters(
    number: u32,
    is_last: bool,
    pieces: &[Piece<'_>],
) -> Result<CommandOptions, OptionError>
    ensures { Tells (λ answer. answer ≡ rid_answer number is_last (words_of pieces.now)) result }
{
    if has_none(pieces) {
        return Err(broken(number, OptionRule::N9));
    }
    match first_fault(is_last, pieces) {
        Some(found) => Err(OptionError::Fault(found)),
        None => Ok(CommandOptions::Rid(dropped(pieces))),
    }
}
