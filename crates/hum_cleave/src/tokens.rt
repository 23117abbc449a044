//! What the tokens of the cleaved columns become.
ghost use Rattle.std.specs.Prelude.{◌≡◌, true, length, OnOk};
ghost use Rattle.hum_score.specs.Row.{Spined, tokens_of, width_of, text_of, chosen};
ghost use Rattle.hum_score.specs.Spelling.{IsToken, IsTextOf};
ghost use Rattle.hum_score.specs.declared.records.SpinedKind.TheVariants.{Local, Values};
ghost use Rattle.hum_choices.specs.Cleave.{fits_in_token};
ghost use Rattle.hum_cleave.specs.Tokens.{is_null_comment, comment_of, is_silent};
ghost use Rattle.hum_cleave.specs.Tokens.{interpretation_of, data_of, added};

use crate::barlines::Barlines;
use hum_record::{GrowingText, Record};
use std::alloc::{AllocError, Global};

fn is_null_comment(token: &[u8]) -> bool
    ensures { result ≡ is_null_comment token.now }
{
    token == b"!".as_slice()
}

/// The leftmost local comment that isn't null, else a null one.
pub fn leftmost_comment<'r>(marks: &[bool], row: &'r Record) -> &'r [u8]
    requires kind { row.now ≡ Spined Local (tokens_of row.now) }
    requires as_wide { length marks.now ≡ width_of row.now }
    ensures token { result.now ≡ comment_of (chosen marks.now (tokens_of row.now)) }
    ensures lawful { IsToken Local result.now }
{
    for (j, mark) in marks.iter().enumerate() {
        if *mark && !is_null_comment(row.token(j)) {
            return row.token(j);
        }
    }
    b"!".as_slice()
}

/// Whether an interpretation says nothing of the one column: null, a split or a join.
fn is_silent(token: &[u8]) -> bool
    ensures { result ≡ is_silent token.now }
{
    token == b"*".as_slice() || token == b"*^".as_slice() || token == b"*v".as_slice()
}

/// The leftmost interpretation that isn't null, a split or a join, else a null one.
pub fn leftmost_interpretation<'r>(marks: &[bool], row: &'r Record) -> &'r [u8]
    requires as_wide { length marks.now ≡ width_of row.now }
    ensures { result.now ≡ interpretation_of (chosen marks.now (tokens_of row.now)) }
{
    for (j, mark) in marks.iter().enumerate() {
        if *mark && !is_silent(row.token(j)) {
            return row.token(j);
        }
    }
    b"*"
}

/// Adds a token to a text, with the separator between.
fn add(separator: &[u8], token: &[u8], text: &mut GrowingText) -> Result<(), AllocError>
    ensures { OnOk result (text.new
        ≡ added separator.now text.old token.now) }
{
    if !text.is_empty() {
        text.add(separator)?;
    }
    text.add(token)?;
    Ok(())
}

/// Puts the data tokens of the cleaved columns into a text.
pub fn gather(
    alloc: Global,
    separator: &[u8],
    marks: &[bool],
    row: &Record,
    text: &mut GrowingText,
) -> Result<(), AllocError>
    requires kind { row.now ≡ Spined Values (tokens_of row.now) }
    requires valid { IsTextOf row.now (text_of row.now) }
    requires between { fits_in_token separator.now ≡ true }
    requires as_wide { length marks.now ≡ width_of row.now }
    ensures text { OnOk result (text.new
        ≡ data_of separator.now (chosen marks.now (tokens_of row.now))) }
    ensures lawful { OnOk result (IsToken Values text.new) }
{
    text.clear();
    let mut barlines = Barlines::none(alloc);
    for (j, mark) in marks.iter().enumerate() {
        if !*mark {
            continue;
        }
        let token = row.token(j);
        if !barlines.leaves_out(token)? {
            add(separator, token, text)?;
        }
    }
    if text.is_empty() {
        text.add(b".")?;
    }
    Ok(())
}
