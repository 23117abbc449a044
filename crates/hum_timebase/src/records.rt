//! The records that are made.
ghost use Rattle.std.specs.Prelude.{◌≡◌, ◌≤◌, length, true, IfOk};
ghost use Rattle.std.specs.Prelude.{if◌then◌else◌};
ghost use lib.Chars.{codes};
ghost use Rattle.hum_score.specs.declared.records.SpinedKind.TheVariants.{Interpretation};
ghost use Rattle.hum_score.specs.{Row.tokens_of, Spelling.IsToken};
ghost use Rattle.hum_score.specs.Sign.{sign_of, is_exclusive};
ghost use Rattle.hum_timebase.specs.Timebase.{names_some, tb_token, tb_row};

use crate::pace::Pace;
use hum_path::{MOST_SPINES, token_sign};
use hum_record::{Record, RecordBuilder, SpinedKind};
use std::alloc::{AllocError, Global};

/// The token that follows another.
fn tb_token<'a>(named: &'a [u8], token: &[u8]) -> &'a [u8]
    requires { IsToken Interpretation named.now }
    ensures token { result.now
        ≡ (if is_exclusive (sign_of token.now) then named.now else codes "*") }
    ensures lawful { IsToken Interpretation result.now }
{
    if token_sign(token).is_exclusive() {
        named
    } else {
        b"*"
    }
}

/// The record that follows one with exclusive interpretations.
///
/// # Errors
/// Out of memory.
pub(crate) fn tb_record(alloc: Global, pace: &Pace, row: &Record) -> Result<Record, AllocError>
    requires named { names_some (tokens_of row.now) ≡ true }
    requires few { length (tokens_of row.now) ≤ MOST_SPINES }
    ensures { IfOk result (λ made. made ≡ tb_row pace.now.text (tokens_of row.now)) }
{
    let named = pace.token(alloc)?;
    let mut builder = RecordBuilder::new(alloc, SpinedKind::Interpretation);
    for j in 0..row.width() {
        builder.push_fitting(tb_token(&named, row.token(j)))?;
    }
    Ok(builder.finish())
}
