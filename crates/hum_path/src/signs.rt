//! What a record asks of the spines.
ghost use Rattle.std.specs.Prelude.{◌≡◌};
ghost use Rattle.hum_score.specs.Row.{tokens_of};
ghost use Rattle.hum_score.specs.Sign.{has_exclusive, all_plain, steers};

use hum_record::Record;
use hum_score::{Kind, token_sign};

/// Whether a record has an exclusive interpretation.
pub fn has_exclusive(row: &Record) -> bool
    ensures { result ≡ has_exclusive (tokens_of row.now) }
{
    row.tokens().any(|token| token_sign(token).is_exclusive())
}

/// Whether each token of an interpretation asks nothing of the spines.
#[inline(never)]
fn all_plain(row: &Record) -> bool
    ensures { result ≡ all_plain (tokens_of row.now) }
{
    row.tokens()
        .map(|token| token_sign(token))
        .all(|sign| sign.is_plain())
}

/// Whether a record has a path indicator or an exclusive interpretation.
pub fn steers(row: &Record) -> bool
    ensures { result ≡ steers row.now }
{
    row.kind() == Kind::Interpretation && !all_plain(row)
}
