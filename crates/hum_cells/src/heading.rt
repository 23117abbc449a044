//! Records with `**kern`.
ghost use Rattle.std.specs.Prelude.{◌≡◌, ◌≢◌, [], map, IfOk};
ghost use Rattle.std.specs.List.{list_any};
ghost use Rattle.hum_score.specs.declared.records.Kind.TheVariants.{Interpretation as AnyInterpretation};
ghost use Rattle.hum_score.specs.declared.records.SpinedKind.TheVariants.{Interpretation};
ghost use Rattle.hum_score.specs.Row.{tokens_of, kind_of};
ghost use Rattle.hum_cells.specs.Rewriting.{is_kern, headed, IsHeading};
ghost use Rattle.hum_cells.specs.Rewriter.{shown};
ghost use Rattle.hum_record.specs.RecordDraft.{IsMade};

use crate::rewriter::Heading;
use hum_path::Paths;
use hum_record::{Record, RecordDraft, Spare, SpinedKind};
use std::alloc::{AllocError, Global};

/// Whether an exclusive interpretation is `**kern`.
pub(crate) fn is_kern(token: &[u8]) -> bool
    ensures { result ≡ is_kern token.now }
{
    b"**kern".as_slice() == token
}

/// Whether a token of a record is `**kern`.
pub(crate) fn has_kern(row: &Record) -> bool
    ensures { result ≡ list_any is_kern (tokens_of row.now) }
{
    row.tokens().any(|token| is_kern(token))
}

/// What stands in a token's place under a heading.
fn headed<'t>(heading: Heading<'t>, token: &'t [u8]) -> &'t [u8]
    ensures { result.now ≡ headed (shown heading.entry) token.now }
{
    match heading {
        Heading::Renamed(name) => { if is_kern(token) { name } else { token } }
        Heading::Followed(tandem) => {
            if is_kern(token) {
                tandem
            } else {
                b"*".as_slice()
            }
        }
    }
}

/// The record with the heading, unless it is too long.
pub(crate) fn with_heading(
    alloc: Global,
    heading: Heading<'_>,
    row: &Record,
    spare: &mut Spare,
) -> Result<Option<Record>, AllocError>
    requires lawful { IsHeading (shown heading) }
    requires kind { kind_of row.now ≡ AnyInterpretation }
    requires filled { tokens_of row.now ≢ [] }
    ensures { IfOk result (IsMade Interpretation
        (map (headed (shown heading.entry)) (tokens_of row.now))) }
{
    let mut making = RecordDraft::new(alloc, SpinedKind::Interpretation, spare);
    for j in 0..row.width() {
        making.push(headed(heading, row.token(j)))?;
    }
    Ok(making.finish())
}
