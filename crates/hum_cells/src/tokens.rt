//! Data records with tokens that are told anew.
ghost use Rattle.std.specs.Prelude.{◌≡◌, ◌&&◌, ◌∷◌, Bool, List, length, OnOk};
ghost use Rattle.hum_score.specs.declared.records.Kind.TheVariants.{Values as AnyValues};
ghost use Rattle.hum_score.specs.declared.records.SpinedKind.TheVariants.{Values};
ghost use Rattle.hum_score.specs.Row.{Row, tokens_of, width_of, kind_of};
ghost use Rattle.hum_score.specs.Spelling.{IsToken};
ghost use Rattle.hum_stage.specs.Refusals.{IfTold, IfAnswered};
ghost use Rattle.hum_score.specs.Score.{IsOpen};
ghost use Rattle.hum_path.specs.Chains.{columns};
ghost use Rattle.hum_cells.specs.Rewriting.{Rewriting, has_content, any_told};
ghost use Rattle.hum_cells.specs.Rewriter.{MayHear, HasPushed, MayTellData, HasToldData};
ghost use Rattle.hum_record.specs.RecordDraft.{Holds};

use crate::rewriter::TokenRewriter;
use crate::rewritten::Rewritten;
use hum_record::{Record, RecordDraft, Spare, SpinedKind, is_barline, is_null};
use hum_stage::{Refusal, unless_long};
use std::alloc::{AllocError, Global};

/// Whether a data token of a kern column is told anew: it is neither null nor a barline.
fn has_content(token: &[u8]) -> bool
    ensures { result ≡ has_content token.now }
{
    !is_null(token) && !is_barline(token)
}

/// The same of a token of a column that may be under `**kern`.
fn is_rewritten(kern: bool, token: &[u8]) -> bool
    ensures { result ≡ (kern && has_content token.now) }
{
    kern && has_content(token)
}

/// Whether a record has a token in a kern column that is told anew.
pub(crate) fn any_told(kern: &[bool], row: &Record) -> bool
    requires { length kern.now ≡ width_of row.now }
    ensures { result ≡ any_told kern.now (tokens_of row.now) }
{
    for j in 0..row.width() {
        if is_rewritten(kern[j], row.token(j)) {
            return true;
        }
    }
    false
}

/// Adds what the token in column `j` becomes.
///
/// # Errors
/// The rule by which it is refused; or out of memory.
fn push_told<T: TokenRewriter>(
    teller: &mut T,
    j: usize,
    kern: bool,
    token: &[u8],
    making: &mut RecordDraft,
) -> Result<(), Refusal>
    requires column { MayHear (T.follows teller.old) j }
    requires lawful { IsToken Values token.now }
    requires kind { making.old.builder.kind ≡ Values }
    ensures pushed { IfTold result (HasPushed (T.follows teller.old) (T.follows teller.new) j kern
        token.now (Holds Values making.old.builder making.old.is_long)
        (Holds Values making.new.builder making.new.is_long)) }
    ensures kind { OnOk result (making.new.builder.kind ≡ Values) }
{
    if !is_rewritten(kern, token) {
        teller.hear(j, token)?;
        making.push(token)?;
        return Ok(());
    }
    teller.rewrite(j, token, making)
}

/// Hears the tokens of a data record, of which none is told anew.
pub(crate) fn hear_tokens<T: TokenRewriter>(teller: &mut T, row: &Record) -> Result<(), AllocError>
    requires score { (kern : List Bool) × MayTellData (T.follows teller.old) kern row.now }
    requires kind { kind_of row.now ≡ AnyValues }
    ensures { OnOk result ((rewriting : Rewriting) (past : List Row)
        → T.follows teller.old rewriting (columns past) → IsOpen (row.now ∷ past)
        → T.follows teller.new rewriting (columns (row.now ∷ past))) }
{
    for j in 0..row.width() {
        teller.hear(j, row.token(j))?;
    }
    Ok(())
}

/// What a data record becomes.
///
/// # Errors
/// The first rule by which one of its tokens is refused, or L1; or out of memory.
pub(crate) fn tell_tokens<T: TokenRewriter>(
    alloc: Global,
    teller: &mut T,
    kern: &[bool],
    row: &Record,
    spare: &mut Spare,
) -> Result<Rewritten, Refusal>
    requires score { MayTellData (T.follows teller.old) kern.now row.now }
    requires kind { kind_of row.now ≡ AnyValues }
    ensures { IfAnswered result (HasToldData (T.follows teller.old) (T.follows teller.new) kern.now row.now) }
{
    let mut making = RecordDraft::new(alloc, SpinedKind::Values, spare);
    for j in 0..row.width() {
        push_told(teller, j, kern[j], row.token(j), &mut making)?;
    }
    let made = unless_long(making.finish())?;
    Ok(Rewritten::Other(made))
}
