//! The tests of the path rules.
ghost use Rattle.std.specs.Prelude.{◌≡◌, ◌≢◌, ◌<◌, length, drop, false, map, IfOk, IfSome};
ghost use Rattle.std.specs.List.{list_any, list_all, find};
ghost use Rattle.hum_score.specs.declared.spines.PathFault.TheVariants.{Memory};
ghost use Rattle.hum_score.specs.Sign.{sign_of, is_exclusive, is_path_indicator};
ghost use Rattle.hum_score.specs.Spines.{Unopened, Spines, exchanges};
ghost use Rattle.hum_path.specs.Tracked.{path_in};
ghost use Rattle.hum_score.specs.Texts.{texts};
ghost use Rattle.hum_score.specs.Rules.{has_bare, stays_unnamed, has_unnamed, has_lone_join};
ghost use Rattle.hum_score.specs.Rules.{mixes_join, has_mixed_join, names_and_steers, breaks};
ghost use Rattle.hum_score.specs.Rules.{breaks_as_text, in_order};
ghost use Rattle.hum_path.specs.Asked.{on_signs};
ghost use Rattle.hum_score.specs.{Spelling.is_empty, Row.tokens_of};

use crate::MOST_SPINES;
use crate::signs::has_exclusive;
use hum_record::Record;
use hum_score::{PathFault, Sign, token_sign};
use std::alloc::{AllocError, Global};

/// What each token of a record asks of the spines.
pub(crate) fn signs(alloc: Global, row: &Record) -> Result<Vec<Sign>, AllocError>
    ensures { IfOk result (λ v. v.items ≡ map sign_of (tokens_of row.now)) }
{
    row.tokens().map(|token| token_sign(token)).collect(alloc)
}

/// Whether an exclusive interpretation has no name.
fn has_bare(row: &Record) -> bool
    ensures { result ≡ has_bare (tokens_of row.now) }
{
    row.tokens().any(|token| b"**".as_slice() == token)
}

fn stays_unnamed(name: &[u8], sign: Sign) -> bool
    ensures { result ≡ stays_unnamed name.now sign }
{
    name.is_empty() && !sign.is_exclusive()
}

/// Whether an added spine waits for its exclusive interpretation, and is not given one.
fn has_unnamed(names: &[Vec<u8>], signs: &[Sign]) -> bool
    requires { length names.now ≡ length signs.now }
    ensures { result ≡ has_unnamed (texts names.now) signs.now }
{
    for j in 0..signs.len() {
        if stays_unnamed(&names[j], signs[j]) {
            return true;
        }
    }
    false
}

/// Whether a join has none beside it.
fn has_lone_join(signs: &[Sign]) -> bool
    ensures { result ≡ has_lone_join false signs.now }
{
    let mut after_join = false;
    for j in 0..signs.len() {
        let here = signs[j].is_join();
        let before_join = signs.len() - j > 1 && signs[j + 1].is_join();
        if here && !(after_join || before_join) {
            return true;
        }
        after_join = here;
    }
    false
}

fn mixes_join(names: &[Vec<u8>], signs: &[Sign], j: usize) -> bool
    requires same { length names.now ≡ length signs.now }
    requires within { j < length signs.now }
    ensures { result ≡ mixes_join (texts (drop j names.now)) (drop j signs.now) }
{
    if signs.len() - j < 2 {
        return false;
    }
    signs[j].is_join() && signs[j + 1].is_join() && names[j].as_slice() != names[j + 1].as_slice()
}

/// Whether joins stand side by side under different exclusive interpretations.
fn has_mixed_join(names: &[Vec<u8>], signs: &[Sign]) -> bool
    requires { length names.now ≡ length signs.now }
    ensures { result ≡ has_mixed_join (texts names.now) signs.now }
{
    for j in 0..signs.len() {
        if mixes_join(names, signs, j) {
            return true;
        }
    }
    false
}

/// Whether each token is an exclusive interpretation.
fn all_exclusive(row: &Record) -> bool
    ensures { result ≡ list_all is_exclusive (map sign_of (tokens_of row.now)) }
{
    row.tokens()
        .map(|token| token_sign(token))
        .all(|sign| sign.is_exclusive())
}

/// Whether an exclusive interpretation stands beside a path indicator.
fn names_and_steers(row: &Record, signs: &[Sign]) -> bool
    requires { signs.now ≡ map sign_of (tokens_of row.now) }
    ensures { result ≡ names_and_steers signs.now }
{
    has_exclusive(row) && any_indicator(signs)
}

fn any_indicator(signs: &[Sign]) -> bool
    ensures { result ≡ list_any is_path_indicator signs.now }
{
    signs.iter().any(|s| s.is_path_indicator())
}

/// Whether a spine waits for its exclusive interpretation.
pub(crate) fn has_nameless(names: &[Vec<u8>]) -> bool
    ensures { result ≡ list_any is_empty (texts names.now) }
{
    for name in names {
        if name.is_empty() {
            return true;
        }
    }
    false
}

/// The first rule that the first interpretation of a score breaks.
pub(crate) fn opening_fault(row: &Record) -> Option<PathFault>
    ensures { result ≡ find (breaks Unopened (tokens_of row.now)) in_order }
{
    if !all_exclusive(row) {
        return Some(PathFault::P1);
    }
    if has_bare(row) {
        return Some(PathFault::P10);
    }
    if row.width() > MOST_SPINES {
        return Some(PathFault::P9);
    }
    None
}

/// The first rule that an interpretation as wide as the spines breaks by what its tokens ask, given
/// the places of the exchanged spines.
pub(crate) fn sign_fault(
    names: &[Vec<u8>],
    row: &Record,
    signs: &[Sign],
    pair: &[u16],
) -> Option<PathFault>
    requires signs { signs.now ≡ map sign_of (tokens_of row.now) }
    requires pair { pair.now ≡ exchanges 0 signs.now }
    requires wide { length names.now ≡ length signs.now }
    ensures { result ≡ find (breaks (Spines (texts names.now)) (tokens_of row.now)) on_signs }
{
    if has_unnamed(names, signs) {
        return Some(PathFault::P6);
    }
    if has_bare(row) {
        return Some(PathFault::P10);
    }
    if names_and_steers(row, signs) {
        return Some(PathFault::P11);
    }
    if has_lone_join(signs) {
        return Some(PathFault::P3);
    }
    if !(pair.len() == 0 || pair.len() == 2) {
        return Some(PathFault::P4);
    }
    if has_mixed_join(names, signs) {
        return Some(PathFault::P5);
    }
    None
}

/// The first rule that a record breaks which asks nothing of the spines.
pub(crate) fn text_fault(
    opened: bool,
    waits: bool,
    names: &[Vec<u8>],
    row: &Record,
) -> Option<PathFault>
    requires { waits ≡ list_any is_empty (texts names.now) }
    ensures first { result
        ≡ find (breaks_as_text (path_in opened (texts names.now)) (tokens_of row.now)) in_order }
    ensures told { IfSome result (λ fault. fault ≢ Memory) }
{
    if !opened {
        return Some(PathFault::P1);
    }
    if names.is_empty() {
        return Some(PathFault::P7);
    }
    if row.width() != names.len() {
        return Some(PathFault::P2);
    }
    if waits {
        return Some(PathFault::P6);
    }
    None
}
