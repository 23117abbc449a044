//! Where a record stands in its score, and how many spines stand behind it.
ghost use Rattle.std.specs.Prelude.{◌≡◌, ◌≤◌, None, false, true, length, map};
ghost use Rattle.std.specs.List.{list_all};
ghost use Rattle.hum_score.specs.Row.{tokens_of, text_of, kind_of};
ghost use Rattle.hum_score.specs.declared.records.Kind.TheVariants.{Interpretation, Values};
ghost use Rattle.hum_score.specs.{Sign.sign_of, Rules.fault_of, Spelling.IsTextOf};
ghost use Rattle.hum_score.specs.Spines.{Path, width, after};
ghost use Rattle.hum_assemble.specs.Source.{is_end, is_inside, place, interpretation_place};
ghost use Rattle.hum_assemble.specs.Source.{by_comment, unit_place};
ghost use Rattle.hum_assemble.specs.{Head.is_opened, Sizes.width_under, Sizes.heirs_count};

use crate::places::Place;
use hum_path::{MOST_SPINES, Paths, Sign, steers, token_sign};
use hum_record::{Kind, Record};

/// Whether each token ends its spine.
fn all_end(row: &Record) -> bool
    ensures { result ≡ list_all is_end (map sign_of (tokens_of row.now)) }
{
    row.tokens()
        .map(|token| token_sign(token))
        .all(|sign| matches!(sign, Sign::End))
}

/// Whether an added spine waits for its exclusive interpretation.
fn is_inside(paths: &Paths) -> bool
    ensures { result ≡ is_inside paths.now.path }
{
    for j in 0..paths.width() {
        if paths.exclusive(j).is_empty() {
            return true;
        }
    }
    false
}

/// Whether spines were opened, and whether an added one waits, behind a record, by whether they did
/// before it: only an interpretation changes that.
pub fn stand_behind(opened: bool, inside: bool, paths: &Paths, row: &Record) -> (bool, bool)
    ensures opened { (path : Path) → opened ≡ is_opened path
        → result.0 ≡ is_opened (after path row.now) }
    ensures inside { (path : Path) → inside ≡ is_inside path → paths.now.path ≡ after path row.now
        → result.1 ≡ is_inside paths.now.path }
{
    match row.kind() {
        Kind::Interpretation => (true, is_inside(paths)),
        _ => (opened, inside),
    }
}

/// Where an interpretation stands among the units of its group.
fn interpretation_place(row: &Record) -> Place
    requires { kind_of row.now ≡ Interpretation }
    ensures { result ≡ interpretation_place (map sign_of (tokens_of row.now)) }
{
    if all_end(row) {
        Place::Closing
    } else if steers(row) {
        Place::Change
    } else {
        Place::Tandem
    }
}

/// Where a record that is a unit, or begins one, stands in its round.
fn unit_place(row: &Record) -> Place
    ensures { result ≡ unit_place row.now }
{
    match row.kind() {
        Kind::Global => Place::Remark,
        Kind::Local => Place::Local,
        Kind::Values => Place::Note,
        Kind::Interpretation => interpretation_place(row),
    }
}

/// One place for a global comment, another for any other record.
fn by_comment(row: &Record, comment: Place, other: Place) -> Place
    ensures { result ≡ by_comment row.now comment other }
{
    match row.kind() {
        Kind::Global => comment,
        _ => other,
    }
}

/// Where a record stands in its source.
fn place(opened: bool, inside: bool, paths: &Paths, row: &Record) -> Place
    requires opened { opened ≡ is_opened paths.now.path }
    requires inside { inside ≡ is_inside paths.now.path }
    ensures { result ≡ place paths.now.path row.now }
{
    if !opened {
        by_comment(row, Place::Front, Place::Opening)
    } else if paths.is_closed() {
        Place::Tail
    } else if inside {
        by_comment(row, Place::Aside, Place::Begins)
    } else {
        unit_place(row)
    }
}

/// How many spines come of one under a sign.
fn heirs_count(after_join: bool, sign: Sign) -> usize
    ensures count { result ≡ heirs_count after_join sign }
    ensures at_most { result ≤ 2 }
{
    match sign {
        Sign::Split | Sign::Add => 2,
        Sign::Join => { if after_join { 0 } else { 1 } }
        Sign::End => 0,
        Sign::Exchange | Sign::Exclusive | Sign::Plain => 1,
    }
}

/// How many spines come of those under a record's tokens.
fn width_under(row: &Record) -> usize
    requires { length (tokens_of row.now) ≤ MOST_SPINES }
    ensures { result ≡ width_under false (map sign_of (tokens_of row.now)) }
{
    let mut count = 0usize;
    let mut after_join = false;
    for token in row.tokens() {
        let sign = token_sign(token);
        count += heirs_count(after_join, sign);
        after_join = sign.is_join();
    }
    count
}

/// How many spines stand after a record that breaks no path rule.
fn width_after(opened: bool, paths: &Paths, row: &Record) -> usize
    requires opened { opened ≡ is_opened paths.now.path }
    requires valid { fault_of paths.now.path row.now ≡ None }
    ensures { result ≡ width (after paths.now.path row.now) }
{
    let width = paths.width();
    match row.kind() {
        Kind::Interpretation => {
            if opened {
                width_under(row)
            } else {
                row.width()
            }
        }
        _ => width,
    }
}

/// Whether a record is one of data.
pub fn is_data(row: &Record) -> bool
    ensures data { result ≡ true → kind_of row.now ≡ Values }
    ensures lawful { IsTextOf row.now (text_of row.now) }
{
    matches!(row.kind(), Kind::Values)
}

/// Where such a record stands, and how many spines stand after it.
#[inline(never)]
fn stand_any(opened: bool, inside: bool, paths: &Paths, row: &Record) -> (Place, usize)
    requires opened { opened ≡ is_opened paths.now.path }
    requires inside { inside ≡ is_inside paths.now.path }
    requires valid { fault_of paths.now.path row.now ≡ None }
    ensures place { result.0 ≡ place paths.now.path row.now }
    ensures width { result.1 ≡ width (after paths.now.path row.now) }
    ensures lawful { IsTextOf row.now (text_of row.now) }
{
    // Its text is lawful.
    let _kind = row.kind();
    let place = place(opened, inside, paths, row);
    let width = width_after(opened, paths, row);
    (place, width)
}

/// The same, and most often of data.
pub fn stand(opened: bool, inside: bool, paths: &Paths, row: &Record) -> (Place, usize)
    requires opened { opened ≡ is_opened paths.now.path }
    requires inside { inside ≡ is_inside paths.now.path }
    requires valid { fault_of paths.now.path row.now ≡ None }
    ensures place { result.0 ≡ place paths.now.path row.now }
    ensures width { result.1 ≡ width (after paths.now.path row.now) }
    ensures lawful { IsTextOf row.now (text_of row.now) }
{
    if opened && !inside && !paths.is_closed() && is_data(row) {
        return (Place::Note, paths.width());
    }
    stand_any(opened, inside, paths, row)
}
