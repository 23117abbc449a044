//! Joins of which some columns are chosen and others aren't.
ghost use Rattle.std.specs.Prelude.{◌≡◌, ◌&&◌, false, length, map};
ghost use Rattle.hum_score.specs.Row.{tokens_of, width_of};
ghost use Rattle.hum_score.specs.Sign.{sign_of};
ghost use Rattle.hum_columns.specs.Chosen.{differ, is_torn};

use hum_path::token_sign;
use hum_record::Record;

fn differ(a: bool, b: bool) -> bool
    ensures { result ≡ differ a b }
{
    a != b
}

/// Whether neighbours tear a join: both join, and one is chosen and the other isn't.
fn tears(left_joins: bool, left: bool, joins: bool, mark: bool) -> bool
    ensures { result ≡ (left_joins && (joins && differ left mark)) }
{
    left_joins && joins && differ(left, mark)
}

/// Whether one join has chosen columns and others.
pub fn is_torn(marks: &[bool], row: &Record) -> bool
    requires { length marks.now ≡ width_of row.now }
    ensures { result ≡ is_torn marks.now (map sign_of (tokens_of row.now)) }
{
    let mut left_joins = false;
    let mut left = false;
    for (j, mark) in marks.iter().enumerate() {
        let joins = token_sign(row.token(j)).is_join();
        if tears(left_joins, left, joins, *mark) {
            return true;
        }
        left_joins = joins;
        left = *mark;
    }
    false
}
