//! The records of the spread rule, place by place.
ghost use Rattle.std.specs.Prelude.{List};
ghost use Rattle.hum_columns.specs.Spread.{JoinedToken};
ghost use Rattle.hum_places.specs.Spreading.{SpreadsByPlace};

/// Where joins come side by side, there are as many records as joins. Record t has the t-th join from
/// the left; all tokens that are of no join stand in the last; elsewhere there is `*`. A join whose
/// record has been keeps one place.
pub fn spreads_by_place()
    ensures { (pieces : List JoinedToken) → SpreadsByPlace pieces }
{}
