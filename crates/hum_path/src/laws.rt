//! What holds of every record and of every score, as contracts.
ghost use Rattle.std.specs.Prelude.{ℕ, List};
ghost use Rattle.hum_score.specs.Row.{Row};
ghost use Rattle.hum_score.specs.{Spines.Path};
ghost use Rattle.hum_path.specs.{Places.AreRulesByPlace, Turned.StepsTurn};
ghost use Rattle.hum_path.specs.{Turned.ColumnsTurn, Chains.origins};
ghost use Rattle.hum_score.specs.{Score.IsOpen};
ghost use Rattle.hum_path.specs.{Origins.AreOrigins};

/// Of an interpretation after others: P3 is broken exactly where some `*v` has no `*v` beside it;
/// P4 isn't broken exactly where no `*x` stands in it, or two; P5 is broken exactly where two `*v`
/// stand beside each other under different exclusive interpretations, and P6 exactly where an added
/// spine doesn't get one.
pub fn rules_hold_by_place()
    ensures { (names tokens : List (List ℕ)) → AreRulesByPlace names tokens }
{}

/// The cells above and the cells below are each other's, turned round, but for the right one of a
/// split, and for joined ones that aren't the leftmost.
pub fn cells_turn_round()
    ensures steps { (path : Path) (tokens : List (List ℕ)) → StepsTurn path tokens }
    ensures columns { (past rows : List Row) → ColumnsTurn past rows }
{}

/// Origins that are carried down record by record are those that one comes to by going up.
pub fn origins_go_up()
    ensures { (past : List Row) → IsOpen past → AreOrigins past (origins past) }
{}
