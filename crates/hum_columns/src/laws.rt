//! What holds of chosen columns, as contracts.
ghost use Rattle.std.specs.Prelude.{Bool, List, ℕ};
ghost use Rattle.hum_score.specs.Row.{Row};
ghost use Rattle.hum_score.specs.Score.{IsOpen};
ghost use Rattle.hum_columns.specs.Chosen.{AreChosenByOrigin};

/// Each column bears the mark of its origin (`Origins` of the crate `hum_path`): of the opening spine
/// that one comes to by going up from it.
pub fn marks_are_of_origins()
    ensures { (choose : List (List ℕ) → List Bool) (past : List Row) → IsOpen past
        → AreChosenByOrigin choose past }
{}
