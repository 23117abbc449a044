//! The records that timebase puts on a grid, by the multiples that they stand at.
ghost use Rattle.std.specs.Prelude.{ℕ, List, Option};
ghost use Rattle.hum_score.specs.Row.{Row};
ghost use Rattle.hum_frac.specs.Ratio.{Ratio};
ghost use Rattle.hum_choices.specs.Timebase.{Pace};
ghost use Rattle.hum_places.specs.Grid.{GridByMultiples, IsOneGrid};

/// Before a record with notes stands a null record for each multiple of the step from the least end
/// after the last such record, it included, up to the record's time. The record stays where its time
/// is a multiple. Behind it stands one for each multiple strictly between its time and the least end
/// after it, of what leads to each spine's next cell. No other records are so.
pub fn grid_by_multiples()
    ensures placed { (pace : Pace) (past : List Row) (tokens : List (List ℕ))
        → GridByMultiples pace past tokens }
    ensures alone { (t : Ratio) (last : Option Ratio) (time : Ratio) (next : Option Ratio)
        → (tokens : List (List ℕ)) → IsOneGrid t last time next tokens }
{}
