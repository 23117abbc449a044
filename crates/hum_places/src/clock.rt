//! The clock of timebase, by the notes that live at each cell.
ghost use Rattle.std.specs.Prelude.{ℕ, List, ◌∷◌};
ghost use Rattle.hum_score.specs.Row.{Row, Spined};
ghost use Rattle.hum_score.specs.declared.records.SpinedKind.TheVariants.{Values};
ghost use Rattle.hum_score.specs.Score.{IsOpen};
ghost use Rattle.hum_places.specs.Clock.{LeadsByPlace, TimeIsByPlace, LastIsKept};

/// A note leads to a cell if one comes to it by going up from there along the column, at a join up any
/// of the joined spines, through cells of timed columns that strike none. The first record with a note
/// has time 0. A later one has the least end, after the time of the last such record, of the notes that
/// live before its cells.
pub fn clock_by_place()
    ensures leads { (past : List Row) → IsOpen past → LeadsByPlace past }
    ensures time { (past : List Row) (tokens : List (List ℕ)) → IsOpen (Spined Values tokens ∷ past)
        → TimeIsByPlace past tokens }
    ensures last { (past : List Row) (row : Row) → LastIsKept past row }
{}
