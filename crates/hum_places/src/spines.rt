//! Where each spine comes from, place by place.
ghost use Rattle.std.specs.Prelude.{◌<◌, ℕ, List, length};
ghost use Rattle.hum_score.specs.Row.{Row};
ghost use Rattle.hum_score.specs.Spines.{Path};
ghost use Rattle.hum_score.specs.Score.{IsOpen};
ghost use Rattle.hum_path.specs.Origins.{AreOrigins};
ghost use Rattle.hum_places.specs.Heirs.{StepsByPlace, StaysByPlace, IsOneWay};
ghost use Rattle.hum_places.specs.Above.{CellsAreAbove, OriginsAreAbove, Ascends};

use hum_path::Origins;

/// Behind an interpretation that breaks no rule the spines come, cell by cell from left to right: under
/// `*^` the left and the right of its spine; under `*v` side by side one of them all, from the first
/// to the last; under `*x` the spine of the other `*x`; under `*+` its spine and an added one to the
/// right; under `*-` none; under any other token its spine. No other list of moves is so.
/// Under other records no spine moves.
pub fn heirs_by_place()
    ensures moved { (names tokens : List (List ℕ)) → StepsByPlace names tokens }
    ensures alone { (names tokens : List (List ℕ)) → IsOneWay names tokens }
    ensures still { (path : Path) (row : Row) → StaysByPlace path row }
{}

/// Each spine comes from the cell above it: of joined ones from the leftmost, and an added one from
/// the cell with its `*+`.
pub fn cells_above()
    ensures { (path : Path) (tokens : List (List ℕ)) → CellsAreAbove path tokens }
{}

/// The origin of a spine is the opening spine that one comes to by going up from cell to cell.
pub fn origins_above()
    ensures { (past : List Row) → IsOpen past → OriginsAreAbove past }
{}

/// The opening spine that one comes to by going up from a spine; both are counted from 0.
pub fn opening_spine(origins: &Origins, j: usize) -> u16
    requires { j < length origins.now.each }
    ensures { (past : List Row) → IsOpen past → AreOrigins past origins.now.each
        → Ascends past j result }
{
    origins.at(j)
}
