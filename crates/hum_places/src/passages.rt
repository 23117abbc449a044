//! The passages of yank, by the nearest markers above.
ghost use Rattle.std.specs.Prelude.{List};
ghost use Rattle.hum_score.specs.Row.{Row};
ghost use Rattle.hum_yank.specs.Passages.{Form};
ghost use Rattle.hum_places.specs.Passages.{IsByNearest, AreNumbers};

/// A record has the number that its own marker bears, or else the nearest above it, unless the passage
/// of that one has ended above it. Before the first marker lies passage 0, if there is one. The number
/// that digits bear is the one that they write in decimal.
pub fn passages_by_marker()
    ensures nearest { (form : Form) (past : List Row) (row : Row) → IsByNearest form past row }
    ensures numbers { AreNumbers }
{}
