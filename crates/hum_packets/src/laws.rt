//! What holds of every list of packets, as contracts.
ghost use Rattle.std.specs.Prelude.{ℕ, List};
ghost use Rattle.hum_packets.specs.Laws.{IsReadBack, IsReadInOneWay};

/// A list that was written is read as its packets, whatever stands behind it, and bytes are read in one way.
pub fn lists_are_read_back()
    ensures back { (packets : List (List ℕ)) → IsReadBack packets }
    ensures one_way { (all : List ℕ) → IsReadInOneWay all }
{}
