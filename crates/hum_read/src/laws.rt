//! What holds of all bytes, as a contract.
ghost use Rattle.std.specs.Prelude.{ℕ, List};
ghost use Rattle.hum_read.specs.Faults.{IsOfItsRecords};

/// Where each line of a sound text is a record, the score that the bytes denote breaks the rule that
/// these records break first, at its line.
pub fn scores_break_as_their_records()
    ensures { (bytes : List ℕ) → IsOfItsRecords bytes }
{}
