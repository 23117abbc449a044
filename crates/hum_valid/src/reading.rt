//! What is read and what is written of a score, as contracts.
ghost use Rattle.std.specs.Prelude.{ℕ, List};
ghost use Rattle.hum_score.specs.Row.{Row};
ghost use Rattle.hum_read.specs.Denoted.{score_of};
ghost use Rattle.hum_valid.specs.Records.{AreRecords};
ghost use Rattle.hum_valid.specs.Written.{ReadsAgain};

/// The score that bytes denote has lawful records, whether it is broken or not.
pub fn scores_are_records()
    ensures { (bytes : List ℕ) → AreRecords (score_of bytes).rows }
{}

/// The text of lawful records that are a score, with an LF behind each, is read as these records, and
/// closed where no spine is open behind them.
pub fn scores_are_read_again()
    ensures { (rows : List Row) → ReadsAgain rows }
{}
