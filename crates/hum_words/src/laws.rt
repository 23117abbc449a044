//! What holds of every text, every line and all words, as contracts.
ghost use Rattle.std.specs.Prelude.{ℕ, List};
ghost use Rattle.hum_words.specs.Laws.{IsDivided, IsCutAsWritten, IsRefusedAsWrong};
ghost use Rattle.hum_words.specs.Laws.{CanBeWritten};

/// Each text is divided into its lines.
pub fn texts_are_divided()
    ensures { (text : List ℕ) → IsDivided text }
{}

/// Each line is cut into the pieces by which it is written, or refused at the word that is wrong
/// with its quotes.
pub fn lines_are_cut_as_written()
    ensures cut { (line : List ℕ) → IsCutAsWritten line }
    ensures refused { (line : List ℕ) → IsRefusedAsWrong line }
{}

/// Words can be written in a line exactly where none of them has a quote.
pub fn words_can_be_written()
    ensures { (words : List (List ℕ)) → CanBeWritten words }
{}
