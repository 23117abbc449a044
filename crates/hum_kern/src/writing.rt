//! What holds of how durations are written, as contracts.
ghost use Rattle.std.specs.Prelude.{◌≡◌, ℕ, List, true};
ghost use Rattle.std.specs.Str.{all_ascii_digits};
ghost use Rattle.hum_frac.specs.Ratio.{Ratio};
ghost use Rattle.hum_kern.specs.declared.Length.{Length};
ghost use Rattle.hum_kern.specs.Laws.{IsPartInDecimal, IsPartOfAWholeNote, IsReadAgain, IsShort};

/// Digits are read as a number from 1 to 4,096 exactly where they are that number in decimal; such a
/// number n alone is 1/n of a whole note.
pub fn numbers_are_decimal()
    ensures digits { (digits : List ℕ) (n : ℕ) → all_ascii_digits digits ≡ true
        → IsPartInDecimal digits n }
    ensures alone { (n : ℕ) → IsPartOfAWholeNote n }
{}

/// A text that is a duration, and nothing else, has at most 15 bytes.
pub fn durations_are_short()
    ensures { (bytes : List ℕ) (value : Ratio) → IsShort bytes value }
{}

/// The text of a duration that was read, from its start to its end, is read as the same duration.
pub fn durations_are_read_again()
    ensures { (bytes : List ℕ) (found : Length) (value : Ratio) → IsReadAgain bytes found value }
{}
