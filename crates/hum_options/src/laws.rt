//! What holds of all words, as contracts.
ghost use Rattle.std.specs.Prelude.{ℕ, Bool, List};
ghost use Rattle.hum_words.specs.declared.commands.Command.{Command};
ghost use Rattle.hum_options.specs.{Answers.Word, Spelling.AreReadAsSpelled};
ghost use Rattle.hum_options.specs.{Refused.AreRefusedInOrder};

/// Words are read as the options that they spell, and as no others.
pub fn words_are_read_as_spelled()
    ensures { (command : Command) (n : ℕ) (words : List Word) → AreReadAsSpelled command n words }
{}

/// A fault of the words behind a command is told exactly where the words in front of it are lawful
/// options and the rule is broken behind them: N8 at a word that is no option of the command, comes
/// twice or beside one that excludes it; N9 at an option without its value, and at the command where
/// it lacks one; N10 at a value that isn't of its grammar, and N12 at a pattern that is refused. Of
/// the words of rid it is the first that isn't of letters, N8, or that drops all interpretations
/// before another stage, N11; N9 where there is none.
pub fn words_are_refused_in_order()
    ensures { (command : Command) (n : ℕ) (is_last : Bool) (words : List Word)
        → AreRefusedInOrder command n is_last words }
{}
