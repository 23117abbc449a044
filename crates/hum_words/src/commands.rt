//! The commands, and their words in a plan.
ghost use Rattle.std.specs.Prelude.{◌≡◌};
ghost use Rattle.hum_words.specs.Commands.{commands, word_of, command_of};

/// What a stage of a plan does.
#[derive(Clone, Copy, Debug, PartialEq, Eq)]
pub enum Command {
    Read,
    Rid,
    Extract,
    Ditto,
    Timebase,
    Context,
    Trans,
    Semits,
    Mint,
    Recip,
    Yank,
    Cleave,
    Assemble,
}

impl Command {
    /// All commands.
    fn all() -> &'static [Command]
        ensures { result.now ≡ commands }
    {
        &[
            Command::Read,
            Command::Rid,
            Command::Extract,
            Command::Ditto,
            Command::Timebase,
            Command::Context,
            Command::Trans,
            Command::Semits,
            Command::Mint,
            Command::Recip,
            Command::Yank,
            Command::Cleave,
            Command::Assemble,
        ]
    }

    /// Its word in a plan.
    pub fn word(self) -> &'static str
        ensures { result.now ≡ word_of self }
    {
        match self {
            Command::Read => "read",
            Command::Rid => "rid",
            Command::Extract => "extract",
            Command::Ditto => "ditto",
            Command::Timebase => "timebase",
            Command::Context => "context",
            Command::Trans => "trans",
            Command::Semits => "semits",
            Command::Mint => "mint",
            Command::Recip => "recip",
            Command::Yank => "yank",
            Command::Cleave => "cleave",
            Command::Assemble => "assemble",
        }
    }

    /// The command that a word is.
    #[tactic(auto, unfolding(crate::specs::Commands::command_of))]
    pub fn of_word(word: &str) -> Option<Command>
        ensures { result ≡ command_of word.now }
    {
        Command::all()
            .iter()
            .copied()
            .find(|command| command.word() == word)
    }
}
