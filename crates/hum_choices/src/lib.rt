//! What each command of one input is told to do: the types of all commands' options.
//!
//! A file for each command has its options, and what makes them; [`CommandOptions`] are a command
//! and its options. What a command makes of records by them is said in the crate of the command.
#![tactic(auto)]

ghost use Rattle.std.specs.Prelude.{◌≡◌, IfOk};
ghost use Rattle.hum_choices.specs.Options.{options_of};

mod cleave;
mod context;
mod ditto;
mod extract;
mod mint;
mod recip;
mod rid;
mod semits;
mod timebase;
mod trans;
mod yank;

pub use cleave::{CleaveOptions, is_name, is_separator};
pub use context::{ContextOptions, GREATEST_COUNT, Span, TokenCount};
pub use ditto::DittoOptions;
pub use extract::{ExtractOptions, Field, FieldRange};
pub use mint::MintOptions;
pub use recip::RecipOptions;
pub use rid::RidOptions;
pub use semits::SemitsOptions;
use std::alloc::{AllocError, Global};
pub use timebase::TimebaseOptions;
pub use trans::TransOptions;
pub use yank::{GREATEST_PASSAGE, Markers, YankOptions, YankRange};

/// A command of one input, and what it is told to do.
#[derive(Drop)]
pub enum CommandOptions {
    Rid(RidOptions),
    Extract(ExtractOptions),
    Ditto(DittoOptions),
    Timebase(TimebaseOptions),
    Context(ContextOptions),
    Trans(TransOptions),
    Semits(SemitsOptions),
    Mint(MintOptions),
    Recip(RecipOptions),
    Yank(YankOptions),
    Cleave(CleaveOptions),
}

impl CommandOptions {
    /// The same command and options once more.
    ///
    /// # Errors
    /// Out of memory.
    pub fn copy(&self, alloc: Global) -> Result<CommandOptions, AllocError>
        ensures { IfOk result (λ copy. options_of copy ≡ options_of self.now) }
    {
        Ok(match self {
            CommandOptions::Rid(options) => CommandOptions::Rid(*options),
            CommandOptions::Extract(options) => CommandOptions::Extract(options.copy(alloc)?),
            CommandOptions::Ditto(options) => CommandOptions::Ditto(options.copy(alloc)?),
            CommandOptions::Timebase(options) => CommandOptions::Timebase(options.copy(alloc)?),
            CommandOptions::Context(options) => CommandOptions::Context(options.copy(alloc)?),
            CommandOptions::Trans(options) => CommandOptions::Trans(*options),
            CommandOptions::Semits(options) => CommandOptions::Semits(*options),
            CommandOptions::Mint(options) => CommandOptions::Mint(options.copy(alloc)?),
            CommandOptions::Recip(options) => CommandOptions::Recip(*options),
            CommandOptions::Yank(options) => CommandOptions::Yank(options.copy(alloc)?),
            CommandOptions::Cleave(options) => CommandOptions::Cleave(options.copy(alloc)?),
        })
    }
}
