//! The stages of a plan.
ghost use Rattle.std.specs.Prelude.{◌≡◌};

use hum_choices::CommandOptions;
use hum_words::Command;

/// What a stage does.
#[derive(Drop)]
pub enum Options {
    /// It reads the score of this name.
    Read(String),
    /// It puts scores side by side.
    Assemble,
    /// It is a command.
    Command(CommandOptions),
}

/// A stage, with the numbers of those that it reads from. Stages are numbered from 1.
pub struct PlanStage {
    pub command: Command,
    pub sources: Vec<u8>,
    pub options: Options,
}

// Written out, so that a caller's proof sees one call and not the drop of each command's options.
impl Drop for PlanStage {
    fn drop(self) {
        let PlanStage {
            command: _,
            sources: _sources,
            options: _options,
        } = self;
    }
}

impl PlanStage {
    /// The numbers of the stages that it reads from, and what it does.
    pub fn into_parts(self) -> (Vec<u8>, Options)
        ensures { result ≡ (self.sources, self.options) }
    {
        let PlanStage {
            command: _,
            sources,
            options,
        } = self;
        (sources, options)
    }
}
