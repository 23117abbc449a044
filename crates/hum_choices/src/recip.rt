//! Durations as they are written.

/// The command takes no options.
#[derive(Clone, Copy)]
pub struct RecipOptions;
