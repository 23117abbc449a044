//! Which records are dropped.

/// Which records are dropped, by the letters of the command (several drop what any of them drops).
#[derive(Clone, Copy)]
pub struct RidOptions {
    /// `G`: all global comments
    pub global_comments: bool,
    /// `g`: global comments of `!!` alone
    pub empty_global_comments: bool,
    /// `L`: local comments
    pub local_comments: bool,
    /// `l`: null local comments
    pub null_local_comments: bool,
    /// `I`: interpretations. What is left is no Humdrum file.
    pub interpretations: bool,
    /// `i`: null interpretations
    pub null_interpretations: bool,
    /// `T`: interpretations with a tandem, and without path indicator and exclusive interpretation
    pub tandems: bool,
    /// `D`: data records
    pub values: bool,
    /// `d`: null data records
    pub null_values: bool,
}
