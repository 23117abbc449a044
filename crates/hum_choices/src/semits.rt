//! Which notes give their semitones.

/// Which notes give their semitones.
#[derive(Clone, Copy)]
pub struct SemitsOptions {
    /// `-t`: those that go on or end a tie give nothing
    pub ties_left_out: bool,
}
