//! The text of tokens that are collected, while it is short.
ghost use Rattle.std.specs.Prelude.{◌≡◌, ◌≤◌, false, take};
ghost use Rattle.hum_score.specs.Spelling.{has_byte};

/// How many bytes are kept.
pub(crate) const MOST_KEPT: usize = 64;

/// The last of some data tokens, a space before each, up to a place. What stands before them doesn't count.
#[derive(Clone, Copy)]
pub(crate) struct ShortText {
    pub(crate) bytes: [u8; MOST_KEPT],
    pub(crate) begin: usize,
    pub(crate) len: usize,
    /// How many tokens before them aren't kept.
    pub(crate) missing: u64,
    pub ghost order: { begin ≤ len },
    pub ghost within: { len ≤ 64 },
    pub ghost one_token: { has_byte 9 (take len bytes) ≡ false },
    pub ghost one_line: { has_byte 13 (take len bytes) ≡ false },
    pub ghost no_line_end: { has_byte 10 (take len bytes) ≡ false },
}
