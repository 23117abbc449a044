//! Blanks, and what ends a word.
ghost use Rattle.std.specs.Prelude.{◌≡◌, ◌≤◌, false, length};
ghost use Rattle.std.specs.List.{prefix_len};
ghost use Rattle.hum_words.specs.Characters.{is_blank, is_bare, begins_apart, begins_blank};
ghost use Rattle.hum_words.specs.Characters.{trimmed};

fn is_blank(byte: u8) -> bool
    ensures { result ≡ is_blank byte }
{
    matches!(byte, b' ' | b'\t')
}

/// Whether a word without quotes may have the byte.
fn is_bare(byte: u8) -> bool
    ensures { result ≡ is_bare byte }
{
    !matches!(byte, b' ' | b'\t' | b'|' | b'\'')
}

/// How many bytes stand before the first that isn't blank.
fn blank_len(line: &[u8]) -> usize
    ensures { result ≡ prefix_len is_blank line.now }
{
    for (index, byte) in line.iter().enumerate() {
        if !is_blank(*byte) {
            return index;
        }
    }
    line.len()
}

/// How many bytes stand before the first that ends a word.
pub(crate) fn bare_len(line: &[u8]) -> usize
    ensures { result ≡ prefix_len is_bare line.now }
{
    for (index, byte) in line.iter().enumerate() {
        if !is_bare(*byte) {
            return index;
        }
    }
    line.len()
}

/// The line without the blanks at its front.
pub(crate) fn skip_blanks(line: &str) -> &str
    ensures value { result.now ≡ trimmed line.now }
    ensures first { begins_blank result.now ≡ false }
    ensures shorter { length result.now ≤ length line.now }
{
    line.split_at(blank_len(line.as_bytes())).1
}

/// Whether a word may end in front of this.
pub(crate) fn is_apart(line: &str) -> bool
    ensures { result ≡ begins_apart line.now }
{
    matches!(line.as_bytes(), [] | [b' ' | b'\t' | b'|', ..])
}
