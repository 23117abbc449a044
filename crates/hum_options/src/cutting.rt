//! Texts, cut at a byte.
ghost use Rattle.std.specs.Prelude.{◌≡◌, length};
ghost use Rattle.hum_options.specs.Cutting.{front, remainder};

fn front_len(text: &[u8], byte: u8) -> usize
    ensures { result ≡ length (front byte text.now) }
{
    text.iter().position(|b| *b == byte).unwrap_or(text.len())
}

/// What stands before the first such byte, and from it on.
pub(crate) fn cut(text: &[u8], byte: u8) -> (&[u8], &[u8])
    ensures front { (result.0).now ≡ front byte text.now }
    ensures remainder { (result.1).now ≡ remainder byte text.now }
{
    text.split_at(front_len(text, byte))
}
