//! What a token is: data or not, null, a barline.
ghost use Rattle.std.specs.Prelude.{◌≡◌};
ghost use Rattle.hum_record.specs.Contents.{is_data, is_null, is_filled, is_barline};

/// Whether a token is data, and not an interpretation or a comment.
pub fn is_data(token: &[u8]) -> bool
    ensures { result ≡ is_data token.now }
{
    !matches!(token, [b'!' | b'*', ..])
}

/// Whether a token is the null token of data, `.`.
pub fn is_null(token: &[u8]) -> bool
    ensures { result ≡ is_null token.now }
{
    b".".as_slice() == token
}

/// Whether a token is data that isn't null.
pub fn is_filled(token: &[u8]) -> bool
    ensures { result ≡ is_filled token.now }
{
    is_data(token) && !is_null(token)
}

/// Whether a token is a barline: it begins with `=`.
pub fn is_barline(token: &[u8]) -> bool
    ensures { result ≡ is_barline token.now }
{
    token.starts_with(b"=")
}
