//! Names of branches.
ghost use Rattle.std.specs.Prelude.{◌≡◌, ◌≢◌, ℕ, true, List, [], ◌∷◌, ◌++◌, IfSome, IfNone};
ghost use Rattle.std.specs.Prelude.{option_map};
ghost use Rattle.std.specs.List.{list_all};
ghost use Rattle.hum_words.specs.Names.{is_name_byte, is_name, name_in};

fn is_name_byte(byte: u8) -> bool
    ensures { result ≡ is_name_byte byte }
{
    matches!(byte, b'a'..=b'z' | b'0'..=b'9' | b'_')
}

/// Whether each byte is a letter, a digit or `_`.
fn are_name_bytes(bytes: &[u8]) -> bool
    ensures { result ≡ list_all is_name_byte bytes.now }
{
    bytes.iter().all(|byte| is_name_byte(*byte))
}

fn is_name(name: &[u8]) -> bool
    ensures { result ≡ is_name name.now }
{
    match name {
        [b'a'..=b'z', rest @ ..] => rest.len() <= 31 && are_name_bytes(rest),
        _ => false,
    }
}

/// The name in a word that is a name and a colon behind it. A name is a letter `a` to `z` and up to
/// 31 letters `a` to `z`, digits and `_`.
pub fn name_of(word: &str) -> Option<&str>
    ensures found { IfSome result (λ name. word.now ≡ name.now ++ 58 ∷ []) }
    ensures name { IfSome result (λ name. is_name name.now ≡ true) }
    ensures none { IfNone result
        ((name : List ℕ) → is_name name ≡ true → word.now ≢ name ++ 58 ∷ []) }
    ensures exact { option_map (λ name. name.now) result ≡ name_in word.now }
{
    match word.strip_suffix(':') {
        Some(name) if is_name(name.as_bytes()) => Some(name),
        _ => None,
    }
}
