//! Numbers.
ghost use Rattle.std.specs.Prelude.{◌≡◌, ◌≤◌, pos, nat_abs, ◌≤ℤ◌, IfSome};
ghost use Rattle.std.specs.Option.{option_map};
ghost use Rattle.hum_options.specs.{Numbers.IsNumber, Numbers.IsSigned, Read.IsReadAs};
ghost use Rattle.hum_options.specs.Numbers.{digits_of, number_of, positive_of, signed_of};

/// The number that digits write, if it is at most `most`.
fn digits_value(digits: &[u8], most: u64) -> Option<u64>
    ensures { result ≡ digits_of most digits.now }
{
    let mut value = 0u128;
    for digit in digits {
        if !digit.is_ascii_digit() {
            return None;
        }
        value = 10 * value + (*digit - b'0') as u128;
        if value > most as u128 {
            return None;
        }
    }
    Some(value as u64)
}

fn read_number(text: &[u8], most: u64) -> Option<u64>
    ensures { result ≡ number_of most text.now }
{
    match text {
        [] | [b'0', _, ..] => None,
        _ => digits_value(text, most),
    }
}

/// The number that a text is, if it is one of at most `most`: `0`, or digits without a zero in
/// front.
pub fn number(text: &[u8], most: u64) -> Option<u64>
    ensures { IsReadAs (IsNumber most text.now) (number_of most text.now) result }
{
    read_number(text, most)
}

/// The number from 1 to `most` that a text is, if it is one.
pub(crate) fn positive(text: &[u8], most: u64) -> Option<u64>
    ensures { result ≡ positive_of most text.now }
{
    match read_number(text, most) {
        Some(n) if n > 0 => Some(n),
        _ => None,
    }
}

fn small_number(text: &[u8], most: u8) -> Option<i32>
    ensures read { result ≡ option_map pos (number_of most text.now) }
    ensures natural { IfSome result (λ n. pos 0 ≤ℤ n) }
{
    Some(read_number(text, most as u64)? as i32)
}

fn read_signed(text: &[u8], most: u8) -> Option<i32>
    ensures { result ≡ signed_of most text.now }
{
    let [sign, digits @ ..] = text else {
        return None;
    };
    match sign {
        b'+' => small_number(digits, most),
        b'-' => Some(-small_number(digits, most)?),
        _ => small_number(text, most),
    }
}

/// The number from `-most` to `most` that a text is, if it is one: a number with `+`, with `-` or
/// without a sign. `-0` is 0.
pub fn signed_number(text: &[u8], most: u8) -> Option<i32>
    ensures read { IsReadAs (IsSigned most text.now) (signed_of most text.now) result }
    ensures within { IfSome result (λ n. nat_abs n ≤ most) }
{
    read_signed(text, most)
}
