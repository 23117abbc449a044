//! Division, and greatest common divisors.
ghost use Rattle.std.specs.Prelude.{◌≡◌, ◌<◌, ◌≤◌, ◌/◌, ◌%◌};
ghost use Rattle.hum_frac.specs.Gcd.{gcd};
ghost use Rattle.hum_frac.specs.Ratio.{reduced};

// the greatest number of 64 bits
const MOST_64: u128 = 18_446_744_073_709_551_615;

/// A quotient and what is left. Nothing is divided where the divisor is a power of 2, as it mostly is.
pub(crate) fn divided_64(a: u64, b: u64) -> (u64, u64)
    requires { 0 < b }
    ensures quotient { result.0 ≡ a / b }
    ensures remainder { result.1 ≡ a % b }
{
    let zeros = b.trailing_zeros();
    if b >> zeros == 1 {
        (a >> zeros, a & (b - 1))
    } else {
        (a / b, a % b)
    }
}

/// A quotient and what is left, in 64 bits where both numbers fit.
pub(crate) fn divided(a: u128, b: u128) -> (u128, u128)
    requires { 0 < b }
    ensures quotient { result.0 ≡ a / b }
    ensures remainder { result.1 ≡ a % b }
{
    if a <= MOST_64 && b <= MOST_64 {
        let (quotient, remainder) = divided_64(a as u64, b as u64);
        (quotient as u128, remainder as u128)
    } else {
        (a / b, a % b)
    }
}

/// The greatest common divisor of numbers of 64 bits.
fn gcd_64(a: u64, b: u64) -> u64
    ensures { result ≡ gcd a b }
{
    let mut x = a;
    let mut y = b;
    while y != 0 {
        let remainder = x % y;
        x = y;
        y = remainder;
    }
    x
}

/// The greatest common divisor.
pub(crate) fn gcd(a: u128, b: u128) -> u128
    ensures { result ≡ gcd a b }
{
    let mut x = a;
    let mut y = b;
    while y > MOST_64 {
        let remainder = x % y;
        x = y;
        y = remainder;
    }
    if y == 0 {
        return x;
    }
    let (_, remainder) = divided(x, y);
    gcd_64(y as u64, remainder as u64) as u128
}

/// Two numbers without the powers of 2 that divide both.
pub(crate) fn halved(top: u64, bottom: u64) -> (u64, u64)
    requires { 0 < bottom }
    ensures value { reduced (record { top = result.0; bottom = result.1 })
        ≡ reduced (record { top = top; bottom = bottom }) }
    ensures odd { result.0 % 2 ≡ 0 → result.1 % 2 ≡ 1 }
    ensures positive { 0 < result.1 }
    ensures top { result.0 ≤ top }
    ensures bottom { result.1 ≤ bottom }
{
    let zeros = top.trailing_zeros().min(bottom.trailing_zeros());
    (top >> zeros, bottom >> zeros)
}

/// The greatest common divisor of two numbers, not both of which are even. It is 1 where the second is
/// a power of 2, as it mostly is.
pub(crate) fn gcd_odd(top: u64, bottom: u64) -> u64
    requires positive { 0 < bottom }
    requires odd { top % 2 ≡ 0 → bottom % 2 ≡ 1 }
    ensures { result ≡ gcd top bottom }
{
    let odd = bottom >> bottom.trailing_zeros();
    if odd == 1 { 1 } else { gcd_64(top, odd) }
}
