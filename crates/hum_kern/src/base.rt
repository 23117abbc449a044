//! Durations before their dots.

ghost use Rattle.std.specs.Prelude.{◌≡◌, ◌∷◌, ◌<◌, ◌≤◌, IfSome};
ghost use Rattle.hum_frac.specs.Ratio.{reduced};
ghost use Rattle.hum_kern.specs.Runs.{starts_with};
ghost use Rattle.hum_kern.specs.Value.{IsBase, part_of, plain_value, quotient_value, dotted};

use hum_frac::Frac;
use std::marker::Model;

/// A duration without dots, in whole notes, as it is written.
#[derive(Clone, Copy)]
pub(crate) struct Base {
    top: u64,
    bottom: u64,
}

impl Model for Base {
    ghost use Rattle.hum_frac.specs.Ratio.{Ratio};
    ghost use Rattle.hum_kern.specs.Value.{IsBase};

    ghost Value = { Ratio };

    ghost view = { λ b. record { top = b.top; bottom = b.bottom } };

    ghost invariant = { λ b. IsBase b.top b.bottom };

    ghost inverse = { λ r. record { top = r.top; bottom = r.bottom } };
}

fn starts_with_zero(bytes: &[u8]) -> bool
    ensures { result ≡ starts_with 48 bytes.now }
{
    match bytes {
        [b, ..] => *b == b'0',
        [] => false,
    }
}

/// The number from 1 to 4,096 that digits write without a leading zero.
fn part(digits: &[u8]) -> Option<u64>
    ensures number { result ≡ part_of digits.now }
    ensures above { IfSome result (λ n. 0 < n) }
    ensures below { IfSome result (λ n. n ≤ 4096) }
{
    if starts_with_zero(digits) {
        return None;
    }
    let mut n = 0u64;
    for b in digits {
        if n > 4096 {
            return None;
        }
        n = 10 * n + (*b as u64).saturating_sub(48);
    }
    if n > 0 && n <= 4096 { Some(n) } else { None }
}

/// What a zero and the digits behind it write.
fn breves(rest: &[u8]) -> Option<Base>
    ensures { result ≡ plain_value (48 ∷ rest.now) }
{
    match rest {
        [] => Some(Base { top: 2, bottom: 1 }),
        [b'0'] => Some(Base { top: 4, bottom: 1 }),
        [b'0', b'0'] => Some(Base { top: 8, bottom: 1 }),
        _ => None,
    }
}

impl Base {
    /// What digits write without a percent sign behind them.
    pub(crate) fn plain(digits: &[u8]) -> Option<Base>
        ensures { result ≡ plain_value digits.now }
    {
        match digits {
            [b'0', rest @ ..] => breves(rest),
            _ => match part(digits) {
                Some(number) => Some(Base {
                    top: 1,
                    bottom: number,
                }),
                None => None,
            },
        }
    }

    /// What the digits on both sides of a percent sign write.
    pub(crate) fn quotient(digits: &[u8], second: &[u8]) -> Option<Base>
        ensures { result ≡ quotient_value digits.now second.now }
    {
        match part(digits) {
            None => None,
            Some(bottom) => match part(second) {
                None => None,
                Some(top) => Some(Base { top, bottom }),
            },
        }
    }

    /// One divided by a number.
    pub(crate) fn one_over(number: u64) -> Base
        requires some { 0 < number }
        requires few { number ≤ 4096 }
        ensures { result ≡ record { top = 1; bottom = number } }
    {
        Base {
            top: 1,
            bottom: number,
        }
    }

    /// The value with so many dots.
    pub(crate) fn dotted(self, dots: usize) -> Frac
        requires { dots ≤ 6 }
        ensures { result ≡ reduced (dotted self dots) }
    {
        with_dots(self.top, self.bottom, dots)
    }
}

fn with_dots(top: u64, bottom: u64, dots: usize) -> Frac
    requires base { IsBase top bottom }
    requires dots { dots ≤ 6 }
    ensures { result ≡ reduced (dotted (record { top = top; bottom = bottom }) dots) }
{
    let mut numerator = top;
    let mut denominator = bottom;
    for j in 0..dots {
        numerator = 2 * numerator + top;
        denominator = 2 * denominator;
    }
    Frac::new(numerator, denominator)
}
