//! Fractions.
ghost use Rattle.std.specs.Prelude.{◌≡◌, ◌<◌, ◌^◌, ◌/◌, ◌↔◌, nat_lt, ◌&&◌};
ghost use Rattle.std.specs.Prelude.{IsTrue, OnErr, IfOk, OnOk};
ghost use Rattle.hum_frac.specs.Ratio.{Ratio, whole, IsSame, IsBefore, IsLowest, NoneFits};
ghost use Rattle.hum_frac.specs.Ratio.{reduced, sum, plus, fits, compare};
ghost use Rattle.hum_frac.specs.Multiples.{IsMultiple, is_multiple, AreBetween, multiples_between};
ghost use Rattle.hum_frac.specs.Order.{same_value, by_value};
ghost use Rattle.std.specs.Cmp.{partial_equiv_from_equiv, partial_order_from_agreeing_total};
ghost use Rattle.std.specs.Ordering.{is_eq, as_partial_cmp, MatchOrdering};
ghost use Rattle.std.specs.Prelude.{refl};

use crate::gcd::{divided, divided_64, gcd, gcd_odd, halved};
use std::cmp::Ordering;
use std::marker::Model;
use thiserror::Error;

/// Why a sum is refused.
#[derive(Clone, Copy, Debug, PartialEq, Eq, Error)]
pub enum FracFault {
    /// In lowest terms, the numerator or the denominator would pass 2^63 - 1.
    #[error("F1: a sum in lowest terms has a number over 2^63 - 1")]
    F1,
}

/// A fraction that isn't negative, in lowest terms, of two numbers below 2^63.
#[derive(Clone, Copy, Debug)]
pub struct Frac {
    numerator: u64,
    denominator: u64,
}

impl Model for Frac {
    ghost use Rattle.hum_frac.specs.Ratio.{Ratio, IsKept};

    ghost Value = { Ratio };

    ghost view = { λ f. record { top = f.numerator; bottom = f.denominator } };

    ghost invariant = { λ f. IsKept f.numerator f.denominator };

    ghost inverse = { λ r. record { numerator = r.top; denominator = r.bottom } };
}

// numbers below this can be multiplied in 64 bits, and two such products added
const SMALL: u64 = 1 << 31;

/// A fraction in lowest terms, of numbers that fit.
fn lowest_64(top: u64, bottom: u64) -> Frac
    requires top { top < 2 ^ 63 }
    requires bottom { bottom < 2 ^ 63 }
    requires positive { 0 < bottom }
    ensures { result ≡ reduced (record { top = top; bottom = bottom }) }
{
    let (top, bottom) = halved(top, bottom);
    let common = gcd_odd(top, bottom);
    if common == 1 {
        return Frac {
            numerator: top,
            denominator: bottom,
        };
    }
    Frac {
        numerator: top / common,
        denominator: bottom / common,
    }
}

/// A part of one, which is in lowest terms as it stands.
fn one_over(bottom: u64) -> Frac
    requires bottom { bottom < 2 ^ 63 }
    requires positive { 0 < bottom }
    ensures { result ≡ reduced (record { top = 1; bottom = bottom }) }
{
    Frac {
        numerator: 1,
        denominator: bottom,
    }
}

/// A fraction in lowest terms, where they fit.
fn lowest(top: u128, bottom: u128) -> Result<Frac, FracFault>
    requires { 0 < bottom }
    ensures reduced { IfOk result (λ f. f ≡ reduced (record { top = top; bottom = bottom })) }
    ensures fits { OnOk result (IsTrue (fits (reduced (record { top = top; bottom = bottom })))) }
    ensures refused { OnErr result
        (IsTrue (fits (reduced (record { top = top; bottom = bottom }))) → ⊥) }
{
    let common = gcd(top, bottom);
    let (numerator, _) = divided(top, common);
    let (denominator, _) = divided(bottom, common);
    if numerator < 1 << 63 && denominator < 1 << 63 {
        Ok(Frac {
            numerator: numerator as u64,
            denominator: denominator as u64,
        })
    } else {
        Err(FracFault::F1)
    }
}

impl Frac {
    /// A numerator over a denominator, both below 2^63, the latter above 0.
    pub fn new(numerator: u64, denominator: u64) -> Frac
        requires top { numerator < 2 ^ 63 }
        requires bottom { denominator < 2 ^ 63 }
        requires positive { 0 < denominator }
        ensures reduced { result
            ≡ reduced (record { top = numerator; bottom = denominator }) }
        ensures value { IsSame result (record { top = numerator; bottom = denominator }) }
        ensures lowest { IsLowest result }
    {
        if numerator == 1 {
            return one_over(denominator);
        }
        lowest_64(numerator, denominator)
    }

    /// The fraction 0.
    pub fn zero() -> Frac
        ensures { result ≡ whole 0 }
    {
        Frac {
            numerator: 0,
            denominator: 1,
        }
    }

    /// Its number above the bar, in lowest terms.
    pub fn numerator(self) -> u64
        ensures { result ≡ self.top }
    {
        self.numerator
    }

    /// Its number below the bar, in lowest terms.
    pub fn denominator(self) -> u64
        ensures { result ≡ self.bottom }
    {
        self.denominator
    }

    /// Whether both numbers are small.
    fn is_small(self) -> bool
        ensures { result ≡ (nat_lt self.top 2147483648 && nat_lt self.bottom 2147483648) }
    {
        self.numerator < SMALL && self.denominator < SMALL
    }

    /// The sum of two fractions of small numbers.
    fn add_small(self, other: Frac) -> Frac
        requires top { self.top < 2147483648 }
        requires bottom { self.bottom < 2147483648 }
        requires other_top { other.top < 2147483648 }
        requires other_bottom { other.bottom < 2147483648 }
        ensures { result ≡ plus self other }
    {
        let left = self.numerator * other.denominator;
        let right = other.numerator * self.denominator;
        lowest_64(left + right, self.denominator * other.denominator)
    }

    /// The sum of two fractions.
    ///
    /// # Errors
    /// F1, exactly where no fraction of two numbers below 2^63 has the sum's value.
    pub fn add(self, other: Frac) -> Result<Frac, FracFault>
        ensures sum { IfOk result (λ s. s ≡ plus self other) }
        ensures value { IfOk result (λ s. IsSame s (sum self other)) }
        ensures lowest { IfOk result IsLowest }
        ensures fits { OnOk result (IsTrue (fits (plus self other))) }
        ensures refused { OnErr result (IsTrue (fits (plus self other)) → ⊥) }
        ensures none { OnErr result (NoneFits (sum self other)) }
    {
        if self.is_small() && other.is_small() {
            return Ok(self.add_small(other));
        }
        let (a, b) = (self.numerator as u128, self.denominator as u128);
        let (c, d) = (other.numerator as u128, other.denominator as u128);
        lowest(a * d + c * b, b * d)
    }

    /// Whether it is some number of times `unit`, which is above 0.
    pub fn is_multiple(self, unit: Frac) -> bool
        requires { 0 < unit.top }
        ensures test { result ≡ is_multiple self unit }
        ensures multiple { IsTrue result ↔ IsMultiple self unit }
    {
        let whole = (self.denominator as u128) * (unit.numerator as u128);
        let (_, remainder) = divided((self.numerator as u128) * (unit.denominator as u128), whole);
        remainder == 0
    }

    /// Whether it is a multiple of `unit`, and how many more are less than another, in 64 bits.
    fn multiples_to_small(self, other: Frac, unit: Frac) -> (bool, u64)
        requires positive { 0 < unit.top }
        requires top { self.top < 2147483648 }
        requires bottom { self.bottom < 2147483648 }
        requires other_top { other.top < 2147483648 }
        requires other_bottom { other.bottom < 2147483648 }
        requires unit_top { unit.top < 2147483648 }
        requires unit_bottom { unit.bottom < 2147483648 }
        ensures multiple { result.0 ≡ is_multiple self unit }
        ensures count { result.1 ≡ multiples_between self other unit }
        ensures between { AreBetween self other unit result.1 }
    {
        let whole = self.denominator * unit.numerator;
        let (passed, remainder) = divided_64(self.numerator * unit.denominator, whole);
        let after = other.denominator * unit.numerator;
        let (end, _) = divided_64(other.numerator * unit.denominator + (after - 1), after);
        (remainder == 0, end.saturating_sub(passed + 1))
    }

    /// The same of numbers that need not be small.
    #[inline(never)]
    fn multiples_to_any(self, other: Frac, unit: Frac) -> (bool, u128)
        requires { 0 < unit.top }
        ensures multiple { result.0 ≡ is_multiple self unit }
        ensures count { result.1 ≡ multiples_between self other unit }
        ensures between { AreBetween self other unit result.1 }
        ensures below { result.1 < 2 ^ 127 }
    {
        let (a, b) = (self.numerator as u128, self.denominator as u128);
        let (c, d) = (other.numerator as u128, other.denominator as u128);
        let whole = b * (unit.numerator as u128);
        let (passed, remainder) = divided(a * (unit.denominator as u128), whole);
        let is_multiple = remainder == 0;
        if a * d >= c * b {
            return (is_multiple, 0);
        }
        let after = d * (unit.numerator as u128);
        let reach = c * (unit.denominator as u128) + (after - 1);
        let (end, _) = divided(reach, after);
        (is_multiple, end.saturating_sub(passed + 1))
    }

    /// Whether it is some number of times `unit`, which is above 0, and how many multiples of `unit`
    /// are greater than this and less than another.
    #[inline]
    pub fn multiples_to(self, other: Frac, unit: Frac) -> (bool, u128)
        requires { 0 < unit.top }
        ensures multiple { result.0 ≡ is_multiple self unit }
        ensures count { result.1 ≡ multiples_between self other unit }
        ensures between { AreBetween self other unit result.1 }
        ensures below { result.1 < 2 ^ 127 }
    {
        if self.is_small() && other.is_small() && unit.is_small() {
            let (is_multiple, count) = self.multiples_to_small(other, unit);
            return (is_multiple, count as u128);
        }
        self.multiples_to_any(other, unit)
    }

    /// How many multiples of `unit`, which is above 0, are greater than this and less than another.
    pub fn multiples_between(self, other: Frac, unit: Frac) -> u128
        requires { 0 < unit.top }
        ensures count { result ≡ multiples_between self other unit }
        ensures between { AreBetween self other unit result }
    {
        self.multiples_to(other, unit).1
    }
}

/// By value: as it is kept in lowest terms, by its numbers.
impl PartialEq for Frac {
    ghost eq = { λ a b. is_eq (compare a b) };

    ghost laws = { partial_equiv_from_equiv same_value };

    fn eq(&self, other: &Frac) -> bool
        ensures test { result ≡ is_eq (compare self.now other.now) }
        ensures value { IsTrue result ↔ IsSame self.now other.now }
    {
        self.numerator == other.numerator && self.denominator == other.denominator
    }
}

impl Eq for Frac {
    ghost laws = { same_value };
}

/// By value.
impl PartialOrd for Frac {
    ghost partial_cmp = { as_partial_cmp compare };

    ghost laws = { partial_order_from_agreeing_total compare by_value (λ a b. refl) (λ a b. refl) };

    fn partial_cmp(&self, other: &Frac) -> Option<Ordering> {
        Some(self.cmp(other))
    }
}

/// By value.
impl Ord for Frac {
    ghost cmp = { compare };

    ghost total = { by_value };

    ghost matches_partial_cmp = { λ a b. refl };

    ghost matches_eq = { λ a b. refl };

    fn cmp(&self, other: &Frac) -> Ordering
        ensures test { result ≡ compare self.now other.now }
        ensures value { MatchOrdering result (IsBefore self.now other.now)
            (IsSame self.now other.now) (IsBefore other.now self.now) }
    {
        let left = (self.numerator as u128) * (other.denominator as u128);
        let right = (other.numerator as u128) * (self.denominator as u128);
        left.cmp(&right)
    }
}
