//! Durations as most are: one or two digits at the front, and at most one dot.
ghost use Rattle.std.specs.Prelude.{◌≡◌, ◌+◌, ◌<◌, ◌≤◌, IfSome, Ok, length, option_map, is_some};
ghost use Rattle.std.specs.List.{list_any};
ghost use Rattle.hum_kern.specs.Duration.{duration};
ghost use Rattle.hum_kern.specs.Subtokens.{ends_plainly, leads_shortly, part_of_whole, IsLed};
ghost use Rattle.hum_kern.specs.Usual.{leading, leading_of, behind_digit, short_dots, short_length, short_rest};
ghost use Rattle.hum_kern.specs.Usual.{is_stop, text_up_to, IsLastingText};

use crate::Length;
use crate::base::Base;
use crate::duration::ends_plainly;
use crate::runs::is_digit;
use hum_frac::Frac;

/// One or two digits at the front of a token, the first of them no zero.
#[derive(Clone, Copy)]
pub(crate) struct LeadingNumber<'t> {
    // the number that they write
    number: u64,
    // how many they are
    digits: usize,
    // what stands behind them
    rest: &'t [u8],
}

/// The digits of a token that begins with this one.
fn behind_digit(digit: u8, rest: &[u8]) -> LeadingNumber<'_>
    requires above { 48 < digit }
    requires below { digit ≤ 57 }
    ensures exact { leading_of result ≡ behind_digit digit rest.now }
    ensures some { 0 < result.number }
    ensures few { result.number < 100 }
    ensures within { result.digits ≤ 2 }
    ensures whole { result.digits + length result.rest.now ≡ 1 + length rest.now }
{
    let number = digit as u64 - 48;
    match rest {
        [b, more @ ..] if is_digit(*b) => LeadingNumber {
            number: 10 * number + (*b as u64 - 48),
            digits: 2,
            rest: more,
        },
        _ => LeadingNumber {
            number,
            digits: 1,
            rest,
        },
    }
}

/// The digits at the front of a token.
fn leading_number(token: &[u8]) -> Option<LeadingNumber<'_>>
    ensures exact { option_map leading_of result ≡ leading token.now }
    ensures some { IfSome result (λ found. 0 < found.number) }
    ensures few { IfSome result (λ found. found.number < 100) }
    ensures within { IfSome result (λ found. found.digits ≤ 2) }
    ensures whole { IfSome result (λ found.
        found.digits + length found.rest.now ≡ length token.now) }
{
    match token {
        [b, rest @ ..] if *b > b'0' && *b <= b'9' => Some(behind_digit(*b, rest)),
        _ => None,
    }
}

/// A part of a whole note, where its number alone tells the duration.
fn part_of_whole(number: u64, rest: &[u8]) -> Option<Frac>
    requires some { 0 < number }
    requires few { number < 100 }
    ensures plain { is_some result ≡ ends_plainly rest.now }
    ensures part { IfSome result (λ part. part ≡ part_of_whole number) }
{
    if ends_plainly(rest) {
        Some(Frac::new(1, number))
    } else {
        None
    }
}

/// The duration, in whole notes, of a token that is one subtoken without the sign of a grace note and begins
/// with one or two digits, the first of them no zero, with nothing or a byte above the digits behind them, as
/// most notes do; or none where it isn't such a one.
pub fn leading_duration(token: &[u8]) -> Option<Frac>
    ensures which { is_some result ≡ leads_shortly token.now }
    ensures led { IfSome result (IsLed token.now) }
{
    match leading_number(token) {
        Some(found) => part_of_whole(found.number, found.rest),
        None => None,
    }
}

/// How many dots stand behind the digits, none or one, where what stands behind those leaves it to them to
/// tell the duration; none where it doesn't.
fn short_dots(rest: &[u8]) -> Option<usize>
    ensures exact { result ≡ short_dots rest.now }
    ensures few { IfSome result (λ dots. dots ≤ 1) }
{
    match rest {
        [b'.', more @ ..] => { if ends_plainly(more) { Some(1) } else { None } }
        _ => { if ends_plainly(rest) { Some(0) } else { None } }
    }
}

/// The duration by a number of so many digits, and by what stands behind them.
fn by_number(number: u64, digits: usize, rest: &[u8]) -> Option<Length>
    requires some { 0 < number }
    requires few { number < 100 }
    requires short { digits ≤ 2 }
    ensures { result ≡ option_map (short_length number digits) (short_dots rest.now) }
{
    match short_dots(rest) {
        Some(dots) => Some(Length {
            value: Some(Base::one_over(number).dotted(dots)),
            start: 0,
            end: digits + dots,
        }),
        None => None,
    }
}

/// The duration of a subtoken, if it is as most are: it begins with one or two digits, the first of them no
/// zero, with at most one dot behind them, and then nothing or a byte above the digits; and it has no sign
/// of a grace note.
#[inline(always)]
pub(crate) fn read_short(bytes: &[u8]) -> Option<Length>
    ensures { IfSome result (λ found. Ok found ≡ duration bytes.now) }
{
    match leading_number(bytes) {
        Some(found) => by_number(found.number, found.digits, found.rest),
        None => None,
    }
}

/// Whether some byte leaves it open what digits in front of it tell: a space, or the sign of a grace note or of
/// a rest.
fn has_stop(bytes: &[u8]) -> bool
    ensures { result ≡ list_any is_stop bytes.now }
{
    bytes
        .iter()
        .any(|b| *b == b' ' || *b == b'q' || *b == b'Q' || *b == b'r')
}

/// Whether digits and dots are those of a rest, by what stands behind them: its sign and nothing else; or
/// none where that doesn't leave it to them to tell a duration, or has the sign further on.
fn short_rest(rest: &[u8]) -> Option<bool>
    ensures { result ≡ short_rest rest.now }
{
    match rest {
        [] => Some(false),
        [b, behind @ ..] => {
            if *b == b'r' && behind.is_empty() {
                Some(true)
            } else if *b > b'9' && !has_stop(rest) {
                Some(false)
            } else {
                None
            }
        }
    }
}

/// A token up to where its digits and dots end, with the sign of a rest behind them; or none where what
/// stands there doesn't leave it to them to tell a duration.
fn text_up_to<'t>(token: &'t [u8], end: usize, rest: &[u8]) -> Option<&'t [u8]>
    requires { end ≤ length token.now }
    ensures { option_map (λ text. text.now) result
        ≡ option_map (text_up_to token.now end) (short_rest rest.now) }
{
    match short_rest(rest) {
        Some(is_rest) => Some(if is_rest {
            token
        } else {
            token.split_at(end).0
        }),
        None => None,
    }
}

/// The duration of a token as it is written, with `r` behind it for a rest, where the token is one subtoken
/// and as most are: it begins with one or two digits, the first of them no zero, with at most one dot behind
/// them, and then comes nothing, or a byte above the digits; it has no sign of a grace note, and that of a
/// rest only where nothing else stands behind the duration. None where it isn't such a one.
pub fn leading_text(token: &[u8]) -> Option<&[u8]>
    ensures { IfSome result (λ text. IsLastingText token.now text.now) }
{
    match leading_number(token) {
        Some(found) => match found.rest {
            [b, rest @ ..] if *b == b'.' => text_up_to(token, found.digits + 1, rest),
            rest => text_up_to(token, found.digits, rest),
        },
        None => None,
    }
}
