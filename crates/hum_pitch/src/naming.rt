//! Intervals as text.
ghost use Rattle.std.specs.Prelude.{◌≡◌, ◌≤◌, ◌++◌, [], cond, pos, negsuc, replicate};
ghost use Rattle.std.specs.Prelude.{OnOk, IfOk};
ghost use Rattle.std.specs.Fmt.{decimal};
ghost use Rattle.hum_pitch.specs.Pitch.{IsWithin};
ghost use Rattle.hum_pitch.specs.Intervals.{direction, upwards, excess, of_perfect, of_major};
ghost use Rattle.hum_pitch.specs.Intervals.{quality, sign, quality_letters, IsModest};
ghost use Rattle.hum_pitch.specs.Intervals.{named};

use crate::intervals::{Direction, Interval, Quality};
use crate::spelling::{Repeated, push_repeated};
use crate::widths::{can_be_perfect, natural_width};
use itoa::Buffer;
use std::alloc::{AllocError, Global};

/// Up or down by the steps; where there are none, by the semitones.
fn direction(interval: Interval) -> Direction
    ensures { result ≡ direction interval.d interval.s }
{
    let leading = if interval.d == 0 {
        interval.s
    } else {
        interval.d
    };
    if leading > 0 {
        Direction::Up
    } else if leading < 0 {
        Direction::Down
    } else {
        Direction::Level
    }
}

/// The semitones of the interval as it is named, upwards.
fn upwards(interval: Interval) -> i32
    ensures exact { result ≡ upwards interval.d interval.s }
    ensures bounded { IsWithin (negsuc 204) result (pos 205) }
{
    match direction(interval) {
        Direction::Down => 0 - interval.s,
        _ => interval.s,
    }
}

/// By how many semitones the interval is wider than the perfect or major one.
fn excess(interval: Interval) -> i32
    ensures exact { result ≡ excess interval.d interval.s }
    ensures bounded { IsWithin (negsuc 395) result (pos 205) }
{
    upwards(interval) - i32::from(natural_width(interval.d.unsigned_abs()))
}

/// The quality of an interval that can be perfect.
fn of_perfect(excess: i32) -> Quality
    requires { IsWithin (negsuc 395) excess (pos 205) }
    ensures exact { result ≡ of_perfect excess }
    ensures modest { IsModest result }
{
    if excess > 0 {
        Quality::Augmented(excess as u32)
    } else if excess < 0 {
        Quality::Diminished(excess.unsigned_abs())
    } else {
        Quality::Perfect
    }
}

/// The quality of an interval that can be major or minor.
fn of_major(excess: i32) -> Quality
    requires { IsWithin (negsuc 395) excess (pos 205) }
    ensures exact { result ≡ of_major excess }
    ensures modest { IsModest result }
{
    if excess > 0 {
        Quality::Augmented(excess as u32)
    } else if excess == 0 {
        Quality::Major
    } else if excess == -1 {
        Quality::Minor
    } else {
        Quality::Diminished(excess.unsigned_abs() - 1)
    }
}

/// The quality of an interval.
fn quality(interval: Interval) -> Quality
    ensures exact { result ≡ quality interval.d interval.s }
    ensures modest { IsModest result }
{
    if can_be_perfect(interval.d.unsigned_abs()) {
        of_perfect(excess(interval))
    } else {
        of_major(excess(interval))
    }
}

/// The sign of a direction.
fn sign(direction: Direction) -> Repeated
    ensures exact { replicate result.count result.byte ≡ sign direction }
    ensures few { result.count ≤ 1 }
{
    match direction {
        Direction::Up => Repeated::times(1, b'+'),
        Direction::Down => Repeated::times(1, b'-'),
        Direction::Level => Repeated::times(0, b'+'),
    }
}

/// The letters of a quality.
fn quality_letters(quality: Quality) -> Repeated
    requires { IsModest quality }
    ensures exact { replicate result.count result.byte ≡ quality_letters quality }
    ensures few { result.count ≤ 400 }
{
    match quality {
        Quality::Perfect => Repeated::times(1, b'P'),
        Quality::Major => Repeated::times(1, b'M'),
        Quality::Minor => Repeated::times(1, b'm'),
        Quality::Augmented(more) => Repeated::times(more as usize, b'A'),
        Quality::Diminished(less) => Repeated::times(less as usize, b'd'),
    }
}

/// What is repeated, if it is shown; else nothing.
fn shown(is_shown: bool, repeated: Repeated) -> Repeated
    ensures exact { replicate result.count result.byte ≡
        cond is_shown (replicate repeated.count repeated.byte) [] }
    ensures few { result.count ≤ repeated.count }
{
    Repeated {
        count: if is_shown { repeated.count } else { 0 },
        byte: repeated.byte,
    }
}

/// Writes a number of any size behind a text.
fn push_large(text: &mut Vec<u8>, number: u32) -> Result<(), AllocError>
    ensures { OnOk result (text.new.items ≡ text.old.items ++ decimal number) }
{
    let mut buffer = Buffer::new();
    text.extend_from_slice(buffer.format(number).as_bytes())
}

/// Writes a number behind a text. Most have one digit.
fn push_number(text: &mut Vec<u8>, number: u32) -> Result<(), AllocError>
    ensures { OnOk result (text.new.items ≡ text.old.items ++ decimal number) }
{
    if number < 10 {
        text.push(b'0' + number as u8)?;
        return Ok(());
    }
    push_large(text, number)
}

/// Adds the name of an interval to a text: its direction (`+` or `-`), its quality (`P`, `M`, `m`,
/// or `A` or `d` for each semitone by which it is augmented or diminished) and its size, as in
/// `+M2`.
///
/// `signless` leaves out the direction, `sizeonly` the quality.
///
/// # Errors
/// Out of memory.
pub fn push_interval(
    text: &mut Vec<u8>,
    interval: Interval,
    signless: bool,
    sizeonly: bool,
) -> Result<(), AllocError>
    ensures { OnOk result (text.new.items
        ≡ text.old.items ++ named signless sizeonly interval.d interval.s) }
{
    push_repeated(text, shown(!signless, sign(direction(interval))))?;
    push_repeated(text, shown(!sizeonly, quality_letters(quality(interval))))?;
    push_number(text, interval.d.unsigned_abs() + 1)
}

/// The name of an interval, as a text of its own.
///
/// # Errors
/// Out of memory.
pub fn write_interval(
    alloc: Global,
    interval: Interval,
    signless: bool,
    sizeonly: bool,
) -> Result<Vec<u8>, AllocError>
    ensures { IfOk result (λ text.
        text.items ≡ named signless sizeonly interval.d interval.s) }
{
    let mut text = Vec::new(alloc);
    push_interval(&mut text, interval, signless, sizeonly)?;
    Ok(text)
}
