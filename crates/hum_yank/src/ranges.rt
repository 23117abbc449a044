//! Which numbers are chosen.
ghost use Rattle.std.specs.Prelude.{◌≡◌, ◌+◌};
ghost use Rattle.std.specs.List.{list_any, list_all};
ghost use Rattle.hum_yank.specs.Yank.{chooses_early, chooses_late, chooses_now, drops_now};
ghost use Rattle.hum_yank.specs.Yank.{is_chosen};

use hum_choices::YankRange;

// so many above a number
fn above(number: u32, so_many: u32) -> u64
    ensures { result ≡ number + so_many }
{
    number as u64 + so_many as u64
}

/// Whether it chooses a number without a look at the last one.
fn chooses_early(range: &YankRange, number: u32) -> bool
    ensures { result ≡ chooses_early number range.now }
{
    match range {
        YankRange::Through { first, last } => *first <= number && number <= *last,
        YankRange::Onward { first } => *first <= number,
        _ => false,
    }
}

/// Whether it chooses a number by the last one.
fn chooses_late(range: &YankRange, last: u32, number: u32) -> bool
    ensures { result ≡ chooses_late last number range.now }
{
    match range {
        YankRange::ToEnd { first, before } => {
            *first <= number && above(number, *before) <= last as u64
        }
        YankRange::FromEnd { from, to } => {
            last as u64 <= above(number, *from) && above(number, *to) <= last as u64
        }
        _ => false,
    }
}

/// Whether it chooses a number for good, where the last one is no less than this.
fn chooses_now(range: &YankRange, least: u32, number: u32) -> bool
    ensures { result ≡ chooses_now least number range.now }
{
    match range {
        YankRange::ToEnd { first, before } => {
            *first <= number && above(number, *before) <= least as u64
        }
        _ => false,
    }
}

/// Whether it drops a number for good, where the last one is no less than this.
fn drops_now(range: &YankRange, least: u32, number: u32) -> bool
    ensures { result ≡ drops_now least number range.now }
{
    match range {
        YankRange::ToEnd { first, .. } => number < *first,
        YankRange::FromEnd { from, .. } => above(number, *from) < least as u64,
        _ => true,
    }
}

/// Whether a range chooses a number without a look at the last one.
pub(crate) fn any_early(ranges: &[YankRange], number: u32) -> bool
    ensures { result ≡ list_any (chooses_early number) ranges.now }
{
    ranges.iter().any(|range| chooses_early(range, number))
}

fn any_late(ranges: &[YankRange], last: u32, number: u32) -> bool
    ensures { result ≡ list_any (chooses_late last number) ranges.now }
{
    ranges.iter().any(|range| chooses_late(range, last, number))
}

fn any_now(ranges: &[YankRange], least: u32, number: u32) -> bool
    ensures { result ≡ list_any (chooses_now least number) ranges.now }
{
    ranges.iter().any(|range| chooses_now(range, least, number))
}

fn all_drop(ranges: &[YankRange], least: u32, number: u32) -> bool
    ensures { result ≡ list_all (drops_now least number) ranges.now }
{
    ranges.iter().all(|range| drops_now(range, least, number))
}

/// Whether ranges from the end choose a number, by the last one, which may still grow while a spine
/// is open; none while that decides.
pub(crate) fn is_chosen(ranges: &[YankRange], closed: bool, last: u32, number: u32) -> Option<bool>
    ensures { result ≡ is_chosen ranges.now closed last number }
{
    if closed {
        return Some(any_late(ranges, last, number));
    }
    if any_now(ranges, last, number) {
        return Some(true);
    }
    if all_drop(ranges, last, number) {
        return Some(false);
    }
    None
}
