//! The rules that a text may break, line by line.
ghost use Rattle.std.specs.Prelude.{◌≡◌, ◌≢◌, ℕ, ◌+◌, ◌-◌, ◌<◌, ◌≤◌, true, false};
ghost use Rattle.std.specs.Prelude.{length, IfSome, IfNone, IsTrue, Some, None};
ghost use Rattle.std.specs.Prelude.{slice_index};
ghost use Rattle.hum_text.specs.Text.{lf, rule_in, rule_of_line, without_cr};
ghost use Rattle.hum_text.specs.Text.{IsLawful, BreaksFirst};

use crate::{Limits, TextFault};

/// The piece without one CR at its end.
pub fn strip_cr(piece: &[u8]) -> &[u8]
    ensures { result.now ≡ without_cr piece.now }
{
    let len = piece.len();
    if len > 0 && piece[len - 1] == b'\r' {
        &piece[..len - 1]
    } else {
        piece
    }
}

// The rule that breaks in the line after the `given` ones, of which this piece has come. With it,
// and its LF where it has ended, `size` bytes stand after the `taken` ones.
fn rule(
    limits: &Limits,
    given: u64,
    taken: u64,
    piece: &[u8],
    ended: bool,
    size: u64,
) -> Option<TextFault>
    requires { 0 < size }
    ensures { result ≡ rule_in limits.now (given + 1) piece.now ended (taken + size) }
{
    let len = strip_cr(piece).len();
    if ended && len == 0 {
        return Some(TextFault::S1);
    }
    if len > limits.line as usize {
        return Some(TextFault::S2);
    }
    if given >= limits.records {
        return Some(TextFault::S3);
    }
    if limits.bytes.saturating_sub(taken) < size {
        return Some(TextFault::S7);
    }
    None
}

// Whether no byte of the line breaks a rule.
fn is_sound(limits: &Limits, given: u64, taken: u64, held: &[u8]) -> bool
    requires one_line { (k : ℕ) → k + 1 < length held.now → slice_index held.now k ≢ lf }
    ensures { IsTrue result → IsLawful limits.now (given + 1) taken held.now }
{
    match held {
        [] => true,
        [piece @ .., b'\n'] => {
            let len = strip_cr(piece).len();
            0 < len
                && len <= limits.line as usize
                && given < limits.records
                && held.len() as u64 <= limits.bytes.saturating_sub(taken)
        }
        _ => {
            strip_cr(held).len() <= limits.line as usize
                && given < limits.records
                && held.len() as u64 <= limits.bytes.saturating_sub(taken)
        }
    }
}

/// How long the text is of a line that LF ends, if no byte of it breaks a rule: the piece is what
/// stands in front of that LF.
pub fn sound_len(limits: &Limits, given: u64, taken: u64, piece: &[u8]) -> Option<usize>
    requires within { taken ≤ limits.now.bytes }
    ensures len { IfSome result (λ len. len ≡ length (without_cr piece.now)) }
    ensures filled { IfSome result (λ len. 0 < len) }
    ensures short { IfSome result (λ len. len ≤ limits.now.line) }
    ensures records { IfSome result (λ _. given < limits.now.records) }
    ensures bytes { IfSome result (λ _. taken + (length piece.now + 1) ≤ limits.now.bytes) }
{
    let len = strip_cr(piece).len();
    if len == 0 || len > limits.line as usize {
        return None;
    }
    if given >= limits.records || piece.len() as u64 >= limits.bytes - taken {
        return None;
    }
    Some(len)
}

/// How many of so many bytes keep to the limits, whatever lines they are.
pub fn within_limits(limits: &Limits, given: u64, taken: u64, held: usize) -> u64
    requires lines { given ≤ limits.now.records }
    requires bytes { taken ≤ limits.now.bytes }
    ensures held { result ≤ held }
    ensures line { result ≤ limits.now.line }
    ensures lines { given + result ≤ limits.now.records }
    ensures bytes { taken + result ≤ limits.now.bytes }
{
    (held as u64)
        .min(u64::from(limits.line))
        .min(limits.records - given)
        .min(limits.bytes - taken)
}

// The rule that byte k of the line breaks.
fn fault_at(limits: &Limits, given: u64, taken: u64, held: &[u8], k: usize) -> Option<TextFault>
    requires within { k < length held.now }
    ensures { result ≡ rule_of_line limits.now (given + 1) taken held.now k }
{
    if held[k] == b'\n' {
        rule(limits, given, taken, &held[..k], true, k as u64 + 1)
    } else {
        rule(limits, given, taken, &held[..k + 1], false, k as u64 + 1)
    }
}

/// The first rule that a byte of the line breaks. Only its last byte may be LF.
#[inline]
pub fn first_fault(limits: &Limits, given: u64, taken: u64, held: &[u8]) -> Option<TextFault>
    requires one_line { (k : ℕ) → k + 1 < length held.now → slice_index held.now k ≢ lf }
    ensures found { IfSome result (BreaksFirst limits.now (given + 1) taken held.now) }
    ensures none { IfNone result (IsLawful limits.now (given + 1) taken held.now) }
    ensures records { IfNone result (0 < length held.now → given < limits.now.records) }
    ensures bytes { IfNone result
        (0 < length held.now → taken + length held.now ≤ limits.now.bytes) }
{
    if is_sound(limits, given, taken, held) {
        return None;
    }
    find_fault(limits, given, taken, held)
}

// The same, byte by byte.
fn find_fault(limits: &Limits, given: u64, taken: u64, held: &[u8]) -> Option<TextFault>
    requires one_line { (k : ℕ) → k + 1 < length held.now → slice_index held.now k ≢ lf }
    ensures found { IfSome result (BreaksFirst limits.now (given + 1) taken held.now) }
    ensures none { IfNone result (IsLawful limits.now (given + 1) taken held.now) }
{
    for k in 0..held.len() {
        if let Some(fault) = fault_at(limits, given, taken, held, k) {
            return Some(fault);
        }
    }
    None
}
