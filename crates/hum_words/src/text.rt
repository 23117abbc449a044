//! The text of a plan.
ghost use Rattle.std.specs.Prelude.{◌≡◌, ◌≤◌, length, count_by, IfOk, OnOk, IfErr};
ghost use Rattle.std.specs.Prelude.{None, Some, MatchResult};
ghost use Rattle.std.specs.Str.{IsUtf8};
ghost use Rattle.hum_words.specs.Branches.{is_lf};
ghost use Rattle.hum_words.specs.Text.{longest, IsFault, fault_of};

use std::str;
use thiserror::Error;

/// How many bytes a plan may have.
pub const LONGEST_PLAN: usize = 65_536;

/// Why bytes are no text of a plan.
#[derive(Clone, Copy, Debug, Error)]
pub enum PlanTextFault {
    /// There are over 65,536 bytes.
    #[error("N1: a plan of over 65,536 bytes")]
    TooLong,
    /// They aren't UTF-8: the line, from 1, of the byte behind the longest prefix that is.
    #[error("N1: line {line} isn't UTF-8")]
    NotUtf8 { line: u32 },
}

/// How many line ends the bytes have.
fn line_ends(bytes: &[u8]) -> usize
    ensures value { result ≡ count_by is_lf bytes.now }
    ensures bound { result ≤ length bytes.now }
{
    bytes.iter().filter(|byte| **byte == b'\n').count()
}

/// The text of a plan: at most 65,536 bytes of UTF-8.
///
/// # Errors
/// `TooLong` exactly where there are more bytes, and `NotUtf8` exactly where there aren't and they
/// are no UTF-8.
pub fn plan_text(bytes: &[u8]) -> Result<&str, PlanTextFault>
    // The text is the bytes.
    ensures text { IfOk result (λ text. text.now ≡ bytes.now) }
    ensures short { OnOk result (length bytes.now ≤ longest) }
    ensures utf8 { OnOk result (IsUtf8 bytes.now) }

    // A fault is one of the bytes, the first one of those in question.
    ensures fault { IfErr result (λ fault. IsFault fault bytes.now) }
    ensures exact { MatchResult result (λ _. fault_of bytes.now ≡ None)
        (λ fault. fault_of bytes.now ≡ Some fault) }
{
    if bytes.len() > LONGEST_PLAN {
        return Err(PlanTextFault::TooLong);
    }
    match str::from_utf8(bytes) {
        Ok(text) => Ok(text),
        Err(error) => {
            let line = line_ends(&bytes[..error.valid_up_to()]) as u32 + 1;
            Err(PlanTextFault::NotUtf8 { line })
        }
    }
}
