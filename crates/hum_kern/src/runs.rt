//! Maximal runs of bytes of one class.

ghost use Rattle.std.specs.Prelude.{◌≡◌, ◌+◌, ◌≤◌, length, drop};
ghost use Rattle.hum_kern.specs.Runs.{run, front, behind, starts_with};
ghost use Rattle.hum_kern.specs.Classes.{is_digit, is_letter, is_sign, is_plain, is_in};

/// What a run consists of.
#[derive(Clone, Copy)]
pub(crate) enum Class {
    /// The digits `0` to `9`.
    Digit,
    /// All other bytes.
    Other,
    /// Dots.
    Dot,
    /// All bytes but the letters of pitches.
    NoLetter,
    /// This byte, over and over.
    Repeat(u8),
    /// The signs of accidentals: `#`, `-` and `n`.
    Sign,
    /// Bytes that say nothing of a note: neither letters nor signs nor marks, nor spaces.
    Plain,
}

/// For each byte, whether it says nothing of a note.
const PLAIN: [bool; 256] = [
    true, true, true, true, true, true, true, true, true, true, true, true, true, true, true, true,
    true, true, true, true, true, true, true, true, true, true, true, true, true, true, true, true,
    false, true, true, false, true, true, true, true, true, true, true, true, true, false, true,
    true, true, true, true, true, true, true, true, true, true, true, true, true, true, true, true,
    true, true, false, false, false, false, false, false, false, true, true, true, true, true,
    true, true, true, true, false, true, true, true, true, true, true, true, true, true, true,
    true, false, true, false, true, false, false, false, false, false, false, false, true, true,
    true, true, true, true, false, true, true, false, false, true, true, true, true, true, true,
    true, true, true, true, true, true, true, true, true, true, true, true, true, true, true, true,
    true, true, true, true, true, true, true, true, true, true, true, true, true, true, true, true,
    true, true, true, true, true, true, true, true, true, true, true, true, true, true, true, true,
    true, true, true, true, true, true, true, true, true, true, true, true, true, true, true, true,
    true, true, true, true, true, true, true, true, true, true, true, true, true, true, true, true,
    true, true, true, true, true, true, true, true, true, true, true, true, true, true, true, true,
    true, true, true, true, true, true, true, true, true, true, true, true, true, true, true, true,
    true, true, true, true, true, true, true, true, true, true, true, true, true, true, true, true,
    true, true, true, true, true, true, true,
];

/// Whether a byte is a digit.
pub(crate) fn is_digit(b: u8) -> bool
    ensures { result ≡ is_digit b }
{
    48 <= b && b <= 57
}

/// Whether a byte is a letter of pitches.
pub(crate) fn is_letter(b: u8) -> bool
    ensures { result ≡ is_letter b }
{
    (97 <= b && b <= 103) || (65 <= b && b <= 71)
}

fn is_sign(b: u8) -> bool
    ensures { result ≡ is_sign b }
{
    b == b'#' || b == b'-' || b == b'n'
}

fn is_plain(b: u8) -> bool
    ensures { result ≡ is_plain b }
{
    PLAIN[b as usize]
}

impl Class {
    /// Whether a byte is of the class.
    fn has(self, b: u8) -> bool
        ensures { result ≡ is_in self b }
    {
        match self {
            Class::Digit => is_digit(b),
            Class::Other => !is_digit(b),
            Class::Dot => b == b'.',
            Class::NoLetter => !is_letter(b),
            Class::Repeat(letter) => b == letter,
            Class::Sign => is_sign(b),
            Class::Plain => is_plain(b),
        }
    }
}

/// What stands behind the run at the front.
#[inline(always)]
fn behind_run(bytes: &[u8], class: Class) -> &[u8]
    ensures { result.now ≡ behind (is_in class) bytes.now }
{
    let mut rest = bytes;
    while let [b, more @ ..] = rest {
        if !class.has(*b) {
            return rest;
        }
        rest = more;
    }
    rest
}

/// The run at the front, and what stands behind it.
#[inline(always)]
pub(crate) fn split_run(bytes: &[u8], class: Class) -> (&[u8], &[u8])
    ensures front { (result.0).now ≡ front (is_in class) bytes.now }
    ensures behind { (result.1).now ≡ behind (is_in class) bytes.now }
    ensures whole { length (result.0).now + length (result.1).now ≡ length bytes.now }
{
    let rest = behind_run(bytes, class);
    (bytes.split_at(bytes.len() - rest.len()).0, rest)
}

/// Where the run ends that begins at a place.
#[inline(always)]
pub(crate) fn run_end(bytes: &[u8], from: usize, class: Class) -> usize
    requires { from ≤ length bytes.now }
    ensures run { result ≡ from + run (is_in class) (drop from bytes.now) }
    ensures behind { drop result bytes.now ≡ behind (is_in class) (drop from bytes.now) }
    ensures within { result ≤ length bytes.now }
{
    for end in from..bytes.len() {
        if !class.has(bytes[end]) {
            return end;
        }
    }
    bytes.len()
}

/// Whether a percent sign stands at the front.
pub(crate) fn starts_with_percent(bytes: &[u8]) -> bool
    ensures { result ≡ starts_with 37 bytes.now }
{
    match bytes {
        [b, ..] => *b == b'%',
        [] => false,
    }
}
