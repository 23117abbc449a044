//! Scores that are held.
ghost use Rattle.std.specs.Prelude.{◌≡◌, Some};

use hum_text::calls::Source;
use std::io;
use std::io::Read;

/// A score that is read from where it is held: no read of it fails.
#[derive(Drop)]
pub struct HeldScore<'a> {
    rest: &'a [u8],
    calls: u64,
}

impl<'a> HeldScore<'a> {
    /// A score of which nothing was read yet.
    pub fn new(bytes: &'a [u8]) -> HeldScore<'a>
        ensures { result ≡ record { rest = bytes.entry; calls = 0 } }
    {
        HeldScore {
            rest: bytes,
            calls: 0,
        }
    }
}

impl<'a> Source for HeldScore<'a> {
    ghost use Rattle.std.specs.Prelude.{false};

    ghost remaining = { λ s. Some s.rest.now };

    ghost calls = { λ s. s.calls };

    ghost failed = { λ s. false };

    fn hint(&self) -> usize {
        self.rest.len()
    }

    fn read(&mut self, buf: &mut [u8]) -> io::Result<usize> {
        self.calls = self.calls.saturating_add(1);
        self.rest.read(buf)
    }
}
