//! A text that is held as it is written.
ghost use Rattle.std.specs.Prelude.{◌≡◌, [], Some};

use hum_text::calls::Sink;
use std::alloc::Global;
use std::io;
use std::io::ErrorKind;

/// The text that is written of a case.
#[derive(Drop)]
pub(crate) struct HeldText {
    bytes: Vec<u8>,
    calls: u64,
    flushes: u64,
    failed: bool,
    flushed: bool,
}

impl HeldText {
    /// A text of which nothing was written yet.
    pub(crate) fn new(alloc: Global) -> HeldText
        ensures { result.bytes.items ≡ [] }
    {
        HeldText {
            bytes: Vec::new(alloc),
            calls: 0,
            flushes: 0,
            failed: false,
            flushed: false,
        }
    }
}

impl Sink for HeldText {
    ghost contents = { λ t. Some t.bytes.items };

    ghost calls = { λ t. t.calls };

    ghost flushes = { λ t. t.flushes };

    ghost failed = { λ t. t.failed };

    ghost flushed = { λ t. t.flushed };

    fn write(&mut self, buf: &[u8]) -> io::Result<usize> {
        self.calls = self.calls.saturating_add(1);
        self.flushed = false;
        if self.bytes.extend_from_slice(buf).is_err() {
            self.failed = true;
            return Err(io::Error::from(ErrorKind::OutOfMemory));
        }
        self.failed = self.failed || buf.is_empty();
        Ok(buf.len())
    }

    fn flush(&mut self) -> io::Result<()> {
        self.calls = self.calls.saturating_add(1);
        self.flushes = self.flushes.saturating_add(1);
        self.flushed = true;
        Ok(())
    }
}

impl HeldText {
    /// What was written.
    pub(crate) fn into_bytes(self) -> Vec<u8>
        ensures { result ≡ self.bytes }
    {
        let HeldText {
            bytes,
            calls: _,
            flushes: _,
            failed: _,
            flushed: _,
        } = self;
        bytes
    }
}
