//! Sources that give a text piece by piece, and may fail.
use hum_text::calls::LARGEST_READ;
use std::io;
use std::io::{Error, ErrorKind, Read};

/// Gives a text in pieces of this size, and is interrupted once, after `good` reads. A read that
/// asks for no byte, or for more than may be asked for, fails.
#[derive(Drop)]
pub(crate) struct Pieces<'a> {
    pub text: &'a [u8],
    pub size: usize,
    pub good: usize,
}

impl Read for Pieces<'_> {
    fn read(&mut self, buf: &mut [u8]) -> io::Result<usize> {
        if self.good == 0 {
            self.good = usize::MAX;
            return Err(Error::from(ErrorKind::Interrupted));
        }
        if buf.is_empty() || buf.len() > LARGEST_READ {
            return Err(Error::from(ErrorKind::InvalidInput));
        }
        self.good -= 1;
        let n = self.size.min(buf.len()).min(self.text.len());
        let (front, rest) = self.text.split_at(n);
        buf[..n].copy_from_slice(front);
        self.text = rest;
        Ok(n)
    }
}
