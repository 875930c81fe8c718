//! Devices that fail.

use std::io::{self, Read, Write};

/// A device that takes or gives a few bytes at once, and fails at the call after so many.
#[derive(Drop)]
pub struct Device<T> {
    pub inner: T,
    /// The most bytes that one call takes or gives.
    pub size: usize,
    /// How many calls still succeed.
    pub left: u32,
}

impl<T> Device<T> {
    fn turn(&mut self, len: usize) -> io::Result<usize> {
        if self.left == 0 {
            return Err(io::Error::from(io::ErrorKind::Interrupted));
        }
        self.left -= 1;
        Ok(len.min(self.size))
    }
}

impl<T: Read> Read for Device<T> {
    fn read(&mut self, buf: &mut [u8]) -> io::Result<usize> {
        let len = self.turn(buf.len())?.min(buf.len());
        self.inner.read(&mut buf[..len])
    }
}

impl<T: Write> Write for Device<T> {
    fn write(&mut self, buf: &[u8]) -> io::Result<usize> {
        let len = self.turn(buf.len())?.min(buf.len());
        self.inner.write(&buf[..len])
    }

    fn flush(&mut self) -> io::Result<()> {
        self.turn(0)?;
        Ok(())
    }
}
