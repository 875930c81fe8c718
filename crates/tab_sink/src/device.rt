//! The device of a sink, which writes with or without blocking.

ghost use Rattle.std.specs.Prelude.{◌≡◌, ◌+◌, ◌≤◌, min, length, IfOk, OnOk, OnErr};
ghost use Rattle.std.specs.Io.{WritesAtMost};
ghost use Rattle.std.specs.Io.KnownBytes.{WriteAppends};

use libc::net::{MSG_DONTWAIT, MSG_NOSIGNAL, send};
use std::io::{self, ErrorKind, Write};
use std::net::TcpStream;
use std::os::fd::AsRawFd;
use tab_etf::{Broken, Target};

/// A writer that can also write without blocking.
pub trait WriteNow: Write {
    /// Writes as many of the first bytes as the writer takes without blocking, perhaps none.
    fn write_now(&mut self, buf: &[u8]) -> io::Result<usize>
        ensures bound { WritesAtMost result buf.now }
        ensures bytes { WriteAppends (Self.Write.contents self.old)
            (Self.Write.contents self.new) result buf.now };
}

impl WriteNow for TcpStream {
    fn write_now(&mut self, buf: &[u8]) -> io::Result<usize> {
        let put = unsafe { send(self.as_raw_fd(), buf, MSG_NOSIGNAL | MSG_DONTWAIT) };
        if put >= 0 {
            return Ok(put as usize);
        }
        let error = io::Error::from_raw_os_error(os::errno());
        match error.kind() {
            ErrorKind::WouldBlock | ErrorKind::Interrupted => Ok(0),
            _ => Err(error),
        }
    }
}

/// A writer, and the number of its faults. A fault is an error, or a blocking write that takes none of some bytes.
#[derive(Drop)]
pub struct Device<W> {
    inner: W,
    faults: u64,
    flushed: bool,
}

impl<W> Device<W> {
    /// Creates a device for this writer, without a fault.
    pub fn new(inner: W) -> Device<W>
        ensures inner { result.inner ≡ inner }
        ensures faults { result.faults ≡ 0 }
    {
        Device {
            inner,
            faults: 0,
            flushed: true,
        }
    }

    pub(crate) fn fault(&mut self) -> Broken
        ensures faults { self.new.faults ≡ min (self.old.faults + 1) u64.MAX }
        ensures inner { self.new.inner ≡ self.old.inner }
    {
        self.faults = self.faults.saturating_add(1);
        Broken
    }
}

impl<W: Write> Target for Device<W> {
    ghost contents = { λ c. W.contents c.inner };

    ghost faults = { λ c. c.faults };

    ghost is_flushed = { λ c. c.flushed };

    fn give(&mut self, bytes: &[u8]) -> Result<usize, Broken> {
        self.flushed = false;
        match self.inner.write(bytes) {
            Ok(0) if !bytes.is_empty() => Err(self.fault()),
            Ok(count) => Ok(count),
            Err(_) => Err(self.fault()),
        }
    }

    fn flush(&mut self) -> Result<(), Broken> {
        match self.inner.flush() {
            Ok(()) => {
                self.flushed = true;
                Ok(())
            }
            Err(_) => Err(self.fault()),
        }
    }
}

impl<W: WriteNow> Device<W> {
    /// Makes one write without blocking, which may take no byte.
    pub fn give_now(&mut self, bytes: &[u8]) -> Result<usize, Broken>
        ensures bound { IfOk result (λ n. n ≤ length bytes.now) }
        ensures bytes { WriteAppends (W.contents self.old.inner) (W.contents self.new.inner) result
            bytes.now }
        ensures same { OnOk result (self.new.faults ≡ self.old.faults) }
        ensures rose { OnErr result (self.new.faults ≡ min (self.old.faults + 1) u64.MAX) }
    {
        self.flushed = false;
        match self.inner.write_now(bytes) {
            Ok(count) => Ok(count),
            Err(_) => Err(self.fault()),
        }
    }
}
