//! Readers and writers of the standard library as devices.

ghost use Rattle.std.specs.Prelude.{◌≡◌, ◌+◌, min, IsTrue};

use crate::device::{Broken, Source, Target};
use std::io::{Read, Write};

/// A reader or a writer, and how often it has failed.
///
/// Each `Err` of a read, a write or a flush is a fault, `Interrupted` too, and so is a write of some
/// bytes that takes none. A short read or write is none.
#[derive(Drop)]
pub struct Counted<T> {
    inner: T,
    faults: u64,
    flushed: bool,
}

impl<T> Counted<T> {
    /// The device around this one: no fault counted, and nothing that waits to be flushed.
    pub fn new(inner: T) -> Counted<T>
        ensures inner { result.inner ≡ inner }
        ensures faults { result.faults ≡ 0 }
        ensures flushed { IsTrue result.flushed }
    {
        Counted {
            inner,
            faults: 0,
            flushed: true,
        }
    }

    /// The number of faults of the device so far. At `u64::MAX` the number stays.
    pub fn faults(&self) -> u64
        ensures { result ≡ self.now.faults }
    {
        self.faults
    }

    /// The reader or writer, borrowed.
    pub(crate) fn inner(&self) -> &T
        ensures { result.now ≡ self.now.inner }
    {
        &self.inner
    }

    /// The reader or writer itself.
    pub fn into_inner(self) -> T
        ensures { result ≡ self.inner }
    {
        self.inner
    }

    fn fault(&mut self) -> Broken
        ensures faults { self.new.faults ≡ min (self.old.faults + 1) u64.MAX }
        ensures inner { self.new.inner ≡ self.old.inner }
    {
        self.faults = self.faults.saturating_add(1);
        Broken
    }
}

impl<R: Read> Source for Counted<R> {
    ghost remaining = { λ c. R.remaining c.inner };

    ghost faults = { λ c. c.faults };

    fn get(&mut self, buf: &mut [u8]) -> Result<usize, Broken> {
        match self.inner.read(buf) {
            Ok(count) => Ok(count),
            Err(_) => Err(self.fault()),
        }
    }
}

impl<W: Write> Target for Counted<W> {
    ghost contents = { λ c. W.contents c.inner };

    ghost faults = { λ c. c.faults };

    ghost is_flushed = { λ c. c.flushed };

    fn give(&mut self, bytes: &[u8]) -> Result<usize, Broken> {
        self.flushed = false;
        match self.inner.write(bytes) {
            Ok(0) if !bytes.is_empty() => Err(self.fault()),
            Ok(count) => Ok(count),
            Err(_) => Err(self.fault()),
        }
    }

    fn flush(&mut self) -> Result<(), Broken> {
        match self.inner.flush() {
            Ok(()) => {
                self.flushed = true;
                Ok(())
            }
            Err(_) => Err(self.fault()),
        }
    }
}
