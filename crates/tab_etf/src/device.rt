//! Devices that bytes are read from and written to, and what they say of their faults.

ghost use Rattle.std.specs.Prelude.{◌≡◌, ◌+◌, ◌<◌, ◌≤◌, ℕ, List, Option, Bool, IsTrue, min, take, length, OnOk, OnErr, IfOk};
ghost use Rattle.std.specs.Io.KnownBytes.{Appends, Keeps, ReadConsumes, WriteAppends};

use thiserror::Error;

/// The device failed.
#[derive(Clone, Copy, Debug, PartialEq, Eq, Error)]
#[error("the device failed")]
pub struct Broken;

/// A device that bytes are read from.
///
/// Its count of faults is its own, and no code over the trait can change it. If such code returns `Broken` and states
/// by how much the count rose, a call of the device failed. At `u64::MAX` the count stays.
pub trait Source {
    /// The bytes that are left, if they are known.
    ghost remaining: { Self → Option (List ℕ) };

    /// The number of its faults.
    ghost faults: { Self → ℕ };

    /// Reads into this buffer. It returns 0 only at the stream's end, or if the buffer has no room.
    fn get(&mut self, buf: &mut [u8]) -> Result<usize, Broken>
        ensures bound { IfOk result (λ n. n ≤ length buf.new) }
        ensures bytes { ReadConsumes (remaining self.old) (remaining self.new) result buf.new }
        ensures same { OnOk result (faults self.new ≡ faults self.old) }
        ensures rose { OnErr result (faults self.new ≡ min (faults self.old + 1) u64.MAX) };
}

/// A device that bytes are written to. It counts its faults as a `Source` does.
pub trait Target {
    /// The bytes that it has, if they are known.
    ghost contents: { Self → Option (List ℕ) };

    /// The number of its faults.
    ghost faults: { Self → ℕ };

    /// True if all that was written has been flushed since.
    ghost is_flushed: { Self → Bool };

    /// One write, which takes at least one byte, unless there is none.
    fn give(&mut self, bytes: &[u8]) -> Result<usize, Broken>
        ensures bound { IfOk result (λ n. n ≤ length bytes.now) }
        ensures some { IfOk result (λ n. 0 < length bytes.now → 0 < n) }
        ensures bytes { WriteAppends (contents self.old) (contents self.new) result bytes.now }
        ensures same { OnOk result (faults self.new ≡ faults self.old) }
        ensures rose { OnErr result (faults self.new ≡ min (faults self.old + 1) u64.MAX) };

    fn flush(&mut self) -> Result<(), Broken>
        ensures bytes { Keeps (contents self.old) (contents self.new) }
        ensures flushed { OnOk result (IsTrue (is_flushed self.new)) }
        ensures same { OnOk result (faults self.new ≡ faults self.old) }
        ensures rose { OnErr result (faults self.new ≡ min (faults self.old + 1) u64.MAX) };
}

/// Writes all the bytes; if that fails, a beginning of them.
pub fn give_all<W: Target>(device: &mut W, bytes: &[u8]) -> Result<(), Broken>
    ensures ok { OnOk result (Appends (W.contents device.old) (W.contents device.new) bytes.now) }
    ensures same { OnOk result (W.faults device.new ≡ W.faults device.old) }
    ensures part { OnErr result
        ((n : ℕ) × Appends (W.contents device.old) (W.contents device.new) (take n bytes.now)) }
    ensures rose { OnErr result (W.faults device.new ≡ min (W.faults device.old + 1) u64.MAX) }
{
    let mut at = 0;
    while at < bytes.len() {
        at += device.give(&bytes[at..])?;
    }
    Ok(())
}
