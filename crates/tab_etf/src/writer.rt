//! Bytes that wait for a device, so that it gets few large pieces.

ghost use Rattle.std.specs.Prelude.{◌≡◌, [], ◌∷◌, false};
ghost use Rattle.tab_etf.specs.Writing.{Hands, Writes, output};

use crate::device::{Target, give_all};
use arrayvec::ArrayVec;

/// The most bytes that the buffer takes.
const ROOM: usize = 512;

/// Writes bytes to a device that has not failed, and returns whether it has failed then.
#[tactic(auto, using(crate::proofs::WritingLemmas::hands_broken, crate::proofs::WritingLemmas::hands_sent, crate::proofs::WritingLemmas::hands_lost))]
fn hand_over<W: Target>(failed: bool, device: &mut W, bytes: &[u8]) -> bool
    ensures { Hands failed (W.faults device.old) (W.contents device.old) result
        (W.faults device.new) (W.contents device.new) bytes.now }
{
    if failed {
        return true;
    }
    give_all(device, bytes).is_err()
}

/// A device, the bytes that wait for it, and whether it has failed. After that no byte is written.
#[derive(Drop)]
pub struct Writer<'a, W> {
    device: &'a mut W,
    bytes: ArrayVec<u8, ROOM>,
    failed: bool,
}

impl<'a, W: Target> Writer<'a, W> {
    /// A writer to the device, with no byte kept. It takes no memory.
    pub fn new(device: &'a mut W) -> Writer<'a, W>
        ensures same { result.device.ghost_name ≡ device.entry.ghost_name }
        ensures output { output W.contents W.faults result
            ≡ record {
              failed = false;
              faults = W.faults device.old;
              sent = W.contents device.old;
              kept = [];
            } }
    {
        Writer {
            device,
            bytes: ArrayVec::new(),
            failed: false,
        }
    }

    /// Returns whether a write has failed: then nothing is written any more.
    pub fn has_failed(&self) -> bool
        ensures { result ≡ self.now.failed }
    {
        self.failed
    }

    /// The device, which has the bytes that were written out.
    pub fn device(&self) -> &W
        ensures { result.now ≡ self.now.device.now }
    {
        self.device
    }

    /// Hands over all bytes that wait.
    pub fn write_out(&mut self)
        ensures writes { Writes W.contents W.faults self.old self.new [] }
        ensures none { self.new.bytes.items ≡ [] }
    {
        self.failed = hand_over(self.failed, self.device, self.bytes.as_slice());
        self.bytes.clear();
    }

    /// Adds bytes to the buffer, or writes it out. It is inlined, so that a few bytes whose number is known at the call
    /// are stored and not copied in a loop.
    #[inline(always)]
    pub fn put(&mut self, bytes: &[u8])
        ensures { Writes W.contents W.faults self.old self.new bytes.now }
    {
        if self.bytes.try_extend_from_slice(bytes).is_err() {
            self.put_beyond(bytes);
        }
    }

    // The same if the buffer has no room.
    #[inline(never)]
    fn put_beyond(&mut self, bytes: &[u8])
        ensures { Writes W.contents W.faults self.old self.new bytes.now }
    {
        self.write_out();
        if self.bytes.try_extend_from_slice(bytes).is_ok() {
            return;
        }
        self.failed = hand_over(self.failed, self.device, bytes);
    }

    /// Adds one byte to those that wait.
    #[inline(always)]
    pub fn put_byte(&mut self, byte: u8)
        ensures { Writes W.contents W.faults self.old self.new (byte ∷ []) }
    {
        if self.bytes.try_push(byte).is_err() {
            self.put_byte_beyond(byte);
        }
    }

    #[inline(never)]
    fn put_byte_beyond(&mut self, byte: u8)
        ensures { Writes W.contents W.faults self.old self.new (byte ∷ []) }
    {
        self.put_beyond(&[byte]);
    }
}
