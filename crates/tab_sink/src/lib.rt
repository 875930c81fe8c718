//! The two ends of a connection: the sink of its frames, and the stream of its requests.

#![tactic(auto)]

mod device;
pub mod kept;
pub mod pieces;
mod rest;
mod stream;

ghost use Rattle.std.specs.Prelude.{◌≡◌, ◌≤◌, ◌<◌, ◌+◌, ◌++◌, [], ◌⊎◌, ℕ, Bool, List, IsTrue, IsFalse, length, min, take, OnOk, OnErr, IfOk, IsErr};
ghost use Rattle.std.specs.Io.KnownBytes.{Appends, Keeps, WriteAppends};
ghost use Rattle.tab_sink.specs.Bytes.{sink_bytes};
ghost use Rattle.tab_sink.specs.Rests.{rest_of};
ghost use Rattle.tab_sink.specs.Sends.{Sends};

use crate::kept::{KEPT, empty};
pub use device::{Device, WriteNow};
pub use rest::Rest;
use rest::give_from;
use std::io::Write;
use std::mem;
use std::sync::{Mutex, MutexGuard, Wait};
pub use stream::{RequestStream, Senders};
use tab_etf::{Broken, Target, give_all};

/// A device that frames are written to, until it fails. The bytes that remain after a non-blocking write are written
/// before any others. As a `Target` it keeps the pieces of a long frame, if it was begun, and writes many at once.
#[derive(Drop)]
pub struct Sink<W> {
    device: Device<W>,
    rest: Option<Rest>,
    broken: bool,
    /// The number of bytes since the last long frame was begun, and of the frames that were taken with it.
    given: u64,
}

impl<W: Write> Sink<W> {
    /// A device that has not failed.
    pub fn new(writer: W) -> Sink<W>
        ensures fresh { (IsFalse result.broken) × (result.device.inner ≡ writer)
            × (result.device.faults ≡ 0) }
        ensures rest { rest_of result.rest ≡ [] }
    {
        Sink {
            device: Device::new(writer),
            rest: None,
            broken: false,
            given: 0,
        }
    }

    /// Writes the remaining bytes, and then frames. After a failed write nothing more is written: of
    /// the bytes of that call only a beginning is written.
    pub fn put(&mut self, frames: &[u8]) -> Result<(), Broken>
        ensures ok { OnOk result
            ((IsFalse self.old.broken) × (IsFalse self.new.broken) × (rest_of self.new.rest ≡ [])
            × Appends (W.contents self.old.device.inner)
            (W.contents self.new.device.inner) (rest_of self.old.rest ++ frames.now)) }
        ensures same { OnOk result (self.new.device.faults ≡ self.old.device.faults) }
        ensures first { IsFalse self.old.broken
            → OnErr result
            ((IsTrue self.new.broken)
            × (self.new.device.faults ≡ min (self.old.device.faults + 1) u64.MAX)
            × ((n : ℕ) × Appends (W.contents self.old.device.inner)
            (W.contents self.new.device.inner) (take n (rest_of self.old.rest ++ frames.now)))) }
        ensures later { IsTrue self.old.broken → IsErr result × (self.new ≡ self.old) }
        ensures bytes { OnOk result
            (Appends (sink_bytes W.contents self.old) (sink_bytes W.contents self.new) frames.now) }
    {
        if self.broken {
            return Err(Broken);
        }
        self.put_rest()?;
        self.put_frames(frames)
    }

    /// Writes frames, after the remaining bytes were written.
    fn put_frames(&mut self, frames: &[u8]) -> Result<(), Broken>
        ensures ok { OnOk result
            ((IsFalse self.new.broken) × (self.new.rest ≡ self.old.rest)
            × Appends (W.contents self.old.device.inner)
            (W.contents self.new.device.inner) frames.now) }
        ensures same { OnOk result (self.new.device.faults ≡ self.old.device.faults) }
        ensures first { OnErr result
            ((IsTrue self.new.broken)
            × (self.new.device.faults ≡ min (self.old.device.faults + 1) u64.MAX)
            × ((n : ℕ) × Appends (W.contents self.old.device.inner)
            (W.contents self.new.device.inner) (take n frames.now))) }
    {
        let put = give_all(&mut self.device, frames);
        self.broken = put.is_err();
        put
    }

    /// Writes the remaining bytes. If that fails, the bytes that are not written remain.
    fn put_rest(&mut self) -> Result<(), Broken>
        ensures ok { OnOk result
            ((self.new.broken ≡ self.old.broken) × (rest_of self.new.rest ≡ [])
            × Appends (W.contents self.old.device.inner)
            (W.contents self.new.device.inner) (rest_of self.old.rest)) }
        ensures same { OnOk result (self.new.device.faults ≡ self.old.device.faults) }
        ensures first { OnErr result
            ((IsTrue self.new.broken)
            × (self.new.device.faults ≡ min (self.old.device.faults + 1) u64.MAX)
            × Sends (W.contents self.old.device.inner) (rest_of self.old.rest)
            (W.contents self.new.device.inner) (rest_of self.new.rest)) }
    {
        self.put_kept()?;
        self.rest = None;
        Ok(())
    }

    /// Writes the remaining bytes, and keeps their buffer. If that fails, the bytes that are not written remain.
    fn put_kept(&mut self) -> Result<(), Broken>
        ensures ok { OnOk result
            ((self.new.broken ≡ self.old.broken) × (rest_of self.new.rest ≡ [])
            × Appends (W.contents self.old.device.inner)
            (W.contents self.new.device.inner) (rest_of self.old.rest)) }
        ensures same { OnOk result (self.new.device.faults ≡ self.old.device.faults) }
        ensures first { OnErr result
            ((IsTrue self.new.broken)
            × (self.new.device.faults ≡ min (self.old.device.faults + 1) u64.MAX)
            × Sends (W.contents self.old.device.inner) (rest_of self.old.rest)
            (W.contents self.new.device.inner) (rest_of self.new.rest)) }
    {
        let Some(rest) = self.rest.take() else {
            return Ok(());
        };
        let Rest {
            mut frames,
            mut from,
        } = rest;
        let put = give_from(&mut self.device, &frames, &mut from);
        if put.is_ok() {
            frames.clear();
            from = 0;
        } else {
            self.broken = true;
        }
        self.rest = Some(Rest { frames, from });
        put
    }

    /// Returns whether so many bytes remain that they are written before others are kept.
    fn is_full(&self) -> bool {
        match &self.rest {
            Some(rest) => rest.frames.len() >= KEPT,
            None => false,
        }
    }

    /// Gives bytes to the device, after the remaining bytes were written.
    fn give_straight(&mut self, bytes: &[u8]) -> Result<usize, Broken>
        requires { rest_of self.old.rest ≡ [] }
        ensures bound { IfOk result (λ n. n ≤ length bytes.now) }
        ensures some { IfOk result (λ n. 0 < length bytes.now → 0 < n) }
        ensures bytes { WriteAppends (W.contents self.old.device.inner)
            (W.contents self.new.device.inner) result bytes.now }
        ensures rest { self.new.rest ≡ self.old.rest }
        ensures same { OnOk result (self.new.device.faults ≡ self.old.device.faults) }
        ensures rose { OnErr result
            (self.new.device.faults ≡ min (self.old.device.faults + 1) u64.MAX) }
    {
        let given = self.device.give(bytes);
        match given {
            Ok(count) => self.given = self.given.saturating_add(count as u64),
            Err(_) => self.broken = true,
        }
        given
    }

    /// Keeps bytes after those that remain, if it has a buffer. If memory is refused, nothing more is written: a frame may have
    /// begun.
    fn keep(&mut self, bytes: &[u8]) -> Result<usize, Broken>
        ensures bound { IfOk result (λ n. n ≤ length bytes.now) }
        ensures some { IfOk result (λ n. 0 < length bytes.now → 0 < n) }
        ensures bytes { WriteAppends (sink_bytes W.contents self.old)
            (sink_bytes W.contents self.new) result bytes.now }
        ensures same { OnOk result (self.new.device.faults ≡ self.old.device.faults) }
        ensures rose { OnErr result
            (self.new.device.faults ≡ min (self.old.device.faults + 1) u64.MAX) }
    {
        let Some(rest) = self.rest.take() else {
            return self.give_straight(bytes);
        };
        let Rest { mut frames, from } = rest;
        let kept = frames.extend_from_slice(bytes).is_ok();
        self.rest = Some(Rest { frames, from });
        if !kept {
            self.broken = true;
            return Err(self.device.fault());
        }
        self.given = self.given.saturating_add(bytes.len() as u64);
        Ok(bytes.len())
    }

    /// Writes the remaining bytes, keeps their buffer, and flushes the device.
    fn flush_kept(&mut self) -> Result<(), Broken>
        ensures bytes { Keeps (sink_bytes W.contents self.old) (sink_bytes W.contents self.new) }
        ensures ok { OnOk result
            ((IsFalse self.old.broken) × (IsFalse self.new.broken) × (rest_of self.new.rest ≡ [])
            × IsTrue self.new.device.flushed) }
        ensures err { OnErr result (IsTrue self.new.broken) }
        ensures same { OnOk result (self.new.device.faults ≡ self.old.device.faults) }
        ensures rose { OnErr result
            (self.new.device.faults ≡ min (self.old.device.faults + 1) u64.MAX) }
    {
        if self.broken {
            return Err(self.device.fault());
        }
        self.put_kept()?;
        let flushed = self.device.flush();
        self.broken = flushed.is_err();
        flushed
    }

    /// Begins a long frame, whose pieces are given to the sink as a `Target`. The frames before it are taken, and their
    /// buffer keeps the pieces until many are written at once.
    pub fn begin(&mut self, frames: &mut Vec<u8>) -> Result<(), Broken>
        ensures ok { OnOk result
            ((IsFalse self.old.broken) × (IsFalse self.new.broken)
            × Appends (sink_bytes W.contents self.old) (sink_bytes W.contents self.new)
            frames.old.items) }
        ensures err { OnErr result (IsTrue self.new.broken) }
    {
        if self.broken {
            return Err(Broken);
        }
        self.put_rest()?;
        let room = Vec::new(*frames.allocator());
        let kept = mem::replace(frames, room);
        self.given = kept.len() as u64;
        self.rest = Some(Rest {
            frames: kept,
            from: 0,
        });
        Ok(())
    }

    /// Writes the remaining bytes of a long frame, and returns the buffer of its pieces. Returns the number of bytes of the frames
    /// since `begin`.
    pub fn finish(&mut self, frames: &mut Vec<u8>) -> Result<u64, Broken>
        ensures ok { OnOk result
            ((IsFalse self.old.broken) × (IsFalse self.new.broken)
            × Keeps (sink_bytes W.contents self.old) (sink_bytes W.contents self.new)) }
        ensures err { OnErr result (IsTrue self.new.broken) }
    {
        self.flush_kept()?;
        if let Some(rest) = self.rest.take() {
            *frames = rest.frames;
            empty(frames);
        }
        Ok(self.given)
    }

    /// Records that a long frame has ended before its last piece: nothing more is written.
    pub fn give_up(&mut self)
        ensures { IsTrue self.new.broken }
    {
        self.broken = true;
    }
}

impl<W: Write> Target for Sink<W> {
    ghost contents = { λ s. sink_bytes W.contents s };

    ghost faults = { λ s. s.device.faults };

    ghost is_flushed = { λ s. s.device.flushed };

    fn give(&mut self, bytes: &[u8]) -> Result<usize, Broken> {
        if self.broken {
            return Err(self.device.fault());
        }
        let is_long = bytes.len() >= KEPT;
        if is_long || self.is_full() {
            self.put_kept()?;
        }
        if is_long {
            return self.give_straight(bytes);
        }
        self.keep(bytes)
    }

    fn flush(&mut self) -> Result<(), Broken> {
        self.flush_kept()
    }
}

impl<W: WriteNow> Sink<W> {
    /// Writes the remaining bytes, and then frames, as far as the device takes them without blocking. Returns true if all is
    /// written. After the last remaining byte the sink takes over the frames: it empties `frames`, and keeps the bytes that are
    /// not written. Otherwise `frames` is unchanged.
    pub fn put_now(&mut self, frames: &mut Vec<u8>) -> Result<bool, Broken>
        ensures ok { OnOk result
            ((IsFalse self.old.broken) × (IsFalse self.new.broken)
            × Sends (W.contents self.old.device.inner)
            (rest_of self.old.rest ++ frames.old.items)
            (W.contents self.new.device.inner)
            (rest_of self.new.rest ++ frames.new.items)) }
        ensures whole { OnOk result
            ((frames.new.items ≡ frames.old.items) ⊎ (frames.new.items ≡ [])) }
        ensures all { IfOk result (λ all. IsTrue all
            → (rest_of self.new.rest ≡ []) × (frames.new.items ≡ [])) }
        ensures same { OnOk result (self.new.device.faults ≡ self.old.device.faults) }
        ensures first { IsFalse self.old.broken
            → OnErr result
            ((IsTrue self.new.broken)
            × (self.new.device.faults ≡ min (self.old.device.faults + 1) u64.MAX)
            × ((left : List ℕ) × Sends (W.contents self.old.device.inner)
            (rest_of self.old.rest ++ frames.old.items)
            (W.contents self.new.device.inner) left)) }
        ensures later { IsTrue self.old.broken → IsErr result × (self.new ≡ self.old) }
    {
        if self.broken {
            return Err(Broken);
        }
        if !self.put_rest_now()? {
            return Ok(false);
        }
        self.put_frames_now(frames)
    }

    /// Writes the remaining bytes, as far as the device takes them without blocking. Returns true if all are written.
    fn put_rest_now(&mut self) -> Result<bool, Broken>
        ensures ok { OnOk result
            ((self.new.broken ≡ self.old.broken)
            × Sends (W.contents self.old.device.inner) (rest_of self.old.rest)
            (W.contents self.new.device.inner) (rest_of self.new.rest)) }
        ensures all { IfOk result (λ all. IsTrue all → rest_of self.new.rest ≡ []) }
        ensures same { OnOk result (self.new.device.faults ≡ self.old.device.faults) }
        ensures first { OnErr result
            ((IsTrue self.new.broken)
            × (self.new.device.faults ≡ min (self.old.device.faults + 1) u64.MAX)
            × ((left : List ℕ) × Sends (W.contents self.old.device.inner)
            (rest_of self.old.rest) (W.contents self.new.device.inner) left)) }
    {
        let Some(rest) = self.rest.take() else {
            return Ok(true);
        };
        let Rest { frames, from } = rest;
        let count = match self.device.give_now(&frames[from..]) {
            Ok(count) => count,
            Err(fault) => {
                self.broken = true;
                return Err(fault);
            }
        };
        if count == frames.len() - from {
            return Ok(true);
        }
        self.rest = Some(Rest {
            frames,
            from: from + count,
        });
        Ok(false)
    }

    /// Writes frames, as far as the device takes them without blocking, and keeps the bytes that are not written. Returns true
    /// if all is written. No bytes of earlier frames may remain.
    fn put_frames_now(&mut self, frames: &mut Vec<u8>) -> Result<bool, Broken>
        requires { rest_of self.old.rest ≡ [] }
        ensures ok { OnOk result
            ((self.new.broken ≡ self.old.broken)
            × Sends (W.contents self.old.device.inner) frames.old.items
            (W.contents self.new.device.inner) (rest_of self.new.rest)) }
        ensures none { OnOk result (frames.new.items ≡ []) }
        ensures all { IfOk result (λ all. IsTrue all → rest_of self.new.rest ≡ []) }
        ensures same { OnOk result (self.new.device.faults ≡ self.old.device.faults) }
        ensures first { OnErr result
            ((IsTrue self.new.broken)
            × (self.new.device.faults ≡ min (self.old.device.faults + 1) u64.MAX)
            × ((left : List ℕ) × Sends (W.contents self.old.device.inner)
            frames.old.items (W.contents self.new.device.inner) left)) }
    {
        let count = match self.device.give_now(frames) {
            Ok(count) => count,
            Err(fault) => {
                self.broken = true;
                return Err(fault);
            }
        };
        if count == frames.len() {
            empty(frames);
            return Ok(true);
        }
        let begun = mem::replace(frames, Vec::new(*frames.allocator()));
        self.rest = Some(Rest {
            frames: begun,
            from: count,
        });
        Ok(false)
    }
}

/// A sink that several threads share.
#[derive(Drop)]
pub struct FrameSink<W> {
    sink: Mutex<Sink<W>>,
}

impl<W: Write> FrameSink<W> {
    /// Creates a sink for several threads, whose device has not failed.
    pub fn new(writer: W) -> FrameSink<W> {
        FrameSink {
            sink: Mutex::new(Sink::new(writer)),
        }
    }

    /// Locks the sink: no other thread's bytes come between those that are put in it meanwhile.
    pub fn hold<R: Wait>(&self, rt: &R) -> MutexGuard<'_, Sink<W>> {
        self.sink.lock(rt)
    }

    /// Writes whole frames, which no other's come between.
    pub fn send<R: Wait>(&self, rt: &R, frames: &[u8]) -> Result<(), Broken> {
        self.sink.lock(rt).put(frames)
    }

    /// Returns whether a write has failed.
    pub fn is_broken<R: Wait>(&self, rt: &R) -> bool {
        self.sink.lock(rt).broken
    }
}

impl<W: WriteNow> FrameSink<W> {
    /// Writes whole frames without blocking. Returns true if all is written. If it returns false and `frames` is empty, the sink
    /// keeps the bytes that are not written; if `frames` is not empty, none of it is written.
    pub fn try_send(&self, frames: &mut Vec<u8>) -> Result<bool, Broken>
        ensures whole { OnOk result
            ((frames.new.items ≡ frames.old.items) ⊎ (frames.new.items ≡ [])) }
        ensures all { IfOk result (λ all. IsTrue all → frames.new.items ≡ []) }
    {
        match self.sink.try_lock() {
            Some(mut sink) => sink.put_now(frames),
            None => Ok(false),
        }
    }
}
