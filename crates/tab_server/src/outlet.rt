//! The way of a session's frames.

ghost use Rattle.std.specs.Prelude.{◌≡◌, ◌∷◌, ◌++◌, ℕ, Bool, false, List, Option, None, IsTrue, IsFalse, OnOk, OnErr};
ghost use Rattle.std.specs.Io.KnownBytes.{Appends};
ghost use Rattle.tab_term.specs.Canon.{canon};
ghost use Rattle.tab_etf.specs.Frames.{frame};
ghost use Rattle.tab_proto.specs.Events.{sent_frames};
ghost use Rattle.tab_proto.specs.Replies.{response};

use std::io::Write;
use std::sync::Wait;
use tab_etf::{Broken, FrameFault};
use tab_model::{Item, Reply};
use tab_proto::{Delivery, write_item, write_reply};
use tab_sink::kept::KEPT;
use tab_sink::{FrameSink, Sink};

/// The way of a session's frames. After a call that fails each call fails.
pub trait Outlet {
    /// The bytes that were sent, if they are known.
    ghost sent: { Self → Option (List ℕ) };

    /// True if a call has failed.
    ghost broken: { Self → Bool };

    /// Sends whole frames. No other bytes come between.
    fn send(&mut self, frames: &[u8]) -> Result<(), Broken>
        ensures ok { OnOk result (IsFalse (broken self.new)) }
        ensures err { OnErr result (IsTrue (broken self.new)) }
        ensures bytes { IsFalse (broken self.new)
            → IsFalse (broken self.old) × Appends (sent self.old) (sent self.new) frames.now };

    /// Sends whole frames, which are then taken, and after them the frame of a reply, piece by piece. No other bytes come
    /// between. Returns the number of bytes.
    fn send_reply(&mut self, frames: &mut Vec<u8>, reply: &Reply) -> Result<u64, FrameFault>
        ensures ok { OnOk result (IsFalse (broken self.new)) }
        ensures err { OnErr result (IsTrue (broken self.new)) }
        ensures bytes { IsFalse (broken self.new)
            → IsFalse (broken self.old)
            × Appends (sent self.old) (sent self.new)
            (frames.old.items ++ frame (131 ∷ canon (response None reply.now))) };

    /// Sends whole frames, which are then taken, and after them the frames of an item, piece by piece. No other bytes come
    /// between. Returns the number of bytes.
    fn send_item(
        &mut self,
        frames: &mut Vec<u8>,
        item: &Item,
        delivery: Delivery,
    ) -> Result<u64, FrameFault>
        ensures ok { OnOk result (IsFalse (broken self.new)) }
        ensures err { OnErr result (IsTrue (broken self.new)) }
        ensures bytes { IsFalse (broken self.new)
            → IsFalse (broken self.old)
            × Appends (sent self.old) (sent self.new)
            (frames.old.items ++ sent_frames delivery item.now) };
}

impl<W: Write> Outlet for Sink<W> {
    ghost use Rattle.tab_sink.specs.Bytes.{is_broken, sink_bytes};

    ghost sent = { λ s. sink_bytes W.contents s };

    ghost broken = { λ s. is_broken s };

    fn send(&mut self, frames: &[u8]) -> Result<(), Broken> {
        self.put(frames)
    }

    fn send_reply(&mut self, frames: &mut Vec<u8>, reply: &Reply) -> Result<u64, FrameFault> {
        self.begin(frames)?;
        if let Err(fault) = write_reply(self, None, reply) {
            self.give_up();
            return Err(fault);
        }
        Ok(self.finish(frames)?)
    }

    fn send_item(
        &mut self,
        frames: &mut Vec<u8>,
        item: &Item,
        delivery: Delivery,
    ) -> Result<u64, FrameFault> {
        self.begin(frames)?;
        if let Err(fault) = write_item(self, item, delivery) {
            self.give_up();
            return Err(fault);
        }
        Ok(self.finish(frames)?)
    }
}

/// A sink that other threads use too. It is locked for each call.
#[derive(Drop)]
pub struct SharedSink<'a, R, W> {
    rt: &'a R,
    sink: &'a FrameSink<W>,
    failed: bool,
}

impl<'a, R: Wait, W: Write> SharedSink<'a, R, W> {
    /// Nothing has failed yet.
    pub fn new(rt: &'a R, sink: &'a FrameSink<W>) -> SharedSink<'a, R, W>
        ensures { result ≡ record { rt = rt.entry; sink = sink.entry; failed = false } }
    {
        SharedSink {
            rt,
            sink,
            failed: false,
        }
    }

    /// Sends a reply. The memory for its pieces is reserved before the first is written: otherwise a frame might stay
    /// unfinished.
    fn reply(&self, frames: &mut Vec<u8>, reply: &Reply) -> Result<u64, FrameFault> {
        frames.reserve(2 * KEPT)?;
        self.sink.hold(self.rt).send_reply(frames, reply)
    }

    /// Sends an item, with its memory reserved as that of a reply.
    fn item(
        &self,
        frames: &mut Vec<u8>,
        item: &Item,
        delivery: Delivery,
    ) -> Result<u64, FrameFault> {
        frames.reserve(2 * KEPT)?;
        self.sink.hold(self.rt).send_item(frames, item, delivery)
    }
}

impl<'a, R: Wait, W: Write> Outlet for SharedSink<'a, R, W> {
    ghost sent = { λ _. None };

    ghost broken = { λ s. s.failed };

    fn send(&mut self, frames: &[u8]) -> Result<(), Broken> {
        if self.failed {
            return Err(Broken);
        }
        let sent = self.sink.send(self.rt, frames);
        self.failed = sent.is_err();
        sent
    }

    fn send_reply(&mut self, frames: &mut Vec<u8>, reply: &Reply) -> Result<u64, FrameFault> {
        if self.failed {
            return Err(FrameFault::Device);
        }
        let sent = self.reply(frames, reply);
        self.failed = sent.is_err();
        sent
    }

    fn send_item(
        &mut self,
        frames: &mut Vec<u8>,
        item: &Item,
        delivery: Delivery,
    ) -> Result<u64, FrameFault> {
        if self.failed {
            return Err(FrameFault::Device);
        }
        let sent = self.item(frames, item, delivery);
        self.failed = sent.is_err();
        sent
    }
}
