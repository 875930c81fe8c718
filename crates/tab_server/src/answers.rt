//! Replies that are kept, and written at once.

ghost use Rattle.std.specs.Prelude.{◌≡◌, IsTrue, OnErr, OnOk, [], None};
ghost use Rattle.tab_server.specs.Sending.{Goes, reply_frame};

use crate::gate::{Count, Gate};
use crate::outlet::Outlet;
use std::alloc::Global;
use tab_etf::{Broken, EncodeFault, FrameFault};
use tab_model::Reply;
use tab_proto::append_reply_within;
use tab_sink::kept::{KEPT, LONG, empty};

/// Replies of a session, in order: requests that came in one piece are answered in one write.
#[derive(Drop)]
pub struct Answers<'a, O: Outlet, G: Gate> {
    outlet: O,
    gate: &'a G,
    session: u32,
    frames: Vec<u8>,
    /// The calls that were answered, and those of which the reply is written.
    answered: u64,
    written: u64,
}

/// The reason that a session ends before its stream: a write failed, or a reply or an item can't be written.
#[derive(Clone, Copy, Debug, PartialEq, Eq)]
pub struct Unwritten;

impl From<Broken> for Unwritten {
    fn from(_: Broken) -> Unwritten {
        Unwritten
    }
}

impl From<EncodeFault> for Unwritten {
    fn from(_: EncodeFault) -> Unwritten {
        Unwritten
    }
}

impl From<FrameFault> for Unwritten {
    fn from(_: FrameFault) -> Unwritten {
        Unwritten
    }
}

impl<'a, O: Outlet, G: Gate> Answers<'a, O, G> {
    /// None yet.
    pub fn new(alloc: Global, outlet: O, gate: &'a G, session: u32) -> Answers<'a, O, G>
        ensures { (result.outlet ≡ outlet) × (result.frames.items ≡ []) }
    {
        Answers {
            outlet,
            gate,
            session,
            frames: Vec::new(alloc),
            answered: 0,
            written: 0,
        }
    }

    /// The counters.
    pub fn counts(&self) -> &'a G
        ensures { result ≡ self.now.gate }
    {
        self.gate
    }

    /// The next call is read.
    pub fn begin(&self) {
        self.gate
            .before(self.session, self.answered.saturating_add(1));
    }

    /// Keeps the reply to it, until some are written at once.
    pub fn keep(&mut self, reply: &Reply) -> Result<(), Unwritten>
        ensures bytes { OnOk result (Goes O.sent O.broken self.old.outlet self.old.frames.items
            self.new.outlet self.new.frames.items (reply_frame reply.now)) }
        ensures err { OnErr result (IsTrue (O.broken self.new.outlet)) }
    {
        // If there is no memory to keep it in, it may still go in pieces.
        let is_kept = append_reply_within(None, reply, LONG, &mut self.frames).unwrap_or(false);
        if !is_kept {
            self.send_long(reply)?;
        }
        self.answered = self.answered.saturating_add(1);
        if self.frames.len() >= KEPT {
            self.write()?;
        }
        Ok(())
    }

    /// Sends a reply after those that are kept, piece by piece.
    fn send_long(&mut self, reply: &Reply) -> Result<(), Unwritten>
        ensures bytes { OnOk result (Goes O.sent O.broken self.old.outlet self.old.frames.items
            self.new.outlet self.new.frames.items (reply_frame reply.now)) }
        ensures err { OnErr result (IsTrue (O.broken self.new.outlet)) }
    {
        // The memory of the frame that was not kept would stay for as long as the reply is on its way.
        self.frames.shrink_to(3 * KEPT);
        let written = self.outlet.send_reply(&mut self.frames, reply)?;
        self.gate.count_of(self.session, Count::Written, written);
        empty(&mut self.frames);
        Ok(())
    }

    /// Writes those that are kept. It reports to the gate each call that was answered, also one whose reply was sent
    /// before.
    pub fn write(&mut self) -> Result<(), Broken>
        ensures told { OnOk result (self.new.written ≡ self.new.answered) }
        ensures whole { OnOk result (self.new.frames.items ≡ []) }
        ensures bytes { Goes O.sent O.broken self.old.outlet self.old.frames.items
            self.new.outlet self.new.frames.items [] }
        ensures err { OnErr result (IsTrue (O.broken self.new.outlet)) }
    {
        if !self.frames.is_empty() {
            self.outlet.send(&self.frames)?;
            self.gate
                .count_of(self.session, Count::Written, self.frames.len() as u64);
            empty(&mut self.frames);
        }
        for call in self.written..self.answered {
            self.gate.after(self.session, call.saturating_add(1));
        }
        self.written = self.answered;
        Ok(())
    }
}
