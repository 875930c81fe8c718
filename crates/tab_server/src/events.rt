//! The events of one connection.

ghost use Rattle.std.specs.Prelude.{◌≡◌, ◌⊎◌, ◌++◌, [], ℕ, List, IfOk, OnOk};
ghost use Rattle.tab_post.specs.Ends.{mailbox_of, received};
ghost use Rattle.tab_post.specs.Rooms.{IsAfter, IsBelow, IsBelowSince};
ghost use Rattle.tab_proto.specs.Events.{sent_frames};
ghost use Rattle.tab_server.specs.Forwarded.{aside_frames, Forwards, NothingLeft};
ghost use Rattle.tab_server.specs.Sending.{Goes};

use crate::answers::Unwritten;
use crate::encoded::is_one;
use crate::gate::{Count, Note, Notes};
use crate::outlet::{Outlet, SharedSink};
use crate::server::Server;
use std::io::Write;
use tab_book::{Drained, Seat, Shared};
use tab_etf::event_len;
use tab_model::{Item, SharedItem};
use tab_post::{Host, Inbox, Load};
use tab_proto::{Delivery, append_item, append_overflow};
use tab_sink::FrameSink;
use tab_sink::kept::{KEPT, empty};
use tab_sink::pieces::{passes, reaches};

/// Sends what comes into the inbox, in order, until the session has left and nothing is left, or a write fails, or no
/// memory is found for an event. Items that are there at once are written at once.
pub fn event_loop<H: Host, W: Write, N: Notes>(
    server: &Server<'_, H, N>,
    seat: &Seat,
    inbox: &mut Inbox<H>,
    sink: &FrameSink<W>,
) {
    let mut frames = Vec::new(server.alloc);
    let mut events = Events {
        host: server.host,
        shared: server.shared,
        seat: *seat,
        inbox,
        frames: &mut frames,
        outlet: SharedSink::new(server.host, sink),
        delivery: server.settings.delivery,
        notes: server.gate,
    };
    let _ended = events.run();
}

/// Returns whether an item is longer than the bytes that are kept before they are sent. Only an item with records or
/// events can be long.
pub fn is_long(item: &SharedItem) -> bool {
    // No term is walked: an item has its bytes with it, and an event's frame has few more.
    if is_one(item.item()) && item.memory() < KEPT as u64 / 2 {
        return false;
    }
    let mut len = 0;
    match item.item() {
        Item::Began(_, _, Some(terms)) => { terms.iter().any(|term| reaches(&mut len, term)) }
        Item::Batch(_, events) => {
            events
                .as_slice()
                .iter()
                .any(|event| passes(&mut len, event_len(event.event())))
        }
        _ => false,
    }
}

/// The events of a session on their way to its connection.
#[derive(Drop)]
pub struct Events<'a, H: Host, O: Outlet, N: Notes> {
    pub host: &'a H,
    pub shared: &'a Shared<H>,
    pub seat: Seat,
    pub inbox: &'a mut Inbox<H>,
    pub frames: &'a mut Vec<u8>,
    pub outlet: O,
    pub delivery: Delivery,
    pub notes: &'a N,
}

impl<'a, H: Host, O: Outlet, N: Notes> Events<'a, H, O, N> {
    /// Sends what comes into the inbox, in order, until the session has left and nothing is left, or a call fails.
    pub fn run(&mut self) -> Result<(), Unwritten>
        ensures sent { OnOk result
            ((bytes : List ℕ)
            × Forwards self.old.seat self.old.delivery (mailbox_of self.old.inbox.now)
            (received self.old.inbox.now) (received self.new.inbox.now) bytes
            × Goes O.sent O.broken self.old.outlet self.old.frames.now.items
            self.new.outlet self.new.frames.now.items bytes) }
    {
        for _ in self.host.forever() {
            let Some(item) = self.inbox.receive() else {
                return Ok(());
            };
            self.keep(&item)?;
            let taken = Load::none().with(&item);
            // A send may block for long, and the item's records may be in no table any more.
            drop(item);
            self.send_waiting(taken)?;
        }
        unreachable!()
    }

    /// Sends an item that was put aside, if there is one, after the kept frames, and then all items that are in the inbox.
    pub fn resume(&mut self, long: Option<SharedItem>, taken: Load) -> Result<(), Unwritten>
        ensures sent { OnOk result
            ((bytes : List ℕ)
            × Forwards self.old.seat self.old.delivery (mailbox_of self.old.inbox.now)
            (received self.old.inbox.now) (received self.new.inbox.now) bytes
            × Goes O.sent O.broken self.old.outlet self.old.frames.now.items
            self.new.outlet self.new.frames.now.items
            (aside_frames self.old.delivery long ++ bytes)) }
        ensures whole { OnOk result (self.new.frames.now.items ≡ []) }
        ensures end { OnOk result
            (NothingLeft self.old.seat (mailbox_of self.old.inbox.now)
            (received self.new.inbox.now)
            ⊎ IsBelowSince self.old.shared.now.room taken (received self.old.inbox.now)
            (received self.new.inbox.now)) }
        ensures slots { (self.new.inbox.ghost_name ≡ self.old.inbox.ghost_name)
            × (self.new.frames.ghost_name ≡ self.old.frames.ghost_name) }
    {
        self.keep_aside(&long)?;
        drop(long);
        self.send_waiting(taken)
    }

    fn keep_aside(&mut self, long: &Option<SharedItem>) -> Result<(), Unwritten>
        ensures bytes { OnOk result
            (Goes O.sent O.broken self.old.outlet self.old.frames.now.items self.new.outlet
            self.new.frames.now.items (aside_frames self.old.delivery long.now)) }
        ensures shared { self.new.shared ≡ self.old.shared }
        ensures inbox { self.new.inbox.now ≡ self.old.inbox.now }
        ensures seat { self.new.seat ≡ self.old.seat }
        ensures delivery { self.new.delivery ≡ self.old.delivery }
        ensures slots { (self.new.inbox.ghost_name ≡ self.old.inbox.ghost_name)
            × (self.new.frames.ghost_name ≡ self.old.frames.ghost_name) }
    {
        match long {
            Some(item) => self.keep(item),
            None => Ok(()),
        }
    }

    /// Sends the kept frames, and all items that are in the inbox. `taken` was received since the inbox was found empty.
    /// A post refuses an item only if its mailbox is full, and the items of a full mailbox are received before the inbox
    /// is found empty. So if what was received makes no mailbox full, no item was refused, and the book need not be asked
    /// for an overflow.
    fn send_waiting(&mut self, taken: Load) -> Result<(), Unwritten>
        ensures sent { OnOk result
            ((bytes : List ℕ)
            × Forwards self.old.seat self.old.delivery (mailbox_of self.old.inbox.now)
            (received self.old.inbox.now) (received self.new.inbox.now) bytes
            × Goes O.sent O.broken self.old.outlet self.old.frames.now.items
            self.new.outlet self.new.frames.now.items bytes) }
        ensures whole { OnOk result (self.new.frames.now.items ≡ []) }
        ensures mailbox { mailbox_of self.new.inbox.now ≡ mailbox_of self.old.inbox.now }
        ensures seat { self.new.seat ≡ self.old.seat }
        ensures delivery { self.new.delivery ≡ self.old.delivery }
        ensures end { OnOk result
            (NothingLeft self.old.seat (mailbox_of self.old.inbox.now)
            (received self.new.inbox.now)
            ⊎ IsBelowSince self.old.shared.now.room taken (received self.old.inbox.now)
            (received self.new.inbox.now)) }
        ensures slots { (self.new.inbox.ghost_name ≡ self.old.inbox.ghost_name)
            × (self.new.frames.ghost_name ≡ self.old.frames.ghost_name) }
    {
        let received = self.keep_waiting(taken)?;
        self.keep_missed(received)?;
        self.send()
    }

    /// Keeps the remaining items and an overflow, if so much was received that an item may have been refused.
    fn keep_missed(&mut self, taken: Load) -> Result<(), Unwritten>
        ensures sent { OnOk result
            ((bytes : List ℕ)
            × Forwards self.old.seat self.old.delivery (mailbox_of self.old.inbox.now)
            (received self.old.inbox.now) (received self.new.inbox.now) bytes
            × Goes O.sent O.broken self.old.outlet self.old.frames.now.items
            self.new.outlet self.new.frames.now.items bytes) }
        ensures mailbox { mailbox_of self.new.inbox.now ≡ mailbox_of self.old.inbox.now }
        ensures seat { self.new.seat ≡ self.old.seat }
        ensures delivery { self.new.delivery ≡ self.old.delivery }
        ensures end { OnOk result
            (NothingLeft self.old.seat (mailbox_of self.old.inbox.now)
            (received self.new.inbox.now)
            ⊎ IsBelow self.old.shared.now.room taken × (self.new.inbox.now ≡ self.old.inbox.now)) }
        ensures slots { (self.new.inbox.ghost_name ≡ self.old.inbox.ghost_name)
            × (self.new.frames.ghost_name ≡ self.old.frames.ghost_name) }
    {
        if !self.shared.room().is_full_of(taken) {
            return Ok(());
        }
        self.keep_rest()
    }

    /// Keeps all items that are in the inbox, and returns what was received with them.
    fn keep_waiting(&mut self, mut taken: Load) -> Result<Load, Unwritten>
        ensures sent { OnOk result
            ((bytes : List ℕ)
            × Forwards self.old.seat self.old.delivery (mailbox_of self.old.inbox.now)
            (received self.old.inbox.now) (received self.new.inbox.now) bytes
            × Goes O.sent O.broken self.old.outlet self.old.frames.now.items
            self.new.outlet self.new.frames.now.items bytes) }
        ensures mailbox { mailbox_of self.new.inbox.now ≡ mailbox_of self.old.inbox.now }
        ensures seat { self.new.seat ≡ self.old.seat }
        ensures delivery { self.new.delivery ≡ self.old.delivery }
        ensures count { IfOk result
            (IsAfter taken (received self.old.inbox.now) (received self.new.inbox.now)) }
        ensures shared { self.new.shared ≡ self.old.shared }
        ensures slots { (self.new.inbox.ghost_name ≡ self.old.inbox.ghost_name)
            × (self.new.frames.ghost_name ≡ self.old.frames.ghost_name) }
    {
        for _ in self.host.forever() {
            let Some(item) = self.inbox.try_receive() else {
                return Ok(taken);
            };
            self.keep(&item)?;
            taken = taken.with(&item);
        }
        unreachable!()
    }

    /// Keeps the remaining items, and an overflow that was not reported yet.
    fn keep_rest(&mut self) -> Result<(), Unwritten>
        ensures sent { OnOk result
            ((bytes : List ℕ)
            × Forwards self.old.seat self.old.delivery (mailbox_of self.old.inbox.now)
            (received self.old.inbox.now) (received self.new.inbox.now) bytes
            × Goes O.sent O.broken self.old.outlet self.old.frames.now.items
            self.new.outlet self.new.frames.now.items bytes) }
        ensures mailbox { mailbox_of self.new.inbox.now ≡ mailbox_of self.old.inbox.now }
        ensures seat { self.new.seat ≡ self.old.seat }
        ensures delivery { self.new.delivery ≡ self.old.delivery }
        ensures end { OnOk result
            (NothingLeft self.old.seat (mailbox_of self.old.inbox.now)
            (received self.new.inbox.now)) }
        ensures slots { (self.new.inbox.ghost_name ≡ self.old.inbox.ghost_name)
            × (self.new.frames.ghost_name ≡ self.old.frames.ghost_name) }
    {
        for _ in self.host.forever() {
            match self.shared.drained(self.host, &self.seat, self.inbox) {
                Drained::Going(item) => self.keep(&item)?,
                Drained::Overflow(number) => {
                    self.notes
                        .note(Note::Overflowed(self.seat.session(), number));
                    append_overflow(number, self.frames)?;
                }
                Drained::AllTaken | Drained::Left => return Ok(()),
            }
        }
        unreachable!()
    }

    /// Keeps an item, until some are sent at once.
    fn keep(&mut self, item: &SharedItem) -> Result<(), Unwritten>
        ensures bytes { OnOk result
            (Goes O.sent O.broken self.old.outlet self.old.frames.now.items self.new.outlet
            self.new.frames.now.items (sent_frames self.old.delivery item.now)) }
        ensures shared { self.new.shared ≡ self.old.shared }
        ensures inbox { self.new.inbox.now ≡ self.old.inbox.now }
        ensures seat { self.new.seat ≡ self.old.seat }
        ensures delivery { self.new.delivery ≡ self.old.delivery }
        ensures slots { (self.new.inbox.ghost_name ≡ self.old.inbox.ghost_name)
            × (self.new.frames.ghost_name ≡ self.old.frames.ghost_name) }
    {
        if is_long(item) {
            self.send_long(item.item())?;
        } else {
            append_item(item.item(), self.delivery, self.frames)?;
        }
        self.notes.count_of(self.seat.session(), Count::Items, 1);
        if self.frames.len() >= KEPT {
            self.send()?;
        }
        Ok(())
    }

    /// Sends an item after those that are kept, piece by piece.
    fn send_long(&mut self, item: &Item) -> Result<(), Unwritten>
        ensures bytes { OnOk result
            (Goes O.sent O.broken self.old.outlet self.old.frames.now.items self.new.outlet
            self.new.frames.now.items (sent_frames self.old.delivery item.now)) }
        ensures shared { self.new.shared ≡ self.old.shared }
        ensures inbox { self.new.inbox.now ≡ self.old.inbox.now }
        ensures seat { self.new.seat ≡ self.old.seat }
        ensures delivery { self.new.delivery ≡ self.old.delivery }
        ensures slots { (self.new.inbox.ghost_name ≡ self.old.inbox.ghost_name)
            × (self.new.frames.ghost_name ≡ self.old.frames.ghost_name) }
    {
        let written = self.outlet.send_item(self.frames, item, self.delivery)?;
        self.notes
            .count_of(self.seat.session(), Count::Written, written);
        empty(self.frames);
        Ok(())
    }

    /// Sends what is kept.
    fn send(&mut self) -> Result<(), Unwritten>
        ensures bytes { OnOk result
            (Goes O.sent O.broken self.old.outlet self.old.frames.now.items self.new.outlet
            self.new.frames.now.items []) }
        ensures whole { OnOk result (self.new.frames.now.items ≡ []) }
        ensures shared { self.new.shared ≡ self.old.shared }
        ensures inbox { self.new.inbox.now ≡ self.old.inbox.now }
        ensures seat { self.new.seat ≡ self.old.seat }
        ensures delivery { self.new.delivery ≡ self.old.delivery }
        ensures slots { (self.new.inbox.ghost_name ≡ self.old.inbox.ghost_name)
            × (self.new.frames.ghost_name ≡ self.old.frames.ghost_name) }
    {
        self.outlet.send(self.frames)?;
        let written = self.frames.len() as u64;
        self.notes
            .count_of(self.seat.session(), Count::Written, written);
        empty(self.frames);
        Ok(())
    }
}
