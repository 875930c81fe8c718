//! The events that wait to be sent on a connection.

ghost use Rattle.std.specs.Prelude.{◌≡◌, [], IfNone, IsFalse, None};
ghost use Rattle.tab_post.specs.Ends.{received};
ghost use Rattle.tab_server.specs.Gathered.{Adds, Gathers};

use crate::dispatcher::Round;
use crate::events::is_long;
use crate::gate::{Count, Notes};
use std::alloc::Global;
use tab_model::SharedItem;
use tab_post::{Host, Inbox, Load};
use tab_proto::Delivery;
use tab_sink::kept::KEPT;

/// The thread that sends a connection's events.
#[derive(Clone, Copy, Debug, PartialEq, Eq)]
pub enum Turn {
    /// The dispatcher, which never blocks.
    Dispatcher,
    /// The connection's own thread, which may block.
    Own,
    /// The connection's own thread for the last time, since the session has left.
    Last,
}

/// The events that wait to be sent on a connection.
#[derive(Drop)]
pub struct Mail<H: Host> {
    pub inbox: Inbox<H>,
    /// The frames of items from the inbox, and the item after them if it is too long to be kept whole.
    pub frames: Vec<u8>,
    pub long: Option<SharedItem>,
    /// The items that were taken since the inbox was found empty.
    pub taken: Load,
    pub turn: Turn,
    /// True if memory was refused for an event.
    pub failed: bool,
}

/// The result of taking or sending a connection's events without blocking.
#[derive(Clone, Copy, Debug, PartialEq, Eq)]
pub enum Progress {
    /// The inbox was found empty.
    Done,
    /// The inbox may have more items.
    More,
    /// The connection's own thread has to go on.
    Stuck,
}

impl<H: Host> Mail<H> {
    /// Nothing is taken yet.
    pub fn new(alloc: Global, inbox: Inbox<H>) -> Mail<H>
        ensures inbox { result.inbox ≡ inbox }
        ensures frames { (result.frames.items ≡ []) × (result.long ≡ None) }
        ensures taken { result.taken ≡ record { items = 0; bytes = 0 } }
        ensures turn { (result.turn ≡ Turn.Dispatcher) × IsFalse result.failed }
    {
        Mail {
            inbox,
            frames: Vec::new(alloc),
            long: None,
            taken: Load::none(),
            turn: Turn::Dispatcher,
            failed: false,
        }
    }

    /// Takes items from the inbox and keeps their frames, until there are enough to send, or the inbox is empty, or the
    /// connection's own thread has to go on.
    pub fn gather<N: Notes>(
        &mut self,
        session: u32,
        delivery: Delivery,
        round: &mut Round<'_, H, N>,
    ) -> Progress
        ensures { IsFalse self.new.failed
            → Gathers delivery (received self.old.inbox) self.old.frames.items self.old.long
            (received self.new.inbox) self.new.frames.items self.new.long }
    {
        let host = round.host;
        for _ in host.forever() {
            if self.frames.len() >= KEPT {
                return Progress::More;
            }
            if let Some(end) = self.take(session, delivery, round) {
                return end;
            }
        }
        unreachable!()
    }

    /// Takes an item from the inbox, and keeps its frames. Otherwise it returns why it does not.
    fn take<N: Notes>(
        &mut self,
        session: u32,
        delivery: Delivery,
        round: &mut Round<'_, H, N>,
    ) -> Option<Progress>
        ensures gathers { IsFalse self.new.failed
            → Gathers delivery (received self.old.inbox) self.old.frames.items self.old.long
            (received self.new.inbox) self.new.frames.items self.new.long }
        ensures adds { IfNone result
            (Adds delivery (received self.old.inbox) self.old.frames.items
            (received self.new.inbox) self.new.frames.items × (self.new.long ≡ self.old.long)) }
    {
        let Some(item) = self.inbox.try_receive() else {
            return Some(Progress::Done);
        };
        self.taken = self.taken.with(&item);
        if is_long(&item) {
            self.long = Some(item);
            return Some(Progress::Stuck);
        }
        if round
            .last
            .append(&item, delivery, &mut self.frames)
            .is_err()
        {
            self.failed = true;
            return Some(Progress::Stuck);
        }
        round.notes.count_of(session, Count::Items, 1);
        None
    }
}
