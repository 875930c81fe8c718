//! Sessions of a shared book. What only sends commands and takes items is generic over these traits, since each function that
//! names the book's type has all of it in its proof.

use std::alloc::AllocError;
use std::test::Fail;
use tab_book::{Drained, Seat, Shared};
use tab_lists::EventTerms;
use tab_model::{Command, Item, SharedReply};
use tab_post::{Host, Inbox};

/// A session that sends commands.
pub trait Caller {
    /// The reply, after a wait if there has to be one.
    fn call(&self, command: Command) -> Result<SharedReply, AllocError>;
}

/// A session that takes items.
pub trait Watcher {
    /// The next item, as a number.
    fn shown(&mut self) -> u64;
}

/// A session of a shared book.
#[derive(Drop)]
pub struct Client<'a, H: Host> {
    pub host: &'a H,
    pub shared: &'a Shared<H>,
    pub seat: Seat,
}

impl<'a, H: Host> Caller for Client<'a, H> {
    fn call(&self, command: Command) -> Result<SharedReply, AllocError> {
        self.shared
            .call(self.host, &self.seat, command, &mut self.shared.seen())
    }
}

/// A session with an inbox, which may be another's.
#[derive(Drop)]
pub struct Taking<'a, H: Host> {
    pub host: &'a H,
    pub shared: &'a Shared<H>,
    pub seat: Seat,
    pub inbox: Inbox<H>,
}

impl<'a, H: Host> Watcher for Taking<'a, H> {
    fn shown(&mut self) -> u64 {
        let drained = self.shared.drained(self.host, &self.seat, &mut self.inbox);
        shown_as(&drained)
    }
}

/// An inbox's next item as a number: a batch of one event is 100 and its commit, an overflow 200 and its commit.
fn shown_as(drained: &Drained) -> u64 {
    match drained {
        Drained::Going(item) => number_in(item.item()),
        Drained::AllTaken => ALL_TAKEN,
        Drained::Overflow(number) => number.saturating_add(200),
        Drained::Left => LEFT,
    }
}

fn number_in(item: &Item) -> u64 {
    match item {
        Item::Began(..) => BEGAN,
        Item::Batch(commit, events) if is_one(events) => commit.saturating_add(100),
        _ => 0,
    }
}

fn is_one(events: &EventTerms) -> bool {
    events.as_slice().len() == 1
}

pub const ALL_TAKEN: u64 = 1;

pub const BEGAN: u64 = 2;

pub const LEFT: u64 = 3;

/// So many sessions join.
pub fn join_all<H: Host>(
    host: &H,
    shared: &Shared<H>,
    count: usize,
    sessions: &mut Vec<Seat>,
    inboxes: &mut Vec<Inbox<H>>,
) -> Result<(), Fail> {
    for _ in 0..count {
        let (seat, inbox) = shared.join(host, &mut shared.seen()).map_err(|_| "join")?;
        sessions.push(seat)?;
        inboxes.push(inbox)?;
    }
    Ok(())
}
