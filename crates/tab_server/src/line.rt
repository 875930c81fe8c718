//! The writing end of a connection, for replies and events.

ghost use Rattle.std.specs.Prelude.{◌≡◌, ◌⊎◌, [], ℕ, List, None, OnOk};
ghost use Rattle.tab_post.specs.Ends.{mailbox_of, received};
ghost use Rattle.tab_post.specs.Rooms.{IsBelowSince};
ghost use Rattle.tab_server.specs.Forwarded.{Forwards, NothingLeft};

use crate::answers::Unwritten;
use crate::dispatcher::{Dispatcher, Round};
use crate::events::{Events, event_loop};
use crate::gate::{Count, Notes};
use crate::mail::{Mail, Progress, Turn};
use crate::outlet::SharedSink;
use crate::server::Server;
use std::alloc::Global;
use std::mem;
use std::net::TcpStream;
use std::sync::atomic::{AtomicBool, Ordering};
use std::sync::{Condvar, Mutex, Wait};
use tab_book::Seat;
use tab_post::{Host, Inbox, Load};
use tab_proto::Delivery;
use tab_sink::FrameSink;

/// The writing end of a connection. The dispatcher sends its events as long as the connection takes them without
/// blocking. The connection's own thread sends if the connection is full or an item is long. It also asks the book for an
/// overflow.
#[derive(Drop)]
pub struct Line<H: Host> {
    pub sink: FrameSink<TcpStream>,
    seat: Seat,
    delivery: Delivery,
    mail: Mutex<Mail<H>>,
    changed: Condvar,
    /// True if the session has ever subscribed.
    watches: AtomicBool,
}

impl<H: Host> Line<H> {
    /// Creates the writing end of a connection on which nothing is sent yet.
    pub fn new(
        alloc: Global,
        writer: TcpStream,
        seat: Seat,
        inbox: Inbox<H>,
        delivery: Delivery,
    ) -> Line<H>
        ensures seat { result.seat ≡ seat }
        ensures delivery { result.delivery ≡ delivery }
    {
        Line {
            sink: FrameSink::new(writer),
            seat,
            delivery,
            mail: Mutex::new(Mail::new(alloc, inbox)),
            changed: Condvar::new(),
            watches: AtomicBool::new(false),
        }
    }

    /// Returns the name of the session in the book.
    pub fn seat(&self) -> &Seat
        ensures { result.now ≡ self.now.seat }
    {
        &self.seat
    }

    /// Returns the session's number.
    pub fn session(&self) -> u32
        ensures { result ≡ self.now.seat }
    {
        self.seat.session()
    }

    /// Records that the session subscribes. Returns whether it does for the first time.
    pub fn begin_watching(&self) -> bool {
        !self.watches.swap(true, Ordering::SeqCst)
    }

    /// Returns whether the session has ever subscribed.
    pub fn watches(&self) -> bool {
        self.watches.load(Ordering::SeqCst)
    }

    /// Records that the session has left. The connection's own thread sends the remaining events, and ends.
    pub fn end<R: Wait>(&self, rt: &R) {
        self.mail.lock(rt).turn = Turn::Last;
        self.changed.notify_all();
    }

    /// Sends the waiting events without blocking, if it is the dispatcher's turn. Returns true if more may wait.
    pub fn send_now<N: Notes>(&self, round: &mut Round<'_, H, N>) -> bool {
        let Some(mut mail) = self.mail.try_lock() else {
            return false;
        };
        if mail.turn != Turn::Dispatcher {
            return false;
        }
        match self.advance(&mut mail, round) {
            Progress::Done => false,
            Progress::More => true,
            Progress::Stuck => {
                mail.turn = Turn::Own;
                drop(mail);
                self.changed.notify_all();
                false
            }
        }
    }

    fn advance<N: Notes>(&self, mail: &mut Mail<H>, round: &mut Round<'_, H, N>) -> Progress {
        let gathered = mail.gather(self.session(), self.delivery, round);
        let notes = round.notes;
        if !mail.frames.is_empty() {
            let len = mail.frames.len() as u64;
            if !self.sink.try_send(&mut mail.frames).unwrap_or(false) {
                if mail.frames.is_empty() {
                    notes.count_of(self.session(), Count::Written, len);
                }
                return Progress::Stuck;
            }
            notes.count_of(self.session(), Count::Written, len);
        }
        if matches!(gathered, Progress::Done) {
            if round.room.is_full_of(mail.taken) {
                return Progress::Stuck;
            }
            mail.taken = Load::none();
        }
        gathered
    }

    /// Sends events in the connection's own thread whenever it is its turn. It ends after the session has left and all events
    /// are sent, or if a write fails, or if memory is refused for an event.
    pub fn send_turns<N: Notes>(&self, server: &Server<'_, H, N>, dispatcher: &Dispatcher<H>) {
        let host = server.host;
        for _ in host.forever() {
            let mut mail = self.changed.wait_while(
                host,
                self.mail.lock(host),
                |mail| mail.turn == Turn::Dispatcher,
            );
            if mail.failed || self.send_all(server, &mut mail).is_err() {
                return;
            }
            if mail.turn == Turn::Last {
                return;
            }
            mail.turn = Turn::Dispatcher;
            drop(mail);
            // The dispatcher sends the items that have come since the inbox was found empty.
            dispatcher.ring();
        }
    }

    /// Sends all events in the connection's own thread, without the dispatcher, until `event_loop` ends.
    pub fn send_alone<N: Notes>(&self, server: &Server<'_, H, N>) {
        let mut mail = self.mail.lock(server.host);
        event_loop(server, &self.seat, &mut mail.inbox, &self.sink);
    }

    fn send_all<N: Notes>(
        &self,
        server: &Server<'_, H, N>,
        mail: &mut Mail<H>,
    ) -> Result<(), Unwritten>
        ensures long { mail.new.long ≡ None }
        ensures whole { OnOk result (mail.new.frames.items ≡ []) }
        ensures sent { OnOk result
            ((bytes : List ℕ)
            × Forwards self.now.seat self.now.delivery (mailbox_of mail.old.inbox)
            (received mail.old.inbox) (received mail.new.inbox) bytes) }
        ensures end { OnOk result
            (NothingLeft self.now.seat (mailbox_of mail.old.inbox) (received mail.new.inbox)
            ⊎ IsBelowSince server.now.shared.now.room mail.old.taken (received mail.old.inbox)
            (received mail.new.inbox)) }
    {
        let long = mail.long.take();
        let taken = mem::replace(&mut mail.taken, Load::none());
        let mut events = Events {
            host: server.host,
            shared: server.shared,
            seat: self.seat,
            inbox: &mut mail.inbox,
            frames: &mut mail.frames,
            outlet: SharedSink::new(server.host, &self.sink),
            delivery: self.delivery,
            notes: server.gate,
        };
        events.resume(long, taken)
    }
}
