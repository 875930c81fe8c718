//! What the threads of a connection share.

ghost use Rattle.std.specs.Prelude.{◌≡◌, IfOk, None, is_some};
ghost use Rattle.std.specs.Arc.{arc_value};

use crate::dispatcher::Dispatcher;
use crate::gate::Notes;
use crate::line::Line;
use crate::listener::{Accepted, Family};
use crate::next::{Next, next_on};
use crate::server::Server;
use crate::settings::{Settings, duration};
use crate::troubles::pause;
use crate::watch::Watch;
use std::alloc::{AllocError, Global};
use std::io;
use std::net::TcpStream;
use std::sync::{Arc, Wait};
use tab_book::Seat;
use tab_post::{Host, Inbox};

/// A connection's stream, and what is written to it.
#[derive(Drop)]
pub struct Connection<H: Host> {
    pub line: Arc<Line<H>, Global>,
    pub watch: Watch,
    pub stream: TcpStream,
    family: Family,
}

/// A connection's stream, once to read from it, once to write to it and once to watch it.
#[derive(Drop)]
pub struct Streams {
    reader: TcpStream,
    writer: TcpStream,
    stream: TcpStream,
    /// The descriptor by which another thread can end the connection.
    handle: Option<TcpStream>,
    family: Family,
}

impl Streams {
    /// Returns an error if no descriptor is left for one, or a limit of time can't be set.
    pub fn of(accepted: Accepted, settings: Settings) -> io::Result<Streams>
        ensures family { IfOk result (λ streams. streams.family ≡ accepted.family) }
        ensures handle { IfOk result (λ streams. is_some streams.handle ≡ settings.handles) }
    {
        let Accepted { stream, family } = accepted;
        family.set_nodelay(&stream);
        stream.set_read_timeout(duration(settings.tick()))?;
        stream.set_write_timeout(duration(settings.idle))?;
        let handle = if settings.handles {
            Some(stream.try_clone()?)
        } else {
            None
        };
        Ok(Streams {
            reader: stream.try_clone()?,
            writer: stream.try_clone()?,
            stream,
            handle,
            family,
        })
    }

    /// Takes the descriptor by which another thread can end the connection.
    pub fn take_handle(&mut self) -> Option<TcpStream>
        ensures taken { result ≡ self.old.handle }
        ensures left { self.new ≡ record self.old { handle = None } }
    {
        self.handle.take()
    }

    /// Returns the stream to write to, and drops the others.
    pub fn writer(self) -> TcpStream
        ensures { result ≡ self.writer }
    {
        let Streams {
            reader: _,
            writer,
            stream: _,
            handle: _,
            family: _,
        } = self;
        writer
    }
}

impl<H: Host> Connection<H> {
    /// Returns the session's connection, and the stream that its requests are read from.
    pub fn new<G>(
        server: &Server<'_, H, G>,
        streams: Streams,
        seat: Seat,
        inbox: Inbox<H>,
    ) -> Result<(Connection<H>, TcpStream), AllocError>
        ensures line { IfOk result (λ made. ((arc_value made.0.line).seat ≡ seat)
            × ((arc_value made.0.line).delivery ≡ server.now.settings.delivery)) }
        ensures stream { IfOk result (λ made. (made.0.stream ≡ streams.stream)
            × (made.0.family ≡ streams.family)) }
        ensures reader { IfOk result (λ made. made.1 ≡ streams.reader) }
    {
        let Streams {
            reader,
            writer,
            stream,
            handle: _,
            family,
        } = streams;
        let delivery = server.settings.delivery;
        let line = Line::new(server.alloc, writer, seat, inbox, delivery);
        let connection = Connection {
            line: Arc::new(server.alloc, line)?,
            watch: Watch::new(),
            stream,
            family,
        };
        Ok((connection, reader))
    }

    /// Sends the session's events that the dispatcher does not send, until the session has left or sending fails. Then it
    /// closes the connection.
    pub fn send_events<N: Notes>(&self, server: &Server<'_, H, N>, dispatcher: &Dispatcher<H>) {
        if dispatcher.add(server.host, &self.line) {
            dispatcher.ring();
            self.line.send_turns(server, dispatcher);
        } else {
            self.line.send_alone(server);
        }
        self.family.close(&self.stream);
    }

    /// Watches the stream while a request waits for a lock. At the end of the stream the session leaves, and an abort
    /// ends the wait. If other requests are in the stream, it sees neither, only that the client has broken off.
    pub fn watch_for<G>(&self, server: &Server<'_, H, G>) {
        let host = server.host;
        for _ in host.forever() {
            let Some(wait) = self.watch.wanted(host) else {
                return;
            };
            match next_on(server.alloc, &self.stream, wait.hears) {
                // An end that comes later, while no request waits, is for the thread that reads.
                Next::End if self.watch.waits(host, wait) => {
                    self.leave(server);
                    return;
                }
                Next::Abort => {
                    if self.watch.abort(host, wait) {
                        server.shared.wake(self.line.seat());
                    }
                    self.watch.over(host, wait);
                }
                Next::Other | Next::Part if self.has_broken_off() && self.watch.waits(host, wait) =>
                    {
                        self.leave(server);
                        return;
                    }
                Next::Other | Next::Part => pause(host),
                // It waits for longer than it may be idle, which is not by its own doing.
                Next::End | Next::Nothing => {}
            }
        }
    }

    fn leave<G>(&self, server: &Server<'_, H, G>) {
        server
            .shared
            .leave(server.host, self.line.seat(), &mut server.shared.seen());
        self.line.end(server.host);
    }

    /// Returns whether the client has read nothing for longer than it may be idle: a write has failed, and the stream
    /// is still open.
    pub fn has_stalled<R: Wait>(&self, rt: &R) -> bool {
        matches!(self.stream.write_timeout(), Ok(Some(_)))
            && self.line.sink.is_broken(rt)
            && !self.has_broken_off()
    }

    fn has_broken_off(&self) -> bool {
        self.family.has_broken_off(&self.stream)
    }
}
