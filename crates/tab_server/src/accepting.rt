//! Connections are accepted, each with threads of its own.

use crate::connection::{Connection, Streams};
use crate::dispatcher::Dispatcher;
use crate::gate::{Gate, Note, Notes};
use crate::listener::Listener;
use crate::requests::{Ending, serve_session};
use crate::server::Server;
use crate::settings::Settings;
use crate::troubles::Troubles;
use std::alloc::Global;
use std::io::Write;
use std::sync::Wait;
use std::thread::Threads;
use std::{io, thread};
use tab_book::{JoinFault, Seat};
use tab_model::{Limit, Reply};
use tab_post::{Host, Inbox};
use tab_proto::append_reply;
use tab_sink::{RequestStream, Senders};

impl<'a, H: Host + Threads + Send + Sync, G: Gate + Notes + Sync> Server<'a, H, G> {
    /// Accepts `connections` connections, or those that come before the gate closes, and serves each until its session has
    /// ended. It ends when all have. A failed accept ends the accepting. It is returned as the error if the gate is open.
    pub fn serve(&self, listener: &Listener, connections: u32) -> io::Result<()> {
        Serving::new(self).run(listener, Some(connections))
    }

    /// Serves connections until the gate closes, not more at once than the book has room for sessions. One that finds no
    /// room is refused and closed. If an accept, a join or a thread is refused, it reports that, and goes on after a pause.
    pub fn serve_forever(&self, listener: &Listener) {
        let _served = Serving::new(self).run(listener, None);
    }
}

/// A server that accepts connections, and what their threads share only meanwhile.
#[derive(Drop)]
struct Serving<'a, H: Host, G> {
    server: &'a Server<'a, H, G>,
    dispatcher: Dispatcher<H>,
    senders: Senders,
}

impl<'a, H: Host + Threads + Send + Sync, G: Gate + Notes + Sync> Serving<'a, H, G> {
    fn new(server: &'a Server<'a, H, G>) -> Serving<'a, H, G> {
        Serving {
            server,
            dispatcher: Dispatcher::new(server.alloc, server.shared.room()),
            senders: Senders::new(),
        }
    }

    /// Serves `connections` connections, or without that number those that come before the gate closes. The dispatcher, a
    /// thread of its own, sends their events. If it can't be started, each connection's own thread sends them.
    fn run(&self, listener: &Listener, connections: Option<u32>) -> io::Result<()> {
        thread::scope(thread::scope_env(), self.server.host, |scope| {
            let started = scope.spawn(move || self.dispatch());
            if started.is_ok() {
                self.dispatcher.begin();
            }
            let served = match connections {
                Some(count) => self.serve_some(listener, count),
                None => {
                    self.serve_all(listener);
                    Ok(())
                }
            };
            self.dispatcher.end();
            served
        })
    }

    fn dispatch(&self) {
        let server = self.server;
        self.dispatcher.run(server.host, server.alloc, server.gate);
    }

    fn serve_some(&self, listener: &Listener, connections: u32) -> io::Result<()> {
        let server = self.server;
        thread::scope(thread::scope_env(), server.host, |scope| {
            for _ in 0..connections {
                let accepted = match listener.accept() {
                    Err(_) if server.gate.is_closing() => return Ok(()),
                    accepted => accepted?,
                };
                let Ok(streams) = Streams::of(accepted, server.settings) else {
                    continue;
                };
                let Ok((seat, inbox)) = server.shared.join(server.host, &mut server.shared.seen())
                else {
                    continue;
                };
                let started = scope.spawn(move || self.serve_connection(&seat, inbox, streams));
                if started.is_err() {
                    server
                        .shared
                        .leave(server.host, &seat, &mut server.shared.seen());
                }
            }
            Ok(())
        })
    }

    fn serve_all(&self, listener: &Listener) {
        let server = self.server;
        let mut troubles = Troubles::new(server.gate);
        thread::scope(thread::scope_env(), server.host, |scope| {
            for _ in server.host.forever() {
                let Ok(streams) = accepted(listener, server.settings) else {
                    if server.gate.is_closing() {
                        return;
                    }
                    troubles.tell(server.host, Note::NotAccepted);
                    continue;
                };
                let (seat, inbox) = match server
                    .shared
                    .join(server.host, &mut server.shared.seen())
                {
                    Ok(joined) => joined,
                    Err(JoinFault::Limit) => {
                        server.gate.note(Note::NoSeat);
                        turn_away(server.alloc, streams);
                        continue;
                    }
                    Err(JoinFault::NoMemory) => {
                        troubles.tell(server.host, Note::NoMemory);
                        continue;
                    }
                };
                let started = scope.spawn(move || self.serve_connection(&seat, inbox, streams));
                if started.is_err() {
                    server
                        .shared
                        .leave(server.host, &seat, &mut server.shared.seen());
                    troubles.tell(server.host, Note::NoThread);
                    continue;
                }
                troubles.are_over();
            }
        });
    }

    /// Serves one session's connection until it has ended.
    fn serve_connection(&self, seat: &Seat, inbox: Inbox<H>, mut streams: Streams) {
        let server = self.server;
        let handle = streams.take_handle();
        let Ok((connection, reader)) = Connection::new(server, streams, *seat, inbox) else {
            server
                .shared
                .leave(server.host, seat, &mut server.shared.seen());
            server.gate.note(Note::NoMemory);
            return;
        };
        let session = seat.session();
        server.gate.connected(session, &connection.stream, handle);
        server.gate.note(Note::Started(session));
        let requests = RequestStream::new(reader, &self.senders, session);
        let ending = self.serve_streams(&connection, requests);
        server
            .shared
            .leave(server.host, seat, &mut server.shared.seen());
        self.dispatcher.remove(server.host, &connection.line);
        if matches!(ending, Ending::Idle) || connection.has_stalled(server.host) {
            server.gate.note(Note::Idle(session));
        }
        server.gate.note(Note::Ended(session));
    }

    /// Answers requests in this thread, with a thread that sends events and one that watches. It answers nothing if one of
    /// them can't be started.
    fn serve_streams(&self, connection: &Connection<H>, mut requests: RequestStream<'_>) -> Ending {
        let server = self.server;
        thread::scope(thread::scope_env(), server.host, |scope| {
            let watching = scope.spawn(move || connection.watch_for(self.server));
            if watching.is_err() {
                server.gate.note(Note::NoThread);
                return Ending::Over;
            }
            let sending = scope.spawn(move || connection.send_events(
                self.server,
                &self.dispatcher,
            ));
            if sending.is_err() {
                connection.watch.stop(server.host);
                server.gate.note(Note::NoThread);
                return Ending::Over;
            }
            serve_session(server, &self.dispatcher, connection, &mut requests)
        })
    }
}

fn accepted(listener: &Listener, settings: Settings) -> io::Result<Streams> {
    Streams::of(listener.accept()?, settings)
}

/// Refuses a connection for which there is no room, and closes it.
fn turn_away(alloc: Global, streams: Streams) {
    let mut stream = streams.writer();
    let mut frame = Vec::new(alloc);
    if append_reply(None, &Reply::SystemLimit(Limit::Sessions), &mut frame).is_ok() {
        let _told = stream.write_all(&frame);
    }
}
