//! A server that ends after the end of its standard input.

use crate::Ended;
use crate::ending::End;
use crate::serving::{Listening, serve_timed};
use crate::slow::Slow;
use std::net::{Shutdown, TcpStream};
use std::thread;
use std::thread::Threads;
use std::time::Duration;
use tab_book::Shared;
use tab_etf::Target;
use tab_metrics::{Closing, Paged, Roster};
use tab_post::Host;
use tab_server::{Gate, Notes, Server};
use tab_words::Service;

/// The most seconds that an open transaction goes on after the end of standard input, without `--idle`.
const PATIENCE: u32 = 10;

/// The seconds from then on until connections are shut down for writing too.
const GRACE: u64 = 2;

/// The standard input of a server, and its connections.
pub trait Drained: Paged {
    /// Clients are served from now on.
    fn begin_serving(&self);

    /// Returns whether clients are served.
    fn has_begun(&self) -> bool;

    /// Waits until standard input ends, or a read of it fails.
    fn wait_for_end(&self);

    fn roster(&self) -> &Roster;

    /// The most seconds that a session may be idle.
    fn idle(&self) -> Option<u32>;
}

/// The part of the connections that is ended.
#[derive(Clone, Copy, Debug, PartialEq, Eq)]
enum Stage {
    /// The reading of requests, for sessions without an open transaction; for subscribers after all others have ended.
    Settled,
    /// The reading of requests, for all sessions.
    All,
    /// The reading and the writing, for all sessions.
    Writes,
}

/// Serves clients until standard input has ended, and then until all sessions have ended.
pub fn serve_until_end<H, W, G>(
    server: &Server<'_, H, G>,
    listening: &Listening<'_>,
    door: &TcpStream,
    service: Service,
    output: &mut W,
) -> End
where
    H: Host + Threads + Send + Sync,
    W: Target,
    G: Gate + Notes + Drained + Slow + Sync,
{
    let closing = &Closing::new();
    thread::scope(thread::scope_env(), server.host, |scope| {
        let started = scope.spawn(move || drain(server, door, closing));
        if started.is_err() {
            return End::Stopped(Ended::NoMemory);
        }
        let end = serve_timed(server, listening, service, output);
        closing.close();
        end
    })
}

/// Waits for the end of standard input. Then it ends the accepting and the connections: without an open transaction at once,
/// and with one after `--idle` or `PATIENCE` seconds at the latest.
fn drain<H: Host, G: Drained>(server: &Server<'_, H, G>, door: &TcpStream, closing: &Closing) {
    let host = server.host;
    let gate = server.gate;
    if !waits_to_serve(host, gate, closing) {
        return;
    }
    gate.wait_for_end();
    gate.roster().close();
    let _shut = door.shutdown(Shutdown::Read);
    let patience = u64::from(gate.idle().unwrap_or(PATIENCE));
    // The seconds count as over if the clock can't be read.
    let begun = gate.now().unwrap_or(Duration::ZERO);
    for _ in host.forever() {
        let sessions = gate.roster().sessions(host);
        if sessions.is_empty() || closing.is_over() {
            return;
        }
        let stage = stage_at(age(gate, begun), patience);
        end_connections(server, &sessions, stage);
        closing.pause(host);
    }
}

/// Waits until clients are served. Returns false if the server ends before.
fn waits_to_serve<H: Host, G: Drained>(host: &H, gate: &G, closing: &Closing) -> bool {
    for _ in host.forever() {
        if gate.has_begun() {
            return true;
        }
        if closing.is_over() {
            return false;
        }
        closing.pause(host);
    }
    unreachable!()
}

fn stage_at(age: u64, patience: u64) -> Stage {
    if age < patience {
        Stage::Settled
    } else if age < patience.saturating_add(GRACE) {
        Stage::All
    } else {
        Stage::Writes
    }
}

/// The seconds since `begun`; the greatest number if the clock can't be read.
fn age<P: Paged>(paged: &P, begun: Duration) -> u64 {
    match paged.now() {
        Ok(now) => now.saturating_sub(begun).as_secs(),
        Err(_) => u64::MAX,
    }
}

fn end_connections<H: Host, G: Drained>(
    server: &Server<'_, H, G>,
    sessions: &[(u32, bool)],
    stage: Stage,
) {
    let host = server.host;
    let writers = some_may_write(host, server.shared, sessions);
    for (session, subscribes) in sessions {
        let how = match stage {
            Stage::Settled if *subscribes && writers => continue,
            Stage::Settled if server.shared.hold(host).levels(*session) > 0 => continue,
            Stage::Settled | Stage::All => Shutdown::Read,
            Stage::Writes => Shutdown::Both,
        };
        server.gate.roster().shut(host, *session, how);
    }
}

/// Returns whether a session goes on that may commit: one with an open transaction, or one that has never subscribed.
fn some_may_write<H: Host>(host: &H, shared: &Shared<H>, sessions: &[(u32, bool)]) -> bool {
    for (session, subscribes) in sessions {
        if !*subscribes || shared.hold(host).levels(*session) > 0 {
            return true;
        }
    }
    false
}
