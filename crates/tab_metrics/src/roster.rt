//! The connections of joined sessions.

use arrayvec::ArrayVec;
use std::net::{Shutdown, SocketAddr, TcpStream};
use std::sync::atomic::{AtomicBool, Ordering};
use std::sync::{Mutex, Wait};

/// The most connections. One that replaces another may be added before that is removed, so it is twice the number of sessions.
const ROOM: usize = 128;

/// A session's connection.
#[derive(Drop, Default)]
struct Connected {
    session: u32,
    /// The client's address; None for a client at a socket file.
    peer: Option<SocketAddr>,
    /// The descriptor by which the connection is ended. None if the server ends none.
    handle: Option<TcpStream>,
    /// True if the session has asked to subscribe.
    subscribes: bool,
}

/// The connections of joined sessions, and whether more are accepted.
#[derive(Drop)]
pub struct Roster {
    is_closing: AtomicBool,
    connected: Mutex<ArrayVec<Connected, ROOM>>,
}

impl Roster {
    /// Creates an empty roster.
    pub fn new() -> Roster {
        Roster {
            is_closing: AtomicBool::new(false),
            connected: Mutex::new(ArrayVec::new()),
        }
    }

    /// Adds the session's connection. It ends the reading of requests at once if no more connections are accepted.
    pub fn join<R: Wait>(
        &self,
        rt: &R,
        session: u32,
        stream: &TcpStream,
        handle: Option<TcpStream>,
    ) {
        let peer = stream.peer_addr().ok();
        let mut connected = self.connected.lock(rt);
        let _kept = connected.try_push(Connected {
            session,
            peer,
            handle,
            subscribes: false,
        });
        if self.is_closing() {
            let _shut = stream.shutdown(Shutdown::Read);
        }
    }

    /// Records that the session has asked to subscribe.
    pub fn subscribe<R: Wait>(&self, rt: &R, session: u32) {
        for connected in self.connected.lock(rt).iter_mut() {
            if connected.session == session {
                connected.subscribes = true;
            }
        }
    }

    /// Removes the session's connection.
    pub fn leave<R: Wait>(&self, rt: &R, session: u32) {
        self.connected
            .lock(rt)
            .retain(|connected| connected.session != session);
    }

    /// Returns the address of the session's client, if it has one.
    pub fn peer<R: Wait>(&self, rt: &R, session: u32) -> Option<SocketAddr> {
        for connected in self.connected.lock(rt).iter() {
            if connected.session == session {
                return connected.peer;
            }
        }
        None
    }

    /// Records that no more connections are accepted.
    pub fn close(&self) {
        self.is_closing.store(true, Ordering::SeqCst);
    }

    /// Returns whether no more connections are accepted.
    pub fn is_closing(&self) -> bool {
        self.is_closing.load(Ordering::SeqCst)
    }

    /// Returns the sessions that have a connection, each with whether it has asked to subscribe.
    pub fn sessions<R: Wait>(&self, rt: &R) -> ArrayVec<(u32, bool), ROOM> {
        let mut sessions = ArrayVec::new();
        for connected in self.connected.lock(rt).iter() {
            let _kept = sessions.try_push((connected.session, connected.subscribes));
        }
        sessions
    }

    /// Shuts down the session's connection for reading, for writing, or for both, as `how` says.
    pub fn shut<R: Wait>(&self, rt: &R, session: u32, how: Shutdown) {
        for connected in self.connected.lock(rt).iter() {
            if let (true, Some(stream)) = (connected.session == session, &connected.handle) {
                let _shut = stream.shutdown(how);
            }
        }
    }
}
