//! Listeners for clients, and the differences between the two kinds of socket.

ghost use Rattle.std.specs.Prelude.{◌≡◌, IfOk};
ghost use Rattle.tab_server.specs.Kinds.{family_of};

use std::io;
use std::io::Write;
use std::net::{Shutdown, TcpListener, TcpStream};
use std::os::fd::OwnedFd;
use std::os::unix::net::UnixListener;

/// A listener for clients.
#[derive(Drop)]
pub enum Listener {
    /// A port.
    Tcp(TcpListener),
    /// A socket file.
    Unix(UnixListener),
}

/// The kind of a client's socket.
#[derive(Clone, Copy, Debug, PartialEq, Eq)]
pub enum Family {
    Tcp,
    Unix,
}

/// A client's stream. A `TcpStream` holds one of either kind: to read, to peek, to write, to limit the time of each and to
/// shut down are the same system calls for both.
#[derive(Drop)]
pub struct Accepted {
    pub stream: TcpStream,
    pub family: Family,
}

impl Listener {
    /// Returns a stream that shares the listener's socket. Its shutdown for reading ends the accepting. An error is returned if
    /// no descriptor is left.
    pub fn door(&self) -> io::Result<TcpStream> {
        let descriptor = match self {
            Listener::Tcp(listener) => OwnedFd::from(listener.try_clone()?),
            Listener::Unix(listener) => OwnedFd::from(listener.try_clone()?),
        };
        Ok(TcpStream::from(descriptor))
    }

    /// Waits for a client. Returns an error if the system gives none, for example if no descriptor is left.
    pub fn accept(&self) -> io::Result<Accepted>
        ensures { IfOk result (λ accepted. accepted.family ≡ family_of self.now) }
    {
        match self {
            Listener::Tcp(listener) => {
                let (stream, _peer) = listener.accept()?;
                Ok(Accepted {
                    stream,
                    family: Family::Tcp,
                })
            }
            Listener::Unix(listener) => {
                let (stream, _peer) = listener.accept()?;
                Ok(Accepted {
                    stream: TcpStream::from(OwnedFd::from(stream)),
                    family: Family::Unix,
                })
            }
        }
    }
}

impl Family {
    /// Makes the stream send each write at once. A Unix socket keeps nothing back.
    pub fn set_nodelay(self, stream: &TcpStream) {
        if self == Family::Tcp {
            let _delayed = stream.set_nodelay(true);
        }
    }

    /// Returns whether the client has reset the connection, or closed a Unix socket. Bytes that were sent before may be
    /// read still.
    pub fn has_broken_off(self, stream: &TcpStream) -> bool {
        match self {
            Family::Tcp => stream.peer_addr().is_err(),
            Family::Unix => {
                // A Unix socket has its peer's address for good, but takes not even an empty write once that has closed.
                let mut writer = stream;
                writer.write(&[]).is_err()
            }
        }
    }

    /// Nothing more is read, so that the thread that reads ends. A Unix socket may be written to still, which says whether the
    /// client has broken off.
    pub fn close(self, stream: &TcpStream) {
        let how = match self {
            Family::Tcp => Shutdown::Both,
            Family::Unix => Shutdown::Read,
        };
        let _closed = stream.shutdown(how);
    }
}
