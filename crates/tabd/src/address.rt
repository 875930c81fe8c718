//! The address at which the server listens for clients.

use crate::socket_file::SocketFile;
use std::io;
use std::net::{Net, TcpListener, TcpStream};
use std::os::fd::{AsRawFd, RawFd};
use std::rt::Files;
use tab_server::Listener;
use tab_words::Address;

/// The greatest number of a standard stream.
const STANDARD_ERROR: RawFd = 2;

/// The place of a listener.
#[derive(Drop)]
pub enum Place<'a> {
    Port(u16),
    File(SocketFile<'a>),
}

impl<'a> Place<'a> {
    /// No client connects any more: the file that was made is removed.
    pub fn close<R: Files>(&self, rt: &R) {
        match self {
            Place::Port(_) => {}
            Place::File(file) => file.remove(rt),
        }
    }
}

/// Listens at the address. Returns an error if the system refuses it, or a standard stream is closed.
pub fn listen_at<'a, R: Net<Listener = TcpListener, Stream = TcpStream> + Files>(
    rt: &R,
    address: &'a Address,
) -> io::Result<(Listener, Place<'a>)> {
    match address {
        Address::Port(port) => {
            let (listener, port) = listen_on(rt, *port)?;
            Ok((Listener::Tcp(listener), Place::Port(port)))
        }
        Address::Socket(path) => {
            let (listener, file) = SocketFile::bind(rt, path.as_str())?;
            if let Err(error) = refuse_standard(listener.as_raw_fd()) {
                file.remove(rt);
                return Err(error);
            }
            Ok((Listener::Unix(listener), Place::File(file)))
        }
    }
}

/// Listens on the port of 127.0.0.1, and which it is. An error as of `listen_at`.
pub fn listen_on<R: Net<Listener = TcpListener, Stream = TcpStream>>(
    rt: &R,
    port: u16,
) -> io::Result<(TcpListener, u16)> {
    let listener = TcpListener::bind(rt, ("127.0.0.1", port))?;
    refuse_standard(listener.as_raw_fd())?;
    let address = listener.local_addr()?;
    Ok((listener, address.port()))
}

/// A socket gets the least number that is free: what is put on a standard stream that is closed would go to a client.
fn refuse_standard(number: RawFd) -> io::Result<()> {
    if number <= STANDARD_ERROR {
        return Err(io::Error::other("a standard stream is closed"));
    }
    Ok(())
}
