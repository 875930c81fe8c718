//! The stream that requests are read from.

ghost use Rattle.std.specs.Prelude.{IfSome};
ghost use Rattle.std.specs.Io.{ReadsAtMost};

use libc::net::{MSG_DONTWAIT, recv};
use std::hint;
use std::io::{self, ErrorKind, Read};
use std::net::TcpStream;
use std::os::fd::AsRawFd;
use std::sync::atomic::{AtomicU32, Ordering};

/// The number of times that a read asks the system for bytes before it waits for them: for some 20 microseconds.
const TURNS: u32 = 60;

/// The sessions of a server that have sent requests.
#[derive(Drop)]
pub struct Senders {
    /// The one that sent the last.
    last: AtomicU32,
    /// The number of those that are not answered yet.
    busy: AtomicU32,
}

impl Senders {
    /// None has sent any.
    pub fn new() -> Senders {
        Senders {
            last: AtomicU32::new(u32::MAX),
            busy: AtomicU32::new(0),
        }
    }

    /// Notes that this session has sent some. Returns whether it sent the last before.
    fn begin(&self, session: u32) -> bool {
        self.busy.fetch_add(1, Ordering::Relaxed);
        self.last.swap(session, Ordering::Relaxed) == session
    }

    /// A session is answered.
    fn end(&self) {
        self.busy.fetch_sub(1, Ordering::Relaxed);
    }

    fn are_answered(&self) -> bool {
        self.busy.load(Ordering::Relaxed) == 0
    }
}

/// A stream that requests are read from. A thread that waits for bytes wakes some microseconds after they come. So if
/// only its session sends any, a read polls for them before it waits. It polls only while all sessions are answered: a
/// session that waits for a lock would find it taken again by the time that its thread is awake.
pub struct RequestStream<'a> {
    stream: TcpStream,
    senders: &'a Senders,
    session: u32,
    /// True if the last two pieces that the server read were its own.
    is_alone: bool,
    /// True if the last piece is not answered yet.
    is_busy: bool,
}

impl<'a> Drop for RequestStream<'a> {
    fn drop(self) {
        let RequestStream {
            stream,
            senders,
            session: _,
            is_alone: _,
            is_busy,
        } = self;
        if is_busy {
            senders.end();
        }
        drop(stream);
    }
}

impl<'a> RequestStream<'a> {
    /// Nothing is read yet.
    pub fn new(stream: TcpStream, senders: &'a Senders, session: u32) -> RequestStream<'a> {
        RequestStream {
            stream,
            senders,
            session,
            is_alone: false,
            is_busy: false,
        }
    }

    /// Polls the stream for bytes. Returns None if none come within `TURNS` reads, or if it may not poll.
    fn poll(&self, buf: &mut [u8]) -> Option<io::Result<usize>>
        ensures { IfSome result (λ read. ReadsAtMost read buf.new) }
    {
        if !self.is_alone {
            return None;
        }
        for _ in 0..TURNS {
            if !self.senders.are_answered() {
                return None;
            }
            let read = read_now(&self.stream, buf);
            if read.is_some() {
                return read;
            }
            hint::spin_loop();
        }
        None
    }
}

/// Reads once without blocking. Returns None if no bytes are there.
fn read_now(stream: &TcpStream, buf: &mut [u8]) -> Option<io::Result<usize>>
    ensures { IfSome result (λ read. ReadsAtMost read buf.new) }
{
    let count = unsafe { recv(stream.as_raw_fd(), buf, MSG_DONTWAIT) };
    if count >= 0 {
        return Some(Ok(count as usize));
    }
    let error = io::Error::from_raw_os_error(os::errno());
    match error.kind() {
        ErrorKind::WouldBlock => None,
        _ => Some(Err(error)),
    }
}

impl<'a> Read for RequestStream<'a> {
    fn read(&mut self, buf: &mut [u8]) -> io::Result<usize> {
        if self.is_busy {
            self.senders.end();
            self.is_busy = false;
        }
        let read = match self.poll(buf) {
            Some(read) => read,
            None => self.stream.read(buf),
        };
        if read.is_ok() {
            self.is_alone = self.senders.begin(self.session);
            self.is_busy = true;
        }
        read
    }
}
