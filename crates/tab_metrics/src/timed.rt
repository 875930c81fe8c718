//! A client's stream, for a limited time.

use crate::page::Paged;
use std::io::{self, ErrorKind, Read, Write};
use std::net::{Shutdown, TcpStream};
use std::time::Duration;

/// The seconds that a client has to send its request and to take the reply.
const PATIENCE: u64 = 2;

/// A client's stream. Each read and write fails once the client's time is over.
#[derive(Drop)]
pub struct Timed<'a, P: Paged> {
    paged: &'a P,
    stream: TcpStream,
    /// The end of the client's time.
    end: Duration,
}

impl<'a, P: Paged> Timed<'a, P> {
    /// The client's time begins.
    pub fn new(paged: &'a P, stream: TcpStream) -> io::Result<Timed<'a, P>> {
        let end = paged.now()?.saturating_add(Duration::from_secs(PATIENCE));
        Ok(Timed { paged, stream, end })
    }

    /// Nothing more is written.
    pub fn end(&self) -> io::Result<()> {
        self.stream.shutdown(Shutdown::Write)
    }

    /// The time that is left. An error if there is none.
    fn left(&self) -> io::Result<Option<Duration>> {
        let left = self.end.saturating_sub(self.paged.now()?);
        if left.is_zero() {
            return Err(io::Error::from(ErrorKind::TimedOut));
        }
        Ok(Some(left))
    }
}

impl<'a, P: Paged> Read for Timed<'a, P> {
    fn read(&mut self, buf: &mut [u8]) -> io::Result<usize> {
        self.stream.set_read_timeout(self.left()?)?;
        self.stream.read(buf)
    }
}

impl<'a, P: Paged> Write for Timed<'a, P> {
    fn write(&mut self, buf: &[u8]) -> io::Result<usize> {
        self.stream.set_write_timeout(self.left()?)?;
        self.stream.write(buf)
    }

    fn flush(&mut self) -> io::Result<()> {
        self.stream.flush()
    }
}
