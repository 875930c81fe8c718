//! The next request in a stream whose session waits.

ghost use Rattle.std.specs.Prelude.{◌≡◌, ◌≢◌, ◌≤◌, ◌⊎◌, ◌↔◌, IfSome, IsTrue, length};
ghost use Rattle.tab_etf.specs.Frames.{length_next, payload_of};
ghost use Rattle.tab_etf.specs.Streams.{front};
ghost use Rattle.tab_server.specs.Aborting.{BeginsWithAbort, IsAbort};

use std::alloc::Global;
use std::io::ErrorKind;
use std::net::TcpStream;
use tab_etf::{Frame, decode};
use tab_model::Command;
use tab_proto::read_command;

/// The longest frame of an abort that ends a wait, in bytes.
const LONGEST: usize = 4_096;

/// The next part of the stream.
#[derive(Clone, Copy, Debug, PartialEq, Eq)]
pub enum Next {
    /// Its end, or a fault.
    End,
    Abort,
    /// Some request that is none.
    Other,
    /// A beginning of a frame.
    Part,
    /// Nothing has come in time, or the process was stopped meanwhile.
    Nothing,
}

/// Waits for bytes on the stream, and takes none of them. It looks at them if an abort would end the wait.
pub fn next_on(alloc: Global, stream: &TcpStream, hears: bool) -> Next
    ensures { result ≡ Next.Abort → IsTrue hears }
{
    let mut bytes = [0u8; LONGEST];
    let room = if hears { LONGEST } else { 1 };
    match stream.peek(&mut bytes[..room]) {
        Ok(0) => Next::End,
        Ok(count) if hears && count <= LONGEST => next_in(alloc, &bytes[..count]),
        Ok(_) => Next::Other,
        Err(error) if goes_on(error.kind()) => Next::Nothing,
        Err(_) => Next::End,
    }
}

/// Returns whether the stream is as it was: nothing came in time, or the process was stopped meanwhile.
fn goes_on(kind: ErrorKind) -> bool
    ensures { IsTrue result ↔ ((kind ≡ ErrorKind.WouldBlock) ⊎ (kind ≡ ErrorKind.Interrupted)) }
{
    matches!(kind, ErrorKind::WouldBlock | ErrorKind::Interrupted)
}

/// The next part of a stream that begins with these bytes, which are some at least.
fn next_in(alloc: Global, bytes: &[u8]) -> Next
    ensures abort { result ≡ Next.Abort → BeginsWithAbort bytes.now }
    ensures part { result ≡ Next.Part → front bytes.now ≡ None }
    ensures some { (result ≢ Next.End) × (result ≢ Next.Nothing) }
{
    let Some(len) = length_at(bytes) else {
        return Next::Part;
    };
    let len = len as usize;
    if len > LONGEST - 4 {
        return Next::Other;
    }
    if bytes.len() < 4 + len {
        return Next::Part;
    }
    if is_abort(alloc, &bytes[4..4 + len]) {
        Next::Abort
    } else {
        Next::Other
    }
}

/// The length that a frame begins with; None if fewer than its four bytes have come.
#[tactic(auto, unfolding(tab_etf::specs::Frames::length_next))]
fn length_at(bytes: &[u8]) -> Option<u32>
    ensures value { result ≡ length_next bytes.now }
    ensures long { IfSome result (λ _. 4 ≤ length bytes.now) }
{
    if bytes.len() < 4 {
        return None;
    }
    Some(u32::from_be_bytes([bytes[0], bytes[1], bytes[2], bytes[3]]))
}

/// Returns whether a frame that has come is one of an abort.
pub fn is_abort_in(alloc: Global, frame: &Frame) -> bool
    ensures { IsTrue result → IsAbort (payload_of frame.now) }
{
    is_abort(alloc, frame.payload())
}

/// Returns whether a payload is the term of an abort. One for whose term there is no memory is none.
fn is_abort(alloc: Global, payload: &[u8]) -> bool
    ensures { IsTrue result → IsAbort payload.now }
{
    match decode(alloc, payload) {
        Ok(held) => matches!(read_command(alloc, held), Ok(Command::Abort(_))),
        Err(_) => false,
    }
}
