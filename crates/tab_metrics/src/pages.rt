//! The page over HTTP.

use crate::closing::Closing;
use crate::page::{Holdings, Paged};
use crate::requests::{Page, Request, read_request};
use crate::timed::Timed;
use std::alloc::{AllocError, Global};
use std::io::{self, Write};
use std::net::{TcpListener, TcpStream};
use std::sync::Wait;
use std::sync::atomic::{AtomicU64, Ordering};
use std::thread;
use std::thread::Threads;
use tab_post::Host;
use tab_server::Server;

/// The most clients that are answered at once.
const CLIENTS: u64 = 16;

/// Answers GET and HEAD of `/metrics` and `/sessions`, each client in a thread of its own, until `closing` is closed.
pub fn serve_pages<H: Host + Threads + Send + Sync, P: Paged + Sync>(
    server: &Server<'_, H, P>,
    listener: &TcpListener,
    closing: &Closing,
) {
    // One that waits would not see the end.
    if listener.set_nonblocking(true).is_err() {
        return;
    }
    let answered = &AtomicU64::new(0);
    thread::scope(thread::scope_env(), server.host, |scope| {
        for _ in server.host.forever() {
            if closing.is_over() {
                return;
            }
            let Some(stream) = next_client(listener, answered) else {
                closing.pause(server.host);
                continue;
            };
            answered.fetch_add(1, Ordering::SeqCst);
            let started = scope.spawn(move || {
                // No one is left to hear that an answer failed.
                let _told = answer(server, stream);
                answered.fetch_sub(1, Ordering::SeqCst);
            });
            if started.is_err() {
                answered.fetch_sub(1, Ordering::SeqCst);
            }
        }
    });
}

/// The next client. None if there is none, or as many are answered as may be at once.
fn next_client(listener: &TcpListener, answered: &AtomicU64) -> Option<TcpStream> {
    if answered.load(Ordering::SeqCst) >= CLIENTS {
        return None;
    }
    match listener.accept() {
        Ok((stream, _peer)) => Some(stream),
        Err(_) => None,
    }
}

/// Reads a request and answers it. An error if the client takes too long for either.
fn answer<H: Host, P: Paged>(server: &Server<'_, H, P>, stream: TcpStream) -> io::Result<()> {
    let alloc = server.alloc;
    let mut stream = Timed::new(server.gate, stream)?;
    let Some(request) = read_request(&mut stream) else {
        return Ok(());
    };
    let text = match request {
        Request::Get(page) => found(alloc, page, &text(server, page)?, true)?,
        Request::Head(page) => found(alloc, page, &text(server, page)?, false)?,
        Request::Elsewhere => other(alloc, "404 Not Found")?,
        Request::Otherwise => other(alloc, "405 Method Not Allowed\r\nAllow: GET, HEAD")?,
        Request::Wrong => other(alloc, "400 Bad Request")?,
        Request::Long => other(alloc, "431 Request Header Fields Too Large")?,
    };
    stream.write_all(text.as_bytes())?;
    stream.end()
}

/// Returns the text of a page. The book is locked for one pass over its sessions, or as for `Holdings`.
fn text<H: Host, P: Paged>(server: &Server<'_, H, P>, page: Page) -> Result<String, AllocError> {
    match page {
        Page::Meters => {
            let holdings = Holdings::of(server.host, server.alloc, server.shared)?;
            server.gate.page(&holdings)
        }
        Page::Sessions => {
            let activities = server.shared.hold(server.host).activities()?;
            server.gate.sessions(&activities)
        }
    }
}

/// The answer to a request for this page: its head, and its text too if `is_whole`.
fn found(alloc: Global, page: Page, text: &str, is_whole: bool) -> Result<String, AllocError> {
    let parameter = match page {
        Page::Meters => "version=0.0.4",
        Page::Sessions => "charset=utf-8",
    };
    let len = text.len();
    let body = if is_whole { text } else { "" };
    format!(in alloc;
        "HTTP/1.1 200 OK\r\nContent-Type: text/plain; {parameter}\r\nContent-Length: {len}\r\nConnection: close\r\n\r\n{body}"
    )
}

/// An answer without a page: its status, and the headers that go with that.
fn other(alloc: Global, status: &str) -> Result<String, AllocError> {
    format!(in alloc; "HTTP/1.1 {status}\r\nContent-Length: 0\r\nConnection: close\r\n\r\n")
}
