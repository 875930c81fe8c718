//! What is asked over HTTP.

ghost use Rattle.std.specs.Prelude.{◌≡◌, ◌↔◌, IsTrue, MatchOption};
ghost use Rattle.httparse.specs.Grammar.{HasNoRequest};
ghost use Rattle.tab_metrics.specs.Heads.{IsAskedIn, Names, NamesNone, NamesPage, is_query as is_query_in};

use httparse::Status;
use httparse::spans::{EMPTY_HEADER_SPAN, parse_request};
use std::io::{ErrorKind, Read};

/// The most bytes of a request's head, the most headers, and the most pieces that it comes in.
const HEAD: usize = 8_192;

const HEADERS: usize = 64;

const PIECES: usize = 64;

/// A page.
#[derive(Clone, Copy, Debug, PartialEq, Eq)]
pub enum Page {
    /// `/metrics`.
    Meters,
    /// `/sessions`.
    Sessions,
}

/// The kind of a request.
#[derive(Clone, Copy, Debug, PartialEq, Eq)]
pub enum Request {
    Get(Page),
    Head(Page),
    /// A request for another path.
    Elsewhere,
    /// A request by another method.
    Otherwise,
    /// No request of HTTP/1.
    Wrong,
    /// A head that is too long.
    Long,
}

/// Reads the request on the stream. None if it ends, or a read fails, before a head is whole.
pub fn read_request<R: Read>(reader: &mut R) -> Option<Request> {
    let mut head = [0u8; HEAD];
    let mut len: usize = 0;
    for _ in 0..PIECES {
        if len >= HEAD {
            break;
        }
        match reader.read(&mut head[len..]) {
            Ok(0) => return None,
            Ok(count) => len += count,
            // The process was stopped and goes on: a read with a time limit is not begun again by the system.
            Err(error) if matches!(error.kind(), ErrorKind::Interrupted) => {}
            Err(_) => return None,
        }
        if let Some(request) = request_in(&head[..len]) {
            return Some(request);
        }
    }
    Some(Request::Long)
}

/// The request of these bytes, once they are a whole head.
fn request_in(head: &[u8]) -> Option<Request>
    ensures { MatchOption result (HasNoRequest head.now) (IsAskedIn head.now) }
{
    let mut headers = [EMPTY_HEADER_SPAN; HEADERS];
    match parse_request(head, &mut headers) {
        Ok(Status::Partial) => None,
        Ok(Status::Complete(spans)) => {
            let method = spans.method.of(head);
            let Some(page) = page_of(spans.path.of(head)) else {
                return Some(Request::Elsewhere);
            };
            Some(if method == b"GET".as_slice() {
                Request::Get(page)
            } else if method == b"HEAD".as_slice() {
                Request::Head(page)
            } else {
                Request::Otherwise
            })
        }
        Err(_) => Some(Request::Wrong),
    }
}

/// The page that a request's target names.
fn page_of(target: &[u8]) -> Option<Page>
    ensures { MatchOption result (NamesNone target.now) (λ page. NamesPage page target.now) }
{
    if names(target, b"/metrics".as_slice()) {
        return Some(Page::Meters);
    }
    if names(target, b"/sessions".as_slice()) {
        return Some(Page::Sessions);
    }
    None
}

/// Returns whether a request's target has this path. A query is ignored.
fn names(target: &[u8], path: &[u8]) -> bool
    ensures { IsTrue result ↔ Names path.now target.now }
{
    match target.strip_prefix(path) {
        Some(rest) => is_query(rest),
        None => false,
    }
}

/// Returns whether this is a query, or nothing.
fn is_query(rest: &[u8]) -> bool
    ensures { result ≡ is_query_in rest.now }
{
    match rest.first() {
        Some(first) => *first == b'?',
        None => true,
    }
}
