//! The book that a server serves.

ghost use Rattle.std.specs.Prelude.{◌≡◌, ◌≤◌, IfOk};
ghost use Rattle.tabd.specs.Served.{book_of, limits_of, room_of, sessions_of};

use std::alloc::{AllocError, Global};
use tab_book::{Book, Opened, Shared};
use tab_model::Limits;
use tab_post::{Host, Room};
use tab_words::Service;

/// No tables and no sessions, and the limits that the words and the program set.
pub fn opened_book<H: Host>(
    host: H,
    alloc: Global,
    opened: Opened,
    service: &Service,
) -> Result<Book<H>, AllocError>
    requires { opened ≡ H.books }
    ensures { IfOk result (λ b. b ≡ book_of service.now) }
{
    Book::new(host, alloc, opened, limits(service))
}

/// The book under its lock, and mailboxes of the size that the words set.
pub fn shared_book<H: Host>(book: Book<H>, service: &Service) -> Shared<H>
    ensures { result.room ≡ room_of service.now }
{
    let room = Room {
        items: service.sizes.outbox as usize,
        bytes: service.sizes.outbox_bytes,
    };
    Shared::new(book, room)
}

fn limits(service: &Service) -> Limits
    ensures limits { result ≡ limits_of service.now }
    ensures sessions { result.sessions ≤ 64 }
{
    Limits {
        sessions: u64::from(sessions(service)),
        journal: u64::from(service.sizes.journal),
        journal_bytes: service.sizes.journal_bytes,
        ..Limits::STANDARD
    }
}

/// The number of sessions that the book has room for. A server that serves for good has none in addition to its
/// connections.
fn sessions(service: &Service) -> u32
    ensures sessions { result ≡ sessions_of service.now }
    ensures room { result ≤ 64 }
{
    if service.forever {
        service.sizes.connections
    } else {
        64
    }
}
