//! Writes at a shared book, while another session holds a lock.

ghost use Rattle.std.specs.Prelude.{◌≡◌};

use crate::{Ending, write_alone};
use std::alloc::{AllocError, Global};
use std::marker::{Brand, PhantomData};
use std::sync::Wait;
use std::test::*;
use tab_book::{Book, Opened, Seat, Shared};
use tab_etf::decode;
use tab_model::{Command, Limits, Operation, Schema};
use tab_post::{Host, Naming, Room};
use tab_term::{Atom, Term, Terms};

static LIMITS: Limits = Limits {
    sessions: 8,
    nesting: 4,
    operations: 100,
    tables: 4,
    ..Limits::STANDARD
};

/// Records, how often each is asked at most, and how that ends. There is a table t and no table u, and an older
/// transaction has read the key 1 of t.
static WRITES: [(&[u8], u32, Ending); 5] = [
    (b"\x83h\x03w\x01ta\x02w\x01a", 1, Ending::Commit(1)),
    (b"\x83h\x03w\x01ta\x02w\x01b", 0, Ending::Restart),
    (b"\x83h\x03w\x01ta\x01w\x01b", 2, Ending::Restart),
    (b"\x83h\x03w\x01ua\x02w\x01b", 1, Ending::Refusal),
    (b"\x83h\x03w\x01ta\x02w\x01b", 3, Ending::Commit(2)),
];

fn create(alloc: Global) -> Result<Command, AllocError> {
    let options = Terms::from_vec(Vec::new(alloc));
    let name = Atom::from_short_text(alloc, "t")?;
    Ok(Command::Schema(Schema::Create(name, options)))
}

fn read(alloc: Global) -> Result<Command, AllocError> {
    let name = Atom::from_short_text(alloc, "t")?;
    Ok(Command::Do(Operation::Read(name, Term::Int(1))))
}

/// The first write that ends otherwise.
fn ending_differs<H: Host>(host: H, alloc: Global, opened: Opened) -> Result<Option<usize>, Fail>
    requires { opened ≡ H.books }
{
    let shared = Shared::new(Book::new(host, alloc, opened, LIMITS)?, Room::of(64));
    ending_differs_in(&host, alloc, &shared)
}

fn ending_differs_in<H: Host>(
    host: &H,
    alloc: Global,
    shared: &Shared<H>,
) -> Result<Option<usize>, Fail> {
    let (reader, _inbox) = shared.join(host, &mut shared.seen()).map_err(|_| "join")?;
    let (writer, _inbox) = shared.join(host, &mut shared.seen()).map_err(|_| "join")?;
    read_and_write(host, alloc, shared, &reader, &writer)
}

fn read_and_write<H: Host>(
    host: &H,
    alloc: Global,
    shared: &Shared<H>,
    reader: &Seat,
    writer: &Seat,
) -> Result<Option<usize>, Fail> {
    shared.call(host, reader, create(alloc)?, &mut shared.seen())?;
    shared.call(host, reader, Command::Begin, &mut shared.seen())?;
    shared.call(host, reader, read(alloc)?, &mut shared.seen())?;
    write_differs(host, alloc, shared, writer)
}

fn write_differs<H: Host>(
    host: &H,
    alloc: Global,
    shared: &Shared<H>,
    writer: &Seat,
) -> Result<Option<usize>, Fail> {
    for (line, (payload, attempts, wanted)) in WRITES.iter().enumerate() {
        let row = decode(alloc, payload).map_err(|_| "a term")?;
        if write_alone(host, alloc, shared, writer, &row, *attempts)? != *wanted {
            return Ok(Some(line));
        }
    }
    Ok(None)
}

fn named_ending_differs<J: Naming, R: Wait + Copy>(
    rt: R,
    alloc: Global,
    opened: Opened,
) -> Result<Option<usize>, Fail>
    requires { opened ≡ J.books }
{
    ending_differs((rt, PhantomData::<J>), alloc, opened)
}

#[test]
fn writes_end(rt: HostRuntime) -> Result<(), Fail> {
    let differs = named_ending_differs::<Brand, _>(rt, rt.alloc(), Opened::new())?;
    assert!(rt; differs == None, "a write");
    Ok(())
}
