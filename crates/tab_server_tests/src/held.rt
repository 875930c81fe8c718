//! A client that doesn't read: its event thread is blocked in a write while others commit.

ghost use Rattle.std.specs.Prelude.{◌≡◌};

use crate::gates::LIMITS;
use std::alloc::{AllocError, Global};
use std::io::Write;
use std::marker::{Brand, PhantomData};
use std::sync::atomic::{AtomicBool, Ordering};
use std::sync::{Mutex, Wait};
use std::test::*;
use std::thread::Threads;
use std::{io, thread};
use tab_book::{Book, Drained, Opened, Seat, Shared};
use tab_model::{Command, Level, Operation, Reply, Schema};
use tab_post::{Host, Inbox, Naming, Room};
use tab_server::{FrameSink, Open, Server, Settings, event_loop};
use tab_term::Terms;
use tab_test_tools::Shape::{Atom, Int, Tuple};
use tab_test_tools::{Shape, atom, build};

/// The written bytes, and whether writes are blocked.
#[derive(Drop)]
struct Pipe {
    written: Mutex<Vec<u8>>,
    reached: AtomicBool,
    open: AtomicBool,
}

/// A session, and the mailbox of its events.
#[derive(Drop)]
struct Client<H: Host> {
    seat: Seat,
    inbox: Inbox<H>,
}

fn join<H: Host>(host: &H, shared: &Shared<H>) -> Result<Client<H>, Fail> {
    let (seat, inbox) = shared.join(host, &mut shared.seen()).map_err(|_| "join")?;
    Ok(Client { seat, inbox })
}

/// Its first write waits until the pipe is open.
#[derive(Drop)]
struct Held<'a, H: Host> {
    host: &'a H,
    pipe: &'a Pipe,
}

impl<'a, H: Host> Write for Held<'a, H> {
    fn write(&mut self, buf: &[u8]) -> io::Result<usize> {
        self.pipe.reached.store(true, Ordering::SeqCst);
        for _ in self.host.forever() {
            if self.pipe.open.load(Ordering::SeqCst) {
                break;
            }
        }
        let mut written = self.pipe.written.lock(self.host);
        written.extend_from_slice(buf)?;
        Ok(buf.len())
    }

    fn flush(&mut self) -> io::Result<()> {
        Ok(())
    }
}

/// The begin marker, the events of two commits, and the overflow of the third.
static FRAMES: &[u8] =
    b"\x00\x00\x00\x22\x83h\x03w\x12mnesia_table_beginw\x01tw\x06simple\x00\x00\x003\x83h\x02w\x12mnesia_table_eventh\x03w\x05writeh\x03w\x01ta\x01w\x01ah\x02w\x03tida\x01\x00\x00\x003\x83h\x02w\x12mnesia_table_eventh\x03w\x05writeh\x03w\x01ta\x02w\x01ah\x02w\x03tida\x02\x00\x00\x00\x16\x83h\x02w\x0fmnesia_overflowa\x03";

/// The records that commits 1 to 3 write.
static RECORDS: [Shape; 3] = [
    Tuple(&[Atom("t"), Int(1), Atom("a")]),
    Tuple(&[Atom("t"), Int(2), Atom("a")]),
    Tuple(&[Atom("t"), Int(3), Atom("a")]),
];

fn is_committed(reply: &Reply, wanted: u64) -> bool {
    match reply {
        Reply::Atomic(number) => *number == wanted,
        _ => false,
    }
}

/// Returns whether a record is written and committed, as the commit with this number.
fn commit<H: Host>(
    server: &Server<'_, H, Open>,
    seat: &Seat,
    record: &Shape,
    number: u64,
) -> Result<bool, AllocError> {
    let write = Command::Do(Operation::Write(build(server.alloc, record)?));
    server.shared.call(server.host, seat, Command::Begin, &mut server.shared.seen())?;
    server
        .shared
        .call(server.host, seat, write, &mut server.shared.seen())?;
    let told = server.shared.call(
        server.host,
        seat,
        Command::Commit,
        &mut server.shared.seen(),
    )?;
    Ok(is_committed(told.reply(), number))
}

/// The number of items that were there for a session; None if it overflowed or left.
fn taken<H: Host>(server: &Server<'_, H, Open>, client: &mut Client<H>) -> Option<u32> {
    let mut count = 0u32;
    for _ in server.host.forever() {
        match server
            .shared
            .drained(server.host, &client.seat, &mut client.inbox)
        {
            Drained::Going(_) => count = count.saturating_add(1),
            Drained::AllTaken => return Some(count),
            Drained::Overflow(_) | Drained::Left => return None,
        }
    }
    unreachable!()
}

/// Waits until the event thread has reached its first write.
fn wait_for_write<H: Host>(host: &H, pipe: &Pipe) {
    for _ in host.forever() {
        if pipe.reached.load(Ordering::SeqCst) {
            break;
        }
    }
}

/// Waits until so many bytes are written.
fn wait_for<H: Host>(host: &H, pipe: &Pipe, size: usize) {
    for _ in host.forever() {
        if pipe.written.lock(host).len() >= size {
            break;
        }
    }
}

/// Makes three commits while the event thread is blocked, of which the writer itself gets each event. Then that thread
/// writes, and the reader leaves.
fn commit_all<H: Host>(
    server: &Server<'_, H, Open>,
    mut writer: Client<H>,
    reader: &Seat,
    pipe: &Pipe,
) -> Result<bool, AllocError> {
    let host = server.host;
    wait_for_write(host, pipe);
    let mut right = taken(server, &mut writer) == Some(1);
    for (record, number) in RECORDS.iter().zip(1..) {
        right &= commit(server, &writer.seat, record, number)?;
        right &= taken(server, &mut writer) == Some(1);
    }
    pipe.open.store(true, Ordering::SeqCst);
    wait_for(host, pipe, FRAMES.len());
    server.shared.leave(host, reader, &mut server.shared.seen());
    Ok(right && pipe.written.lock(host).as_slice() == FRAMES)
}

fn run<H: Host + Threads + Send + Sync>(
    host: H,
    alloc: Global,
    opened: Opened,
) -> Result<bool, Fail>
    requires { opened ≡ H.books }
{
    let shared = Shared::new(Book::new(host, alloc, opened, LIMITS)?, Room::of(2));
    let writer = join(&host, &shared)?;
    let reader = join(&host, &shared)?;
    let create = Schema::Create(atom(alloc, "t")?, Terms::from_vec(Vec::new(alloc)));
    shared.call(
        &host,
        &writer.seat,
        Command::Schema(create),
        &mut shared.seen(),
    )?;
    for seat in [&writer.seat, &reader.seat] {
        let watch = Command::Subscribe(atom(alloc, "t")?, Level::Simple, false);
        shared.call(&host, seat, watch, &mut shared.seen())?;
    }
    let pipe = Pipe {
        written: Mutex::new(Vec::new(alloc)),
        reached: AtomicBool::new(false),
        open: AtomicBool::new(false),
    };
    let server = Server {
        host: &host,
        alloc,
        shared: &shared,
        settings: Settings::PLAIN,
        gate: &Open,
    };
    Ok(side_by_side(&server, writer, reader, &pipe)?)
}

/// The reader's events, over the pipe.
fn send_events<H: Host>(server: &Server<'_, H, Open>, mut reader: Client<H>, pipe: &Pipe) {
    let sink = FrameSink::new(Held {
        host: server.host,
        pipe,
    });
    event_loop(server, &reader.seat, &mut reader.inbox, &sink);
}

fn side_by_side<H: Host + Threads + Send + Sync>(
    server: &Server<'_, H, Open>,
    writer: Client<H>,
    reader: Client<H>,
    pipe: &Pipe,
) -> Result<bool, AllocError> {
    let leaving = reader.seat;
    thread::scope(thread::scope_env(), server.host, |scope| {
        let sending = scope.spawn(move || send_events(server, reader, pipe));
        if sending.is_err() {
            return Ok(false);
        }
        commit_all(server, writer, &leaving, pipe)
    })
}

fn run_named<J: Naming + Send + Sync, R: Threads + Wait + Copy + Send + Sync>(
    rt: R,
    alloc: Global,
    opened: Opened,
) -> Result<bool, Fail>
    requires { opened ≡ J.books }
{
    run((rt, PhantomData::<J>), alloc, opened)
}

#[test]
fn a_slow_reader_overflows_alone(rt: HostRuntime) -> Result<(), Fail> {
    let right = run_named::<Brand, _>(rt, rt.alloc(), Opened::new())?;
    assert!(rt; right);
    Ok(())
}
