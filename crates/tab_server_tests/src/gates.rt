//! A first session's call that is blocked until a second's was answered; and the same on a server that makes calls one
//! after another, which has to be found.

ghost use Rattle.std.specs.Prelude.{◌≡◌};

use std::alloc::Global;
use std::io::{Read, Write};
use std::marker::{Brand, PhantomData};
use std::net::{Net, SocketAddr, TcpListener, TcpStream};
use std::sync::Wait;
use std::sync::atomic::{AtomicBool, AtomicU64, Ordering};
use std::test::*;
use std::thread::Threads;
use std::time::{Clock, Duration};
use std::{io, thread};
use tab_book::{Book, Opened, Shared};
use tab_model::Limits;
use tab_post::{Host, Naming, Room};
use tab_server::{Count, Counts, Gate, Listener, Note, Notes, Server, Settings};

pub const LIMITS: Limits = Limits::STANDARD;

/// The clients that `ask` connects.
const CONNECTIONS: u32 = 2;

const TURNS: u32 = 10_000;

/// If calls are made one after another the second is never answered meanwhile, so a few turns are enough.
const FEW_TURNS: u32 = 100;

/// Blocks session 1's first call until session 2's first was answered, for at most `turns` milliseconds. If calls are
/// served one after another it gives up.
#[derive(Drop)]
struct Held<R> {
    rt: R,
    turns: u32,
    answered: AtomicBool,
    gave_up: AtomicBool,
}

impl<R: Threads + Clock> Held<R> {
    fn new(rt: R, turns: u32) -> Held<R> {
        Held {
            rt,
            turns,
            answered: AtomicBool::new(false),
            gave_up: AtomicBool::new(false),
        }
    }

    /// Returns whether session 2 was answered while session 1's call waited.
    fn is_passed(&self) -> bool {
        self.answered.load(Ordering::SeqCst) && !self.gave_up.load(Ordering::SeqCst)
    }
}

/// Returns whether the flag is set within so many milliseconds.
fn wait_for<R: Threads + Clock>(rt: &R, flag: &AtomicBool, turns: u32) -> bool {
    for _ in 0..turns {
        if flag.load(Ordering::SeqCst) {
            return true;
        }
        thread::sleep(rt, Duration::from_millis(1));
    }
    false
}

impl<R: Threads + Clock> Counts for Held<R> {
    fn count(&self, _count: Count, _many: u64) {}

    fn count_of(&self, _session: u32, _count: Count, _many: u64) {}

    fn begin(&self, _session: u32) {}

    fn end(&self, _session: u32) {}

    fn subscribe(&self, _session: u32) {}

    fn wait(&self, _session: u32) {}

    fn go_on(&self, _session: u32) {}
}

impl<R: Threads + Clock> Gate for Held<R> {
    fn before(&self, session: u32, call: u64) {
        if session == 1 && call == 1 && !wait_for(&self.rt, &self.answered, self.turns) {
            self.gave_up.store(true, Ordering::SeqCst);
        }
    }

    fn after(&self, session: u32, call: u64) {
        if session == 2 && call == 1 {
            self.answered.store(true, Ordering::SeqCst);
        }
    }
}

impl<R: Threads + Clock> Notes for Held<R> {
    fn note(&self, _note: Note) {}

    fn connected(&self, _session: u32, _stream: &TcpStream, _handle: Option<TcpStream>) {}

    fn is_closing(&self) -> bool {
        false
    }

    fn fault(&self, _error: &io::Error) {}
}

/// Makes a server wrong: a call of session 2 is made after session 1's, as by an accept loop that serves one after another.
#[derive(Drop)]
struct InTurn<R> {
    held: Held<R>,
    is_first_answered: AtomicBool,
}

impl<R: Threads + Clock> Counts for InTurn<R> {
    fn count(&self, _count: Count, _many: u64) {}

    fn count_of(&self, _session: u32, _count: Count, _many: u64) {}

    fn begin(&self, _session: u32) {}

    fn end(&self, _session: u32) {}

    fn subscribe(&self, _session: u32) {}

    fn wait(&self, _session: u32) {}

    fn go_on(&self, _session: u32) {}
}

impl<R: Threads + Clock> Gate for InTurn<R> {
    fn before(&self, session: u32, call: u64) {
        if session != 1 {
            wait_for(&self.held.rt, &self.is_first_answered, TURNS);
        }
        self.held.before(session, call);
    }

    fn after(&self, session: u32, call: u64) {
        if session == 1 {
            self.is_first_answered.store(true, Ordering::SeqCst);
        }
        self.held.after(session, call);
    }
}

impl<R: Threads + Clock> Notes for InTurn<R> {
    fn note(&self, _note: Note) {}

    fn connected(&self, _session: u32, _stream: &TcpStream, _handle: Option<TcpStream>) {}

    fn is_closing(&self) -> bool {
        false
    }

    fn fault(&self, _error: &io::Error) {}
}

/// `{create_table, u, []}`, and the same of t.
static REQUESTS: [&[u8]; 2] = [
    b"\x00\x00\x00\x15\x83h\x03w\x0ccreate_tablew\x01uj",
    b"\x00\x00\x00\x15\x83h\x03w\x0ccreate_tablew\x01tj",
];

/// `{reply, {atomic, ok}}`.
static REPLY: &[u8] = b"\x00\x00\x00\x18\x83h\x02w\x05replyh\x02w\x06atomicw\x02ok";

fn is_answered(stream: &mut TcpStream) -> io::Result<bool> {
    let mut reply = [0u8; 28];
    stream.read_exact(&mut reply)?;
    Ok(reply.as_slice() == REPLY)
}

/// Two clients connect and ask; the first reads its reply last.
fn ask<R: Net<Stream = TcpStream>>(rt: &R, address: SocketAddr) -> io::Result<bool> {
    let mut first = TcpStream::connect(rt, address)?;
    let mut second = TcpStream::connect(rt, address)?;
    first.write_all(REQUESTS[0])?;
    second.write_all(REQUESTS[1])?;
    Ok(is_answered(&mut second)? && is_answered(&mut first)?)
}

/// Counts a server that ended well.
fn serve_all<H: Host + Threads + Send + Sync, G: Gate + Notes + Sync>(
    server: &Server<'_, H, G>,
    listener: &Listener,
    served: &AtomicU64,
) {
    if server.serve(listener, CONNECTIONS).is_ok() {
        served.fetch_add(1, Ordering::SeqCst);
    }
}

/// Serves connections while clients send requests.
fn beside<H, R, G>(
    rt: &R,
    server: &Server<'_, H, G>,
    listener: &Listener,
    address: SocketAddr,
    served: &AtomicU64,
) -> bool
where
    H: Host + Threads + Send + Sync,
    R: Net<Listener = TcpListener, Stream = TcpStream>,
    G: Gate + Notes + Sync,
{
    thread::scope(thread::scope_env(), server.host, |scope| {
        let serving = scope.spawn(move || serve_all(server, listener, served));
        if serving.is_err() {
            return false;
        }
        match ask(rt, address) {
            Ok(right) => right,
            Err(_) => false,
        }
    })
}

/// On a book of its own: whether both are answered, and the server ends.
fn run<H, R, G>(host: H, rt: &R, alloc: Global, opened: Opened, gate: &G) -> Result<bool, Fail>
where
    H: Host + Threads + Send + Sync,
    R: Net<Listener = TcpListener, Stream = TcpStream>,
    G: Gate + Notes + Sync,
    requires { opened ≡ H.books }
{
    let listener = TcpListener::bind(rt, ("127.0.0.1", 0)).map_err(|_| "bind")?;
    let address = listener.local_addr().map_err(|_| "address")?;
    let listener = Listener::Tcp(listener);
    let shared = Shared::new(Book::new(host, alloc, opened, LIMITS)?, Room::of(64));
    let served = AtomicU64::new(0);
    let server = Server {
        host: &host,
        alloc,
        shared: &shared,
        settings: Settings::PLAIN,
        gate,
    };
    let right = beside(rt, &server, &listener, address, &served);
    Ok(right && served.load(Ordering::SeqCst) == 1)
}

fn run_named<J, R, G>(rt: &R, alloc: Global, opened: Opened, gate: &G) -> Result<bool, Fail>
where
    J: Naming + Send + Sync,
    R: Net<Listener = TcpListener, Stream = TcpStream>
        + Threads
        + Clock
        + Wait
        + Copy
        + Send
        + Sync,
    G: Gate + Notes + Sync,
    requires { opened ≡ J.books }
{
    run((*rt, PhantomData::<J>), rt, alloc, opened, gate)
}

#[test]
fn connections_are_served_side_by_side(rt: HostRuntime) -> Result<(), Fail> {
    let gate = Held::new(rt, TURNS);
    let right = run_named::<Brand, _, _>(&rt, rt.alloc(), Opened::new(), &gate)?;
    assert!(rt; right && gate.is_passed());
    Ok(())
}

/// Both are answered, and the gate gave up.
#[test]
fn calls_that_are_made_one_after_another_are_found(rt: HostRuntime) -> Result<(), Fail> {
    let gate = InTurn {
        held: Held::new(rt, FEW_TURNS),
        is_first_answered: AtomicBool::new(false),
    };
    let right = run_named::<Brand, _, _>(&rt, rt.alloc(), Opened::new(), &gate)?;
    assert!(rt; right && !gate.held.is_passed());
    Ok(())
}
