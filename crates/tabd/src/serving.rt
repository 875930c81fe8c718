//! A run of the server.

ghost use Rattle.std.specs.Prelude.{◌≡◌};

use crate::Ended;
use crate::address::{Place, listen_at, listen_on};
use crate::draining::{Drained, serve_until_end};
use crate::ending::End;
use crate::opening::{opened_book, shared_book};
use crate::slow::{Slow, serve_watched};
use std::alloc::{AllocError, Global};
use std::marker::PhantomData;
use std::net::{Net, TcpListener, TcpStream};
use std::rt::Files;
use std::sync::Wait;
use std::thread::Threads;
use std::{io, thread};
use tab_book::{Opened, Shared};
use tab_etf::{Broken, Target, give_all};
use tab_metrics::{Closing, serve_pages};
use tab_post::{Host, Naming};
use tab_server::{Gate, Listener, Notes, Server, Settings};
use tab_words::{Address, Service};

/// The settings of connections, from the words.
fn settings(service: &Service) -> Settings
    ensures delivery { result.delivery ≡ service.now.delivery }
    ensures idle { result.idle ≡ service.now.idle }
    ensures idle_sessions { result.idle_sessions ≡ service.now.idle_sessions }
    ensures aborts { result.aborts ≡ service.now.aborts }
{
    Settings {
        delivery: service.delivery,
        idle: service.idle,
        idle_sessions: service.idle_sessions,
        aborts: service.aborts,
        handles: service.drains || service.limit.is_some(),
    }
}

/// The listeners for clients and for the pages, and the lines that name their addresses.
#[derive(Drop)]
pub struct Listening<'a> {
    clients: &'a Listener,
    /// A stream whose shutdown ends the accepting of clients, with `--drain`.
    door: Option<TcpStream>,
    pages: Option<TcpListener>,
    lines: String,
}

/// What a server is started with: the runtime, the words, and the receiver of its reports.
#[derive(Drop)]
pub struct Start<'a, R, G> {
    pub rt: R,
    pub alloc: Global,
    pub service: Service,
    pub gate: &'a G,
}

/// Listens at the address, serves, and says so once nothing else can keep it from that: until all sessions have ended, or for
/// good. A socket file is removed at the end.
pub fn listen<J, R, W, G>(
    start: &Start<'_, R, G>,
    opened: Opened,
    address: &Address,
    output: &mut W,
) -> End
where
    J: Naming + Send + Sync,
    R: Net<Listener = TcpListener, Stream = TcpStream>
        + Files
        + Threads
        + Wait
        + Copy
        + Send
        + Sync,
    W: Target,
    G: Gate + Notes + Drained + Slow + Sync,
    requires { opened ≡ J.books }
{
    match listen_at(&start.rt, address) {
        Ok((clients, place)) => {
            let end = serve_at::<J, R, W, G>(start, opened, &clients, &place, output);
            place.close(&start.rt);
            end
        }
        Err(error) => End::Stopped(refused(&error, start.gate)),
    }
}

/// Listens for clients of the counters too, and serves.
fn serve_at<J, R, W, G>(
    start: &Start<'_, R, G>,
    opened: Opened,
    clients: &Listener,
    place: &Place<'_>,
    output: &mut W,
) -> End
where
    J: Naming + Send + Sync,
    R: Net<Listener = TcpListener, Stream = TcpStream> + Threads + Wait + Copy + Send + Sync,
    W: Target,
    G: Gate + Notes + Drained + Slow + Sync,
    requires { opened ≡ J.books }
{
    match listen_for_pages(start, clients, place) {
        Ok(listening) => {
            let named = Start {
                rt: (start.rt, PhantomData::<J>),
                alloc: start.alloc,
                service: start.service,
                gate: start.gate,
            };
            serve_on(&named, opened, &listening, output)
        }
        Err(ended) => End::Stopped(ended),
    }
}

/// Opens the listener for clients of the pages and the door, if the options ask for them, and makes the lines.
fn listen_for_pages<'a, R, N>(
    start: &Start<'_, R, N>,
    clients: &'a Listener,
    place: &Place<'_>,
) -> Result<Listening<'a>, Ended>
where
    R: Net<Listener = TcpListener, Stream = TcpStream>,
    N: Notes,
{
    let notes = start.gate;
    let mut lines = line_of(start.alloc, place).map_err(|_| Ended::NoMemory)?;
    let door = if start.service.drains {
        Some(clients.door().map_err(|error| refused(&error, notes))?)
    } else {
        None
    };
    let pages = match start.service.metrics {
        Some(wanted) => {
            let (pages, port) = listen_on(&start.rt, wanted).map_err(|error| refused(
                &error, notes,
            ))?;
            write!(lines, "metrics on 127.0.0.1:{port}\n").map_err(|_| Ended::NoMemory)?;
            Some(pages)
        }
        None => None,
    };
    Ok(Listening {
        clients,
        door,
        pages,
        lines,
    })
}

/// The line that names the address for clients.
fn line_of(alloc: Global, place: &Place<'_>) -> Result<String, AllocError> {
    match place {
        Place::Port(port) => format!(in alloc; "listening on 127.0.0.1:{port}\n"),
        Place::File(file) => format!(in alloc; "listening on {}\n", file.path()),
    }
}

fn refused<N: Notes>(error: &io::Error, notes: &N) -> Ended {
    notes.fault(error);
    Ended::Device
}

/// Serves clients, and those of the counters in a thread of its own.
fn serve_on<H, W, G>(
    start: &Start<'_, H, G>,
    opened: Opened,
    listening: &Listening<'_>,
    output: &mut W,
) -> End
where
    H: Host + Threads + Send + Sync,
    W: Target,
    G: Gate + Notes + Drained + Slow + Sync,
    requires { opened ≡ H.books }
{
    let service = start.service;
    let Ok(book) = opened_book(start.rt, start.alloc, opened, &service) else {
        return End::Stopped(Ended::NoMemory);
    };
    let shared = shared_book(book, &service);
    let server = Server {
        host: &start.rt,
        alloc: start.alloc,
        shared: &shared,
        settings: settings(&service),
        gate: start.gate,
    };
    match &listening.pages {
        Some(pages) => beside_pages(&server, listening, pages, service, output),
        None => serve_drained(&server, listening, service, output),
    }
}

fn beside_pages<H, W, G>(
    server: &Server<'_, H, G>,
    listening: &Listening<'_>,
    pages: &TcpListener,
    service: Service,
    output: &mut W,
) -> End
where
    H: Host + Threads + Send + Sync,
    W: Target,
    G: Gate + Notes + Drained + Slow + Sync,
{
    let closing = &Closing::new();
    thread::scope(thread::scope_env(), server.host, |scope| {
        let started = scope.spawn(move || serve_pages(server, pages, closing));
        if started.is_err() {
            return End::Stopped(Ended::NoMemory);
        }
        let end = serve_drained(server, listening, service, output);
        closing.close();
        end
    })
}

/// Serves clients; with `--drain` until standard input ends.
fn serve_drained<H, W, G>(
    server: &Server<'_, H, G>,
    listening: &Listening<'_>,
    service: Service,
    output: &mut W,
) -> End
where
    H: Host + Threads + Send + Sync,
    W: Target,
    G: Gate + Notes + Drained + Slow + Sync,
{
    match &listening.door {
        Some(door) => serve_until_end(server, listening, door, service, output),
        None => serve_timed(server, listening, service, output),
    }
}

/// Serves clients, and looks for transactions that are open for long if some of the words ask for it.
pub fn serve_timed<H, W, G>(
    server: &Server<'_, H, G>,
    listening: &Listening<'_>,
    service: Service,
    output: &mut W,
) -> End
where
    H: Host + Threads + Send + Sync,
    W: Target,
    G: Gate + Notes + Drained + Slow + Sync,
{
    if service.slow.is_some() || service.limit.is_some() {
        return serve_watched(server, listening, service, output);
    }
    serve_said(server, listening, service, output)
}

/// Prints the lines, and serves clients. All other threads of the server run before, but for the dispatcher.
pub fn serve_said<H, W, G>(
    server: &Server<'_, H, G>,
    listening: &Listening<'_>,
    service: Service,
    output: &mut W,
) -> End
where
    H: Host + Threads + Send + Sync,
    W: Target,
    G: Gate + Notes + Drained + Sync,
{
    if say(output, &listening.lines).is_err() {
        let error = io::Error::other("standard output can't be written");
        return End::Stopped(refused(&error, server.gate));
    }
    server.gate.begin_serving();
    serve_clients(server, listening.clients, service)
}

/// At once, so that clients can connect.
fn say<W: Target>(output: &mut W, lines: &str) -> Result<(), Broken> {
    give_all(output, lines.as_bytes())?;
    output.flush()
}

/// Serves clients until all sessions have ended, or for good.
fn serve_clients<H: Host + Threads + Send + Sync, G: Gate + Notes + Sync>(
    server: &Server<'_, H, G>,
    clients: &Listener,
    service: Service,
) -> End {
    if service.forever {
        server.serve_forever(clients);
        return End::Done;
    }
    match server.serve(clients, service.sizes.connections) {
        Ok(()) => End::Done,
        Err(error) => End::Stopped(refused(&error, server.gate)),
    }
}
