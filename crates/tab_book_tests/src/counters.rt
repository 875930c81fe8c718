//! Four threads, each with a session, that raise one record.

ghost use Rattle.std.specs.Prelude.{◌≡◌, ◌≤◌};

use crate::clients::{Caller, Client, join_all};
use crate::commands::{
    LIMITS, create, number_of, read_for_write, record, value_in, value_logged, write,
};
use std::alloc::{AllocError, Global};
use std::marker::{Brand, PhantomData};
use std::sync::Wait;
use std::sync::atomic::{AtomicU64, Ordering};
use std::test::*;
use std::thread;
use std::thread::Threads;
use tab_book::{Book, Opened, Seat, Shared};
use tab_journal::Journal;
use tab_model::{Change, Command, Entry, Limits, Reply};
use tab_post::{Host, Inbox, Naming, Room};
use tab_rows::Update;
use tab_tables::{Catalog, Lender};

const THREADS: usize = 4;

const EACH: usize = 50;

/// A thread's results of a transaction: its age, the number of its commit, and the value that it read last.
#[derive(Clone, Copy)]
struct Raised {
    age: u64,
    commit: u64,
    value: i128,
}

/// The value that is read for a write; None if the transaction is restarted.
fn value_read<C: Caller>(alloc: Global, client: &C) -> Result<Option<i128>, AllocError> {
    let found = client.call(read_for_write(alloc)?)?;
    Ok(value_in(found.reply()))
}

fn is_done(reply: &Reply) -> bool {
    match reply {
        Reply::Done => true,
        _ => false,
    }
}

/// One attempt to raise the record. Returns the value that was read; None if it has to be repeated.
fn attempt<C: Caller>(alloc: Global, client: &C) -> Result<Option<i128>, AllocError> {
    let Some(value) = value_read(alloc, client)? else {
        return Ok(None);
    };
    let told = client.call(write(alloc, value.saturating_add(1))?)?;
    Ok(is_done(told.reply()).then_some(value))
}

/// The age that a begin gave, 0 if it gave none.
fn age_of(reply: &Reply) -> u64 {
    match reply {
        Reply::Tid(age) => *age,
        _ => 0,
    }
}

/// A transaction is begun once, and made again until it commits.
fn raise<H: Host, C: Caller>(host: &H, alloc: Global, client: &C) -> Result<Raised, AllocError> {
    let age = age_of(client.call(Command::Begin)?.reply());
    for _ in host.forever() {
        if let Some(value) = attempt(alloc, client)? {
            let commit = number_of(client.call(Command::Commit)?.reply());
            return Ok(Raised { age, commit, value });
        }
    }
    unreachable!()
}

/// Returns whether it read the value that the commits before wrote.
fn is_next(raised: Raised) -> bool {
    raised.value.saturating_add(2) == raised.commit as i128
}

/// Returns whether it is this transaction of this session, which read the value that the commits before wrote.
fn is_commit(entry: &Entry, session: u32, raised: Raised) -> bool {
    match entry {
        Entry::Committed {
            number,
            session: by,
            age,
            told,
            ..
        } => match told.items.as_slice() {
            [Some(first), ..] => {
                *number == raised.commit
                    && *by == session
                    && *age == raised.age
                    && value_logged(first) == Some(raised.value)
                    && is_next(raised)
            }
            _ => false,
        },
        _ => false,
    }
}

/// Returns whether the journal has such an entry, or has folded its commit away since.
fn is_entered<H: Host>(host: &H, shared: &Shared<H>, seat: &Seat, raised: Raised) -> bool {
    let book = shared.book.lock(host);
    let journal = book.journal();
    let is_folded = raised.commit <= journal.base().commits();
    let mut is_found = is_folded && is_next(raised);
    for place in 0..journal.len() {
        if let Some(entry) = journal.entry(place) {
            is_found |= is_commit(entry, seat.session(), raised);
        }
    }
    is_found
}

fn raise_all<H: Host>(
    host: &H,
    alloc: Global,
    shared: &Shared<H>,
    seat: &Seat,
    entered: &AtomicU64,
) {
    let seat = *seat;
    let client = Client { host, shared, seat };
    for _ in 0..EACH {
        if let Ok(raised) = raise(host, alloc, &client) {
            if is_entered(host, shared, &seat, raised) {
                entered.fetch_add(1, Ordering::SeqCst);
            }
        }
    }
}

/// Starts a thread for each session. Counts the commits that their threads found entered.
fn run_threads<H: Host + Threads + Send + Sync>(
    host: &H,
    alloc: Global,
    shared: &Shared<H>,
    sessions: &[Seat],
    entered: &AtomicU64,
) {
    thread::scope(thread::scope_env(), host, |scope| {
        for seat in sessions {
            let started = scope.spawn(move || raise_all(host, alloc, shared, seat, entered));
            if started.is_err() {
                shared.leave(host, seat, &mut shared.seen());
            }
        }
    });
}

/// The result in the end.
#[derive(Clone, Copy, PartialEq, Eq)]
struct Counts {
    entries: usize,
    /// The last commit in the journal's base, and in the journal.
    base: u64,
    last: u64,
    /// Of the record.
    value: Option<i128>,
    audit: bool,
    /// Against tables in which the record has one less.
    other_audit: bool,
    /// The number of the threads' commits that were in the journal, or folded before the look: not so the last 16.
    entered: u64,
}

/// The number of the last entry's commit, 0 if it is none.
fn last_number(journal: &Journal) -> u64 {
    match journal.entry(journal.len().saturating_sub(1)) {
        Some(Entry::Committed { number, .. }) => *number,
        _ => 0,
    }
}

fn count<H: Host + Threads + Send + Sync>(
    host: H,
    alloc: Global,
    opened: Opened,
    limits: Limits,
) -> Result<Counts, Fail>
    requires opened { opened ≡ H.books }
    requires sessions { limits.sessions ≤ 64 }
    requires journal { 1 ≤ limits.journal }
    requires journal_bytes { 1 ≤ limits.journal_bytes }
{
    let shared = Shared::new(Book::new(host, alloc, opened, limits)?, Room::of(64));
    count_in(&host, alloc, &shared)
}

fn count_in<H: Host + Threads + Send + Sync>(
    host: &H,
    alloc: Global,
    shared: &Shared<H>,
) -> Result<Counts, Fail> {
    let mut sessions = Vec::new(alloc);
    let mut inboxes = Vec::new(alloc);
    join_and_count(host, alloc, shared, &mut sessions, &mut inboxes)
}

fn join_and_count<H: Host + Threads + Send + Sync>(
    host: &H,
    alloc: Global,
    shared: &Shared<H>,
    sessions: &mut Vec<Seat>,
    inboxes: &mut Vec<Inbox<H>>,
) -> Result<Counts, Fail> {
    join_all(host, shared, THREADS, sessions, inboxes)?;
    let seat = *sessions.first().ok_or("no seat")?;
    let first = Client { host, shared, seat };
    begin_at_0(alloc, &first)?;
    let entered = AtomicU64::new(0);
    run_threads(host, alloc, shared, sessions, &entered);
    let value = last_value(alloc, &first)?;
    let audit = shared.audit(host)?;
    let counts = counts_in(host, alloc, shared)?;
    Ok(Counts {
        value,
        audit,
        entered: entered.load(Ordering::SeqCst),
        ..counts
    })
}

/// The value that the first session reads in the end.
fn last_value<C: Caller>(alloc: Global, client: &C) -> Result<Option<i128>, AllocError> {
    client.call(Command::Begin)?;
    value_read(alloc, client)
}

/// What the journal has, and an audit of it against other tables.
fn counts_in<H: Host>(host: &H, alloc: Global, shared: &Shared<H>) -> Result<Counts, AllocError> {
    let book = shared.book.lock(host);
    let journal = book.journal();
    let other_audit = is_history_of_199(alloc, journal, book.tables())?;
    Ok(Counts {
        entries: journal.len(),
        base: journal.base().commits(),
        last: last_number(journal),
        value: None,
        audit: false,
        other_audit,
        entered: 0,
    })
}

/// The first commit makes the record, with 0.
fn begin_at_0<C: Caller>(alloc: Global, client: &C) -> Result<(), AllocError> {
    client.call(create(alloc)?)?;
    client.call(Command::Begin)?;
    client.call(write(alloc, 0)?)?;
    client.call(Command::Commit)?;
    Ok(())
}

/// Returns whether the journal ends in tables in which the record has 199.
fn is_history_of_199(
    alloc: Global,
    journal: &Journal,
    tables: &Catalog,
) -> Result<bool, AllocError> {
    let update = Update::new(Change::Write(record(alloc, 199)?));
    let others = tables.updated(alloc, &[update], &Lender::None)?;
    journal.audit(alloc, journal.base(), &others)
}

fn count_named<J: Naming + Send + Sync, R: Threads + Wait + Copy + Send + Sync>(
    rt: R,
    alloc: Global,
    opened: Opened,
    limits: Limits,
) -> Result<Counts, Fail>
    requires opened { opened ≡ J.books }
    requires sessions { limits.sessions ≤ 64 }
    requires journal { 1 ≤ limits.journal }
    requires journal_bytes { 1 ≤ limits.journal_bytes }
{
    count((rt, PhantomData::<J>), alloc, opened, limits)
}

#[test]
fn each_raise_counts_once(rt: HostRuntime) -> Result<(), Fail> {
    let counts = count_named::<Brand, _>(rt, rt.alloc(), Opened::new(), LIMITS)?;
    let wanted = Counts {
        entries: 202,
        base: 0,
        last: 201,
        value: Some(200),
        audit: true,
        other_audit: false,
        entered: 200,
    };
    assert!(rt; counts == wanted);
    Ok(())
}

#[test]
fn a_short_journal_folds(rt: HostRuntime) -> Result<(), Fail> {
    let limits = Limits {
        journal: 16,
        ..LIMITS
    };
    let counts = count_named::<Brand, _>(rt, rt.alloc(), Opened::new(), limits)?;
    let wanted = Counts {
        entries: 16,
        base: 185,
        last: 201,
        value: Some(200),
        audit: true,
        other_audit: false,
        entered: 200,
    };
    assert!(rt; counts == wanted);
    Ok(())
}
