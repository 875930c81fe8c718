//! Joins, steps, folds and an audit are repeated if memory is refused for them: one refusal, at whatever call, changes
//! no reply. `rt try --test --fail-alloc N -- refused` refuses the Nth allocation; without a refusal it is one more
//! happy path.

ghost use Rattle.std.specs.Prelude.{◌≡◌};

use crate::clients::{ALL_TAKEN, BEGAN, Caller, Client, Taking, Watcher};
use crate::commands::{LIMITS, create, subscribe, write};
use std::alloc::{AllocError, Global};
use std::marker::{Brand, PhantomData};
use std::sync::Wait;
use std::test::*;
use tab_book::{Book, JoinFault, Opened, Seat, Shared};
use tab_model::{Command, Limits, Reply};
use tab_post::{Host, Inbox, Naming, Room};

/// The commands of the writer and of the watcher.
#[derive(Clone, Copy)]
enum Ask {
    Create,
    Watch,
    Begin,
    Write(i128),
    Commit,
}

/// A journal of two entries folds at each entry from the third on.
const ENTRIES: usize = 2;

/// The commands in turn, each with its reply.
static STEPS: [(Ask, u64); 11] = [
    (Ask::Create, DEFINED),
    (Ask::Watch, WATCHED),
    (Ask::Begin, 101),
    (Ask::Write(5), DONE),
    (Ask::Commit, 201),
    (Ask::Begin, 102),
    (Ask::Write(6), DONE),
    (Ask::Commit, 202),
    (Ask::Begin, 103),
    (Ask::Write(7), DONE),
    (Ask::Commit, 203),
];

const DONE: u64 = 1;

const DEFINED: u64 = 2;

const WATCHED: u64 = 3;

/// The watcher's items after them; its mailbox holds three.
static SHOWN: [u64; 5] = [BEGAN, 101, 102, 203, ALL_TAKEN];

fn command(alloc: Global, ask: Ask) -> Result<Command, AllocError> {
    match ask {
        Ask::Create => create(alloc),
        Ask::Watch => subscribe(alloc),
        Ask::Begin => Ok(Command::Begin),
        Ask::Write(value) => write(alloc, value),
        Ask::Commit => Ok(Command::Commit),
    }
}

/// A reply as a number: an age is 100 and the age, a commit 200 and its number.
fn number(reply: &Reply) -> u64 {
    match reply {
        Reply::Done => DONE,
        Reply::AtomicOk => DEFINED,
        Reply::SubscribedHere => WATCHED,
        Reply::Tid(age) => age.saturating_add(100),
        Reply::Atomic(commit) => commit.saturating_add(200),
        _ => 0,
    }
}

fn join<H: Host>(host: &H, shared: &Shared<H>) -> Result<(Seat, Inbox<H>), JoinFault> {
    match shared.join(host, &mut shared.seen()) {
        Err(JoinFault::NoMemory) => shared.join(host, &mut shared.seen()),
        joined => joined,
    }
}

/// The reply of the step, which is repeated if it finds no memory: only one allocation is refused.
fn told<C: Caller>(alloc: Global, client: &C, ask: Ask) -> Option<u64> {
    for _ in 0..2 {
        if let Ok(number) = told_once(alloc, client, ask) {
            return Some(number);
        }
    }
    None
}

fn told_once<C: Caller>(alloc: Global, client: &C, ask: Ask) -> Result<u64, AllocError> {
    let told = client.call(command(alloc, ask)?)?;
    Ok(number(told.reply()))
}

/// Returns whether the journal has its two last entries after a base of the commits before, and is a history of the
/// tables.
fn is_history<H: Host>(host: &H, shared: &Shared<H>) -> Result<bool, AllocError> {
    let audit = match shared.audit(host) {
        Err(_) => shared.audit(host)?,
        Ok(audit) => audit,
    };
    let book = shared.hold(host);
    let journal = book.journal();
    Ok(audit && journal.len() == ENTRIES && journal.base().commits() == 1)
}

/// The first step whose reply differs, or of the watcher's items the first that differs, numbered after the steps; None
/// if all is right.
fn differs<H: Host>(host: H, alloc: Global, opened: Opened) -> Result<Option<usize>, Fail>
    requires { opened ≡ H.books }
{
    let limits = Limits {
        journal: ENTRIES as u64,
        ..LIMITS
    };
    let book = Book::new(host, alloc, opened, limits).map_err(|_| "no book")?;
    differs_in(&host, alloc, &Shared::new(book, Room::of(3)))
}

fn differs_in<H: Host>(host: &H, alloc: Global, shared: &Shared<H>) -> Result<Option<usize>, Fail> {
    let (seat, _inbox) = join(host, shared).map_err(|_| "no writer")?;
    let writer = Client { host, shared, seat };
    watched_differs(alloc, &writer)
}

fn watched_differs<H: Host>(alloc: Global, writer: &Client<'_, H>) -> Result<Option<usize>, Fail> {
    let (host, shared) = (writer.host, writer.shared);
    let (seat, inbox) = join(host, shared).map_err(|_| "no watcher")?;
    let client = Client { host, shared, seat };
    let mut watcher = Taking {
        host,
        shared,
        seat,
        inbox,
    };
    let differs = any_differs(alloc, writer, &client, &mut watcher);
    let is_history = is_history(host, shared) == Ok(true);
    Ok(if differs.is_none() && !is_history {
        Some(STEPS.len() + SHOWN.len())
    } else {
        differs
    })
}

fn any_differs<C: Caller, W: Watcher>(
    alloc: Global,
    writer: &C,
    watching: &C,
    watcher: &mut W,
) -> Option<usize> {
    match step_differs(alloc, writer, watching) {
        None => shown_differs(watcher),
        differs => differs,
    }
}

fn step_differs<C: Caller>(alloc: Global, writer: &C, watching: &C) -> Option<usize> {
    for (place, (ask, wanted)) in STEPS.iter().enumerate() {
        let client = if matches!(ask, Ask::Watch) {
            watching
        } else {
            writer
        };
        if told(alloc, client, *ask) != Some(*wanted) {
            return Some(place);
        }
    }
    None
}

fn shown_differs<W: Watcher>(watcher: &mut W) -> Option<usize> {
    for (place, wanted) in SHOWN.iter().enumerate() {
        if watcher.shown() != *wanted {
            return Some(STEPS.len() + place);
        }
    }
    None
}

fn differs_named<J: Naming, R: Wait + Copy>(
    rt: R,
    alloc: Global,
    opened: Opened,
) -> Result<Option<usize>, Fail>
    requires { opened ≡ J.books }
{
    differs((rt, PhantomData::<J>), alloc, opened)
}

#[test]
fn a_refused_step_is_made_again(rt: HostRuntime) -> Result<(), Fail> {
    let differs = differs_named::<Brand, _>(rt, rt.alloc(), Opened::new())?;
    assert!(rt; differs == None, "a step");
    Ok(())
}
