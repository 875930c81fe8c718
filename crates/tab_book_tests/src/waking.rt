//! A session that waits for a request that goes with its level: the step that drops the request reports it, and so
//! wakes the session.

ghost use Rattle.std.specs.Prelude.{◌≡◌};

use crate::clients::join_all;
use crate::commands::{LIMITS, create, read, write};
use std::alloc::{AllocError, Global};
use std::marker::{Brand, PhantomData};
use std::sync::Wait;
use std::test::*;
use tab_book::{Answered, Book, Opened, Seat, Shared, Step};
use tab_model::{Command, Reply};
use tab_post::{Host, Inbox, Naming, Room};
use tab_term::Term;

/// A command of a session.
#[derive(Clone, Copy)]
enum Ask {
    Begin,
    Read,
    Write,
    Abort,
    Retry,
}

/// The result of a step.
#[derive(Clone, Copy, PartialEq, Eq)]
enum Then {
    Answered,
    Waits,
    /// It is answered, and others may go on since.
    Releases,
}

/// Each step with its session, by age, and its result. The second writes in a child the record that the third has read;
/// the first waits only for the second.
static STEPS: [(usize, Ask, Then); 10] = [
    (0, Ask::Begin, Then::Answered),
    (1, Ask::Begin, Then::Answered),
    (2, Ask::Begin, Then::Answered),
    (2, Ask::Read, Then::Answered),
    (1, Ask::Begin, Then::Answered),
    (1, Ask::Write, Then::Waits),
    (0, Ask::Read, Then::Waits),
    (0, Ask::Retry, Then::Waits),
    (1, Ask::Abort, Then::Releases),
    (0, Ask::Retry, Then::Answered),
];

fn step_of(alloc: Global, ask: Ask) -> Result<Step, AllocError> {
    Ok(match ask {
        Ask::Begin => Step::Do(Command::Begin),
        Ask::Read => Step::Do(read(alloc)?),
        Ask::Write => Step::Do(write(alloc, 1)?),
        Ask::Abort => Step::Do(Command::Abort(Term::Int(0))),
        Ask::Retry => Step::Retry,
    })
}

fn then_of(answered: &Answered) -> Then {
    match answered.told.reply() {
        Reply::Waiting => Then::Waits,
        _ if answered.releases => Then::Releases,
        _ => Then::Answered,
    }
}

fn stepped<H: Host>(
    host: &H,
    alloc: Global,
    shared: &Shared<H>,
    seat: &Seat,
    ask: Ask,
) -> Result<Then, AllocError> {
    let step = step_of(alloc, ask)?;
    let mut book = shared.hold(host);
    let answered = book.step(seat.session(), step)?;
    let then = then_of(&answered);
    shared.let_go(host, book, answered.releases);
    Ok(then)
}

/// The first step that differs.
fn make_steps<H: Host>(host: H, alloc: Global, opened: Opened) -> Result<Option<usize>, Fail>
    requires { opened ≡ H.books }
{
    let shared = Shared::new(Book::new(host, alloc, opened, LIMITS)?, Room::of(64));
    make_steps_in(&host, alloc, &shared)
}

fn make_steps_in<H: Host>(
    host: &H,
    alloc: Global,
    shared: &Shared<H>,
) -> Result<Option<usize>, Fail> {
    let mut sessions = Vec::new(alloc);
    let mut inboxes = Vec::new(alloc);
    join_and_step(host, alloc, shared, &mut sessions, &mut inboxes)
}

fn join_and_step<H: Host>(
    host: &H,
    alloc: Global,
    shared: &Shared<H>,
    sessions: &mut Vec<Seat>,
    inboxes: &mut Vec<Inbox<H>>,
) -> Result<Option<usize>, Fail> {
    join_all(host, shared, 3, sessions, inboxes)?;
    let first = *sessions.first().ok_or("no seat")?;
    shared.call(host, &first, create(alloc)?, &mut shared.seen())?;
    step_differs(host, alloc, shared, sessions)
}

fn step_differs<H: Host>(
    host: &H,
    alloc: Global,
    shared: &Shared<H>,
    sessions: &[Seat],
) -> Result<Option<usize>, Fail> {
    for (line, (of, ask, then)) in STEPS.iter().enumerate() {
        let seat = *sessions.get(*of).ok_or("no seat")?;
        if stepped(host, alloc, shared, &seat, *ask)? != *then {
            return Ok(Some(line));
        }
    }
    Ok(None)
}

fn make_named_steps<J: Naming, R: Wait + Copy>(
    rt: R,
    alloc: Global,
    opened: Opened,
) -> Result<Option<usize>, Fail>
    requires { opened ≡ J.books }
{
    make_steps((rt, PhantomData::<J>), alloc, opened)
}

#[test]
fn a_dropped_request_lets_others_go_on(rt: HostRuntime) -> Result<(), Fail> {
    let differs = make_named_steps::<Brand, _>(rt, rt.alloc(), Opened::new())?;
    assert!(rt; differs == None, "a step");
    Ok(())
}
