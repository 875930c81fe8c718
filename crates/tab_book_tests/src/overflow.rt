//! A mailbox of two items that overflows twice, with a subscription after each, and reports each once.

ghost use Rattle.std.specs.Prelude.{◌≡◌};

use crate::clients::{ALL_TAKEN, BEGAN, Caller, Client, LEFT, Taking, Watcher};
use crate::commands::{LIMITS, create, number_of, subscribe, write};
use std::alloc::{AllocError, Global};
use std::marker::{Brand, PhantomData};
use std::sync::Wait;
use std::test::*;
use tab_book::{Book, Opened, Shared};
use tab_model::{Command, Reply};
use tab_post::{Host, Inbox, Naming, Room};

/// The numbers of three commits, which begin after a begin marker that is taken, and the reader's items then, in turn.
static ROUNDS: [([u64; 3], [u64; 4]); 2] = [
    ([1, 2, 3], [101, 102, 203, ALL_TAKEN]),
    ([4, 5, 6], [104, 105, 206, ALL_TAKEN]),
];

fn is_here(reply: &Reply) -> bool {
    match reply {
        Reply::SubscribedHere => true,
        _ => false,
    }
}

fn is_untold(reply: &Reply) -> bool {
    match reply {
        Reply::OverflowUntold => true,
        _ => false,
    }
}

fn commit<C: Caller>(alloc: Global, client: &C) -> Result<u64, AllocError> {
    client.call(Command::Begin)?;
    client.call(write(alloc, 1)?)?;
    let told = client.call(Command::Commit)?;
    Ok(number_of(told.reply()))
}

/// Returns whether the reader subscribes, and is shown its begin marker.
fn watches<C: Caller, W: Watcher>(
    alloc: Global,
    client: &C,
    watcher: &mut W,
) -> Result<bool, AllocError> {
    let told = client.call(subscribe(alloc)?)?;
    Ok(is_here(told.reply()) && watcher.shown() == BEGAN)
}

/// Returns whether the commits have these numbers.
fn commits<C: Caller>(alloc: Global, client: &C, numbers: &[u64]) -> Result<bool, AllocError> {
    let mut right = true;
    for number in numbers {
        right &= commit(alloc, client)? == *number;
    }
    Ok(right)
}

/// Returns whether the reader is shown all of these.
fn are_shown<W: Watcher>(watcher: &mut W, items: &[u64]) -> bool {
    let mut right = true;
    for wanted in items {
        right &= watcher.shown() == *wanted;
    }
    right
}

/// Returns whether the reader, which overflowed, is refused a subscription until it was shown all of these.
fn is_told<C: Caller, W: Watcher>(
    alloc: Global,
    client: &C,
    watcher: &mut W,
    items: &[u64],
) -> Result<bool, AllocError> {
    let refused = client.call(subscribe(alloc)?)?;
    Ok(is_untold(refused.reply()) && are_shown(watcher, items))
}

/// Returns whether both rounds are right. The watcher of another session's inbox is shown nothing.
fn rounds_are_right<C: Caller, W: Watcher>(
    alloc: Global,
    writer: &C,
    reader: &C,
    watcher: &mut W,
    other: &mut W,
) -> Result<bool, AllocError> {
    writer.call(create(alloc)?)?;
    let mut right = true;
    for (numbers, items) in &ROUNDS {
        right &= watches(alloc, reader, watcher)?;
        right &= commits(alloc, writer, numbers)?;
        right &= other.shown() == ALL_TAKEN;
        right &= is_told(alloc, reader, watcher, items)?;
    }
    Ok(right && watches(alloc, reader, watcher)?)
}

/// Three commits while nobody takes from a mailbox of two items, twice.
fn overflow<H: Host>(host: H, alloc: Global, opened: Opened) -> Result<bool, Fail>
    requires { opened ≡ H.books }
{
    let shared = Shared::new(Book::new(host, alloc, opened, LIMITS)?, Room::of(2));
    overflow_in(&host, alloc, &shared)
}

fn overflow_in<H: Host>(host: &H, alloc: Global, shared: &Shared<H>) -> Result<bool, Fail> {
    let (seat, inbox) = shared.join(host, &mut shared.seen()).map_err(|_| "join")?;
    let writer = Client { host, shared, seat };
    overflow_of(alloc, &writer, inbox)
}

/// The reader, which leaves in the end, and the writer's inbox.
fn overflow_of<H: Host>(
    alloc: Global,
    writer: &Client<'_, H>,
    others: Inbox<H>,
) -> Result<bool, Fail> {
    let (host, shared) = (writer.host, writer.shared);
    let (seat, inbox) = shared.join(host, &mut shared.seen()).map_err(|_| "join")?;
    let reader = Client { host, shared, seat };
    let mut other = Taking {
        host,
        shared,
        seat,
        inbox: others,
    };
    let mut watcher = Taking {
        host,
        shared,
        seat,
        inbox,
    };
    let right = rounds_are_right(alloc, writer, &reader, &mut watcher, &mut other);
    shared.leave(host, &seat, &mut shared.seen());
    Ok(right == Ok(true) && watcher.shown() == LEFT)
}

fn overflow_named<J: Naming, R: Wait + Copy>(
    rt: R,
    alloc: Global,
    opened: Opened,
) -> Result<bool, Fail>
    requires { opened ≡ J.books }
{
    overflow((rt, PhantomData::<J>), alloc, opened)
}

#[test]
fn each_overflow_is_told_once(rt: HostRuntime) -> Result<(), Fail> {
    let right = overflow_named::<Brand, _>(rt, rt.alloc(), Opened::new())?;
    assert!(rt; right);
    Ok(())
}
