//! Two mailboxes of two items, call by call, and a thousand items from one thread to another through a mailbox of four.

ghost use Rattle.std.specs.Prelude.{◌≡◌};

use std::alloc::{AllocError, Global};
use std::marker::{Brand, PhantomData};
use std::process::Abort;
use std::sync::Wait;
use std::test::*;
use std::thread::{Threads, join};
use tab_lists::EventTerms;
use tab_outbox::{Item, Mailbox, Met, Post, Refused, SharedItem};
use tab_post::{Channel, ChannelPost, Host, Inbox, Naming, NewMailbox, Opened, Room};

/// Items are batches without events, known by their commits.
enum Call {
    Put(u64),
    /// It is returned, since the mailbox is full.
    Full(u64),
    /// Nothing is taken at this end.
    Pull,
    Refusals(u64),
    Apart,
    Going(u64),
    All,
    Receive(u64),
}

/// Each call with the mailboxes that its post and its inbox are of.
static CALLS: [(usize, usize, Call); 31] = [
    (0, 1, Call::Apart),
    (1, 0, Call::Apart),
    (0, 0, Call::All),
    (0, 0, Call::Put(1)),
    (0, 0, Call::Put(2)),
    (0, 0, Call::Full(3)),
    (0, 0, Call::Refusals(1)),
    (1, 1, Call::Refusals(0)),
    (1, 1, Call::Put(4)),
    (0, 0, Call::Pull),
    // The items in the one mailbox or the other make no difference.
    (0, 1, Call::Apart),
    (1, 0, Call::Apart),
    (0, 0, Call::Going(1)),
    (0, 0, Call::Receive(2)),
    (0, 0, Call::All),
    (0, 1, Call::Apart),
    (1, 1, Call::Going(4)),
    (1, 1, Call::All),
    (1, 1, Call::Put(5)),
    (1, 0, Call::Apart),
    (1, 1, Call::Receive(5)),
    // Both items are taken by meetings, and the mailbox goes on after them.
    (0, 0, Call::Put(6)),
    (0, 0, Call::Put(7)),
    (0, 0, Call::Full(8)),
    (0, 0, Call::Refusals(2)),
    (0, 0, Call::Pull),
    (0, 0, Call::Going(6)),
    (0, 0, Call::Going(7)),
    (0, 0, Call::All),
    (0, 0, Call::Put(8)),
    (0, 0, Call::Receive(8)),
];

/// No item has this number.
const NONE: u64 = 1_000_000;

fn batch(alloc: Global, commit: u64) -> Result<SharedItem, AllocError> {
    SharedItem::new(alloc, Item::Batch(commit, EventTerms::new(alloc)))
}

fn number_of(item: &Item) -> u64 {
    match item {
        Item::Batch(number, _) => *number,
        _ => NONE,
    }
}

fn received<H: Host>(inbox: &mut Inbox<H>) -> u64 {
    match inbox.receive() {
        Some(item) => number_of(item.item()),
        None => NONE,
    }
}

/// The item that is returned since the mailbox is full, or since nobody takes any more; None if it is put.
fn put<H: Host>(post: &mut ChannelPost<H>, item: SharedItem) -> Option<(bool, SharedItem)> {
    match post.put(item) {
        Ok(()) => None,
        Err(Refused::Full(back)) => Some((true, back)),
        Err(Refused::Gone(back)) => Some((false, back)),
    }
}

fn is_put<H: Host>(post: &mut ChannelPost<H>, alloc: Global, commit: u64) -> bool {
    match batch(alloc, commit) {
        Ok(item) => put(post, item).is_none(),
        Err(_) => false,
    }
}

fn is_handed_back<H: Host>(
    post: &mut ChannelPost<H>,
    alloc: Global,
    commit: u64,
    full: bool,
) -> bool {
    let Ok(item) = batch(alloc, commit) else {
        return false;
    };
    match put(post, item) {
        Some((is_full, item)) => is_full == full && number_of(item.item()) == commit,
        None => false,
    }
}

/// The result of a meeting: the item that was taken, or a number over NONE.
fn met<H: Host>(post: &mut ChannelPost<H>, inbox: &mut Inbox<H>) -> u64 {
    match post.meet(inbox) {
        Met::Going(item) => number_of(item.item()),
        Met::Apart => NONE + 1,
        Met::All => NONE + 2,
    }
}

fn is_right<H: Host>(
    alloc: Global,
    post: &mut ChannelPost<H>,
    inbox: &mut Inbox<H>,
    call: &Call,
) -> bool {
    match call {
        Call::Put(commit) => is_put(post, alloc, *commit),
        Call::Full(commit) => is_handed_back(post, alloc, *commit, true),
        Call::Pull => post.pull().is_none(),
        Call::Refusals(count) => post.refusals() == *count,
        Call::Apart => met(post, inbox) == NONE + 1,
        Call::Going(commit) => met(post, inbox) == *commit,
        Call::All => met(post, inbox) == NONE + 2,
        Call::Receive(commit) => received(inbox) == *commit,
    }
}

/// The first call that differs. In the end nothing more comes from a post that is gone, and nobody takes for an inbox that is.
fn make_calls<H: Host>(
    rt: H,
    alloc: Global,
    opened: Opened<Channel>,
) -> Result<Option<usize>, AllocError>
    requires { opened ≡ H.books.mailboxes }
{
    let (register, mut prefix) = opened.named::<H>();
    let (first, second) = (
        NewMailbox::new(alloc, Room::of(2))?,
        NewMailbox::new(alloc, Room::of(2))?,
    );
    let (mut post, mut inbox) = first.enter(&register, &mut prefix, rt);
    let (mut other, mut others) = second.enter(&register, &mut prefix, rt);
    let differs = call_differs(alloc, &mut post, &mut other, &mut inbox, &mut others);
    let is_refused = is_refused(alloc, post, inbox);
    let is_empty = is_empty(other, others);
    Ok(if differs.is_none() && !(is_refused && is_empty) {
        Some(CALLS.len())
    } else {
        differs
    })
}

/// Returns whether a post whose inbox is gone gives an item back.
fn is_refused<H: Host>(alloc: Global, mut post: ChannelPost<H>, inbox: Inbox<H>) -> bool {
    drop(inbox);
    is_handed_back(&mut post, alloc, 6, false)
}

/// Returns whether an inbox whose post is gone has nothing.
fn is_empty<H: Host>(post: ChannelPost<H>, mut inbox: Inbox<H>) -> bool {
    drop(post);
    received(&mut inbox) == NONE
}

fn call_differs<H: Host>(
    alloc: Global,
    post: &mut ChannelPost<H>,
    other: &mut ChannelPost<H>,
    inbox: &mut Inbox<H>,
    others: &mut Inbox<H>,
) -> Option<usize> {
    for (line, (of_post, of_inbox, call)) in CALLS.iter().enumerate() {
        let is_right = match (of_post, of_inbox) {
            (0, 0) => is_right(alloc, post, inbox, call),
            (0, _) => is_right(alloc, post, others, call),
            (_, 0) => is_right(alloc, other, inbox, call),
            _ => is_right(alloc, other, others, call),
        };
        if !is_right {
            return Some(line);
        }
    }
    None
}

fn make_named_calls<J: Naming, R: Wait + Copy>(
    rt: R,
    alloc: Global,
    opened: Opened<Channel>,
) -> Result<Option<usize>, AllocError>
    requires { opened ≡ J.books.mailboxes }
{
    make_calls((rt, PhantomData::<J>), alloc, opened)
}

#[test]
fn two_mailboxes(rt: HostRuntime) {
    let differs = make_named_calls::<Brand, _>(rt, rt.alloc(), Opened::new());
    assert!(rt; differs == Ok(None), "a call");
}

const COUNT: u64 = 1000;

/// Puts all of them in order, and again what came back since the mailbox was full.
fn put_all<H: Host>(rt: H, alloc: Global, mut post: ChannelPost<H>) -> ChannelPost<H> {
    let mut next = 0;
    for _ in rt.forever() {
        if next >= COUNT {
            break;
        }
        if is_put(&mut post, alloc, next) {
            next += 1;
        }
    }
    post
}

/// Waits for each of them in turn.
fn receive_all<H: Host + Abort>(rt: H, mut inbox: Inbox<H>) -> Inbox<H> {
    for commit in 0..COUNT {
        assert!(rt; received(&mut inbox) == commit, "item {commit}");
    }
    inbox
}

fn exchange<H: Host + Threads + Abort + Send + Sync>(
    rt: H,
    alloc: Global,
    opened: Opened<Channel>,
) -> Result<(), AllocError>
    requires { opened ≡ H.books.mailboxes }
{
    let (register, mut prefix) = opened.named::<H>();
    let (post, inbox) = NewMailbox::new(alloc, Room::of(4))?.enter(&register, &mut prefix, rt);
    let (mut post, mut inbox) = join(
        &rt,
        move || put_all(rt, alloc, post),
        move || receive_all(rt, inbox),
    );
    assert!(rt; met(&mut post, &mut inbox) == NONE + 2);
    Ok(())
}

fn exchange_named<J: Naming + Send + Sync, R: Wait + Threads + Abort + Copy + Send + Sync>(
    rt: R,
    alloc: Global,
    opened: Opened<Channel>,
) -> Result<(), AllocError>
    requires { opened ≡ J.books.mailboxes }
{
    exchange((rt, PhantomData::<J>), alloc, opened)
}

#[test]
fn a_thousand_in_order(rt: HostRuntime) {
    let done = exchange_named::<Brand, _>(rt, rt.alloc(), Opened::new());
    assert!(rt; done.is_ok(), "memory");
}
