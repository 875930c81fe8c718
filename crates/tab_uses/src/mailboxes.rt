//! A mailbox of a program's own, without a book.

ghost use Rattle.std.specs.Prelude.{IfOk, IfErr, None};
ghost use Rattle.tab_post.specs.Ends.{as_outbox, mailbox_of, received, AreNew};
ghost use Rattle.tab_uses.specs.Mailboxes.{IsTaken, IsHandedBack};

use std::alloc::{AllocError, Global};
use tab_outbox::{Mailbox, Met, Post, Refused, SharedItem};
use tab_post::{Channel, ChannelPost, Host, Inbox, Prefix, Register, Room, mailbox};

/// Puts an item into a new mailbox, and takes it out at the other end. Returns both ends, and the item: as it was taken, or as the post
/// refused it, since its other end is gone, which no contract excludes.
pub fn handed_over<H: Host>(
    rt: H,
    alloc: Global,
    register: &Register<Channel, H>,
    prefix: &mut Prefix<Channel, H>,
    item: SharedItem,
) -> Result<(ChannelPost<H>, Inbox<H>, Result<SharedItem, Refused>), AllocError>
    ensures taken { IfOk result
        (λ h. IfOk h.2 (λ x. IsTaken item x (mailbox_of h.1) (as_outbox h.0) (received h.1))) }
    ensures back { IfOk result
        (λ h. IfErr h.2 (λ r. IsHandedBack item r (mailbox_of h.1) (as_outbox h.0) (received h.1))) }
{
    let (mut post, mut inbox) = mailbox(rt, alloc, register, prefix, Room::of(1))?;
    let taken = exchanged(&mut post, &mut inbox, item);
    Ok((post, inbox, taken))
}

/// The same over the two ends of a new mailbox.
fn exchanged<H: Host>(
    post: &mut ChannelPost<H>,
    inbox: &mut Inbox<H>,
    item: SharedItem,
) -> Result<SharedItem, Refused>
    requires { AreNew (record { items = 1; bytes = None }) post.old inbox.old }
    ensures taken { IfOk result
        (λ x. IsTaken item x (mailbox_of inbox.new) (as_outbox post.new) (received inbox.new)) }
    ensures back { IfErr result
        (λ r. IsHandedBack item r (mailbox_of inbox.new) (as_outbox post.new) (received inbox.new)) }
{
    post.put(item)?;
    match post.meet(inbox) {
        Met::Going(taken) => Ok(taken),
        Met::Apart | Met::All => unreachable!(),
    }
}
