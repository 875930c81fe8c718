//! A new mailbox, in one call.

ghost use Rattle.std.specs.Prelude.{◌≡◌, ◌<◌, IfOk, OnErr};
ghost use Rattle.tab_post.specs.Ends.{mailbox_of, AreNew};
ghost use Rattle.tab_post.specs.Register.{IsFresh};

use crate::ends::NewMailbox;
use crate::inbox::Inbox;
use crate::naming::Host;
use crate::post::{Channel, ChannelPost};
use crate::prefix::Prefix;
use crate::register::Register;
use crate::room::Room;
use std::alloc::{AllocError, Global};

/// A mailbox that holds as much as `room` says, and its place in the register: its post and its inbox. It has room for all
/// that it may hold, so no put takes memory.
pub fn mailbox<H: Host>(
    rt: H,
    alloc: Global,
    register: &Register<Channel, H>,
    prefix: &mut Prefix<Channel, H>,
    room: Room,
) -> Result<(ChannelPost<H>, Inbox<H>), AllocError>
    requires { 0 < room.items }
    ensures new { IfOk result (λ ends. AreNew room ends.0 ends.1) }
    ensures fresh { IfOk result (λ ends. IsFresh prefix.old prefix.new (mailbox_of ends.1)) }
    ensures err { OnErr result (prefix.new ≡ prefix.old) }
{
    let ends = NewMailbox::new(alloc, room)?;
    Ok(ends.enter(register, prefix, rt))
}
