//! The two ends of a new mailbox.

ghost use Rattle.std.specs.Prelude.{◌≡◌, true, [], IfOk};
ghost use Rattle.crossbeam_channel.specs.Claims.{view, IsSeatAt};
ghost use Rattle.crossbeam_channel.specs.Ends.{sends_on, receives_on, ruled_capacity};
ghost use Rattle.tab_post.specs.Register.{IsHeldAt, IsFresh};
ghost use Rattle.tab_post.specs.Rule.{pass_view};
ghost use Rattle.tab_post.specs.Weights.{no_weights};

use crate::inbox::Inbox;
use crate::naming::Host;
use crate::post::{Channel, ChannelPost};
use crate::prefix::Prefix;
use crate::register::Register;
use crate::room::Room;
use crate::rule::{Ends, InOrder, PassView};
use crate::tally::Tally;
use crate::weights::Weights;
use crossbeam_channel::{Pass, RuledReceiver, bounded_with};
use std::alloc::{AllocError, Global};
use tab_outbox::SharedItem;

/// A mailbox into which nothing was put and which has no place yet. It has room for all that it may hold, so it takes long
/// to make; to give it a place takes no memory.
#[derive(Drop)]
pub struct NewMailbox {
    sender: Channel,
    receiver: RuledReceiver<SharedItem, PassView, InOrder>,
    pass: Pass<SharedItem, PassView>,
    weights: Option<Weights>,
    tally: Option<Tally>,
    ghost ends: { receives_on receiver ≡ sends_on sender },
    ghost seated: { IsSeatAt (sends_on sender) pass },
    ghost new: { view pass ≡ pass_view true true [] [] },
    ghost weighed: { weights ≡ no_weights (ruled_capacity (sends_on sender)) tally },
}

impl NewMailbox {
    ghost use Rattle.std.specs.Prelude.{◌<◌};
    ghost use Rattle.tab_post.specs.Ends.{mailbox_of, room_of, AreNew};

    /// It holds as much as `room` says.
    pub fn new(alloc: Global, room: Room) -> Result<NewMailbox, AllocError>
        requires { 0 < room.items }
        ensures { IfOk result (λ m. room_of m ≡ room) }
    {
        let (weights, tally) = weighed(alloc, room)?;
        let (sender, receiver, pass) = bounded_with::<SharedItem, PassView, InOrder, Global>(
            alloc, room.items,
        )?;
        Ok(NewMailbox {
            sender,
            receiver,
            pass,
            weights,
            tally,
        })
    }

    /// Its two ends, with a place of its own in the register.
    pub fn enter<H: Host>(
        self,
        register: &Register<Channel, H>,
        prefix: &mut Prefix<Channel, H>,
        rt: H,
    ) -> (ChannelPost<H>, Inbox<H>)
        ensures new { AreNew (room_of self) result.0 result.1 }
        ensures fresh { IsFresh prefix.old prefix.new (mailbox_of result.1) }
    {
        let NewMailbox {
            sender,
            receiver,
            mut pass,
            weights,
            tally,
        } = self;
        let place = take_place(register, prefix, rt, &sender);
        let taking = sender.another::<Ends>(&mut pass);
        (
            ChannelPost {
                rt,
                channel: sender,
                pass,
                refusals: 0,
                puts: 0,
                place,
                prefix: prefix.again(),
                weights,
            },
            Inbox {
                rt,
                channel: receiver,
                pass: taking,
                place,
                prefix: prefix.again(),
                tally,
            },
        )
    }
}

/// The weights that a post keeps and their tally, if there is a limit of bytes.
fn weighed(alloc: Global, room: Room) -> Result<(Option<Weights>, Option<Tally>), AllocError>
    ensures none { IfOk result (λ r. r.0 ≡ no_weights room.items r.1) }
    ensures limit { IfOk result (λ r. r.1 ≡ room.bytes) }
{
    let Some(limit) = room.bytes else {
        return Ok((None, None));
    };
    let tally = Tally::new(alloc, limit)?;
    let weights = Weights::new(alloc, tally.again()?, room.items)?;
    Ok((Some(weights), Some(tally)))
}

/// Puts the channel into the register and returns its place there. It tries again while the register is longer than was seen.
fn take_place<H: Host>(
    register: &Register<Channel, H>,
    prefix: &mut Prefix<Channel, H>,
    rt: H,
    channel: &Channel,
) -> u64
    ensures stands { IsHeldAt prefix.new result (sends_on channel.now) }
    ensures fresh { IsFresh prefix.old prefix.new result }
{
    for _ in rt.forever() {
        let place = prefix.len();
        if place < u64::MAX && prefix.add(register, channel) {
            return place;
        }
    }
    unreachable!()
}
