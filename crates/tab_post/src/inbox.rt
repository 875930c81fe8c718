//! The receiving end.

ghost use Rattle.std.specs.Prelude.{◌≡◌, [], true, false};
ghost use Rattle.crossbeam_channel.specs.Claims.{view, IsSeatAt};
ghost use Rattle.crossbeam_channel.specs.Ends.{receives_on};
ghost use Rattle.tab_post.specs.Register.{IsHeldAt};
ghost use Rattle.tab_post.specs.Rule.{pass_view};

use crate::naming::Host;
use crate::post::Channel;
use crate::prefix::Prefix;
use crate::rule::{InOrder, PassView, Taken};
use crate::tally::Tally;
use crossbeam_channel::{Pass, RuledReceiver};
use tab_outbox::SharedItem;

/// The receiving end of a mailbox.
#[derive(Drop)]
pub struct Inbox<H: Host> {
    pub(crate) rt: H,
    pub(crate) channel: RuledReceiver<SharedItem, PassView, InOrder>,
    pub(crate) pass: Pass<SharedItem, PassView>,
    pub(crate) place: u64,
    pub(crate) prefix: Prefix<Channel, H>,
    /// Of a mailbox with a limit of bytes.
    pub(crate) tally: Option<Tally>,
    ghost seated: { IsSeatAt (receives_on channel) pass },
    ghost role: { view pass ≡ pass_view false true [] (view pass).taken },
    ghost stands: { IsHeldAt prefix place (receives_on channel) },
}

impl<H: Host> Inbox<H> {
    ghost use Rattle.std.specs.Prelude.{◌∷◌, ◌++◌, MatchOption};
    ghost use Rattle.tab_post.specs.Ends.{mailbox_of, received, IsSameInbox};

    /// The mailbox's index in the register.
    pub fn place(&self) -> u64
        ensures { result ≡ mailbox_of self.now }
    {
        self.place
    }

    /// Waits for the next item that was sent. None if the post was dropped and nothing is left.
    pub fn receive(&mut self) -> Option<SharedItem>
        ensures next { MatchOption result (received self.new ≡ received self.old)
            (λ x. received self.new ≡ received self.old ++ x ∷ []) }
        ensures stays { IsSameInbox self.old self.new }
    {
        let item = self
            .channel
            .recv_as::<Taken, H>(&self.rt, &mut self.pass)
            .ok()?;
        self.count_one();
        Some(item)
    }

    /// The next item that was sent, if it is there already.
    pub fn try_receive(&mut self) -> Option<SharedItem>
        ensures next { MatchOption result (received self.new ≡ received self.old)
            (λ x. received self.new ≡ received self.old ++ x ∷ []) }
        ensures stays { IsSameInbox self.old self.new }
    {
        let item = self
            .channel
            .try_recv_as::<Taken, H>(&self.rt, &mut self.pass)
            .ok()?;
        self.count_one();
        Some(item)
    }

    /// Counts an item that was taken, for the post of a mailbox with a limit of bytes.
    pub(crate) fn count_one(&self) {
        if let Some(tally) = &self.tally {
            tally.add();
        }
    }
}
