//! The sending end.

ghost use Rattle.std.specs.Prelude.{◌≡◌, [], true, false};
ghost use Rattle.crossbeam_channel.specs.Claims.{view, IsSeatAt};
ghost use Rattle.crossbeam_channel.specs.Ends.{sends_on, ruled_capacity};
ghost use Rattle.tab_post.specs.Register.{IsHeldAt};
ghost use Rattle.tab_post.specs.Rule.{pass_view};
ghost use Rattle.tab_post.specs.Weights.{IsWeighed};

use crate::naming::{Entry, Host};
use crate::prefix::Prefix;
use crate::rule::{InOrder, PassView, Sent};
use crate::weights::{Weights, are_heavy, keep};
use crossbeam_channel::{Pass, RuledSender, TrySendError};
use tab_outbox::{Post, Refused, SharedItem};

/// The name of a mailbox: its channel, as its sender knows it.
pub type Channel = RuledSender<SharedItem, PassView, InOrder>;

impl Entry for Channel {
    ghost book_in = { λ b. b.mailboxes };
}

/// The sending end of a mailbox.
#[derive(Drop)]
pub struct ChannelPost<H: Host> {
    pub(crate) rt: H,
    pub(crate) channel: Channel,
    pub(crate) pass: Pass<SharedItem, PassView>,
    pub(crate) refusals: u64,
    /// How many items it took.
    pub(crate) puts: u64,
    pub(crate) place: u64,
    pub(crate) prefix: Prefix<Channel, H>,
    /// Of a mailbox with a limit of bytes.
    pub(crate) weights: Option<Weights>,
    ghost seated: { IsSeatAt (sends_on channel) pass },
    ghost role: { view pass ≡ pass_view true false (view pass).sent [] },
    ghost stands: { IsHeldAt prefix place (sends_on channel) },
    ghost weighed: { IsWeighed weights (ruled_capacity (sends_on channel)) (view pass).sent },
}

impl<H: Host> ChannelPost<H> {
    /// How many items were put, up to the greatest 64 bit number.
    pub fn puts(&self) -> u64 {
        self.puts
    }
}

impl<H: Host> Post for ChannelPost<H> {
    ghost use Rattle.std.specs.Prelude.{◌≡◌, ◌⊎◌, [], ◌∷◌, OnOk, IfErr, IfSome, IsNone, is_err, length, nat_le, refl};
    ghost use Rattle.std.proofs.Common.{◌∙◌};
    ghost use Rattle.tab_model.specs.Outcome.{with_items, with_refusal};
    ghost use Rattle.tab_outbox.specs.Posts.{refused_item, IsFull};
    ghost use Rattle.tab_post.specs.Ends.{as_outbox, sent, capacity_of, limit_of, IsSamePost, WasFull};
    ghost use Rattle.tab_post.specs.Weights.{WasHeavy, Weighs};

    ghost outbox = { λ s. as_outbox s };

    ghost stays = { λ a b. IsSamePost a b };

    ghost stays_self = { λ x. (refl, refl, refl) };

    ghost stays_on = { λ x y z p q. (q.0 ∙ p.0, q.1 ∙ p.1, q.2 ∙ p.2) };

    /// One attempt, which never waits for room.
    fn put(&mut self, item: SharedItem) -> Result<(), Refused>
        ensures stays { IsSamePost self.old self.new }
        ensures decided { IfSome (as_outbox self.old).capacity
            (λ c. is_err result ≡ nat_le c (length (as_outbox self.old).items)) }
        ensures ok { OnOk result
            (as_outbox self.new ≡ with_items (as_outbox self.old) (item ∷ [])) }
        ensures err { IfErr result
            (λ r. (refused_item r ≡ item)
            × (as_outbox self.new ≡ with_refusal (as_outbox self.old))) }
        ensures full { IfErr result
            (λ r. IsFull r → WasFull (capacity_of self.old) (sent self.old)
            ⊎ WasHeavy (limit_of self.old) (capacity_of self.old) (sent self.old)) }
        ensures weighs { OnOk result (Weighs self.old.weights item self.new.weights) }
    {
        if are_heavy(&mut self.weights) {
            self.refusals = self.refusals.saturating_add(1);
            return Err(Refused::Full(item));
        }
        let bytes = item.memory();
        match self
            .channel
            .try_send_as::<Sent, H>(&self.rt, &mut self.pass, item)
        {
            Ok(()) => {
                self.puts = self.puts.saturating_add(1);
                keep(&mut self.weights, bytes);
                Ok(())
            }
            Err(TrySendError::Full(item)) => {
                self.refusals = self.refusals.saturating_add(1);
                Err(Refused::Full(item))
            }
            Err(gone) => {
                self.refusals = self.refusals.saturating_add(1);
                Err(Refused::Gone(gone.into_inner()))
            }
        }
    }

    /// None: items are taken at the other end.
    fn pull(&mut self) -> Option<SharedItem>
        ensures stays { IsSamePost self.old self.new }
        ensures item { IsNone result × (self.new ≡ self.old) }
    {
        None
    }

    fn refusals(&self) -> u64 {
        self.refusals
    }
}
