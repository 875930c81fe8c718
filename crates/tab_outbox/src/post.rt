//! The trait of posts, which items are put into.

ghost use Rattle.std.specs.Prelude.{◌≡◌, [], ◌∷◌, OnOk, IfErr, IfSome, MatchOption, is_err, length, nat_le};
ghost use Rattle.tab_model.specs.State.{Outbox};
ghost use Rattle.tab_model.specs.Outcome.{with_items, with_refusal, items_to_take};
ghost use Rattle.tab_outbox.specs.Posts.{refused_item, GivesFirst};

use crate::refused::Refused;
use tab_model::SharedItem;

/// A post, which items are put into for one subscriber.
pub trait Post {
    /// The contents of the post: its items, the number of its refusals, and its capacity if that decides.
    ghost outbox: { Self → Outbox };

    /// The second is the first after some calls: the same mailbox, or a ring of the same capacity.
    ghost stays: { Self → Self → Type 0 };

    /// Puts an item after the others, or returns it.
    fn put(&mut self, item: SharedItem) -> Result<(), Refused>
        ensures stays { stays self.old self.new }
        ensures decided { IfSome (outbox self.old).capacity
            (λ c. is_err result ≡ nat_le c (length (outbox self.old).items)) }
        ensures ok { OnOk result (outbox self.new ≡ with_items (outbox self.old) (item ∷ [])) }
        ensures err { IfErr result
            (λ r. (refused_item r ≡ item) × (outbox self.new ≡ with_refusal (outbox self.old))) };

    /// Takes the first item. Of a post without a capacity of its own the items are taken at its other end.
    fn pull(&mut self) -> Option<SharedItem>
        ensures stays { stays self.old self.new }
        ensures item { MatchOption result
            ((items_to_take (outbox self.old) (outbox self.old).capacity ≡ [])
            × (outbox self.new ≡ outbox self.old))
            (GivesFirst (outbox self.old) (outbox self.new)) };

    /// The number of refused puts, up to the greatest 64 bit number.
    fn refusals(&self) -> u64
        ensures { result ≡ (outbox self.now).refusals };

    ghost stays_self: { (x : Self) → stays x x };

    ghost stays_on: { (x y z : Self) → stays x y → stays y z → stays x z };
}
