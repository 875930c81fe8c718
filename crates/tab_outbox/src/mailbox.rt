//! Posts of which the items are taken at another end.

ghost use Rattle.std.specs.Prelude.{◌≡◌, ℕ, List};
ghost use Rattle.tab_model.specs.declared.data.Item.{Item as ItemOf};
ghost use Rattle.tab_outbox.specs.Mailboxes.{Tells};

use crate::post::Post;
use tab_model::SharedItem;

/// The result of a post and an end that meet.
#[derive(Drop)]
pub enum Met {
    /// They are of two mailboxes.
    Apart,
    /// An item was left, and is now taken.
    Going(SharedItem),
    /// All that was put is taken.
    All,
}

/// A post whose items are taken at another end.
pub trait Mailbox: Post {
    /// The other end.
    type End;

    /// All that was ever taken at an end.
    ghost taken: { Self.End → List ItemOf };

    /// The number of an end's mailbox.
    ghost mailbox: { Self.End → ℕ };

    /// Takes one item more at the post's own end, or shows that all that was put is taken. While it has both nothing is
    /// put.
    fn meet(&mut self, end: &mut Self::End) -> Met
        ensures stays { Self.stays self.old self.new }
        ensures outbox { Self.outbox self.new ≡ Self.outbox self.old }
        ensures end { mailbox end.new ≡ mailbox end.old }
        ensures met { Tells (Self.outbox self.old) (mailbox end.old) (taken end.old) result
            (taken end.new) };
}
