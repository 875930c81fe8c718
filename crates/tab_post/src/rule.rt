//! The rule of a mailbox, and the moves that it allows.
use crossbeam_channel::protocol::{Join, Lesson, Outcome, Protocol, Split};
use std::collections::LinkedList;
use tab_outbox::SharedItem;

/// The knowledge of a pass: the ends that it is for, the items sent by it and those taken by it. No value of it is
/// made.
pub struct PassView {
    pub sends: bool,
    pub takes: bool,
    pub sent: LinkedList<SharedItem>,
    pub taken: LinkedList<SharedItem>,
}

/// The sent items are the taken ones, followed by the channel's.
pub struct InOrder;

impl Protocol<SharedItem, PassView> for InOrder {
    ghost use Rattle.std.specs.Prelude.{true, []};
    ghost use Rattle.tab_post.specs.Rule.{pass_view, Relayed};

    ghost holds = { Relayed };

    ghost first = { pass_view true true [] [] };
}

/// A pass of both ends is cut in two, and two are joined.
pub struct Ends;

impl Split<PassView> for Ends {
    ghost use Rattle.std.specs.Prelude.{true, false, []};
    ghost use Rattle.tab_post.specs.Rule.{pass_view};

    ghost left = { λ v. pass_view true false v.sent [] };

    ghost right = { λ v. pass_view false true [] v.taken };
}

impl Join<PassView> for Ends {
    ghost use Rattle.std.specs.Prelude.{true, false, []};
    ghost use Rattle.tab_post.specs.Rule.{pass_view};

    ghost both = { λ v w. pass_view true true v.sent w.taken };

    ghost spent = { pass_view false false [] [] };
}

/// A further pass, which is for no end.
pub struct Idle;

impl Split<PassView> for Idle {
    ghost use Rattle.std.specs.Prelude.{false, []};
    ghost use Rattle.tab_post.specs.Rule.{pass_view};

    ghost left = { λ v. v };

    ghost right = { λ v. pass_view false false [] [] };
}

/// A send, which appends.
pub struct Sent;

impl Outcome<SharedItem, PassView> for Sent {
    ghost use Rattle.std.specs.Prelude.{◌≡◌, [], ◌∷◌, ◌++◌};
    ghost use Rattle.tab_post.specs.Rule.{pass_view};

    ghost then = { λ v x w. w ≡ pass_view v.sends v.takes (v.sent ++ x ∷ []) v.taken };
}

/// The channel was full, of the last items that were sent.
impl Lesson<SharedItem, PassView> for Sent {
    ghost use Rattle.tab_post.specs.Rule.{EndsWith};

    ghost fact = { λ v items. EndsWith v.sent items };
}

/// A receive, which takes the front.
pub struct Taken;

impl Outcome<SharedItem, PassView> for Taken {
    ghost use Rattle.std.specs.Prelude.{◌≡◌, [], ◌∷◌, ◌++◌};
    ghost use Rattle.tab_post.specs.Rule.{pass_view};

    ghost then = { λ v x w. w ≡ pass_view v.sends v.takes v.sent (v.taken ++ x ∷ []) };
}

/// A pass that only takes learns nothing of an empty channel, since more may be sent at once.
impl Lesson<SharedItem, PassView> for Taken {
    ghost use Rattle.std.specs.Prelude.{⊤};

    ghost fact = { λ v items. ⊤ };
}

/// A receive by a pass of both ends.
pub struct Meets;

impl Outcome<SharedItem, PassView> for Meets {
    ghost use Rattle.std.specs.Prelude.{◌≡◌, [], ◌∷◌, ◌++◌};
    ghost use Rattle.tab_outbox.specs.Mailboxes.{StartsWith};
    ghost use Rattle.tab_post.specs.Rule.{pass_view};

    ghost then = { λ v x w. (w ≡ pass_view v.sends v.takes v.sent (v.taken ++ x ∷ []))
        × StartsWith v.sent (v.taken ++ x ∷ []) };
}

/// The channel was empty: all that was sent was taken.
impl Lesson<SharedItem, PassView> for Meets {
    ghost use Rattle.std.specs.Prelude.{◌≡◌, ◌++◌};

    ghost fact = { λ v items. v.sent ≡ v.taken ++ items };
}
