//! Answers, and what they say of the levels.

ghost use Rattle.std.specs.Prelude.{◌≡◌};
ghost use Rattle.tab_model.specs.declared.data.Reply.TheVariants as reply;
ghost use Rattle.tab_oneshot.specs.Attempts.{sort_of};

use tab_model::{Reply, SharedReply};

/// The effect of an answer on the levels.
#[derive(Clone, Copy)]
pub enum Sort {
    /// An operation is done.
    Answered,
    /// An operation ended its level.
    Failed,
    /// An abort ended its level.
    Aborted,
    Opened,
    /// A child is committed.
    Joined,
    /// Level 1 is committed.
    Committed,
    Restarted,
    Waits,
    /// Memory or a limit refused the command.
    Refused,
    Other,
}

/// An answer of the session.
pub struct OneShotAnswer {
    pub reply: SharedReply,
}

// A derived Drop would be expanded, variant by variant, at each exit of each caller.
impl Drop for OneShotAnswer {
    fn drop(self) {
        let OneShotAnswer { reply } = self;
        drop(reply);
    }
}

impl OneShotAnswer {
    /// Memory was refused.
    pub fn no_memory() -> OneShotAnswer
        ensures { result.reply ≡ reply.NoMemory }
    {
        OneShotAnswer {
            reply: SharedReply::new(Reply::NoMemory),
        }
    }

    /// The reply of the one-shot.
    pub fn into_reply(self) -> SharedReply
        ensures { result ≡ self.reply }
    {
        let OneShotAnswer { reply } = self;
        reply
    }

    /// The effect of the answer on the levels.
    pub fn sort(&self) -> Sort
        ensures { result ≡ sort_of self.now.reply }
    {
        match self.reply.reply() {
            Reply::Done | Reply::Found(_) => Sort::Answered,
            Reply::NoTable(_) | Reply::BadType(_, _) | Reply::NoIndex(_, _) => Sort::Failed,
            Reply::UserAbort(_) => Sort::Aborted,
            Reply::Tid(_) => Sort::Opened,
            Reply::AtomicOk => Sort::Joined,
            Reply::Atomic(_) => Sort::Committed,
            Reply::Restart => Sort::Restarted,
            Reply::Waiting => Sort::Waits,
            Reply::NoMemory | Reply::SystemLimit(_) => Sort::Refused,
            _ => Sort::Other,
        }
    }
}
