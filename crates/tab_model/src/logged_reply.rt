//! A reply as a trace keeps it.

ghost use Rattle.std.specs.Prelude.{◌≡◌, MatchOption, IsFalse, Some};
ghost use Rattle.tab_model.specs.declared.data.Reply.TheVariants as reply;
ghost use Rattle.tab_model.specs.Events.{is_failure as is_failure_of};
ghost use Rattle.tab_model.specs.Shared.{is_found};
ghost use Rattle.tab_model.specs.Logged.{is_short, is_tid as is_tid_of, is_atomic_ok as is_atomic_ok_of};

use crate::data::Reply;
use std::alloc::Global;
use std::marker::Model;
use std::sync::Arc;
use tab_lists::SharedTerms;

/// A reply in a trace. Most stand in it whole; a failure, and what no trace has, stands behind a count.
pub struct LoggedReply {
    pub kept: Kept,
}

/// How a reply is kept: in one way alone.
#[derive(Drop)]
pub enum Kept {
    Done,
    Tid(u64),
    AtomicOk,
    Found(SharedTerms),
    Other(Arc<Reply, Global>),
}

// A trace grows by doubling, and a journal keeps many: a Reply itself takes twice as much and more.
const _: () = prove!(size_of::<Option<LoggedReply>>() <= 64);

impl Model for LoggedReply {
    ghost use Rattle.tab_model.specs.declared.data.Reply.{Reply};
    ghost use Rattle.std.specs.Coded.{codes};
    ghost use Rattle.tab_term.specs.Code.{terms_code, pairs_code};

    ghost Value = { Reply };

    ghost coded = { Prim.hlevel (codes, terms_code, pairs_code) };

    ghost use Rattle.tab_model.specs.Logged.{logged_in, IsKept};

    ghost view = { λ a. logged_in a.kept };

    ghost invariant = { λ a. IsKept a.kept };
}

// A derived Drop would be expanded, variant by variant, at each exit of each caller.
impl Drop for LoggedReply {
    fn drop(self) {
        let LoggedReply { kept } = self;
        drop(kept);
    }
}

impl LoggedReply {
    /// What the begin of a child is told. Takes no memory.
    pub fn tid(age: u64) -> LoggedReply
        ensures { result ≡ reply.Tid age }
    {
        LoggedReply {
            kept: Kept::Tid(age),
        }
    }

    /// What the commit of a child is told. Takes no memory.
    pub fn atomic_ok() -> LoggedReply
        ensures { result ≡ reply.AtomicOk }
    {
        LoggedReply {
            kept: Kept::AtomicOk,
        }
    }

    /// A reply that takes no memory. None of any other.
    pub(crate) fn short(told: &Reply) -> Option<LoggedReply>
        ensures { MatchOption result (IsFalse (is_short told.now)) (λ logged. logged ≡ told.now) }
    {
        let kept = match told {
            Reply::Done => Kept::Done,
            Reply::Tid(age) => Kept::Tid(*age),
            Reply::AtomicOk => Kept::AtomicOk,
            _ => return None,
        };
        Some(LoggedReply { kept })
    }

    pub(crate) fn found(rows: SharedTerms) -> LoggedReply
        ensures { result ≡ reply.Found rows }
    {
        LoggedReply {
            kept: Kept::Found(rows),
        }
    }

    pub(crate) fn other(told: Arc<Reply, Global>) -> LoggedReply
        requires short { IsFalse (is_short told.value) }
        requires found { IsFalse (is_found told.value) }
        ensures { result ≡ told.value }
    {
        LoggedReply {
            kept: Kept::Other(told),
        }
    }

    /// Whether an operation that is told this ends its level.
    pub fn is_failure(&self) -> bool
        ensures { result ≡ is_failure_of (Some self.now) }
    {
        match &self.kept {
            Kept::Other(told) => told.is_failure(),
            _ => false,
        }
    }

    /// Whether this is told of the begin of a child of the transaction with this age.
    pub fn is_tid(&self, age: u64) -> bool
        ensures { result ≡ is_tid_of age (Some self.now) }
    {
        match &self.kept {
            Kept::Tid(other) => age == *other,
            _ => false,
        }
    }

    /// Whether this is told of the commit of a child.
    pub fn is_atomic_ok(&self) -> bool
        ensures { result ≡ is_atomic_ok_of (Some self.now) }
    {
        matches!(&self.kept, Kept::AtomicOk)
    }
}
