//! Sessions join, take and leave.

ghost use Rattle.std.specs.Prelude.{◌≡◌, IsTrue, IfOk, IsOk, OnErr};
ghost use Rattle.tab_model.specs.State.{IsSound};
ghost use Rattle.tab_model.specs.Reached.{IsRising};
ghost use Rattle.tab_model.specs.declared.ask.Ask.TheVariants.{Join, Leave, Retry, Take};
ghost use Rattle.tab_core.specs.Runs.{StepsTo};
ghost use Rattle.tab_core.specs.Steps.{takes_no_memory};
ghost use Rattle.tab_core.specs.Subscribing.{taken_reply as taken_reply_of};

use crate::Core;
use crate::step::Stepped;
use std::alloc::AllocError;
use tab_model::Reply;
use tab_outbox::Post;
use tab_subs::Taken;

impl<P: Post + Drop> Core<P> {
    pub(crate) fn join(&mut self, session: u32, post: P) -> Result<Stepped, AllocError>
        ensures done { IfOk result
            (λ s. StepsTo self.old session (Join (P.outbox post)) s self.new) }
        ensures free { IsTrue (takes_no_memory self.old session (Join (P.outbox post)))
            → IsOk result }
        ensures err { OnErr result (self.new ≡ self.old) }
    {
        self.machine.join(session, post)
    }

    /// The session's transaction, locks, request, subscriptions and post are gone. Takes no memory.
    pub(crate) fn leave(&mut self, session: u32) -> Stepped
        ensures done { StepsTo self.old session Leave result self.new }
    {
        self.machine.leave(session)
    }

    /// The session asks again for the lock that it waits for: whole or, if memory that it takes is refused, not at all.
    pub(crate) fn retry(&mut self, session: u32) -> Result<Stepped, AllocError>
        ensures done { IfOk result (λ s. StepsTo self.old session Retry s self.new) }
        ensures free { IsTrue (takes_no_memory self.old session Retry) → IsOk result }
        ensures err { OnErr result (self.new ≡ self.old) }
    {
        self.machine.retry(session)
    }

    /// The next item of the session's post, else an overflow that is not reported yet. Takes no memory.
    pub fn take(&mut self, session: u32) -> Stepped
        ensures done { StepsTo self.old session Take result self.new }
        ensures sound { IsSound self.new }
        ensures rising { IsRising self.new }
    {
        let taken = self.machine.sessions.take(session);
        taken_reply(taken)
    }
}

/// The reply to a Take.
fn taken_reply(taken: Option<Taken>) -> Stepped
    ensures { result ≡ taken_reply_of taken }
{
    match taken {
        None => Stepped::without_entry(Reply::BadSession),
        Some(Taken::Item(item)) => Stepped::without_entry(Reply::Taken(item)),
        Some(Taken::Overflow(commit)) => Stepped::without_entry(Reply::Overflow(commit)),
        Some(Taken::Empty) => Stepped::without_entry(Reply::Empty),
    }
}
