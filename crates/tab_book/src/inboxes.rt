//! What is left at an inbox.

ghost use Rattle.std.specs.Prelude.{◌≡◌, Some};
ghost use Rattle.tab_model.specs.State.{Session, session_at};
ghost use Rattle.tab_post.specs.Ends.{mailbox_of, received};
ghost use Rattle.tab_book.specs.Running.{IsRunning};
ghost use Rattle.tab_book.specs.Inboxes.{Drains, IsDrained, TellsOverflow};
ghost use Rattle.tab_book.specs.Steps.{KeepsPosts};

use crate::book::Book;
use crate::log::Request;
use crate::step::{Drained, Step};
use tab_outbox::Met;
use tab_post::{Host, Inbox};

impl<H: Host> Book<H> {
    /// Takes one item more at the session's inbox, or shows that all is taken, with an overflow that was not reported
    /// yet.
    pub fn drained(&mut self, session: u32, inbox: &mut Inbox<H>) -> Drained
        ensures drained { Drains self.old session (mailbox_of inbox.old) (received inbox.old) result
            (received inbox.new) self.new }
        ensures mailbox { mailbox_of inbox.new ≡ mailbox_of inbox.old }
        ensures posts { KeepsPosts self.old.state self.new.state }
        ensures running { IsRunning self.new }
        ensures of_a_running_book { IsDrained session (mailbox_of inbox.old) (received inbox.old)
            result (received inbox.new) }
    {
        // Known of the book before, and after, is what its parts have to do with each other.
        let _ = self.journal();
        let drained = self.next_at(session, inbox);
        let _ = &self.core;
        drained
    }

    fn next_at(&mut self, session: u32, inbox: &mut Inbox<H>) -> Drained
        ensures drained { Drains self.old session (mailbox_of inbox.old) (received inbox.old) result
            (received inbox.new) self.new }
        ensures mailbox { mailbox_of inbox.new ≡ mailbox_of inbox.old }
        ensures posts { KeepsPosts self.old.state self.new.state }
    {
        match self.core.meet(session, inbox) {
            None => Drained::Left,
            Some(Met::Going(item)) => Drained::Going(item),
            Some(Met::Apart) => Drained::AllTaken,
            Some(Met::All) => self.told_overflow(session),
        }
    }

    /// The overflow that was not reported yet, of a joined session of which all is taken.
    fn told_overflow(&mut self, session: u32) -> Drained
        requires { (s : Session) × (session_at self.old.state.sessions session ≡ Some s) }
        ensures told { (s : Session) × (session_at self.old.state.sessions session ≡ Some s)
            × TellsOverflow self.old session s.overflow result self.new }
        ensures posts { KeepsPosts self.old.state self.new.state }
    {
        let Some(number) = self.core.overflow(session) else {
            return Drained::AllTaken;
        };
        let told = self.core.take(session).into_reply();
        let request = Request::of(&Step::Take);
        self.log.add(session, request, &told);
        Drained::Overflow(number)
    }
}
