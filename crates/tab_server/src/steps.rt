//! The commands of a connection's requests, as steps of its session.

ghost use Rattle.std.specs.Prelude.{◌≡◌, ◌≢◌, [], IfOk, IfSome, IsFalse, IsOk, IsTrue, MatchOption, None};
ghost use mathlib.Core.List.{IsPrefix};
ghost use Rattle.tab_etf.specs.Frames.{payload_of};
ghost use Rattle.tab_model.specs.declared.ask.Ask.TheVariants.{Retry, Do as DoCommand};
ghost use Rattle.tab_model.specs.declared.data.Reply.TheVariants as reply;
ghost use Rattle.tab_model.specs.Outcome.{is_abort};
ghost use Rattle.tab_oneshot.specs.OneShots.{is_one_shot as is_one_shot_command};
ghost use Rattle.tab_book.specs.Replies.{IsAnswer, IsReply};
ghost use Rattle.tab_server.specs.Aborting.{IsAbort};
ghost use Rattle.tab_server.specs.Serving.{IsServed, IsSettled};
ghost use Rattle.tab_server.specs.Rereading.{IsSpelledBy};
ghost use Rattle.tab_server.specs.Sent.{Sends};

use crate::gate::{Count, Gate};
use crate::next::is_abort_in;
use crate::outlet::Outlet;
use crate::payload::Payload;
use crate::requests::Requests;
use crate::troubles::pause;
use std::alloc::{AllocError, Global};
use tab_book::{Answered, Rest, Step};
use tab_etf::Frame;
use tab_model::{Command, Reply, SharedReply};
use tab_oneshot::{Steps, one_shot};
use tab_post::Host;

/// The most sleeps of 20 milliseconds of a restarted transaction's back-off. A client that drives two connections from
/// one thread has to get `restart` while the other's transaction is open.
const NAPS: u32 = 5;

/// The same of a one-shot before its next attempt. Its client sees no restart, so it need not repeat it soon: it is
/// woken when its lock is free. Each attempt ends in time, since their number may be limited.
const ONE_SHOT_NAPS: u32 = 50;

/// The end of a request's wait other than by its lock.
#[derive(Clone, Copy, Debug, PartialEq, Eq)]
pub enum Behind {
    Nothing,
    /// An abort that comes next on the stream.
    Stream,
    /// An abort that has come after it.
    Abort,
}

/// Returns whether a command is a one-shot.
fn is_one_shot(command: &Command) -> bool
    ensures { result ≡ is_one_shot_command command.now }
{
    matches!(command, Command::OneShot(..))
}

impl<'a, H: Host, O: Outlet, G: Gate> Requests<'a, H, O, G> {
    /// Replies to a command, which the payload is. `next` is the frame after it, if it has come. Returns None if an abort
    /// has ended its wait.
    pub fn command(
        &mut self,
        command: Command,
        payload: &[u8],
        next: Option<&Frame>,
    ) -> Option<SharedReply>
        requires { IsSpelledBy payload.now command }
        ensures served { MatchOption result (IsServed self.old.seat self.old.held.seen command
            reply.Waiting self.new.held.seen)
            (λ r. IsServed self.old.seat self.old.held.seen command r self.new.held.seen) }
        ensures seat { self.new.seat ≡ self.old.seat }
        ensures sends { Sends O.sent O.broken self.old.answers self.new.answers [] }
    {
        self.behind = self.end_of_wait(next);
        self.aborted = false;
        let told = if is_one_shot(&command) {
            self.run(command, payload)
        } else {
            self.answer(command)
        };
        self.give_back();
        self.unless_aborted(told)
    }

    /// The reply; none for a command whose wait was ended by an abort.
    fn unless_aborted(&self, told: SharedReply) -> Option<SharedReply>
        ensures { MatchOption result (told ≡ reply.Waiting) (λ r. r ≡ told) }
    {
        if self.aborted && matches!(told.reply(), Reply::Waiting) {
            return None;
        }
        Some(told)
    }

    /// Runs a one-shot, which the payload is, by its driver.
    fn run(&mut self, command: Command, payload: &[u8]) -> SharedReply
        requires one_shot { IsTrue (is_one_shot_command command) }
        requires spelled { IsSpelledBy payload.now command }
        ensures served { IsServed self.old.seat self.old.held.seen command result
            self.new.held.seen }
        ensures seat { self.new.seat ≡ self.old.seat }
        ensures sends { Sends O.sent O.broken self.old.answers self.new.answers [] }
    {
        let alloc = self.alloc;
        let source = Payload {
            alloc,
            bytes: payload,
        };
        let told = one_shot(self, alloc, command, &source);
        self.count_end(told.reply());
        told
    }

    /// Makes the step of a command that is no one-shot, and waits for its answer. A session that is restarted backs off first.
    fn answer(&mut self, command: Command) -> SharedReply
        requires { IsFalse (is_one_shot_command command) }
        ensures served { IsServed self.old.seat self.old.held.seen command result
            self.new.held.seen }
        ensures seat { self.new.seat ≡ self.old.seat }
        ensures sends { Sends O.sent O.broken self.old.answers self.new.answers [] }
    {
        let Ok(told) = self.make(command) else {
            return SharedReply::new(Reply::NoMemory);
        };
        let told = self.settled(told);
        if matches!(told.reply(), Reply::Restart) {
            self.restarted(NAPS);
        }
        told
    }

    /// Returns the reply of a step, or if that is `Waiting` the reply after the wait. If an abort or a failed write ends the
    /// wait, it returns `Waiting`.
    fn settled(&mut self, told: SharedReply) -> SharedReply
        ensures reply { IsSettled self.old.seat self.old.held.seen told result
            self.new.held.seen }
        ensures seat { self.new.seat ≡ self.old.seat }
        ensures sends { Sends O.sent O.broken self.old.answers self.new.answers [] }
    {
        if !matches!(told.reply(), Reply::Waiting) {
            return told;
        }
        match self.wait() {
            None => told,
            Some(Ok(reply)) => reply,
            Some(Err(_)) => SharedReply::new(Reply::NoMemory),
        }
    }

    /// Counts a restart, and backs off for at most `naps` sleeps.
    fn restarted(&mut self, naps: u32)
        ensures seat { self.new.seat ≡ self.old.seat }
        ensures seen { self.new.held.seen ≡ self.old.held.seen }
        ensures sends { Sends O.sent O.broken self.old.answers self.new.answers [] }
    {
        self.answers.counts().count(Count::Restarts, 1);
        self.rest(naps);
    }

    /// Counts a one-shot whose restarts were used up: its driver does not begin again after the last.
    fn count_end(&self, reply: &Reply) {
        if matches!(reply, Reply::NoMore) {
            self.answers.counts().count(Count::Restarts, 1);
            self.answers.counts().count(Count::GivenUp, 1);
        }
    }

    /// Unlocks the book, and counts the effects of the steps since it was locked. If they may have put items into mailboxes,
    /// it rings the dispatcher.
    pub fn give_back(&mut self)
        ensures seat { self.new.seat ≡ self.old.seat }
        ensures seen { self.new.held.seen ≡ self.old.held.seen }
        ensures answers { self.new.answers ≡ self.old.answers }
        ensures puts { IsFalse self.new.puts.may_have }
    {
        self.held.give_back();
        if self.puts.take() {
            self.dispatcher.ring();
        }
        self.transactions.count(self.answers.counts());
    }

    /// Makes one step of the session; the book stays locked.
    pub fn make(&mut self, command: Command) -> Result<SharedReply, AllocError>
        ensures abort { IsTrue (is_abort command) → IsOk result }
        ensures reply { IfOk result (λ r. IsReply self.old.held.seen self.new.held.seen
            self.old.seat (DoCommand command) r) }
        ensures grows { IsPrefix self.old.held.seen self.new.held.seen }
        ensures seat { self.new.seat ≡ self.old.seat }
        ensures answers { self.new.answers ≡ self.old.answers }
    {
        if matches!(command, Command::Subscribe(..)) {
            self.dispatcher.watch(self.line);
            self.answers.counts().subscribe(self.seat.session());
        }
        self.puts.ask(&command);
        let answered = self.held.step(&self.seat, Step::Do(command))?;
        Ok(self.reply_to(answered))
    }

    /// The reply to a step, whose transaction is to be counted.
    fn reply_to(&mut self, answered: Answered) -> SharedReply
        ensures reply { result ≡ answered.told }
        ensures seat { self.new.seat ≡ self.old.seat }
        ensures seen { self.new.held.seen ≡ self.old.held.seen }
        ensures answers { self.new.answers ≡ self.old.answers }
    {
        let Answered {
            told,
            releases: _,
            transaction,
        } = answered;
        self.transactions.step(transaction);
        self.puts.step(transaction);
        told
    }

    /// The end of a command's wait, if this frame has come after it.
    fn end_of_wait(&self, next: Option<&Frame>) -> Behind
        ensures abort { result ≡ Behind.Abort
            → IsTrue self.now.aborts × IfSome next.entry (λ frame. IsAbort (payload_of frame.now)) }
        ensures stream { result ≡ Behind.Stream → IsTrue self.now.aborts × (next.entry ≡ None) }
    {
        match next {
            Some(frame) if self.aborts && is_abort_in(self.alloc, frame) => Behind::Abort,
            None if self.aborts && self.place.is_between() => Behind::Stream,
            _ => Behind::Nothing,
        }
    }

    /// Backs off after a restart until the session's lock is free. The stream is watched after the first sleep.
    fn rest(&mut self, naps: u32)
        ensures seat { self.new.seat ≡ self.old.seat }
        ensures seen { self.new.held.seen ≡ self.old.held.seen }
        ensures sends { Sends O.sent O.broken self.old.answers self.new.answers [] }
    {
        if matches!(self.held.rest(&self.seat), Rest::Over | Rest::Free) {
            return;
        }
        self.give_back();
        if self.answers.write().is_err() || self.shared.rest(self.host, &self.seat, 1) {
            return;
        }
        self.watch.begin(self.host, false);
        let _over = self
            .shared
            .rest(self.host, &self.seat, naps.saturating_sub(1));
        self.watch.end(self.host);
    }

    /// The answer of the operation that waits. None if an abort has ended the wait, or no one is left to be answered.
    fn lock(&mut self) -> Option<Answered>
        ensures over { IfSome result (λ a. a.told ≢ reply.Waiting) }
        ensures answer { IfSome result (λ a.
            IsAnswer self.old.held.seen self.new.held.seen self.old.seat Retry a) }
        ensures grows { IsPrefix self.old.held.seen self.new.held.seen }
        ensures seat { self.new.seat ≡ self.old.seat }
        ensures sends { Sends O.sent O.broken self.old.answers self.new.answers [] }
    {
        if self.answers.write().is_err() {
            return None;
        }
        if self.behind == Behind::Abort {
            self.aborted = true;
            return None;
        }
        let first = self
            .shared
            .retry_for(self.host, &self.seat, 1, &mut self.held.seen);
        if let Ok(Some(answered)) = first {
            return Some(answered);
        }
        self.watch.begin(self.host, self.behind == Behind::Stream);
        let granted = self.granted();
        self.watch.end(self.host);
        self.aborted = granted.is_none();
        granted
    }

    /// The answer of the request that waits; None if an abort ends its wait. If memory is refused while it asks again,
    /// the request is still in the queue, and a connection has no reply for that. So it waits on, and asks again after
    /// a pause.
    fn granted(&mut self) -> Option<Answered>
        ensures over { IfSome result (λ a. a.told ≢ reply.Waiting) }
        ensures answer { IfSome result (λ a.
            IsAnswer self.old.held.seen self.new.held.seen self.old.seat Retry a) }
        ensures grows { IsPrefix self.old.held.seen self.new.held.seen }
        ensures seat { self.new.seat ≡ self.old.seat }
        ensures answers { self.new.answers ≡ self.old.answers }
    {
        let aborted = self.watch.aborted();
        for _ in self.host.forever() {
            let answered = self
                .shared
                .retry_until(self.host, &self.seat, aborted, &mut self.held.seen);
            if let Ok(answered) = answered {
                return answered;
            }
            pause(self.host);
        }
        unreachable!()
    }
}

impl<'a, H: Host, O: Outlet, G: Gate> Steps for Requests<'a, H, O, G> {
    ghost use Rattle.std.specs.Prelude.{[]};
    ghost use Rattle.tab_server.specs.Serving.{Serves, serves_none, serves_on};
    ghost use Rattle.tab_server.specs.Sent.{Sends};
    ghost use Rattle.tab_server.specs.Laws.{sends_none, sends_on};

    ghost shows = { λ x calls y.
        Serves x.seat x.held.seen calls y.seat y.held.seen × Sends O.sent O.broken x.answers y.answers [] };

    ghost shows_none = { λ x. (serves_none x.seat x.held.seen, sends_none O.sent O.broken x.answers) };

    ghost shows_on = { λ x y z first more h k. (
      serves_on x.seat y.seat z.seat x.held.seen y.held.seen z.held.seen first more h.0 k.0,
      sends_on O.sent O.broken x.answers y.answers z.answers [] [] h.1 k.1,
    ) };

    fn step(&mut self, command: Command) -> Result<SharedReply, AllocError> {
        self.make(command)
    }

    fn wait(&mut self) -> Option<Result<SharedReply, AllocError>> {
        self.give_back();
        self.answers.counts().count(Count::Waits, 1);
        self.answers.counts().wait(self.seat.session());
        let answered = self.lock();
        self.answers.counts().go_on(self.seat.session());
        Some(Ok(self.reply_to(answered?)))
    }

    fn again(&mut self) {
        self.restarted(ONE_SHOT_NAPS);
    }
}
