//! The requests of one connection.

ghost use Rattle.std.specs.Prelude.{◌≡◌, ◌<◌, ◌≤◌, ◌⊎◌, [], ◌∷◌, ◌++◌, List, ℕ, Option, Some, IfErr, IfOk, IsErr, IsFalse, IsTrue, OnErr, OnOk, MatchOption, length};
ghost use Rattle.std.specs.Io.KnownBytes.{IsAtEnd};
ghost use mathlib.Core.List.{IsPrefix};
ghost use Rattle.tab_etf.specs.Frames.{contents, payload_of};
ghost use Rattle.tab_model.specs.declared.data.Reply.{Reply as ReplyOf};
ghost use Rattle.tab_book.specs.Replies.{Leaves};
ghost use Rattle.tab_book.specs.declared.step.Transition.{Transition};
ghost use Rattle.tab_server.specs.declared.incoming.Incoming.{Incoming as IncomingOf};
ghost use Rattle.tab_server.specs.declared.requests.Ending.TheVariants.{Over};
ghost use Rattle.tab_server.specs.Sending.{reply_frames};
ghost use Rattle.tab_server.specs.Sent.{AreAnswered, IsAnswered, Sends};
ghost use Rattle.tab_server.specs.Serving.{IsPayloadReply, IsEnded};
ghost use Rattle.tab_server.specs.Streamed.{AnswersTooLong, Gives, IsIn, IsSkipped, IsStreamAnswered, IsStreamStopped, SendsAnswers, SendsLast, TakesLast, TakesPart};

use crate::answers::{Answers, Unwritten};
use crate::connection::Connection;
use crate::dispatcher::Dispatcher;
use crate::gate::{Count, Gate};
use crate::incoming::Incoming;
use crate::line::Line;
use crate::outlet::{Outlet, SharedSink};
use crate::place::Place;
use crate::puts::Puts;
use crate::server::Server;
use crate::silence::Silence;
use crate::steps::Behind;
use crate::transactions::Transactions;
use crate::watch::Watch;
use std::alloc::Global;
use std::io::{ErrorKind, Read};
use tab_book::{Held, Seat, Shared};
use tab_etf::{EtfFault, Frame, FrameFault, decode};
use tab_model::{Command, Reply, SharedReply};
use tab_post::Host;
use tab_proto::{ProtoFault, command_in, read_command};
use tab_term::{Term, Terms};

/// The largest piece that is read at once.
const PIECE: usize = 65_536;

/// The requests of one connection, and the session that runs their commands. The book is locked from a command's first
/// step until it waits, backs off or is answered. Before it waits or backs off, the answers are written. If the wait is
/// longer than one sleep the stream is watched.
pub struct Requests<'a, H: Host, O: Outlet, G: Gate> {
    pub alloc: Global,
    pub host: &'a H,
    pub shared: &'a Shared<H>,
    pub seat: Seat,
    pub watch: &'a Watch,
    /// The connection's writing end.
    pub line: &'a Line<H>,
    /// The thread that sends the events of all connections.
    pub dispatcher: &'a Dispatcher<H>,
    pub answers: Answers<'a, O, G>,
    pub held: Held<'a, H>,
    pub transactions: Transactions,
    pub puts: Puts,
    /// The position of the stream.
    pub place: Place,
    pub silence: Silence,
    /// True if an abort ends the wait of the operation before it.
    pub aborts: bool,
    /// The end of the current command's wait, and whether an abort has ended it.
    pub behind: Behind,
    pub aborted: bool,
}

// A derived Drop is expanded, field by field, at the end of `serve_session`: the borrow checker can't join its branches.
impl<'a, H: Host, O: Outlet + Drop, G: Gate> Drop for Requests<'a, H, O, G> {
    fn drop(self) {
        let Requests {
            alloc: _,
            host: _,
            shared: _,
            seat: _,
            watch: _,
            line: _,
            dispatcher: _,
            answers,
            held,
            transactions: _,
            puts: _,
            place: _,
            silence: _,
            aborts: _,
            behind: _,
            aborted: _,
        } = self;
        drop(answers);
        drop(held);
    }
}

/// The reason that no more requests of a session are answered.
#[derive(Clone, Copy, Debug, PartialEq, Eq)]
pub enum Ending {
    /// No more came, or they could not be read or answered.
    Over,
    /// None came in time.
    Idle,
}

/// Answers the requests of a session in order. Then the session leaves. It stops if the stream ends, a read or a write
/// fails, or a frame is too long. It also stops if there is no memory for a reply's frame, or a read takes too long
/// while the transaction is open.
pub fn serve_session<'a, H: Host, R: Read, G: Gate>(
    server: &'a Server<'a, H, G>,
    dispatcher: &'a Dispatcher<H>,
    connection: &'a Connection<H>,
    reader: &mut R,
) -> Ending {
    let host = server.host;
    let seat = connection.line.seat();
    let outlet = SharedSink::new(host, &connection.line.sink);
    let mut requests = Requests {
        alloc: server.alloc,
        host,
        shared: server.shared,
        seat: *seat,
        watch: &connection.watch,
        line: &connection.line,
        dispatcher,
        answers: Answers::new(server.alloc, outlet, server.gate, seat.session()),
        held: Held::new(host, server.shared),
        transactions: Transactions::new(seat.session()),
        puts: Puts::new(),
        place: Place::new(),
        silence: Silence::new(server.settings),
        aborts: server.settings.aborts,
        behind: Behind::Nothing,
        aborted: false,
    };
    let ending = requests.all(reader);
    requests.leave();
    connection.watch.stop(host);
    ending
}

impl<'a, H: Host, O: Outlet, G: Gate> Requests<'a, H, O, G> {
    /// Answers all requests of a stream, also if a write fails.
    fn all<R: Read>(&mut self, reader: &mut R) -> Ending
        ensures answered { IsFalse (O.broken self.new.answers.outlet)
            → IsStreamAnswered O.sent O.broken self.old.seat
            self.old.held.seen self.new.held.seen (R.remaining reader.old) (R.remaining reader.new) self.old.answers self.new.answers
            ⊎ IsStreamStopped O.sent O.broken self.old.seat
            self.old.held.seen self.new.held.seen (R.remaining reader.old) (R.remaining reader.new) self.old.answers self.new.answers }
    {
        match self.stream(reader) {
            Ok(ending) => ending,
            Err(_) => Ending::Over,
        }
    }

    /// The session leaves, and its transaction ends.
    fn leave(&mut self)
        ensures leaves { (transaction : Transition)
            × Leaves self.old.held.seen self.new.held.seen self.old.seat transaction }
        ensures grows { IsPrefix self.old.held.seen self.new.held.seen }
        ensures sends { self.new.answers ≡ self.old.answers }
    {
        self.give_back();
        let left = self
            .shared
            .leave(self.host, &self.seat, &mut self.held.seen);
        self.line.end(self.host);
        self.transactions.step(left);
        self.transactions.count(self.answers.counts());
    }

    /// Answers the requests of a stream until it ends, or the session is idle for too long.
    fn stream<R: Read>(&mut self, reader: &mut R) -> Result<Ending, Unwritten>
        ensures answered { OnOk result (IsStreamAnswered O.sent O.broken self.old.seat
            self.old.held.seen self.new.held.seen (R.remaining reader.old) (R.remaining reader.new) self.old.answers self.new.answers) }
        ensures end { IfOk result (λ end. end ≡ Over → IsAtEnd (R.remaining reader.new)) }
        ensures err { OnErr result (IsFalse (O.broken self.new.answers.outlet)
            → IsStreamAnswered O.sent O.broken self.old.seat
            self.old.held.seen self.new.held.seen (R.remaining reader.old) (R.remaining reader.new) self.old.answers self.new.answers
            ⊎ IsStreamStopped O.sent O.broken self.old.seat
            self.old.held.seen self.new.held.seen (R.remaining reader.old) (R.remaining reader.new) self.old.answers self.new.answers) }
        ensures whole { OnOk result (self.old.answers.frames.items ≡ []
            → self.new.answers.frames.items ≡ []) }
    {
        let Ok(mut buffer) = vec![in self.alloc; 0u8; PIECE] else {
            return Err(Unwritten);
        };
        self.pieces(reader, &mut buffer)
    }

    /// Reads pieces of a stream into a buffer, and answers their frames.
    fn pieces<R: Read>(&mut self, reader: &mut R, buffer: &mut [u8]) -> Result<Ending, Unwritten>
        ensures answered { OnOk result (IsStreamAnswered O.sent O.broken self.old.seat
            self.old.held.seen self.new.held.seen (R.remaining reader.old) (R.remaining reader.new) self.old.answers self.new.answers) }
        ensures end { IfOk result (λ end. end ≡ Over → 0 < length buffer.old
            → IsAtEnd (R.remaining reader.new)) }
        ensures err { OnErr result (IsFalse (O.broken self.new.answers.outlet)
            → IsStreamAnswered O.sent O.broken self.old.seat
            self.old.held.seen self.new.held.seen (R.remaining reader.old) (R.remaining reader.new) self.old.answers self.new.answers
            ⊎ IsStreamStopped O.sent O.broken self.old.seat
            self.old.held.seen self.new.held.seen (R.remaining reader.old) (R.remaining reader.new) self.old.answers self.new.answers) }
        ensures whole { OnOk result (self.old.answers.frames.items ≡ []
            → self.new.answers.frames.items ≡ []) }
    {
        let mut incoming = Incoming::new(self.alloc);
        for _ in self.host.forever() {
            if let Some(end) = self.read_once(reader, &mut incoming, buffer)? {
                return Ok(end);
            }
        }
        unreachable!()
    }

    /// Reads once, and answers the frames that are whole then. It returns the reason, if the session ends.
    fn read_once<R: Read>(
        &mut self,
        reader: &mut R,
        incoming: &mut Incoming,
        buffer: &mut [u8],
    ) -> Result<Option<Ending>, Unwritten>
        ensures answered { OnOk result ((at : List ℕ) → IsIn at incoming.old
            → TakesPart O.sent O.broken self.old.seat self.old.held.seen self.new.held.seen
            (R.remaining reader.old) (R.remaining reader.new) at incoming.old incoming.new self.old.answers self.new.answers) }
        ensures end { IfOk result (λ end. end ≡ Some Over → 0 < length buffer.old
            → IsAtEnd (R.remaining reader.new)) }
        ensures err { OnErr result (IsFalse (O.broken self.new.answers.outlet)
            → (at : List ℕ) → IsIn at incoming.old
            → TakesPart O.sent O.broken self.old.seat self.old.held.seen self.new.held.seen
            (R.remaining reader.old) (R.remaining reader.new) at incoming.old incoming.new self.old.answers self.new.answers
            ⊎ TakesLast O.sent O.broken self.old.seat self.old.held.seen self.new.held.seen
            (R.remaining reader.old) (R.remaining reader.new) at incoming.old self.old.answers self.new.answers) }
        ensures whole { OnOk result (self.old.answers.frames.items ≡ []
            → self.new.answers.frames.items ≡ []) }
        ensures seat { self.new.seat ≡ self.old.seat }
    {
        match reader.read(buffer) {
            Ok(0) => Ok(Some(Ending::Over)),
            Ok(count) => {
                self.silence.end();
                self.answers.counts().count(Count::Read, count as u64);
                self.piece(incoming, &buffer[..count])?;
                Ok(None)
            }
            Err(error) if matches!(error.kind(), ErrorKind::WouldBlock) => {
                if self.is_silent() {
                    return Ok(Some(Ending::Idle));
                }
                Ok(None)
            }
            // A process that was stopped goes on: a read with a time limit is not begun again by the system.
            Err(error) if matches!(error.kind(), ErrorKind::Interrupted) => Ok(None),
            Err(_) => Err(Unwritten),
        }
    }

    /// Notes that a read has ended without bytes. Returns whether the session leaves since it is idle.
    fn is_silent(&mut self) -> bool
        ensures seat { self.new.seat ≡ self.old.seat }
        ensures grows { IsPrefix self.old.held.seen self.new.held.seen }
        ensures answers { self.new.answers ≡ self.old.answers }
    {
        self.silence.pass();
        self.silence.ends_sessions() && !self.line.watches()
            || self.silence.ends_transactions() && self.ends_transaction()
    }

    /// Ends the transaction, and returns whether one was open. The reply to an abort shows it, and it changes nothing
    /// if none is.
    fn ends_transaction(&mut self) -> bool
        ensures seat { self.new.seat ≡ self.old.seat }
        ensures grows { IsPrefix self.old.held.seen self.new.held.seen }
        ensures answers { self.new.answers ≡ self.old.answers }
    {
        let reason = Term::List(Terms::from_vec(Vec::new(self.alloc)));
        let told = self.make(Command::Abort(reason));
        self.give_back();
        match told {
            Ok(told) => !matches!(told.reply(), Reply::NoTransaction),
            Err(_) => true,
        }
    }

    /// Answers the frames that are whole with this piece.
    fn piece(&mut self, incoming: &mut Incoming, piece: &[u8]) -> Result<(), Unwritten>
        ensures answered { OnOk result ((at : List ℕ) → IsIn at incoming.old
            → SendsAnswers O.sent O.broken self.old.seat
            self.old.held.seen self.new.held.seen (at ++ piece.now)
            incoming.old incoming.new self.old.answers self.new.answers) }
        ensures err { OnErr result (IsFalse (O.broken self.new.answers.outlet)
            → (at : List ℕ) → IsIn at incoming.old
            → SendsLast O.sent O.broken self.old.seat
            self.old.held.seen self.new.held.seen (at ++ piece.now)
            incoming.old self.old.answers self.new.answers) }
        ensures whole { OnOk result (self.old.answers.frames.items ≡ []
            → self.new.answers.frames.items ≡ []) }
        ensures seat { self.new.seat ≡ self.old.seat }
    {
        let count = incoming.skip(piece);
        if incoming.is_over() {
            return Err(Unwritten);
        }
        if count == piece.len() {
            return Ok(());
        }
        self.feed(incoming, &piece[count..])
    }

    /// Answers the frames that are whole with these bytes, if none of them is skipped.
    fn feed(&mut self, incoming: &mut Incoming, piece: &[u8]) -> Result<(), Unwritten>
        ensures answered { OnOk result ((at : List ℕ) → IsIn at incoming.old
            → IsFalse incoming.old.skips
            → SendsAnswers O.sent O.broken self.old.seat
            self.old.held.seen self.new.held.seen (at ++ piece.now)
            incoming.old incoming.new self.old.answers self.new.answers) }
        ensures err { OnErr result (IsFalse (O.broken self.new.answers.outlet)
            → (at : List ℕ) → IsIn at incoming.old → IsFalse incoming.old.skips
            → SendsLast O.sent O.broken self.old.seat
            self.old.held.seen self.new.held.seen (at ++ piece.now)
            incoming.old self.old.answers self.new.answers) }
        ensures whole { OnOk result (self.old.answers.frames.items ≡ []
            → self.new.answers.frames.items ≡ []) }
        ensures seat { self.new.seat ≡ self.old.seat }
    {
        match incoming.feed(piece) {
            Ok(frames) => {
                self.place = incoming.place();
                self.frames(&frames)
            }
            Err(fault) => match fault {
                FrameFault::FrameTooLong(_) => self.too_long(incoming),
                _ => self.one_by_one(incoming, piece),
            },
        }
    }

    /// Answers the frames before one whose length is over the limit, and then that one.
    fn too_long(&mut self, incoming: &Incoming) -> Result<(), Unwritten>
        ensures err { IsErr result }
        ensures last { IsFalse (O.broken self.new.answers.outlet)
            → AnswersTooLong O.sent O.broken self.old.seat
            self.old.held.seen self.new.held.seen incoming.now.splitter.before
            self.old.answers self.new.answers }
        ensures seat { self.new.seat ≡ self.old.seat }
    {
        self.frames(incoming.before_fault())?;
        self.reply(&Reply::BadTerm)?;
        Err(Unwritten)
    }

    /// Takes the frames of a piece one by one, if memory is short. A frame for which there still is none is refused,
    /// and skipped.
    fn one_by_one(&mut self, incoming: &mut Incoming, piece: &[u8]) -> Result<(), Unwritten>
        ensures answered { OnOk result ((at : List ℕ) → IsIn at incoming.old
            → IsFalse incoming.old.skips
            → SendsAnswers O.sent O.broken self.old.seat
            self.old.held.seen self.new.held.seen (at ++ piece.now)
            incoming.old incoming.new self.old.answers self.new.answers) }
        ensures err { OnErr result (IsFalse (O.broken self.new.answers.outlet)
            → (at : List ℕ) → IsIn at incoming.old → IsFalse incoming.old.skips
            → SendsLast O.sent O.broken self.old.seat
            self.old.held.seen self.new.held.seen (at ++ piece.now)
            incoming.old self.old.answers self.new.answers) }
        ensures whole { OnOk result (self.old.answers.frames.items ≡ []
            → self.new.answers.frames.items ≡ []) }
        ensures seat { self.new.seat ≡ self.old.seat }
    {
        let mut rest = piece;
        for _ in self.host.forever() {
            if rest.is_empty() {
                return Ok(());
            }
            let (count, taken) = incoming.feed_part(rest);
            self.place = incoming.place();
            self.answer_part(incoming, taken)?;
            rest = &rest[count..];
        }
        unreachable!()
    }

    /// Answers the frame that is whole with a part of a piece, if one is. If it could not be taken, it is refused.
    fn answer_part(
        &mut self,
        incoming: &Incoming,
        taken: Result<Vec<Frame>, FrameFault>,
    ) -> Result<(), Unwritten>
        ensures answered { OnOk result ((bytes : List ℕ) (old : IncomingOf) → IsFalse old.skips
            → IfOk taken (λ frames. Gives bytes incoming.now (contents frames.items))
            → IfErr taken (λ e. IsSkipped e bytes old incoming.now)
            → SendsAnswers O.sent O.broken self.old.seat
            self.old.held.seen self.new.held.seen bytes old incoming.now
            self.old.answers self.new.answers) }
        ensures err { OnErr result (IsFalse (O.broken self.new.answers.outlet)
            → (bytes : List ℕ) (old : IncomingOf) → IsFalse old.skips
            → IfOk taken (λ frames. Gives bytes incoming.now (contents frames.items))
            → IfErr taken (λ e. IsSkipped e bytes old incoming.now)
            → SendsLast O.sent O.broken self.old.seat
            self.old.held.seen self.new.held.seen bytes old self.old.answers self.new.answers) }
        ensures whole { OnOk result (self.new.answers.frames.items ≡ []) }
        ensures seat { self.new.seat ≡ self.old.seat }
    {
        match taken {
            Ok(frames) => self.frames(&frames),
            Err(fault) => match fault {
                FrameFault::FrameTooLong(_) => self.too_long(incoming),
                _ => self.reply(&Reply::NoMemory),
            },
        }
    }

    /// Sends the reply to a frame that is not read.
    fn reply(&mut self, reply: &Reply) -> Result<(), Unwritten>
        ensures sends { OnOk result (Sends O.sent O.broken self.old.answers self.new.answers
            (reply_frames (Some reply.now ∷ []))) }
        ensures whole { OnOk result (self.new.answers.frames.items ≡ []) }
        ensures err { OnErr result (IsTrue (O.broken self.new.answers.outlet)) }
        ensures seat { self.new.seat ≡ self.old.seat }
        ensures seen { self.new.held.seen ≡ self.old.held.seen }
    {
        self.answers.begin();
        self.answers.keep(reply)?;
        self.answers.write()?;
        Ok(())
    }

    /// Answers frames, in order, and writes the replies.
    fn frames(&mut self, frames: &[Frame]) -> Result<(), Unwritten>
        ensures answered { OnOk result
            ((replies : List (Option ReplyOf))
            × AreAnswered self.old.seat self.old.held.seen (contents frames.now) replies
            self.new.held.seen
            × Sends O.sent O.broken self.old.answers self.new.answers (reply_frames replies)) }
        ensures whole { OnOk result (self.new.answers.frames.items ≡ []) }
        ensures err { OnErr result (IsTrue (O.broken self.new.answers.outlet)) }
        ensures seat { self.new.seat ≡ self.old.seat }
    {
        let mut rest = frames;
        while let Some((frame, behind)) = rest.split_first() {
            self.frame(frame, behind.first())?;
            rest = behind;
        }
        self.answers.write()?;
        Ok(())
    }

    /// Answers a frame, and keeps the reply. `next` is the frame after it, if it has come.
    fn frame(&mut self, frame: &Frame, next: Option<&Frame>) -> Result<(), Unwritten>
        ensures answered { OnOk result
            ((told : Option ReplyOf)
            × IsAnswered self.old.seat self.old.held.seen (payload_of frame.now) told
            self.new.held.seen
            × Sends O.sent O.broken self.old.answers self.new.answers
            (reply_frames (told ∷ []))) }
        ensures err { OnErr result (IsTrue (O.broken self.new.answers.outlet)) }
        ensures seat { self.new.seat ≡ self.old.seat }
    {
        self.answers.begin();
        let Some(told) = self.payload(frame.payload(), next) else {
            return Ok(());
        };
        self.answers.keep(told.reply())
    }

    /// Replies to a payload. `next` is the frame after it, if it has come. Returns None if an abort has ended its wait.
    fn payload(&mut self, payload: &[u8], next: Option<&Frame>) -> Option<SharedReply>
        ensures reply { MatchOption result
            (IsEnded self.old.seat self.old.held.seen payload.now self.new.held.seen)
            (λ r. IsPayloadReply self.old.seat self.old.held.seen payload.now r
            self.new.held.seen) }
        ensures seat { self.new.seat ≡ self.old.seat }
        ensures sends { Sends O.sent O.broken self.old.answers self.new.answers [] }
    {
        if let Some(command) = command_in(self.alloc, payload) {
            return self.command(command, payload, next);
        }
        let held = match decode(self.alloc, payload) {
            Ok(held) => held,
            Err(EtfFault::At(_, _)) => return Some(SharedReply::new(Reply::BadTerm)),
            Err(EtfFault::NoMemory) => return Some(SharedReply::new(Reply::NoMemory)),
        };
        match read_command(self.alloc, held) {
            Ok(command) => self.command(command, payload, next),
            Err(ProtoFault::BadCommand) => Some(SharedReply::new(Reply::BadCommand)),
            Err(ProtoFault::NoMemory) => Some(SharedReply::new(Reply::NoMemory)),
        }
    }
}
