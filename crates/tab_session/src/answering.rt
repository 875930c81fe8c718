//! One payload, and how it is answered.

ghost use Rattle.std.specs.Prelude.{◌≡◌, ◌++◌, ◌⊎◌, ℕ, [], MatchOption, MatchResult, Ok, OnOk, OnErr};
ghost use Rattle.tab_term.specs.View.{term};
ghost use Rattle.tab_etf.specs.Reading.{whole};
ghost use Rattle.tab_model.specs.declared.ask.Ask.TheVariants.{Join, Do as DoCommand};
ghost use Rattle.tab_core.specs.Runs.{ask_of};
ghost use Rattle.tab_outbox.specs.Posts.{as_outbox};
ghost use Rattle.tab_proto.specs.Requests.{IsRequest, IsSession, request_term};
ghost use Rattle.tab_oneshot.specs.OneShots.{is_one_shot as is_one_shot_command};
ghost use Rattle.tab_session.specs.StepsMade.{IsJoinRefused, JoinTakesMemory, StepMadeOrRefused};
ghost use Rattle.tab_session.specs.AnsweredPayloads.{IsNumberOf, Answered, AnsweredTerm, RefusedTerm, RepliesTo, answer_frame, empty_post};
ghost use Rattle.tab_session.specs.Replays.{Handed, OneFault};
ghost use Rattle.tab_session.specs.Rereading.{IsAskedBy};

use crate::one_session::drive;
use crate::payload::Payload;
use crate::{Ended, PayloadReply};
use std::alloc::AllocError;
use std::sync::Wait;
use tab_core::{Core, Step, Stepped};
use tab_etf::{EtfFault, FrameFault, Target, decode};
use tab_model::{Ask, Command, Limit, Reply, SharedReply};
use tab_outbox::RingPost;
use tab_proto::{
    ProtoFault, append_reply_within, read_request, request_in, session_of, write_reply,
};
use tab_term::Term;

/// Answers a payload: what is no term is BadTerm under 0, and a term that asks nothing is BadCommand, under the number in
/// `{Session, X}` or else under 0. A step that is refused for memory is answered NoMemory, and has changed nothing. A one-shot
/// is answered by the steps of its driver. A session that joins has a post for so many items as `outbox` says.
pub fn answer<R: AllocGlobal + Wait>(
    rt: &R,
    core: &mut Core<RingPost>,
    outbox: usize,
    payload: &[u8],
) -> PayloadReply
    ensures { Answered outbox core.old payload.now result core.new }
{
    let asked = Payload { rt, bytes: payload };
    if let Some((session, request)) = request_in(rt.alloc(), payload) {
        return answer_request(core, outbox, &asked, session, request);
    }
    match decode(rt.alloc(), payload) {
        Ok(held) => answer_to(core, outbox, &asked, held),
        Err(EtfFault::At(_, _)) => PayloadReply {
            session: 0,
            reply: SharedReply::new(Reply::BadTerm),
        },
        Err(EtfFault::NoMemory) => PayloadReply {
            session: 0,
            reply: SharedReply::new(Reply::NoMemory),
        },
    }
}

/// Answers the request that a payload is.
fn answer_request<R: AllocGlobal + Wait>(
    core: &mut Core<RingPost>,
    outbox: usize,
    payload: &Payload<'_, R>,
    session: u32,
    request: Ask<()>,
) -> PayloadReply
    requires read { whole payload.now.bytes.now ≡ Ok (request_term session request) }
    requires session { IsSession session }
    requires formed { IsRequest request }
    ensures { AnsweredTerm outbox core.old (request_term session request) result core.new
        ⊎ RefusedTerm outbox core.old (request_term session request) result core.new }
{
    PayloadReply {
        session,
        reply: reply_to(core, outbox, payload, session, request),
    }
}

/// Answers the term that a payload is.
fn answer_to<R: AllocGlobal + Wait>(
    core: &mut Core<RingPost>,
    outbox: usize,
    payload: &Payload<'_, R>,
    held: Term,
) -> PayloadReply
    requires { whole payload.now.bytes.now ≡ Ok (term held) }
    ensures { AnsweredTerm outbox core.old (term held) result core.new
        ⊎ RefusedTerm outbox core.old (term held) result core.new }
{
    let number = number_of(&held);
    match read_request(payload.rt.alloc(), held) {
        Ok((session, request)) => PayloadReply {
            session,
            reply: reply_to(core, outbox, payload, session, request),
        },
        Err(ProtoFault::BadCommand) => PayloadReply {
            session: number,
            reply: SharedReply::new(Reply::BadCommand),
        },
        Err(ProtoFault::NoMemory) => PayloadReply {
            session: number,
            reply: SharedReply::new(Reply::NoMemory),
        },
    }
}

/// The number in `{Session, X}`, or 0.
fn number_of(held: &Term) -> u32
    ensures { IsNumberOf (term held.now) result }
{
    match session_of(held) {
        Some(session) => session,
        None => 0,
    }
}

/// A one-shot is run by its driver, and any other request is one step.
fn reply_to<R: AllocGlobal + Wait>(
    core: &mut Core<RingPost>,
    outbox: usize,
    payload: &Payload<'_, R>,
    session: u32,
    request: Ask<()>,
) -> SharedReply
    requires { IsAskedBy payload.now.bytes.now request }
    ensures { RepliesTo outbox core.old session request result core.new }
{
    match request {
        Ask::Join(()) => join(core, payload, outbox, session),
        Ask::Leave => reply_to_step(payload.rt, core, session, Ask::Leave),
        Ask::Retry => reply_to_step(payload.rt, core, session, Ask::Retry),
        Ask::Take => reply_to_step(payload.rt, core, session, Ask::Take),
        Ask::Do(command) => reply_to_command(core, payload, session, command),
    }
}

/// Joins a session with a post of its own, which is created if the session may join.
fn join<R: AllocGlobal + Wait>(
    core: &mut Core<RingPost>,
    payload: &Payload<'_, R>,
    outbox: usize,
    session: u32,
) -> SharedReply
    ensures { StepMadeOrRefused core.old session (Join (empty_post outbox)) result core.new }
{
    if let Some(refusal) = join_refusal(core, session) {
        return SharedReply::new(refusal);
    }
    match RingPost::with_capacity(payload.rt.alloc(), outbox) {
        Ok(post) => reply_to_step(payload.rt, core, session, Ask::Join(post)),
        Err(_) => SharedReply::new(Reply::NoMemory),
    }
}

/// The refusal of a session that may not join.
fn join_refusal(core: &Core<RingPost>, session: u32) -> Option<Reply>
    ensures { MatchOption result (JoinTakesMemory core.now session)
        (IsJoinRefused core.now session) }
{
    if core.joined(session) {
        return Some(Reply::BadSession);
    }
    if session <= core.greatest() {
        return Some(Reply::BadSession);
    }
    if core.admits(session) {
        return None;
    }
    Some(Reply::SystemLimit(Limit::Sessions))
}

fn reply_to_command<R: AllocGlobal + Wait>(
    core: &mut Core<RingPost>,
    payload: &Payload<'_, R>,
    session: u32,
    command: Command,
) -> SharedReply
    requires { IsAskedBy payload.now.bytes.now (DoCommand command) }
    ensures { (outbox : ℕ)
        → RepliesTo outbox core.old session (DoCommand command) result core.new }
{
    if is_one_shot(&command) {
        return drive(core, payload, session, command);
    }
    reply_to_step(payload.rt, core, session, Ask::Do(command))
}

fn is_one_shot(command: &Command) -> bool
    ensures { result ≡ is_one_shot_command command.now }
{
    match command {
        Command::OneShot(_, _) => true,
        _ => false,
    }
}

/// Makes one step of the core, and replies NoMemory if memory is refused.
fn reply_to_step<R: AllocGlobal + Wait>(
    rt: &R,
    core: &mut Core<RingPost>,
    session: u32,
    step: Step<RingPost>,
) -> SharedReply
    ensures { StepMadeOrRefused core.old session (ask_of as_outbox step) result core.new }
{
    reply_of(core.step(rt, session, step))
}

/// The reply of one step, which is NoMemory if memory was refused.
fn reply_of(step: Result<Stepped, AllocError>) -> SharedReply
    ensures { MatchResult step (λ s. result ≡ s.reply) (λ e. result ≡ Reply.NoMemory) }
{
    match step {
        Ok(stepped) => stepped.into_reply(),
        Err(_) => SharedReply::new(Reply::NoMemory),
    }
}

/// A frame is not kept: no memory was found for it, or it is long.
#[derive(Clone, Copy, Debug, PartialEq, Eq)]
pub struct Unkept;

/// Appends the frame of `{Session, Reply}` if it takes at most `most` bytes, or has no list. On an error the bytes are
/// as before.
#[tactic(auto, unfolding(crate::specs::AnsweredPayloads::answer_frame))]
pub fn put_answer(answer: &PayloadReply, most: usize, out: &mut Vec<u8>) -> Result<(), Unkept>
    ensures ok { OnOk result (out.new.items ≡ out.old.items ++ answer_frame answer.now) }
    ensures same { OnErr result (out.new.items ≡ out.old.items) }
{
    match append_reply_within(Some(answer.session), answer.reply.reply(), most, out) {
        Ok(true) => Ok(()),
        Ok(false) | Err(_) => Err(Unkept),
    }
}

/// Writes the frame of `{Session, Reply}`, and takes no memory.
#[tactic(auto, unfolding(crate::specs::AnsweredPayloads::answer_frame))]
pub fn write_answer<W: Target>(answer: &PayloadReply, output: &mut W) -> Result<(), Ended>
    ensures handed { Handed answer.now (W.contents output.old)
        (W.contents output.new) [] [] result }
    ensures faults { OneFault (W.faults output.old) (W.faults output.new) result }
{
    match write_reply(output, Some(answer.session), answer.reply.reply()) {
        Ok(()) => Ok(()),
        Err(FrameFault::FrameTooLong(_)) => Err(Ended::TooLong),
        Err(_) => Err(Ended::Device),
    }
}
