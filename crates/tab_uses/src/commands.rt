//! One command of a session of a core.

ghost use Rattle.std.specs.Prelude.{◌≡◌, IfOk, OnErr};
ghost use Rattle.tab_model.specs.State.{IsSound};
ghost use Rattle.tab_uses.specs.Replies.{IsAnswered};

use std::alloc::AllocError;
use std::sync::Wait;
use tab_core::{Core, Step};
use tab_model::{Command, SharedReply};
use tab_outbox::Post;

/// The session's reply. A refusal is a reply too. The error is only that of memory, and the command may be sent again.
///
/// The reply of a one-shot is that of the begin of its transaction.
pub fn reply_to<P: Post + Drop, R: Wait>(
    rt: &R,
    core: &mut Core<P>,
    session: u32,
    command: Command,
) -> Result<SharedReply, AllocError>
    ensures answered { IfOk result (λ r. IsAnswered core.old session command r core.new) }
    ensures err { OnErr result (core.new ≡ core.old) }
    ensures sound { IsSound core.new }
{
    let stepped = core.step(rt, session, Step::Do(command))?;
    Ok(stepped.into_reply())
}
