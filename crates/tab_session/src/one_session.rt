//! One session of a core, as a one-shot's driver uses it.

ghost use Rattle.std.specs.Prelude.{◌≡◌, List, IsTrue, IsOk};
ghost use Rattle.tab_model.specs.declared.ask.Ask.TheVariants.{Do as DoCommand};
ghost use Rattle.tab_model.specs.Outcome.{is_abort};
ghost use Rattle.tab_oneshot.specs.Calls.{Call, answer_in};
ghost use Rattle.tab_oneshot.specs.OneShots.{is_one_shot, IsOneShot};
ghost use Rattle.tab_session.specs.OneSessions.{Ran};
ghost use Rattle.tab_session.specs.Rereading.{IsAskedBy};
ghost use Rattle.tab_session.specs.StepsMade.{StepMadeOrRefused};

use crate::payload::Payload;
use std::alloc::AllocError;
use std::sync::Wait;
use tab_core::{Core, Step};
use tab_model::{Command, SharedReply};
use tab_oneshot::{Steps, one_shot};
use tab_outbox::RingPost;

/// A command of the session.
fn hand_in<R: AllocGlobal + Wait>(
    rt: &R,
    core: &mut Core<RingPost>,
    session: u32,
    command: Command,
) -> Result<SharedReply, AllocError>
    ensures made { StepMadeOrRefused core.old session (DoCommand command)
        (answer_in result) core.new }
    ensures abort { IsTrue (is_abort command) → IsOk result }
{
    match core.step(rt, session, Step::Do(command)) {
        Ok(stepped) => Ok(stepped.into_reply()),
        Err(refused) => Err(refused),
    }
}

/// A session of the core, which can't wait for another.
pub struct OneSession<'a, R> {
    rt: &'a R,
    core: &'a mut Core<RingPost>,
    session: u32,
}

impl<'a, R: AllocGlobal + Wait> Steps for OneSession<'a, R> {
    ghost use Rattle.tab_session.specs.SoleSessions.{HasRun, has_run_none, has_run_on};

    ghost shows = { HasRun };

    ghost shows_none = { has_run_none };

    ghost shows_on = { has_run_on };

    fn step(&mut self, command: Command) -> Result<SharedReply, AllocError> {
        hand_in(self.rt, self.core, self.session, command)
    }

    fn wait(&mut self) -> Option<Result<SharedReply, AllocError>> {
        None
    }

    fn again(&mut self) {}
}

/// Runs a one-shot, which the payload is, on a session.
pub fn drive<R: AllocGlobal + Wait>(
    core: &mut Core<RingPost>,
    payload: &Payload<'_, R>,
    session: u32,
    command: Command,
) -> SharedReply
    requires one_shot { IsTrue (is_one_shot command) }
    requires asked { IsAskedBy payload.now.bytes.now (DoCommand command) }
    ensures { (calls : List Call) × Ran session core.old calls core.new
        × IsOneShot command calls result }
{
    let rt = payload.rt;
    let mut slot = OneSession { rt, core, session };
    let reply = one_shot(&mut slot, payload.rt.alloc(), command, payload);
    let OneSession {
        rt: _,
        core: _,
        session: _,
    } = slot;
    reply
}
