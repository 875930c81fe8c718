//! A run of steps, and a command after it.

use crate::{core_after, reply_to};
use std::alloc::AllocError;
use std::sync::Wait;
use std::test::Fail;
use tab_core::{Core, Step};
use tab_model::{Command, Limits, Reply, SharedReply};
use tab_outbox::{Post, RingPost};

static LIMITS: Limits = Limits {
    sessions: 1,
    nesting: 1,
    operations: 3,
    tables: 2,
    ..Limits::STANDARD
};

/// A session joins, begins, and commits.
fn run<R: AllocGlobal + Wait>(rt: &R) -> Result<(Core<RingPost>, Vec<SharedReply>), AllocError> {
    let alloc = rt.alloc();
    let mut steps = Vec::with_capacity(alloc, 3)?;
    let post = RingPost::with_capacity(alloc, 2)?;
    steps.push_reserved((1, Step::Join(post)));
    steps.push_reserved((1, Step::Do(Command::Begin)));
    steps.push_reserved((1, Step::Do(Command::Commit)));
    core_after(rt, alloc, LIMITS, steps)
}

/// A reply as one number.
fn number(told: &SharedReply) -> u64 {
    match told.reply() {
        Reply::Done => 10,
        Reply::NoTransaction => 11,
        Reply::Tid(age) => age.saturating_add(20),
        Reply::Atomic(commit) => commit.saturating_add(30),
        _ => 0,
    }
}

/// Returns whether these are the replies of the run.
fn are_right(told: &[SharedReply]) -> bool {
    match told {
        [joined, begun, committed] => {
            number(joined) == 10 && number(begun) == 21 && number(committed) == 31
        }
        _ => false,
    }
}

/// The reply to a command of session 1, as one number.
fn number_of<R: Wait>(
    rt: &R,
    core: &mut Core<RingPost>,
    command: Command,
) -> Result<u64, AllocError> {
    let reply = reply_to(rt, core, 1, command)?;
    Ok(number(&reply))
}

#[test]
fn steps_are_answered(rt: HostRuntime) -> Result<(), Fail> {
    let (mut core, told) = run(&rt)?;
    assert!(rt; are_right(&told), "join, begin, commit");
    let refused = number_of(&rt, &mut core, Command::Commit);
    assert!(rt; refused == Ok(11), "no transaction is open");
    let begun = number_of(&rt, &mut core, Command::Begin);
    assert!(rt; begun == Ok(22), "the second begin");
    let is_open = core.post(1).is_some_and(|post| post.refusals() == 0);
    assert!(rt; is_open, "a post that refused nothing");
    Ok(())
}
