//! One attempt: all parts in order, and the commit.

ghost use Rattle.std.specs.Prelude.{◌≡◌, ◌≤◌, ◌<◌, List, suc, ℕ};
ghost use Rattle.tab_oneshot.specs.Calls.{Call};
ghost use Rattle.tab_oneshot.specs.Attempts.{Commits, IsAttempt, passed as passed_of};

use crate::answer::Sort;
use crate::asking::{ask, end};
use crate::levels::DriverLevels;
use crate::parts::serve;
use crate::steps::Steps;
use crate::turn::Turn;
use std::alloc::Global;
use tab_model::{Command, Part, Reply, SharedReply};

/// The number of levels that are still to end after a part that is left out.
fn passed(part: &Part, skipped: usize) -> usize
    requires some { 1 ≤ skipped }
    requires room { skipped < usize.MAX }
    ensures { (n : ℕ) → skipped ≡ suc n → result ≡ passed_of part.now n }
{
    match part {
        Part::Open => skipped + 1,
        Part::Close => skipped - 1,
        _ => skipped,
    }
}

/// The commit of level 1.
fn commit<S: Steps>(steps: &mut S, alloc: Global, levels: &mut DriverLevels) -> SharedReply
    ensures { (more : List Call) × S.shows steps.old more steps.new
        × Commits levels.old more result }
{
    let answer = ask(steps, Command::Commit);
    match answer.sort() {
        Sort::Committed => SharedReply::new(Reply::AtomicTerms(levels.take(alloc))),
        Sort::Refused => end(steps, levels.around(), answer),
        _ => answer.into_reply(),
    }
}

/// Hands the parts in, none of which is copied. The reply, or None of an attempt that was restarted.
pub fn attempt<S: Steps>(
    steps: &mut S,
    alloc: Global,
    parts: Vec<Part>,
    levels: &mut DriverLevels,
) -> Option<SharedReply>
    ensures { (more : List Call) × S.shows steps.old more steps.new
        × IsAttempt parts.items 0 levels.old more result }
{
    let mut skipped = 0;
    for part in parts {
        if skipped > 0 {
            skipped = passed(&part, skipped);
        } else {
            match serve(steps, alloc, part, levels) {
                Turn::GoOn => {}
                Turn::Skip => skipped = 1,
                Turn::Over(reply) => return Some(reply),
                Turn::Restart => return None,
            }
        }
    }
    Some(commit(steps, alloc, levels))
}
