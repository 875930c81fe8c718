//! Commands to the session, and the ends of levels.

ghost use Rattle.std.specs.Prelude.{◌≡◌, ◌∷◌, [], List, suc, length};
ghost use Rattle.tab_term.specs.Data.{PlainTerms};
ghost use Rattle.tab_oneshot.specs.Calls.{Call, Asked, Waited};
ghost use Rattle.tab_oneshot.specs.Attempts.{Ends, Stops};
ghost use Rattle.tab_oneshot.specs.Parts.{awaited, turn_of};

use crate::answer::{OneShotAnswer, Sort};
use crate::steps::Steps;
use crate::turn::Turn;
use tab_model::{Command, SharedReply};
use tab_term::Term;

/// Hands a command in.
pub fn ask<S: Steps>(steps: &mut S, command: Command) -> OneShotAnswer
    ensures { S.shows steps.old (Asked command result.reply ∷ []) steps.new }
{
    match steps.step(command) {
        Ok(reply) => OneShotAnswer { reply },
        Err(_) => OneShotAnswer::no_memory(),
    }
}

/// The answer of the operation that waits; None if the session can't wait.
pub fn wait<S: Steps>(steps: &mut S) -> Option<OneShotAnswer>
    ensures { S.shows steps.old (Waited (awaited result) ∷ []) steps.new }
{
    match steps.wait() {
        Some(Ok(reply)) => Some(OneShotAnswer { reply }),
        Some(Err(_)) => Some(OneShotAnswer::no_memory()),
        None => None,
    }
}

/// Ends so many levels and the one inside them; the last answer, or that to an abort which ended no level.
pub fn end<S: Steps>(steps: &mut S, around: usize, last: OneShotAnswer) -> SharedReply
    ensures { (more : List Call) × S.shows steps.old more steps.new
        × Ends (suc around) last.reply more result }
{
    let ended = ask(steps, Command::Abort(Term::Int(0)));
    match ended.sort() {
        Sort::Aborted => {
            if around == 0 {
                last.into_reply()
            } else {
                end(steps, around - 1, last)
            }
        }
        _ => ended.into_reply(),
    }
}

/// All open levels are ended: so many, and the one inside them.
pub fn stop<S: Steps>(steps: &mut S, around: usize, last: OneShotAnswer) -> Turn
    ensures { (more : List Call) × S.shows steps.old more steps.new
        × ((levels after : List PlainTerms) → length levels ≡ suc around
        → Stops last.reply levels more (turn_of result after)) }
{
    Turn::Over(end(steps, around, last))
}
