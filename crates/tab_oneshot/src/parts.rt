//! One part of an attempt: the command that is sent for it, and the effect of its answer.

ghost use Rattle.std.specs.Prelude.{◌≡◌, ◌∷◌, [], List, IsTrue, OnOk};
ghost use Rattle.tab_model.specs.declared.data.Part.TheVariants as part;
ghost use Rattle.tab_model.specs.declared.data.Reply.TheVariants as reply;
ghost use Rattle.tab_term.specs.Data.{PlainTerms};
ghost use Rattle.tab_proto.specs.Replies.{is_told, reply_term};
ghost use Rattle.tab_oneshot.specs.Calls.{Call};
ghost use Rattle.tab_oneshot.specs.Attempts.{sort_of, told, Puts, LevelEnds, AfterOperation, AfterWait, Joins, Serves};
ghost use Rattle.tab_oneshot.specs.Parts.{awaited, turn_of};

use crate::answer::{OneShotAnswer, Sort};
use crate::asking::{ask, stop, wait};
use crate::levels::DriverLevels;
use crate::steps::Steps;
use crate::turn::Turn;
use std::alloc::{AllocError, Global};
use tab_lists::Answers;
use tab_model::{Command, Operation, Part, Reply, SharedReply};
use tab_proto::answer_of;
use tab_term::Term;

fn put_answer(
    alloc: Global,
    answer: OneShotAnswer,
    levels: &mut DriverLevels,
) -> Result<(), AllocError>
    requires { IsTrue (is_told answer.reply) }
    ensures { OnOk result (levels.new ≡ told (reply_term answer.reply) levels.old) }
{
    levels.put(answer_of(alloc, answer.into_reply())?)
}

fn put_inner(inner: Answers, levels: &mut DriverLevels) -> Result<(), AllocError>
    ensures { OnOk result (levels.new ≡ told (reply_term (reply.AtomicTerms inner)) levels.old) }
{
    levels.put(tab_lists::Answer::Atomic(inner))
}

/// Puts an operation's answer into its level.
fn tell<S: Steps>(
    steps: &mut S,
    alloc: Global,
    answer: OneShotAnswer,
    levels: &mut DriverLevels,
) -> Turn
    requires { IsTrue (is_told answer.reply) }
    ensures { (more : List Call) × S.shows steps.old more steps.new
        × Puts 0 answer.reply levels.old more (turn_of result levels.new) }
{
    let around = levels.around();
    match put_answer(alloc, answer, levels) {
        Ok(()) => Turn::GoOn,
        Err(_) => stop(steps, around, OneShotAnswer::no_memory()),
    }
}

/// The answer ended the innermost level.
fn end_level<S: Steps>(
    steps: &mut S,
    alloc: Global,
    answer: OneShotAnswer,
    levels: &mut DriverLevels,
) -> Turn
    requires { IsTrue (is_told answer.reply) }
    ensures { (more : List Call) × S.shows steps.old more steps.new
        × LevelEnds answer.reply levels.old more (turn_of result levels.new) }
{
    match levels.leave() {
        None => Turn::Over(answer.into_reply()),
        Some(undone) => {
            drop(undone);
            tell_behind(steps, alloc, answer, levels)
        }
    }
}

/// Puts the answer of an ended level into the one around it.
fn tell_behind<S: Steps>(
    steps: &mut S,
    alloc: Global,
    answer: OneShotAnswer,
    levels: &mut DriverLevels,
) -> Turn
    requires { IsTrue (is_told answer.reply) }
    ensures { (more : List Call) × S.shows steps.old more steps.new
        × Puts 1 answer.reply levels.old more (turn_of result levels.new) }
{
    let around = levels.around();
    match put_answer(alloc, answer, levels) {
        Ok(()) => Turn::Skip,
        Err(_) => stop(steps, around, OneShotAnswer::no_memory()),
    }
}

fn after_operation<S: Steps>(
    steps: &mut S,
    alloc: Global,
    answer: OneShotAnswer,
    levels: &mut DriverLevels,
) -> Turn
    ensures { (more : List Call) × S.shows steps.old more steps.new
        × AfterOperation (sort_of answer.reply) answer.reply levels.old more
        (turn_of result levels.new) }
{
    match answer.sort() {
        Sort::Answered => tell(steps, alloc, answer, levels),
        Sort::Failed => end_level(steps, alloc, answer, levels),
        Sort::Restarted => Turn::Restart,
        Sort::Refused => stop(steps, levels.around(), answer),
        _ => Turn::Over(answer.into_reply()),
    }
}

fn after_wait<S: Steps>(
    steps: &mut S,
    alloc: Global,
    levels: &mut DriverLevels,
    waited: Option<OneShotAnswer>,
) -> Turn
    ensures { (more : List Call) × S.shows steps.old more steps.new
        × AfterWait (awaited waited) levels.old more (turn_of result levels.new) }
{
    match waited {
        Some(answer) => after_operation(steps, alloc, answer, levels),
        None => {
            let answer = OneShotAnswer {
                reply: SharedReply::new(Reply::NoWait),
            };
            stop(steps, levels.around(), answer)
        }
    }
}

fn operate<S: Steps>(
    steps: &mut S,
    alloc: Global,
    asked: Operation,
    levels: &mut DriverLevels,
) -> Turn
    ensures { (more : List Call) × S.shows steps.old more steps.new
        × Serves (part.Do asked) levels.old more (turn_of result levels.new) }
{
    if levels.reserve().is_err() {
        return stop(steps, levels.around(), OneShotAnswer::no_memory());
    }
    let answer = ask(steps, Command::Do(asked));
    match answer.sort() {
        Sort::Waits => {
            let waited = wait(steps);
            after_wait(steps, alloc, levels, waited)
        }
        _ => after_operation(steps, alloc, answer, levels),
    }
}

fn abort<S: Steps>(steps: &mut S, alloc: Global, reason: Term, levels: &mut DriverLevels) -> Turn
    ensures { (more : List Call) × S.shows steps.old more steps.new
        × Serves (part.Abort reason) levels.old more (turn_of result levels.new) }
{
    if levels.reserve().is_err() {
        return stop(steps, levels.around(), OneShotAnswer::no_memory());
    }
    let answer = ask(steps, Command::Abort(reason));
    match answer.sort() {
        Sort::Aborted => end_level(steps, alloc, answer, levels),
        Sort::Refused => stop(steps, levels.around(), answer),
        _ => Turn::Over(answer.into_reply()),
    }
}

fn begin<S: Steps>(steps: &mut S, alloc: Global, levels: &mut DriverLevels) -> Turn
    ensures { (more : List Call) × S.shows steps.old more steps.new
        × Serves part.Open levels.old more (turn_of result levels.new) }
{
    let around = levels.around();
    // Its memory is reserved before it begins: after that nothing of this is refused.
    if levels.begin(alloc).is_err() {
        return stop(steps, around, OneShotAnswer::no_memory());
    }
    let answer = ask(steps, Command::Begin);
    match answer.sort() {
        Sort::Opened => Turn::GoOn,
        Sort::Refused => stop(steps, around, answer),
        _ => Turn::Over(answer.into_reply()),
    }
}

/// Puts the answers of a committed child into the level around it.
fn join<S: Steps>(steps: &mut S, answer: OneShotAnswer, levels: &mut DriverLevels) -> Turn
    ensures { (more : List Call) × S.shows steps.old more steps.new
        × Joins answer.reply levels.old more (turn_of result levels.new) }
{
    match levels.leave() {
        None => Turn::Over(answer.into_reply()),
        Some(inner) => {
            let around = levels.around();
            match put_inner(inner, levels) {
                Ok(()) => Turn::GoOn,
                Err(_) => stop(steps, around, OneShotAnswer::no_memory()),
            }
        }
    }
}

fn commit<S: Steps>(steps: &mut S, levels: &mut DriverLevels) -> Turn
    ensures { (more : List Call) × S.shows steps.old more steps.new
        × Serves part.Close levels.old more (turn_of result levels.new) }
{
    let answer = ask(steps, Command::Commit);
    match answer.sort() {
        Sort::Joined => join(steps, answer, levels),
        Sort::Refused => stop(steps, levels.around(), answer),
        _ => Turn::Over(answer.into_reply()),
    }
}

/// Hands a part in.
pub fn serve<S: Steps>(steps: &mut S, alloc: Global, part: Part, levels: &mut DriverLevels) -> Turn
    ensures { (more : List Call) × S.shows steps.old more steps.new
        × Serves part levels.old more (turn_of result levels.new) }
{
    match part.into_command() {
        Command::Do(operation) => operate(steps, alloc, operation, levels),
        Command::Abort(reason) => abort(steps, alloc, reason, levels),
        Command::Begin => begin(steps, alloc, levels),
        _ => commit(steps, levels),
    }
}
