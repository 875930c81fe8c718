//! A whole one-shot.

ghost use Rattle.std.specs.Prelude.{◌≡◌, ◌∷◌, [], List, IfOk, IfSome, IsTrue};
ghost use Rattle.tab_term.specs.Data.{none};
ghost use Rattle.tab_oneshot.specs.Calls.{Call, Again};
ghost use Rattle.tab_model.specs.declared.data.Part.{Part as PartOf};
ghost use Rattle.tab_oneshot.specs.OneShots.{is_one_shot, IsFrom, IsOneShot, IsRun, IsTried, Runs};

use crate::answer::{OneShotAnswer, Sort};
use crate::asking::{ask, end};
use crate::attempt::attempt;
use crate::levels::DriverLevels;
use crate::source::Source;
use crate::steps::Steps;
use std::alloc::{AllocError, Global};
use tab_model::{Command, Part, Parts, Reply, SharedReply};

/// Runs a one-shot, whose command is `{transaction, Ops, Retries}`, on a session.
///
/// It sends the whole command first, which opens level 1; then the members of its list, in order, and the commit. If
/// the session restarts it, it begins again with the first member, at most `Retries` times. For each attempt but the
/// first, the source gives the members.
pub fn one_shot<S: Steps, P: Source>(
    steps: &mut S,
    alloc: Global,
    command: Command,
    source: &P,
) -> SharedReply
    requires one_shot { IsTrue (is_one_shot command) }
    requires source { IsFrom (P.gives source.now) command }
    ensures { (more : List Call) × S.shows steps.old more steps.new
        × IsOneShot command more result }
{
    let Command::OneShot(parts, retries) = command else {
        unreachable!();
    };
    run(steps, alloc, parts, retries, source)
}

fn run<S: Steps, P: Source>(
    steps: &mut S,
    alloc: Global,
    parts: Parts,
    retries: u64,
    source: &P,
) -> SharedReply
    requires { P.gives source.now parts }
    ensures { (more : List Call) × S.shows steps.old more steps.new
        × IsRun parts retries more result }
{
    let Ok(shared) = parts.share() else {
        return SharedReply::new(Reply::NoMemory);
    };
    let answer = ask(steps, Command::OneShot(shared, retries));
    match answer.sort() {
        Sort::Opened => attempts(steps, alloc, parts, retries, source),
        _ => answer.into_reply(),
    }
}

/// Level 1 stays open.
fn begin_anew<S: Steps>(steps: &mut S, levels: &mut DriverLevels)
    ensures again { S.shows steps.old (Again ∷ []) steps.new }
    ensures levels { levels.new ≡ none ∷ [] }
{
    steps.again();
    levels.clear();
}

/// At most so many attempts and one more.
fn attempts<S: Steps, P: Source>(
    steps: &mut S,
    alloc: Global,
    parts: Parts,
    retries: u64,
    source: &P,
) -> SharedReply
    requires { P.gives source.now parts }
    ensures { (more : List Call) × S.shows steps.old more steps.new
        × Runs parts retries more result }
{
    let mut levels = DriverLevels::new(alloc);
    // The step has dropped its share.
    let mut first = parts.into_vec();
    for _restart in 0..retries {
        if let Some(reply) = attempt_with(steps, alloc, first.take(), source, &mut levels) {
            return reply;
        }
        begin_anew(steps, &mut levels);
    }
    match attempt_with(steps, alloc, first.take(), source, &mut levels) {
        Some(reply) => reply,
        None => end(
            steps,
            0,
            OneShotAnswer {
                reply: SharedReply::new(Reply::NoMore),
            },
        ),
    }
}

/// These parts, or those that the source gives.
fn parts_of<P: Source>(parts: Option<Vec<Part>>, source: &P) -> Result<Vec<Part>, AllocError>
    ensures { (all : List PartOf) → P.gives source.now all → IfSome parts (λ ps. ps.items ≡ all)
        → IfOk result (λ ps. ps.items ≡ all) }
{
    match parts {
        Some(parts) => Ok(parts),
        None => source.again(),
    }
}

/// An attempt with these parts, or with those that the source gives. Level 1 ends if memory for them is refused.
fn attempt_with<S: Steps, P: Source>(
    steps: &mut S,
    alloc: Global,
    parts: Option<Vec<Part>>,
    source: &P,
    levels: &mut DriverLevels,
) -> Option<SharedReply>
    requires { levels.old ≡ none ∷ [] }
    ensures { (all : List PartOf) → P.gives source.now all → IfSome parts (λ ps. ps.items ≡ all)
        → (more : List Call) × S.shows steps.old more steps.new × IsTried all more result }
{
    let Ok(parts) = parts_of(parts, source) else {
        return Some(end(steps, 0, OneShotAnswer::no_memory()));
    };
    attempt(steps, alloc, parts, levels)
}
