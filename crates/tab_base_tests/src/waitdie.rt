//! Tests of the public calls of `tab_locks` and `tab_waitdie`: steps and calls in turn, with answers from outside.

use std::alloc::{AllocError, Global};
use tab_locks::{Conflict, LockTable};
use tab_model::{Lock, Mode, What};
use tab_term::{Atom, Term};
use tab_waitdie::{Ages, LockDecision, Retried};

/// A table's name, a key or all, a mode.
type Asked = (&'static str, Option<i128>, Mode);

#[derive(Clone, Copy)]
enum Step {
    Ask,
    Hold,
    Release,
    Unhold,
}

/// An age asks for a lock: whether it has it, and how it conflicts with the others' locks. Then a step of that age.
type Row = (u64, Asked, bool, Conflict, Step);

static STEPS: [Row; 13] = [
    (
        3,
        ("t", Some(5), Mode::Read),
        false,
        Conflict::Free,
        Step::Hold,
    ),
    (
        3,
        ("t", Some(5), Mode::Read),
        true,
        Conflict::Free,
        Step::Hold,
    ),
    (
        3,
        ("t", Some(5), Mode::Write),
        false,
        Conflict::Free,
        Step::Ask,
    ),
    (
        2,
        ("t", Some(5), Mode::Read),
        false,
        Conflict::Free,
        Step::Ask,
    ),
    (
        2,
        ("t", Some(5), Mode::Write),
        false,
        Conflict::WithYounger,
        Step::Ask,
    ),
    (
        4,
        ("t", None, Mode::Write),
        false,
        Conflict::WithOlder,
        Step::Ask,
    ),
    (
        4,
        ("t", Some(6), Mode::Write),
        false,
        Conflict::Free,
        Step::Ask,
    ),
    (
        2,
        ("u", None, Mode::Write),
        false,
        Conflict::Free,
        Step::Hold,
    ),
    (
        2,
        ("u", Some(7), Mode::Read),
        true,
        Conflict::Free,
        Step::Ask,
    ),
    (
        3,
        ("u", Some(7), Mode::Read),
        false,
        Conflict::WithOlder,
        Step::Unhold,
    ),
    (
        3,
        ("t", Some(5), Mode::Read),
        true,
        Conflict::Free,
        Step::Release,
    ),
    (
        2,
        ("t", None, Mode::Write),
        false,
        Conflict::Free,
        Step::Release,
    ),
    (
        3,
        ("u", None, Mode::Write),
        false,
        Conflict::Free,
        Step::Ask,
    ),
];

fn name(alloc: Global, table: &str) -> Result<Atom, AllocError> {
    let short = if table.len() <= 255 { table } else { "" };
    Atom::from_short_text(alloc, short)
}

fn lock_of(alloc: Global, asked: &Asked) -> Result<Lock, AllocError> {
    let (table, key, mode) = asked;
    let table = name(alloc, table)?;
    let what = match key {
        Some(key) => What::Key(Term::Int(*key)),
        None => What::All,
    };
    Ok(Lock {
        table,
        what,
        mode: *mode,
    })
}

/// Returns whether the age has the lock, and how it conflicts with the others' locks.
fn standing(locks: &LockTable, age: u64, lock: &Lock) -> (bool, Conflict) {
    (locks.covered(age, lock), locks.conflicts(age, lock))
}

fn make(locks: &mut LockTable, age: u64, lock: Lock, step: Step) -> Result<(), AllocError> {
    match step {
        Step::Ask => drop(lock),
        Step::Hold => locks.hold(age, lock)?,
        Step::Release => {
            drop(lock);
            locks.release_all(age);
        }
        Step::Unhold => {
            drop(lock);
            locks.unhold(age);
        }
    }
    Ok(())
}

/// Returns whether the locks are as this step says, and makes it.
fn is_right(
    alloc: Global,
    locks: &mut LockTable,
    (age, asked, covered, conflict, step): &Row,
) -> Result<bool, AllocError> {
    let lock = lock_of(alloc, asked)?;
    let found = standing(locks, *age, &lock);
    make(locks, *age, lock, *step)?;
    Ok(found == (*covered, *conflict))
}

/// The first step that differs; the number of steps if the table u is locked after them.
fn wrong_step(alloc: Global, locks: &mut LockTable) -> Result<Option<usize>, AllocError> {
    for (number, row) in STEPS.iter().enumerate() {
        if !is_right(alloc, locks, row)? {
            return Ok(Some(number));
        }
    }
    let is_locked = locks.is_locked(&name(alloc, "u")?);
    Ok(is_locked.then_some(STEPS.len()))
}

#[test]
fn locks_are_held_and_gone(rt: HostRuntime) {
    let mut locks = LockTable::new(rt.alloc());
    assert_eq!(rt; wrong_step(rt.alloc(), &mut locks), Ok(None));
}

enum Call {
    Request(u64, Asked, LockDecision),
    Retry(u64, Retried),
    Forget(u64),
    /// A lock of this table is granted or awaited.
    Busy(&'static str),
}

static CALLS: [Call; 13] = [
    Call::Request(2, ("t", Some(5), Mode::Read), LockDecision::Granted),
    Call::Request(1, ("t", Some(5), Mode::Write), LockDecision::Wait),
    Call::Request(3, ("t", Some(6), Mode::Read), LockDecision::Granted),
    Call::Request(3, ("t", Some(5), Mode::Read), LockDecision::Die),
    Call::Request(2, ("t", Some(5), Mode::Read), LockDecision::Granted),
    Call::Retry(1, Retried::Wait),
    Call::Forget(2),
    Call::Retry(1, Retried::Granted),
    Call::Request(3, ("t", None, Mode::Write), LockDecision::Die),
    Call::Request(1, ("t", None, Mode::Write), LockDecision::Wait),
    Call::Forget(3),
    Call::Busy("t"),
    Call::Retry(1, Retried::Granted),
];

/// False if the caller's condition doesn't hold.
fn goes(alloc: Global, ages: &mut Ages, call: &Call) -> Result<bool, AllocError> {
    match call {
        Call::Request(age, asked, answer) => {
            if ages.waits(*age) {
                return Ok(false);
            }
            Ok(ages.request(*age, lock_of(alloc, asked)?)? == *answer)
        }
        Call::Retry(age, answer) => {
            if !ages.waits(*age) {
                return Ok(false);
            }
            Ok(ages.retry(*age)? == *answer)
        }
        Call::Forget(age) => {
            ages.forget(*age);
            Ok(true)
        }
        Call::Busy(table) => Ok(ages.busy(&name(alloc, table)?)),
    }
}

/// The first call whose answer differs.
fn wrong_call(alloc: Global, ages: &mut Ages) -> Result<Option<usize>, AllocError> {
    for (number, call) in CALLS.iter().enumerate() {
        if !goes(alloc, ages, call)? {
            return Ok(Some(number));
        }
    }
    Ok(None)
}

#[test]
fn calls_are_answered(rt: HostRuntime) {
    let mut ages = Ages::new(rt.alloc());
    assert_eq!(rt; wrong_call(rt.alloc(), &mut ages), Ok(None));
}
