//! A write in a transaction of its own, at a book that others use meanwhile.

ghost use Rattle.std.specs.Prelude.{◌≡◌, IsFalse, IfOk};
ghost use Rattle.tab_uses.specs.Endings.{is_commit};

use std::alloc::{AllocError, Global};
use tab_book::{Seat, Shared};
use tab_model::{Command, Operation, Reply};
use tab_post::Host;
use tab_term::Term;

/// The end of a write.
#[derive(Clone, Copy, Debug, PartialEq, Eq)]
pub enum Ending {
    /// It is committed: the number of its commit, from 1 on.
    Commit(u64),
    /// It was refused, as a record of no table is.
    Refusal,
    /// It was restarted each time.
    Restart,
}

/// The most sleeps of 20 milliseconds of a back-off.
const NAPS: u32 = 50;

/// Writes the record in a transaction of its own. The session has none open, neither before nor after it. If the write
/// is restarted, the session backs off and repeats it, at most `attempts` times in all. It waits for a lock of younger
/// transactions without a limit.
///
/// At the error memory was refused, and nothing is written.
// The other sessions' steps meanwhile decide the book's replies, so the calls of `Shared` say nothing of them. This
// says only that no write is committed which was never asked for. A caller that needs the tables as they are now locks
// the book (`Shared::hold`), and has the contracts of `Book`.
pub fn write_alone<H: Host>(
    host: &H,
    alloc: Global,
    shared: &Shared<H>,
    seat: &Seat,
    row: &Term,
    attempts: u32,
) -> Result<Ending, AllocError>
    ensures { attempts ≡ 0 → IfOk result (λ e. IsFalse (is_commit e)) }
{
    let begun = shared.call(host, seat, Command::Begin, &mut shared.seen())?;
    if !matches!(begun.reply(), Reply::Tid(_)) {
        return Ok(Ending::Refusal);
    }
    let ending = ending_of(host, alloc, shared, seat, row, attempts);
    if !matches!(ending, Ok(Ending::Commit(_))) {
        give_up(host, shared, seat);
    }
    ending
}

fn ending_of<H: Host>(
    host: &H,
    alloc: Global,
    shared: &Shared<H>,
    seat: &Seat,
    row: &Term,
    attempts: u32,
) -> Result<Ending, AllocError>
    ensures { attempts ≡ 0 → IfOk result (λ e. IsFalse (is_commit e)) }
{
    for _ in 0..attempts {
        let write = Command::Do(Operation::Write(row.try_clone(alloc)?));
        match shared.call(host, seat, write, &mut shared.seen())?.reply() {
            Reply::Done => return commit(host, shared, seat),
            Reply::Restart => {
                shared.rest(host, seat, NAPS);
            }
            _ => return Ok(Ending::Refusal),
        }
    }
    Ok(Ending::Restart)
}

fn commit<H: Host>(host: &H, shared: &Shared<H>, seat: &Seat) -> Result<Ending, AllocError> {
    match shared
        .call(host, seat, Command::Commit, &mut shared.seen())?
        .reply()
    {
        Reply::Atomic(number) => Ok(Ending::Commit(*number)),
        _ => Ok(Ending::Refusal),
    }
}

/// Ends the transaction, if one is open. No memory is needed for it: an abort is never refused.
fn give_up<H: Host>(host: &H, shared: &Shared<H>, seat: &Seat) {
    match shared.step(host, seat, Command::Abort(Term::Int(0)), &mut shared.seen()) {
        Ok(told) => drop(told),
        Err(_) => unreachable!(),
    }
}
