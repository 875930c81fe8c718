//! A journal of 16 entries folds, step by step.

ghost use Rattle.std.specs.Prelude.{◌≡◌};

use crate::commands::{LIMITS, create, name, number_of, write};
use std::alloc::{AllocError, Global};
use std::marker::{Brand, PhantomData};
use std::sync::Wait;
use std::test::*;
use tab_book::{Book, Opened, Shared, Step};
use tab_journal::{Base, Journal};
use tab_model::{Command, Entry, Limits};
use tab_post::{Host, Naming, Room};
use tab_term::Term;

/// A commit of one write: its number.
fn commit<H: Host>(book: &mut Book<H>, alloc: Global, session: u32) -> Result<u64, AllocError> {
    book.step(session, Step::Do(Command::Begin))?;
    book.step(session, Step::Do(write(alloc, 1)?))?;
    let answered = book.step(session, Step::Do(Command::Commit))?;
    Ok(number_of(answered.told.reply()))
}

/// Returns whether the base has the table, without a record or with one, and this commit.
fn is_base(alloc: Global, base: &Base, commits: u64, records: usize) -> Result<bool, AllocError> {
    let found = match base.tables().table(&name(alloc)?) {
        Some(table) => match table.entry(&Term::Int(1)) {
            Some(entry) => Some(entry.pair().1.len()),
            None => Some(0),
        },
        None => None,
    };
    Ok(base.commits() == commits && found == Some(records))
}

/// Returns whether the oldest entry is the table's.
fn is_table(journal: &Journal) -> bool {
    match journal.entry(0) {
        Some(Entry::Changed(..)) => true,
        _ => false,
    }
}

/// Returns whether the entry at this place is the commit with this number.
fn is_commit(journal: &Journal, place: usize, commit: u64) -> bool {
    match journal.entry(place) {
        Some(Entry::Committed { number, .. }) => *number == commit,
        _ => false,
    }
}

/// Returns whether the entries from this place on are the commits from this one on, in turn, and no more.
fn are_commits(journal: &Journal, first: usize, from: u64, count: usize) -> bool {
    let mut right = journal.len() == first.saturating_add(count);
    for (place, commit) in (first..journal.len()).zip(from..) {
        right &= is_commit(journal, place, commit);
    }
    right
}

/// Returns whether the entries end with this commit: after the table's those from the first on, until that is folded,
/// and then 16.
fn is_right(alloc: Global, journal: &Journal, number: u64) -> Result<bool, AllocError> {
    if number < 16 {
        return Ok(is_table(journal) && are_commits(journal, 1, 1, number as usize));
    }
    let folded = number - 16;
    let based = is_base(alloc, journal.base(), folded, folded.min(1) as usize)?;
    Ok(based && are_commits(journal, 0, folded + 1, 16))
}

/// The first commit after which the journal differs, or is no history of the tables.
fn fold<H: Host>(host: H, alloc: Global, opened: Opened) -> Result<Option<u64>, Fail>
    requires { opened ≡ H.books }
{
    let limits = Limits {
        journal: 16,
        ..LIMITS
    };
    let shared = Shared::new(Book::new(host, alloc, opened, limits)?, Room::of(2));
    fold_in(&host, alloc, &shared)
}

fn fold_in<H: Host>(host: &H, alloc: Global, shared: &Shared<H>) -> Result<Option<u64>, Fail> {
    let (seat, _inbox) = shared.join(host, &mut shared.seen()).map_err(|_| "join")?;
    let mut book = shared.hold(host);
    commit_differs(&mut book, alloc, seat.session())
}

fn commit_differs<H: Host>(
    book: &mut Book<H>,
    alloc: Global,
    session: u32,
) -> Result<Option<u64>, Fail> {
    book.step(session, Step::Do(create(alloc)?))?;
    for number in 1..=100u64 {
        let numbered = commit(book, alloc, session)?;
        let right = is_right(alloc, book.journal(), number)?;
        if numbered != number || !right || !book.audit()? {
            return Ok(Some(number));
        }
    }
    Ok(None)
}

fn fold_named<J: Naming, R: Wait + Copy>(
    rt: R,
    alloc: Global,
    opened: Opened,
) -> Result<Option<u64>, Fail>
    requires { opened ≡ J.books }
{
    fold((rt, PhantomData::<J>), alloc, opened)
}

#[test]
fn a_full_journal_folds_its_oldest(rt: HostRuntime) -> Result<(), Fail> {
    let differs = fold_named::<Brand, _>(rt, rt.alloc(), Opened::new())?;
    assert!(rt; differs == None, "a commit");
    Ok(())
}
