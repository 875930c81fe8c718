//! Entries that are audited, and folded into the base.
use std::alloc::{AllocError, Global};
use std::sync::Wait;
use std::test::Fail;
use tab_journal::Journal;
use tab_lists::SharedTerms;
use tab_model::{
    Entry, Kind, Level, LoggedOperation, LoggedReply, Move, Moves, Operation, Replies, Reply,
    Schema, Sessions, SharedReply,
};
use tab_records::Iter;
use tab_term::{Term, Terms};
use tab_test_tools::atom;

/// The bytes at which a journal is full in these tests.
const MOST_BYTES: u32 = 32_000;

/// A move of session 1 in table t, whose records are `{t, 1, V}`.
enum Made {
    Write(i128),
    /// Of key 1, which gives this value.
    Read(i128),
    /// Of a table that isn't there.
    Fail,
    Open,
    Close,
    Undo,
}

/// The moves of commit 1, what an audit says of them, and the value that they leave at key 1.
type Row = (&'static [Made], bool, Option<i128>);

static COMMITS: [Row; 9] = [
    (&[], true, None),
    (&[Made::Write(1), Made::Read(1)], true, Some(1)),
    (&[Made::Write(1), Made::Read(2)], false, Some(1)),
    (&[Made::Write(1), Made::Write(2)], true, Some(2)),
    (
        &[
            Made::Write(1),
            Made::Open,
            Made::Write(2),
            Made::Fail,
            Made::Read(1),
        ],
        true,
        Some(1),
    ),
    (
        &[
            Made::Write(1),
            Made::Open,
            Made::Write(2),
            Made::Close,
            Made::Read(1),
        ],
        false,
        Some(2),
    ),
    (
        &[Made::Open, Made::Write(2), Made::Undo, Made::Read(2)],
        false,
        None,
    ),
    (
        &[Made::Write(1), Made::Open, Made::Write(2), Made::Close],
        true,
        Some(2),
    ),
    (
        &[
            Made::Open,
            Made::Write(1),
            Made::Open,
            Made::Write(2),
            Made::Close,
            Made::Undo,
        ],
        true,
        None,
    ),
];

fn record_of(alloc: Global, value: Term) -> Result<Term, AllocError> {
    let mut row = Vec::with_capacity(alloc, 3)?;
    row.push_reserved(Term::Atom(atom(alloc, "t")?));
    row.push_reserved(Term::Int(1));
    row.push_reserved(value);
    Ok(Term::Tuple(Terms::from_vec(row)))
}

fn record(alloc: Global, value: i128) -> Result<Term, AllocError> {
    record_of(alloc, Term::Int(value))
}

fn do_of(alloc: Global, operation: Operation) -> Result<Move, AllocError> {
    Ok(Move::Do(LoggedOperation::new(alloc, Kind::Set, operation)?))
}

fn move_of(alloc: Global, made: &Made) -> Result<Move, AllocError> {
    Ok(match made {
        Made::Write(value) => do_of(alloc, Operation::Write(record(alloc, *value)?))?,
        Made::Read(_) => do_of(alloc, Operation::Read(atom(alloc, "t")?, Term::Int(1)))?,
        Made::Fail => do_of(alloc, Operation::Read(atom(alloc, "nosuch")?, Term::Int(1)))?,
        Made::Open => Move::Open,
        Made::Close => Move::Close,
        Made::Undo => Move::Undo,
    })
}

fn found(alloc: Global, value: i128) -> Result<SharedTerms, AllocError> {
    let mut records = Vec::with_capacity(alloc, 1)?;
    records.push_reserved(record(alloc, value)?);
    Ok(SharedTerms::from_terms(Terms::from_vec(records)))
}

fn logged(alloc: Global, reply: Reply) -> Result<LoggedReply, AllocError> {
    let (told, logged) = SharedReply::pair(alloc, reply)?;
    drop(told);
    Ok(logged)
}

fn told_of(alloc: Global, made: &Made) -> Result<Option<LoggedReply>, AllocError> {
    Ok(match made {
        Made::Write(_) => Some(logged(alloc, Reply::Done)?),
        Made::Read(value) => {
            let records = found(alloc, *value)?;
            Some(logged(alloc, Reply::Found(records))?)
        }
        Made::Fail => {
            let table = atom(alloc, "nosuch")?;
            Some(logged(alloc, Reply::NoTable(table))?)
        }
        Made::Open => Some(LoggedReply::tid(1)),
        Made::Close => Some(LoggedReply::atomic_ok()),
        Made::Undo => None,
    })
}

fn none(alloc: Global) -> Sessions {
    Sessions {
        items: Vec::new(alloc),
    }
}

fn commit(alloc: Global, all: &[Made]) -> Result<Entry, AllocError> {
    let mut moves = Vec::new(alloc);
    let mut told = Vec::new(alloc);
    for made in all {
        moves.push(move_of(alloc, made)?)?;
        told.push(told_of(alloc, made)?)?;
    }
    Ok(Entry::Committed {
        number: 1,
        session: 1,
        age: 1,
        moves: Moves { items: moves },
        told: Replies { items: told },
        overflowed: none(alloc),
    })
}

fn created(alloc: Global, options: Terms) -> Result<Entry, AllocError> {
    let create = Schema::Create(atom(alloc, "t")?, options);
    Ok(Entry::Changed(create, none(alloc)))
}

fn watched(alloc: Global) -> Result<Entry, AllocError> {
    Ok(Entry::Subscribed {
        session: 7,
        table: atom(alloc, "t")?,
        level: Level::Simple,
        dump: false,
    })
}

fn push(journal: &mut Journal, entry: Entry) -> Result<(), AllocError> {
    journal.try_push(entry).or(Err(AllocError))
}

fn push_history(alloc: Global, journal: &mut Journal, moves: &[Made]) -> Result<(), AllocError> {
    push(journal, created(alloc, Terms::from_vec(Vec::new(alloc)))?)?;
    push(journal, watched(alloc)?)?;
    push(journal, commit(alloc, moves)?)
}

/// Table t is made, session 7 watches it, and there is a commit.
fn filled(alloc: Global, moves: &[Made]) -> Result<Journal, AllocError> {
    let mut journal = Journal::with_limit(alloc, 3, MOST_BYTES)?;
    push_history(alloc, &mut journal, moves)?;
    Ok(journal)
}

/// Folds all entries, of which session 7 is joined, with the tables of another journal's base.
fn fold<R: AllocGlobal + Wait>(
    rt: &R,
    journal: &mut Journal,
    other: &Journal,
) -> Result<(), AllocError> {
    let alloc = rt.alloc();
    let tables = other.base().tables().to_catalog(alloc)?;
    for _entry in 0..3u32 {
        if !journal.is_empty() {
            journal.fold_oldest(rt, alloc, true, &tables)?;
        }
    }
    Ok(())
}

/// The value of the only record.
fn value_in(mut records: Iter<'_>) -> Option<i128> {
    let row = records.next()?;
    if records.next().is_some() {
        return None;
    }
    let Term::Tuple(row) = row else {
        return None;
    };
    match row.as_slice() {
        [_, _, Term::Int(value)] => Some(*value),
        _ => None,
    }
}

/// The contents of the base: the last commit's number, the number of subscriptions, the value at key 1 of table t.
fn base_of(alloc: Global, journal: &Journal) -> Result<(u64, usize, Option<i128>), AllocError> {
    let name = atom(alloc, "t")?;
    let value = match journal.base().tables().table(&name) {
        Some(table) => value_in(table.at(&Term::Int(1))),
        None => None,
    };
    let base = journal.base();
    Ok((base.commits(), base.subscriptions().len(), value))
}

/// The same history, folded with the tables of another journal's base.
fn folded<R: AllocGlobal + Wait>(
    rt: &R,
    moves: &[Made],
    other: &Journal,
) -> Result<Journal, AllocError> {
    let mut journal = filled(rt.alloc(), moves)?;
    fold(rt, &mut journal, other)?;
    Ok(journal)
}

/// Returns whether the base has commit 1, so many subscriptions, and the value.
fn is_base(alloc: Global, journal: &Journal, subscriptions: usize, value: Option<i128>) -> bool {
    base_of(alloc, journal) == Ok((1, subscriptions, value))
}

/// The entries are audited against the tables that they leave and against none.
fn is_audited(
    alloc: Global,
    journal: &Journal,
    folded: &Journal,
    audit: bool,
) -> Result<bool, AllocError> {
    let tables = folded.base().tables().to_catalog(alloc)?;
    let found = journal.audit(alloc, journal.base(), &tables)?;
    let before = journal.base().tables().to_catalog(alloc)?;
    let without = journal.audit(alloc, journal.base(), &before)?;
    Ok(found == audit && !without)
}

/// Returns whether they leave the same base, folded with the tables that they leave.
fn is_folded_again<R: AllocGlobal + Wait>(
    rt: &R,
    other: &Journal,
    (moves, _audit, value): &Row,
) -> Result<bool, AllocError> {
    let journal = folded(rt, moves, other)?;
    Ok(is_base(rt.alloc(), &journal, 1, *value))
}

fn is_forgotten(alloc: Global, mut journal: Journal, value: Option<i128>) -> bool {
    journal.forget(7);
    is_base(alloc, &journal, 0, value)
}

fn is_folded<R: AllocGlobal + Wait>(
    rt: &R,
    journal: &Journal,
    row: &Row,
) -> Result<bool, AllocError> {
    let alloc = rt.alloc();
    let (moves, audit, value) = row;
    let folded = folded(rt, moves, journal)?;
    let is_base = is_base(alloc, &folded, 1, *value);
    let is_audited = is_audited(alloc, journal, &folded, *audit) == Ok(true);
    let is_same = is_folded_again(rt, &folded, row) == Ok(true);
    let is_forgotten = is_forgotten(alloc, folded, *value);
    Ok(is_base && is_audited && is_same && is_forgotten)
}

fn is_right<R: AllocGlobal + Wait>(rt: &R, row: &Row) -> Result<bool, AllocError> {
    let journal = filled(rt.alloc(), row.0)?;
    let is_full = journal.full() && journal.len() == 3 && journal.entry(2).is_some();
    Ok(is_full && is_folded(rt, &journal, row) == Ok(true))
}

#[test]
fn entries_are_audited_and_folded(rt: HostRuntime) {
    for (line, row) in COMMITS.iter().enumerate() {
        assert!(rt; is_right(&rt, row) == Ok(true), "line {line}");
    }
}

/// An entry with a list of so many elements.
enum Long {
    /// Begins of child levels.
    Levels(usize),
    /// Empty lists in the record that is written.
    Row(usize),
    /// Empty lists in the record that a reply refuses.
    Reply(usize),
    /// Empty lists as the options of a table.
    Options(usize),
    /// So many entries of a table without options.
    Tables(usize),
}

/// Such entries, and the number of them that a journal folds until it is no longer full, by the weight of their lists or by
/// their bytes. A term has 32 bytes, and the text of the table's name one more.
static LONG: [(&[Long], usize); 16] = [
    (&[], 0),
    (&[Long::Levels(131_071)], 0),
    (&[Long::Levels(65_535), Long::Levels(65_536)], 0),
    (&[Long::Levels(65_536), Long::Levels(65_536)], 1),
    (&[Long::Levels(1), Long::Levels(200_000)], 2),
    (&[Long::Tables(65)], 0),
    (&[Long::Tables(66)], 1),
    (&[Long::Row(995)], 0),
    (&[Long::Row(996)], 1),
    (&[Long::Reply(995)], 0),
    (&[Long::Reply(996)], 1),
    (&[Long::Options(999)], 0),
    (&[Long::Options(1000)], 1),
    (&[Long::Row(490), Long::Row(501)], 0),
    (&[Long::Row(490), Long::Reply(502)], 1),
    (&[Long::Row(1), Long::Row(5000)], 2),
];

/// A commit of so many begins of child levels.
fn long_commit(alloc: Global, count: usize) -> Result<Entry, AllocError> {
    let mut moves = Vec::new(alloc);
    for _begin in 0..count {
        moves.push(Move::Open)?;
    }
    Ok(Entry::Committed {
        number: 1,
        session: 1,
        age: 1,
        moves: Moves { items: moves },
        told: Replies {
            items: Vec::new(alloc),
        },
        overflowed: none(alloc),
    })
}

fn empty_lists(alloc: Global, count: usize) -> Result<Terms, AllocError> {
    let mut lists = Vec::new(alloc);
    for _list in 0..count {
        lists.push(Term::List(Terms::from_vec(Vec::new(alloc))))?;
    }
    Ok(Terms::from_vec(lists))
}

fn long_record(alloc: Global, count: usize) -> Result<Term, AllocError> {
    record_of(alloc, Term::List(empty_lists(alloc, count)?))
}

/// Commit 1 of one move at most.
fn commit_of(
    alloc: Global,
    step: Option<Move>,
    reply: Option<LoggedReply>,
) -> Result<Entry, AllocError> {
    let mut moves = Vec::with_capacity(alloc, 1)?;
    let mut told = Vec::with_capacity(alloc, 1)?;
    if let Some(step) = step {
        moves.push_reserved(step);
    }
    told.push_reserved(reply);
    Ok(Entry::Committed {
        number: 1,
        session: 1,
        age: 1,
        moves: Moves { items: moves },
        told: Replies { items: told },
        overflowed: none(alloc),
    })
}

fn long_write(alloc: Global, count: usize) -> Result<Entry, AllocError> {
    let step = do_of(alloc, Operation::Write(long_record(alloc, count)?))?;
    commit_of(alloc, Some(step), Some(logged(alloc, Reply::Done)?))
}

fn long_reply(alloc: Global, count: usize) -> Result<Entry, AllocError> {
    let refused = Reply::BadType(atom(alloc, "t")?, long_record(alloc, count)?);
    commit_of(alloc, None, Some(logged(alloc, refused)?))
}

fn push_tables(alloc: Global, journal: &mut Journal, count: usize) -> Result<(), AllocError> {
    for _table in 0..count {
        push(journal, created(alloc, Terms::from_vec(Vec::new(alloc)))?)?;
    }
    Ok(())
}

fn push_long(alloc: Global, journal: &mut Journal, long: &Long) -> Result<(), AllocError> {
    match long {
        Long::Levels(count) => push(journal, long_commit(alloc, *count)?),
        Long::Row(count) => push(journal, long_write(alloc, *count)?),
        Long::Reply(count) => push(journal, long_reply(alloc, *count)?),
        Long::Options(count) => push(journal, created(alloc, empty_lists(alloc, *count)?)?),
        Long::Tables(count) => push_tables(alloc, journal, *count),
    }
}

fn hands_back(alloc: Global, journal: &mut Journal) -> Result<bool, AllocError> {
    let entry = long_commit(alloc, 1)?;
    Ok(journal.try_push(entry).is_err())
}

#[test]
fn a_full_journal_hands_back(rt: HostRuntime) -> Result<(), Fail> {
    let mut journal = filled(rt.alloc(), &[])?;
    let handed_back = hands_back(rt.alloc(), &mut journal) == Ok(true);
    assert!(rt; handed_back && journal.len() == 3);
    Ok(())
}

/// Folds until the journal is no longer full, with the tables of another journal's base.
fn fold_until_room<R: AllocGlobal + Wait>(
    rt: &R,
    journal: &mut Journal,
    other: &Journal,
) -> Result<(), AllocError> {
    let alloc = rt.alloc();
    let tables = other.base().tables().to_catalog(alloc)?;
    for _entry in 0..journal.len() {
        if journal.full() && !journal.is_empty() {
            journal.fold_oldest(rt, alloc, true, &tables)?;
        }
    }
    Ok(())
}

/// Returns whether it folds `wanted` entries, and refuses an entry before if it has to fold any.
fn folds<R: AllocGlobal + Wait>(
    rt: &R,
    journal: &mut Journal,
    other: &Journal,
    wanted: usize,
) -> Result<bool, AllocError> {
    let handed_back = journal.full() && hands_back(rt.alloc(), journal)?;
    let entries = journal.len();
    fold_until_room(rt, journal, other)?;
    let is_right = entries.saturating_sub(journal.len()) == wanted && !journal.full();
    Ok(is_right && handed_back == (wanted > 0))
}

fn push_all(alloc: Global, journal: &mut Journal, entries: &[Long]) -> Result<(), AllocError> {
    for long in entries {
        push_long(alloc, journal, long)?;
    }
    Ok(())
}

/// Returns whether a journal that has room for more entries folds `wanted` of these.
fn long_fold<R: AllocGlobal + Wait>(
    rt: &R,
    entries: &[Long],
    wanted: usize,
) -> Result<bool, AllocError> {
    let alloc = rt.alloc();
    let other = Journal::with_limit(alloc, 1, 1)?;
    let mut journal = Journal::with_limit(alloc, 200, MOST_BYTES)?;
    let pushed = push_all(alloc, &mut journal, entries);
    let folded = folds(rt, &mut journal, &other, wanted);
    Ok(pushed.is_ok() && folded == Ok(true))
}

#[test]
fn long_entries_fill_a_journal(rt: HostRuntime) {
    for (line, (entries, wanted)) in LONG.iter().enumerate() {
        let right = long_fold(&rt, entries, *wanted);
        assert!(rt; right == Ok(true), "line {line}");
    }
}
