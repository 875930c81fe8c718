//! Data that code and definitions share. Ages, numbers of sessions and commits, and positions are from 1 on.
ghost use Rattle.std.specs.Prelude.{◌≡◌, IfOk, MatchResult, IsFalse, Some};
ghost use Rattle.tab_model.specs.declared.data.Reply.TheVariants as reply;
ghost use Rattle.tab_model.specs.Events.{is_failure as is_failure_of};
ghost use Rattle.tab_model.specs.LoggedOperations.{operation_in};
ghost use Rattle.tab_model.specs.Parts.{command_of};
ghost use Rattle.tab_model.specs.Shared.{is_found};

use crate::lists::{Atoms, Moves, Numbers, Parts, Replies, Sessions};
use crate::logged_operation::{LoggedOperation, OperationForm, form_of_write};
use crate::shared_item::SharedItem;
use std::alloc::{AllocError, Global};
use std::sync::Arc;
use tab_lists::{Answers, EventTerms, SharedTerms};
use tab_term::{Atom, Term, Terms};

/// The type of a table: a set keeps one record for each key, a bag several different ones (Mnesia Reference Manual,
/// `create_table/2`).
#[derive(Clone, Copy, Debug, PartialEq, Eq)]
pub enum Kind {
    Set,
    Bag,
}

/// A table's definition: its indexes are positions of attributes, ascending, 3 or more.
#[derive(Drop)]
pub struct TableDef {
    pub name: Atom,
    pub kind: Kind,
    pub attributes: Atoms,
    pub indexes: Numbers,
}

/// An operation of a transaction (Mnesia Reference Manual, the functions of these names). A record or pattern carries its
/// table as its first element.
pub enum Operation {
    Read(Atom, Term),
    ReadForWrite(Atom, Term),
    Write(Term),
    Delete(Atom, Term),
    DeleteObject(Term),
    IndexRead(Atom, Term, Term),
    MatchObject(Term),
    AllKeys(Atom),
    ReadLockTable(Atom),
    WriteLockTable(Atom),
}

/// A step of a transaction: an operation, a child's begin, a child's commit, an abort of the innermost level.
pub enum Move {
    Do(LoggedOperation),
    Open,
    Close,
    Undo,
}

/// What a lock is for (Mnesia User's Guide, "Locking").
#[derive(Clone, Copy, Debug, PartialEq, Eq)]
pub enum Mode {
    Read,
    Write,
}

/// What of a table a lock is on.
#[derive(Drop)]
pub enum What {
    All,
    Key(Term),
}

/// A lock that an operation asks for.
#[derive(Drop)]
pub struct Lock {
    pub table: Atom,
    pub what: What,
    pub mode: Mode,
}

/// The level of a subscription (Mnesia User's Guide, "Mnesia Event Handling").
#[derive(Clone, Copy, Debug, PartialEq, Eq)]
pub enum Level {
    Simple,
    Detailed,
}

/// An update: a write of a record, a deletion of a key, a deletion of a record.
pub enum Change {
    Write(Term),
    Delete(Atom, Term),
    DeleteObject(Term),
}

/// An update with its table, its transaction's age, and the records of its key just before it, in the key's order.
#[derive(Drop)]
pub struct Event {
    pub tab: Atom,
    pub change: Change,
    pub old: SharedTerms,
    pub age: u64,
}

/// Why a subscription ended, as its end marker says.
#[derive(Clone, Copy, Debug, PartialEq, Eq)]
pub enum Ending {
    Unsubscribed,
    Deleted,
}

/// An item of an outbox: a begin marker (with the table's records where a dump was asked for), the events of one commit, an
/// end marker.
pub enum Item {
    Began(Atom, Level, Option<SharedTerms>),
    Batch(u64, EventTerms),
    Ended(Atom, Ending),
}

/// A schema command (Mnesia Reference Manual, `create_table/2`, `delete_table/1`, `add_table_index/2`,
/// `del_table_index/2`).
pub enum Schema {
    Create(Atom, Terms),
    Remove(Atom),
    AddIndex(Atom, Term),
    DelIndex(Atom, Term),
}

/// What `table_info` is asked for.
#[derive(Clone, Copy, Debug, PartialEq, Eq)]
pub enum InfoItem {
    Kind,
    Attributes,
    Index,
    Size,
}

/// A part of a one-shot: an inner transaction stands between Open and Close.
pub enum Part {
    Do(Operation),
    Abort(Term),
    Open,
    Close,
}

/// Which limit a SystemLimit names.
#[derive(Clone, Copy, Debug, PartialEq, Eq)]
pub enum Limit {
    Sessions,
    Nesting,
    Operations,
    Tables,
    Ages,
}

/// The limits of a core: how many sessions may be joined at once, levels of a transaction, operations and child begins of
/// one attempt, tables, outermost begins, entries of the journal, and bytes of the terms in their operations.
#[derive(Clone, Copy, Debug, PartialEq, Eq)]
pub struct Limits {
    pub sessions: u64,
    pub nesting: u64,
    pub operations: u64,
    pub tables: u64,
    pub ages: u64,
    pub journal: u64,
    pub journal_bytes: u32,
}

impl Limits {
    /// The limits of a server. The number of ages is the greatest that an external term of 64 bits holds.
    pub const STANDARD: Limits = Limits {
        sessions: 64,
        nesting: 16,
        operations: 1000,
        tables: 256,
        ages: 9_223_372_036_854_775_807,
        journal: 1024,
        journal_bytes: 67_108_864,
    };
}

/// What `table_info` answers: a type, the names of attributes, the positions of indexes, how many records.
#[derive(Drop)]
pub enum TableInfo {
    Kind(Kind),
    Attributes(Terms),
    Index(Terms),
    Size(u64),
}

/// A reply for every row of the formats.
pub enum Reply {
    BadTerm,
    BadCommand,
    NoTransaction,
    WaitingNow,
    InTransaction,
    NotWaiting,
    NoMemory,
    SystemLimit(Limit),
    BadSession,
    /// An operation or a schema command found no table of this name.
    NoTable(Atom),
    BadType(Atom, Term),
    NoIndex(Atom, Term),
    UserAbort(Term),
    AlreadyExists(Atom),
    Locked(Atom),
    BadDefinition(Atom, Term),
    /// There is no table of this name to tell of, or to subscribe to.
    UnknownTable(Atom),
    AlreadySubscribed(Atom),
    NotSubscribed(Atom),
    OutboxFull,
    OverflowUntold,
    Waiting,
    Restart,
    Done,
    Tid(u64),
    Atomic(u64),
    AtomicOk,
    AtomicTerms(Answers),
    NoMore,
    NoWait,
    Found(SharedTerms),
    SubscribedHere,
    TableInfo(TableInfo),
    Taken(SharedItem),
    Overflow(u64),
    Empty,
}

impl Operation {
    /// The form that a trace keeps it in.
    pub(crate) fn into_form(self, alloc: Global, kind: Kind) -> Result<OperationForm, AllocError>
        ensures { IfOk result (λ form. operation_in form ≡ self) }
    {
        match self {
            Operation::Write(row) => form_of_write(alloc, kind, row),
            Operation::Read(name, key) => Ok(OperationForm::Read(name, key)),
            Operation::ReadForWrite(name, key) => Ok(OperationForm::ReadForWrite(name, key)),
            operation => Ok(OperationForm::Other(Arc::new(alloc, operation)?)),
        }
    }
}

impl Part {
    /// The command of the part.
    pub fn into_command(self) -> Command
        ensures { result ≡ command_of self }
    {
        match self {
            Part::Do(operation) => Command::Do(operation),
            Part::Abort(reason) => Command::Abort(reason),
            Part::Open => Command::Begin,
            Part::Close => Command::Commit,
        }
    }
}

impl Reply {
    /// The list of a reply that found one. Any other reply is given back.
    pub(crate) fn into_found(self) -> Result<SharedTerms, Reply>
        ensures { MatchResult result (λ rows. self ≡ reply.Found rows)
            (λ other. (other ≡ self) × (IsFalse (is_found self))) }
    {
        match self {
            Reply::Found(rows) => Ok(rows),
            reply => Err(reply),
        }
    }

    /// Whether an operation that is told this ends its level.
    pub fn is_failure(&self) -> bool
        ensures { result ≡ is_failure_of (Some self.now) }
    {
        matches!(
            self,
            Reply::NoTable(_) | Reply::BadType(_, _) | Reply::NoIndex(_, _)
        )
    }
}

/// A command of a session. A subscription may ask for a dump; a one-shot carries how many restarts it may make.
#[derive(Drop)]
pub enum Command {
    Schema(Schema),
    TableInfo(Atom, InfoItem),
    Begin,
    Commit,
    Abort(Term),
    Do(Operation),
    Subscribe(Atom, Level, bool),
    Unsubscribe(Atom, Level),
    OneShot(Parts, u64),
}

/// What a step adds to the log.
#[derive(Drop)]
pub enum Entry {
    /// A commit: its moves, what they were told, and the sessions that overflowed in it.
    Committed {
        number: u64,
        session: u32,
        age: u64,
        moves: Moves,
        told: Replies,
        overflowed: Sessions,
    },
    /// A schema command that is done, and the sessions that overflowed in it.
    Changed(Schema, Sessions),
    Subscribed {
        session: u32,
        table: Atom,
        level: Level,
        dump: bool,
    },
    /// The session and the table.
    Unsubscribed(u32, Atom),
}

// A derived drop would be expanded, variant by variant, at each exit of each function that holds one of these.
impl Drop for Operation {
    fn drop(self) {
        match self {
            Operation::Read(name, key)
            | Operation::ReadForWrite(name, key)
            | Operation::Delete(name, key) => drop((name, key)),
            Operation::Write(row) | Operation::DeleteObject(row) | Operation::MatchObject(row) => {
                drop(row);
            }
            Operation::IndexRead(name, value, attribute) => drop((name, value, attribute)),
            Operation::AllKeys(name)
            | Operation::ReadLockTable(name)
            | Operation::WriteLockTable(name) => drop(name),
        }
    }
}

impl Drop for Move {
    fn drop(self) {
        match self {
            Move::Do(operation) => drop(operation),
            Move::Open | Move::Close | Move::Undo => {}
        }
    }
}

impl Drop for Change {
    fn drop(self) {
        match self {
            Change::Write(row) | Change::DeleteObject(row) => drop(row),
            Change::Delete(name, key) => drop((name, key)),
        }
    }
}

impl Drop for Item {
    fn drop(self) {
        match self {
            Item::Began(table, _, records) => drop((table, records)),
            Item::Batch(_, events) => drop(events),
            Item::Ended(table, _) => drop(table),
        }
    }
}

impl Drop for Part {
    fn drop(self) {
        match self {
            Part::Do(operation) => drop(operation),
            Part::Abort(reason) => drop(reason),
            Part::Open | Part::Close => {}
        }
    }
}

impl Drop for Reply {
    fn drop(self) {
        match self {
            Reply::NoTable(name)
            | Reply::AlreadyExists(name)
            | Reply::Locked(name)
            | Reply::UnknownTable(name)
            | Reply::AlreadySubscribed(name)
            | Reply::NotSubscribed(name) => drop(name),
            Reply::BadType(name, term)
            | Reply::NoIndex(name, term)
            | Reply::BadDefinition(name, term) => drop((name, term)),
            Reply::UserAbort(reason) => drop(reason),
            Reply::AtomicTerms(answers) => drop(answers),
            Reply::Found(terms) => drop(terms),
            Reply::TableInfo(info) => drop(info),
            Reply::Taken(item) => drop(item),
            Reply::SystemLimit(_) | Reply::Tid(_) | Reply::Atomic(_) | Reply::Overflow(_) => {}
            Reply::BadTerm
            | Reply::BadCommand
            | Reply::NoTransaction
            | Reply::WaitingNow
            | Reply::InTransaction
            | Reply::NotWaiting
            | Reply::BadSession
            | Reply::OutboxFull
            | Reply::OverflowUntold
            | Reply::Waiting
            | Reply::Restart
            | Reply::Done
            | Reply::AtomicOk
            | Reply::NoMore
            | Reply::NoWait
            | Reply::SubscribedHere
            | Reply::Empty
            | Reply::NoMemory => {}
        }
    }
}

impl Drop for Schema {
    fn drop(self) {
        match self {
            Schema::Create(name, options) => drop((name, options)),
            Schema::Remove(name) => drop(name),
            Schema::AddIndex(name, attribute) | Schema::DelIndex(name, attribute) => {
                drop((name, attribute));
            }
        }
    }
}
