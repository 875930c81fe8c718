//! Commands, in few words. The one record is `{t, 1, Value}`.
use std::alloc::{AllocError, Global};
use tab_lists::SharedTerms;
use tab_model::{Command, Kept, Level, Limits, LoggedReply, Operation, Reply, Schema};
use tab_term::{Atom, Term, Terms};

pub const LIMITS: Limits = Limits {
    sessions: 8,
    nesting: 4,
    operations: 100,
    tables: 4,
    ..Limits::STANDARD
};

/// The name of the table.
pub fn name(alloc: Global) -> Result<Atom, AllocError> {
    Atom::from_short_text(alloc, "t")
}

/// `{create_table, t, []}`.
pub fn create(alloc: Global) -> Result<Command, AllocError> {
    let options = Terms::from_vec(Vec::new(alloc));
    Ok(Command::Schema(Schema::Create(name(alloc)?, options)))
}

/// The record with this value.
pub fn record(alloc: Global, value: i128) -> Result<Term, AllocError> {
    let mut elements = Vec::with_capacity(alloc, 3)?;
    elements.push_reserved(Term::Atom(name(alloc)?));
    elements.push_reserved(Term::Int(1));
    elements.push_reserved(Term::Int(value));
    Ok(Term::Tuple(Terms::from_vec(elements)))
}

/// `{write, {t, 1, value}}`.
pub fn write(alloc: Global, value: i128) -> Result<Command, AllocError> {
    Ok(Command::Do(Operation::Write(record(alloc, value)?)))
}

/// `{read, t, 1}`.
pub fn read(alloc: Global) -> Result<Command, AllocError> {
    Ok(Command::Do(Operation::Read(name(alloc)?, Term::Int(1))))
}

/// `{read, t, 1, write}`.
pub fn read_for_write(alloc: Global) -> Result<Command, AllocError> {
    Ok(Command::Do(Operation::ReadForWrite(name(alloc)?, Term::Int(1))))
}

/// `{subscribe, {table, t, simple}}`.
pub fn subscribe(alloc: Global) -> Result<Command, AllocError> {
    Ok(Command::Subscribe(name(alloc)?, Level::Simple, false))
}

/// The number of the commit, 0 if there is none.
pub fn number_of(reply: &Reply) -> u64 {
    match reply {
        Reply::Atomic(number) => *number,
        _ => 0,
    }
}

/// The value of the one record that a read found.
pub fn value_in(reply: &Reply) -> Option<i128> {
    match reply {
        Reply::Found(records) => value_alone(records),
        _ => None,
    }
}

/// The value of the one record that a read of a trace found.
pub fn value_logged(logged: &LoggedReply) -> Option<i128> {
    match &logged.kept {
        Kept::Found(records) => value_alone(records),
        _ => None,
    }
}

fn value_alone(records: &SharedTerms) -> Option<i128> {
    let mut records = records.iter();
    match (records.next(), records.next()) {
        (Some(record), None) => value_of(record),
        _ => None,
    }
}

fn value_of(record: &Term) -> Option<i128> {
    match record {
        Term::Tuple(elements) => match elements.as_slice() {
            [_, _, Term::Int(value)] => Some(*value),
            _ => None,
        },
        _ => None,
    }
}
