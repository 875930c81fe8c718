//! How many bytes of memory the terms of an entry take that came with its requests.

ghost use Rattle.std.specs.Prelude.{◌≡◌, ◌≤◌, min};
ghost use Rattle.tab_term.specs.Memory.{memories};
ghost use Rattle.tab_term.specs.View.{terms};
ghost use Rattle.tab_journal.specs.Bytes.{operation_memory, move_memory, moves_memory, reply_memory, told_memory, replies_memory, schema_memory, entry_memory};
ghost use Rattle.tab_journal.specs.Journals.{bytes_of as bytes_of_entry};

use tab_model::{
    Entry, Kept, LoggedOperation, LoggedReply, Move, Operation, OperationForm, Reply, Schema,
};
use tab_term::Term;

/// The bytes of an entry, at most as many as make a journal full.
pub fn bytes_of(entry: &Entry, most: u32) -> u64
    ensures bytes { result ≡ bytes_of_entry most entry.now }
    ensures most { result ≤ most }
{
    memory_of(entry).min(u64::from(most))
}

fn memory_of(entry: &Entry) -> u64
    ensures { result ≡ min (entry_memory entry.now) u64.MAX }
{
    match entry {
        Entry::Committed { moves, told, .. } => {
            of_moves(moves.items.as_slice()).saturating_add(of_replies(told.items.as_slice()))
        }
        Entry::Changed(command, _) => of_command(command),
        Entry::Subscribed { .. } | Entry::Unsubscribed(..) => 0,
    }
}

fn of_moves(moves: &[Move]) -> u64
    ensures { result ≡ min (moves_memory moves.now) u64.MAX }
{
    let mut sum: u64 = 0;
    for step in moves {
        sum = sum.saturating_add(of_move(step));
    }
    sum
}

fn of_move(step: &Move) -> u64
    ensures { result ≡ min (move_memory step.now) u64.MAX }
{
    match step {
        Move::Do(operation) => of_operation(operation),
        Move::Open | Move::Close | Move::Undo => 0,
    }
}

fn of_operation(operation: &LoggedOperation) -> u64
    ensures { result ≡ min (operation_memory operation.now) u64.MAX }
{
    match operation.form() {
        OperationForm::Only(only) => only.row().memory(),
        OperationForm::Write(row) => row.memory(),
        OperationForm::Read(_, key) | OperationForm::ReadForWrite(_, key) => key.memory(),
        OperationForm::Other(operation) => of_whole(operation),
    }
}

fn of_whole(operation: &Operation) -> u64
    ensures { result ≡ min (operation_memory operation.now) u64.MAX }
{
    match operation {
        Operation::Read(_, key) | Operation::ReadForWrite(_, key) | Operation::Delete(_, key) =>
            key.memory(),
        Operation::Write(row) | Operation::DeleteObject(row) | Operation::MatchObject(row) => {
            row.memory()
        }
        Operation::IndexRead(_, value, attribute) => {
            value.memory().saturating_add(attribute.memory())
        }
        Operation::AllKeys(_) | Operation::ReadLockTable(_) | Operation::WriteLockTable(_) => 0,
    }
}

fn of_replies(told: &[Option<LoggedReply>]) -> u64
    ensures { result ≡ min (replies_memory told.now) u64.MAX }
{
    let mut sum: u64 = 0;
    for reply in told {
        sum = sum.saturating_add(of_told(reply));
    }
    sum
}

fn of_told(told: &Option<LoggedReply>) -> u64
    ensures { result ≡ min (told_memory told.now) u64.MAX }
{
    match told {
        Some(told) => of_logged(told),
        None => 0,
    }
}

fn of_logged(told: &LoggedReply) -> u64
    ensures { result ≡ min (reply_memory told.now) u64.MAX }
{
    match &told.kept {
        Kept::Other(told) => of_reply(told),
        Kept::Done | Kept::Tid(_) | Kept::AtomicOk | Kept::Found(_) => 0,
    }
}

fn of_reply(told: &Reply) -> u64
    ensures { result ≡ min (reply_memory told.now) u64.MAX }
{
    match told {
        Reply::BadType(_, term)
        | Reply::NoIndex(_, term)
        | Reply::BadDefinition(_, term)
        | Reply::UserAbort(term) => term.memory(),
        _ => 0,
    }
}

fn of_command(command: &Schema) -> u64
    ensures { result ≡ min (schema_memory command.now) u64.MAX }
{
    match command {
        Schema::Create(_, options) => of_terms(options.as_slice()),
        Schema::AddIndex(_, attribute) | Schema::DelIndex(_, attribute) => attribute.memory(),
        Schema::Remove(_) => 0,
    }
}

fn of_terms(all: &[Term]) -> u64
    ensures { result ≡ min (memories (terms all.now)) u64.MAX }
{
    let mut sum: u64 = 0;
    for term in all {
        sum = sum.saturating_add(term.memory());
    }
    sum
}
