//! Commands as terms.

ghost use Rattle.std.specs.Prelude.{◌≡◌, ◌≤◌, length, IfOk, codes};
ghost use Rattle.tab_term.specs.Data.{atom, pair as pair_of, triple as triple_of};
ghost use Rattle.tab_term.specs.View.{term};
ghost use Rattle.tab_proto.specs.Commands.{term_of as term_of_command, schema_term as schema_term_of, operation_term as operation_term_of, watch_term as watch_term_of, item_word as item_word_of, four as four_of};

use crate::building::{name, number, pair, triple, word, worded};
use crate::levels::operations_of;
use crate::replying::level_word;
use std::alloc::{AllocError, Global};
use tab_model::{Command, InfoItem, Level, Operation, Schema};
use tab_term::{Atom, Term, Terms};

/// The term of a command.
pub fn term_of(alloc: Global, command: &Command) -> Result<Term, AllocError>
    ensures { IfOk result (λ t. term t ≡ term_of_command command.now) }
{
    match command {
        Command::Schema(schema) => schema_term(alloc, schema),
        Command::TableInfo(table, item) => {
            let item = word(alloc, item_word(*item))?;
            called_at(alloc, "table_info", table, item)
        }
        Command::Begin => word(alloc, "begin"),
        Command::Commit => word(alloc, "commit"),
        Command::Abort(reason) => worded(alloc, "abort", reason.try_clone(alloc)?),
        Command::Do(operation) => operation_term(alloc, operation),
        Command::Subscribe(table, level, dump) => { subscription_term(alloc, table, *level, *dump) }
        Command::Unsubscribe(table, level) => {
            worded(alloc, "unsubscribe", watch_term(alloc, table, *level)?)
        }
        Command::OneShot(parts, retries) => {
            let first = word(alloc, "transaction")?;
            let operations = operations_of(alloc, parts.as_slice())?;
            triple(alloc, first, Term::List(operations), number(*retries))
        }
    }
}

/// `{Text, Tab, Value}`.
fn called_at(alloc: Global, text: &str, table: &Atom, value: Term) -> Result<Term, AllocError>
    requires { length text.now ≤ 255 }
    ensures { IfOk result (λ t. term t ≡ triple_of (atom text.now) (atom table.now) (term value)) }
{
    let first = word(alloc, text)?;
    triple(alloc, first, name(alloc, table)?, value)
}

/// `{Text, Tab}`.
fn named(alloc: Global, text: &str, table: &Atom) -> Result<Term, AllocError>
    requires { length text.now ≤ 255 }
    ensures { IfOk result (λ t. term t ≡ pair_of (atom text.now) (atom table.now)) }
{
    worded(alloc, text, name(alloc, table)?)
}

fn schema_term(alloc: Global, schema: &Schema) -> Result<Term, AllocError>
    ensures { IfOk result (λ t. term t ≡ schema_term_of schema.now) }
{
    match schema {
        Schema::Create(table, options) => {
            let options = Term::List(options.try_clone(alloc)?);
            called_at(alloc, "create_table", table, options)
        }
        Schema::Remove(table) => named(alloc, "delete_table", table),
        Schema::AddIndex(table, attribute) => called_at(
            alloc,
            "add_table_index",
            table,
            attribute.try_clone(alloc)?,
        ),
        Schema::DelIndex(table, attribute) => called_at(
            alloc,
            "del_table_index",
            table,
            attribute.try_clone(alloc)?,
        ),
    }
}

/// The term of an operation.
pub fn operation_term(alloc: Global, operation: &Operation) -> Result<Term, AllocError>
    ensures { IfOk result (λ t. term t ≡ operation_term_of operation.now) }
{
    match operation {
        Operation::Read(table, key) => called_at(alloc, "read", table, key.try_clone(alloc)?),
        Operation::ReadForWrite(table, key) => {
            worded(alloc, "wread", place_term(alloc, table, key)?)
        }
        Operation::Write(row) => worded(alloc, "write", row.try_clone(alloc)?),
        Operation::Delete(table, key) => { worded(alloc, "delete", place_term(alloc, table, key)?) }
        Operation::DeleteObject(row) => worded(alloc, "delete_object", row.try_clone(alloc)?),
        Operation::IndexRead(table, value, attribute) => {
            index_term(alloc, table, value, attribute)
        }
        Operation::MatchObject(pattern) => {
            worded(alloc, "match_object", pattern.try_clone(alloc)?)
        }
        Operation::AllKeys(table) => named(alloc, "all_keys", table),
        Operation::ReadLockTable(table) => named(alloc, "read_lock_table", table),
        Operation::WriteLockTable(table) => named(alloc, "write_lock_table", table),
    }
}

/// `{Tab, Key}`.
fn place_term(alloc: Global, table: &Atom, key: &Term) -> Result<Term, AllocError>
    ensures { IfOk result (λ t. term t ≡ pair_of (atom table.now) (term key.now)) }
{
    let table = name(alloc, table)?;
    pair(alloc, table, key.try_clone(alloc)?)
}

/// `{index_read, Tab, Value, Attr}`.
fn index_term(
    alloc: Global,
    table: &Atom,
    value: &Term,
    attribute: &Term,
) -> Result<Term, AllocError>
    ensures { IfOk result
        (λ t. term t ≡ four_of (atom (codes "index_read")) (atom table.now) (term value.now)
        (term attribute.now)) }
{
    let mut parts = Vec::with_capacity(alloc, 4)?;
    parts.push(word(alloc, "index_read")?)?;
    parts.push(name(alloc, table)?)?;
    parts.push(value.try_clone(alloc)?)?;
    parts.push(attribute.try_clone(alloc)?)?;
    Ok(Term::Tuple(Terms::from_vec(parts)))
}

/// `{subscribe, {table, Tab, Level}}`, and `dump` after it if a dump is asked for.
fn subscription_term(
    alloc: Global,
    table: &Atom,
    level: Level,
    dump: bool,
) -> Result<Term, AllocError>
    ensures { IfOk result (λ t. term t ≡ term_of_command (Command.Subscribe table.now level dump)) }
{
    let watched = watch_term(alloc, table, level)?;
    if !dump {
        return worded(alloc, "subscribe", watched);
    }
    let first = word(alloc, "subscribe")?;
    triple(alloc, first, watched, word(alloc, "dump")?)
}

/// `{table, Tab, Level}`.
fn watch_term(alloc: Global, table: &Atom, level: Level) -> Result<Term, AllocError>
    ensures { IfOk result (λ t. term t ≡ watch_term_of table.now level) }
{
    let level = word(alloc, level_word(level))?;
    called_at(alloc, "table", table, level)
}

fn item_word(item: InfoItem) -> &'static str
    ensures word { atom result.now ≡ item_word_of item }
    ensures short { length result.now ≤ 255 }
{
    match item {
        InfoItem::Kind => "type",
        InfoItem::Attributes => "attributes",
        InfoItem::Index => "index",
        InfoItem::Size => "size",
    }
}
