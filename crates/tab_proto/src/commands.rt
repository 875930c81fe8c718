//! Commands from terms.

ghost use Rattle.std.specs.Prelude.{◌≡◌, ◌≢◌, ◌&&◌, IfOk, OnErr, IsTrue, Err, nat_le, pos, codes, IsFalse};
ghost use Rattle.tab_term.specs.Data.{int, atom, tuple, one_more, pair, triple, is_list};
ghost use Rattle.tab_term.specs.View.{term};
ghost use Rattle.tab_model.specs.declared.data.Command.{Command as CommandOf};
ghost use Rattle.tab_proto.specs.Commands.{term_of, is_command, item_word, level_word, watch_term};
ghost use Rattle.tab_proto.specs.FirstWords.{unary_in, binary_in};
ghost use Rattle.tab_proto.specs.Reading.{is_command_term, is_one_word, is_unary, is_binary, is_watch, is_dump, is_level, is_item, is_retries, is_parts_list, is_one_shot_term, is_call, argument_terms, Spells, FailsOnlyIf};
ghost use Rattle.tab_proto.specs.declared.fault.ProtoFault.TheVariants.{BadCommand};

use crate::arguments::{attribute_of, elements_of, name_of};
use crate::call::{Arguments, Call, call_of};
use crate::fault::{NoCommand, ProtoFault};
use crate::first_words::{Binary, Unary, binary_of, unary_of};
use crate::operations::{index_operation, unary_operation};
use crate::parts::push_parts;
use std::alloc::Global;
use tab_model::{Command, InfoItem, Level, Operation, Parts, Schema};
use tab_term::{Atom, Term};

/// The command that a term is. Every other term is BadCommand.
pub fn command(alloc: Global, held: &Term) -> Result<Command, ProtoFault>
    ensures ok { IfOk result (λ c. (term_of c ≡ term held.now) × (IsTrue (is_command c))) }
    ensures only { (c : CommandOf) → IsTrue (is_command c) → term_of c ≡ term held.now
        → result ≢ Err BadCommand }
{
    let Ok(copy) = held.try_clone(alloc) else {
        return Err(ProtoFault::NoMemory);
    };
    read_command(alloc, copy)
}

/// The command that a term is, made of the term's own parts.
pub fn read_command(alloc: Global, held: Term) -> Result<Command, ProtoFault>
    ensures ok { IfOk result (λ c. Spells c (term held)) }
    ensures fails { FailsOnlyIf (IsFalse (is_command_term (term held)))
        (IsTrue (is_one_shot_term (term held))) result }
{
    if let Term::Atom(word) = &held {
        return Ok(one_word(word.as_str())?);
    }
    let Call { word, arguments } = call_of(held)?;
    command_of(alloc, word.as_str(), arguments)
}

/// The command of a word and its arguments.
pub fn command_of(alloc: Global, word: &str, arguments: Arguments) -> Result<Command, ProtoFault>
    ensures ok { IfOk result
        (λ c. Spells c (tuple (one_more (atom word.now) (argument_terms arguments)))) }
    ensures fails { FailsOnlyIf
        (IsFalse (is_call (one_more (atom word.now) (argument_terms arguments))))
        (IsTrue (is_one_shot_term (tuple (one_more (atom word.now) (argument_terms arguments))))) result }
{
    match arguments {
        Arguments::One(argument) => Ok(unary(word, argument)?),
        Arguments::Two(first, second) => binary(alloc, word, first, second),
        Arguments::Three(table, value, attribute) => {
            Ok(Command::Do(index_operation(word, table, value, attribute)?))
        }
    }
}

/// The command of a single word.
pub fn one_word(word: &str) -> Result<Command, NoCommand>
    ensures ok { IfOk result (λ c. Spells c (atom word.now)) }
    ensures bad { OnErr result (IsFalse (is_one_word word.now)) }
{
    match word {
        "begin" => Ok(Command::Begin),
        "commit" => Ok(Command::Commit),
        _ => Err(NoCommand),
    }
}

fn unary(word: &str, argument: Term) -> Result<Command, NoCommand>
    ensures ok { IfOk result (λ c. Spells c (pair (atom word.now) (term argument))) }
    ensures bad { OnErr result (IsFalse (is_unary (unary_in word.now) (term argument))) }
{
    match unary_of(word) {
        Some(Unary::Abort) => Ok(Command::Abort(argument)),
        Some(Unary::DeleteTable) => Ok(Command::Schema(Schema::Remove(name_of(argument)?))),
        Some(Unary::Subscribe) => {
            let (table, level) = watch_of(argument)?;
            Ok(Command::Subscribe(table, level, false))
        }
        Some(Unary::Unsubscribe) => {
            let (table, level) = watch_of(argument)?;
            Ok(Command::Unsubscribe(table, level))
        }
        Some(word) => Ok(Command::Do(unary_operation(word, argument)?)),
        None => Err(NoCommand),
    }
}

/// `{table, Tab, Level}`.
fn watch_of(held: Term) -> Result<(Atom, Level), NoCommand>
    ensures ok { IfOk result (λ w. term held ≡ watch_term w.0 w.1) }
    ensures bad { OnErr result (IsFalse (is_watch (term held))) }
{
    let Call { word, arguments } = call_of(held)?;
    match arguments {
        Arguments::Two(table, level) if word.as_str() == "table" => {
            Ok((name_of(table)?, level_of(&level)?))
        }
        _ => Err(NoCommand),
    }
}

fn level_of(held: &Term) -> Result<Level, NoCommand>
    ensures ok { IfOk result (λ l. term held.now ≡ level_word l) }
    ensures bad { OnErr result (IsFalse (is_level (term held.now))) }
{
    let Term::Atom(word) = held else {
        return Err(NoCommand);
    };
    match word.as_str() {
        "simple" => Ok(Level::Simple),
        "detailed" => Ok(Level::Detailed),
        _ => Err(NoCommand),
    }
}

fn binary(alloc: Global, word: &str, first: Term, second: Term) -> Result<Command, ProtoFault>
    ensures ok { IfOk result (λ c. Spells c (triple (atom word.now) (term first) (term second))) }
    ensures fails { FailsOnlyIf
        (IsFalse (is_binary (binary_in word.now) (term first) (term second)))
        (IsTrue (is_one_shot_term (triple (atom word.now) (term first) (term second)))) result }
{
    match binary_of(word) {
        Some(Binary::AddTableIndex) => Ok(Command::Schema(Schema::AddIndex(
            name_of(first)?,
            attribute_of(second)?,
        ))),
        Some(Binary::CreateTable) => Ok(Command::Schema(Schema::Create(
            name_of(first)?,
            elements_of(second)?,
        ))),
        Some(Binary::DelTableIndex) => Ok(Command::Schema(Schema::DelIndex(
            name_of(first)?,
            attribute_of(second)?,
        ))),
        Some(Binary::Read) => Ok(Command::Do(Operation::Read(name_of(first)?, second))),
        Some(Binary::Subscribe) => Ok(dump_subscription(first, &second)?),
        Some(Binary::TableInfo) => Ok(Command::TableInfo(name_of(first)?, item_of(&second)?)),
        Some(Binary::Transaction) => one_shot(alloc, first, &second),
        None => Err(ProtoFault::BadCommand),
    }
}

/// `{subscribe, {table, Tab, Level}, dump}`.
fn dump_subscription(watched: Term, dump: &Term) -> Result<Command, NoCommand>
    ensures ok { IfOk result
        (λ c. Spells c (triple (atom (codes "subscribe")) (term watched) (term dump.now))) }
    ensures bad { OnErr result (IsFalse (is_watch (term watched) && is_dump (term dump.now))) }
{
    if !asks_dump(dump) {
        return Err(NoCommand);
    }
    let (table, level) = watch_of(watched)?;
    Ok(Command::Subscribe(table, level, true))
}

fn asks_dump(held: &Term) -> bool
    ensures { result ≡ is_dump (term held.now) }
{
    matches!(held, Term::Atom(word) if word.as_str() == "dump")
}

fn item_of(held: &Term) -> Result<InfoItem, NoCommand>
    ensures ok { IfOk result (λ i. term held.now ≡ item_word i) }
    ensures bad { OnErr result (IsFalse (is_item (term held.now))) }
{
    let Term::Atom(word) = held else {
        return Err(NoCommand);
    };
    match word.as_str() {
        "type" => Ok(InfoItem::Kind),
        "attributes" => Ok(InfoItem::Attributes),
        "index" => Ok(InfoItem::Index),
        "size" => Ok(InfoItem::Size),
        _ => Err(NoCommand),
    }
}

/// `{transaction, Ops, Retries}`.
fn one_shot(alloc: Global, members: Term, retries: &Term) -> Result<Command, ProtoFault>
    ensures ok { IfOk result
        (λ c. Spells c (triple (atom (codes "transaction")) (term members) (term retries.now))) }
    ensures fails { FailsOnlyIf
        (IsFalse (is_parts_list (term members) && is_retries (term retries.now)))
        (IsTrue (is_list (term members) && is_retries (term retries.now))) result }
{
    let members = elements_of(members)?;
    let retries = retries_of(retries)?;
    let mut parts = Vec::new(alloc);
    push_parts(members, &mut parts)?;
    let parts = Parts::new(alloc, parts)?;
    Ok(Command::OneShot(parts, retries))
}

/// The number of times that a one-shot may restart: 0 to 1,000.
fn retries_of(held: &Term) -> Result<u64, NoCommand>
    ensures ok { IfOk result (λ n. (term held.now ≡ int (pos n)) × (IsTrue (nat_le n 1000))) }
    ensures bad { OnErr result (IsFalse (is_retries (term held.now))) }
{
    match held {
        Term::Int(number @ 0..=1000) => Ok(*number as u64),
        _ => Err(NoCommand),
    }
}
