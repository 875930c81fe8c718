//! Operations from terms.

ghost use Rattle.std.specs.Prelude.{◌≡◌, IfOk, OnErr, IsFalse};
ghost use Rattle.tab_term.specs.Data.{atom, pair, triple};
ghost use Rattle.tab_term.specs.View.{term};
ghost use Rattle.tab_proto.specs.Commands.{four};
ghost use Rattle.tab_proto.specs.FirstWords.{unary_text};
ghost use Rattle.tab_proto.specs.Reading.{is_unary_operation, is_read_of, is_ternary, SpellsOperation};

use crate::arguments::{attribute_of, name_of, place_of, row_of};
use crate::fault::NoCommand;
use crate::first_words::Unary;
use tab_model::Operation;
use tab_term::{Atom, Term};

/// The operation of a word with one argument.
pub fn unary_operation(word: Unary, argument: Term) -> Result<Operation, NoCommand>
    ensures ok { IfOk result
        (λ o. SpellsOperation o (pair (atom (unary_text word)) (term argument))) }
    ensures bad { OnErr result (IsFalse (is_unary_operation word (term argument))) }
{
    match word {
        Unary::Write => Ok(Operation::Write(row_of(argument)?)),
        Unary::DeleteObject => Ok(Operation::DeleteObject(row_of(argument)?)),
        Unary::MatchObject => Ok(Operation::MatchObject(row_of(argument)?)),
        Unary::ReadForWrite => {
            let (table, key) = place_of(argument)?;
            Ok(Operation::ReadForWrite(table, key))
        }
        Unary::Delete => {
            let (table, key) = place_of(argument)?;
            Ok(Operation::Delete(table, key))
        }
        Unary::AllKeys => Ok(Operation::AllKeys(name_of(argument)?)),
        Unary::ReadLockTable => Ok(Operation::ReadLockTable(name_of(argument)?)),
        Unary::WriteLockTable => Ok(Operation::WriteLockTable(name_of(argument)?)),
        _ => Err(NoCommand),
    }
}

/// `{read, Tab, Key}`.
pub fn read_operation(word: &Atom, table: Term, key: Term) -> Result<Operation, NoCommand>
    ensures ok { IfOk result
        (λ o. SpellsOperation o (triple (atom word.now) (term table) (term key))) }
    ensures bad { OnErr result (IsFalse (is_read_of word.now (term table))) }
{
    if word.as_str() != "read" {
        return Err(NoCommand);
    }
    let table = name_of(table)?;
    Ok(Operation::Read(table, key))
}

/// `{index_read, Tab, Value, Attr}`.
pub fn index_operation(
    word: &str,
    table: Term,
    value: Term,
    attribute: Term,
) -> Result<Operation, NoCommand>
    ensures ok { IfOk result
        (λ o. SpellsOperation o (four (atom word.now) (term table) (term value) (term attribute))) }
    ensures bad { OnErr result (IsFalse (is_ternary word.now (term table) (term attribute))) }
{
    if word != "index_read" {
        return Err(NoCommand);
    }
    let table = name_of(table)?;
    let attribute = attribute_of(attribute)?;
    Ok(Operation::IndexRead(table, value, attribute))
}
