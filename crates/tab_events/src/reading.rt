//! The changes in the terms of events.

ghost use Rattle.std.specs.Prelude.{◌≡◌, IfOk};
ghost use Rattle.std.specs.Str.{bytes_eq};
ghost use Rattle.tab_term.specs.Data.{atom, tuple, none, one_more};
ghost use Rattle.tab_term.specs.View.{term, terms};
ghost use Rattle.tab_model.specs.Operations.{table_of_change, tag as tag_of};
ghost use Rattle.tab_model.specs.Shapes.{change_of as change_of_term, change_in as change_in_event, change_in_body, simple_body as simple_body_of, detailed_body as detailed_body_of, simple_change as simple_change_of, detailed_change as detailed_change_of, write_in as written_of, object_deletion_in as object_deleted_of, key_deletion_in as key_deleted_of, deletion_in as deleted_of, in_table as in_table_of, is_record as is_record_of, is_id as is_id_of};

use std::alloc::{AllocError, Global};
use tab_model::Change;
use tab_term::{Atom, Term};

/// The change of an event's term, at either level. None of a term that no event has.
pub fn change_of(alloc: Global, shaped: &Term) -> Result<Option<Change>, AllocError>
    ensures { IfOk result (λ c. c ≡ change_of_term (term shaped.now)) }
{
    let Term::Tuple(parts) = shaped else {
        return Ok(None);
    };
    match parts.as_slice() {
        [Term::Atom(word), Term::Tuple(body)] => change_in(alloc, word.as_str(), body.as_slice()),
        _ => Ok(None),
    }
}

fn change_in(alloc: Global, word: &str, body: &[Term]) -> Result<Option<Change>, AllocError>
    ensures { IfOk result
        (λ c. c ≡ change_in_event
        (one_more (atom word.now) (one_more (tuple (terms body.now)) none))) }
{
    if word != "mnesia_table_event" {
        return Ok(None);
    }
    let [Term::Atom(word), rest @ ..] = body else {
        return Ok(None);
    };
    change_by_rest(alloc, word.as_str(), rest)
}

fn change_by_rest(alloc: Global, word: &str, rest: &[Term]) -> Result<Option<Change>, AllocError>
    ensures { IfOk result (λ c. c ≡ change_in_body (one_more (atom word.now) (terms rest.now))) }
{
    match rest.len() {
        2 => simple_body(alloc, word, &rest[0], &rest[1]),
        4 => detailed_body(alloc, word, &rest[0], &rest[1], &rest[2], &rest[3]),
        _ => Ok(None),
    }
}

fn simple_body(
    alloc: Global,
    word: &str,
    what: &Term,
    id: &Term,
) -> Result<Option<Change>, AllocError>
    ensures { IfOk result (λ c. c ≡ simple_body_of word.now (term what.now) (term id.now)) }
{
    if !is_id(id) {
        return Ok(None);
    }
    simple_change(alloc, word, what)
}

fn detailed_body(
    alloc: Global,
    word: &str,
    table: &Term,
    what: &Term,
    old: &Term,
    id: &Term,
) -> Result<Option<Change>, AllocError>
    ensures { IfOk result
        (λ c. c ≡ detailed_body_of word.now (term table.now) (term what.now) (term old.now)
        (term id.now)) }
{
    let (Term::Atom(table), Term::List(_)) = (table, old) else {
        return Ok(None);
    };
    if !is_id(id) {
        return Ok(None);
    }
    detailed_change(alloc, word, table, what)
}

fn simple_change(alloc: Global, word: &str, what: &Term) -> Result<Option<Change>, AllocError>
    ensures { IfOk result (λ c. c ≡ simple_change_of word.now (term what.now)) }
{
    match word {
        "write" => written(alloc, what),
        "delete" => key_deleted(alloc, what),
        "delete_object" => object_deleted(alloc, what),
        _ => Ok(None),
    }
}

fn detailed_change(
    alloc: Global,
    word: &str,
    table: &Atom,
    what: &Term,
) -> Result<Option<Change>, AllocError>
    ensures { IfOk result (λ c. c ≡ detailed_change_of word.now table.now (term what.now)) }
{
    match word {
        "write" => Ok(in_table(table, written(alloc, what)?)),
        "delete" => Ok(in_table(table, deleted(alloc, what)?)),
        _ => Ok(None),
    }
}

fn written(alloc: Global, row: &Term) -> Result<Option<Change>, AllocError>
    ensures { IfOk result (λ c. c ≡ written_of (term row.now)) }
{
    if !is_record(row) {
        return Ok(None);
    }
    Ok(Some(Change::Write(row.try_clone(alloc)?)))
}

fn object_deleted(alloc: Global, row: &Term) -> Result<Option<Change>, AllocError>
    ensures { IfOk result (λ c. c ≡ object_deleted_of (term row.now)) }
{
    if !is_record(row) {
        return Ok(None);
    }
    Ok(Some(Change::DeleteObject(row.try_clone(alloc)?)))
}

/// The deletion of a key, if the term is `{Tab, Key}`.
fn key_deleted(alloc: Global, what: &Term) -> Result<Option<Change>, AllocError>
    ensures { IfOk result (λ c. c ≡ key_deleted_of (term what.now)) }
{
    let Term::Tuple(parts) = what else {
        return Ok(None);
    };
    match parts.as_slice() {
        [Term::Atom(table), key] => Ok(Some(Change::Delete(
            table.try_clone(alloc)?,
            key.try_clone(alloc)?,
        ))),
        _ => Ok(None),
    }
}

/// The deletion of a key by `{Tab, Key}`, or of a record, which has an arity above 2.
fn deleted(alloc: Global, what: &Term) -> Result<Option<Change>, AllocError>
    ensures { IfOk result (λ c. c ≡ deleted_of (term what.now)) }
{
    match key_deleted(alloc, what)? {
        Some(change) => Ok(Some(change)),
        None => object_deleted(alloc, what),
    }
}

/// The change, if it is one of the table.
pub fn in_table(table: &Atom, change: Option<Change>) -> Option<Change>
    ensures { result ≡ in_table_of table.now change }
{
    match change {
        Some(change) if is_of(table, &change) => Some(change),
        _ => None,
    }
}

fn is_of(table: &Atom, change: &Change) -> bool
    ensures { result ≡ bytes_eq (table_of_change change.now) table.now }
{
    match change {
        Change::Write(row) | Change::DeleteObject(row) => tag(row) == table.as_str(),
        Change::Delete(name, _) => name == table,
    }
}

/// A record's table.
fn tag(row: &Term) -> &str
    ensures { result.now ≡ tag_of (term row.now) }
{
    let Term::Tuple(elements) = row else {
        return "";
    };
    match elements.as_slice() {
        [Term::Atom(name), ..] => name.as_str(),
        _ => "",
    }
}

/// A record: a tuple of arity 3 or more that begins with an atom.
fn is_record(held: &Term) -> bool
    ensures { result ≡ is_record_of (term held.now) }
{
    let Term::Tuple(parts) = held else {
        return false;
    };
    matches!(parts.as_slice(), [Term::Atom(..), _, _, ..])
}

/// `{tid, Age}`, of any age from 1 on.
fn is_id(held: &Term) -> bool
    ensures { result ≡ is_id_of (term held.now) }
{
    let Term::Tuple(parts) = held else {
        return false;
    };
    match parts.as_slice() {
        [Term::Atom(word), Term::Int(age)] => word.as_str() == "tid" && *age >= 1,
        _ => false,
    }
}
