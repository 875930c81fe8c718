//! Comparisons of replies and of tables.

ghost use Rattle.std.specs.Prelude.{◌≡◌, ◌&&◌, IsFalse};
ghost use Rattle.std.specs.Str.{bytes_eq};
ghost use Rattle.tab_term.specs.Same.{all_same};
ghost use Rattle.tab_model.specs.declared.data.Reply.TheVariants as reply;
ghost use Rattle.tab_model.specs.Shared.{is_found as has_rows};
ghost use Rattle.tab_model.specs.Logged.{is_short, is_tid as is_tid_of, is_atomic_ok as is_atomic_ok_of};
ghost use Rattle.tab_journal.specs.Audits.{is_no_table as is_no_table_of, is_bad_type as is_bad_type_of, is_no_index as is_no_index_of, is_answer as is_answer_of, same_def, same_kind, same_names, same_numbers, same_rows, same_table, same_tables};

use crate::records::Records;
use tab_index::IndexedTable;
use tab_lists::SharedTerms;
use tab_model::{Kept, Kind, LoggedReply, Reply, TableDef};
use tab_tables::Catalog;
use tab_term::{Atom, Term};

fn are_same(ones: &SharedTerms, others: &SharedTerms) -> bool
    ensures { result ≡ all_same ones.now others.now }
{
    let mut left = others.iter();
    for one in ones.iter() {
        match left.next() {
            Some(other) if *one == *other => {}
            _ => return false,
        }
    }
    left.next().is_none()
}

fn is_done(answer: &Reply) -> bool
    ensures { result ≡ is_answer_of answer.now reply.Done }
{
    matches!(answer, Reply::Done)
}

fn is_found(answer: &Reply, others: &SharedTerms) -> bool
    ensures { result ≡ is_answer_of answer.now (reply.Found others.now) }
{
    match answer {
        Reply::Found(records) => are_same(records, others),
        _ => false,
    }
}

fn is_no_table(name: &Atom, told: &Reply) -> bool
    ensures { result ≡ is_no_table_of name.now told.now }
{
    match told {
        Reply::NoTable(other) => *name == *other,
        _ => false,
    }
}

fn is_bad_type(name: &Atom, row: &Term, told: &Reply) -> bool
    ensures { result ≡ is_bad_type_of name.now row.now told.now }
{
    match told {
        Reply::BadType(other, second) => *name == *other && *row == *second,
        _ => false,
    }
}

fn is_no_index(name: &Atom, attribute: &Term, told: &Reply) -> bool
    ensures { result ≡ is_no_index_of name.now attribute.now told.now }
{
    match told {
        Reply::NoIndex(other, second) => *name == *other && *attribute == *second,
        _ => false,
    }
}

// A trace has a failure reference-counted, and every other answer directly.
fn is_same_failure(answer: &Reply, told: &Reply) -> bool
    requires short { IsFalse (is_short told.now) }
    requires found { IsFalse (has_rows told.now) }
    ensures { result ≡ is_answer_of answer.now told.now }
{
    match answer {
        Reply::NoTable(name) => is_no_table(name, told),
        Reply::BadType(name, row) => is_bad_type(name, row, told),
        Reply::NoIndex(name, attribute) => is_no_index(name, attribute, told),
        _ => false,
    }
}

/// Returns whether the logged reply is this answer of an operation.
pub fn is_answer(answer: &Reply, told: &LoggedReply) -> bool
    ensures { result ≡ is_answer_of answer.now told.now }
{
    match &told.kept {
        Kept::Done => is_done(answer),
        Kept::Found(records) => is_found(answer, records),
        Kept::Other(told) => is_same_failure(answer, told),
        Kept::Tid(_) | Kept::AtomicOk => false,
    }
}

/// Returns whether the logged reply is that to the begin of a child of the transaction with this age.
pub fn is_tid(told: &Option<LoggedReply>, age: u64) -> bool
    ensures { result ≡ is_tid_of age told.now }
{
    match told {
        Some(told) => told.is_tid(age),
        None => false,
    }
}

/// Returns whether the logged reply is that to the commit of a child.
pub fn is_atomic_ok(told: &Option<LoggedReply>) -> bool
    ensures { result ≡ is_atomic_ok_of told.now }
{
    match told {
        Some(told) => told.is_atomic_ok(),
        None => false,
    }
}

fn are_same_names(ones: &[Atom], others: &[Atom]) -> bool
    ensures { result ≡ same_names ones.now others.now }
{
    if ones.len() != others.len() {
        return false;
    }
    for (place, one) in ones.iter().enumerate() {
        if *one != others[place] {
            return false;
        }
    }
    true
}

fn are_same_numbers(ones: &[u64], others: &[u64]) -> bool
    ensures { result ≡ same_numbers ones.now others.now }
{
    if ones.len() != others.len() {
        return false;
    }
    for (place, one) in ones.iter().enumerate() {
        if *one != others[place] {
            return false;
        }
    }
    true
}

fn is_same_kind(one: Kind, other: Kind) -> bool
    ensures { result ≡ same_kind one other }
{
    match (one, other) {
        (Kind::Set, Kind::Set) => true,
        (Kind::Bag, Kind::Bag) => true,
        _ => false,
    }
}

fn has_same_name(one: &TableDef, other: &TableDef) -> bool
    ensures { result
        ≡ (bytes_eq one.now.name other.now.name && same_kind one.now.kind other.now.kind) }
{
    if one.name == other.name {
        return is_same_kind(one.kind, other.kind);
    }
    false
}

fn has_same_attributes(one: &TableDef, other: &TableDef) -> bool
    ensures { result
        ≡ (same_names one.now.attributes other.now.attributes && same_numbers one.now.indexes
        other.now.indexes) }
{
    if are_same_names(
        one.attributes.items.as_slice(),
        other.attributes.items.as_slice(),
    ) {
        return are_same_numbers(one.indexes.items.as_slice(), other.indexes.items.as_slice());
    }
    false
}

fn is_same_def(one: &TableDef, other: &TableDef) -> bool
    ensures { result ≡ same_def one.now other.now }
{
    if has_same_name(one, other) {
        return has_same_attributes(one, other);
    }
    false
}

fn have_same_records(one: &IndexedTable, other: &IndexedTable) -> bool
    ensures { result ≡ same_rows one.now.rows other.now.rows }
{
    let mut ones = Records::new(one);
    let mut others = Records::new(other);
    while let Some(row) = ones.take() {
        match others.take() {
            Some(second) if *row == *second => {}
            _ => return false,
        }
    }
    others.take().is_none()
}

fn is_same_table(one: &IndexedTable, other: &IndexedTable) -> bool
    ensures { result ≡ same_table one.now other.now }
{
    if !is_same_def(one.def(), other.def()) {
        return false;
    }
    have_same_records(one, other)
}

/// Returns whether these are the same tables.
pub fn are_same_tables(ones: &Catalog, others: &Catalog) -> bool
    ensures { result ≡ same_tables ones.now others.now }
{
    let mut left = others.tables();
    for one in ones.tables() {
        match left.next() {
            Some(other) if is_same_table(&one.pair().1, &other.pair().1) => {}
            _ => return false,
        }
    }
    left.next().is_none()
}
