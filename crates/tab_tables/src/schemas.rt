//! Schema commands, and reports about tables.

ghost use Rattle.std.specs.Prelude.{◌≡◌, IfOk};
ghost use Rattle.tab_model.specs.declared.data.Reply.TheVariants as reply;
ghost use Rattle.tab_model.specs.declared.data.Schema.TheVariants as schema;
ghost use Rattle.tab_term.specs.View.{term};
ghost use Rattle.tab_model.specs.Names.{names as names_of, number as number_of, numbers as numbers_of};
ghost use Rattle.tab_model.specs.Outcome.{table_info as info_of, info_at};
ghost use Rattle.tab_model.specs.Catalogs.{find};
ghost use Rattle.tab_tables.specs.Redefines.{Redefines};

use crate::catalog::Catalog;
use std::alloc::{AllocError, Global};
use tab_index::IndexedTable;
use tab_model::{Atoms, InfoItem, Numbers, Reply, Schema, TableInfo};
use tab_schema::{DefFault, has_index, index_fault, parse_options, position};
use tab_term::{Atom, Term, Terms};

/// The result of a schema command, without locks and limits.
#[derive(Drop)]
pub enum Redefined {
    Refused(Reply),
    Done(Catalog),
}

/// The tables after a schema command. These stay as they were.
pub fn redefine(alloc: Global, catalog: &Catalog, command: &Schema) -> Result<Redefined, AllocError>
    ensures { IfOk result (Redefines catalog.now command.now) }
{
    match command {
        Schema::Create(name, options) => create(alloc, catalog, name, options),
        Schema::Remove(name) => remove(alloc, catalog, name),
        Schema::AddIndex(name, attribute) => add_index(alloc, catalog, name, attribute),
        Schema::DelIndex(name, attribute) => del_index(alloc, catalog, name, attribute),
    }
}

fn create(
    alloc: Global,
    catalog: &Catalog,
    name: &Atom,
    options: &Terms,
) -> Result<Redefined, AllocError>
    ensures { IfOk result (Redefines catalog.now (schema.Create name.now options.now)) }
{
    if catalog.table(name).is_some() {
        return Ok(Redefined::Refused(Reply::AlreadyExists(name.try_clone(alloc)?)));
    }
    match parse_options(alloc, name, options.as_slice()) {
        Ok(def) => {
            let table = IndexedTable::new(alloc, def)?;
            Ok(Redefined::Done(catalog.placed(alloc, table)?))
        }
        Err(DefFault::Bad(what)) => {
            let name = name.try_clone(alloc)?;
            Ok(Redefined::Refused(Reply::BadDefinition(name, what)))
        }
        Err(DefFault::NoMemory) => Err(AllocError),
    }
}

fn remove(alloc: Global, catalog: &Catalog, name: &Atom) -> Result<Redefined, AllocError>
    ensures { IfOk result (Redefines catalog.now (schema.Remove name.now)) }
{
    if catalog.table(name).is_none() {
        return Ok(Redefined::Refused(Reply::NoTable(name.try_clone(alloc)?)));
    }
    Ok(Redefined::Done(catalog.without(alloc, name)?))
}

fn add_index(
    alloc: Global,
    catalog: &Catalog,
    name: &Atom,
    attribute: &Term,
) -> Result<Redefined, AllocError>
    ensures { IfOk result (Redefines catalog.now (schema.AddIndex name.now attribute.now)) }
{
    let Some(table) = catalog.table(name) else {
        return Ok(Redefined::Refused(Reply::NoTable(name.try_clone(alloc)?)));
    };
    match position(table.def(), attribute) {
        Some(position) if !has_index(table.def(), position) => {
            let indexed = table.add_index(alloc, position as u64)?;
            Ok(Redefined::Done(catalog.placed(alloc, indexed)?))
        }
        _ => {
            let name = name.try_clone(alloc)?;
            let what = index_fault(alloc, attribute)?;
            Ok(Redefined::Refused(Reply::BadDefinition(name, what)))
        }
    }
}

fn del_index(
    alloc: Global,
    catalog: &Catalog,
    name: &Atom,
    attribute: &Term,
) -> Result<Redefined, AllocError>
    ensures { IfOk result (Redefines catalog.now (schema.DelIndex name.now attribute.now)) }
{
    let Some(table) = catalog.table(name) else {
        return Ok(Redefined::Refused(Reply::NoTable(name.try_clone(alloc)?)));
    };
    match position(table.def(), attribute) {
        Some(position) if has_index(table.def(), position) => {
            let bare = table.del_index(alloc, position as u64)?;
            Ok(Redefined::Done(catalog.placed(alloc, bare)?))
        }
        _ => {
            let name = name.try_clone(alloc)?;
            Ok(Redefined::Refused(Reply::NoIndex(name, attribute.try_clone(alloc)?)))
        }
    }
}

/// Reports about a table: its type, the names of its attributes, the positions of its indexes, or the number of its
/// records.
pub fn table_info(
    alloc: Global,
    catalog: &Catalog,
    name: &Atom,
    item: InfoItem,
) -> Result<Reply, AllocError>
    ensures { IfOk result (λ reply. reply ≡ info_of name.now item (find catalog.now name.now)) }
{
    match catalog.table(name) {
        None => Ok(Reply::UnknownTable(name.try_clone(alloc)?)),
        Some(table) => Ok(Reply::TableInfo(info(alloc, table, item)?)),
    }
}

fn info(alloc: Global, table: &IndexedTable, item: InfoItem) -> Result<TableInfo, AllocError>
    ensures { IfOk result (λ told. info_at table.now item ≡ reply.TableInfo told) }
{
    match item {
        InfoItem::Kind => Ok(TableInfo::Kind(table.def().kind)),
        InfoItem::Attributes => Ok(TableInfo::Attributes(names(alloc, &table.def().attributes)?)),
        InfoItem::Index => Ok(TableInfo::Index(numbers(alloc, &table.def().indexes)?)),
        InfoItem::Size => Ok(TableInfo::Size(table.size() as u64)),
    }
}

fn names(alloc: Global, attributes: &Atoms) -> Result<Terms, AllocError>
    ensures { IfOk result (λ terms. terms ≡ names_of attributes.now) }
{
    let mut terms = Vec::with_capacity(alloc, attributes.items.len())?;
    for name in &attributes.items {
        terms.push(Term::Atom(name.try_clone(alloc)?))?;
    }
    Ok(Terms::from_vec(terms))
}

fn numbers(alloc: Global, positions: &Numbers) -> Result<Terms, AllocError>
    ensures { IfOk result (λ terms. terms ≡ numbers_of positions.now) }
{
    let mut terms = Vec::with_capacity(alloc, positions.items.len())?;
    for position in &positions.items {
        terms.push(number_term(*position))?;
    }
    Ok(Terms::from_vec(terms))
}

fn number_term(number: u64) -> Term
    ensures { term result ≡ number_of number }
{
    Term::Int(number as i128)
}
