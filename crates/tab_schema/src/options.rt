//! The options of `create_table`.

ghost use Rattle.std.specs.Prelude.{◌≡◌, [], IfOk, IfErr, IfSome, IfNone, codes, Some, None};
ghost use Rattle.std.specs.Option.{option_copied};
ghost use Rattle.tab_term.specs.Data.{atom as atom_of, list as list_of, pair};
ghost use Rattle.tab_term.specs.Same.{same};
ghost use Rattle.tab_term.specs.View.{term, terms};
ghost use Rattle.tab_model.specs.Definitions.{parse_options as parsed, Good, Bad, bad_option as bad_option_of, option_name, value_in, value_of as value_in_options, is_named, is_value as is_value_of, kind_in, attributes_in as attributes_in_term, default_names, with_index_option};
ghost use Rattle.tab_schema.specs.Options.{Blames, first_value, option_term};

use crate::attributes::attributes_in;
use crate::definition::add_number;
use crate::fault::DefFault;
use crate::positions::positions;
use std::alloc::{AllocError, Global};
use tab_model::{Atoms, Kind, Numbers, TableDef};
use tab_term::{Atom, Term, Terms};

/// The definition of a table that is created with these options. The whole list is looked at for what is no option before
/// the attributes are read, and these before the indexes. Without options the table is a set with the attributes `key`
/// and `val` and no index.
#[tactic(auto, using(crate::proofs::OptionsLemmas::value_is))]
pub fn parse_options(alloc: Global, table: &Atom, options: &[Term]) -> Result<TableDef, DefFault>
    ensures ok { IfOk result (λ def. parsed table.now (terms options.now) ≡ Good def) }
    ensures bad { IfErr result (Blames (λ what. parsed table.now (terms options.now) ≡ Bad what)) }
{
    if let Some(other) = bad_option(table, options) {
        return Err(DefFault::Bad(other.try_clone(alloc)?));
    }
    let Some(attributes) = attributes_of(alloc, table, options)? else {
        return Err(DefFault::Bad(Term::Atom(Atom::from_short_text(alloc, "attributes")?)));
    };
    let def = TableDef {
        name: table.try_clone(alloc)?,
        kind: kind_of(table, options),
        attributes,
        indexes: Numbers {
            items: Vec::new(alloc),
        },
    };
    match value_of(table, "index", options) {
        None => Ok(def),
        Some(Term::List(entries)) => indexed(alloc, def, entries.as_slice()),
        Some(other) => Err(DefFault::Bad(index_fault(alloc, other)?)),
    }
}

/// The first that is no option, or the second one of its name.
fn bad_option<'a>(table: &Atom, options: &'a [Term]) -> Option<&'a Term>
    ensures { option_term (option_copied result) ≡ bad_option_of table.now [] (terms options.now) }
{
    for (n, option) in options.iter().enumerate() {
        let Some((name, _)) = option_of(table, option) else {
            return Some(option);
        };
        if value_of(table, name, &options[..n]).is_some() {
            return Some(option);
        }
    }
    None
}

/// The name and the value of a term that is an option.
fn option_of<'a>(table: &Atom, held: &'a Term) -> Option<(&'a str, &'a Term)>
    ensures some { IfSome result
        (λ o. (option_name table.now (term held.now) ≡ Some o.0.now)
        × (value_in (term held.now) ≡ term o.1.now)) }
    ensures none { IfNone result (option_name table.now (term held.now) ≡ None) }
{
    let Term::Tuple(parts) = held else {
        return None;
    };
    match parts.as_slice() {
        [Term::Atom(name), value] if is_value(table, name.as_str(), value) => {
            Some((name.as_str(), value))
        }
        _ => None,
    }
}

fn is_value(table: &Atom, name: &str, value: &Term) -> bool
    ensures { result ≡ is_value_of table.now name.now (term value.now) }
{
    match name {
        "type" => is_word(value, "set") || is_word(value, "bag"),
        "attributes" | "index" => true,
        "ram_copies" => matches!(value, Term::List(_)),
        "record_name" => is_word(value, table.as_str()),
        _ => false,
    }
}

fn is_word(value: &Term, word: &str) -> bool
    ensures { result ≡ same (term value.now) (atom_of word.now) }
{
    match value {
        Term::Atom(name) => name.as_str() == word,
        _ => false,
    }
}

/// The value of the first option of this name.
fn value_of<'a>(table: &Atom, name: &str, options: &'a [Term]) -> Option<&'a Term>
    ensures { option_term (option_copied result) ≡ first_value table.now name.now options.now }
{
    for option in options {
        if let Some((other, value)) = option_of(table, option) {
            if other == name {
                return Some(value);
            }
        }
    }
    None
}

#[tactic(auto, using(crate::proofs::OptionsLemmas::value_is))]
fn kind_of(table: &Atom, options: &[Term]) -> Kind
    ensures { result
        ≡ kind_in (value_in_options table.now (codes "type") (atom_of (codes "set"))
        (terms options.now)) }
{
    match value_of(table, "type", options) {
        Some(value) if is_word(value, "bag") => Kind::Bag,
        _ => Kind::Set,
    }
}

#[tactic(auto, using(crate::proofs::OptionsLemmas::value_is))]
fn attributes_of(alloc: Global, table: &Atom, options: &[Term]) -> Result<Option<Atoms>, AllocError>
    ensures { IfOk result
        (λ names. names
        ≡ attributes_in_term
        (value_in_options table.now (codes "attributes") default_names (terms options.now))) }
{
    match value_of(table, "attributes", options) {
        None => Ok(Some(default_attributes(alloc)?)),
        Some(Term::List(listed)) => attributes_in(alloc, listed.as_slice()),
        Some(_) => Ok(None),
    }
}

fn default_attributes(alloc: Global) -> Result<Atoms, AllocError>
    ensures { IfOk result (λ names. Some names ≡ attributes_in_term default_names) }
{
    let mut items = Vec::with_capacity(alloc, 2)?;
    items.push_reserved(Atom::from_short_text(alloc, "key")?);
    items.push_reserved(Atom::from_short_text(alloc, "val")?);
    Ok(Atoms { items })
}

/// The definition with an index for each entry, which names an attribute behind the key. Entries are looked at from the
/// last to the first, so that the fault that stays is the first one.
fn indexed(alloc: Global, def: TableDef, entries: &[Term]) -> Result<TableDef, DefFault>
    requires { def.indexes ≡ [] }
    ensures ok { IfOk result (λ d. with_index_option def (list_of (terms entries.now)) ≡ Good d) }
    ensures bad { IfErr result
        (Blames (λ what. with_index_option def (list_of (terms entries.now)) ≡ Bad what)) }
{
    let positions = positions(alloc, &def)?;
    let mut indexes = Vec::new(alloc);
    let mut fault = None;
    for n in (0..entries.len()).rev() {
        match positions.get(&entries[n]) {
            Some(position) => add_number(&mut indexes, *position)?,
            None => fault = Some(&entries[n]),
        }
    }
    match fault {
        Some(entry) => Err(DefFault::Bad(index_fault(alloc, entry)?)),
        None => Ok(TableDef {
            indexes: Numbers { items: indexes },
            ..def
        }),
    }
}

/// `{index, X}`, which tells of X that it names no attribute that an index can be on.
pub fn index_fault(alloc: Global, named: &Term) -> Result<Term, AllocError>
    ensures { IfOk result (λ t. term t ≡ pair (atom_of (codes "index")) (term named.now)) }
{
    let mut parts = Vec::with_capacity(alloc, 2)?;
    parts.push_reserved(Term::Atom(Atom::from_short_text(alloc, "index")?));
    parts.push_reserved(named.try_clone(alloc)?);
    Ok(Term::Tuple(Terms::from_vec(parts)))
}
