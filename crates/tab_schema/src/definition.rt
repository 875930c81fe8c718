//! Questions to a definition, and a definition with another list of indexes.

ghost use Rattle.std.specs.Prelude.{◌≡◌, ◌||◌, ◌+◌, pos, length, IfOk, OnOk, OnErr};
ghost use Rattle.tab_term.specs.Data.{atom as atom_of, int as int_of};
ghost use Rattle.tab_term.specs.Same.{same};
ghost use Rattle.tab_term.specs.View.{term};
ghost use Rattle.tab_model.specs.Definitions.{fits_def, position as position_of, position_from, add_number as plus, less_number, has_number, with_indexes};

use std::alloc::{AllocError, Global};
use tab_model::{Atoms, Numbers, TableDef};
use tab_term::{Atom, Term};

/// Whether a record has the table's name as its first element, and an element for each attribute behind it.
pub fn fits(def: &TableDef, row: &Term) -> bool
    ensures { result ≡ fits_def def.now (term row.now) }
{
    let Term::Tuple(elements) = row else {
        return false;
    };
    match elements.as_slice() {
        [tag, rest @ ..] => is_name(tag, &def.name) && rest.len() == def.attributes.items.len(),
        [] => false,
    }
}

fn is_name(tag: &Term, name: &Atom) -> bool
    ensures { result ≡ same (term tag.now) (atom_of name.now) }
{
    match tag {
        Term::Atom(text) => text == name,
        _ => false,
    }
}

/// The position, 3 or more, of the attribute that the term names or whose position it is. None for the key, which has no
/// index, and for every other term.
pub fn position(def: &TableDef, named: &Term) -> Option<usize>
    ensures { result ≡ position_of def.now (term named.now) }
{
    let [_, rest @ ..] = def.attributes.items.as_slice() else {
        return None;
    };
    for (n, attribute) in rest.iter().enumerate() {
        if is_name(named, attribute) || is_number(named, n + 3) {
            return Some(n + 3);
        }
    }
    None
}

fn is_number(named: &Term, number: usize) -> bool
    ensures { result ≡ same (term named.now) (int_of (pos number)) }
{
    match named {
        Term::Int(int) => *int == number as i128,
        _ => false,
    }
}

/// Whether there is an index at this position.
pub fn has_index(def: &TableDef, position: usize) -> bool
    ensures { result ≡ has_number def.now.indexes position }
{
    for index in &def.indexes.items {
        if *index == position as u64 {
            return true;
        }
    }
    false
}

/// The definition with these positions of indexes in the place of its own.
pub fn with_positions(
    alloc: Global,
    def: &TableDef,
    positions: Vec<u64>,
) -> Result<TableDef, AllocError>
    ensures { IfOk result (λ d. d ≡ with_indexes def.now positions.items) }
{
    let mut attributes = Vec::with_capacity(alloc, def.attributes.items.len())?;
    for attribute in &def.attributes.items {
        attributes.push(attribute.try_clone(alloc)?)?;
    }
    Ok(TableDef {
        name: def.name.try_clone(alloc)?,
        kind: def.kind,
        attributes: Atoms { items: attributes },
        indexes: Numbers { items: positions },
    })
}

/// The definition with an index at this position too.
pub fn with_index(alloc: Global, def: &TableDef, position: u64) -> Result<TableDef, AllocError>
    ensures { IfOk result (λ d. d ≡ with_indexes def.now (plus position def.now.indexes)) }
{
    let mut positions = Vec::from_slice(alloc, &def.indexes.items)?;
    add_number(&mut positions, position)?;
    with_positions(alloc, def, positions)
}

/// The definition without an index at this position.
pub fn without_index(alloc: Global, def: &TableDef, position: u64) -> Result<TableDef, AllocError>
    ensures { IfOk result (λ d. d ≡ with_indexes def.now (less_number position def.now.indexes)) }
{
    let mut positions = Vec::with_capacity(alloc, def.indexes.items.len())?;
    for other in &def.indexes.items {
        if *other != position {
            positions.push(*other)?;
        }
    }
    with_positions(alloc, def, positions)
}

/// Puts a number into an ascending list, once.
pub fn add_number(numbers: &mut Vec<u64>, number: u64) -> Result<(), AllocError>
    ensures ok { OnOk result (numbers.new.items ≡ plus number numbers.old.items) }
    ensures err { OnErr result (numbers.new.items ≡ numbers.old.items) }
{
    let mut place = 0;
    for other in numbers.as_slice() {
        if *other == number {
            return Ok(());
        }
        if number < *other {
            break;
        }
        place += 1;
    }
    numbers.insert(place, number)?;
    Ok(())
}
