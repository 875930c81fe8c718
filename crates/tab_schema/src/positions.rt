//! The positions of attributes, by the terms that name them.

ghost use Rattle.std.specs.Prelude.{◌≡◌, IfOk, pos};
ghost use Rattle.tab_term.specs.Data.{int as int_of};
ghost use Rattle.tab_term.specs.View.{term};
ghost use Rattle.tab_model.specs.Definitions.{after_key};
ghost use Rattle.tab_schema.specs.Positions.{AreNamed};

use std::alloc::{AllocError, Global};
use tab_map::Map;
use tab_model::TableDef;
use tab_term::{Atom, Term};

/// Each attribute but the key with its position, once by its name and once by the position. A list of indexes may name as
/// many as a frame holds.
pub fn positions(alloc: Global, def: &TableDef) -> Result<Map<Term, u64>, AllocError>
    ensures { IfOk result (λ m. AreNamed 3 (after_key def.now.attributes) m) }
{
    match def.attributes.items.as_slice() {
        [_, names @ ..] => by_term(alloc, names),
        [] => Ok(Map::new()),
    }
}

/// From the last to the first, so that of equal names the first stays.
fn by_term(alloc: Global, names: &[Atom]) -> Result<Map<Term, u64>, AllocError>
    ensures { IfOk result (λ m. AreNamed 3 names.now m) }
{
    let mut positions = Map::new();
    for n in (0..names.len()).rev() {
        let position = n as u64 + 3;
        positions.insert(alloc, number(position), position)?;
        positions.insert(alloc, Term::Atom(names[n].try_clone(alloc)?), position)?;
    }
    Ok(positions)
}

fn number(position: u64) -> Term
    ensures { term result ≡ int_of (pos position) }
{
    Term::Int(position as i128)
}
