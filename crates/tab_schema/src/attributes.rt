//! The names of attributes.

ghost use Rattle.std.specs.Prelude.{◌≡◌, IfOk};
ghost use Rattle.tab_term.specs.View.{terms};
ghost use Rattle.tab_model.specs.Names.{has_name};
ghost use Rattle.tab_model.specs.Definitions.{atoms_in, are_different as differ, good_names};

use std::alloc::{AllocError, Global};
use tab_model::Atoms;
use tab_term::{Atom, Term};

/// 2 to 255 different names, where the terms are such.
pub fn attributes_in(alloc: Global, listed: &[Term]) -> Result<Option<Atoms>, AllocError>
    ensures { IfOk result (λ names. names ≡ good_names (atoms_in (terms listed.now))) }
{
    let Some(names) = names_in(alloc, listed)? else {
        return Ok(None);
    };
    let count = names.items.len();
    if count < 2 || count > 255 || !are_different(&names.items) {
        return Ok(None);
    }
    Ok(Some(names))
}

fn names_in(alloc: Global, listed: &[Term]) -> Result<Option<Atoms>, AllocError>
    ensures { IfOk result (λ names. names ≡ atoms_in (terms listed.now)) }
{
    let mut names = Vec::with_capacity(alloc, listed.len())?;
    for element in listed {
        let Term::Atom(name) = element else {
            return Ok(None);
        };
        names.push(name.try_clone(alloc)?)?;
    }
    Ok(Some(Atoms { items: names }))
}

fn are_different(names: &[Atom]) -> bool
    ensures { result ≡ differ names.now }
{
    match names {
        [] => true,
        [name, rest @ ..] => !contains(rest, name) && are_different(rest),
    }
}

fn contains(names: &[Atom], name: &Atom) -> bool
    ensures { result ≡ has_name names.now name.now }
{
    for other in names {
        if name == other {
            return true;
        }
    }
    false
}
