//! The arguments of a request, taken out of its term if they have the form that a command wants.

ghost use Rattle.std.specs.Prelude.{◌≡◌, IfOk, OnErr, IsTrue, IsFalse};
ghost use Rattle.tab_term.specs.Data.{atom, list, pair, is_atom, is_list};
ghost use Rattle.tab_term.specs.View.{term};
ghost use Rattle.tab_proto.specs.Commands.{is_row as is_row_of, is_attribute as is_attribute_of};
ghost use Rattle.tab_proto.specs.Reading.{is_place};

use crate::call::pair_of;
use crate::fault::NoCommand;
use tab_term::{Atom, Term, Terms};

/// A table's name.
pub fn name_of(argument: Term) -> Result<Atom, NoCommand>
    ensures ok { IfOk result (λ a. term argument ≡ atom a) }
    ensures bad { OnErr result (IsFalse (is_atom (term argument))) }
{
    argument.into_atom().ok_or(NoCommand)
}

/// The elements of a list.
pub fn elements_of(argument: Term) -> Result<Terms, NoCommand>
    ensures ok { IfOk result (λ ts. term argument ≡ list ts) }
    ensures bad { OnErr result (IsFalse (is_list (term argument))) }
{
    argument.into_list().ok_or(NoCommand)
}

/// A record or a pattern: a tuple of arity 2 or more whose first element is an atom.
pub fn row_of(argument: Term) -> Result<Term, NoCommand>
    ensures ok { IfOk result (λ t. (t ≡ argument) × (IsTrue (is_row_of (term argument)))) }
    ensures bad { OnErr result (IsFalse (is_row_of (term argument))) }
{
    if !is_row(&argument) {
        return Err(NoCommand);
    }
    Ok(argument)
}

fn is_row(argument: &Term) -> bool
    ensures { result ≡ is_row_of (term argument.now) }
{
    let Term::Tuple(elements) = argument else {
        return false;
    };
    matches!(elements.as_slice(), [Term::Atom(..), _, ..])
}

/// An attribute: its name or its position.
pub fn attribute_of(argument: Term) -> Result<Term, NoCommand>
    ensures ok { IfOk result (λ t. (t ≡ argument) × (IsTrue (is_attribute_of (term argument)))) }
    ensures bad { OnErr result (IsFalse (is_attribute_of (term argument))) }
{
    if !matches!(argument, Term::Atom(..) | Term::Int(..)) {
        return Err(NoCommand);
    }
    Ok(argument)
}

/// `{Tab, Key}`.
pub fn place_of(argument: Term) -> Result<(Atom, Term), NoCommand>
    ensures ok { IfOk result (λ p. term argument ≡ pair (atom p.0) (term p.1)) }
    ensures bad { OnErr result (IsFalse (is_place (term argument))) }
{
    let (table, key) = pair_of(argument)?;
    Ok((name_of(table)?, key))
}
