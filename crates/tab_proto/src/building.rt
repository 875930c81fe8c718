//! Terms from their parts.

ghost use Rattle.std.specs.Prelude.{◌≡◌, ◌≤◌, length, IfOk};
ghost use Rattle.tab_term.specs.Data.{atom, pair as pair_of, triple as triple_of};
ghost use Rattle.tab_term.specs.View.{term};
ghost use Rattle.tab_model.specs.Names.{number as number_of};

use std::alloc::{AllocError, Global};
use tab_term::{Atom, Term, Terms};

/// A word of the protocol, which is an atom.
pub fn word(alloc: Global, text: &str) -> Result<Term, AllocError>
    requires { length text.now ≤ 255 }
    ensures { IfOk result (λ t. term t ≡ atom text.now) }
{
    Ok(Term::Atom(Atom::from_short_text(alloc, text)?))
}

/// A number, as an integer.
pub fn number(n: u64) -> Term
    ensures { term result ≡ number_of n }
{
    Term::Int(i128::from(n))
}

/// A table's name.
pub fn name(alloc: Global, table: &Atom) -> Result<Term, AllocError>
    ensures { IfOk result (λ t. term t ≡ atom table.now) }
{
    Ok(Term::Atom(table.try_clone(alloc)?))
}

/// `{First, Second}`.
pub fn pair(alloc: Global, first: Term, second: Term) -> Result<Term, AllocError>
    ensures { IfOk result (λ t. term t ≡ pair_of (term first) (term second)) }
{
    let mut parts = Vec::with_capacity(alloc, 2)?;
    parts.push(first)?;
    parts.push(second)?;
    Ok(Term::Tuple(Terms::from_vec(parts)))
}

/// `{First, Second, Third}`.
pub fn triple(alloc: Global, first: Term, second: Term, third: Term) -> Result<Term, AllocError>
    ensures { IfOk result (λ t. term t ≡ triple_of (term first) (term second) (term third)) }
{
    let mut parts = Vec::with_capacity(alloc, 3)?;
    parts.push(first)?;
    parts.push(second)?;
    parts.push(third)?;
    Ok(Term::Tuple(Terms::from_vec(parts)))
}

/// `{Text, Value}`.
pub fn worded(alloc: Global, text: &str, value: Term) -> Result<Term, AllocError>
    requires { length text.now ≤ 255 }
    ensures { IfOk result (λ t. term t ≡ pair_of (atom text.now) (term value)) }
{
    pair(alloc, word(alloc, text)?, value)
}
