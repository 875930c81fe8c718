//! Equality of terms: by structure, without memory, up to the first difference.

ghost use Rattle.std.specs.Prelude.{◌≡◌, ◌&&◌};
ghost use Rattle.tab_term.specs.View.{term};
ghost use Rattle.tab_term.specs.Same.{same, all_same, pairs_same};

use crate::term::{Pairs, Term, Terms};

impl PartialEq for Term {
    ghost use Rattle.tab_term.specs.View.{term};
    ghost use Rattle.tab_term.specs.Same.{same, same_equiv};
    ghost use Rattle.std.specs.Ordering.{on};
    ghost use Rattle.std.specs.Cmp.{partial_equiv_from_equiv};
    ghost use Rattle.std.proofs.lemmas.Cmp.{on_equiv};

    ghost eq = { on term same };

    ghost laws = { partial_equiv_from_equiv (on_equiv term same_equiv) };

    fn eq(&self, other: &Term) -> bool {
        is_same(self, other)
    }
}

impl Eq for Term {
    ghost use Rattle.tab_term.specs.View.{term};
    ghost use Rattle.tab_term.specs.Same.{same, same_equiv};
    ghost use Rattle.std.proofs.lemmas.Cmp.{on_equiv};

    ghost laws = { on_equiv term same_equiv };
}

#[cycle(same)]
fn is_same(a: &Term, b: &Term) -> bool
    ensures { result ≡ same (term a.now) (term b.now) }
{
    match (a, b) {
        (Term::Int(x), Term::Int(y)) => *x == *y,
        (Term::Atom(x), Term::Atom(y)) => x == y,
        (Term::Tuple(xs), Term::Tuple(ys)) => are_same(xs, ys),
        (Term::List(xs), Term::List(ys)) => are_same(xs, ys),
        (Term::Bin(x), Term::Bin(y)) => x.as_slice() == y.as_slice(),
        (Term::Map(xs), Term::Map(ys)) => are_pairs_same(xs, ys),
        _ => false,
    }
}

#[cycle(same)]
fn are_same(xs: &Terms, ys: &Terms) -> bool
    ensures { result ≡ all_same xs.now ys.now }
{
    let (xs, ys) = (xs.items.as_slice(), ys.items.as_slice());
    if xs.len() != ys.len() {
        return false;
    }
    // Records of one table, and of one key, are the same in front.
    for i in (0..xs.len()).rev() {
        if !is_same(&xs[i], &ys[i]) {
            return false;
        }
    }
    true
}

#[cycle(same)]
fn are_pairs_same(xs: &Pairs, ys: &Pairs) -> bool
    ensures { result ≡ pairs_same xs.now ys.now }
{
    let (xs, ys) = (xs.pairs.as_slice(), ys.pairs.as_slice());
    if xs.len() != ys.len() {
        return false;
    }
    for (i, x) in xs.iter().enumerate() {
        if !is_pair_same(x, &ys[i]) {
            return false;
        }
    }
    true
}

#[cycle(same)]
fn is_pair_same(x: &(Term, Term), y: &(Term, Term)) -> bool
    ensures { result ≡ (same (term x.now.0) (term y.now.0) && same (term x.now.1) (term y.now.1)) }
{
    if !is_same(&x.0, &y.0) {
        return false;
    }
    is_same(&x.1, &y.1)
}
