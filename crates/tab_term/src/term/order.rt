//! The order of terms: that of their canonical spellings as lists of bytes, computed without spelling.
//!
//! A list is told from a list of bytes by a walk up to its first member that is no byte; everything else stops
//! at the first difference.

ghost use Rattle.std.specs.Prelude.{◌≡◌, ◌∷◌, List, ℕ, ◌++◌, length, unsigned_abs};
ghost use Rattle.std.specs.Ordering.{nat_cmp, ordering_then, on};
ghost use Rattle.std.specs.Cmp.{IsTotalOrder};
ghost use Rattle.std.specs.declared.cmp.Ordering.TheVariants.{Equal};
ghost use Rattle.std.specs.Cmp.Lexicographic.{slice_cmp};
ghost use Rattle.tab_term.specs.Data.{PlainTerm, int, count, pair_count};
ghost use Rattle.tab_term.specs.View.{term, terms, pairs as pairs_of};
ghost use Rattle.tab_term.specs.Canon.{sign_of, magnitude, canon};
ghost use Rattle.tab_term.specs.Order.{order, members_order, pairs_order};

use crate::atom::Atom;
use crate::spelling::{fits_four, four_bytes_of, low_first, sign_byte, significant_of, tag};
use crate::term::{Pairs, Term, Terms};
use std::cmp::Ordering;

fn compare_bytes(x: &[u8], y: &[u8]) -> Ordering
    ensures { result
        ≡ ordering_then (nat_cmp (length x.now) (length y.now)) (slice_cmp nat_cmp x.now y.now) }
{
    x.len().cmp(&y.len()).then_with(|| x.cmp(y))
}

fn compare_atoms(x: &Atom, y: &Atom) -> Ordering
    ensures { result
        ≡ ordering_then (nat_cmp (length x.now) (length y.now)) (slice_cmp nat_cmp x.now y.now) }
{
    let (x, y) = (x.as_str(), y.as_str());
    x.len().cmp(&y.len()).then_with(|| x.cmp(y))
}

fn compare_signed(s: u8, a: &[u8], t: u8, b: &[u8]) -> Ordering
    ensures { result ≡ slice_cmp nat_cmp (length a.now ∷ s ∷ a.now) (length b.now ∷ t ∷ b.now) }
{
    a.len()
        .cmp(&b.len())
        .then_with(|| s.cmp(&t).then_with(|| a.cmp(b)))
}

fn compare_bigs(x: i128, y: i128) -> Ordering
    ensures { result
        ≡ slice_cmp nat_cmp
        (length (magnitude (unsigned_abs x)) ∷ sign_of x ∷ magnitude (unsigned_abs x))
        (length (magnitude (unsigned_abs y)) ∷ sign_of y ∷ magnitude (unsigned_abs y)) }
{
    let a = low_first(x.unsigned_abs());
    let b = low_first(y.unsigned_abs());
    compare_signed(
        sign_byte(x),
        significant_of(&a),
        sign_byte(y),
        significant_of(&b),
    )
}

/// The bytes of integers that four bytes hold order them, those of one byte before the others, as their tags do.
#[tactic(auto, using(crate::specs::OrderLaws::fours_order, crate::specs::OrderLaws::four_first, crate::specs::OrderLaws::four_last, crate::specs::OrderLaws::bigs_order))]
fn compare_ints(x: i128, y: i128) -> Ordering
    ensures { result ≡ order (int x) (int y) }
{
    match (fits_four(x), fits_four(y)) {
        (true, true) => four_bytes_of(x).cmp(&four_bytes_of(y)),
        (true, false) => Ordering::Less,
        (false, true) => Ordering::Greater,
        (false, false) => compare_bigs(x, y),
    }
}

#[cycle(order)]
#[tactic(auto, using(crate::specs::OrderLaws::at_one_tag, crate::specs::OrderLaws::at_two_tags))]
fn compare(a: &Term, b: &Term) -> Ordering
    ensures { result ≡ order (term a.now) (term b.now) }
{
    if let (Term::Int(x), Term::Int(y)) = (a, b) {
        return compare_ints(*x, *y);
    }
    let p = tag(a);
    let q = tag(b);
    if p != q {
        return p.cmp(&q);
    }
    match (a, b) {
        (Term::Atom(x), Term::Atom(y)) => compare_atoms(x, y),
        (Term::Tuple(xs), Term::Tuple(ys)) => compare_all(xs, ys),
        (Term::List(xs), Term::List(ys)) => compare_all(xs, ys),
        (Term::Bin(x), Term::Bin(y)) => compare_bytes(x.as_slice(), y.as_slice()),
        (Term::Map(xs), Term::Map(ys)) => compare_maps(xs, ys),
        _ => Ordering::Equal,
    }
}

#[cycle(order)]
#[tactic(auto, using(crate::proofs::Lists::count_terms))]
fn compare_all(xs: &Terms, ys: &Terms) -> Ordering
    ensures { result
        ≡ ordering_then (nat_cmp (count xs.now) (count ys.now)) (members_order xs.now ys.now) }
{
    let (xs, ys) = (xs.items.as_slice(), ys.items.as_slice());
    match xs.len().cmp(&ys.len()) {
        Ordering::Equal => compare_members(xs, ys),
        unequal => unequal,
    }
}

#[cycle(order)]
#[tactic(auto, using(crate::proofs::Lists::weight_at))]
fn compare_members(xs: &[Term], ys: &[Term]) -> Ordering
    requires { length xs.now ≡ length ys.now }
    ensures { result ≡ members_order (terms xs.now) (terms ys.now) }
{
    for (i, x) in xs.iter().enumerate() {
        let order = compare(x, &ys[i]);
        if order.is_ne() {
            return order;
        }
    }
    Ordering::Equal
}

#[cycle(order)]
#[tactic(auto, using(crate::proofs::Lists::count_pairs))]
fn compare_maps(xs: &Pairs, ys: &Pairs) -> Ordering
    ensures { result
        ≡ ordering_then (nat_cmp (pair_count xs.now) (pair_count ys.now))
        (pairs_order xs.now ys.now) }
{
    let (xs, ys) = (xs.pairs.as_slice(), ys.pairs.as_slice());
    match xs.len().cmp(&ys.len()) {
        Ordering::Equal => compare_pairs(xs, ys),
        unequal => unequal,
    }
}

#[cycle(order)]
#[tactic(auto, using(crate::proofs::Lists::pair_weight_at))]
fn compare_pairs(xs: &[(Term, Term)], ys: &[(Term, Term)]) -> Ordering
    requires { length xs.now ≡ length ys.now }
    ensures { result ≡ pairs_order (pairs_of xs.now) (pairs_of ys.now) }
{
    for (i, x) in xs.iter().enumerate() {
        let order = compare_pair(x, &ys[i]);
        if order.is_ne() {
            return order;
        }
    }
    Ordering::Equal
}

#[cycle(order)]
fn compare_pair(x: &(Term, Term), y: &(Term, Term)) -> Ordering
    ensures { result
        ≡ ordering_then (order (term x.now.0) (term y.now.0))
        (order (term x.now.1) (term y.now.1)) }
{
    match compare(&x.0, &y.0) {
        Ordering::Equal => compare(&x.1, &y.1),
        unequal => unequal,
    }
}

impl Ord for Term {
    ghost use Rattle.tab_term.specs.View.{term};
    ghost use Rattle.tab_term.specs.Canon.{canon};
    ghost use Rattle.std.specs.Ordering.{on, nat_cmp};
    ghost use Rattle.std.specs.Cmp.Lexicographic.{slice_cmp};
    ghost use Rattle.std.proofs.Common.{rules};
    ghost use Rattle.std.specs.Cmp.Rules.{comparing};
    ghost use Rattle.std.proofs.lemmas.Cmp.{on_total, nat_list_cmp_total};

    ghost cmp = { on (λ t. canon (term t)) (slice_cmp nat_cmp) };

    ghost total = { on_total (λ t. canon (term t)) nat_list_cmp_total };

    ghost matches_partial_cmp = { Prim.search (comparing, rules) };

    ghost use Rattle.tab_term.specs.OrderLaws.{matches_same};

    ghost matches_eq = { λ x y. matches_same (term x) (term y) };

    #[tactic(auto, using(crate::specs::OrderLaws::order_is))]
    fn cmp(&self, other: &Term) -> Ordering {
        compare(self, other)
    }
}

/// A law: the order by canonical spellings is total, terms that it calls equal are one term (so the canonical
/// spelling is one to one), no spelling begins another, and `cmp` gives this order.
#[tactic(auto, using(crate::specs::OrderLaws::canon_apart, crate::specs::OrderLaws::canon_same, crate::specs::OrderLaws::canon_total))]
pub fn the_order_is_that_of_spellings()
    ensures equal { (a b : PlainTerm) → slice_cmp nat_cmp (canon a) (canon b) ≡ Equal → a ≡ b }
    ensures apart { (a b : PlainTerm) (u v : List ℕ) → canon a ++ u ≡ canon b ++ v
        → (a ≡ b) × (u ≡ v) }
    ensures total { IsTotalOrder (on canon (slice_cmp nat_cmp)) }
{}

impl PartialOrd for Term {
    ghost use Rattle.tab_term.specs.View.{term};
    ghost use Rattle.tab_term.specs.Canon.{canon};
    ghost use Rattle.std.specs.Ordering.{on, nat_cmp, as_partial_cmp};
    ghost use Rattle.std.specs.Cmp.Lexicographic.{slice_cmp};
    ghost use Rattle.tab_term.specs.OrderLaws.{matches_same};
    ghost use Rattle.std.specs.Cmp.{partial_order_from_own_ties, partial_order_from_total};
    ghost use Rattle.std.proofs.lemmas.Cmp.{on_total, nat_list_cmp_total};

    ghost partial_cmp = { as_partial_cmp (on (λ t. canon (term t)) (slice_cmp nat_cmp)) };

    ghost laws = { partial_order_from_own_ties
        (partial_order_from_total (on_total (λ t. canon (term t)) nat_list_cmp_total))
        (λ x y. matches_same (term x) (term y)) };

    fn partial_cmp(&self, other: &Term) -> Option<Ordering> {
        Some(self.cmp(other))
    }
}
