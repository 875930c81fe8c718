ghost use Rattle.std.specs.Prelude.{◌≡◌, min, length, IfOk, IfSome, IfNone, IsFalse};
ghost use Rattle.tab_term.specs.Data.{atom, list, tuple, depth, depths, pair_depths, count, pair_count, is_atom, is_list, is_tuple};
ghost use Rattle.tab_term.specs.Memory.{memory, memories, pair_memories};
ghost use Rattle.tab_term.specs.View.{term, terms, pairs as pairs_of};

use crate::atom::Atom;
use crate::bytes::Bytes;
use std::alloc::{AllocError, Global};
use std::marker::Model;

pub mod abbreviation;
pub mod equality;
pub mod last_number;
pub mod order;
pub mod pattern;

/// A term of the external term format, but for floats, pids, ports, references, funs and improper lists.
#[cycle(term)]
pub enum Term {
    Int(i128),
    Atom(Atom),
    Tuple(Terms),
    List(Terms),
    Bin(Bytes),
    /// The pairs are to stand by their keys, ascending in the order of terms, and no key twice. Nothing here tests
    /// that: a map is compared, and written, as it was built.
    Map(Pairs),
}

// An integer takes as much: an atom's text of more than 24 bytes would make each term half as large again.
const _: () = prove!(size_of::<Term>() == 32);

// A derived drop would be expanded, variant by variant, at each exit of each function that holds a term.
impl Drop for Term {
    #[cycle(term)]
    fn drop(self) {
        match self {
            Term::Int(_) => {}
            Term::Atom(name) => drop(name),
            Term::Tuple(elements) | Term::List(elements) => drop(elements),
            Term::Bin(bytes) => drop(bytes),
            Term::Map(pairs) => drop(pairs),
        }
    }
}

/// The elements of a tuple or of a list.
#[cycle(term)]
#[derive(Drop)]
pub struct Terms {
    items: Vec<Term>,
}

impl Model for Terms {
    ghost use Rattle.tab_term.specs.Data.{PlainTerms};
    ghost use Rattle.tab_term.specs.Code.{terms_code};

    ghost Value = { PlainTerms };

    ghost coded = { terms_code };

    ghost use Rattle.tab_term.specs.View.{terms};

    ghost view = { λ a. terms a.items.items };

    ghost use Rattle.tab_term.specs.Data.{nodes};

    ghost size = { nodes };

    ghost use Rattle.std.proofs.Common.{arith};
    ghost use Rattle.tab_term.specs.Falls.{all_fall};

    ghost size_decreases = { λ a h. omega (arith, all_fall a.items.items) };
}

/// The keys and values of a map.
#[cycle(term)]
#[derive(Drop)]
pub struct Pairs {
    pairs: Vec<(Term, Term)>,
}

impl Model for Pairs {
    ghost use Rattle.tab_term.specs.Data.{PlainPairs};
    ghost use Rattle.tab_term.specs.Code.{pairs_code};

    ghost Value = { PlainPairs };

    ghost coded = { pairs_code };

    ghost use Rattle.tab_term.specs.View.{pairs as pairs_of};

    ghost view = { λ a. pairs_of a.pairs.items };

    ghost use Rattle.tab_term.specs.Data.{pair_nodes};

    ghost size = { pair_nodes };

    ghost use Rattle.std.proofs.Common.{arith};
    ghost use Rattle.tab_term.specs.Falls.{pairs_fall};

    ghost size_decreases = { λ a h. omega (arith, pairs_fall a.pairs.items) };
}

impl Term {
    /// How deep the term nests: 1 for what holds no term, else one more than its deepest member. A depth of
    /// `u64::MAX` and every greater one is `u64::MAX`.
    #[cycle(depth)]
    pub fn depth(&self) -> u64
        ensures { result ≡ min (depth (term self.now)) u64.MAX }
    {
        match self {
            Term::Int(_) | Term::Atom(_) | Term::Bin(_) => 1,
            Term::Tuple(ts) | Term::List(ts) => ts.deepest().saturating_add(1),
            Term::Map(ps) => ps.deepest().saturating_add(1),
        }
    }

    /// How many bytes of memory the term takes: 32 for itself, with the bytes of an atom's text and of a binary, and the
    /// same of its members. At most `u64::MAX`.
    #[cycle(memory)]
    pub fn memory(&self) -> u64
        ensures { result ≡ min (memory (term self.now)) u64.MAX }
    {
        let inside = match self {
            Term::Int(_) => 0,
            Term::Atom(name) => name.as_str().len() as u64,
            Term::Bin(bytes) => bytes.as_slice().len() as u64,
            Term::Tuple(ts) | Term::List(ts) => ts.memory(),
            Term::Map(ps) => ps.memory(),
        };
        inside.saturating_add(32)
    }

    /// The name of an atom. Of any other term, which is dropped, None.
    pub fn into_atom(self) -> Option<Atom>
        ensures some { IfSome result (λ a. term self ≡ atom a) }
        ensures none { IfNone result (IsFalse (is_atom (term self))) }
    {
        match self {
            Term::Atom(name) => Some(name),
            _ => None,
        }
    }

    /// The elements of a tuple. Of any other term, which is dropped, None.
    pub fn into_tuple(self) -> Option<Terms>
        ensures some { IfSome result (λ ts. term self ≡ tuple ts) }
        ensures none { IfNone result (IsFalse (is_tuple (term self))) }
    {
        match self {
            Term::Tuple(elements) => Some(elements),
            _ => None,
        }
    }

    /// The elements of a list. Of any other term, which is dropped, None.
    pub fn into_list(self) -> Option<Terms>
        ensures some { IfSome result (λ ts. term self ≡ list ts) }
        ensures none { IfNone result (IsFalse (is_list (term self))) }
    {
        match self {
            Term::List(elements) => Some(elements),
            _ => None,
        }
    }

    /// The same term, in memory of its own.
    #[cycle(copy)]
    pub fn try_clone(&self, alloc: Global) -> Result<Term, AllocError>
        ensures { IfOk result (λ t. t ≡ self.now) }
    {
        match self {
            Term::Int(z) => Ok(Term::Int(*z)),
            Term::Atom(a) => Ok(Term::Atom(a.try_clone(alloc)?)),
            Term::Tuple(ts) => Ok(Term::Tuple(ts.try_clone(alloc)?)),
            Term::List(ts) => Ok(Term::List(ts.try_clone(alloc)?)),
            Term::Bin(b) => Ok(Term::Bin(b.try_clone(alloc)?)),
            Term::Map(ps) => Ok(Term::Map(ps.try_clone(alloc)?)),
        }
    }
}

impl Terms {
    /// These elements, without taking memory.
    pub fn from_vec(items: Vec<Term>) -> Terms
        ensures { result ≡ terms items.items }
    {
        Terms { items }
    }

    /// The elements, given back without taking memory.
    pub fn into_vec(self) -> Vec<Term>
        ensures { terms result.items ≡ self }
    {
        self.items
    }

    /// The terms, in their order.
    #[tactic(auto, using(crate::proofs::Lists::count_terms))]
    pub fn as_slice(&self) -> &[Term]
        ensures items { terms result.now ≡ self.now }
        ensures len { length result.now ≡ count self.now }
    {
        self.items.as_slice()
    }

    #[cycle(depth)]
    fn deepest(&self) -> u64
        ensures { result ≡ min (depths self.now) u64.MAX }
    {
        let mut most = 0;
        for t in &self.items {
            most = most.max(t.depth());
        }
        most
    }

    #[cycle(memory)]
    fn memory(&self) -> u64
        ensures { result ≡ min (memories self.now) u64.MAX }
    {
        let mut sum: u64 = 0;
        for t in &self.items {
            sum = sum.saturating_add(t.memory());
        }
        sum
    }

    /// The same elements, in memory of their own.
    #[cycle(copy)]
    pub fn try_clone(&self, alloc: Global) -> Result<Terms, AllocError>
        ensures { IfOk result (λ ts. ts ≡ self.now) }
    {
        let mut items = Vec::with_capacity(alloc, self.items.len())?;
        for t in &self.items {
            items.push(t.try_clone(alloc)?)?;
        }
        Ok(Terms { items })
    }
}

impl Pairs {
    /// These pairs in this order, without taking memory.
    pub fn from_vec(pairs: Vec<(Term, Term)>) -> Pairs
        ensures { result ≡ pairs_of pairs.items }
    {
        Pairs { pairs }
    }

    /// The pairs, given back without taking memory.
    pub fn into_vec(self) -> Vec<(Term, Term)>
        ensures { pairs_of result.items ≡ self }
    {
        self.pairs
    }

    /// The pairs of key and value, in the order of their keys.
    #[tactic(auto, using(crate::proofs::Lists::count_pairs))]
    pub fn as_slice(&self) -> &[(Term, Term)]
        ensures items { pairs_of result.now ≡ self.now }
        ensures len { length result.now ≡ pair_count self.now }
    {
        self.pairs.as_slice()
    }

    #[cycle(depth)]
    fn deepest(&self) -> u64
        ensures { result ≡ min (pair_depths self.now) u64.MAX }
    {
        let mut most = 0;
        for p in &self.pairs {
            most = most.max(p.0.depth()).max(p.1.depth());
        }
        most
    }

    #[cycle(memory)]
    fn memory(&self) -> u64
        ensures { result ≡ min (pair_memories self.now) u64.MAX }
    {
        let mut sum: u64 = 0;
        for p in &self.pairs {
            sum = sum
                .saturating_add(p.0.memory())
                .saturating_add(p.1.memory());
        }
        sum
    }

    /// The same pairs, in memory of their own.
    #[cycle(copy)]
    pub fn try_clone(&self, alloc: Global) -> Result<Pairs, AllocError>
        ensures { IfOk result (λ ps. ps ≡ self.now) }
    {
        let mut pairs = Vec::with_capacity(alloc, self.pairs.len())?;
        for p in &self.pairs {
            let key = p.0.try_clone(alloc)?;
            let value = p.1.try_clone(alloc)?;
            pairs.push((key, value))?;
        }
        Ok(Pairs { pairs })
    }
}
