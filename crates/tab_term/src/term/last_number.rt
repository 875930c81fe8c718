//! A test that tells of most records that they do not fit a pattern.

ghost use Rattle.std.specs.Prelude.{◌≡◌, IfSome, IsTrue, IsFalse};
ghost use Rattle.tab_term.specs.Pattern.{matches};
ghost use Rattle.tab_term.specs.View.{term};

use crate::term::Term;
use std::marker::Model;

/// A pattern of tuples whose last element is a number, seen as that pattern.
#[derive(Drop)]
pub struct LastNumber<'a> {
    elements: &'a [Term],
    place: usize,
    number: i128,
}

impl<'a> Model for LastNumber<'a> {
    ghost use Rattle.tab_term.specs.Data.{PlainTerm, tuple};
    ghost use Rattle.tab_term.specs.Code.{term_code};
    ghost use Rattle.tab_term.specs.View.{terms};

    ghost Value = { PlainTerm };

    ghost coded = { term_code };

    ghost view = { λ a. tuple (terms a.elements.now) };

    ghost use Rattle.std.specs.Prelude.{◌≡◌, ◌<◌, length, get_or};
    ghost use Rattle.tab_term.specs.declared.term.Term.TheVariants.{Int};

    ghost invariant = { λ a. (a.place < length a.elements.now)
        × (Int a.number ≡ get_or a.elements.now a.place (Int a.number)) };
}

impl<'a> LastNumber<'a> {
    /// The pattern, where it is such a one.
    pub fn of(pattern: &'a Term) -> Option<LastNumber<'a>>
        ensures { IfSome result (λ last. last ≡ term pattern.now) }
    {
        let Term::Tuple(elements) = pattern else {
            return None;
        };
        let elements = elements.as_slice();
        match elements {
            [.., Term::Int(number)] => Some(LastNumber {
                elements,
                place: elements.len() - 1,
                number: *number,
            }),
            _ => None,
        }
    }

    /// Whether the term is a tuple that has another number at the same place. A walk asks it of each record, so it stands in the
    /// walk's loop.
    #[inline(always)]
    pub fn differs_in(&self, subject: &Term) -> bool
        ensures { IsTrue result → IsFalse (matches self.now (term subject.now)) }
    {
        let Term::Tuple(elements) = subject else {
            return false;
        };
        match elements.as_slice().get(self.place) {
            Some(Term::Int(number)) => *number != self.number,
            _ => false,
        }
    }
}
