//! A walk over the records of a key, which takes no memory.

ghost use Rattle.std.specs.Prelude.{◌≡◌};
ghost use Rattle.std.specs.Iterator.{YieldsFirstBy, item_count};
ghost use Rattle.tab_term.specs.Data.{terms_list};
ghost use Rattle.tab_term.specs.View.{term, terms};
ghost use Rattle.tab_records.specs.Numbers.{records_in};

use std::iter::FusedIterator;
use std::marker::Model;
use tab_map::{Entry, Map};
use tab_term::Term;

/// Records in their order, seen as the list of those that are left.
#[derive(Drop)]
pub struct Iter<'a> {
    left: Left<'a>,
}

/// The records that are left.
#[derive(Drop)]
pub enum Left<'a> {
    Slice(&'a [Term]),
    Numbered(tab_map::Iter<'a, u64, Entry<Term, u64>>),
}

impl<'a> Model for Iter<'a> {
    ghost use Rattle.std.specs.Prelude.{List};
    ghost use Rattle.std.specs.Coded.{codes};
    ghost use Rattle.tab_term.specs.Code.{term_code};
    ghost use Rattle.tab_term.specs.Data.{PlainTerm};
    ghost use Rattle.tab_records.specs.Forms.{records_left};

    ghost Value = { List PlainTerm };

    ghost coded = { Prim.hlevel (codes, term_code) };

    ghost view = { λ a. records_left a.left };
}

impl<'a> Iter<'a> {
    /// The terms of a slice.
    pub fn over(near: &'a [Term]) -> Iter<'a>
        ensures { result ≡ terms_list (terms near.now) }
    {
        Iter {
            left: Left::Slice(near),
        }
    }

    pub(crate) fn over_numbered(records: &'a Map<u64, Entry<Term, u64>>) -> Iter<'a>
        ensures { result ≡ records_in records.now }
    {
        Iter {
            left: Left::Numbered(records.iter()),
        }
    }
}

impl<'a> Iterator for Iter<'a> {
    type Item = &'a Term;

    ghost next_gives = { YieldsFirstBy (λ x. term x.now) (λ left. left) };

    ghost remaining = { item_count (λ left. left) };

    fn next(&mut self) -> Option<&'a Term> {
        match &mut self.left {
            Left::Slice(terms) => {
                let (first, rest) = terms.split_first()?;
                *terms = rest;
                Some(first)
            }
            Left::Numbered(entries) => Some(&entries.next()?.pair().1.pair().0),
        }
    }
}

impl<'a> FusedIterator for Iter<'a> {}
