//! A walk over a list of terms, which takes no memory.

ghost use Rattle.std.specs.Prelude.{◌≡◌, [], ◌∷◌, ◌++◌, MatchOption};
ghost use Rattle.std.specs.Iterator.{YieldsFirstBy, item_count};
ghost use Rattle.std.specs.Option.{option_copied};
ghost use Rattle.tab_term.specs.Data.{terms_list};
ghost use Rattle.tab_term.specs.View.{term, terms};
ghost use Rattle.tab_lists.specs.ByKey.{filled_keys, joined};
ghost use Rattle.tab_lists.specs.Conditions.{chosen};
ghost use Rattle.tab_lists.specs.Lists.{found_by, near_of, rest_of, records_left};
ghost use Rattle.tab_lists.specs.Snapshots.{records_in};

use crate::condition::Condition;
use crate::merged::Merged;
use crate::near::next_near;
use crate::query::{Query, Scope};
use std::iter::FusedIterator;
use std::marker::Model;
use tab_term::Term;

/// The terms of a list in their order, seen as the list of those that are left.
#[derive(Drop)]
pub struct Iter<'a> {
    walk: Walk<'a>,
}

/// What is walked over.
#[derive(Drop)]
pub enum Walk<'a> {
    Keys(Merged<'a>),
    Records(RecordWalk<'a>),
}

/// A walk over records.
#[derive(Drop)]
pub struct RecordWalk<'a> {
    // What is left of the records that were come to last. A walk over a table gives a key's one record at once, and never has
    // it near; a walk over one key has it near.
    near: Option<tab_records::Iter<'a>>,
    // Those behind them.
    rest: Option<Merged<'a>>,
    // Only what meets it is given.
    condition: Option<&'a Condition>,
}

impl<'a> Model for Iter<'a> {
    ghost use Rattle.std.specs.Prelude.{List};
    ghost use Rattle.tab_term.specs.Code.{term_code};
    ghost use Rattle.std.specs.Coded.{codes};
    ghost use Rattle.tab_term.specs.Data.{PlainTerm};
    ghost use Rattle.tab_lists.specs.Lists.{left_to};

    ghost Value = { List PlainTerm };

    ghost coded = { Prim.hlevel (codes, term_code) };

    ghost view = { λ a. left_to a.walk };
}

impl<'a> Iter<'a> {
    pub(crate) fn over(near: &'a [Term]) -> Iter<'a>
        ensures { result ≡ terms_list (terms near.now) }
    {
        Iter::over_records_of(tab_records::Iter::over(near))
    }

    pub(crate) fn over_records_of(near: tab_records::Iter<'a>) -> Iter<'a>
        ensures { result ≡ near.entry }
    {
        Iter {
            walk: Walk::Records(RecordWalk {
                near: Some(near),
                rest: None,
                condition: None,
            }),
        }
    }

    pub(crate) fn over_keys(entries: Merged<'a>) -> Iter<'a>
        ensures { result ≡ filled_keys entries.entry }
    {
        Iter {
            walk: Walk::Keys(entries),
        }
    }

    pub(crate) fn over_records(entries: Merged<'a>) -> Iter<'a>
        ensures { result ≡ joined entries.entry }
    {
        Iter {
            walk: Walk::Records(RecordWalk {
                near: None,
                rest: Some(entries),
                condition: None,
            }),
        }
    }

    pub(crate) fn over_query(query: &'a Query) -> Iter<'a>
        ensures { result ≡ found_by query.now }
    {
        let (near, rest) = looked_at(&query.scope);
        Iter {
            walk: Walk::Records(RecordWalk {
                near,
                rest,
                condition: Some(&query.condition),
            }),
        }
    }
}

// The records of a query's scope.
fn looked_at(scope: &Scope) -> (Option<tab_records::Iter<'_>>, Option<Merged<'_>>)
    ensures { near_of result.0 ++ rest_of result.1 ≡ records_in scope.now }
{
    match scope {
        Scope::Key(entry) => (Some(entry.pair().1.iter()), None),
        Scope::All(snapshot) => (None, Some(snapshot.walk())),
        Scope::Keys(at) => (None, Some(at.snapshot.walk_at(&at.keys))),
    }
}

// The first record that a walk gives of those behind what is near.
fn next_given<'a>(
    near: &mut Option<tab_records::Iter<'a>>,
    rest: &mut Option<Merged<'a>>,
    condition: Option<&Condition>,
) -> Option<&'a Term>
    requires { near_of near.old ≡ [] }
    ensures { MatchOption result
        ((chosen (option_copied condition.entry) (rest_of rest.old) ≡ [])
        × ((near_of near.new ≡ []) × (rest_of rest.new ≡ [])))
        (λ first. chosen (option_copied condition.entry) (rest_of rest.old)
        ≡ term first.now
        ∷ chosen (option_copied condition.entry) (near_of near.new ++ rest_of rest.new)) }
{
    rest.as_mut()?.take_given(near, condition)
}

impl<'a> RecordWalk<'a> {
    fn take(&mut self) -> Option<&'a Term>
        ensures { MatchOption result ((records_left self.old ≡ []) × (records_left self.new ≡ []))
            (λ first. records_left self.old ≡ term first.now ∷ records_left self.new) }
    {
        if let Some(first) = next_near(&mut self.near, self.condition) {
            return Some(first);
        }
        next_given(&mut self.near, &mut self.rest, self.condition)
    }
}

impl<'a> Iterator for Iter<'a> {
    type Item = &'a Term;

    ghost next_gives = { YieldsFirstBy (λ x. term x.now) (λ left. left) };

    ghost remaining = { item_count (λ left. left) };

    fn next(&mut self) -> Option<&'a Term> {
        match &mut self.walk {
            Walk::Keys(entries) => entries.take_filled(),
            Walk::Records(records) => records.take(),
        }
    }
}

impl<'a> FusedIterator for Iter<'a> {}
