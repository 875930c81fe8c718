//! The keys of a table and those that a transaction touched, in one walk in the order of the keys, without memory.

ghost use Rattle.std.specs.Prelude.{◌≡◌, []};
ghost use Rattle.std.specs.Option.{option_copied};
ghost use Rattle.tab_term.specs.Order.{term_cmp};
ghost use Rattle.tab_map.specs.Entries.{Ascends};
ghost use Rattle.tab_map.specs.KeyList.{KeysAscend};
ghost use Rattle.tab_lists.specs.ByKey.{merged, at_keys};
ghost use Rattle.tab_lists.specs.Conditions.{AsksFor};
ghost use Rattle.tab_lists.specs.Left.{left_of};
ghost use Rattle.tab_lists.specs.Lists.{Gives, GivesChosen, GivesFilled, near_of};

use crate::condition::Condition;
use crate::near::first_given;
use crate::passed::{last_number, next_candidate};
use std::cmp::Ordering;
use std::marker::Model;
use tab_map::{Iter, Keys, Map};
use tab_records::Records;
use tab_term::{LastNumber, Term};

/// The committed entries that a walk has not come to, seen as their list. The first of them can be looked at.
#[derive(Drop)]
pub struct Committed<'a> {
    next: Option<(&'a Term, &'a Records)>,
    left: Left<'a>,
}

/// A walk over a table's entries: over all of them, or over those at some keys.
#[derive(Drop)]
pub enum Left<'a> {
    All(Iter<'a, Term, Records>),
    At(Picked<'a>),
}

/// The entries of a map at keys that are left.
#[derive(Drop)]
pub struct Picked<'a> {
    keys: Keys<'a, Term>,
    entries: &'a Map<Term, Records>,
}

impl<'a> Model for Committed<'a> {
    ghost use Rattle.std.specs.Prelude.{List};
    ghost use Rattle.std.specs.Coded.{codes};
    ghost use Rattle.tab_term.specs.Code.{term_code, terms_code, pairs_code};
    ghost use Rattle.tab_lists.specs.ByKey.{Entry};
    ghost use Rattle.tab_lists.specs.Left.{ahead, left_of};

    ghost Value = { List Entry };

    ghost coded = { Prim.hlevel (codes, term_code, terms_code, pairs_code) };

    ghost view = { λ a. ahead a.next (left_of a.left) };
}

impl<'a> Left<'a> {
    fn take(&mut self) -> Option<(&'a Term, &'a Records)>
        ensures { Gives (left_of self.old) result (left_of self.new) }
    {
        match self {
            Left::All(entries) => next_of(entries),
            Left::At(entries) => entries.take(),
        }
    }
}

fn next_of<'a>(entries: &mut Iter<'a, Term, Records>) -> Option<(&'a Term, &'a Records)>
    ensures { Gives entries.old result entries.new }
{
    let (key, records) = entries.next()?.pair();
    Some((key, records))
}

// The next key of these at which records stand.
#[inline(never)]
fn next_filled<'a>(entries: &mut Iter<'a, Term, Records>) -> Option<&'a Term>
    ensures { GivesFilled entries.old result entries.new }
{
    while let Some(entry) = entries.next() {
        let (key, records) = entry.pair();
        if !records.is_empty() {
            return Some(key);
        }
    }
    None
}

// The first record that a walk gives of these entries.
fn next_of_table<'a>(
    entries: &mut Iter<'a, Term, Records>,
    near: &mut Option<tab_records::Iter<'a>>,
    condition: Option<&Condition>,
) -> Option<&'a Term>
    requires { near_of near.old ≡ [] }
    ensures { GivesChosen (option_copied condition.entry) entries.old result near.new entries.new }
{
    if let Some(last) = last_number(condition) {
        return next_by_number(entries, near, condition, &last);
    }
    while let Some(entry) = entries.next() {
        if let Some(first) = first_given(near, &entry.pair().1, condition) {
            return Some(first);
        }
    }
    None
}

// The same where the condition is a pattern that ends in this number.
fn next_by_number<'a>(
    entries: &mut Iter<'a, Term, Records>,
    near: &mut Option<tab_records::Iter<'a>>,
    condition: Option<&Condition>,
    last: &LastNumber<'_>,
) -> Option<&'a Term>
    requires near { near_of near.old ≡ [] }
    requires asks { AsksFor (option_copied condition) last.now }
    ensures { GivesChosen (option_copied condition.entry) entries.old result near.new entries.new }
{
    while let Some(entry) = next_candidate(entries, last) {
        if let Some(first) = first_given(near, &entry.pair().1, condition) {
            return Some(first);
        }
    }
    None
}

impl<'a> Picked<'a> {
    fn take(&mut self) -> Option<(&'a Term, &'a Records)>
        ensures { Gives (at_keys self.old.keys self.old.entries.now) result
            (at_keys self.new.keys self.new.entries.now) }
    {
        while let Some(key) = self.keys.next() {
            if let Some(records) = self.entries.get(key) {
                return Some((key, records));
            }
        }
        None
    }
}

impl<'a> Committed<'a> {
    fn new(mut left: Left<'a>) -> Committed<'a>
        ensures { result ≡ left_of left.entry }
    {
        let next = left.take();
        Committed { next, left }
    }

    fn take(&mut self) -> Option<(&'a Term, &'a Records)>
        ensures { Gives self.old result self.new }
    {
        let first = self.next?;
        self.next = self.left.take();
        Some(first)
    }
}

/// A transaction's own entries and the table's, seen as one list in the order of the keys.
#[derive(Drop)]
pub struct Union<'a> {
    own: Iter<'a, Term, Records>,
    committed: Committed<'a>,
}

impl<'a> Model for Union<'a> {
    ghost use Rattle.std.specs.Prelude.{List};
    ghost use Rattle.std.specs.Coded.{codes};
    ghost use Rattle.tab_term.specs.Code.{term_code, terms_code, pairs_code};
    ghost use Rattle.tab_lists.specs.ByKey.{Entry};

    ghost Value = { List Entry };

    ghost coded = { Prim.hlevel (codes, term_code, terms_code, pairs_code) };

    ghost use Rattle.tab_term.specs.Order.{term_cmp};
    ghost use Rattle.tab_map.specs.Entries.{Ascends};
    ghost use Rattle.tab_lists.specs.ByKey.{merged};

    ghost view = { λ a. merged a.own a.committed };

    ghost invariant = { λ a. Ascends term_cmp a.own × Ascends term_cmp a.committed };
}

impl<'a> Union<'a> {
    // Inlined, it would double the price of a step over a table's entries alone, which would save registers for it.
    #[inline(never)]
    fn take(&mut self) -> Option<(&'a Term, &'a Records)>
        ensures { Gives self.old result self.new }
    {
        let Some((key, _)) = self.committed.next else {
            return next_of(&mut self.own);
        };
        let Some(own) = self.own.peek() else {
            return self.committed.take();
        };
        match key.cmp(&own.pair().0) {
            Ordering::Less => self.committed.take(),
            Ordering::Equal => {
                let _replaced = self.committed.take();
                next_of(&mut self.own)
            }
            Ordering::Greater => next_of(&mut self.own),
        }
    }
}

/// The keys of a table as a transaction sees it, each with its records, seen as the list of those that are left. A key
/// whose records the transaction took out is there, with none.
#[derive(Drop)]
pub struct Merged<'a> {
    sources: Sources<'a>,
}

/// Whose entries are walked over.
#[derive(Drop)]
pub enum Sources<'a> {
    /// The table's alone. Mostly the transaction touched none of its keys, and then nothing is compared or looked at ahead.
    Table(Left<'a>),
    /// Those of both.
    Both(Union<'a>),
}

impl<'a> Model for Merged<'a> {
    ghost use Rattle.std.specs.Prelude.{List};
    ghost use Rattle.std.specs.Coded.{codes};
    ghost use Rattle.tab_term.specs.Code.{term_code, terms_code, pairs_code};
    ghost use Rattle.tab_lists.specs.ByKey.{Entry};
    ghost use Rattle.tab_lists.specs.Sources.{entries_left};

    ghost Value = { List Entry };

    ghost coded = { Prim.hlevel (codes, term_code, terms_code, pairs_code) };

    ghost view = { λ a. entries_left a.sources };
}

impl<'a> Merged<'a> {
    /// A transaction's own keys among those of the table.
    pub fn over_all(own: Iter<'a, Term, Records>, committed: Iter<'a, Term, Records>) -> Merged<'a>
        requires own { Ascends term_cmp own }
        requires committed { Ascends term_cmp committed }
        ensures { result ≡ merged own.entry committed.entry }
    {
        Merged::over(own, Left::All(committed))
    }

    /// A transaction's own keys among those of the keys that the table has.
    pub fn over_keys(
        own: Iter<'a, Term, Records>,
        keys: Keys<'a, Term>,
        committed: &'a Map<Term, Records>,
    ) -> Merged<'a>
        requires own { Ascends term_cmp own }
        requires keys { KeysAscend term_cmp keys }
        ensures { result ≡ merged own.entry (at_keys keys.entry committed.now) }
    {
        let committed = Picked {
            keys,
            entries: committed,
        };
        Merged::over(own, Left::At(committed))
    }

    fn over(own: Iter<'a, Term, Records>, committed: Left<'a>) -> Merged<'a>
        requires own { Ascends term_cmp own }
        requires committed { Ascends term_cmp (left_of committed) }
        ensures { result ≡ merged own.entry (left_of committed.entry) }
    {
        if own.peek().is_none() {
            return Merged {
                sources: Sources::Table(committed),
            };
        }
        let committed = Committed::new(committed);
        Merged {
            sources: Sources::Both(Union { own, committed }),
        }
    }

    /// The first record that a walk gives of those that are left. What else its key has stays near.
    #[inline(never)]
    pub fn take_given(
        &mut self,
        near: &mut Option<tab_records::Iter<'a>>,
        condition: Option<&Condition>,
    ) -> Option<&'a Term>
        requires { near_of near.old ≡ [] }
        ensures { GivesChosen (option_copied condition.entry) self.old result near.new self.new }
    {
        match &mut self.sources {
            Sources::Table(Left::All(entries)) => next_of_table(entries, near, condition),
            _ => self.take_given_of_others(near, condition),
        }
    }

    // The same of entries that are found by their keys, or merged.
    fn take_given_of_others(
        &mut self,
        near: &mut Option<tab_records::Iter<'a>>,
        condition: Option<&Condition>,
    ) -> Option<&'a Term>
        requires { near_of near.old ≡ [] }
        ensures { GivesChosen (option_copied condition.entry) self.old result near.new self.new }
    {
        while let Some((_, records)) = self.take() {
            if let Some(first) = first_given(near, records, condition) {
                return Some(first);
            }
        }
        None
    }

    /// The next key at which records stand.
    pub fn take_filled(&mut self) -> Option<&'a Term>
        ensures { GivesFilled self.old result self.new }
    {
        match &mut self.sources {
            Sources::Table(Left::All(entries)) => next_filled(entries),
            _ => self.take_filled_of_others(),
        }
    }

    // The same of entries that are found by their keys, or merged.
    #[inline(never)]
    fn take_filled_of_others(&mut self) -> Option<&'a Term>
        ensures { GivesFilled self.old result self.new }
    {
        while let Some((key, records)) = self.take() {
            if !records.is_empty() {
                return Some(key);
            }
        }
        None
    }

    /// The key that comes next, with its records.
    pub fn take(&mut self) -> Option<(&'a Term, &'a Records)>
        ensures { Gives self.old result self.new }
    {
        // The arms of a table alone repeat those of `Left::take`, which saves each of its steps a call.
        match &mut self.sources {
            Sources::Table(Left::All(entries)) => next_of(entries),
            Sources::Table(Left::At(entries)) => entries.take(),
            Sources::Both(entries) => entries.take(),
        }
    }
}
