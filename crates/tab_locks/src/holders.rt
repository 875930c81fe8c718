ghost use Rattle.std.specs.Prelude.{◌≡◌, [], OnOk, OnErr, true};
ghost use Rattle.std.specs.List.{list_any, cons_option};
ghost use Rattle.tab_locks.specs.Questions.{fits};
ghost use Rattle.tab_locks.specs.Members.{HasMore, Drops};
ghost use Rattle.tab_locks.specs.Spots.{is_holding};

use crate::question::Question;
use std::alloc::{AllocError, Global};
use std::marker::Model;

/// The owners of locks on one part of a table, by their ages, each with whether it holds for writing. Mostly there is
/// one, which is stored directly and takes no memory, and no more than two for each session.
#[derive(Drop)]
pub(crate) struct Holders {
    first: Option<(u64, bool)>,
    others: Vec<(u64, bool)>,
}

impl Model for Holders {
    ghost use Rattle.std.specs.Prelude.{List};
    ghost use Rattle.std.specs.List.{cons_option};
    ghost use Rattle.tab_locks.specs.Spots.{Holding};

    ghost Value = { List Holding };

    ghost view = { λ a. cons_option a.first a.others.items };
}

impl Holders {
    /// No holder. It takes no memory.
    pub fn new(alloc: Global) -> Holders
        ensures { result ≡ [] }
    {
        Holders {
            first: None,
            others: Vec::new(alloc),
        }
    }

    /// One holder. It takes no memory.
    pub fn only(alloc: Global, age: u64, write: bool) -> Holders
        ensures { HasMore (age, write) [] result }
    {
        Holders {
            first: Some((age, write)),
            others: Vec::new(alloc),
        }
    }

    /// Returns whether anyone holds a lock.
    pub fn is_occupied(&self) -> bool
        ensures { result ≡ list_any (λ _. true) self.now }
    {
        self.first.is_some() || is_filled(&self.others)
    }

    /// Returns whether a holder is in the question's relation to its owner.
    pub fn any(&self, question: Question) -> bool
        ensures { result
            ≡ list_any (fits question.relation (question.age, question.write)) self.now }
    {
        match self.first {
            Some((age, write)) => question.fits(age, write) || any_of(&self.others, question),
            None => any_of(&self.others, question),
        }
    }

    fn has(&self, age: u64, write: bool) -> bool
        ensures { result ≡ list_any (is_holding (age, write)) self.now }
    {
        match self.first {
            Some(first) => is_it(first, age, write) || is_among(&self.others, age, write),
            None => is_among(&self.others, age, write),
        }
    }

    /// The transaction of this age holds it too.
    pub fn add(&mut self, age: u64, write: bool) -> Result<(), AllocError>
        ensures ok { OnOk result (HasMore (age, write) self.old self.new) }
        ensures err { OnErr result (self.new ≡ self.old) }
    {
        if self.has(age, write) {
            return Ok(());
        }
        if self.first.is_none() {
            self.first = Some((age, write));
            return Ok(());
        }
        self.others.push((age, write))?;
        Ok(())
    }

    /// This one holds it no more.
    pub fn remove(&mut self, age: u64, write: bool)
        ensures { Drops (is_holding (age, write)) self.old self.new }
    {
        self.first = unless_it(self.first, age, write);
        self.others.retain(|holding| !is_it(*holding, age, write));
    }
}

fn unless_it(first: Option<(u64, bool)>, age: u64, write: bool) -> Option<(u64, bool)>
    ensures { Drops (is_holding (age, write)) (cons_option first []) (cons_option result []) }
{
    let holding = first?;
    if is_it(holding, age, write) {
        return None;
    }
    first
}

fn is_it(holding: (u64, bool), age: u64, write: bool) -> bool
    ensures { result ≡ is_holding (age, write) holding }
{
    holding.0 == age && holding.1 == write
}

fn is_among(held: &[(u64, bool)], age: u64, write: bool) -> bool
    ensures { result ≡ list_any (is_holding (age, write)) held.now }
{
    held.iter().any(|holding| is_it(*holding, age, write))
}

fn any_of(held: &[(u64, bool)], question: Question) -> bool
    ensures { result ≡ list_any (fits question.relation (question.age, question.write)) held.now }
{
    held.iter()
        .any(|holding| question.fits(holding.0, holding.1))
}

fn is_filled(held: &[(u64, bool)]) -> bool
    ensures { result ≡ list_any (λ _. true) held.now }
{
    !held.is_empty()
}
