//! The levels that the driver has open.

ghost use Rattle.std.specs.Prelude.{◌≡◌, ◌∷◌, [], OnOk, OnErr, length, suc};
ghost use Rattle.tab_term.specs.Data.{none};
ghost use Rattle.tab_lists.specs.Answers.{answer_term};
ghost use Rattle.tab_oneshot.specs.Attempts.{told, innermost};
ghost use Rattle.tab_oneshot.specs.Parts.{Leaves};

use std::alloc::{AllocError, Global};
use std::marker::Model;
use std::mem;
use tab_lists::{Answer, Answers};

/// The answers in the open levels: one level is always open. Contracts see them innermost first.
pub struct DriverLevels {
    inner: Answers,
    outer: Vec<Answers>,
}

impl Model for DriverLevels {
    ghost use Rattle.std.specs.Prelude.{List, ◌∷◌, reverse};
    ghost use Rattle.std.specs.Coded.{codes};
    ghost use Rattle.tab_term.specs.Code.{terms_code};
    ghost use Rattle.tab_term.specs.Data.{PlainTerms};

    ghost Value = { List PlainTerms };

    ghost coded = { Prim.hlevel (codes, terms_code) };

    ghost view = { λ a. a.inner ∷ reverse a.outer.items };
}

impl Drop for DriverLevels {
    fn drop(self) {
        let DriverLevels { inner, outer } = self;
        drop(inner);
        drop(outer);
    }
}

impl DriverLevels {
    /// Only level 1, with no answers.
    pub fn new(alloc: Global) -> DriverLevels
        ensures { result ≡ none ∷ [] }
    {
        DriverLevels {
            inner: Answers::new(alloc),
            outer: Vec::new(alloc),
        }
    }

    /// Goes back to only level 1, with no answers.
    pub fn clear(&mut self)
        ensures { self.new ≡ none ∷ [] }
    {
        self.outer.truncate(1);
        if let Some(first) = self.outer.pop() {
            self.inner = first;
        }
        self.inner.clear();
    }

    /// The number of levels around the innermost.
    pub fn around(&self) -> usize
        ensures { length self.now ≡ suc result }
    {
        self.outer.len()
    }

    /// The place of one answer more in the innermost.
    pub fn reserve(&mut self) -> Result<(), AllocError>
        ensures { self.new ≡ self.old }
    {
        self.inner.reserve()
    }

    /// One answer more, of the innermost level.
    #[tactic(auto, using(crate::proofs::Telling::one_more_last))]
    pub fn put(&mut self, answer: Answer) -> Result<(), AllocError>
        ensures { OnOk result (self.new ≡ told (answer_term answer) self.old) }
    {
        self.inner.push(answer)
    }

    /// A level more, with the place of its own answer in the level around it.
    pub fn begin(&mut self, alloc: Global) -> Result<(), AllocError>
        ensures ok { OnOk result (self.new ≡ none ∷ self.old) }
        ensures err { OnErr result (self.new ≡ self.old) }
    {
        self.inner.reserve()?;
        self.outer.reserve(1)?;
        let around = mem::replace(&mut self.inner, Answers::new(alloc));
        self.outer.push_reserved(around);
        Ok(())
    }

    /// Ends the innermost, and returns its answers; None if only level 1 is open.
    pub fn leave(&mut self) -> Option<Answers>
        ensures { Leaves self.old result self.new }
    {
        match self.outer.pop() {
            Some(around) => Some(mem::replace(&mut self.inner, around)),
            None => None,
        }
    }

    /// The answers of the innermost.
    pub fn take(&mut self, alloc: Global) -> Answers
        ensures { result ≡ innermost self.old }
    {
        mem::replace(&mut self.inner, Answers::new(alloc))
    }
}
