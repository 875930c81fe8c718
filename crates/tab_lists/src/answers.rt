//! The answers of a transaction, which share their records with the tables.

ghost use Rattle.std.specs.Prelude.{◌≡◌, ◌++◌, ◌∷◌, [], OnOk, length};
ghost use Rattle.tab_term.specs.Data.{none, count, plain_terms, terms_list};
ghost use Rattle.tab_lists.specs.Answers.{answer_term, answers};

use crate::shared_terms::SharedTerms;
use std::alloc::{AllocError, Global};
use std::marker::Model;
use tab_term::Term;

/// An answer among those of a transaction.
#[cycle(answer)]
pub enum Answer {
    /// `ok`.
    Done,
    /// A list of records, or of keys.
    Found(SharedTerms),
    /// `{aborted, Reason}`.
    Aborted(Term),
    /// `{atomic, Answers}`, of a child that is committed.
    Atomic(Answers),
}

// A derived drop would be expanded, variant by variant, at each exit of each function that holds
// an answer.
impl Drop for Answer {
    #[cycle(answer)]
    fn drop(self) {
        match self {
            Answer::Done => {}
            Answer::Found(rows) => drop(rows),
            Answer::Aborted(reason) => drop(reason),
            Answer::Atomic(inner) => drop(inner),
        }
    }
}

/// The answers of a transaction, in their order. Contracts see the terms that they are.
#[cycle(answer)]
#[derive(Drop)]
pub struct Answers {
    items: Vec<Answer>,
}

impl Model for Answers {
    ghost use Rattle.tab_term.specs.Data.{PlainTerms};
    ghost use Rattle.tab_term.specs.Code.{terms_code};

    ghost Value = { PlainTerms };

    ghost coded = { terms_code };

    ghost use Rattle.tab_lists.specs.Answers.{answers};

    ghost view = { λ a. answers a.items.items };

    ghost use Rattle.tab_term.specs.Data.{nodes};

    ghost size = { nodes };

    ghost use Rattle.std.proofs.Common.{arith};
    ghost use Rattle.tab_lists.specs.AnswersFall.{all_fall};

    ghost size_decreases = { λ a h. omega (arith, all_fall a.items.items) };
}

impl Answers {
    /// No answers. Takes no memory.
    pub fn new(alloc: Global) -> Answers
        ensures { result ≡ none }
    {
        Answers {
            items: Vec::new(alloc),
        }
    }

    /// The place of one answer more.
    pub fn reserve(&mut self) -> Result<(), AllocError>
        ensures { self.new ≡ self.old }
    {
        self.items.reserve(1)?;
        Ok(())
    }

    /// One answer more, behind the others. Takes no memory where its place is reserved.
    #[tactic(auto, using(crate::proofs::AnswersLemmas::answers_push))]
    pub fn push(&mut self, answer: Answer) -> Result<(), AllocError>
        ensures { OnOk result
            (self.new ≡ plain_terms (terms_list self.old ++ answer_term answer ∷ [])) }
    {
        self.items.push(answer)?;
        Ok(())
    }

    /// No answers are left. Their places are.
    pub fn clear(&mut self)
        ensures { self.new ≡ none }
    {
        self.items.clear();
    }

    /// The answers, in their order.
    #[tactic(auto, using(crate::proofs::AnswersLemmas::count_answers))]
    pub fn as_slice(&self) -> &[Answer]
        ensures items { answers result.now ≡ self.now }
        ensures len { length result.now ≡ count self.now }
    {
        self.items.as_slice()
    }
}
