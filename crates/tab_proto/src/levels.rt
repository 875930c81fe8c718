//! The lists of a one-shot's transactions, from its parts.

ghost use Rattle.std.specs.Prelude.{◌≡◌, [], ◌∷◌, IfOk, OnOk, List};
ghost use Rattle.tab_term.specs.Data.{none, one_more};
ghost use Rattle.tab_term.specs.View.{term};
ghost use Rattle.tab_model.specs.declared.data.Part.{Part as PartOf};
ghost use Rattle.tab_proto.specs.Commands.{with_first, enclosed, levels, outermost};

use crate::building::worded;
use crate::command_terms::operation_term;
use std::alloc::{AllocError, Global};
use std::marker::Model;
use tab_model::Part;
use tab_term::{Term, Terms};

/// A transaction's operations, kept from the last to the first. Contracts see them in order.
#[derive(Drop)]
struct OpenTransaction {
    items: Vec<Term>,
}

impl Model for OpenTransaction {
    ghost use Rattle.std.specs.Prelude.{reverse};
    ghost use Rattle.tab_term.specs.Code.{terms_code};
    ghost use Rattle.tab_term.specs.Data.{PlainTerms};
    ghost use Rattle.tab_term.specs.View.{terms};

    ghost Value = { PlainTerms };

    ghost coded = { Prim.hlevel terms_code };

    ghost view = { λ a. terms (reverse a.items.items) };
}

impl OpenTransaction {
    fn new(alloc: Global) -> OpenTransaction
        ensures { result ≡ none }
    {
        OpenTransaction {
            items: Vec::new(alloc),
        }
    }

    fn put_first(&mut self, operation: Term) -> Result<(), AllocError>
        ensures { OnOk result (self.new ≡ one_more (term operation) self.old) }
    {
        self.items.push(operation)?;
        Ok(())
    }

    fn into_terms(self) -> Terms
        ensures { result ≡ self }
    {
        let OpenTransaction { mut items } = self;
        items.reverse();
        Terms::from_vec(items)
    }
}

/// The open transactions, outermost first. Contracts see them innermost first.
#[derive(Drop)]
struct OpenTransactions {
    open: Vec<OpenTransaction>,
}

impl Model for OpenTransactions {
    ghost use Rattle.std.specs.Prelude.{List, reverse};
    ghost use Rattle.std.specs.Coded.{codes};
    ghost use Rattle.tab_term.specs.Code.{terms_code};
    ghost use Rattle.tab_term.specs.Data.{PlainTerms};

    ghost Value = { List PlainTerms };

    ghost coded = { Prim.hlevel (codes, terms_code) };

    ghost view = { λ a. reverse a.open.items };
}

impl OpenTransactions {
    fn new(alloc: Global) -> OpenTransactions
        ensures { result ≡ [] }
    {
        OpenTransactions {
            open: Vec::new(alloc),
        }
    }

    /// Opens one more transaction.
    fn begin(&mut self, level: OpenTransaction) -> Result<(), AllocError>
        ensures { OnOk result (self.new ≡ level ∷ self.old) }
    {
        self.open.push(level)?;
        Ok(())
    }

    /// Puts the operation first in the innermost.
    fn put_first(&mut self, operation: Term) -> Result<(), AllocError>
        ensures { OnOk result (self.new ≡ with_first (term operation) self.old) }
    {
        match self.open.pop() {
            Some(mut level) => {
                level.put_first(operation)?;
                self.begin(level)
            }
            None => Ok(()),
        }
    }

    /// The innermost becomes an operation of the one around it.
    fn enclose(&mut self, alloc: Global) -> Result<(), AllocError>
        ensures { OnOk result (self.new ≡ enclosed self.old) }
    {
        match self.open.pop() {
            Some(level) => {
                let inner = Term::List(level.into_terms());
                self.put_first(worded(alloc, "transaction", inner)?)
            }
            None => Ok(()),
        }
    }

    /// The operations of the outermost.
    fn into_outermost(self, alloc: Global) -> Terms
        ensures { result ≡ outermost self }
    {
        let OpenTransactions { mut open } = self;
        open.truncate(1);
        match open.pop() {
            Some(level) => level.into_terms(),
            None => Terms::from_vec(Vec::new(alloc)),
        }
    }
}

/// The operations of a one-shot of these parts.
pub fn operations_of(alloc: Global, parts: &[Part]) -> Result<Terms, AllocError>
    ensures { IfOk result (λ ts. ts ≡ outermost (levels parts.now)) }
{
    let mut lists = OpenTransactions::new(alloc);
    lists.begin(OpenTransaction::new(alloc))?;
    let mut left = parts.len();
    while left > 0 {
        left -= 1;
        step(alloc, &parts[left], &mut lists)?;
    }
    Ok(lists.into_outermost(alloc))
}

/// One part more before those that the lists are of.
fn step(alloc: Global, part: &Part, lists: &mut OpenTransactions) -> Result<(), AllocError>
    ensures { OnOk result
        ((rest : List PartOf) → lists.old ≡ levels rest → lists.new ≡ levels (part.now ∷ rest)) }
{
    match part {
        Part::Do(operation) => lists.put_first(operation_term(alloc, operation)?),
        Part::Abort(reason) => {
            lists.put_first(worded(alloc, "abort", reason.try_clone(alloc)?)?)
        }
        Part::Open => lists.enclose(alloc),
        Part::Close => lists.begin(OpenTransaction::new(alloc)),
    }
}
