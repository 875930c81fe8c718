//! A transaction of the journal, run again.

ghost use Rattle.std.specs.Prelude.{◌≡◌, IfOk, Some};
ghost use Rattle.std.specs.Bool.{Decides};
ghost use Rattle.tab_model.specs.declared.data.Move.TheVariants as moves_of;
ghost use Rattle.tab_model.specs.Alone.{start as start_of, next, back as back_of};
ghost use Rattle.tab_model.specs.Operations.{answer as answer_of, effect as effect_of};
ghost use Rattle.tab_model.specs.Catalogs.{IsOrderedCatalog};
ghost use Rattle.tab_journal.specs.Audits.{Follows, RunsAs, with_now};

use crate::same::{is_answer, is_atomic_ok, is_tid};
use std::alloc::{AllocError, Global};
use std::collections::VecDeque;
use std::marker::Model;
use std::slice;
use tab_model::{LoggedOperation, LoggedReply, Move};
use tab_tables::{Catalog, Lender};
use tab_txstore::{TxStore, Whole, perform, update_of};

/// A transaction in its midst, on whole versions of the tables, which share what does not change.
struct Midst {
    age: u64,
    now: Catalog,
    // Those that each open level goes back to, innermost first.
    saved: VecDeque<Catalog>,
    base: Catalog,
}

impl Model for Midst {
    ghost use Rattle.std.specs.Coded.{codes};
    ghost use Rattle.tab_term.specs.Code.{term_code};
    ghost use Rattle.tab_model.specs.Alone.{Mid};
    ghost use Rattle.tab_model.specs.Catalogs.{IsOrderedCatalog};
    ghost use Rattle.tab_journal.specs.Audits.{AllOrdered};

    ghost Value = { Mid };

    ghost coded = { Prim.hlevel (codes, term_code) };

    ghost view = { λ a. record { age = a.age; now = a.now; saved = a.saved.items; base = a.base } };

    ghost invariant = { λ a. IsOrderedCatalog a.now × AllOrdered a.saved.items
        × IsOrderedCatalog a.base };
}

// A derived Drop would be expanded, field by field, at each exit of each caller.
impl Drop for Midst {
    fn drop(self) {
        let Midst {
            age: _,
            now,
            saved,
            base,
        } = self;
        drop(now);
        drop(saved);
        drop(base);
    }
}

impl Midst {
    fn start(alloc: Global, tables: &Catalog, age: u64) -> Result<Midst, AllocError>
        requires { IsOrderedCatalog tables.now }
        ensures { IfOk result (λ run. run ≡ start_of tables.now age) }
    {
        Ok(Midst {
            age,
            now: tables.share()?,
            saved: VecDeque::new(alloc),
            base: tables.share()?,
        })
    }

    /// Makes a move. None if its reply is another than this.
    fn follow(
        self,
        alloc: Global,
        step: &Move,
        told: &Option<LoggedReply>,
    ) -> Result<Option<Midst>, AllocError>
        ensures { IfOk result (Follows self step.now told.now) }
    {
        match step {
            Move::Do(operation) => {
                let Some(told) = told else {
                    return Ok(None);
                };
                self.operate(alloc, operation, told)
            }
            Move::Open => {
                if !is_tid(told, self.age) {
                    return Ok(None);
                }
                Ok(Some(self.open()?))
            }
            Move::Close => {
                if !is_atomic_ok(told) {
                    return Ok(None);
                }
                Ok(Some(self.close()))
            }
            Move::Undo => {
                if told.is_some() {
                    return Ok(None);
                }
                Ok(Some(self.back()?))
            }
        }
    }

    fn operate(
        self,
        alloc: Global,
        operation: &LoggedOperation,
        told: &LoggedReply,
    ) -> Result<Option<Midst>, AllocError>
        ensures { IfOk result (Follows self (moves_of.Do operation.now) (Some told.now)) }
    {
        if !is_told(alloc, &self.now, operation, told)? {
            return Ok(None);
        }
        if told.is_failure() {
            return Ok(Some(self.back()?));
        }
        Ok(Some(self.change(alloc, operation)?))
    }

    /// Makes an operation that does not fail.
    fn change(self, alloc: Global, operation: &LoggedOperation) -> Result<Midst, AllocError>
        ensures { IfOk result (λ run. run ≡ with_now self (effect_of self.now operation.now)) }
    {
        let after = effect(alloc, &self.now, operation)?;
        let Midst {
            age,
            now: _,
            saved,
            base,
        } = self;
        Ok(Midst {
            age,
            now: after,
            saved,
            base,
        })
    }

    fn open(self) -> Result<Midst, AllocError>
        ensures { IfOk result (λ run. run ≡ next self moves_of.Open) }
    {
        let Midst {
            age,
            now,
            mut saved,
            base,
        } = self;
        saved.push_front(now.share()?)?;
        Ok(Midst {
            age,
            now,
            saved,
            base,
        })
    }

    fn close(self) -> Midst
        ensures { result ≡ next self moves_of.Close }
    {
        let Midst {
            age,
            now,
            mut saved,
            base,
        } = self;
        drop(saved.pop_front());
        Midst {
            age,
            now,
            saved,
            base,
        }
    }

    /// The innermost level is undone.
    fn back(self) -> Result<Midst, AllocError>
        ensures { IfOk result (λ run. run ≡ back_of self) }
    {
        let Midst {
            age,
            now: _,
            mut saved,
            base,
        } = self;
        let now = match saved.pop_front() {
            Some(tables) => tables,
            None => base.share()?,
        };
        Ok(Midst {
            age,
            now,
            saved,
            base,
        })
    }

    fn into_tables(self) -> Catalog
        ensures { result ≡ self.now }
    {
        let Midst {
            age: _,
            now,
            saved,
            base,
        } = self;
        drop(saved);
        drop(base);
        now
    }
}

/// The tables after an operation that does not fail.
fn effect(
    alloc: Global,
    tables: &Catalog,
    operation: &LoggedOperation,
) -> Result<Catalog, AllocError>
    ensures { IfOk result (λ after. after ≡ effect_of tables.now operation.now) }
{
    match update_of(alloc, operation)? {
        Some(update) => tables.updated(alloc, slice::from_ref(&update), &Lender::None),
        None => tables.share(),
    }
}

/// Returns whether this is the reply of an operation on these tables.
fn is_told(
    alloc: Global,
    tables: &Catalog,
    operation: &LoggedOperation,
    told: &LoggedReply,
) -> Result<bool, AllocError>
    requires { IsOrderedCatalog tables.now }
    ensures { IfOk result (λ is. Decides is (answer_of tables.now operation.now ≡ told.now)) }
{
    let asked = Whole {
        value: operation.to_operation(alloc)?,
    };
    let mut store = TxStore::new(alloc);
    let answer = perform(alloc, tables, &mut store, asked)?;
    Ok(is_answer(answer.reply(), told))
}

/// Runs a transaction on these tables, which stay as they are. Returns the tables after it, or None if a reply is
/// another than the logged one.
pub fn rerun(
    alloc: Global,
    tables: &Catalog,
    age: u64,
    moves: &[Move],
    told: &[Option<LoggedReply>],
) -> Result<Option<Catalog>, AllocError>
    requires { IsOrderedCatalog tables.now }
    ensures { IfOk result (RunsAs tables.now age moves.now told.now) }
{
    if moves.len() != told.len() {
        return Ok(None);
    }
    let mut run = Midst::start(alloc, tables, age)?;
    for (place, step) in moves.iter().enumerate() {
        let Some(next) = run.follow(alloc, step, &told[place])? else {
            return Ok(None);
        };
        run = next;
    }
    Ok(Some(run.into_tables()))
}
