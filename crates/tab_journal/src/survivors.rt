//! The updates of a transaction that no level's end undid, read off its moves and their replies.

ghost use Rattle.std.specs.Prelude.{◌≡◌, [], IfOk, OnOk};
ghost use Rattle.tab_model.specs.Operations.{change_of_op};
ghost use Rattle.tab_model.specs.Events.{is_failure as is_failure_of, surviving_changes as surviving_of};
ghost use Rattle.tab_journal.specs.Survivors.{next, opened, closed, ended, changed};

use std::alloc::{AllocError, Global};
use std::collections::VecDeque;
use std::marker::Model;
use tab_model::{LoggedOperation, LoggedReply, Move};
use tab_rows::Update;
use tab_txstore::update_of;

/// The updates so far that were not undone.
pub struct Survivors {
    updates: Vec<Update>,
    // The number of updates when each open level began, innermost first.
    begun: VecDeque<usize>,
}

impl Model for Survivors {
    ghost use Rattle.std.specs.Prelude.{length};
    ghost use Rattle.std.specs.Coded.{codes};
    ghost use Rattle.tab_term.specs.Code.{term_code, terms_code, pairs_code};
    ghost use Rattle.tab_journal.specs.Survivors.{Standing, standing, Falls};

    ghost Value = { Standing };

    ghost coded = { Prim.hlevel (codes, term_code, terms_code, pairs_code) };

    ghost view = { λ a. standing a.updates.items a.begun.items };

    ghost invariant = { λ a. Falls (length a.updates.items) a.begun.items };
}

// A derived Drop would be expanded, field by field, at each exit of each caller.
impl Drop for Survivors {
    fn drop(self) {
        let Survivors { updates, begun } = self;
        drop(updates);
        drop(begun);
    }
}

fn is_failure(told: &Option<LoggedReply>) -> bool
    ensures { result ≡ is_failure_of told.now }
{
    match told {
        Some(told) => told.is_failure(),
        None => false,
    }
}

impl Survivors {
    fn new(alloc: Global) -> Survivors
        ensures { result ≡ record { now = []; saved = [] } }
    {
        Survivors {
            updates: Vec::new(alloc),
            begun: VecDeque::new(alloc),
        }
    }

    fn open(&mut self) -> Result<(), AllocError>
        ensures { OnOk result (self.new ≡ opened self.old) }
    {
        self.begun.push_front(self.updates.len())?;
        Ok(())
    }

    fn close(&mut self)
        ensures { self.new ≡ closed self.old }
    {
        let _parent = self.begun.pop_front();
    }

    fn end(&mut self)
        ensures { self.new ≡ ended self.old }
    {
        match self.begun.pop_front() {
            Some(count) => self.updates.truncate(count),
            None => self.updates.truncate(0),
        }
    }

    fn operate(&mut self, alloc: Global, operation: &LoggedOperation) -> Result<(), AllocError>
        ensures { OnOk result (self.new ≡ changed self.old (change_of_op operation.now)) }
    {
        match update_of(alloc, operation)? {
            Some(update) => {
                self.updates.push(update)?;
                Ok(())
            }
            None => Ok(()),
        }
    }

    fn follow(
        &mut self,
        alloc: Global,
        step: &Move,
        told: &Option<LoggedReply>,
    ) -> Result<(), AllocError>
        ensures { OnOk result (self.new ≡ next self.old step.now told.now) }
    {
        match step {
            Move::Do(operation) => {
                if is_failure(told) {
                    self.end();
                    return Ok(());
                }
                self.operate(alloc, operation)?;
                Ok(())
            }
            Move::Open => {
                self.open()?;
                Ok(())
            }
            Move::Close => {
                self.close();
                Ok(())
            }
            Move::Undo => {
                self.end();
                Ok(())
            }
        }
    }

    fn into_updates(self) -> Vec<Update>
        ensures { result.items ≡ self.now }
    {
        let Survivors { updates, begun: _ } = self;
        updates
    }
}

/// The updates that no level's end undid, in order. A record that was written to a set is shared with the moves.
pub fn surviving(
    alloc: Global,
    moves: &[Move],
    told: &[Option<LoggedReply>],
) -> Result<Vec<Update>, AllocError>
    ensures { IfOk result (λ updates. updates.items ≡ surviving_of moves.now told.now) }
{
    let mut survivors = Survivors::new(alloc);
    for (place, step) in moves.iter().enumerate() {
        let Some(reply) = told.get(place) else {
            return Ok(survivors.into_updates());
        };
        survivors.follow(alloc, step, reply)?;
    }
    Ok(survivors.into_updates())
}
