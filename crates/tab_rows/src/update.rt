//! A change on its way to its table.

ghost use Rattle.std.specs.Prelude.{◌≡◌, IfOk};
ghost use Rattle.tab_model.specs.declared.data.Change.TheVariants as change_of;
ghost use Rattle.tab_rows.specs.Updates.{change_in};
ghost use Rattle.tab_term.specs.View.{term};
ghost use Rattle.tab_model.specs.Operations.{key_of_change};

use std::alloc::{AllocError, Global};
use std::marker::Model;
use tab_model::{Change, OnlyRecord, copy_of_key};
use tab_term::Term;

/// A change on its way to its table. Contracts see the change.
pub struct Update {
    form: Form,
}

/// How the change stands.
pub enum Form {
    /// The write of a record, in the entry that a set takes for it.
    Only(OnlyRecord),
    Change(Change),
}

impl Model for Update {
    ghost use Rattle.std.specs.Coded.{codes};
    ghost use Rattle.tab_term.specs.Code.{term_code, terms_code, pairs_code};
    ghost use Rattle.tab_model.specs.declared.data.Change.{Change};
    ghost use Rattle.tab_rows.specs.Updates.{change_in};

    ghost Value = { Change };

    ghost coded = { Prim.hlevel (codes, term_code, terms_code, pairs_code) };

    ghost view = { λ a. change_in a.form };
}

// A derived Drop would be expanded, variant by variant, at each exit of each caller.
impl Drop for Form {
    fn drop(self) {
        match self {
            Form::Only(only) => drop(only),
            Form::Change(change) => drop(change),
        }
    }
}

impl Drop for Update {
    fn drop(self) {
        let Update { form } = self;
        drop(form);
    }
}

impl Update {
    /// The write of this record. It takes no memory.
    pub fn only(only: OnlyRecord) -> Update
        ensures { result ≡ change_of.Write only }
    {
        Update {
            form: Form::Only(only),
        }
    }

    /// This change. It takes no memory.
    pub fn new(change: Change) -> Update
        ensures { result ≡ change }
    {
        Update {
            form: Form::Change(change),
        }
    }

    /// How the change stands.
    pub fn form(&self) -> &Form
        ensures { change_in result.now ≡ self.now }
    {
        &self.form
    }

    /// A copy of the change.
    pub fn to_change(&self, alloc: Global) -> Result<Change, AllocError>
        ensures { IfOk result (λ change. change ≡ self.now) }
    {
        match &self.form {
            Form::Only(only) => Ok(Change::Write(only.row().try_clone(alloc)?)),
            Form::Change(change) => copy_of_change(alloc, change),
        }
    }

    /// A copy of the key that the change is made at.
    pub fn copy_of_key(&self, alloc: Global) -> Result<Term, AllocError>
        ensures { IfOk result (λ key. term key ≡ key_of_change self.now) }
    {
        match &self.form {
            Form::Only(only) => copy_of_key(alloc, only.row()),
            Form::Change(change) => key_of(alloc, change),
        }
    }
}

/// The same change, in memory of its own.
fn copy_of_change(alloc: Global, change: &Change) -> Result<Change, AllocError>
    ensures { IfOk result (λ copy. copy ≡ change.now) }
{
    match change {
        Change::Write(row) => Ok(Change::Write(row.try_clone(alloc)?)),
        Change::Delete(name, key) => {
            let name = name.try_clone(alloc)?;
            Ok(Change::Delete(name, key.try_clone(alloc)?))
        }
        Change::DeleteObject(row) => Ok(Change::DeleteObject(row.try_clone(alloc)?)),
    }
}

/// A copy of the key that a change is made at.
pub fn key_of(alloc: Global, change: &Change) -> Result<Term, AllocError>
    ensures { IfOk result (λ key. term key ≡ key_of_change change.now) }
{
    match change {
        Change::Write(row) => copy_of_key(alloc, row),
        Change::Delete(_, key) => key.try_clone(alloc),
        Change::DeleteObject(row) => copy_of_key(alloc, row),
    }
}
