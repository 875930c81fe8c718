//! An operation as a trace keeps it.

ghost use Rattle.std.specs.Prelude.{◌≡◌, IfOk};
ghost use Rattle.tab_model.specs.declared.data.Operation.TheVariants.{Write as write_of};
ghost use Rattle.tab_model.specs.LoggedOperations.{operation_in};

use crate::data::{Kind, Move, Operation};
use crate::only_record::OnlyRecord;
use std::alloc::{AllocError, Global};
use std::marker::Model;
use std::sync::Arc;
use tab_term::{Atom, Term};

/// An operation in a trace. Contracts see the operation.
pub struct LoggedOperation {
    form: OperationForm,
}

/// How the operation is kept.
pub enum OperationForm {
    /// The write of a record, in the entry that a set takes for it.
    Only(OnlyRecord),
    Write(Term),
    Read(Atom, Term),
    ReadForWrite(Atom, Term),
    /// Any other, behind a count: an `IndexRead` would make each move larger, and the rest are too few to want a form.
    Other(Arc<Operation, Global>),
}

// A trace grows by doubling, and a journal keeps many: with an Operation itself a move would take half as much again.
const _: () = prove!(size_of::<Move>() <= 80);

impl Model for LoggedOperation {
    ghost use Rattle.tab_model.specs.declared.data.Operation.{Operation};
    ghost use Rattle.std.specs.Coded.{codes};
    ghost use Rattle.tab_term.specs.Code.{term_code, terms_code, pairs_code};
    ghost use Rattle.tab_model.specs.LoggedOperations.{operation_in};

    ghost Value = { Operation };

    ghost coded = { Prim.hlevel (codes, term_code, terms_code, pairs_code) };

    ghost view = { λ a. operation_in a.form };
}

// A derived Drop would be expanded, variant by variant, at each exit of each caller.
impl Drop for OperationForm {
    fn drop(self) {
        match self {
            OperationForm::Only(only) => drop(only),
            OperationForm::Write(row) => drop(row),
            OperationForm::Read(name, key) | OperationForm::ReadForWrite(name, key) => {
                drop((name, key));
            }
            OperationForm::Other(operation) => drop(operation),
        }
    }
}

impl Drop for LoggedOperation {
    fn drop(self) {
        let LoggedOperation { form } = self;
        drop(form);
    }
}

impl LoggedOperation {
    /// An operation, with the type of its table: a record that a set is written comes into an entry with a copy of its key, and is
    /// not copied itself.
    pub fn new(
        alloc: Global,
        kind: Kind,
        operation: Operation,
    ) -> Result<LoggedOperation, AllocError>
        ensures { IfOk result (λ logged. logged ≡ operation) }
    {
        Ok(LoggedOperation {
            form: operation.into_form(alloc, kind)?,
        })
    }

    /// How the operation is kept.
    pub fn form(&self) -> &OperationForm
        ensures { operation_in result.now ≡ self.now }
    {
        &self.form
    }

    /// A copy of the operation.
    pub fn to_operation(&self, alloc: Global) -> Result<Operation, AllocError>
        ensures { IfOk result (λ copy. copy ≡ self.now) }
    {
        match &self.form {
            OperationForm::Only(only) => Ok(Operation::Write(only.row().try_clone(alloc)?)),
            OperationForm::Write(row) => Ok(Operation::Write(row.try_clone(alloc)?)),
            OperationForm::Read(name, key) => {
                let name = name.try_clone(alloc)?;
                Ok(Operation::Read(name, key.try_clone(alloc)?))
            }
            OperationForm::ReadForWrite(name, key) => {
                let name = name.try_clone(alloc)?;
                Ok(Operation::ReadForWrite(name, key.try_clone(alloc)?))
            }
            OperationForm::Other(operation) => operation.try_clone(alloc),
        }
    }
}

/// The form of the write of a record to a table of this type.
pub(crate) fn form_of_write(
    alloc: Global,
    kind: Kind,
    row: Term,
) -> Result<OperationForm, AllocError>
    ensures { IfOk result (λ form. operation_in form ≡ write_of row) }
{
    match kind {
        Kind::Set => Ok(OperationForm::Only(OnlyRecord::new(alloc, row)?)),
        Kind::Bag => Ok(OperationForm::Write(row)),
    }
}
