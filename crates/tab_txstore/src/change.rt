//! What an operation changes.
ghost use Rattle.std.specs.Prelude.{◌≡◌, IfOk};
ghost use Rattle.tab_model.specs.declared.data.Change.TheVariants as change;
ghost use Rattle.tab_model.specs.Operations.{change_of_op};

use std::alloc::{AllocError, Global};
use tab_model::{Change, LoggedOperation, Operation, OperationForm};
use tab_rows::Update;
use tab_term::Term;

/// The change that an operation makes; None for one that reads or locks. A record that has an entry of its own is shared.
pub fn update_of(alloc: Global, operation: &LoggedOperation) -> Result<Option<Update>, AllocError>
    ensures { IfOk result (λ update. update ≡ change_of_op operation.now) }
{
    match operation.form() {
        OperationForm::Only(only) => Ok(Some(Update::only(only.try_clone()?))),
        OperationForm::Write(row) => Ok(Some(write_of(alloc, row)?)),
        OperationForm::Read(_, _) | OperationForm::ReadForWrite(_, _) => Ok(None),
        OperationForm::Other(operation) => update_of_other(alloc, operation),
    }
}

fn write_of(alloc: Global, row: &Term) -> Result<Update, AllocError>
    ensures { IfOk result (λ update. update ≡ change.Write row.now) }
{
    Ok(Update::new(Change::Write(row.try_clone(alloc)?)))
}

fn update_of_other(alloc: Global, operation: &Operation) -> Result<Option<Update>, AllocError>
    ensures { IfOk result (λ update. update ≡ change_of_op operation.now) }
{
    match operation {
        // A write has a form of its own, which the type doesn't say.
        Operation::Write(row) => Ok(Some(write_of(alloc, row)?)),
        Operation::DeleteObject(row) => {
            Ok(Some(Update::new(Change::DeleteObject(row.try_clone(alloc)?))))
        }
        Operation::Delete(name, key) => {
            let name = name.try_clone(alloc)?;
            let key = key.try_clone(alloc)?;
            Ok(Some(Update::new(Change::Delete(name, key))))
        }
        _ => Ok(None),
    }
}
