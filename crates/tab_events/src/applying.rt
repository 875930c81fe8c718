//! A change, made in the records of its table.

ghost use Rattle.std.specs.Prelude.{◌≡◌, OnOk, OnErr};
ghost use Rattle.tab_model.specs.Tables.{apply as apply_in};

use std::alloc::{AllocError, Global};
use tab_model::Change;
use tab_rows::Rows;

/// Makes the change in the rows, whatever table it names. `change_of` gives the change of an event's term.
pub fn apply(alloc: Global, rows: &mut Rows, change: &Change) -> Result<(), AllocError>
    ensures ok { OnOk result
        (rows.new ≡ (rows.old.0, apply_in rows.old.0 rows.old.1 change.now)) }
    ensures err { OnErr result (rows.new ≡ rows.old) }
{
    rows.change(alloc, change, None)
}
