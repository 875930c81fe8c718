ghost use Rattle.std.specs.Prelude.{◌≡◌, ℕ, IfOk, OnErr, Some, None};
ghost use Rattle.tab_model.specs.Alone.{start, after, replies};
ghost use Rattle.tab_model.specs.Operations.{table_of as table_of_operation, answer as answer_of};
ghost use Rattle.tab_model.specs.Catalogs.{find, IsOrderedCatalog};
ghost use Rattle.tab_model.specs.declared.data.Move.TheVariants.{Do};
ghost use Rattle.tab_model.specs.declared.data.Reply.TheVariants as reply;
ghost use Rattle.tab_txstore.specs.Stores.{store_next, Fits};

use crate::answering::answered;
use crate::asked::table_of;
use crate::store::TxStore;
use crate::whole::Whole;
use std::alloc::{AllocError, Global};
use tab_model::{Operation, Reply, SharedReply};
use tab_tables::Catalog;
use tab_term::Atom;

/// Performs an operation of a transaction on borrowed tables. It returns the reply on them as the transaction sees
/// them, and adds its trace and its changes to the store. The tables stay as they are. The caller and the trace share
/// the reply.
pub fn perform(
    alloc: Global,
    catalog: &Catalog,
    store: &mut TxStore,
    asked: Whole<Operation>,
) -> Result<SharedReply, AllocError>
    ensures store { IfOk result
        (λ r. store.new
        ≡ store_next (find catalog.now (table_of_operation asked.value)) store.old
        (Do asked.value) (Some r)) }
    ensures answer { IfOk result
        (λ r. (age : ℕ) → IsOrderedCatalog catalog.now → Fits store.old catalog.now
        → replies (start catalog.now age) store.old.moves ≡ store.old.told
        → r ≡ answer_of (after (start catalog.now age) store.old.moves).now asked.value) }
    ensures err { OnErr result (store.new ≡ store.old) }
{
    let name = table_of(alloc, &asked.value)?;
    let Some(committed) = catalog.table(&name) else {
        return fail(alloc, store, asked, name);
    };
    let answer = answered(alloc, store, committed, &asked.value)?;
    let (reply, logged) = SharedReply::pair(alloc, answer)?;
    store.make(alloc, committed, asked.into_value(), logged)?;
    Ok(reply)
}

// An operation on a table that isn't there.
fn fail(
    alloc: Global,
    store: &mut TxStore,
    asked: Whole<Operation>,
    name: Atom,
) -> Result<SharedReply, AllocError>
    ensures store { IfOk result
        (λ r. store.new ≡ store_next None store.old (Do asked.value) (Some r)) }
    ensures answer { IfOk result (λ r. r ≡ reply.NoTable name) }
    ensures err { OnErr result (store.new ≡ store.old) }
{
    let (reply, logged) = SharedReply::pair(alloc, Reply::NoTable(name))?;
    store.fail(alloc, asked.into_value(), logged)?;
    Ok(reply)
}
