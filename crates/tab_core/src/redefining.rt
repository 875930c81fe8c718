//! Schema commands.

ghost use Rattle.std.specs.Prelude.{◌≡◌, List, IfOk, OnErr, None};
ghost use Rattle.tab_model.specs.Outcome.{has_room};
ghost use Rattle.tab_model.specs.Schemas.{schema_effect, schema_refusal, table_of_schema};
ghost use Rattle.tab_core.specs.Joined.{Subscriber};
ghost use Rattle.tab_core.specs.Parts.{parts_of, state_with};
ghost use Rattle.tab_core.specs.Kept.{Agree, IsKept};
ghost use Rattle.tab_core.specs.Redefining.{Redefines};

use crate::machine::Machine;
use crate::step::Stepped;
use std::alloc::AllocError;
use std::mem;
use tab_model::{Entry, Limit, Reply, Schema, Sessions, SharedReply};
use tab_outbox::Post;
use tab_tables::{Catalog, Redefined, redefine};
use tab_term::Atom;
use tab_txstore::Whole;

impl<P: Post + Drop> Machine<P> {
    /// A command on tables' definitions, of a session in no transaction. It is refused while anyone holds or awaits a
    /// lock in the table. If memory is refused nothing changes.
    pub(crate) fn schema(&mut self, schema: Schema) -> Result<Stepped, AllocError>
        ensures done { IsKept (parts_of self.old) → IfOk result
            (λ s. Redefines (state_with self.old) schema s (state_with self.new)) }
        ensures agree { IsKept (parts_of self.old) → Agree (parts_of self.new) }
        ensures same { self.new.sessions ≡ self.old.sessions }
        ensures err { OnErr result (self.new ≡ self.old) }
    {
        let asked = Whole { value: schema };
        match redefine(self.alloc, &self.catalog, &asked.value)? {
            Redefined::Refused(reply) => Ok(Stepped::without_entry(reply)),
            Redefined::Done(catalog) => self.put_tables(asked, catalog),
        }
    }

    /// The tables after a schema command that nothing refuses but a lock or the limit of tables.
    fn put_tables(&mut self, asked: Whole<Schema>, catalog: Catalog) -> Result<Stepped, AllocError>
        requires done { (schema_refusal self.old.catalog asked.value ≡ None)
            × (catalog ≡ schema_effect self.old.catalog asked.value) }
        ensures done { IsKept (parts_of self.old) → IfOk result
            (λ s. Redefines (state_with self.old) asked.value s (state_with self.new)) }
        ensures agree { IsKept (parts_of self.old) → Agree (parts_of self.new) }
        ensures same { self.new.sessions ≡ self.old.sessions }
        ensures err { OnErr result (self.new ≡ self.old) }
    {
        if self.ages.busy(table_of(&asked.value)) {
            let name = table_of(&asked.value).try_clone(self.alloc)?;
            return Ok(Stepped::without_entry(Reply::Locked(name)));
        }
        if !self.has_room(&asked.value) {
            return Ok(Stepped::without_entry(Reply::SystemLimit(Limit::Tables)));
        }
        self.replaced = Some(mem::replace(&mut self.catalog, catalog));
        Ok(Stepped {
            reply: SharedReply::new(Reply::AtomicOk),
            entry: Some(Entry::Changed(
                asked.into_value(),
                Sessions {
                    items: Vec::new(self.alloc),
                },
            )),
        })
    }

    /// Returns whether the limit of tables lets the command pass.
    fn has_room(&self, command: &Schema) -> bool
        ensures { result ≡ has_room (state_with self.now) command.now }
    {
        match command {
            Schema::Create(_, _) => self.catalog.has_room(self.limits.tables),
            _ => true,
        }
    }
}

/// The table that a schema command is on.
fn table_of(schema: &Schema) -> &Atom
    ensures { result.now ≡ table_of_schema schema.now }
{
    match schema {
        Schema::Create(name, _) => name,
        Schema::Remove(name) => name,
        Schema::AddIndex(name, _) => name,
        Schema::DelIndex(name, _) => name,
    }
}
