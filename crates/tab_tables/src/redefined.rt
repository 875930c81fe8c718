//! Schema commands on tables without their indexes.

ghost use Rattle.std.specs.Prelude.{◌≡◌, IfOk};
ghost use Rattle.tab_model.specs.declared.data.Schema.TheVariants as schema;
ghost use Rattle.tab_model.specs.History.{after_schema};

use crate::bare::BareCatalog;
use std::alloc::{AllocError, Global};
use tab_index::BareTable;
use tab_model::Schema;
use tab_schema::{DefFault, has_index, parse_options, position};
use tab_term::{Atom, Term, Terms};

impl BareCatalog {
    /// The tables after a schema command, or the same ones if it is refused. These stay as they were. No record is read.
    pub fn redefined(&self, alloc: Global, command: &Schema) -> Result<BareCatalog, AllocError>
        ensures { IfOk result (λ tables. tables ≡ after_schema self.now command.now) }
    {
        match command {
            Schema::Create(name, options) => self.created(alloc, name, options),
            Schema::Remove(name) => self.removed(alloc, name),
            Schema::AddIndex(name, attribute) => self.with_index(alloc, name, attribute),
            Schema::DelIndex(name, attribute) => self.without_index(alloc, name, attribute),
        }
    }

    fn created(
        &self,
        alloc: Global,
        name: &Atom,
        options: &Terms,
    ) -> Result<BareCatalog, AllocError>
        ensures { IfOk result
            (λ tables. tables ≡ after_schema self.now (schema.Create name.now options.now)) }
    {
        if self.table(name).is_some() {
            return self.share();
        }
        match parse_options(alloc, name, options.as_slice()) {
            Ok(def) => self.placed(alloc, BareTable::new(alloc, def)?),
            Err(DefFault::Bad(_what)) => self.share(),
            Err(DefFault::NoMemory) => Err(AllocError),
        }
    }

    fn removed(&self, alloc: Global, name: &Atom) -> Result<BareCatalog, AllocError>
        ensures { IfOk result
            (λ tables. tables ≡ after_schema self.now (schema.Remove name.now)) }
    {
        if self.table(name).is_none() {
            return self.share();
        }
        self.without(alloc, name)
    }

    fn with_index(
        &self,
        alloc: Global,
        name: &Atom,
        attribute: &Term,
    ) -> Result<BareCatalog, AllocError>
        ensures { IfOk result
            (λ tables. tables ≡ after_schema self.now (schema.AddIndex name.now attribute.now)) }
    {
        let Some(table) = self.table(name) else {
            return self.share();
        };
        match position(table.def(), attribute) {
            Some(position) if !has_index(table.def(), position) => {
                self.placed(alloc, table.add_index(alloc, position as u64)?)
            }
            _ => self.share(),
        }
    }

    fn without_index(
        &self,
        alloc: Global,
        name: &Atom,
        attribute: &Term,
    ) -> Result<BareCatalog, AllocError>
        ensures { IfOk result
            (λ tables. tables ≡ after_schema self.now (schema.DelIndex name.now attribute.now)) }
    {
        let Some(table) = self.table(name) else {
            return self.share();
        };
        match position(table.def(), attribute) {
            Some(position) if has_index(table.def(), position) => {
                self.placed(alloc, table.del_index(alloc, position as u64)?)
            }
            _ => self.share(),
        }
    }
}
