//! A table's records, rebuilt from its events.

ghost use Rattle.std.specs.Prelude.{◌≡◌, [], IfOk, OnErr, None, option_map};
ghost use Rattle.std.specs.Option.{option_copied};
ghost use Rattle.tab_term.specs.View.{term, terms};
ghost use Rattle.tab_model.specs.Names.{terms_list};
ghost use Rattle.tab_model.specs.Shapes.{change_of as change_of_term, in_table as in_table_of};
ghost use Rattle.tab_events.specs.Mirrors.{put_all, changed, fed};

use crate::applying::apply;
use crate::marks::{dumped, is_end_mark, is_overflow};
use crate::mirrored::Mirrored;
use crate::reading::{change_of, in_table};
use std::alloc::{AllocError, Global};
use std::marker::Model;
use tab_model::{Change, Kind};
use tab_rows::Rows;
use tab_term::{Atom, Term};

/// A table as a subscriber with a dump sees it: the records of the begin marker, and the events since.
///
/// A batch is fed by its events, one by one.
pub struct Mirror {
    table: Atom,
    kind: Kind,
    rows: Option<Rows>,
}

impl Model for Mirror {
    ghost use Rattle.std.specs.Prelude.{◌≡◌, IfSome, option_map};
    ghost use Rattle.std.specs.Coded.{codes};
    ghost use Rattle.tab_term.specs.Code.{term_code};
    ghost use Rattle.tab_events.specs.Mirrors.{Held};

    ghost Value = { Held };

    ghost coded = { Prim.hlevel (codes, term_code) };

    ghost view = { λ a.
        record { table = a.table; kind = a.kind; rows = option_map (λ rows. rows.1) a.rows } };

    ghost invariant = { λ a. IfSome a.rows (λ rows. rows.0 ≡ a.kind) };
}

// A derived Drop would be expanded, field by field, at each exit of each caller.
impl Drop for Mirror {
    fn drop(self) {
        let Mirror {
            table,
            kind: _,
            rows,
        } = self;
        drop(table);
        drop(rows);
    }
}

impl Mirror {
    /// A mirror of the table, which has no rows yet.
    pub fn new(table: Atom, kind: Kind) -> Mirror
        ensures { result ≡ record { table = table; kind = kind; rows = None } }
    {
        Mirror {
            table,
            kind,
            rows: None,
        }
    }

    /// The table's records, from a begin marker with a dump on and up to an end.
    pub fn rows(&self) -> Option<&Rows>
        ensures { option_copied result ≡ option_map (λ rows. (self.now.kind, rows)) self.now.rows }
    {
        self.rows.as_ref()
    }

    /// Applies a term that the subscriber received. Marks without a dump and terms of other tables are Other, and
    /// change nothing.
    pub fn feed(&mut self, alloc: Global, told: &Term) -> Result<Mirrored, AllocError>
        ensures table { (self.new.table ≡ self.old.table) × (self.new.kind ≡ self.old.kind) }
        ensures ok { IfOk result
            (λ m. (self.new.rows, m)
            ≡ fed self.old.table self.old.kind self.old.rows (term told.now)) }
        ensures err { OnErr result (self.new ≡ self.old) }
    {
        if let Some(records) = dumped(&self.table, told) {
            self.rows = Some(rows_of(alloc, self.kind, records)?);
            return Ok(Mirrored::Begun);
        }
        if is_overflow(told) || is_end_mark(&self.table, told) {
            self.rows = None;
            return Ok(Mirrored::Ended);
        }
        self.follow(alloc, told)
    }

    fn follow(&mut self, alloc: Global, told: &Term) -> Result<Mirrored, AllocError>
        ensures table { (self.new.table ≡ self.old.table) × (self.new.kind ≡ self.old.kind) }
        ensures ok { IfOk result
            (λ m. (self.new.rows, m)
            ≡ changed self.old.kind self.old.rows
            (in_table_of self.old.table (change_of_term (term told.now)))) }
        ensures err { OnErr result (self.new ≡ self.old) }
    {
        let Some(rows) = &mut self.rows else {
            return Ok(Mirrored::Other);
        };
        let Some(change) = in_table(&self.table, change_of(alloc, told)?) else {
            return Ok(Mirrored::Other);
        };
        apply(alloc, rows, &change)?;
        Ok(Mirrored::Applied)
    }
}

fn rows_of(alloc: Global, kind: Kind, records: &[Term]) -> Result<Rows, AllocError>
    ensures { IfOk result
        (λ rows. rows ≡ (kind, put_all kind [] (terms_list (terms records.now)))) }
{
    let mut rows = Rows::new(kind);
    for row in records {
        rows.put(alloc, row, None)?;
    }
    Ok(rows)
}
