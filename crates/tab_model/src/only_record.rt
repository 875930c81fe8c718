//! A record as the only one of its key, in the entry that maps share.

ghost use Rattle.std.specs.Prelude.{◌≡◌, IfOk};
ghost use Rattle.tab_term.specs.View.{term};
ghost use Rattle.tab_model.specs.Tables.{key as key_of_row};
ghost use Rattle.tab_model.specs.OnlyRecords.{IsOnly};

use std::alloc::{AllocError, Global};
use std::marker::Model;
use tab_map::Entry;
use tab_records::Records;
use tab_term::{Term, Terms};

/// A record in an entry of its own: a set that it is written to takes the entry itself, and copies nothing.
pub struct OnlyRecord {
    entry: Entry<Term, Records>,
}

impl Model for OnlyRecord {
    ghost use Rattle.std.specs.Coded.{codes};
    ghost use Rattle.tab_term.specs.Code.{term_code, terms_code, pairs_code};
    ghost use Rattle.tab_term.specs.View.{term};
    ghost use Rattle.tab_term.specs.declared.term.Term.{Term as PlainRow};
    ghost use Rattle.tab_model.specs.OnlyRecords.{record_in, IsOnly};

    ghost Value = { PlainRow };

    ghost coded = { Prim.hlevel (codes, term_code, terms_code, pairs_code) };

    ghost view = { λ a. record_in a.entry };

    ghost invariant = { λ a. IsOnly (term (record_in a.entry)) a.entry };
}

// A derived Drop would be expanded, field by field, at each exit of each caller.
impl Drop for OnlyRecord {
    fn drop(self) {
        let OnlyRecord { entry } = self;
        drop(entry);
    }
}

impl OnlyRecord {
    /// The record, with a copy of its key.
    pub fn new(alloc: Global, row: Term) -> Result<OnlyRecord, AllocError>
        ensures { IfOk result (λ only. only ≡ row) }
    {
        let key = copy_of_key(alloc, &row)?;
        Ok(OnlyRecord {
            entry: Entry::new(alloc, (key, Records::only(row)))?,
        })
    }

    /// The record.
    pub fn row(&self) -> &Term
        ensures { result.now ≡ self.now }
    {
        match self.entry.pair().1.first() {
            Some(row) => row,
            None => unreachable!(),
        }
    }

    /// The same record, in the same entry. It allocates nothing: the error is a count of owners that is full, at 2^63.
    pub fn try_clone(&self) -> Result<OnlyRecord, AllocError>
        ensures { IfOk result (λ same. same ≡ self.now) }
    {
        Ok(OnlyRecord {
            entry: self.entry.try_clone()?,
        })
    }

    /// The record with its key, in the same entry. It allocates nothing: the error is that of `try_clone`.
    pub fn to_entry(&self) -> Result<Entry<Term, Records>, AllocError>
        ensures { IfOk result (IsOnly (term self.now)) }
    {
        self.entry.try_clone()
    }
}

/// A copy of the record's key, its second element. Where it has none, the empty list.
pub fn copy_of_key(alloc: Global, row: &Term) -> Result<Term, AllocError>
    ensures { IfOk result (λ k. term k ≡ key_of_row (term row.now)) }
{
    match row {
        Term::Tuple(elements) => match elements.as_slice() {
            [_, key, ..] => key.try_clone(alloc),
            _ => Ok(Term::List(Terms::from_vec(Vec::new(alloc)))),
        },
        _ => Ok(Term::List(Terms::from_vec(Vec::new(alloc)))),
    }
}
