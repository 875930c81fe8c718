//! The records of one key.

ghost use Rattle.std.specs.Prelude.{◌≡◌, ◌≢◌, ◌==◌, [], ◌∷◌, ◌++◌, IfOk, OnOk, OnErr, MatchOption, not, IsFalse};
ghost use Rattle.std.specs.List.{filter, list_any};
ghost use Rattle.tab_term.specs.Data.{none, one_more, count, plain_terms, terms_list};
ghost use Rattle.tab_term.specs.Same.{same};
ghost use Rattle.tab_term.specs.View.{term};
ghost use Rattle.tab_records.specs.Forms.{records_of, first_of, with_one};
ghost use Rattle.tab_records.specs.Numbers.{records_in};

use crate::iter::Iter;
use crate::numbered::Numbered;
use std::alloc::{AllocError, Global};
use std::marker::Model;
use std::slice;
use tab_map::{Entry, Map};
use tab_term::Term;

/// The records of one key, in the order of their insertion.
pub struct Records {
    form: Form,
}

/// How the records stand.
pub enum Form {
    /// One by itself, in no block of its own.
    One(Term),
    /// Any number.
    Many(Numbered),
}

impl Model for Records {
    ghost use Rattle.tab_term.specs.Data.{PlainTerms};
    ghost use Rattle.tab_term.specs.Code.{terms_code};
    ghost use Rattle.tab_records.specs.Forms.{records_of};

    ghost Value = { PlainTerms };

    ghost coded = { terms_code };

    ghost view = { λ a. records_of a.form };
}

// A derived drop would be expanded, variant by variant, at each exit of each caller.
impl Drop for Form {
    fn drop(self) {
        match self {
            Form::One(record) => drop(record),
            Form::Many(records) => drop(records),
        }
    }
}

impl Drop for Records {
    fn drop(self) {
        let Records { form } = self;
        drop(form);
    }
}

impl Records {
    /// No records. Takes no memory.
    pub fn new() -> Records
        ensures { result ≡ none }
    {
        Records {
            form: Form::Many(Numbered::new()),
        }
    }

    /// This record alone. Takes no memory.
    pub fn only(row: Term) -> Records
        ensures { result ≡ one_more (term row) none }
    {
        Records {
            form: Form::One(row),
        }
    }

    /// The same records. One alone is copied, several are shared, without memory.
    pub fn try_clone(&self, alloc: Global) -> Result<Records, AllocError>
        ensures { IfOk result (λ copy. copy ≡ self.now) }
    {
        let form = match &self.form {
            Form::One(record) => Form::One(record.try_clone(alloc)?),
            Form::Many(records) => Form::Many(records.share()?),
        };
        Ok(Records { form })
    }

    /// How many records there are.
    pub fn len(&self) -> usize
        ensures { result ≡ count self.now }
    {
        match &self.form {
            Form::One(_) => 1,
            Form::Many(records) => records.len(),
        }
    }

    /// Whether there is none.
    pub fn is_empty(&self) -> bool
        ensures { result ≡ (count self.now == 0) }
    {
        self.len() == 0
    }

    /// The record, where there is one alone.
    #[inline]
    pub fn single(&self) -> Option<&Term>
        ensures { MatchOption result (count self.now ≢ 1)
            (λ row. self.now ≡ one_more (term row.now) none) }
    {
        match &self.form {
            Form::One(record) => Some(record),
            Form::Many(records) => records.single(),
        }
    }

    /// The record that was inserted first.
    pub fn first(&self) -> Option<&Term>
        ensures { MatchOption result (self.now ≡ none)
            (λ first. first_of self.now ≡ term first.now ∷ []) }
    {
        match &self.form {
            Form::One(record) => Some(record),
            Form::Many(records) => match records.by_number().first() {
                Some(entry) => Some(&entry.pair().1.pair().0),
                None => None,
            },
        }
    }

    /// The records by the numbers of their writes. None where one stands by itself.
    pub fn by_number(&self) -> Option<&Map<u64, Entry<Term, u64>>>
        ensures { MatchOption result (count self.now ≡ 1)
            (λ records. records_in records.now ≡ terms_list self.now) }
    {
        match &self.form {
            Form::One(_) => None,
            Form::Many(records) => Some(records.by_number()),
        }
    }

    /// The records in their order.
    pub fn iter(&self) -> Iter<'_>
        ensures { result ≡ terms_list self.now }
    {
        match &self.form {
            Form::One(record) => Iter::over(slice::from_ref(record)),
            Form::Many(records) => Iter::over_numbered(records.by_number()),
        }
    }

    /// Whether an equal record is among them.
    pub fn contains(&self, row: &Term) -> bool
        ensures { result ≡ list_any (same (term row.now)) (terms_list self.now) }
    {
        match &self.form {
            Form::One(only) => row == only,
            Form::Many(records) => records.contains(row),
        }
    }

    /// One record more, behind the others, unless an equal one is among them. Lists that share them stay as they are. Where a
    /// lender has the record at the same place of its own, it is shared in place of a copy.
    pub fn insert(
        &mut self,
        alloc: Global,
        row: &Term,
        lender: Option<&Records>,
    ) -> Result<(), AllocError>
        ensures ok { OnOk result (self.new ≡ with_one self.old (term row.now)) }
        ensures err { OnErr result (self.new ≡ self.old) }
    {
        let lender = numbered_of(lender);
        match &mut self.form {
            Form::One(only) if row == only => {}
            Form::One(only) => self.form = Form::Many(both(alloc, only, row, lender)?),
            Form::Many(records) if records.contains(row) => {}
            Form::Many(records) => records.push(alloc, row, lender)?,
        }
        Ok(())
    }

    /// The other records. Of several they are shared with these.
    pub fn without(&self, alloc: Global, row: &Term) -> Result<Records, AllocError>
        ensures { IfOk result
            (λ left. left
            ≡ plain_terms (filter (λ x. not (same (term row.now) x)) (terms_list self.now))) }
    {
        match &self.form {
            Form::One(only) if row == only => Ok(Records::new()),
            Form::One(_) => self.try_clone(alloc),
            Form::Many(records) => Ok(Records {
                form: Form::Many(records.without(alloc, row)?),
            }),
        }
    }
}

/// Several records, where they are given.
fn numbered_of(records: Option<&Records>) -> Option<&Numbered> {
    match records {
        Some(records) => match &records.form {
            Form::One(_) => None,
            Form::Many(records) => Some(records),
        },
        None => None,
    }
}

/// The first, and the second behind it: the lender's, where it has them, or copies.
fn both(
    alloc: Global,
    first: &Term,
    second: &Term,
    lender: Option<&Numbered>,
) -> Result<Numbered, AllocError>
    requires { IsFalse (same (term second.now) (term first.now)) }
    ensures { IfOk result (λ all. all ≡ term first.now ∷ term second.now ∷ []) }
{
    let mut records = Numbered::new();
    records.push(alloc, first, lender)?;
    records.push(alloc, second, lender)?;
    Ok(records)
}
