//! A list of terms, in the form in which whoever made it had them.

ghost use Rattle.std.specs.Prelude.{◌≡◌, IfOk};
ghost use Rattle.std.specs.List.{filter};
ghost use Rattle.tab_term.specs.Data.{plain_terms};
ghost use Rattle.tab_lists.specs.ByKey.{filled_keys, joined};
ghost use Rattle.tab_lists.specs.Conditions.{meets};
ghost use Rattle.tab_lists.specs.Lists.{listed, owned_list};
ghost use Rattle.tab_lists.specs.Snapshots.{entries_of, records_in};

use crate::condition::Condition;
use crate::iter::Iter;
use crate::query::{Query, Scope};
use crate::snapshot::Snapshot;
use std::alloc::{AllocError, Global};
use std::marker::Model;
use std::sync::Arc;
use tab_map::{Entry, Map};
use tab_records::Records;
use tab_term::{Term, Terms};

/// A list of terms that others may hold too. It can be read, and not taken apart.
pub struct SharedTerms {
    owned: Owned,
}

/// Who holds the list itself.
#[derive(Drop)]
pub enum Owned {
    /// One.
    Alone(Form),
    /// Several, by a count of them.
    Shared(Arc<Form, Global>),
}

/// Who else holds the terms.
pub enum Form {
    /// No one.
    Own(Terms),
    /// The table that has these records at one key.
    Entry(Entry<Term, Records>),
    /// The table that has these keys, those at which records stand.
    Keys(Snapshot),
    /// The table that has these records.
    Records(Snapshot),
    /// The table of which a query finds these records, anew at each walk.
    Found(Arc<Query, Global>),
}

// A derived drop would be expanded, variant by variant, at each exit of each function that holds a list.
impl Drop for Form {
    fn drop(self) {
        match self {
            Form::Own(terms) => drop(terms),
            Form::Entry(entry) => drop(entry),
            Form::Keys(snapshot) | Form::Records(snapshot) => drop(snapshot),
            Form::Found(query) => drop(query),
        }
    }
}

impl Drop for SharedTerms {
    fn drop(self) {
        let SharedTerms { owned } = self;
        drop(owned);
    }
}

impl Model for SharedTerms {
    ghost use Rattle.tab_term.specs.Data.{PlainTerms};
    ghost use Rattle.tab_term.specs.Code.{terms_code};

    ghost Value = { PlainTerms };

    ghost coded = { terms_code };

    ghost use Rattle.tab_lists.specs.Lists.{owned_list};

    ghost view = { λ a. owned_list a.owned };
}

impl SharedTerms {
    fn of_form(form: Form) -> SharedTerms
        ensures { result ≡ listed form }
    {
        SharedTerms {
            owned: Owned::Alone(form),
        }
    }

    fn of_shared(form: Arc<Form, Global>) -> SharedTerms
        ensures { result ≡ listed form.value }
    {
        SharedTerms {
            owned: Owned::Shared(form),
        }
    }

    /// The same list twice: what it holds stands once, and goes with the last of the two.
    pub fn pair(self, alloc: Global) -> Result<(SharedTerms, SharedTerms), AllocError>
        ensures { IfOk result (λ both. (both.0 ≡ self) × (both.1 ≡ self)) }
    {
        let SharedTerms { owned } = self;
        let one = shared(alloc, owned)?;
        let other = Arc::try_clone(&one)?;
        Ok((SharedTerms::of_shared(one), SharedTerms::of_shared(other)))
    }

    fn form(&self) -> &Form
        ensures { listed result.now ≡ self.now }
    {
        match &self.owned {
            Owned::Alone(form) => form,
            Owned::Shared(form) => form,
        }
    }

    /// These terms, which no one else holds. Takes no memory.
    pub fn from_terms(terms: Terms) -> SharedTerms
        ensures { result ≡ terms }
    {
        SharedTerms::of_form(Form::Own(terms))
    }

    /// The records of a key, which a table may hold. Takes no memory.
    pub fn from_entry(entry: Entry<Term, Records>) -> SharedTerms
        ensures { result ≡ entry.1 }
    {
        SharedTerms::of_form(Form::Entry(entry))
    }

    /// The keys at which records stand. Takes no memory.
    pub fn from_keys(snapshot: Snapshot) -> SharedTerms
        ensures { result ≡ plain_terms (filled_keys (entries_of snapshot)) }
    {
        SharedTerms::of_form(Form::Keys(snapshot))
    }

    /// The records of all keys, which a table may hold. Takes no memory.
    pub fn from_records(records: Map<Term, Records>) -> SharedTerms
        ensures { result ≡ plain_terms (joined records) }
    {
        SharedTerms::of_form(Form::Records(Snapshot::new(Map::new(), records)))
    }

    /// Those of the records that meet the condition. They are looked for at each walk, and take no memory, however many they
    /// are.
    pub fn from_query(
        alloc: Global,
        scope: Scope,
        condition: Condition,
    ) -> Result<SharedTerms, AllocError>
        ensures { IfOk result
            (λ found. found ≡ plain_terms (filter (meets condition) (records_in scope))) }
    {
        let query = Arc::new(alloc, Query { scope, condition })?;
        Ok(SharedTerms::of_form(Form::Found(query)))
    }

    /// The terms, in their order.
    pub fn iter(&self) -> Iter<'_>
        ensures { plain_terms result ≡ self.now }
    {
        match self.form() {
            Form::Own(terms) => Iter::over(terms.as_slice()),
            Form::Entry(entry) => Iter::over_records_of(entry.pair().1.iter()),
            Form::Keys(snapshot) => Iter::over_keys(snapshot.walk()),
            Form::Records(snapshot) => Iter::over_records(snapshot.walk()),
            Form::Found(query) => Iter::over_query(query),
        }
    }

    /// The same list. What others may hold too is shared; what no one else holds is copied.
    pub fn try_clone(&self, alloc: Global) -> Result<SharedTerms, AllocError>
        ensures { IfOk result (λ copy. copy ≡ self.now) }
    {
        match &self.owned {
            Owned::Shared(form) => Ok(SharedTerms::of_shared(Arc::try_clone(form)?)),
            Owned::Alone(form) => Ok(SharedTerms::of_form(form.try_clone(alloc)?)),
        }
    }

    /// The same terms, in memory of their own.
    pub fn to_terms(&self, alloc: Global) -> Result<Terms, AllocError>
        ensures { IfOk result (λ copy. copy ≡ self.now) }
    {
        let mut copies = Vec::new(alloc);
        for term in self.iter() {
            copies.push(term.try_clone(alloc)?)?;
        }
        Ok(Terms::from_vec(copies))
    }
}

impl Form {
    // Own terms are copied.
    fn try_clone(&self, alloc: Global) -> Result<Form, AllocError>
        ensures { IfOk result (λ copy. listed copy ≡ listed self.now) }
    {
        match self {
            Form::Own(terms) => Ok(Form::Own(terms.try_clone(alloc)?)),
            Form::Entry(entry) => Ok(Form::Entry(entry.try_clone()?)),
            Form::Keys(snapshot) => Ok(Form::Keys(snapshot.share()?)),
            Form::Records(snapshot) => Ok(Form::Records(snapshot.share()?)),
            Form::Found(query) => Ok(Form::Found(Arc::try_clone(query)?)),
        }
    }
}

/// The list, behind a count of those who hold it.
fn shared(alloc: Global, owned: Owned) -> Result<Arc<Form, Global>, AllocError>
    ensures { IfOk result (λ form. listed form.value ≡ owned_list owned) }
{
    match owned {
        Owned::Alone(form) => Ok(Arc::new(alloc, form)?),
        Owned::Shared(form) => Ok(form),
    }
}
