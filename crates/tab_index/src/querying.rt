//! What a query finds in a whole table.

ghost use Rattle.std.specs.Prelude.{◌≡◌, [], IfOk};
ghost use Rattle.tab_term.specs.View.{term};
ghost use Rattle.tab_model.specs.Names.{plain_terms};
ghost use Rattle.tab_model.specs.WholeTables.{index_read as index_read_in, match_object as match_object_in};
ghost use Rattle.tab_rows.specs.Joined.{joined, IsInOrder};

use crate::matching::bound_key;
use crate::table::IndexedTable;
use std::alloc::{AllocError, Global};
use tab_lists::{AtKeys, Condition, Scope, SharedTerms, Snapshot};
use tab_map::Map;
use tab_term::{Term, Terms};

impl IndexedTable {
    /// The records that have the value at the position, by ascending keys, those of a key in the order of their insertion. They
    /// are looked up when the list is read: at the index's keys of the value, or in the whole table if the position has no index.
    pub fn index_read(
        &self,
        alloc: Global,
        position: u64,
        value: &Term,
    ) -> Result<SharedTerms, AllocError>
        ensures { IfOk result
            (λ found. found
            ≡ plain_terms (index_read_in self.now.rows position (term value.now))) }
    {
        let condition = Condition::Has(position, value.try_clone(alloc)?);
        let snapshot = self.snapshot()?;
        match self.keys_with(alloc, position, value)? {
            Some(keys) => {
                let at = AtKeys { keys, snapshot };
                SharedTerms::from_query(alloc, Scope::Keys(at), condition)
            }
            None => SharedTerms::from_query(alloc, Scope::All(snapshot), condition),
        }
    }

    /// The records that fit the pattern, by ascending keys, those of a key in the order of their insertion. They are looked up
    /// when the list is read: at the pattern's key, or in the whole table if that key has a `'_'`.
    pub fn match_object(&self, alloc: Global, pattern: &Term) -> Result<SharedTerms, AllocError>
        ensures { IfOk result
            (λ found. found ≡ plain_terms (match_object_in self.now.rows (term pattern.now))) }
    {
        let condition = Condition::Matches(pattern.try_clone(alloc)?);
        let Some(key) = bound_key(pattern) else {
            return SharedTerms::from_query(alloc, Scope::All(self.snapshot()?), condition);
        };
        match self.entry(key) {
            Some(entry) => {
                SharedTerms::from_query(alloc, Scope::Key(entry.try_clone()?), condition)
            }
            None => Ok(SharedTerms::from_terms(Terms::from_vec(Vec::new(alloc)))),
        }
    }

    // The table as no transaction has touched it.
    fn snapshot(&self) -> Result<Snapshot, AllocError>
        ensures own { IfOk result (λ s. s.own ≡ []) }
        ensures records { IfOk result (λ s. joined s.committed ≡ self.now.rows) }
        ensures order { IfOk result (λ s. IsInOrder s.committed) }
    {
        Ok(Snapshot::new(Map::new(), self.records().share()?))
    }
}
