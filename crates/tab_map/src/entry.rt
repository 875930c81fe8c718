//! An entry of a map, which the nodes of several maps may hold, and a key that is sought among entries.
ghost use Rattle.std.specs.Prelude.{◌≡◌, IfOk, OnOk, OnErr};

use crate::revision::Revise;
use std::alloc::{AllocError, Global};
use std::cmp::Ordering;
use std::marker::Model;
use std::sync::Arc;
use tab_key::Abbreviate;

/// A key and its value behind a count of owners, so that a copy of a node copies neither. The key's number stands
/// beside the pointer to them, so that most comparisons follow no pointer.
#[derive(Drop)]
pub struct Entry<K: Abbreviate, V> {
    abbreviation: u64,
    pair: Arc<(K, V), Global>,
}

impl<K: Abbreviate, V> Model for Entry<K, V> {
    ghost use Rattle.std.specs.Prelude.{◌≡◌};

    ghost Value = { K × V };

    ghost view = { λ a. a.pair.value };

    ghost invariant = { λ a. a.abbreviation ≡ K.abbreviation a.pair.value.0 };
}

impl<K: Abbreviate + Drop, V: Drop> Entry<K, V> {
    /// A key and its value, which no map holds yet.
    pub fn new(alloc: Global, pair: (K, V)) -> Result<Entry<K, V>, AllocError>
        ensures { IfOk result (λ e. e ≡ pair) }
    {
        let abbreviation = pair.0.abbreviated();
        Ok(Entry {
            abbreviation,
            pair: Arc::new(alloc, pair)?,
        })
    }

    /// The same entry. It allocates nothing: the error is a count of owners that is full, at 2^63.
    pub fn try_clone(&self) -> Result<Entry<K, V>, AllocError>
        ensures { IfOk result (λ e. e ≡ self.now) }
    {
        Ok(Entry {
            abbreviation: self.abbreviation,
            pair: Arc::try_clone(&self.pair)?,
        })
    }

    /// The key and its value.
    pub fn pair(&self) -> &(K, V)
        ensures { result.now ≡ self.now }
    {
        &self.pair
    }

    /// Gives the entry this key and what becomes of its value, in place where no other map holds it.
    pub(crate) fn revise<R: Revise<V> + Drop>(
        &mut self,
        alloc: Global,
        key: K,
        revision: R,
    ) -> Result<(), AllocError>
        ensures ok { OnOk result (self.new ≡ (key, R.becomes revision self.old.1)) }
        ensures err { OnErr result (self.new ≡ self.old) }
    {
        match Arc::get_mut(&mut self.pair) {
            Some(pair) => {
                revision.revise(alloc, &mut pair.1)?;
                self.abbreviation = key.abbreviated();
                pair.0 = key;
            }
            None => {
                let value = revision.revised(alloc, &self.pair.1)?;
                *self = Entry::new(alloc, (key, value))?;
            }
        }
        Ok(())
    }

    /// The entry's key, to be sought among other entries.
    pub(crate) fn sought<'a>(&'a self) -> Sought<'a, K>
        ensures { result ≡ self.now.0 }
    {
        Sought {
            key: &self.pair.0,
            abbreviation: self.abbreviation,
        }
    }
}

/// A key that is sought, with its number, which a call works out once.
#[derive(Drop)]
pub struct Sought<'a, K: Abbreviate> {
    key: &'a K,
    abbreviation: u64,
}

impl<'a, K: Abbreviate> Model for Sought<'a, K> {
    ghost use Rattle.std.specs.Prelude.{◌≡◌};

    ghost Value = { K };

    ghost view = { λ a. a.key.now };

    ghost invariant = { λ a. a.abbreviation ≡ K.abbreviation a.key.now };
}

impl<'a, K: Abbreviate + Drop> Sought<'a, K> {
    pub(crate) fn new(key: &'a K) -> Sought<'a, K>
        ensures { result ≡ key.now }
    {
        Sought {
            key,
            abbreviation: key.abbreviated(),
        }
    }

    /// Where the key stands against the entry's. The keys are compared only where their numbers tie.
    pub(crate) fn order<V: Drop>(&self, entry: &Entry<K, V>) -> Ordering
        ensures { result ≡ K.cmp self.now entry.now.0 }
    {
        if self.abbreviation < entry.abbreviation {
            Ordering::Less
        } else if entry.abbreviation < self.abbreviation {
            Ordering::Greater
        } else {
            self.key.cmp(&entry.pair.0)
        }
    }
}
