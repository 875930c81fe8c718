//! An ordered set: a single key, or a map whose values say nothing.
ghost use Rattle.std.specs.Prelude.{◌≡◌, ◌↔◌, [], ◌∷◌, IfOk, OnOk, OnErr, IsTrue, slice_get};
ghost use Rattle.std.specs.Iterator.{YieldsFirstRef, item_count};
ghost use Rattle.std.specs.Option.{option_copied};
ghost use Rattle.tab_map.specs.Entries.{insert_entry};
ghost use Rattle.tab_map.specs.KeyList.{KeysAscend, contains_key, insert_key, remove_key};
ghost use Rattle.tab_map.specs.Sets.{held};

use crate::entry::{Entry, Sought};
use crate::{Iter, Map};
use std::alloc::{AllocError, Global};
use std::iter::FusedIterator;
use std::marker::Model;
use tab_key::Abbreviate;

/// A set of keys in their order, which shares its nodes with its copies, as a [`Map`] does.
pub struct Set<K: Abbreviate> {
    form: Form<K>,
}

/// Most sets of an index have one key, which takes one allocation here, and three in a map.
enum Form<K: Abbreviate> {
    One(Entry<K, ()>),
    /// Any number of keys: also none, and one that others were taken from.
    Many(Map<K, ()>),
}

impl<K: Abbreviate> Model for Set<K> {
    ghost use Rattle.std.specs.Prelude.{List};

    ghost Value = { List K };

    ghost use Rattle.tab_map.specs.KeyList.{keys};
    ghost use Rattle.tab_map.specs.Sets.{held};

    ghost view = { λ set. keys (held set.form) };
}

// A derived Drop would be expanded, variant by variant, at each exit of each caller.
impl<K: Abbreviate + Drop> Drop for Form<K> {
    fn drop(self) {
        match self {
            Form::One(entry) => drop(entry),
            Form::Many(map) => drop(map),
        }
    }
}

impl<K: Abbreviate + Drop> Drop for Set<K> {
    fn drop(self) {
        let Set { form } = self;
        drop(form);
    }
}

impl<K: Abbreviate + Drop> Set<K> {
    /// The empty set.
    pub fn new() -> Set<K>
        ensures { result ≡ [] }
    {
        Set {
            form: Form::Many(Map::new()),
        }
    }

    /// The same set, in constant time. It allocates nothing, as with a map.
    pub fn share(&self) -> Result<Set<K>, AllocError>
        ensures { IfOk result (λ set. set ≡ self.now) }
    {
        match &self.form {
            Form::One(entry) => Ok(Set {
                form: Form::One(entry.try_clone()?),
            }),
            Form::Many(map) => Ok(Set {
                form: Form::Many(map.share()?),
            }),
        }
    }

    /// Whether the set has no key, in constant time.
    pub fn is_empty(&self) -> bool
        ensures empty { IsTrue result ↔ (self.now ≡ []) }
        ensures ascends { KeysAscend K.cmp self.now }
    {
        match &self.form {
            Form::One(_) => false,
            Form::Many(map) => map.is_empty(),
        }
    }

    /// Whether the key is in the set.
    pub fn contains(&self, key: &K) -> bool
        ensures found { result ≡ contains_key K.cmp key.now self.now }
        ensures ascends { KeysAscend K.cmp self.now }
    {
        match &self.form {
            Form::One(entry) => Sought::new(key).order(entry).is_eq(),
            Form::Many(map) => map.contains_key(key),
        }
    }

    /// The set with the key.
    pub fn inserted(&self, alloc: Global, key: K) -> Result<Set<K>, AllocError>
        ensures { IfOk result (λ set. set ≡ insert_key K.cmp key self.now) }
    {
        let mut set = self.share()?;
        set.insert(alloc, key)?;
        Ok(set)
    }

    /// The set without the key.
    pub fn removed(&self, alloc: Global, key: &K) -> Result<Set<K>, AllocError>
        ensures { IfOk result (λ set. set ≡ remove_key K.cmp key.now self.now) }
    {
        let mut set = self.share()?;
        set.remove(alloc, key)?;
        Ok(set)
    }

    /// Puts the key in. Sets that share nodes with this one keep their keys.
    pub fn insert(&mut self, alloc: Global, key: K) -> Result<(), AllocError>
        ensures ok { OnOk result (self.new ≡ insert_key K.cmp key self.old) }
        ensures err { OnErr result (self.new ≡ self.old) }
    {
        self.form.insert(alloc, Entry::new(alloc, (key, ()))?)
    }

    /// Takes the key out. It allocates where it copies a shared node.
    pub fn remove(&mut self, alloc: Global, key: &K) -> Result<(), AllocError>
        ensures ok { OnOk result (self.new ≡ remove_key K.cmp key.now self.old) }
        ensures err { OnErr result (self.new ≡ self.old) }
    {
        match &mut self.form {
            Form::One(entry) => {
                if Sought::new(key).order(entry).is_eq() {
                    self.form = Form::Many(Map::new());
                }
                Ok(())
            }
            Form::Many(map) => map.remove(alloc, key),
        }
    }

    /// The keys in their order.
    pub fn iter<'a>(&'a self) -> Keys<'a, K>
        ensures keys { result ≡ self.now }
        ensures ascends { KeysAscend K.cmp self.now }
    {
        match &self.form {
            Form::One(entry) => Keys {
                left: Left::One(Some(&entry.pair().0)),
            },
            Form::Many(map) => Keys {
                left: Left::Many(map.iter()),
            },
        }
    }
}

impl<K: Abbreviate + Drop> Form<K> {
    fn insert(&mut self, alloc: Global, entry: Entry<K, ()>) -> Result<(), AllocError>
        ensures ok { OnOk result (held self.new ≡ insert_entry K.cmp entry (held self.old)) }
        ensures err { OnErr result (held self.new ≡ held self.old) }
    {
        match self {
            Form::One(one) if entry.sought().order(one).is_eq() => *one = entry,
            Form::One(one) => {
                // The entry stays in its place too until nothing can fail.
                let mut both = Map::new();
                both.insert_entry(alloc, one.try_clone()?)?;
                both.insert_entry(alloc, entry)?;
                *self = Form::Many(both);
            }
            Form::Many(map) if map.is_empty() => *self = Form::One(entry),
            Form::Many(map) => map.insert_entry(alloc, entry)?,
        }
        Ok(())
    }
}

/// The keys of a set in their order, seen as the list of those that are left.
#[derive(Drop)]
pub struct Keys<'a, K: Abbreviate> {
    left: Left<'a, K>,
}

/// What a walk over either form of a set has left.
#[derive(Drop)]
enum Left<'a, K: Abbreviate> {
    One(Option<&'a K>),
    Many(Iter<'a, K, ()>),
}

impl<'a, K: Abbreviate> Model for Keys<'a, K> {
    ghost use Rattle.std.specs.Prelude.{List};

    ghost Value = { List K };

    ghost use Rattle.tab_map.specs.Sets.{keys_left};

    ghost view = { λ it. keys_left it.left };
}

impl<'a, K: Abbreviate + Drop> Iterator for Keys<'a, K> {
    type Item = &'a K;

    ghost next_gives = { YieldsFirstRef (λ left. left) };

    ghost remaining = { item_count (λ left. left) };

    fn next(&mut self) -> Option<&'a K> {
        match &mut self.left {
            Left::One(key) => key.take(),
            Left::Many(entries) => Some(&entries.next()?.pair().0),
        }
    }
}

impl<'a, K: Abbreviate + Drop> FusedIterator for Keys<'a, K> {}
