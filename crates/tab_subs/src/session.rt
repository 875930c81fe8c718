//! A session with its transaction, what it watches, and the post that it takes from.

ghost use Rattle.std.specs.Prelude.{◌≡◌, ◌∷◌, Some, None, IfOk, IfSome, OnOk, OnErr, length, nat_le};
ghost use Rattle.std.specs.Borrow.{sem};
ghost use Rattle.tab_model.specs.Slices.{batch_for, end_for};
ghost use Rattle.tab_model.specs.State.{level_in, without_watch};
ghost use Rattle.tab_model.specs.declared.data.Item.TheVariants as Item;
ghost use Rattle.tab_model.specs.declared.data.Ending.TheVariants as Ending;
ghost use Rattle.std.specs.Prelude.{option_to_list};
ghost use Rattle.std.specs.Option.{option_copied};
ghost use Rattle.tab_outbox.specs.Mailboxes.{Tells};
ghost use Rattle.tab_subs.specs.Deliveries.{received, unwatched, IsDecided};
ghost use Rattle.tab_subs.specs.Subscribers.{fresh, take as take_of, marked, is_full};

use crate::answers::{Marked, Taken};
use crate::shaped::Shaped;
use crate::watched::{Watched, forget, level_of};
use std::alloc::{AllocError, Global};
use std::marker::Model;
use tab_events::{Item, Level};
use tab_lists::{EventTerms, SharedTerms};
use tab_model::{Ending, SharedItem};
use tab_outbox::{Mailbox, Met, Post};
use tab_term::Atom;

/// A session: its open transaction, its subscriptions and its post.
#[derive(Drop)]
pub struct Session<P: Post, T> {
    number: u32,
    transaction: Option<T>,
    watching: Vec<Watched>,
    // The number of an overflow that the session has not taken yet.
    overflow: Option<u64>,
    post: P,
}

impl<P: Post, T> Model for Session<P, T> {
    ghost use Rattle.std.specs.Coded.{codes};
    ghost use Rattle.tab_term.specs.Code.{term_code, terms_code, pairs_code};
    ghost use Rattle.tab_subs.specs.Subscribers.{Subscriber};

    ghost Value = { Subscriber T };

    ghost coded = { Prim.hlevel (codes, term_code, terms_code, pairs_code, T.code) };

    ghost view = { λ a.
        record {
          number = a.number;
          transaction = a.transaction;
          watching = a.watching.items;
          outbox = P.outbox a.post;
          overflow = a.overflow;
        } };
}

impl<P: Post + Drop, T: Drop> Session<P, T> {
    ghost use Rattle.tab_subs.specs.Lending.{lends_own};

    /// A session that has just joined.
    pub fn new(alloc: Global, number: u32, post: P) -> Session<P, T>
        ensures { result ≡ fresh number (P.outbox post) }
    {
        Session {
            number,
            transaction: None,
            watching: Vec::new(alloc),
            overflow: None,
            post,
        }
    }

    /// The session's number.
    pub fn number(&self) -> u32
        ensures { result ≡ self.now.number }
    {
        self.number
    }

    /// Its open transaction, if there is one.
    pub fn transaction(&self) -> &Option<T>
        ensures { result.now ≡ self.now.transaction }
    {
        &self.transaction
    }

    /// Its open transaction, or the place for one.
    pub fn transaction_mut(&mut self) -> &mut Option<T>
        ensures* lends { sem 𝓛 (lends_own P.row T.row P.Post self.entry result) }
        ensures value { result.now ≡ self.old.transaction }
    {
        &mut self.transaction
    }

    /// The post that its items are put into.
    pub fn post(&self) -> &P
        ensures { P.outbox result.now ≡ self.now.outbox }
    {
        &self.post
    }

    /// The commit from which on its items are lost, if the session has not taken that overflow yet.
    pub fn overflow(&self) -> Option<u64>
        ensures { result ≡ self.now.overflow }
    {
        self.overflow
    }

    /// The level at which it watches the table; None if it does not.
    pub fn level(&self, table: &Atom) -> Option<Level>
        ensures { result ≡ level_in self.now.watching table.now }
    {
        level_of(&self.watching, table)
    }

    /// Takes its next item, or its overflow once all items are taken.
    pub fn take(&mut self) -> Taken
        ensures { (self.new, result) ≡ take_of self.old }
    {
        if let Some(item) = self.post.pull() {
            return Taken::Item(item);
        }
        match self.overflow.take() {
            Some(number) => Taken::Overflow(number),
            None => Taken::Empty,
        }
    }

    /// Watches the table, with its begin marker put.
    pub fn subscribe(
        &mut self,
        alloc: Global,
        table: Atom,
        level: Level,
        dump: Option<SharedTerms>,
    ) -> Result<Marked, AllocError>
        ensures ok { IfOk result
            (λ m. self.new
            ≡ marked m (record { table = table; level = level } ∷ self.old.watching)
            (Item.Began table level dump) self.old) }
        ensures decided { IfOk result
            (λ m. IfSome self.old.outbox.capacity
            (λ c. is_full m ≡ nat_le c (length self.old.outbox.items))) }
        ensures err { OnErr result (self.new ≡ self.old) }
    {
        let named = table.try_clone(alloc)?;
        let marker = SharedItem::new(alloc, Item::Began(named, level, dump))?;
        self.watching.insert(0, Watched { table, level })?;
        if self.post.put(marker).is_err() {
            self.watching.remove(0);
            return Ok(Marked::Full);
        }
        Ok(Marked::Put)
    }

    /// Watches the table no more, with its end marker put.
    pub fn unsubscribe(&mut self, alloc: Global, table: &Atom) -> Result<Marked, AllocError>
        ensures ok { IfOk result
            (λ m. self.new
            ≡ marked m (without_watch self.old.watching table.now)
            (Item.Ended table.now Ending.Unsubscribed) self.old) }
        ensures decided { IfOk result
            (λ m. IfSome self.old.outbox.capacity
            (λ c. is_full m ≡ nat_le c (length self.old.outbox.items))) }
        ensures err { OnErr result (self.new ≡ self.old) }
    {
        let ended = Item::Ended(table.try_clone(alloc)?, Ending::Unsubscribed);
        let marker = SharedItem::new(alloc, ended)?;
        if self.post.put(marker).is_err() {
            return Ok(Marked::Full);
        }
        forget(&mut self.watching, table);
        Ok(Marked::Put)
    }

    /// Puts an item into the post. If the post refuses it, all subscriptions end. If a table is gone, its subscription
    /// ends. Returns whether the item was refused.
    pub fn receive(&mut self, number: u64, item: Option<SharedItem>, ended: Option<&Atom>) -> bool
        ensures received { self.new
            ≡ received number result (option_to_list item)
            (unwatched (option_copied ended.entry) self.old) }
        ensures decided { IsDecided result (option_to_list item) self.old.outbox }
    {
        if let Some(table) = ended {
            forget(&mut self.watching, table);
        }
        let Some(item) = item else {
            return false;
        };
        if self.post.put(item).is_ok() {
            return false;
        }
        self.watching.clear();
        self.overflow = Some(number);
        true
    }

    /// The session's events of a commit, at its levels.
    pub fn batch(
        &self,
        alloc: Global,
        commit: u64,
        events: &mut Vec<Shaped<'_>>,
    ) -> Result<Option<SharedItem>, AllocError>
        ensures item { IfOk result
            (λ item. option_to_list item
            ≡ batch_for (level_in self.now.watching) commit events.old.items) }
        ensures events { OnOk result (events.new.items ≡ events.old.items) }
    {
        let mut told = EventTerms::new(alloc);
        for event in events.iter_mut() {
            let Some(level) = self.level(event.table()) else {
                continue;
            };
            told.push(event.told(alloc, level)?)?;
        }
        if told.is_empty() {
            return Ok(None);
        }
        Ok(Some(SharedItem::new(alloc, Item::Batch(commit, told))?))
    }

    /// The marker of a table's deletion, if the session watches it.
    pub fn end_mark(&self, alloc: Global, table: &Atom) -> Result<Option<SharedItem>, AllocError>
        ensures { IfOk result
            (λ item. option_to_list item ≡ end_for (level_in self.now.watching) (Some table.now)) }
    {
        if self.level(table).is_none() {
            return Ok(None);
        }
        let ended = Item::Ended(table.try_clone(alloc)?, Ending::Deleted);
        Ok(Some(SharedItem::new(alloc, ended)?))
    }
}

impl<P: Mailbox + Drop, T: Drop> Session<P, T> {
    /// Takes one item more at the post's other end, or shows that all that was put is taken.
    pub fn meet(&mut self, end: &mut P::End) -> Met
        ensures same { self.new ≡ self.old }
        ensures end { P.mailbox end.new ≡ P.mailbox end.old }
        ensures met { Tells self.old.outbox (P.mailbox end.old) (P.taken end.old) result
            (P.taken end.new) }
    {
        self.post.meet(end)
    }
}
