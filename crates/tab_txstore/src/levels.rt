//! What a transaction left at the keys that it touched, level by level.
ghost use Rattle.std.specs.Prelude.{◌≡◌, ◌<◌, [], ◌∷◌, ◌++◌, IfOk, MatchOption, OnOk, OnErr, Some, length, vec_len, vec_capacity};
ghost use Rattle.std.specs.Option.{option_copied};
ghost use Rattle.tab_term.specs.Order.{bytes_cmp};
ghost use Rattle.tab_term.specs.View.{term};
ghost use Rattle.tab_map.specs.Entries.{lookup};
ghost use Rattle.tab_model.specs.Names.{plain_terms};
ghost use Rattle.tab_model.specs.declared.data.Move.TheVariants.{Do};
ghost use Rattle.tab_txstore.specs.Merged.{IsSnapshot};
ghost use Rattle.tab_txstore.specs.Overlays.{touched, seen_at};
ghost use Rattle.tab_txstore.specs.Stores.{no_levels, nested, joined, ended, changed, levels_next};

use crate::change::update_of;
use crate::touching::{seen_entry, touch};
use std::alloc::{AllocError, Global};
use std::marker::Model;
use tab_index::IndexedTable;
use tab_lists::Snapshot;
use tab_map::{Entry, Map};
use tab_model::{LoggedOperation, LoggedReply};
use tab_records::Records;
use tab_rows::Update;
use tab_term::{Atom, Term};

/// The innermost level as it is, with what each open level goes back to.
pub struct TxLevels {
    overlay: Map<Atom, Map<Term, Records>>,
    // Of all levels together, in order.
    updates: Vec<Update>,
    // Outermost first.
    saved: Vec<Saved>,
}

/// The state that an open level goes back to: an overlay, which shares its nodes with the later ones, and the number of
/// updates.
#[derive(Drop)]
pub struct Saved {
    overlay: Map<Atom, Map<Term, Records>>,
    updates: usize,
}

impl Model for TxLevels {
    ghost use Rattle.std.specs.Prelude.{length};
    ghost use Rattle.std.specs.Coded.{codes};
    ghost use Rattle.tab_term.specs.Code.{term_code, terms_code, pairs_code};
    ghost use Rattle.tab_txstore.specs.Stores.{Levels as PlainLevels};
    ghost use Rattle.tab_txstore.specs.Kept.{levels_of, Rises};

    ghost Value = { PlainLevels };

    ghost coded = { Prim.hlevel (codes, term_code, terms_code, pairs_code) };

    ghost view = { λ a. levels_of a.overlay a.updates.items a.saved.items };

    ghost invariant = { λ a. Rises 0 a.saved.items (length a.updates.items) };
}

// A derived Drop would be expanded, field by field, at each exit of each caller.
impl Drop for TxLevels {
    fn drop(self) {
        let TxLevels {
            overlay,
            updates,
            saved,
        } = self;
        drop(overlay);
        drop(updates);
        drop(saved);
    }
}

impl TxLevels {
    /// Nothing touched, and no level open below the first.
    pub fn new(alloc: Global) -> TxLevels
        ensures { result ≡ no_levels }
    {
        TxLevels {
            overlay: Map::new(),
            updates: Vec::new(alloc),
            saved: Vec::new(alloc),
        }
    }

    /// The number of open levels below the first.
    pub fn depth(&self) -> usize
        ensures { result ≡ length self.now.saved }
    {
        self.saved.len()
    }

    /// The updates that nothing undid, in order.
    pub fn updates(&self) -> &[Update]
        ensures { result.now ≡ self.now.now.updates }
    {
        self.updates.as_slice()
    }

    /// The updates that nothing undid, in order, without a copy.
    pub fn into_updates(self) -> Vec<Update>
        ensures { result.items ≡ self.now.updates }
    {
        let TxLevels {
            overlay: _,
            updates,
            saved: _,
        } = self;
        updates
    }

    /// A key of a committed table with its records. None if it has none, and the transaction did not touch it.
    pub fn seen_entry<'a>(
        &'a self,
        committed: &'a IndexedTable,
        key: &Term,
    ) -> Option<&'a Entry<Term, Records>>
        ensures { MatchOption result
            (seen_at (touched self.now.now.overlay committed.now.def.name) committed.now.rows
            (term key.now) ≡ [])
            (λ e. e.now.1
            ≡ plain_terms
            (seen_at (touched self.now.now.overlay committed.now.def.name) committed.now.rows
            (term key.now))) }
    {
        seen_entry(&self.overlay, committed, key)
    }

    /// The records at the touched keys, by table.
    pub fn overlay(&self) -> &Map<Atom, Map<Term, Records>>
        ensures { result.now ≡ self.now.now.overlay }
    {
        &self.overlay
    }

    /// The touched keys of a table, each with its records. None if no key of it was touched.
    pub fn touched(&self, committed: &IndexedTable) -> Option<&Map<Term, Records>>
        ensures { option_copied result
            ≡ lookup bytes_cmp committed.now.def.name self.now.now.overlay }
    {
        self.overlay.get(&committed.def().name)
    }

    /// A committed table as the transaction sees it. It takes no memory.
    pub fn snapshot(&self, committed: &IndexedTable) -> Result<Snapshot, AllocError>
        ensures { IfOk result
            (λ s. IsSnapshot
            (touched self.now.now.overlay committed.now.def.name) committed.now.rows s) }
    {
        let own = match self.touched(committed) {
            Some(own) if !own.is_empty() => own.share()?,
            _ => Map::new(),
        };
        Ok(Snapshot::new(own, committed.records().share()?))
    }

    /// Adds an operation that was made over its committed table, with its reply: its change, or if it failed the end of
    /// its level.
    pub fn operate(
        &mut self,
        alloc: Global,
        committed: &IndexedTable,
        operation: &LoggedOperation,
        reply: &LoggedReply,
    ) -> Result<(), AllocError>
        ensures ok { OnOk result
            (self.new ≡ levels_next (Some committed.now) self.old (Do operation.now)
            (Some reply.now)) }
        ensures err { OnErr result (self.new ≡ self.old) }
    {
        if reply.is_failure() {
            self.end();
            return Ok(());
        }
        match update_of(alloc, operation)? {
            Some(update) => self.change(alloc, committed, update),
            None => Ok(()),
        }
    }

    /// Makes a change over a committed table. The overlay and the update have a set's record in one entry.
    fn change(
        &mut self,
        alloc: Global,
        committed: &IndexedTable,
        update: Update,
    ) -> Result<(), AllocError>
        ensures ok { OnOk result
            (self.new ≡ changed (Some committed.now) self.old (Some update)) }
        ensures err { OnErr result (self.new ≡ self.old) }
    {
        self.updates.reserve(1)?;
        touch(&mut self.overlay, alloc, committed, &update)?;
        push_update(&mut self.updates, update);
        Ok(())
    }

    /// A child begins.
    pub fn nest(&mut self) -> Result<(), AllocError>
        ensures ok { OnOk result (self.new ≡ nested self.old) }
        ensures err { OnErr result (self.new ≡ self.old) }
    {
        let overlay = self.overlay.share()?;
        self.saved.push(Saved {
            overlay,
            updates: self.updates.len(),
        })?;
        Ok(())
    }

    /// A child commits: its overlay, which has its parent's, becomes its parent's. Takes no memory.
    pub fn join(&mut self)
        ensures { self.new ≡ joined self.old }
    {
        let Some(parent) = self.saved.pop() else {
            return;
        };
        drop(parent);
    }

    /// The innermost level ends: all is as it was when it began. Takes no memory.
    pub fn end(&mut self)
        ensures { self.new ≡ ended self.old }
    {
        match self.saved.pop() {
            Some(Saved { overlay, updates }) => {
                self.overlay = overlay;
                self.updates.truncate(updates);
            }
            None => {
                self.overlay = Map::new();
                self.updates.truncate(0);
            }
        }
    }

    /// All is undone. Takes no memory.
    pub fn clear(&mut self)
        ensures { self.new ≡ no_levels }
    {
        self.overlay = Map::new();
        self.updates.truncate(0);
        self.saved.truncate(0);
    }
}

fn push_update(updates: &mut Vec<Update>, next: Update)
    requires { vec_len updates.old < vec_capacity updates.old }
    ensures { updates.new.items ≡ updates.old.items ++ next ∷ [] }
{
    updates.push_reserved(next);
}
