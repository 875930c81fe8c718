ghost use Rattle.std.specs.Prelude.{◌≡◌, ◌<◌, ◌≤◌, ◌+◌, [], ◌∷◌, ◌++◌, IfOk, MatchOption, OnOk, OnErr, Some, None, IsTrue, length, vec_len, vec_capacity};
ghost use Rattle.tab_term.specs.View.{term, terms};
ghost use Rattle.tab_model.specs.Names.{plain_terms};
ghost use Rattle.tab_model.specs.declared.data.Move.TheVariants.{Do, Open as OpenOf, Close as CloseOf, Undo as UndoOf};
ghost use Rattle.tab_model.specs.declared.data.Reply.TheVariants as told_of;
ghost use Rattle.tab_model.specs.Events.{is_failure as is_failure_of};
ghost use Rattle.tab_model.specs.State.{count_moves};
ghost use Rattle.tab_txstore.specs.Merged.{IsSnapshot};
ghost use Rattle.tab_txstore.specs.Overlays.{touched, seen_at};
ghost use Rattle.tab_txstore.specs.Stores.{no_store, store_next};

use crate::levels::TxLevels;
use crate::whole::Whole;
use std::alloc::{AllocError, Global};
use std::marker::Model;
use tab_index::IndexedTable;
use tab_lists::Snapshot;
use tab_map::{Entry, Map};
use tab_model::{Kind, LoggedOperation, LoggedReply, Move, Moves, Operation, Replies};
use tab_records::Records;
use tab_rows::Update;
use tab_term::{Atom, Term};

/// The moves of a transaction, their replies, and the records that it left at the keys that it touched.
pub struct TxStore {
    // With room for the ends of the levels that are open.
    moves: Vec<Move>,
    told: Vec<Option<LoggedReply>>,
    // Of the moves, those that count towards the limit.
    count: usize,
    levels: TxLevels,
}

impl Model for TxStore {
    ghost use Rattle.std.specs.Prelude.{◌≡◌, ◌≤◌, ◌+◌, length, vec_len, vec_capacity};
    ghost use Rattle.std.specs.Coded.{codes};
    ghost use Rattle.tab_term.specs.Code.{term_code, terms_code, pairs_code};
    ghost use Rattle.tab_txstore.specs.Stores.{Store};
    ghost use Rattle.tab_txstore.specs.Kept.{IsCounted};

    ghost Value = { Store };

    ghost coded = { Prim.hlevel (codes, term_code, terms_code, pairs_code) };

    ghost view = { λ a. record { moves = a.moves.items; told = a.told.items; levels = a.levels } };

    ghost invariant = { λ a. (vec_len a.moves + length a.levels.saved ≤ vec_capacity a.moves)
        × (vec_len a.told + length a.levels.saved ≤ vec_capacity a.told)
        × IsCounted a.moves.items a.count };
}

// A derived Drop would be expanded, field by field, at each exit of each caller.
impl Drop for TxStore {
    fn drop(self) {
        let TxStore {
            moves,
            told,
            count: _,
            levels,
        } = self;
        drop(moves);
        drop(told);
        drop(levels);
    }
}

/// All parts of a finished transaction that its commit needs.
#[derive(Drop)]
pub struct Finished {
    pub moves: Moves,
    pub told: Replies,
    pub updates: Vec<Update>,
}

impl TxStore {
    /// Nothing done yet.
    pub fn new(alloc: Global) -> TxStore
        ensures { result ≡ no_store }
    {
        TxStore {
            moves: Vec::new(alloc),
            told: Vec::new(alloc),
            count: 0,
            levels: TxLevels::new(alloc),
        }
    }

    /// An operation that was made over its committed table, with its reply, which is taken as given. One that failed there ends
    /// its level.
    pub fn make(
        &mut self,
        alloc: Global,
        committed: &IndexedTable,
        operation: Operation,
        reply: LoggedReply,
    ) -> Result<(), AllocError>
        ensures ok { OnOk result
            (self.new ≡ store_next (Some committed.now) self.old (Do operation) (Some reply)) }
        ensures err { OnErr result (self.new ≡ self.old) }
    {
        let operation = LoggedOperation::new(alloc, committed.def().kind, operation)?;
        let made = Whole {
            value: (operation, reply),
        };
        reserve(&mut self.moves, self.levels.depth(), 1)?;
        reserve_told(&mut self.told, self.levels.depth(), 1)?;
        self.levels
            .operate(alloc, committed, &made.value.0, &made.value.1)?;
        let (operation, reply) = made.into_value();
        put_move(&mut self.moves, Move::Do(operation));
        put_told(&mut self.told, Some(reply));
        self.count += 1;
        Ok(())
    }

    /// An operation that has no table, with its reply: its level ends.
    pub fn fail(
        &mut self,
        alloc: Global,
        operation: Operation,
        reply: LoggedReply,
    ) -> Result<(), AllocError>
        requires { IsTrue (is_failure_of (Some reply)) }
        ensures ok { OnOk result (self.new ≡ store_next None self.old (Do operation) (Some reply)) }
        ensures err { OnErr result (self.new ≡ self.old) }
    {
        // There is no table, so no set takes the record: it stays a term, as a bag's does.
        let operation = LoggedOperation::new(alloc, Kind::Bag, operation)?;
        let made = Whole {
            value: (operation, reply),
        };
        reserve(&mut self.moves, self.levels.depth(), 1)?;
        reserve_told(&mut self.told, self.levels.depth(), 1)?;
        let (operation, reply) = made.into_value();
        put_move(&mut self.moves, Move::Do(operation));
        put_told(&mut self.told, Some(reply));
        self.levels.end();
        self.count += 1;
        Ok(())
    }

    /// A child begins. The place of its end is reserved.
    pub fn nest(&mut self, age: u64) -> Result<(), AllocError>
        ensures ok { OnOk result
            (self.new ≡ store_next None self.old OpenOf (Some (told_of.Tid age))) }
        ensures err { OnErr result (self.new ≡ self.old) }
    {
        reserve(&mut self.moves, self.levels.depth(), 2)?;
        reserve_told(&mut self.told, self.levels.depth(), 2)?;
        self.levels.nest()?;
        put_move(&mut self.moves, Move::Open);
        put_told(&mut self.told, Some(LoggedReply::tid(age)));
        self.count += 1;
        Ok(())
    }

    /// A child commits: what it did is its parent's. Takes no memory.
    pub fn nest_commit(&mut self)
        requires { 0 < length self.old.levels.saved }
        ensures { self.new ≡ store_next None self.old CloseOf (Some told_of.AtomicOk) }
    {
        put_move(&mut self.moves, Move::Close);
        put_told(&mut self.told, Some(LoggedReply::atomic_ok()));
        self.levels.join();
    }

    /// A child is aborted: what it did is undone. Takes no memory.
    pub fn nest_abort(&mut self)
        requires { 0 < length self.old.levels.saved }
        ensures { self.new ≡ store_next None self.old UndoOf None }
    {
        put_move(&mut self.moves, Move::Undo);
        put_told(&mut self.told, None);
        self.levels.end();
    }

    /// All is undone and forgotten. Takes no memory.
    pub fn clear(&mut self)
        ensures { self.new ≡ no_store }
    {
        self.moves.truncate(0);
        self.told.truncate(0);
        self.count = 0;
        self.levels.clear();
    }

    /// The number of open levels below the first.
    pub fn depth(&self) -> usize
        ensures { result ≡ length self.now.levels.saved }
    {
        self.levels.depth()
    }

    /// The number of moves that count towards the limit of a transaction's operations.
    pub fn count(&self) -> usize
        ensures { result ≡ count_moves self.now.moves }
    {
        self.count
    }

    /// The updates that nothing undid, in order.
    pub fn updates(&self) -> &[Update]
        ensures { result.now ≡ self.now.levels.now.updates }
    {
        self.levels.updates()
    }

    /// The records at the touched keys, by table.
    pub fn overlay(&self) -> &Map<Atom, Map<Term, Records>>
        ensures { result.now ≡ self.now.levels.now.overlay }
    {
        self.levels.overlay()
    }

    /// All by a move, for the log's entry and the commit.
    pub fn finished(self) -> Finished
        ensures moves { result.moves ≡ self.moves }
        ensures told { result.told ≡ self.told }
        ensures updates { result.updates.items ≡ self.levels.now.updates }
    {
        let TxStore {
            moves,
            told,
            count: _,
            levels,
        } = self;
        Finished {
            moves: Moves { items: moves },
            told: Replies { items: told },
            updates: levels.into_updates(),
        }
    }

    // A key of a committed table with its records for the transaction. None if it has none, and it wasn't touched.
    pub(crate) fn seen_entry<'a>(
        &'a self,
        committed: &'a IndexedTable,
        key: &Term,
    ) -> Option<&'a Entry<Term, Records>>
        ensures { MatchOption result
            (seen_at (touched self.now.levels.now.overlay committed.now.def.name) committed.now.rows
            (term key.now) ≡ [])
            (λ e. e.now.1
            ≡ plain_terms
            (seen_at (touched self.now.levels.now.overlay committed.now.def.name)
            committed.now.rows (term key.now))) }
    {
        self.levels.seen_entry(committed, key)
    }

    // A committed table as the transaction sees it.
    pub(crate) fn snapshot(&self, committed: &IndexedTable) -> Result<Snapshot, AllocError>
        ensures { IfOk result
            (λ s. IsSnapshot
            (touched self.now.levels.now.overlay committed.now.def.name) committed.now.rows s) }
    {
        self.levels.snapshot(committed)
    }
}

fn reserve(moves: &mut Vec<Move>, depth: usize, more: usize) -> Result<(), AllocError>
    ensures items { moves.new.items ≡ moves.old.items }
    ensures len { vec_len moves.new ≡ vec_len moves.old }
    ensures kept { vec_capacity moves.old ≤ vec_capacity moves.new }
    ensures room { OnOk result (vec_len moves.new + depth + more ≤ vec_capacity moves.new) }
{
    moves.reserve(places(depth, more)?)
}

fn reserve_told(
    told: &mut Vec<Option<LoggedReply>>,
    depth: usize,
    more: usize,
) -> Result<(), AllocError>
    ensures items { told.new.items ≡ told.old.items }
    ensures len { vec_len told.new ≡ vec_len told.old }
    ensures kept { vec_capacity told.old ≤ vec_capacity told.new }
    ensures room { OnOk result (vec_len told.new + depth + more ≤ vec_capacity told.new) }
{
    told.reserve(places(depth, more)?)
}

// No memory holds as many levels as a size can't count.
fn places(depth: usize, more: usize) -> Result<usize, AllocError>
    ensures { IfOk result (λ places. places ≡ depth + more) }
{
    depth.checked_add(more).ok_or(AllocError)
}

fn put_move(moves: &mut Vec<Move>, next: Move)
    requires { vec_len moves.old < vec_capacity moves.old }
    ensures items { moves.new.items ≡ moves.old.items ++ next ∷ [] }
    ensures len { vec_len moves.new ≡ vec_len moves.old + 1 }
    ensures room { vec_capacity moves.old ≤ vec_capacity moves.new }
{
    moves.push_reserved(next);
}

fn put_told(told: &mut Vec<Option<LoggedReply>>, next: Option<LoggedReply>)
    requires { vec_len told.old < vec_capacity told.old }
    ensures items { told.new.items ≡ told.old.items ++ next ∷ [] }
    ensures len { vec_len told.new ≡ vec_len told.old + 1 }
    ensures room { vec_capacity told.old ≤ vec_capacity told.new }
{
    told.push_reserved(next);
}
