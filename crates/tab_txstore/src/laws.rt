//! Laws of private stores. Each is the contract of a function that does nothing.
ghost use Rattle.std.specs.Prelude.{◌≡◌, ℕ, List, [], ◌∷◌, Option, Some, option_map, IsFalse, length};
ghost use Rattle.std.specs.Str.{bytes_eq};
ghost use Rattle.std.specs.List.{list_any};
ghost use Rattle.tab_term.specs.Data.{PlainTerm};
ghost use Rattle.tab_model.specs.declared.data.Schema.{Schema};
ghost use Rattle.tab_model.specs.Schemas.{table_of_schema, schema_effect};
ghost use Rattle.tab_model.specs.declared.data.Move.{Move};
ghost use Rattle.tab_model.specs.declared.data.Reply.{Reply};
ghost use Rattle.tab_model.specs.Alone.{start, after, replies};
ghost use Rattle.tab_model.specs.Events.{surviving_changes};
ghost use Rattle.tab_model.specs.Locks.{Lock, locks_of, Apart};
ghost use Rattle.tab_model.specs.Catalogs.{Catalog, Table, find, rows_of, cell, IsOrderedCatalog};
ghost use Rattle.tab_model.specs.Tables.{keys};
ghost use Rattle.tab_term.specs.Order.{term_cmp};
ghost use Rattle.tab_map.specs.Entries.{Ascends};
ghost use Rattle.tab_rows.specs.Joined.{IsInOrder, joined as joined_rows};
ghost use Rattle.tab_txstore.specs.Merged.{merged, filled_keys, IsSeen};
ghost use Rattle.tab_txstore.specs.Overlays.{Touched, touched, seen_at};
ghost use Rattle.tab_txstore.specs.Stores.{Store, no_store, store_next, committed_for, Fits};

/// A law: a new store fits all tables. Right after a move it fits those that the move was made over. It goes on to fit
/// after another's commit whose locks do not conflict, and after a schema command on a table on which it holds no lock.
#[tactic(auto, using(crate::proofs::FitsLemmas::fits_new, crate::proofs::FitsLemmas::fits_next, crate::proofs::FitsLemmas::fits_stays, crate::proofs::FitsLemmas::fits_schema))]
pub fn a_store_fits()
    ensures new { (w : Catalog) → Fits no_store w }
    ensures next { (s : Store) (w : Catalog) (x : Move) (r : Option Reply) → Fits s w
        → Fits (store_next (committed_for w x) s x r) w }
    ensures stays { (s : Store) (w : Catalog) (age : ℕ) (xs : List Move) → IsOrderedCatalog w
        → Apart (locks_of xs) (locks_of s.moves) → Fits s w → Fits s (after (start w age) xs).now }
    ensures schema { (s : Store) (w : Catalog) (c : Schema) → IsOrderedCatalog w
        → IsFalse (list_any (λ (l : Lock). bytes_eq l.table (table_of_schema c)) (locks_of s.moves))
        → Fits s w → Fits s (schema_effect w c) }
{}

/// A store that fits the committed tables has the updates that survive and as many levels as are open, and shows at each key what
/// the transaction sees there. Each table keeps the definition of the committed one.
#[tactic(auto, using(crate::proofs::FitsLemmas::updates_survive, crate::proofs::FitsLemmas::cell_shown, crate::proofs::FitsLemmas::table_shown, crate::proofs::FitsLemmas::defs_shown, crate::proofs::FitsLemmas::depth_shown))]
pub fn a_store_shows()
    ensures updates { (s : Store) (w : Catalog) → Fits s w
        → s.levels.now.updates ≡ surviving_changes s.moves s.told }
    ensures cell { (w : Catalog) → IsOrderedCatalog w
        → (s : Store) (age : ℕ) (t : List ℕ) (x : Table) (k : PlainTerm) → Fits s w
        → replies (start w age) s.moves ≡ s.told → find w t ≡ Some x
        → seen_at (touched s.levels.now.overlay t) x.rows k
        ≡ cell (after (start w age) s.moves).now t k }
    ensures table { (w : Catalog) → IsOrderedCatalog w
        → (s : Store) (age : ℕ) (t : List ℕ) (x : Table) → Fits s w
        → replies (start w age) s.moves ≡ s.told → find w t ≡ Some x
        → IsSeen (touched s.levels.now.overlay t) x.rows
        (rows_of (after (start w age) s.moves).now t) }
    ensures depth { (w : Catalog) → IsOrderedCatalog w → (s : Store) (age : ℕ) → Fits s w
        → replies (start w age) s.moves ≡ s.told
        → length (after (start w age) s.moves).saved ≡ length s.levels.saved }
    ensures definition { (w : Catalog) → IsOrderedCatalog w
        → (age : ℕ) (xs : List Move) (t : List ℕ)
        → option_map (λ (x : Table). x.def) (find (after (start w age) xs).now t)
        ≡ option_map (λ (x : Table). x.def) (find w t) }
{}

/// A law: the keys with records, of a table's and the touched ones, are the keys of the table as the transaction sees
/// it.
#[tactic(auto, using(crate::proofs::MergedLemmas::keys_seen))]
pub fn keys_are_seen()
    ensures { (xs es : Touched) (seen : List PlainTerm) → Ascends term_cmp xs → IsInOrder es
        → IsSeen xs (joined_rows es) seen → filled_keys (merged xs es) ≡ keys seen }
{}
