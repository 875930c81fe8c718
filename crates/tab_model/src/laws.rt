//! Laws of the definitions. Each is the contract of a function that does nothing.

ghost use Rattle.std.specs.Prelude.{◌≡◌, ◌≢◌, ◌<◌, ◌↔◌, ◌⊎◌, ℕ, List, [], ◌∷◌, ◌++◌, Bool, IsTrue, false, not, if◌then◌else◌, Some, None, is_some, map, IsFalse};
ghost use Rattle.std.specs.List.{filter, list_any};
ghost use Rattle.tab_term.specs.Data.{PlainTerm, PlainTerms};
ghost use Rattle.tab_term.specs.Same.{same};
ghost use Rattle.tab_term.specs.View.{term};
ghost use Rattle.tab_term.specs.declared.term.Term.{Term};
ghost use Rattle.tab_model.specs.declared.data.Change.{Change};
ghost use Rattle.tab_model.specs.declared.data.Change.TheVariants as change;
ghost use Rattle.tab_model.specs.declared.data.Entry.{Entry};
ghost use Rattle.tab_model.specs.declared.data.Entry.TheVariants.{Subscribed};
ghost use Rattle.tab_model.specs.declared.data.Event.{Event};
ghost use Rattle.tab_model.specs.declared.data.Item.{Item};
ghost use Rattle.tab_model.specs.declared.data.InfoItem.{InfoItem};
ghost use Rattle.tab_model.specs.declared.data.Kind.{Kind};
ghost use Rattle.tab_model.specs.declared.data.Kind.TheVariants as kind;
ghost use Rattle.tab_model.specs.declared.data.Level.{Level};
ghost use Rattle.tab_model.specs.declared.data.Limit.{Limit};
ghost use Rattle.tab_model.specs.declared.data.Limits.{Limits};
ghost use Rattle.tab_model.specs.declared.data.Move.{Move};
ghost use Rattle.tab_model.specs.declared.data.Move.TheVariants.{Do, Undo};
ghost use Rattle.tab_model.specs.declared.data.Operation.{Operation};
ghost use Rattle.tab_model.specs.declared.data.Part.{Part};
ghost use Rattle.tab_model.specs.declared.data.Reply.TheVariants as reply;
ghost use Rattle.tab_model.specs.declared.data.Schema.{Schema};
ghost use Rattle.tab_model.specs.declared.data.Command.TheVariants as command;
ghost use Rattle.tab_model.specs.Names.{terms_list};
ghost use Rattle.tab_model.specs.Tables.{Rows, key, at, apply, rows_after, is_ordered, SameTable};
ghost use Rattle.tab_model.specs.Operations.{key_of_change};
ghost use Rattle.tab_model.specs.Catalogs.{Catalog, Table, find, rows_of, IsOrderedCatalog};
ghost use Rattle.tab_model.specs.Alone.{start, after, replies};
ghost use Rattle.tab_model.specs.Events.{is_failure, surviving_changes, events, change_all};
ghost use Rattle.tab_model.specs.Locks.{locks_of, Apart};
ghost use Rattle.tab_model.specs.Shapes.{shape, change_of, IsShaped, ShapesChange};
ghost use Rattle.tab_model.specs.Ages.{Ages, Owned, Granted, Wait, Die, Covered, Opposed, OpposedByOlder, OpposedBefore, Rises, decide, after_request, can_retry, after_retry, request_of, forget, Chain, last_of};
ghost use Rattle.tab_model.specs.Log.{catalog_after, serial, serial_from, level_after, in_force, IsRight, IsLegal, commits_from};
ghost use Rattle.tab_model.specs.Since.{changes_on, changes_in_items, is_deletion_of, IsInForceSince, AllWereInForce, AllAged, RowsSince};
ghost use Rattle.tab_model.specs.Slices.{dump_of, expected_items, slice, slice_after};
ghost use Rattle.tab_model.specs.History.{Base, empty, level_at, in_force_since, expected_since, slice_since, slice_since_after, IsHistory, tables_after, after_fold, Admits, without_subscriber};
ghost use Rattle.tab_model.specs.State.{State, Session, Transaction, Queued, Outbox, new, session_at, transaction_at, request_in, ages_of, age_at, moves_at, replies_at, level_in, IsSound};
ghost use Rattle.tab_model.specs.Reached.{IsRising};
ghost use Rattle.tab_model.specs.declared.ask.Ask.TheVariants.{Join, Leave, Retry, Take, Do as DoCommand};
ghost use Rattle.tab_model.specs.Outcome.{Ask, outcome};
ghost use Rattle.tab_model.specs.Refusals.{AsBefore, effect_of_reply, with_count, request_of_ask, with_requests, transaction_anew, with_restart, IsRestart, EndsLevel, IsSole, LeavesAll};
ghost use Rattle.tab_model.specs.Run.{Call, AllJoinEmpty, Begins, leave_call, JoinsEmpty, IsTied, outcome_of, after_all, log_of, delivered_to, entries, delivered_by};
ghost use Rattle.tab_model.specs.Standing.{EndsTransaction, JoinsChannel, MayFollow, FollowsLog, still_joined, may_enter};
ghost use Rattle.tab_model.specs.Callers.{Observation, no_observation, entry_of_call, observe, observation_of, AreObserved, IsAsObserved, IsUnobserved};

/// For every schedule of steps: commits are numbered in order and were told what they are told alone in that order;
/// the tables are those of running them so; each open transaction was told what it is told alone on the tables as they
/// are now; and what a joined session has taken, followed by its outbox, is what the log owes it, each item once, in
/// order. Each subscription was made on a table that stood then, and each commit's age is from 1 on. Where a subscription
/// stands now, the changes of the commits since, and so those that the session's items since its begin marker tell, applied
/// to the table's rows at its beginning, give the table's rows now.
#[tactic(auto, using(crate::proofs::Schedules::schedule_legal, crate::proofs::Schedules::schedule_tables, crate::proofs::Schedules::schedule_told, crate::proofs::Schedules::schedule_rows, crate::proofs::Schedules::schedule_stood, crate::proofs::PositiveAges::schedule_aged, crate::proofs::Schedules::schedule_applied))]
pub fn every_schedule()
    ensures legal { (limits : Limits) (calls : List Call) → AllJoinEmpty calls
        → IsLegal [] 0 (log_of (new limits) calls) }
    ensures tables { (limits : Limits) (calls : List Call) → AllJoinEmpty calls
        → (after_all (new limits) calls).tables ≡ serial (log_of (new limits) calls) }
    ensures told { (limits : Limits) (calls : List Call) (n : ℕ)
        → let σ = after_all (new limits) calls in replies (start σ.tables (age_at σ n))
        (moves_at σ n) ≡ replies_at σ n }
    ensures rows { (limits : Limits) (calls : List Call) (n : ℕ) (s : Session) → AllJoinEmpty calls
        → session_at (after_all (new limits) calls).sessions n ≡ Some s
        → delivered_to n (new limits) calls ++ s.outbox.items
        ≡ slice n (log_of (new limits) calls) }
    ensures stood { (limits : Limits) (calls : List Call) → AllJoinEmpty calls
        → AllWereInForce [] (log_of (new limits) calls) }
    ensures aged { (limits : Limits) (calls : List Call) → AllAged (log_of (new limits) calls) }
    ensures rows_since { (limits : Limits) (calls : List Call) (n : ℕ) (s : Session) (t : List ℕ)
        (l : Level) → AllJoinEmpty calls
        → session_at (after_all (new limits) calls).sessions n ≡ Some s
        → level_in s.watching t ≡ Some l
        → RowsSince n t l (log_of (new limits) calls)
        (rows_of (after_all (new limits) calls).tables t) }
{}

/// For every schedule the log is the one that its callers can tell, who see what they asked and were told and nothing of the
/// state. So what they were told is legal. Each open transaction's moves and replies are those that its caller knows, and
/// right on the tables as they are now; each queued operation is the one that its caller was last told to wait for. The queue
/// is the operations told to wait that were not answered since, dropped by an abort or left; the number of commits is the
/// log's; the next age is one more than the outermost begins. An overflow that a session was not told yet is its last one, with the number of its commit or, where
/// the marker of a deletion was refused, of the next commit; a Take that is told an overflow is told that one. A post's refusals
/// are those of its own puts: as many as at its join, and one more, up to the greatest 64 bit number, for each marker
/// that its session is told doesn't fit, and for each overflow. Each step keeps what callers know, and its entry is the one
/// that its caller tells.
#[tactic(auto, using(crate::proofs::CallersLemmas::new_observed, crate::proofs::CallersLemmas::schedule_log, crate::proofs::CallersLemmas::schedule_observed_legal, crate::proofs::CallersLemmas::schedule_observed_told, crate::proofs::CallersPosts::schedule_told_overflow))]
pub fn callers_tell_the_log()
    ensures log { (limits : Limits) (calls : List Call) →
        log_of (new limits) calls ≡ (observation_of limits calls).log }
    ensures legal { (limits : Limits) (calls : List Call) → AllJoinEmpty calls →
        IsLegal [] 0 (observation_of limits calls).log }
    ensures state { (limits : Limits) (calls : List Call) →
        IsAsObserved (after_all (new limits) calls) (observation_of limits calls) }
    ensures told { (limits : Limits) (calls : List Call) (n : ℕ) (t : Transaction) →
        transaction_at (after_all (new limits) calls) n ≡ Some t →
        let k = ((observation_of limits calls).callers n).transaction in
        replies (start (after_all (new limits) calls).tables k.age) k.moves ≡ k.told }
    ensures told_overflow { (limits : Limits) (calls : List Call) (over : List ℕ) (n i : ℕ) →
        (outcome (after_all (new limits) calls) over n Take).reply ≡ reply.Overflow i →
        ((observation_of limits calls).posts n).overflow ≡ Some i }
    ensures new_observed { (limits : Limits) → AreObserved (new limits) no_observation.callers }
    ensures step { (σ : State) (h : Observation) (c : Call) → AreObserved σ h.callers →
        let r = (outcome_of σ c).reply in
        AreObserved (outcome_of σ c).state (observe h c r).callers
        × (entry_of_call h c r ≡ (outcome_of σ c).entry) }
{}

/// A new core has no history and keeps what every reached core has; and each step keeps it, and keeps the state tied to
/// its log and to what its sessions have taken, whatever the history was.
#[tactic(auto, using(crate::proofs::Schedules::new_sound, crate::proofs::SoundSteps::step_sound, crate::proofs::ReachedWaits::new_rising, crate::proofs::TiedSteps::new_tied, crate::proofs::TiedSteps::step_tied))]
pub fn steps_keep_what_holds()
    ensures new_sound { (limits : Limits) → IsSound (new limits) }
    ensures new_rising { (limits : Limits) → IsRising (new limits) }
    ensures new_tied { (limits : Limits) → IsTied (new limits) [] (λ m. []) }
    ensures sound { (σ : State) (over : List ℕ) (n : ℕ) (a : Ask) → IsSound σ
        → IsSound (outcome σ over n a).state }
    ensures rising { (σ : State) (over : List ℕ) (n : ℕ) (a : Ask) → IsSound σ → IsRising σ
        → IsRising (outcome σ over n a).state }
    ensures tied { (σ : State) (log : List Entry) (taken : ℕ → List Item) (over : List ℕ) (n : ℕ)
        (a : Ask) → IsSound σ → JoinsEmpty a → IsTied σ log taken
        → IsTied (outcome σ over n a).state (log ++ entries (outcome σ over n a).entry)
        (λ m. taken m ++ delivered_by m n (outcome σ over n a).reply) }
{}

/// What a change leaves at each key is that change made on what stood there; and lists in canonical order with the
/// same records at each key are equal.
#[tactic(auto, using(crate::proofs::ChangeLaws::change_at_key, crate::proofs::TableLaws::same_lists))]
pub fn tables_are_lists()
    ensures change { (kind : Kind) (rows : Rows) (c : Change) (k : PlainTerm)
        → IsTrue (is_ordered rows)
        → at (apply kind rows c) k
        ≡ (if same (key_of_change c) k then apply kind (at rows k) c else at rows k) }
    ensures lists { (xs ys : Rows) → IsTrue (is_ordered xs) → IsTrue (is_ordered ys)
        → SameTable xs ys → xs ≡ ys }
{}

/// What a change leaves at its key. A set's write leaves that record alone; a bag's write of a new record comes last, and
/// of an equal one leaves the table as it is; a deletion leaves nothing; a deletion of a record leaves the others in their
/// order. At each other key all stays.
#[tactic(auto, using(crate::proofs::ChangeLaws::set_written, crate::proofs::ChangeLaws::bag_written, crate::proofs::ChangeLaws::bag_rewritten, crate::proofs::ChangeLaws::kept_elsewhere))]
pub fn what_a_change_leaves()
    ensures set { (rows : Rows) (r : Term) → IsTrue (is_ordered rows)
        → at (apply kind.Set rows (change.Write r)) (key (term r)) ≡ term r ∷ [] }
    ensures bag_new { (rows : Rows) (r : Term) → IsTrue (is_ordered rows)
        → IsFalse (list_any (same (term r)) rows)
        → at (apply kind.Bag rows (change.Write r)) (key (term r))
        ≡ at rows (key (term r)) ++ term r ∷ [] }
    ensures bag_equal { (rows : Rows) (r : Term) → IsTrue (list_any (same (term r)) rows)
        → apply kind.Bag rows (change.Write r) ≡ rows }
    ensures deleted { (kind : Kind) (rows : Rows) (t : List ℕ) (k : Term)
        → at (apply kind rows (change.Delete t k)) (term k) ≡ [] }
    ensures object_deleted { (kind : Kind) (rows : Rows) (r : Term)
        → at (apply kind rows (change.DeleteObject r)) (key (term r))
        ≡ filter (λ x. not (same (term r) x)) (at rows (key (term r))) }
    ensures elsewhere { (kind : Kind) (rows : Rows) (c : Change) (k : PlainTerm)
        → IsTrue (is_ordered rows) → IsFalse (same (key_of_change c) k)
        → at (apply kind rows c) k ≡ at rows k }
{}

/// What a transaction was told stays right when another commits whose locks do not conflict with its own.
#[tactic(auto, using(crate::proofs::LocksApart::stays))]
pub fn replies_stay()
    ensures { (w : Catalog) (a b : ℕ) (xs ys : List Move) → IsOrderedCatalog w
        → Apart (locks_of xs) (locks_of ys)
        → replies (start (after (start w a) xs).now b) ys ≡ replies (start w b) ys }
{}

/// Whatever is asked, ages rise along every wait, from older to younger: so no chain of waits leads back. In every reached
/// state they do, whoever asked, retried, committed, aborted while it waited, or left.
#[tactic(auto, using(crate::proofs::WaitsHaveNoCycle::request_rises, crate::proofs::WaitsHaveNoCycle::retry_rises, crate::proofs::WaitsHaveNoCycle::forget_rises, crate::proofs::WaitsHaveNoCycle::chain_rises, crate::proofs::ReachedWaits::schedule_rises))]
pub fn waits_have_no_cycle()
    ensures request { (g : Ages) (r : Owned) → Rises g → Rises (after_request g r (decide g r)) }
    ensures retry { (g : Ages) (r : Owned) → request_of r.0 g.queue ≡ Some r → Rises g
        → Rises (after_retry g r (can_retry g r)) }
    ensures forget { (g : Ages) (a : ℕ) → Rises g → Rises (forget g a) }
    ensures chain { (g : Ages) (a b : ℕ) (bs : List ℕ) → Rises g → Chain g a (b ∷ bs)
        → a < last_of b bs }
    ensures reached { (limits : Limits) (calls : List Call)
        → Rises (ages_of (after_all (new limits) calls)) }
    ensures reached_chain { (limits : Limits) (calls : List Call) (a b : ℕ) (bs : List ℕ)
        → Chain (ages_of (after_all (new limits) calls)) a (b ∷ bs) → a < last_of b bs }
{}

/// The updates that no abort and no failure undid, read off a transaction's replies and made one after another, give the
/// tables that the transaction leaves.
#[tactic(auto, using(crate::proofs::SurvivorsRight::survivors_are))]
pub fn survivors_right()
    ensures { (w : Catalog) (age : ℕ) (xs : List Move)
        → change_all w (surviving_changes xs (replies (start w age) xs)) ≡ (after (start w age) xs).now }
{}

/// The changes that a legal log made to a table that stood before it and that it doesn't delete, applied to the table's
/// rows before it, give the rows after it: so the changes since a subscription that stands give the table now, from the
/// rows at its beginning or from the dump of its begin marker. The changes are those that the events of the commits carry.
#[tactic(auto, using(crate::proofs::EventsGiveTheRows::log_applies, crate::proofs::EventsGiveTheRows::events_carry))]
pub fn events_give_the_rows()
    ensures log { (w : Catalog) (n : ℕ) (x : Table) (t : List ℕ) (log : List Entry)
        → IsLegal w n log → find w t ≡ Some x → IsFalse (list_any (is_deletion_of t) log)
        → rows_of (serial_from w log) t ≡ rows_after x.def.kind (rows_of w t) (changes_on t log) }
    ensures since { (s : ℕ) (t : List ℕ) (l : Level) (log : List Entry) (x : Table)
        → IsLegal [] 0 log → (i : IsInForceSince s t l log) → find (serial i.earlier) t ≡ Some x
        → rows_of (serial log) t
        ≡ rows_after x.def.kind (rows_of (serial i.earlier) t) (changes_on t i.since) }
    ensures dump { (s : ℕ) (t : List ℕ) (l : Level) (log : List Entry) (x : Table)
        (records : PlainTerms) → IsLegal [] 0 log → (i : IsInForceSince s t l log)
        → find (serial i.earlier) t ≡ Some x → dump_of (serial i.earlier) t i.dump ≡ Some records
        → rows_of (serial log) t ≡ rows_after x.def.kind (terms_list records) (changes_on t i.since) }
    ensures carried { (w : Catalog) (age : ℕ) (cs : List Change)
        → map (λ (e : Event). e.change) (events w age cs) ≡ cs }
{}

/// What a log with one entry more says: its tables are that entry's on the tables before; a subscription's level is what
/// the entry leaves of it; a session's items are those before and then those that the entry owes it.
#[tactic(auto, using(crate::proofs::SessionLists::serial_more, crate::proofs::SessionLists::in_force_more, crate::proofs::SessionLists::slice_more, crate::proofs::SessionLists::legal_more))]
pub fn a_log_with_one_entry_more()
    ensures tables { (log : List Entry) (e : Entry)
        → serial (log ++ e ∷ []) ≡ catalog_after (serial log) e }
    ensures levels { (s : ℕ) (log : List Entry) (e : Entry) (t : List ℕ)
        → in_force s (log ++ e ∷ []) t ≡ level_after s t (in_force s log t) e }
    ensures items { (s : ℕ) (log : List Entry) (e : Entry)
        → slice s (log ++ e ∷ []) ≡ slice s log ++ expected_items s log e }
    ensures legal { (log : List Entry) (e : Entry) → IsLegal [] 0 log
        → IsRight (serial log) (commits_from 0 log) e → IsLegal [] 0 (log ++ e ∷ []) }
{}

/// A log from a base. With one entry more its items are those before and then those that the entry owes. With the oldest
/// entry folded into the base it is still a history of the same tables, and a session that is joined has the same levels
/// and is due what that entry due it and then what the rest owes it from the folded base. From the empty base all is as
/// of a log from its beginning. A session that has left is forgotten without a change for the others.
#[tactic(auto, using(crate::proofs::Folding::slice_more, crate::proofs::Folding::in_force_more, crate::proofs::Folding::history_more, crate::proofs::Folding::tables_right, crate::proofs::Folding::slice_folded, crate::proofs::Folding::in_force_folded, crate::proofs::Folding::history_folded, crate::proofs::Folding::slice_empty, crate::proofs::Folding::history_empty, crate::proofs::Folding::slice_forgotten, crate::proofs::Folding::in_force_forgotten, crate::proofs::Folding::history_forgotten))]
pub fn a_log_from_a_base()
    ensures items_more { (b : Base) (s : ℕ) (log : List Entry) (e : Entry)
        → slice_since b s (log ++ e ∷ []) ≡ slice_since b s log ++ expected_since b s log e }
    ensures levels_more { (b : Base) (s : ℕ) (log : List Entry) (e : Entry) (t : List ℕ)
        → in_force_since b s (log ++ e ∷ []) t ≡ level_after s t (in_force_since b s log t) e }
    ensures history_more { (b : Base) (log : List Entry) (e : Entry) (w : Catalog)
        → IsHistory b log w → IsRight w (commits_from b.commits log) e
        → IsHistory b (log ++ e ∷ []) (catalog_after w e) }
    ensures tables_folded { (w : Catalog) (c : ℕ) (e : Entry) → IsRight w c e
        → tables_after w e ≡ catalog_after w e }
    ensures items_folded { (joined : Bool) (b : Base) (s : ℕ) (e : Entry) (es : List Entry)
        → IsRight b.tables b.commits e → Admits joined s e
        → slice_since b s (e ∷ es)
        ≡ expected_since b s [] e ++ slice_since (after_fold joined b e) s es }
    ensures levels_folded { (joined : Bool) (b : Base) (s : ℕ) (t : List ℕ) (e : Entry)
        (es : List Entry) → Admits joined s e
        → in_force_since b s (e ∷ es) t ≡ in_force_since (after_fold joined b e) s es t }
    ensures history_folded { (joined : Bool) (b : Base) (e : Entry) (es : List Entry) (w : Catalog)
        → IsHistory b (e ∷ es) w → IsHistory (after_fold joined b e) es w }
    ensures items_from_none { (s : ℕ) (log : List Entry) → slice_since empty s log ≡ slice s log }
    ensures levels_from_none { (s : ℕ) (log : List Entry) (t : List ℕ)
        → in_force_since empty s log t ≡ in_force s log t }
    ensures history_from_none { (log : List Entry) (w : Catalog)
        → IsHistory empty log w ↔ (IsLegal [] 0 log × (serial log ≡ w)) }
    ensures items_forgotten { (b : Base) (s q : ℕ) (log : List Entry) → q ≢ s
        → slice_since (without_subscriber b q) s log ≡ slice_since b s log }
    ensures levels_forgotten { (b : Base) (s q : ℕ) (log : List Entry) (t : List ℕ) → q ≢ s
        → in_force_since (without_subscriber b q) s log t ≡ in_force_since b s log t }
    ensures history_forgotten { (b : Base) (q : ℕ) (log : List Entry) (w : Catalog)
        → IsHistory b log w → IsHistory (without_subscriber b q) log w }
{}

/// A subscription is in force exactly where the log has its Subscribed entry and after it no unsubscribing of it, no
/// deletion of its table, no overflow of its session, and no further Subscribed entry.
#[tactic(auto, using(crate::proofs::InForce::in_force_stands))]
pub fn subscriptions_are_in_the_log()
    ensures stands { (s : ℕ) (t : List ℕ) (l : Level) (log : List Entry) → in_force s log t ≡ Some l
        → IsInForceSince s t l log }
    ensures in_force { (s : ℕ) (t : List ℕ) (l : Level) (log : List Entry)
        → IsInForceSince s t l log → in_force s log t ≡ Some l }
{}

/// An event's term, at either level, tells the event's change; and a term that tells a change is the term of an event
/// with that change. An event has a term where its record has arity 3 or more and its table's atom first.
#[tactic(auto, using(crate::proofs::ShapeLaws::shape_tells, crate::proofs::ShapeLaws::change_shapes))]
pub fn events_tell_their_changes()
    ensures shaped { (l : Level) (e : Event) → IsShaped e → change_of (shape l e) ≡ Some e.change }
    ensures no_other { (x : PlainTerm) (c : Change) → change_of x ≡ Some c → ShapesChange x c }
{}

/// A refusal leaves the state as it was, and so does a schema command that isn't done. A marker that the post refuses leaves
/// only that post's count one higher; a wait queues the operation and nothing else; a restart leaves level 1 open, empty
/// and of the same age, and all else as it was.
#[tactic(auto, using(crate::proofs::RefusalLaws::as_before, crate::proofs::RefusalLaws::schema_refused, crate::proofs::RefusalLaws::refusal_counted, crate::proofs::RefusalLaws::waits_queued, crate::proofs::RefusalLaws::restarts_empty, crate::proofs::RefusalLaws::restarted_open))]
pub fn refusals_change_nothing()
    ensures refused { (σ : State) (over : List ℕ) (n : ℕ) (a : Ask)
        → effect_of_reply (outcome σ over n a).reply ≡ AsBefore → (outcome σ over n a).state ≡ σ }
    ensures schema { (σ : State) (over : List ℕ) (n : ℕ) (c : Schema)
        → (outcome σ over n (DoCommand (command.Schema c))).reply ≢ reply.AtomicOk
        → (outcome σ over n (DoCommand (command.Schema c))).state ≡ σ }
    ensures outbox_full { (σ : State) (over : List ℕ) (n : ℕ) (a : Ask)
        → (outcome σ over n a).reply ≡ reply.OutboxFull
        → (outcome σ over n a).state ≡ with_count σ (session_at σ.sessions n) }
    ensures waiting { (σ : State) (over : List ℕ) (n : ℕ) (a : Ask)
        → (outcome σ over n a).reply ≡ reply.Waiting
        → (outcome σ over n a).state
        ≡ with_requests σ (request_of_ask (session_at σ.sessions n) a) }
    ensures restart { (σ : State) (over : List ℕ) (n : ℕ) (a : Ask)
        → (outcome σ over n a).reply ≡ reply.Restart
        → IsRestart σ (session_at σ.sessions n) (outcome σ over n a).state }
    ensures restarted { (σ : State) (n : ℕ)
        → transaction_at (with_restart σ (session_at σ.sessions n)) n
        ≡ transaction_anew (transaction_at σ n) }
{}

/// An operation that fails, at once or when it is retried, and an abort end the innermost level alone: the transaction is
/// over where that is level 1; else it stays open with its locks, at most the operation's more, on the tables that the
/// level began with. The session's queued request is gone; the rest of its session, all other sessions, all other requests, the
/// tables and the numbers stay.
#[tactic(auto)]
pub fn levels_end_alone()
    ensures failed { (σ : State) (over : List ℕ) (n : ℕ) (t : Transaction) (o : Operation)
        → transaction_at σ n ≡ Some t
        → IsTrue (is_failure (Some (outcome σ over n (DoCommand (command.Do o))).reply))
        → EndsLevel σ n t (Do o) (Some (outcome σ over n (DoCommand (command.Do o))).reply)
        (outcome σ over n (DoCommand (command.Do o))).state }
    ensures retried { (σ : State) (over : List ℕ) (n : ℕ) (t : Transaction) (q : Queued)
        → transaction_at σ n ≡ Some t → request_in σ.queue n ≡ Some q
        → IsTrue (is_failure (Some (outcome σ over n Retry).reply))
        → EndsLevel σ n t (Do q.operation) (Some (outcome σ over n Retry).reply)
        (outcome σ over n Retry).state }
    ensures aborted { (σ : State) (over : List ℕ) (n : ℕ) (t : Transaction) (r : Term)
        → transaction_at σ n ≡ Some t
        → EndsLevel σ n t Undo None (outcome σ over n (DoCommand (command.Abort r))).state }
{}

/// Wait-die in its own words. A request is granted exactly where an own lock covers it or no other owner's lock, held or
/// queued, conflicts; it waits where all owners in conflict are younger; it dies where one of them is older. A retry is
/// granted exactly where no other owner's lock, held or queued before it, conflicts.
#[tactic(auto, using(crate::proofs::WaitDieLaws::granted_where, crate::proofs::WaitDieLaws::waits_where, crate::proofs::WaitDieLaws::dies_where, crate::proofs::WaitDieLaws::retries_where))]
pub fn older_wait_and_younger_die()
    ensures granted { (g : Ages) (r : Owned)
        → (decide g r ≡ Granted) ↔ (Covered g r ⊎ (Opposed g r → ⊥)) }
    ensures waits { (g : Ages) (r : Owned)
        → (decide g r ≡ Wait) ↔ ((Covered g r → ⊥) × Opposed g r × (OpposedByOlder g r → ⊥)) }
    ensures dies { (g : Ages) (r : Owned)
        → (decide g r ≡ Die) ↔ ((Covered g r → ⊥) × OpposedByOlder g r) }
    ensures retried { (g : Ages) (r : Owned) → (IsTrue (can_retry g r)) ↔ (OpposedBefore g r → ⊥) }
{}

/// For every schedule: a joined session has taken a beginning of its slice, and one that left has taken, whatever came
/// after its Leave, a beginning of its slice at that moment.
#[tactic(auto, using(crate::proofs::WhoLeaves::joined_begins, crate::proofs::WhoLeaves::left_begins))]
pub fn who_leaves_has_taken_a_beginning()
    ensures joined { (limits : Limits) (calls : List Call) (n : ℕ) (s : Session)
        → AllJoinEmpty calls → session_at (after_all (new limits) calls).sessions n ≡ Some s
        → Begins (delivered_to n (new limits) calls) (slice n (log_of (new limits) calls)) }
    ensures left { (limits : Limits) (calls later : List Call) (n : ℕ) (s : Session)
        → AllJoinEmpty calls → session_at (after_all (new limits) calls).sessions n ≡ Some s
        → Begins (delivered_to n (new limits) (calls ++ leave_call n ∷ later))
        (slice n (log_of (new limits) calls)) }
{}

/// The items that a session is due since a subscription that stands, which follow those due before in its slice, tell
/// exactly the changes that the log's commits made to that table since: read off the terms of their events, at either
/// level, whatever else the session watches.
#[tactic(auto, using(crate::proofs::ItemsTellTheChanges::slice_parts))]
pub fn items_tell_the_changes()
    ensures told { (s : ℕ) (t : List ℕ) (l : Level) (log : List Entry) → IsLegal [] 0 log
        → AllAged log → (i : IsInForceSince s t l log)
        → changes_in_items t (slice_after s (i.earlier ++ Subscribed s t l i.dump ∷ []) i.since)
        ≡ changes_on t i.since }
    ensures parts { (s : ℕ) (xs ys : List Entry)
        → slice s (xs ++ ys) ≡ slice s xs ++ slice_after s xs ys }
{}

/// A session that is alone stays so while no other asks; it is never told to wait, and never restarted: no one opposes its
/// requests.
#[tactic(auto, using(crate::proofs::SessionAlone::stays_sole, crate::proofs::SessionAlone::no_wait, crate::proofs::SessionAlone::no_restart))]
pub fn a_session_alone_never_waits()
    ensures alone { (σ : State) (over : List ℕ) (n : ℕ) (a : Ask) → IsSole n σ
        → IsSole n (outcome σ over n a).state }
    ensures waiting { (σ : State) (over : List ℕ) (n : ℕ) (a : Ask) → IsSole n σ
        → (outcome σ over n a).reply ≢ reply.Waiting }
    ensures restart { (σ : State) (over : List ℕ) (n : ℕ) (a : Ask) → IsSole n σ
        → (outcome σ over n a).reply ≢ reply.Restart }
{}

/// A running book: its journal starts from a base, into which its oldest entries were folded. Whatever was folded, a new
/// book, each step of its core with channels for posts, each fold of the oldest entry, and each forgetting of a session that
/// left keep that the base and the journal are a history of the core's tables, and that a joined session was sent what it
/// was due of what is folded and then its slice of the journal from the base. A step gives an entry only where it may.
#[tactic(auto, using(crate::proofs::StandingLemmas::new_follows, crate::proofs::StandingLemmas::step_follows, crate::proofs::StandingLemmas::fold_follows, crate::proofs::StandingLemmas::forget_follows, crate::proofs::StandingLemmas::history_of, crate::proofs::StandingLemmas::sent_is, crate::proofs::StandingLemmas::sent_grows, crate::proofs::Entering::enters_only))]
pub fn a_state_follows_from_its_journal()
    ensures new { (limits : Limits) → FollowsLog [] empty [] (new limits) }
    ensures step { (past log : List Entry) (b : Base) (σ : State) (over : List ℕ) (n : ℕ) (a : Ask)
        → IsSound σ → JoinsChannel a → FollowsLog past b log σ
        → FollowsLog past b (log ++ entries (outcome σ over n a).entry) (outcome σ over n a).state }
    ensures fold { (past log : List Entry) (b : Base) (e : Entry) (σ : State)
        → FollowsLog past b (e ∷ log) σ
        → FollowsLog (past ++ e ∷ []) (after_fold (still_joined σ e) b e) log σ }
    ensures forget { (past log : List Entry) (b : Base) (σ : State) (n : ℕ) → (MayFollow σ n → ⊥)
        → FollowsLog past b log σ → FollowsLog past (without_subscriber b n) log σ }
    ensures history { (past log : List Entry) (b : Base) (σ : State) → FollowsLog past b log σ
        → IsHistory b log σ.tables }
    ensures commits { (past log : List Entry) (b : Base) (σ : State) → FollowsLog past b log σ
        → σ.commits ≡ commits_from b.commits log }
    ensures watching { (past log : List Entry) (b : Base) (σ : State) (n : ℕ) (s : Session)
        (t : List ℕ) → FollowsLog past b log σ → session_at σ.sessions n ≡ Some s
        → level_in s.watching t ≡ in_force_since b n log t }
    ensures sent { (past log : List Entry) (b : Base) (σ : State) (n : ℕ) (s : Session)
        → FollowsLog past b log σ → session_at σ.sessions n ≡ Some s
        → s.outbox.items ≡ slice n past ++ slice_since b n log }
    ensures grows { (past log more : List Entry) (b : Base) (σ τ : State) (n : ℕ) (s r : Session)
        → FollowsLog past b log σ → session_at σ.sessions n ≡ Some s
        → FollowsLog past b (log ++ more) τ → session_at τ.sessions n ≡ Some r
        → r.outbox.items ≡ s.outbox.items ++ slice_since_after b n log more }
    ensures enters { (σ : State) (over : List ℕ) (n : ℕ) (a : Ask) (e : Entry)
        → (outcome σ over n a).entry ≡ Some e → IsTrue (may_enter σ n a) }
{}

/// Each refusal by its name: whatever was asked, it leaves the state as it was.
pub fn a_refusal_leaves_all()
    ensures bad_session { LeavesAll reply.BadSession }
    ensures no_transaction { LeavesAll reply.NoTransaction }
    ensures waiting_now { LeavesAll reply.WaitingNow }
    ensures in_transaction { LeavesAll reply.InTransaction }
    ensures not_waiting { LeavesAll reply.NotWaiting }
    ensures system_limit { (l : Limit) → LeavesAll (reply.SystemLimit l) }
    ensures already_exists { (t : List ℕ) → LeavesAll (reply.AlreadyExists t) }
    ensures locked { (t : List ℕ) → LeavesAll (reply.Locked t) }
    ensures bad_definition { (t : List ℕ) (what : Term) → LeavesAll (reply.BadDefinition t what) }
    ensures unknown_table { (t : List ℕ) → LeavesAll (reply.UnknownTable t) }
    ensures already_subscribed { (t : List ℕ) → LeavesAll (reply.AlreadySubscribed t) }
    ensures not_subscribed { (t : List ℕ) → LeavesAll (reply.NotSubscribed t) }
    ensures overflow_untold { LeavesAll reply.OverflowUntold }
{}

/// Replies that tell nothing, whatever was asked: all that callers can tell stays, with no entry.
#[tactic(auto, using(crate::proofs::Unobserved::bad_command, crate::proofs::Unobserved::no_memory, crate::proofs::Unobserved::bad_session, crate::proofs::Unobserved::no_transaction, crate::proofs::Unobserved::waiting_now, crate::proofs::Unobserved::in_transaction, crate::proofs::Unobserved::not_waiting, crate::proofs::Unobserved::system_limit))]
pub fn what_was_not_done_is_not_observed()
    ensures bad_command { IsUnobserved reply.BadCommand }
    ensures no_memory { IsUnobserved reply.NoMemory }
    ensures bad_session { IsUnobserved reply.BadSession }
    ensures no_transaction { IsUnobserved reply.NoTransaction }
    ensures waiting_now { IsUnobserved reply.WaitingNow }
    ensures in_transaction { IsUnobserved reply.InTransaction }
    ensures not_waiting { IsUnobserved reply.NotWaiting }
    ensures system_limit { (l : Limit) → IsUnobserved (reply.SystemLimit l) }
{}

/// Of a session that left a base keeps nothing once it is forgotten, and all else. A folded subscription whose session has
/// left adds nothing, and a session is still joined exactly where it sits.
#[tactic(auto, using(crate::proofs::Folding::level_forgotten))]
pub fn who_left_is_forgotten()
    ensures level { (b : Base) (s : ℕ) (t : List ℕ)
        → level_at (without_subscriber b s).subscriptions s t ≡ None }
    ensures tables { (b : Base) (s : ℕ) → (without_subscriber b s).tables ≡ b.tables }
    ensures commits { (b : Base) (s : ℕ) → (without_subscriber b s).commits ≡ b.commits }
    ensures folded { (b : Base) (s : ℕ) (t : List ℕ) (l : Level) (dump : Bool)
        → after_fold false b (Subscribed s t l dump) ≡ b }
    ensures joined { (σ : State) (s : ℕ) (t : List ℕ) (l : Level) (dump : Bool)
        → still_joined σ (Subscribed s t l dump) ≡ is_some (session_at σ.sessions s) }
{}

/// Which steps may give an entry, both ways: a joined session's schema command, its subscription's begin and end, and a commit
/// that would end its transaction; no other.
#[tactic(auto, using(crate::proofs::Entering::commit_ends))]
pub fn these_steps_may_enter()
    ensures schema { (σ : State) (n : ℕ) (c : Schema)
        → may_enter σ n (DoCommand (command.Schema c)) ≡ is_some (session_at σ.sessions n) }
    ensures subscribe { (σ : State) (n : ℕ) (t : List ℕ) (l : Level) (dump : Bool)
        → may_enter σ n (DoCommand (command.Subscribe t l dump))
        ≡ is_some (session_at σ.sessions n) }
    ensures unsubscribe { (σ : State) (n : ℕ) (t : List ℕ) (l : Level)
        → may_enter σ n (DoCommand (command.Unsubscribe t l)) ≡ is_some (session_at σ.sessions n) }
    ensures commit { (σ : State) (n : ℕ)
        → (IsTrue (may_enter σ n (DoCommand command.Commit))) ↔ EndsTransaction σ n }
    ensures table_info { (σ : State) (n : ℕ) (t : List ℕ) (i : InfoItem)
        → IsFalse (may_enter σ n (DoCommand (command.TableInfo t i))) }
    ensures begin { (σ : State) (n : ℕ) → IsFalse (may_enter σ n (DoCommand command.Begin)) }
    ensures abort { (σ : State) (n : ℕ) (r : Term)
        → IsFalse (may_enter σ n (DoCommand (command.Abort r))) }
    ensures operation { (σ : State) (n : ℕ) (o : Operation)
        → IsFalse (may_enter σ n (DoCommand (command.Do o))) }
    ensures one_shot { (σ : State) (n : ℕ) (parts : List Part) (retries : ℕ)
        → IsFalse (may_enter σ n (DoCommand (command.OneShot parts retries))) }
    ensures join { (σ : State) (n : ℕ) (b : Outbox) → IsFalse (may_enter σ n (Join b)) }
    ensures leave { (σ : State) (n : ℕ) → IsFalse (may_enter σ n Leave) }
    ensures retry { (σ : State) (n : ℕ) → IsFalse (may_enter σ n Retry) }
    ensures take { (σ : State) (n : ℕ) → IsFalse (may_enter σ n Take) }
{}
