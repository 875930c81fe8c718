//! Progress of sessions that wait. Each law is the contract of a function that does nothing.

ghost use Rattle.std.specs.Prelude.{ℕ, List, IsTrue, IsFalse};
ghost use Rattle.tab_model.specs.declared.ask.Ask.TheVariants.{Retry};
ghost use Rattle.tab_model.specs.declared.data.Limits.{Limits};
ghost use Rattle.tab_model.specs.Outcome.{outcome};
ghost use Rattle.tab_model.specs.Reached.{IsRising};
ghost use Rattle.tab_model.specs.Run.{Call, after_all};
ghost use Rattle.tab_model.specs.State.{State, new, is_waiting, IsSound};
ghost use Rattle.tab_laws.specs.Endings.{CanEnd};
ghost use Rattle.tab_laws.specs.Progress.{RetryIsGranted, CanGoOn, LeadsOn, HasOnlyTransaction};

/// A law: never do all sessions wait for one another. From each session that waits, a chain of waits leads to a session
/// that can go on. Either the next retry of that session is granted, or it has an open transaction, does not wait, and
/// blocks a session that waits. So if any session waits, some session can go on. A granted retry ends the wait.
///
/// This is true of every reached state, and of each state that has what every step keeps.
pub fn waits_lead_to_progress()
    ensures leads { (σ : State) (n : ℕ) → IsSound σ → IsRising σ → IsTrue (is_waiting σ n)
        → LeadsOn σ n }
    ensures reached { (limits : Limits) (calls : List Call) (n : ℕ) →
        let σ = after_all (new limits) calls in
        IsTrue (is_waiting σ n) → LeadsOn σ n }
    ensures some { (limits : Limits) (calls : List Call) (n : ℕ) →
        let σ = after_all (new limits) calls in
        IsTrue (is_waiting σ n) → (m : ℕ) × CanGoOn σ m }
    ensures granted { (σ : State) (over : List ℕ) (n : ℕ) → IsRising σ → RetryIsGranted σ n
        → IsFalse (is_waiting (outcome σ over n Retry).state n) }
    ensures reached_granted { (limits : Limits) (calls : List Call) (over : List ℕ) (n : ℕ) →
        let σ = after_all (new limits) calls in
        RetryIsGranted σ n → IsFalse (is_waiting (outcome σ over n Retry).state n) }
{}

/// A law: if a session waits and no other has an open transaction, its next retry is granted. This is true of every reached
/// state, and of each state that has what every step keeps.
pub fn the_only_transaction_is_granted()
    ensures granted { (σ : State) (n : ℕ) → IsSound σ → IsRising σ → IsTrue (is_waiting σ n)
        → HasOnlyTransaction n σ → RetryIsGranted σ n }
    ensures reached { (limits : Limits) (calls : List Call) (n : ℕ) →
        let σ = after_all (new limits) calls in
        IsTrue (is_waiting σ n) → HasOnlyTransaction n σ → RetryIsGranted σ n }
{}

/// A law: no transaction needs an abort or a restart to end. From every reached state, some run of retries and commits leads
/// to a state in which no session waits and no transaction is open. The same is true of each state that has what every step
/// keeps.
pub fn all_transactions_can_end()
    ensures can_end { (σ : State) → IsSound σ → IsRising σ → CanEnd σ }
    ensures reached { (limits : Limits) (calls : List Call) → CanEnd (after_all (new limits) calls) }
{}
