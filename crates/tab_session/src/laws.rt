//! What a run over a stream's payloads says, and what a one-shot leaves. Each law is the contract of a function that does nothing.

ghost use Rattle.std.specs.Prelude.{◌≡◌, ◌≢◌, ◌++◌, ℕ, suc, List, [], length, IsFalse, IsTrue, Some, None};
ghost use Rattle.tab_term.specs.Data.{PlainTerms};
ghost use Rattle.tab_model.specs.declared.data.Command.{Command as CommandOf};
ghost use Rattle.tab_model.specs.declared.data.Command.TheVariants as command;
ghost use Rattle.tab_model.specs.declared.data.Entry.{Entry};
ghost use Rattle.tab_model.specs.declared.data.Item.{Item};
ghost use Rattle.tab_model.specs.declared.data.Part.{Part as PartOf};
ghost use Rattle.tab_model.specs.declared.data.Reply.{Reply as ReplyOf};
ghost use Rattle.tab_model.specs.declared.data.Reply.TheVariants as reply;
ghost use Rattle.tab_model.specs.State.{State, IsSound, transaction_at, is_waiting};
ghost use Rattle.tab_model.specs.Reached.{IsRising};
ghost use Rattle.tab_model.specs.Callers.{Observation, observe_all, AreObserved};
ghost use Rattle.tab_model.specs.Refusals.{IsSole};
ghost use Rattle.tab_model.specs.Run.{IsTied};
ghost use Rattle.tab_proto.specs.Commands.{is_command};
ghost use Rattle.tab_session.specs.declared.answered.PayloadReply.{PayloadReply as AnswerOf};
ghost use Rattle.tab_session.specs.AnsweredPayloads.{NoneRefused, NoneWaits, AreOf, taken_by};
ghost use Rattle.tab_session.specs.Bounded.{IsBounded};
ghost use Rattle.tab_session.specs.Accounts.{account, calls_in, replies_in, of_calls, IsOneCommit};
ghost use Rattle.tab_session.specs.OneSessions.{IsDriven};
ghost use Rattle.tab_session.specs.PartsAlone.{run_alone};
ghost use Rattle.tab_session.specs.Replays.{IsRun};

/// A law: a run is one of the model. Take any log and taken items that led to its first state. They go on with the run,
/// with the log of its steps (`account`), those of one-shots' drivers among them.
///
/// So from a new core:
///
/// - The log of a run is legal, and the tables are those of the log's commits run serially in order.
/// - The replies of open transactions are those of running them by themselves.
/// - The items that each session has taken are a beginning of those that the log gives it.
/// - That log is the one that the run's callers can reconstruct. They see only their requests and replies, and nothing
///   of the state.
pub fn runs_have_a_history()
    ensures sound { (outbox : ℕ) (σ : State) (ps : List (List ℕ)) (xs : List AnswerOf)
        (s : IsRun outbox σ ps xs) → IsSound σ → IsSound s.last }
    ensures rising { (outbox : ℕ) (σ : State) (ps : List (List ℕ)) (xs : List AnswerOf)
        (s : IsRun outbox σ ps xs) → IsSound σ → IsRising σ → IsRising s.last }
    ensures tied { (outbox : ℕ) (σ : State) (ps : List (List ℕ)) (xs : List AnswerOf)
        (s : IsRun outbox σ ps xs) (log : List Entry) (taken : ℕ → List Item) → IsSound σ
        → IsTied σ log taken
        → IsTied s.last (log ++ (account outbox σ ps xs s).log) (λ m. taken m ++ taken_by m xs) }
    ensures told { (outbox : ℕ) (σ : State) (ps : List (List ℕ)) (xs : List AnswerOf)
        (s : IsRun outbox σ ps xs) (h : Observation) → AreObserved σ h.callers
        → let a = account outbox σ ps xs s in
        (observe_all h (calls_in a.exchanges) (replies_in a.exchanges)).log ≡ h.log ++ a.log }
    ensures observed { (outbox : ℕ) (σ : State) (ps : List (List ℕ)) (xs : List AnswerOf)
        (s : IsRun outbox σ ps xs) (h : Observation) → AreObserved σ h.callers
        → let a = account outbox σ ps xs s in
        AreObserved s.last (observe_all h (calls_in a.exchanges) (replies_in a.exchanges)).callers }
{}

/// A law: there is one answer to each payload. If no memory was refused, the answers depend only on the payloads. Two
/// runs over the same payloads give the same answers, from a state whose posts all have a capacity, as they have in a
/// replay.
pub fn an_answer_follows()
    ensures each { (outbox : ℕ) (σ : State) (ps : List (List ℕ)) (xs : List AnswerOf)
        → IsRun outbox σ ps xs → length xs ≡ length ps }
    ensures once { (outbox : ℕ) (σ : State) (ps : List (List ℕ)) (xs ys : List AnswerOf)
        → IsBounded σ → NoneRefused xs → NoneRefused ys → IsRun outbox σ ps xs
        → IsRun outbox σ ps ys → xs ≡ ys }
{}

/// A law: if all payloads are of one session, and no other is joined, no answer is a wait or a restart.
pub fn one_session_never_waits()
    ensures { (outbox n : ℕ) (σ : State) (ps : List (List ℕ)) (xs : List AnswerOf) → AreOf n ps
        → IsSole n σ → IsRun outbox σ ps xs → NoneWaits xs }
{}

/// A law: a one-shot on a session with no transaction leaves it with none, whatever the reply. If each queued request
/// is of an open transaction, as in every reached state, it leaves none of its own. Its parts nest, as those of every
/// request do.
pub fn a_one_shot_leaves_nothing_open()
    ensures levels { (σ μ : State) (n : ℕ) (c : CommandOf) (r : ReplyOf) → IsTrue (is_command c)
        → transaction_at σ n ≡ None → IsDriven σ n c r μ → transaction_at μ n ≡ None }
    ensures queue { (σ μ : State) (n : ℕ) (c : CommandOf) (r : ReplyOf) → IsTrue (is_command c)
        → IsRising σ → transaction_at σ n ≡ None → IsDriven σ n c r μ → IsFalse (is_waiting μ n) }
{}

/// A law: the reply reports the effect of such a one-shot. With `{atomic, Replies}` it has committed once. Replies and
/// the tables are those of running its parts by themselves, on the tables before it and with the next age. Its restarts
/// and the other sessions make no difference. Its log is that commit, with the replies of that run. With any other
/// reply it has committed nothing, the tables are as before it, and it has no log.
pub fn a_one_shot_is_told_what_it_did()
    ensures commit { (σ μ : State) (n : ℕ) (c : CommandOf) (ts : PlainTerms) → IsTrue (is_command c)
        → transaction_at σ n ≡ None → IsDriven σ n c (reply.AtomicTerms ts) μ
        → μ.commits ≡ suc σ.commits }
    ensures alone { (σ μ : State) (n : ℕ) (parts : List PartOf) (retries : ℕ) (ts : PlainTerms)
        → IsTrue (is_command (command.OneShot parts retries)) → transaction_at σ n ≡ None
        → IsDriven σ n (command.OneShot parts retries) (reply.AtomicTerms ts) μ
        → run_alone parts σ.tables σ.next_age ≡ Some (record { replies = ts; tables = μ.tables }) }
    ensures undone { (σ μ : State) (n : ℕ) (c : CommandOf) (r : ReplyOf) → IsTrue (is_command c)
        → transaction_at σ n ≡ None → IsDriven σ n c r μ
        → ((ts : PlainTerms) → r ≢ reply.AtomicTerms ts)
        → (μ.tables ≡ σ.tables) × (μ.commits ≡ σ.commits) }
    ensures entry { (σ μ : State) (n : ℕ) (c : CommandOf) (ts : PlainTerms) → IsTrue (is_command c)
        → IsSound σ → transaction_at σ n ≡ None → (d : IsDriven σ n c (reply.AtomicTerms ts) μ)
        → IsOneCommit σ n (of_calls n σ d.calls μ d.ran).log μ }
    ensures no_entry { (σ μ : State) (n : ℕ) (c : CommandOf) (r : ReplyOf) → IsTrue (is_command c)
        → IsSound σ → transaction_at σ n ≡ None → (d : IsDriven σ n c r μ)
        → ((ts : PlainTerms) → r ≢ reply.AtomicTerms ts) → (of_calls n σ d.calls μ d.ran).log ≡ [] }
{}
