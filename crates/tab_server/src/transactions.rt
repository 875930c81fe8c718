//! What became of a session's transactions, as it is counted.

ghost use Rattle.std.specs.Prelude.{◌≡◌, false};
ghost use Rattle.tab_server.specs.Counted.{aborts_in as aborts_among, commits_in as commits_among, with_transition};

use crate::gate::{Count, Counts};
use tab_book::{TransactionEnd, Transition};

/// The effect of the steps of one hold of the book on the session's transactions. It is counted after the hold, so that
/// the book is not locked meanwhile.
#[derive(Clone, Copy, Debug)]
pub struct Transactions {
    session: u32,
    /// True if a transaction is open, and if one was when it was counted last.
    is_open: bool,
    counted: bool,
    commits: u64,
    aborts: u64,
}

impl Transactions {
    /// None yet.
    pub fn new(session: u32) -> Transactions
        ensures { result ≡ record {
          session = session;
          is_open = false;
          counted = false;
          commits = 0;
          aborts = 0;
        } }
    {
        Transactions {
            session,
            is_open: false,
            counted: false,
            commits: 0,
            aborts: 0,
        }
    }

    /// One step more. If the transaction of the step before is not open now, the session left in another thread.
    pub fn step(&mut self, transaction: Transition)
        ensures { self.new ≡ with_transition self.old transaction }
    {
        let ended_between = u64::from(self.is_open && transaction.before == 0);
        self.is_open = transaction.after > 0;
        self.commits = self.commits.saturating_add(commits_in(transaction.ended));
        self.aborts = self
            .aborts
            .saturating_add(ended_between + aborts_in(transaction.ended));
    }

    /// Counts what was not counted yet. A transaction that began and ended since is not reported as open.
    pub fn count<C: Counts>(&mut self, counts: &C)
        ensures { self.new ≡ record self.old { counted = self.old.is_open; commits = 0; aborts = 0 } }
    {
        if self.is_open && !self.counted {
            counts.begin(self.session);
        }
        if self.counted && !self.is_open {
            counts.end(self.session);
        }
        self.counted = self.is_open;
        if self.commits > 0 {
            counts.count(Count::Commits, self.commits);
        }
        if self.aborts > 0 {
            counts.count(Count::Aborts, self.aborts);
        }
        self.commits = 0;
        self.aborts = 0;
    }
}

/// The commits among the ends of one transaction.
fn commits_in(ended: Option<TransactionEnd>) -> u64
    ensures { result ≡ commits_among ended }
{
    u64::from(matches!(ended, Some(TransactionEnd::Commit)))
}

/// The ends without a commit. A restart is none: the transaction goes on.
fn aborts_in(ended: Option<TransactionEnd>) -> u64
    ensures { result ≡ aborts_among ended }
{
    u64::from(matches!(ended, Some(TransactionEnd::Abort | TransactionEnd::Leave)))
}
