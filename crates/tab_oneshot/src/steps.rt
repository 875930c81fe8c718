//! The interface through which the driver sends commands to a session.

ghost use Rattle.std.specs.Prelude.{◌≡◌, ◌∷◌, ◌++◌, [], List, IsTrue, IsOk};
ghost use Rattle.tab_model.specs.Outcome.{is_abort};
ghost use Rattle.tab_oneshot.specs.Calls.{Call, Asked, Waited, Again, answer_in, waited_for, IsNoWait};

use std::alloc::AllocError;
use tab_model::{Command, SharedReply};

/// A session that the driver sends commands to, one after another.
pub trait Steps {
    /// From the first to the second, the session received these calls, in order.
    ghost shows: { Self → List Call → Self → Type 0 };

    /// Hands a command in. An abort takes no memory.
    fn step(&mut self, command: Command) -> Result<SharedReply, AllocError>
        ensures shown { shows self.old (Asked command (answer_in result) ∷ []) self.new }
        ensures abort { IsTrue (is_abort command) → IsOk result };

    /// Waits for the answer of the operation that was sent last and was answered `Waiting`. None if the session can't
    /// wait.
    fn wait(&mut self) -> Option<Result<SharedReply, AllocError>>
        ensures shown { shows self.old (Waited (waited_for result) ∷ []) self.new }
        ensures waited { IsNoWait result };

    /// Announces that the operations are sent again, from the first.
    fn again(&mut self)
        ensures { shows self.old (Again ∷ []) self.new };

    ghost shows_none: { (x : Self) → shows x [] x };

    ghost shows_on: { (x y z : Self) (first more : List Call) → shows x first y → shows y more z
        → shows x (first ++ more) z };
}
