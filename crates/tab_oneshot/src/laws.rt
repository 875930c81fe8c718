//! What the definition of a one-shot says. The law is the contract of a function that does nothing.

ghost use Rattle.std.specs.Prelude.{◌≤◌, ℕ, List};
ghost use Rattle.tab_model.specs.declared.data.Command.TheVariants as command;
ghost use Rattle.tab_model.specs.declared.data.Part.{Part as PartOf};
ghost use Rattle.tab_model.specs.declared.data.Reply.{Reply as ReplyOf};
ghost use Rattle.tab_oneshot.specs.Calls.{Call, agains};
ghost use Rattle.tab_oneshot.specs.OneShots.{IsOneShot};

/// A law: the operations of a one-shot are sent again at most as often as its retries say.
pub fn attempts_are_limited()
    ensures { (parts : List PartOf) (retries : ℕ) (calls : List Call) (last : ReplyOf)
        → IsOneShot (command.OneShot parts retries) calls last → agains calls ≤ retries }
{}
