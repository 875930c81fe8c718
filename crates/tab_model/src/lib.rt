//! What a table server is, as plain data: the words that code and contracts share, the definitions of what each
//! step does (specs/), and their laws (`laws`). Nothing here runs a table; memory is taken for the replies and operations that
//! a trace keeps, for a record's own entry, and for copies of operations and keys.

#![tactic(auto)]

mod ask;
mod copying;
mod data;
mod laws;
mod lists;
mod logged_operation;
mod logged_reply;
mod only_record;
mod shared_item;
mod shared_reply;

pub use ask::Ask;
pub use data::{
    Change, Command, Ending, Entry, Event, InfoItem, Item, Kind, Level, Limit, Limits, Lock, Mode,
    Move, Operation, Part, Reply, Schema, TableDef, TableInfo, What,
};
pub use laws::{
    a_log_from_a_base, a_log_with_one_entry_more, a_refusal_leaves_all,
    a_session_alone_never_waits, a_state_follows_from_its_journal, callers_tell_the_log,
    events_give_the_rows, events_tell_their_changes, every_schedule, items_tell_the_changes,
    levels_end_alone, older_wait_and_younger_die, refusals_change_nothing, replies_stay,
    steps_keep_what_holds, subscriptions_are_in_the_log, survivors_right, tables_are_lists,
    these_steps_may_enter, waits_have_no_cycle, what_a_change_leaves,
    what_was_not_done_is_not_observed, who_leaves_has_taken_a_beginning, who_left_is_forgotten,
};
pub use lists::{Atoms, Moves, Numbers, Parts, Replies, Sessions};
pub use logged_operation::{LoggedOperation, OperationForm};
pub use logged_reply::{Kept, LoggedReply};
pub use only_record::{OnlyRecord, copy_of_key};
pub use shared_item::SharedItem;
pub use shared_reply::SharedReply;
