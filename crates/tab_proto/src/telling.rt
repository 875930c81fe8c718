//! The answers of a transaction's members.

ghost use Rattle.std.specs.Prelude.{◌≡◌, IfOk, IsTrue, IsFalse};
ghost use Rattle.tab_model.specs.Shared.{is_found};
ghost use Rattle.tab_lists.specs.Answers.{answer_term};
ghost use Rattle.tab_proto.specs.Replies.{reply_term, is_told};

use crate::building::{name, pair, triple, word};
use std::alloc::{AllocError, Global};
use tab_lists::Answer;
use tab_model::{Reply, SharedReply};

/// The answer for a reply to an operation or to an abort. A list is passed on as it is: memory is taken only for the
/// reason of an abort.
pub fn answer_of(alloc: Global, told: SharedReply) -> Result<Answer, AllocError>
    requires { IsTrue (is_told told) }
    ensures { IfOk result (λ a. answer_term a ≡ reply_term told) }
{
    match told.into_found() {
        Ok(rows) => Ok(Answer::Found(rows)),
        Err(other) => answer_without_rows(alloc, other.reply()),
    }
}

fn answer_without_rows(alloc: Global, reply: &Reply) -> Result<Answer, AllocError>
    requires told { IsTrue (is_told reply.now) }
    requires rows { IsFalse (is_found reply.now) }
    ensures { IfOk result (λ a. answer_term a ≡ reply_term reply.now) }
{
    match reply {
        Reply::Done => Ok(Answer::Done),
        Reply::UserAbort(reason) => Ok(Answer::Aborted(reason.try_clone(alloc)?)),
        Reply::NoTable(table) => {
            let fault = word(alloc, "no_exists")?;
            Ok(Answer::Aborted(pair(alloc, fault, name(alloc, table)?)?))
        }
        Reply::BadType(table, row) => {
            let fault = word(alloc, "bad_type")?;
            let table = name(alloc, table)?;
            let row = row.try_clone(alloc)?;
            Ok(Answer::Aborted(triple(alloc, fault, table, row)?))
        }
        Reply::NoIndex(table, attribute) => {
            let fault = word(alloc, "no_index")?;
            let table = name(alloc, table)?;
            let attribute = attribute.try_clone(alloc)?;
            Ok(Answer::Aborted(triple(alloc, fault, table, attribute)?))
        }
        _ => unreachable!(),
    }
}
