//! A reply that stands once for all who hold it.

ghost use Rattle.std.specs.Prelude.{◌≡◌, IfOk, IsOk, MatchResult, IsFalse};
ghost use Rattle.tab_model.specs.declared.data.Reply.TheVariants as reply_of;
ghost use Rattle.tab_model.specs.Shared.{is_found};

use crate::data::Reply;
use crate::logged_reply::LoggedReply;
use std::alloc::{AllocError, Global};
use std::marker::Model;
use std::sync::Arc;
use tab_lists::SharedTerms;

/// A reply, alone or shared. It can be read, and nothing but a list be taken out, since others may
/// read it too.
pub struct SharedReply {
    owned: Owned,
}

#[derive(Drop)]
enum Owned {
    Own(Reply),
    Shared(Arc<Reply, Global>),
}

impl Model for SharedReply {
    ghost use Rattle.tab_model.specs.declared.data.Reply.{Reply};
    ghost use Rattle.std.specs.Coded.{codes};
    ghost use Rattle.tab_term.specs.Code.{terms_code, pairs_code};

    ghost Value = { Reply };

    ghost coded = { Prim.hlevel (codes, terms_code, pairs_code) };

    ghost use Rattle.tab_model.specs.Shared.{reply_in, IsOwned};

    ghost view = { λ a. reply_in a.owned };

    ghost invariant = { λ a. IsOwned a.owned };
}

// A derived Drop would be expanded, variant by variant, at each exit of each caller.
impl Drop for SharedReply {
    fn drop(self) {
        let SharedReply { owned } = self;
        drop(owned);
    }
}

impl SharedReply {
    /// A reply that is shared with no one. Takes no memory.
    pub fn new(reply: Reply) -> SharedReply
        ensures { result ≡ reply }
    {
        SharedReply {
            owned: Owned::Own(reply),
        }
    }

    /// The same reply twice, for who is told it and for the trace: the parts that it has stand once, and go with the last of
    /// the two. `Done` takes no memory. A list is shared by itself, so that each of the two can hand it on.
    pub fn pair(alloc: Global, reply: Reply) -> Result<(SharedReply, LoggedReply), AllocError>
        ensures both { IfOk result (λ both. (both.0 ≡ reply) × (both.1 ≡ reply)) }
        ensures done { reply ≡ reply_of.Done → IsOk result }
    {
        if let Some(logged) = LoggedReply::short(&reply) {
            return Ok((SharedReply::new(reply), logged));
        }
        match reply.into_found() {
            Ok(rows) => {
                let (told, logged) = rows.pair(alloc)?;
                Ok((
                    SharedReply::new(Reply::Found(told)),
                    LoggedReply::found(logged),
                ))
            }
            Err(reply) => {
                let told = Arc::new(alloc, reply)?;
                let logged = Arc::try_clone(&told)?;
                Ok((SharedReply::of_shared(told), LoggedReply::other(logged)))
            }
        }
    }

    fn of_shared(reply: Arc<Reply, Global>) -> SharedReply
        requires { IsFalse (is_found reply.value) }
        ensures { result ≡ reply.value }
    {
        SharedReply {
            owned: Owned::Shared(reply),
        }
    }

    /// The reply itself.
    pub fn reply(&self) -> &Reply
        ensures { result.now ≡ self.now }
    {
        match &self.owned {
            Owned::Own(reply) => reply,
            Owned::Shared(reply) => reply,
        }
    }

    /// The list of a reply that found one, without a copy. Any other reply is given back.
    pub fn into_found(self) -> Result<SharedTerms, SharedReply>
        ensures { MatchResult result (λ rows. self ≡ reply_of.Found rows)
            (λ told. (told ≡ self) × (IsFalse (is_found self))) }
    {
        let SharedReply { owned } = self;
        match owned {
            Owned::Own(reply) => reply.into_found().map_err(SharedReply::new),
            Owned::Shared(reply) => Err(SharedReply::of_shared(reply)),
        }
    }
}
