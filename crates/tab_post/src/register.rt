//! A register, from its beginning.

ghost use Rattle.std.specs.Prelude.{◌≡◌, []};
ghost use Rattle.tab_post.specs.Register.{head_of};

use crate::growth::Counted;
use crate::naming::{Entry, Naming};
use crate::prefix::Prefix;
use logbook::{Seen, Start, Word};
use std::marker::{Model, PhantomData};

/// A new register, which no type names yet. Contracts see which one it is.
#[derive(Drop)]
pub struct Opened<E: Entry> {
    head: Word<E, u64, Counted>,
    seen: Seen<E, u64, Counted>,
}

impl<E: Entry> Model for Opened<E> {
    ghost use Rattle.std.specs.Prelude.{◌≡◌, []};
    ghost use Rattle.logbook.specs.Pages.{Book, book_coded};
    ghost use Rattle.tab_post.specs.Register.{head_of};

    ghost Value = { Book };

    ghost coded = { book_coded };

    ghost view = { λ o. o.seen.book };

    ghost invariant = { λ o. (o.seen.log ≡ []) × (o.head ≡ head_of o.seen.book) };
}

impl<E: Entry> Opened<E> {
    /// A register without entries. It takes no memory.
    pub fn new() -> Opened<E> {
        let (seen, mut first, _second) = Seen::open(Start::alone(), 0, 0);
        Opened {
            head: Word::tracked(0, &mut first),
            seen,
        }
    }

    /// The register under its name, and what was seen of it: nothing.
    pub fn named<J: Naming>(self) -> (Register<E, J>, Prefix<E, J>)
        requires { self ≡ E.book_in J.books }
        ensures { result.1 ≡ [] }
    {
        let Opened { head, seen } = self;
        (
            Register {
                head,
                of: PhantomData,
            },
            Prefix {
                len: 0,
                seen,
                of: PhantomData,
            },
        )
    }
}

/// The register of these entries that the type `J` names.
#[derive(Drop)]
pub struct Register<E: Entry, J: Naming> {
    pub(crate) head: Word<E, u64, Counted>,
    of: PhantomData<J>,
    ghost head_is: { head ≡ head_of (E.book_in J.books) },
}
