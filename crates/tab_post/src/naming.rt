//! Types that name registers.
use std::marker::{Brand, PhantomData};
use std::sync::Wait;

/// A type that names two registers, so that what was seen of two pairs has two types. Which registers it names is said
/// by the proof of a call that passes it, mostly as `Brand`, to a function over all such types.
pub trait Naming {
    ghost use Rattle.tab_post.specs.Register.{Books};

    ghost books: { Books };
}

impl Naming for Brand {
    ghost books = { record {
      mailboxes = record { number = 0; log_name = 0; cells_name = 0 };
      steps = record { number = 0; log_name = 0; cells_name = 0 };
    } };
}

impl<J: Naming, R> Naming for (R, PhantomData<J>) {
    ghost books = { J.books };
}

/// An entry of one of the registers that a type names.
pub trait Entry {
    ghost use Rattle.logbook.specs.Pages.{Book};
    ghost use Rattle.tab_post.specs.Register.{Books};

    ghost book_in: { Books → Book };
}

/// A handle for waiting, whose type also names registers.
pub trait Host: Naming + Wait + Copy {}

impl<H: Naming + Wait + Copy> Host for H {}
