//! The rule of a register, and the step that adds to it.
use logbook::{Gain, Plain, Play, Rule};

/// The first word is the number of entries.
pub struct Counted;

impl<E> Rule<E, u64> for Counted {
    ghost use Rattle.std.specs.Prelude.{[]};
    ghost use base.Fml.{ftrue};
    ghost use Rattle.tab_post.specs.Register.{IsCounted};

    ghost holds = { λ cells entries. IsCounted cells entries };

    ghost first = { [] };

    ghost hinted = { λ n entries. Unit {0} };

    ghost shows = { λ entries. [] };

    ghost keeps = { λ names shown. ftrue };

    ghost moves = { λ ask before after answer. Unit {0} };
}

/// The adder gains nothing from it.
pub struct NoGain;

impl<E> Gain<E, u64> for NoGain {
    ghost use base.Fml.{ftrue};

    ghost after = { λ names about answer. ftrue };
}

/// Appends an entry, if there are as many as were seen.
pub struct Adding;

impl<E> Play<E, u64> for Adding {
    ghost use Rattle.tab_post.specs.Register.{Adds};

    ghost then = { Adds };
}

impl<E> Plain<E, E, u64> for Adding {
    ghost use Rattle.std.specs.Prelude.{None};

    ghost ask = { λ e. e };

    ghost state = { λ e. None };
}
