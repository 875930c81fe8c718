//! The log of a book's steps.
//!
//! It is a register of `tab_post`: a list that only grows, of which a thread that saw a beginning knows it for good. Only
//! proofs know its entries; when the program runs it is their number.

ghost use Rattle.std.specs.Prelude.{◌≡◌, [], ◌∷◌, ◌++◌};
ghost use mathlib.Core.List.{IsPrefix};
ghost use Rattle.tab_book.specs.Logs.{made};
ghost use Rattle.tab_book.specs.Steps.{ask_in, ask_of};

use crate::step::Step;
use std::marker::Model;
use std::snapshot::Snapshot;
use tab_model::SharedReply;
use tab_post::{Entry, Host, Opened, Prefix, Register};

/// A request that was made: a step, or a join with the mailbox at this place.
#[derive(Drop)]
pub(crate) enum Request {
    Step(Snapshot<Step>),
    Join(u64),
}

/// A step that was made: the session, its request and the reply, which contracts see.
#[derive(Drop)]
pub struct Logged {
    session: u32,
    request: Request,
    told: Snapshot<SharedReply>,
}

impl Model for Logged {
    ghost use Rattle.std.specs.Coded.{codes};
    ghost use Rattle.tab_term.specs.Code.{term_code, terms_code, pairs_code};
    ghost use Rattle.tab_book.specs.Logs.{Made, made};
    ghost use Rattle.tab_book.specs.Steps.{ask_in};

    ghost Value = { Made };

    ghost coded = { Prim.hlevel (codes, term_code, terms_code, pairs_code) };

    ghost view = { λ l. made l.session (ask_in l.request) l.told.value };
}

impl Entry for Logged {
    ghost book_in = { λ b. b.steps };
}

impl Request {
    /// The request of a step, which the book is to make.
    pub fn of(step: &Step) -> Request
        ensures { ask_in result ≡ ask_of step.now }
    {
        Request::Step(Snapshot::of(step))
    }
}

impl Logged {
    fn new(session: u32, request: Request, told: &SharedReply) -> Logged
        ensures { result ≡ made session (ask_in request) told.now }
    {
        Logged {
            session,
            request,
            told: Snapshot::of(told),
        }
    }
}

/// A beginning of the log that was seen. Contracts see its steps.
pub type Seen<H> = Prefix<Logged, H>;

/// The steps of a book, in their order. Contracts see them.
#[derive(Drop)]
pub(crate) struct Log<H: Host> {
    host: H,
    register: Register<Logged, H>,
    steps: Seen<H>,
}

impl<H: Host> Model for Log<H> {
    ghost use Rattle.std.specs.Prelude.{List};
    ghost use Rattle.std.specs.Coded.{codes};
    ghost use Rattle.tab_term.specs.Code.{term_code, terms_code, pairs_code};
    ghost use Rattle.tab_book.specs.Logs.{Made};

    ghost Value = { List Made };

    ghost coded = { Prim.hlevel (codes, term_code, terms_code, pairs_code) };

    ghost view = { λ l. l.steps };
}

impl<H: Host> Log<H> {
    /// Without steps.
    pub fn new(host: H, opened: Opened<Logged>) -> Log<H>
        requires { opened ≡ H.books.steps }
        ensures { result ≡ [] }
    {
        let (register, steps) = opened.named::<H>();
        Log {
            host,
            register,
            steps,
        }
    }

    /// By which its steps wait.
    pub fn host(&self) -> &H {
        &self.host
    }

    /// What is to be seen of it.
    pub fn seen(&self) -> Seen<H>
        ensures { result ≡ self.now }
    {
        self.steps.again()
    }

    /// Adds a step. The register is the log's own, so no other adds to it; if one did, this would wait for good.
    pub fn add(&mut self, session: u32, request: Request, told: &SharedReply)
        ensures { self.new ≡ self.old ++ made session (ask_in request) told.now ∷ [] }
    {
        let step = Logged::new(session, request, told);
        if self.steps.len() < u64::MAX && self.steps.add(&self.register, &step) {
            return;
        }
        for _ in self.host.forever() {}
        unreachable!()
    }

    /// Shows all its steps to a thread that saw a beginning. More than all can't be seen; if it were, this would wait for
    /// good.
    pub fn show(&self, seen: &mut Seen<H>)
        ensures before { IsPrefix seen.old self.now }
        ensures all { seen.new ≡ self.now }
    {
        if seen.follow(&self.steps) {
            return;
        }
        for _ in self.host.forever() {}
        unreachable!()
    }
}
