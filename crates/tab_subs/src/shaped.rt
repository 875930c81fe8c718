//! Events, each shaped at most once a level.

ghost use Rattle.std.specs.Prelude.{◌≡◌, IfOk, IfSome};
ghost use Rattle.tab_lists.specs.EventTerms.{event_term};
ghost use Rattle.tab_model.specs.Shapes.{shape as shape_of};

use std::alloc::{AllocError, Global};
use std::marker::Model;
use tab_events::{Event, Level, shape};
use tab_lists::SharedEvent;
use tab_term::Atom;

/// An event with its terms so far, one a level, for all subscribers.
#[derive(Drop)]
pub struct Shaped<'a> {
    event: &'a Event,
    simple: Option<SharedEvent>,
    detailed: Option<SharedEvent>,
}

impl<'a> Model for Shaped<'a> {
    ghost use Rattle.std.specs.Prelude.{◌≡◌, IfSome};
    ghost use Rattle.std.specs.Coded.{codes};
    ghost use Rattle.tab_term.specs.Code.{term_code, terms_code, pairs_code};
    ghost use Rattle.tab_model.specs.declared.data.Event.{Event};
    ghost use Rattle.tab_model.specs.declared.data.Level.TheVariants.{Simple, Detailed};
    ghost use Rattle.tab_model.specs.Shapes.{shape};
    ghost use Rattle.tab_lists.specs.EventTerms.{event_term};

    ghost Value = { Event };

    ghost coded = { Prim.hlevel (codes, term_code, terms_code, pairs_code) };

    ghost view = { λ a. a.event.now };

    ghost invariant = { λ a. IfSome a.simple (λ e. event_term e ≡ shape Simple a.event.now)
        × IfSome a.detailed (λ e. event_term e ≡ shape Detailed a.event.now) };
}

impl<'a> Shaped<'a> {
    /// Not shaped yet.
    pub fn new(event: &'a Event) -> Shaped<'a>
        ensures { result ≡ event.now }
    {
        Shaped {
            event,
            simple: None,
            detailed: None,
        }
    }

    /// The table that it is about.
    pub fn table(&self) -> &Atom
        ensures { result.now ≡ self.now.tab }
    {
        &self.event.tab
    }

    /// The event's term at the level, which all subscribers at the level share.
    pub fn told(&mut self, alloc: Global, level: Level) -> Result<SharedEvent, AllocError>
        ensures same { self.new ≡ self.old }
        ensures told { IfOk result (λ e. event_term e ≡ shape_of level self.old) }
    {
        match level {
            Level::Simple => share_of(alloc, self.event, level, &mut self.simple),
            Level::Detailed => share_of(alloc, self.event, level, &mut self.detailed),
        }
    }
}

/// Returns a share of the event's term at the level, which it creates if there is none.
fn share_of(
    alloc: Global,
    event: &Event,
    level: Level,
    kept: &mut Option<SharedEvent>,
) -> Result<SharedEvent, AllocError>
    requires { IfSome kept.old (λ e. event_term e ≡ shape_of level event.now) }
    ensures kept { IfSome kept.new (λ e. event_term e ≡ shape_of level event.now) }
    ensures told { IfOk result (λ e. event_term e ≡ shape_of level event.now) }
{
    if let Some(told) = kept {
        return told.try_clone();
    }
    let told = SharedEvent::new(alloc, shape(alloc, event, level)?)?;
    let share = told.try_clone()?;
    *kept = Some(told);
    Ok(share)
}
