//! A commit's only event, as the item that it is for each level.

ghost use Rattle.std.specs.Prelude.{◌≡◌, ◌∷◌, [], IfOk, IfSome, option_to_list};
ghost use Rattle.tab_model.specs.Slices.{batch_for};
ghost use Rattle.tab_subs.specs.Deliveries.{only_batch};

use std::alloc::{AllocError, Global};
use std::marker::Model;
use tab_events::{Event, Item, Level, shape};
use tab_lists::{EventTerms, SharedEvent};
use tab_model::SharedItem;

/// The only event of a commit, with the items that were made of it, at most one a level. All subscribers at a level
/// share its item.
#[derive(Drop)]
pub struct OnlyEvent<'a> {
    commit: u64,
    event: &'a Event,
    simple: Option<SharedItem>,
    detailed: Option<SharedItem>,
}

impl<'a> Model for OnlyEvent<'a> {
    ghost use Rattle.std.specs.Prelude.{◌≡◌, ℕ, IfSome};
    ghost use Rattle.std.specs.Coded.{codes};
    ghost use Rattle.tab_term.specs.Code.{term_code, terms_code, pairs_code};
    ghost use Rattle.tab_model.specs.declared.data.Event.{Event};
    ghost use Rattle.tab_model.specs.declared.data.Level.TheVariants.{Simple, Detailed};
    ghost use Rattle.tab_subs.specs.Deliveries.{only_batch};

    ghost Value = { ℕ × Event };

    ghost coded = { Prim.hlevel (codes, term_code, terms_code, pairs_code) };

    ghost view = { λ a. (a.commit, a.event.now) };

    ghost invariant = { λ a. IfSome a.simple (λ x. x ≡ only_batch a.commit Simple a.event.now)
        × IfSome a.detailed (λ x. x ≡ only_batch a.commit Detailed a.event.now) };
}

impl<'a> OnlyEvent<'a> {
    /// No item is made of it yet.
    pub fn new(commit: u64, event: &'a Event) -> OnlyEvent<'a>
        ensures { result ≡ (commit, event.now) }
    {
        OnlyEvent {
            commit,
            event,
            simple: None,
            detailed: None,
        }
    }

    /// The item for a session that watches the event's table at this level. None if it does not watch it.
    pub fn due(
        &mut self,
        alloc: Global,
        level: Option<Level>,
    ) -> Result<Option<SharedItem>, AllocError>
        ensures same { self.new ≡ self.old }
        ensures due { IfOk result
            (λ x. option_to_list x ≡ batch_for (λ t. level) self.old.0 (self.old.1 ∷ [])) }
    {
        match level {
            None => Ok(None),
            Some(level @ Level::Simple) => share_of(
                alloc,
                self.commit,
                self.event,
                level,
                &mut self.simple,
            ).map(Some),
            Some(level @ Level::Detailed) => share_of(
                alloc,
                self.commit,
                self.event,
                level,
                &mut self.detailed,
            ).map(Some),
        }
    }
}

/// Returns a share of the level's item, which it creates if there is none.
fn share_of(
    alloc: Global,
    commit: u64,
    event: &Event,
    level: Level,
    kept: &mut Option<SharedItem>,
) -> Result<SharedItem, AllocError>
    requires { IfSome kept.old (λ x. x ≡ only_batch commit level event.now) }
    ensures kept { IfSome kept.new (λ x. x ≡ only_batch commit level event.now) }
    ensures told { IfOk result (λ x. x ≡ only_batch commit level event.now) }
{
    if let Some(item) = kept {
        return item.try_clone();
    }
    let item = item_of(alloc, commit, event, level)?;
    let share = item.try_clone()?;
    *kept = Some(item);
    Ok(share)
}

fn item_of(
    alloc: Global,
    commit: u64,
    event: &Event,
    level: Level,
) -> Result<SharedItem, AllocError>
    ensures { IfOk result (λ x. x ≡ only_batch commit level event.now) }
{
    let told = SharedEvent::new(alloc, shape(alloc, event, level)?)?;
    let mut events = EventTerms::new(alloc);
    events.push(told)?;
    SharedItem::new(alloc, Item::Batch(commit, events))
}
