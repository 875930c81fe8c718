//! The subscriptions of sessions to tables.

ghost use Rattle.std.specs.Prelude.{◌≡◌, ◌++◌, ◌∷◌, [], not, true, ◌==◌, OnOk, OnErr};
ghost use Rattle.std.specs.Option.{option_copied};
ghost use Rattle.std.specs.List.{filter};
ghost use Rattle.tab_model.specs.Schemas.{removed_table as removed_by};
ghost use Rattle.tab_model.specs.Log.{has_session as is_among, is_removed};
ghost use Rattle.tab_model.specs.History.{Subscription as SubscriptionOf, is_of as is_subscription_of, outlasts as outlasts_entry, with_subscription};

use std::alloc::{AllocError, Global};
use std::marker::Model;
use tab_model::{Level, Schema};
use tab_term::Atom;

/// A session's subscription to a table.
#[derive(Drop)]
pub struct Subscription {
    pub session: u32,
    pub table: Atom,
    pub level: Level,
}

impl Model for Subscription {
    ghost use Rattle.tab_model.specs.History.{Subscription as SubscriptionOf};

    ghost Value = { SubscriptionOf };

    ghost view = { λ a. record { session = a.session; table = a.table; level = a.level } };
}

fn is_of(subscription: &Subscription, session: u32, table: &Atom) -> bool
    ensures { result ≡ is_subscription_of session table.now subscription.now }
{
    subscription.session == session && subscription.table == *table
}

fn has_session(sessions: &[u32], session: u32) -> bool
    ensures { result ≡ is_among sessions.now session }
{
    for one in sessions {
        if *one == session {
            return true;
        }
    }
    false
}

/// The table that a schema command ends.
pub fn removed(command: &Schema) -> Option<&Atom>
    ensures { option_copied result ≡ removed_by command.now }
{
    match command {
        Schema::Remove(table) => Some(table),
        Schema::Create(_, _) => None,
        Schema::AddIndex(_, _) => None,
        Schema::DelIndex(_, _) => None,
    }
}

fn is_gone(table: &Atom, gone: Option<&Atom>) -> bool
    ensures { result ≡ is_removed table.now (option_copied gone.entry) }
{
    match gone {
        Some(name) => *name == *table,
        None => false,
    }
}

fn outlasts(subscription: &Subscription, overflowed: &[u32], gone: Option<&Atom>) -> bool
    ensures { result ≡ outlasts_entry overflowed.now (option_copied gone.entry) subscription.now }
{
    !(is_gone(&subscription.table, gone) || has_session(overflowed, subscription.session))
}

/// Keeps the subscriptions that outlast an entry in which these sessions overflowed and this table was deleted.
pub fn keep(subscriptions: &mut Vec<Subscription>, overflowed: &[u32], gone: Option<&Atom>)
    ensures { subscriptions.new.items
        ≡ filter (outlasts_entry overflowed.now (option_copied gone.entry))
        subscriptions.old.items }
{
    subscriptions.retain(|subscription| outlasts(subscription, overflowed, gone));
}

/// Takes a session's subscription to a table out.
pub fn unsubscribe(subscriptions: &mut Vec<Subscription>, session: u32, table: &Atom)
    ensures { subscriptions.new.items
        ≡ filter (λ x. not (is_subscription_of session table.now x)) subscriptions.old.items }
{
    subscriptions.retain(|subscription| !is_of(subscription, session, table));
}

/// Puts a session's subscription to a table after the others, in place of an earlier one.
pub fn subscribe(
    subscriptions: &mut Vec<Subscription>,
    alloc: Global,
    session: u32,
    table: &Atom,
    level: Level,
) -> Result<(), AllocError>
    ensures ok { OnOk result
        (subscriptions.new.items
        ≡ with_subscription true subscriptions.old.items
        (record { session = session; table = table.now; level = level })) }
    ensures err { OnErr result (subscriptions.new.items ≡ subscriptions.old.items) }
{
    let name = table.try_clone(alloc)?;
    subscriptions.reserve(1)?;
    subscriptions.retain(|subscription| !is_of(subscription, session, table));
    subscriptions.push_reserved(Subscription {
        session,
        table: name,
        level,
    });
    Ok(())
}

/// Drops the subscriptions of a session.
pub fn forget(subscriptions: &mut Vec<Subscription>, session: u32)
    ensures { subscriptions.new.items
        ≡ filter (λ (x : SubscriptionOf). not (x.session == session)) subscriptions.old.items }
{
    subscriptions.retain(|subscription| subscription.session != session);
}
