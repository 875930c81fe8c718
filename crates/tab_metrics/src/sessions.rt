//! The page of sessions, with one line for each session.

use crate::meters::Meters;
use crate::roster::Roster;
use std::alloc::{AllocError, Global};
use std::sync::Wait;
use std::time::Clock;
use tab_book::{Activity, Doing};

/// The names of the columns.
static HEADING: &str =
    "session state     levels seconds outbox sent_bytes   peer                  blocked_by waits_for locks\n";

/// Returns the page of these sessions.
pub fn sessions_of<R: Wait + Clock>(
    rt: &R,
    alloc: Global,
    meters: &Meters,
    roster: &Roster,
    activities: &[Activity],
) -> Result<String, AllocError> {
    let mut text = String::from_str(alloc, HEADING)?;
    for activity in activities {
        let session = activity.session;
        let (written, items) = meters.sent(session);
        let pending = activity.items.saturating_sub(items);
        let seconds = meters.seconds(rt, session);
        let state = state(activity.doing);
        write!(
            text,
            "{session:<7} {state:<9} {:<6} {seconds:<7} {pending:<6} {written:<12} ",
            activity.levels
        )?;
        push_peer(rt, alloc, &mut text, roster, session)?;
        push_blocked(alloc, &mut text, activity)?;
    }
    Ok(text)
}

fn state(doing: Doing) -> &'static str {
    match doing {
        Doing::Idle => "idle",
        Doing::Open => "open",
        Doing::Waits => "waits",
        Doing::BacksOff => "backs-off",
    }
}

fn push_peer<R: Wait>(
    rt: &R,
    alloc: Global,
    text: &mut String,
    roster: &Roster,
    session: u32,
) -> Result<(), AllocError> {
    match roster.peer(rt, session) {
        Some(peer) => {
            let peer = format!(in alloc; "{peer}")?;
            write!(text, "{peer:<21} ")?;
        }
        None => write!(text, "{:<21} ", "-")?,
    }
    Ok(())
}

/// Appends the last three columns, whose texts may be long.
fn push_blocked(alloc: Global, text: &mut String, activity: &Activity) -> Result<(), AllocError> {
    let mut blockers = String::new(alloc);
    push_blockers(&mut blockers, activity)?;
    let mut awaited = String::new(alloc);
    match &activity.awaited {
        Some(table) => push_name(&mut awaited, table.as_str())?,
        None => awaited.push('-')?,
    }
    write!(text, "{blockers:<10} {awaited:<9} ")?;
    push_locks(text, activity)?;
    text.push('\n')?;
    Ok(())
}

fn push_blockers(text: &mut String, activity: &Activity) -> Result<(), AllocError> {
    if activity.blockers.is_empty() {
        text.push('-')?;
    }
    for (place, session) in activity.blockers.iter().enumerate() {
        let comma = if place > 0 { "," } else { "" };
        write!(text, "{comma}{session}")?;
    }
    Ok(())
}

/// Appends the tables in which the session has locks, each with the count of `Activity::locks`, and the count of others.
fn push_locks(text: &mut String, activity: &Activity) -> Result<(), AllocError> {
    if activity.locks.is_empty() {
        text.push('-')?;
    }
    for (place, (table, count)) in activity.locks.iter().enumerate() {
        if place > 0 {
            text.push(',')?;
        }
        push_name(text, table.as_str())?;
        write!(text, "={count}")?;
    }
    if activity.others > 0 {
        write!(text, ",+{}", activity.others)?;
    }
    Ok(())
}

/// Appends a table's name. Only ASCII letters, digits, `_-.@:` and characters from U+00A0 on are written as they are, any
/// other as `%` and two hexadecimal digits. An empty name is written as `%`.
fn push_name(text: &mut String, name: &str) -> Result<(), AllocError> {
    if name.is_empty() {
        text.push('%')?;
    }
    for character in name.chars() {
        if is_plain(character) {
            text.push(character)?;
        } else {
            write!(text, "%{:02X}", u32::from(character))?;
        }
    }
    Ok(())
}

fn is_plain(character: char) -> bool {
    character >= '\u{a0}'
        || character.is_ascii_alphanumeric()
        || matches!(character, '_' | '-' | '.' | '@' | ':')
}

/// Returns a text of the session's locks, and of the table and the blockers of the lock that it waits for or was
/// restarted for.
pub fn transaction_text(alloc: Global, activity: &Activity) -> Result<String, AllocError> {
    let mut text = String::from_str(alloc, "locks: ")?;
    push_locks(&mut text, activity)?;
    if let Some(table) = &activity.awaited {
        text.push_str("; waits for: ")?;
        push_name(&mut text, table.as_str())?;
        text.push_str(" of ")?;
        push_blockers(&mut text, activity)?;
    }
    Ok(text)
}
