//! Replies, written without a term being built.

ghost use Rattle.std.specs.Prelude.{codes, pos, ◌≡◌, ◌≤◌, ◌<◌, ◌*◌, ◌++◌, ◌∷◌, IsTrue, IsFalse, min, ◌↔◌, [], length, if◌then◌else◌, OnOk, OnErr, IfOk, IfErr, IfSome, IfNone, Err, Option, Some, None, ℕ};
ghost use Rattle.std.specs.Io.KnownBytes.{Appends};
ghost use Rattle.tab_term.specs.Canon.{canon};
ghost use Rattle.tab_term.specs.Data.{atom, int, list, pair as pair_of, triple as triple_of};
ghost use Rattle.tab_term.specs.View.{term};
ghost use Rattle.tab_etf.specs.Frames.{frame};
ghost use Rattle.tab_etf.specs.Outlines.{leaf_term, outline_term, IsShort, IsShortOutline};
ghost use Rattle.tab_etf.specs.Briefs.{token_term, IsShortToken};
ghost use Rattle.tab_etf.specs.Writing.{IsUnwritten};
ghost use Rattle.tab_model.specs.declared.data.Reply.{Reply as ReplyOf};
ghost use Rattle.tab_proto.specs.Commands.{level_word as level_word_of};
ghost use Rattle.tab_proto.specs.Replies.{reply_term as reply_term_of, item_term as item_term_of, info_term as info_term_of, limit_word as limit_word_of, kind_word as kind_word_of, ending_word as ending_word_of, response, is_listing, is_long, IsBriefOf, IsOutlineOf};

use tab_etf::{
    Body, Brief, EncodeFault, FrameFault, Leaf, Outline, Target, Token, Unmeasured, append_brief,
    append_outline, append_pair_within, write_outline,
};
use tab_lists::SharedTerms;
use tab_model::{Ending, Item, Kind, Level, Limit, Reply, TableInfo};
use tab_term::{Atom, Term};

/// Writes the frame of `{Session, Reply}`, or of `{reply, Reply}` if no session is named.
///
/// It takes no memory. At `Device` a beginning of the frame is written; at `FrameTooLong` nothing is.
pub fn write_reply<W: Target>(
    device: &mut W,
    session: Option<u32>,
    reply: &Reply,
) -> Result<(), FrameFault>
    ensures ok { OnOk result
        (Appends (W.contents device.old) (W.contents device.new)
        (frame (131 ∷ canon (response session reply.now)))) }
    ensures same { OnOk result (W.faults device.new ≡ W.faults device.old) }
    ensures err { IfErr result
        (λ e. IsUnwritten e (131 ∷ canon (response session reply.now)) (W.contents device.old)
        (W.contents device.new) (W.faults device.old) (W.faults device.new)) }
{
    write_outline(device, &behind(first_of(reply, session), outline_of(reply)))
}

/// Adds the frame that `write_reply` writes. On an error the bytes are as before.
pub fn append_reply(
    session: Option<u32>,
    reply: &Reply,
    out: &mut Vec<u8>,
) -> Result<(), EncodeFault>
    ensures ok { OnOk result
        (out.new.items ≡ out.old.items ++ frame (131 ∷ canon (response session reply.now))) }
    ensures too_long { (result ≡ Err EncodeFault.TooLong)
        ↔ (4294967295 < length (131 ∷ canon (response session reply.now))) }
    ensures err { OnErr result (out.new.items ≡ out.old.items) }
{
    match brief_of(reply) {
        Some(brief) => append_brief(&first_of(reply, session), &brief, out),
        None => append_long(session, reply, out),
    }
}

/// Appends the frame of a reply by its outline. It is a function of its own, since a function pays for an outline's
/// room even if it makes none.
fn append_long(session: Option<u32>, reply: &Reply, out: &mut Vec<u8>) -> Result<(), EncodeFault>
    requires { IsTrue (is_long reply.now) }
    ensures ok { OnOk result
        (out.new.items ≡ out.old.items ++ frame (131 ∷ canon (response session reply.now))) }
    ensures too_long { (result ≡ Err EncodeFault.TooLong)
        ↔ (4294967295 < length (131 ∷ canon (response session reply.now))) }
    ensures err { OnErr result (out.new.items ≡ out.old.items) }
{
    append_outline(&behind(first_of(reply, session), long_outline(reply)), out)
}

/// Appends the frame that `write_reply` writes, in one walk of each list that the reply has.
///
/// It returns false if the frame takes more than `most` bytes; a list counts with each of its elements, also one that
/// is written as a string. Only a list of records and a one-shot's answers are refused so, and none of these of more
/// bytes is appended. On false and on an error the bytes are as before.
pub fn append_reply_within(
    session: Option<u32>,
    reply: &Reply,
    most: usize,
    out: &mut Vec<u8>,
) -> Result<bool, EncodeFault>
    ensures ok { IfOk result
        (λ within. out.new.items
        ≡ out.old.items
        ++ (if within then frame (131 ∷ canon (response session reply.now)) else [])) }
    ensures within { IfOk result
        (λ within. IsTrue within → IsTrue (is_listing reply.now)
        → length (frame (131 ∷ canon (response session reply.now))) ≤ most) }
    ensures listing { IfOk result (λ within. IsFalse within → IsTrue (is_listing reply.now)) }
    ensures over { IfOk result
        (λ within. IsFalse within
        → min most 4294967295 < 2 * length (frame (131 ∷ canon (response session reply.now)))) }
    ensures too_long { result ≡ Err EncodeFault.TooLong
        → 4294967295 < length (131 ∷ canon (response session reply.now)) }
    ensures err { OnErr result (out.new.items ≡ out.old.items) }
{
    let value = match reply {
        Reply::Found(rows) => Unmeasured::List(rows),
        Reply::AtomicTerms(answers) => Unmeasured::Atomic(answers),
        _ => {
            append_reply(session, reply, out)?;
            return Ok(true);
        }
    };
    let within = append_pair_within(&first_of(reply, session).leaf(), &value, most, out)?;
    Ok(within)
}

/// The number of the session, or `reply` if none is named.
fn first_of<'a>(_reply: &'a Reply, session: Option<u32>) -> Token<'a>
    ensures term { (r : ReplyOf)
        → response session r ≡ pair_of (token_term result) (reply_term_of r) }
    ensures short { IsShortToken result }
{
    match session {
        Some(session) => Token::Number(u64::from(session)),
        None => Token::Word("reply"),
    }
}

/// An outline in a pair after this token.
fn behind<'a>(first: Token<'a>, told: Outline<'a>) -> Outline<'a>
    requires first { IsShortToken first }
    requires alone { told.first ≡ None }
    requires told { IsShortOutline told }
    ensures term { outline_term result
        ≡ pair_of (token_term first.entry) (outline_term told.entry) }
    ensures short { IsShortOutline result }
{
    Outline {
        first: Some(first.leaf()),
        second: told.second,
        body: told.body,
    }
}

pub(crate) fn outline_of(reply: &Reply) -> Outline<'_>
    ensures { IsOutlineOf result (reply_term_of reply.now) }
{
    match brief_of(reply) {
        Some(brief) => brief.outline(),
        None => long_outline(reply),
    }
}

/// A reply of words and numbers, without an outline. None for a longer one.
fn brief_of(reply: &Reply) -> Option<Brief<'_>>
    ensures some { IfSome result (λ b. IsBriefOf b (reply_term_of reply.now)) }
    ensures none { IfNone result (IsTrue (is_long reply.now)) }
{
    match reply {
        Reply::Tid(age) => Some(counted(reply, "tid", *age)),
        Reply::Atomic(commits) => Some(counted(reply, "atomic", *commits)),
        Reply::Overflow(commits) => Some(counted(reply, "mnesia_overflow", *commits)),
        Reply::BadTerm => Some(error(reply, "badterm")),
        Reply::BadCommand => Some(error(reply, "badcommand")),
        Reply::NoTransaction => Some(error(reply, "no_transaction")),
        Reply::WaitingNow => Some(error(reply, "waiting")),
        Reply::InTransaction => Some(error(reply, "in_transaction")),
        Reply::NotWaiting => Some(error(reply, "not_waiting")),
        Reply::NoMemory => Some(error(reply, "no_memory")),
        Reply::BadSession => Some(error(reply, "badsession")),
        Reply::OutboxFull => Some(error(reply, "outbox_full")),
        Reply::OverflowUntold => Some(error(reply, "overflow")),
        Reply::Waiting => Some(word(reply, "waiting")),
        Reply::Restart => Some(word(reply, "restart")),
        Reply::Done => Some(word(reply, "ok")),
        Reply::Empty => Some(word(reply, "empty")),
        Reply::AtomicOk => Some(words(reply, "atomic", "ok")),
        Reply::NoMore => Some(words(reply, "aborted", "nomore")),
        Reply::NoWait => Some(words(reply, "aborted", "nowait")),
        Reply::SubscribedHere => Some(words(reply, "ok", "nonode@nohost")),
        _ => None,
    }
}

/// A reply that holds terms or names, or more than a pair.
fn long_outline(reply: &Reply) -> Outline<'_>
    requires { IsTrue (is_long reply.now) }
    ensures { IsOutlineOf result (reply_term_of reply.now) }
{
    match reply {
        Reply::NoTable(table) => told_in("aborted", "no_exists", named(table)),
        Reply::BadType(table, row) => aborted_for("bad_type", table, row),
        Reply::NoIndex(table, attribute) => aborted_for("no_index", table, attribute),
        Reply::UserAbort(reason) => worded("aborted", Leaf::Held(reason)),
        Reply::AlreadyExists(table) => told_in("aborted", "already_exists", named(table)),
        Reply::Locked(table) => told_in("aborted", "locked", named(table)),
        Reply::BadDefinition(table, what) => aborted_for("bad_def", table, what),
        Reply::UnknownTable(table) => told_in("error", "no_exists", named(table)),
        Reply::AlreadySubscribed(table) => told_in("error", "already_subscribed", named(table)),
        Reply::NotSubscribed(table) => told_in("error", "not_subscribed", named(table)),
        Reply::AtomicTerms(answers) => worded("atomic", Leaf::answers(answers)),
        Reply::Found(rows) => alone(Leaf::shared(rows)),
        Reply::TableInfo(info) => info_outline(info),
        Reply::Taken(item) => item_outline(item.item()),
        Reply::SystemLimit(limit) => {
            told_in("error", "system_limit", short(reply, limit_word(*limit)))
        }
        _ => unreachable!(),
    }
}

// The lifetime of a part that borrows nothing is that of the reply, as for the parts that borrow from it.

fn word<'a>(_reply: &'a Reply, text: &'static str) -> Brief<'a>
    requires { length text.now ≤ 255 }
    ensures { IsBriefOf result (atom text.now) }
{
    Brief::One(Token::Word(text))
}

fn words<'a>(_reply: &'a Reply, text: &'static str, value: &'static str) -> Brief<'a>
    requires text { length text.now ≤ 255 }
    requires value { length value.now ≤ 255 }
    ensures { IsBriefOf result (pair_of (atom text.now) (atom value.now)) }
{
    Brief::Two(Token::Word(text), Token::Word(value))
}

/// `{error, Fault}`.
fn error<'a>(reply: &'a Reply, fault: &'static str) -> Brief<'a>
    requires { length fault.now ≤ 255 }
    ensures { IsBriefOf result (pair_of (atom (codes "error")) (atom fault.now)) }
{
    words(reply, "error", fault)
}

fn counted<'a>(_reply: &'a Reply, text: &'static str, number: u64) -> Brief<'a>
    requires { length text.now ≤ 255 }
    ensures { IsBriefOf result (pair_of (atom text.now) (int (pos number))) }
{
    Brief::Two(Token::Word(text), Token::Number(number))
}

fn short<'a>(_reply: &'a Reply, text: &'static str) -> Leaf<'a>
    requires { length text.now ≤ 255 }
    ensures term { leaf_term result ≡ atom text.now }
    ensures short { IsShort result }
{
    Leaf::Word(text)
}

fn named(table: &Atom) -> Leaf<'_>
    ensures term { leaf_term result ≡ atom table.now }
    ensures short { IsShort result }
{
    Leaf::Word(table.as_str())
}

fn alone<'a>(leaf: Leaf<'a>) -> Outline<'a>
    requires { IsShort leaf }
    ensures { IsOutlineOf result (leaf_term leaf.entry) }
{
    Outline {
        first: None,
        second: None,
        body: Body::One(leaf),
    }
}

/// `{Text, Value}`.
fn worded<'a>(text: &'a str, value: Leaf<'a>) -> Outline<'a>
    requires text { length text.now ≤ 255 }
    requires value { IsShort value }
    ensures { IsOutlineOf result (pair_of (atom text.now) (leaf_term value.entry)) }
{
    Outline {
        first: None,
        second: None,
        body: Body::Two(Leaf::Word(text), value),
    }
}

/// `{Text, {Fault, Value}}`.
fn told_in<'a>(text: &'a str, fault: &'a str, value: Leaf<'a>) -> Outline<'a>
    requires text { length text.now ≤ 255 }
    requires fault { length fault.now ≤ 255 }
    requires value { IsShort value }
    ensures { IsOutlineOf result
        (pair_of (atom text.now) (pair_of (atom fault.now) (leaf_term value.entry))) }
{
    Outline {
        first: None,
        second: Some(Leaf::Word(text)),
        body: Body::Two(Leaf::Word(fault), value),
    }
}

/// `{aborted, {Fault, Tab, Value}}`.
fn aborted_for<'a>(fault: &'a str, table: &'a Atom, value: &'a Term) -> Outline<'a>
    requires { length fault.now ≤ 255 }
    ensures { IsOutlineOf result
        (pair_of (atom (codes "aborted"))
        (triple_of (atom fault.now) (atom table.now) (term value.now))) }
{
    Outline {
        first: None,
        second: Some(Leaf::Word("aborted")),
        body: Body::Three(Leaf::Word(fault), named(table), Leaf::Held(value)),
    }
}

fn info_outline(info: &TableInfo) -> Outline<'_>
    ensures { IsOutlineOf result (info_term_of info.now) }
{
    match info {
        TableInfo::Kind(kind) => alone(Leaf::Word(kind_word(*kind))),
        TableInfo::Attributes(names) => alone(Leaf::List(names)),
        TableInfo::Index(positions) => alone(Leaf::List(positions)),
        TableInfo::Size(rows) => alone(Leaf::Number(*rows)),
    }
}

/// `{Text, A, B}`.
fn told_of<'a>(text: &'a str, first: Leaf<'a>, second: Leaf<'a>) -> Outline<'a>
    requires text { length text.now ≤ 255 }
    requires first { IsShort first }
    requires second { IsShort second }
    ensures { IsOutlineOf result
        (triple_of (atom text.now) (leaf_term first.entry) (leaf_term second.entry)) }
{
    Outline {
        first: None,
        second: None,
        body: Body::Three(Leaf::Word(text), first, second),
    }
}

pub(crate) fn item_outline(item: &Item) -> Outline<'_>
    ensures { IsOutlineOf result (item_term_of item.now) }
{
    match item {
        Item::Began(table, level, None) => {
            told_of(
                "mnesia_table_begin",
                named(table),
                Leaf::Word(level_word(*level)),
            )
        }
        Item::Began(table, level, Some(records)) => dump_outline(table, *level, records),
        Item::Batch(commits, events) => {
            told_of("batch", Leaf::Number(*commits), Leaf::events(events))
        }
        Item::Ended(table, ending) => {
            told_of(
                "mnesia_table_end",
                named(table),
                Leaf::Word(ending_word(*ending)),
            )
        }
    }
}

/// `{mnesia_table_begin, Tab, Level, Records}`.
fn dump_outline<'a>(table: &'a Atom, level: Level, records: &'a SharedTerms) -> Outline<'a>
    ensures { IsOutlineOf result (item_term_of (Item.Began table.now level (Some records.now))) }
{
    Outline {
        first: None,
        second: None,
        body: Body::Four(
            Leaf::Word("mnesia_table_begin"),
            named(table),
            Leaf::Word(level_word(level)),
            Leaf::shared(records),
        ),
    }
}

fn limit_word(limit: Limit) -> &'static str
    ensures word { result.now ≡ limit_word_of limit }
    ensures short { length result.now ≤ 255 }
{
    match limit {
        Limit::Sessions => "sessions",
        Limit::Nesting => "nesting",
        Limit::Operations => "operations",
        Limit::Tables => "tables",
        Limit::Ages => "ages",
    }
}

fn kind_word(kind: Kind) -> &'static str
    ensures word { result.now ≡ kind_word_of kind }
    ensures short { length result.now ≤ 255 }
{
    match kind {
        Kind::Set => "set",
        Kind::Bag => "bag",
    }
}

/// The word for the level of events: `simple` or `detailed`.
pub fn level_word(level: Level) -> &'static str
    ensures word { atom result.now ≡ level_word_of level }
    ensures short { length result.now ≤ 255 }
{
    match level {
        Level::Simple => "simple",
        Level::Detailed => "detailed",
    }
}

fn ending_word(ending: Ending) -> &'static str
    ensures word { result.now ≡ ending_word_of ending }
    ensures short { length result.now ≤ 255 }
{
    match ending {
        Ending::Unsubscribed => "unsubscribed",
        Ending::Deleted => "deleted",
    }
}
