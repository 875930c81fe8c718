//! Tests of tab_proto: commands as payloads of the external term format, replies within a bound, and of tab_model's copies. The
//! built program's streams show requests, replies and items.

use crate::etf::answers::{Shape, answers};
use std::alloc::{AllocError, Global};
use std::test::Fail;
use tab_etf::{EncodeFault, decode};
use tab_lists::SharedTerms;
use tab_model::{Ask, Command, Reply};
use tab_proto::{append_reply, append_reply_within, command, command_in, request_in, term_of};
use tab_term::{Term, Terms};

/// Payloads of every command.
static COMMANDS: [&[u8]; 22] = [
    b"\x83h\x03w\x0ccreate_tablew\x01tl\x00\x00\x00\x01h\x02w\x04typew\x03bagj",
    b"\x83h\x02w\x0cdelete_tablew\x01t",
    b"\x83h\x03w\x0fadd_table_indexw\x01tw\x01a",
    b"\x83h\x03w\x0fdel_table_indexw\x01ta\x03",
    b"\x83h\x03w\x0atable_infow\x01tw\x04size",
    b"\x83w\x05begin",
    b"\x83w\x06commit",
    b"\x83h\x02w\x05abortw\x03why",
    b"\x83h\x03w\x04readw\x01ta\x01",
    b"\x83h\x02w\x05wreadh\x02w\x01ta\x01",
    b"\x83h\x02w\x05writeh\x03w\x01ta\x01w\x01a",
    b"\x83h\x02w\x06deleteh\x02w\x01ta\x01",
    b"\x83h\x02w\x0ddelete_objecth\x02w\x01ta\x01",
    b"\x83h\x04w\x0aindex_readw\x01tw\x01vw\x01a",
    b"\x83h\x02w\x0cmatch_objecth\x02w\x01tw\x01_",
    b"\x83h\x02w\x08all_keysw\x01t",
    b"\x83h\x02w\x0fread_lock_tablew\x01t",
    b"\x83h\x02w\x10write_lock_tablew\x01t",
    b"\x83h\x02w\x09subscribeh\x03w\x05tablew\x01tw\x06simple",
    b"\x83h\x03w\x09subscribeh\x03w\x05tablew\x01tw\x08detailedw\x04dump",
    b"\x83h\x02w\x0bunsubscribeh\x03w\x05tablew\x01tw\x08detailed",
    b"\x83h\x03w\x0btransactionl\x00\x00\x00\x03h\x02w\x05writeh\x02w\x01ta\x01h\x02w\x0btransactionl\x00\x00\x00\x01h\x02w\x05abortw\x02nojh\x03w\x04readw\x01ta\x01jb\x00\x00\x03\xe8",
];

/// Payloads of terms that are near to commands: too many restarts, an inner transaction with restarts, a word in a
/// tuple, a level that is none. Also an item and an attribute that are none, a key without its table, another word than
/// `dump`, an end with a dump.
static NO_COMMANDS: [&[u8]; 9] = [
    b"\x83h\x03w\x0btransactionjb\x00\x00\x03\xe9",
    b"\x83h\x03w\x0btransactionl\x00\x00\x00\x01h\x03w\x0btransactionja\x00ja\x00",
    b"\x83h\x03w\x0btransactionl\x00\x00\x00\x01h\x01w\x05beginja\x00",
    b"\x83h\x02w\x09subscribeh\x03w\x05tablew\x01tw\x04loud",
    b"\x83h\x03w\x0atable_infow\x01tw\x04cost",
    b"\x83h\x04w\x0aindex_readw\x01tw\x01vm\x00\x00\x00\x01a",
    b"\x83h\x03w\x05wreadw\x01ta\x01",
    b"\x83h\x03w\x09subscribeh\x03w\x05tablew\x01tw\x06simplew\x03foo",
    b"\x83h\x03w\x0bunsubscribeh\x03w\x05tablew\x01tw\x06simplew\x04dump",
];

fn copied(alloc: Global, command: &Command) -> Result<Term, AllocError> {
    match command {
        Command::Do(operation) => {
            let copy = Command::Do(operation.try_clone(alloc)?);
            term_of(alloc, &copy)
        }
        _ => term_of(alloc, command),
    }
}

/// The term of the command in a term. For an operation it is that of a copy.
fn told_again(alloc: Global, held: &Term) -> Option<Term> {
    match command(alloc, held) {
        Ok(command) => copied(alloc, &command).ok(),
        Err(_) => None,
    }
}

#[test]
fn commands_are_read_and_told(rt: HostRuntime) -> Result<(), Fail> {
    let alloc = rt.alloc();
    for (line, payload) in COMMANDS.iter().enumerate() {
        let held = decode(alloc, payload)?;
        assert!(rt; told_again(alloc, &held) == Some(held), "line {line}");
    }
    for (line, payload) in NO_COMMANDS.iter().enumerate() {
        let held = decode(alloc, payload)?;
        assert!(rt; told_again(alloc, &held).is_none(), "line {line}");
    }
    Ok(())
}

/// The term of the command that is read straight from a payload.
fn told_straight(alloc: Global, payload: &[u8]) -> Option<Term> {
    let command = command_in(alloc, payload)?;
    copied(alloc, &command).ok()
}

#[test]
fn commands_are_read_from_their_bytes(rt: HostRuntime) -> Result<(), Fail> {
    let alloc = rt.alloc();
    for (line, payload) in COMMANDS.iter().enumerate() {
        let held = decode(alloc, payload)?;
        assert!(rt; told_straight(alloc, payload) == Some(held), "line {line}");
    }
    for (line, payload) in NO_COMMANDS.iter().enumerate() {
        assert!(rt; told_straight(alloc, payload).is_none(), "line {line}");
    }
    Ok(())
}

/// Payloads that are no request of the form that is read straight: session 0, a word that is no command, a byte more.
static NO_REQUESTS: [&[u8]; 3] = [
    b"\x83h\x02a\0w\x05begin",
    b"\x83h\x02a\x07w\x05leave",
    b"\x83h\x02a\x07w\x05beginj",
];

#[test]
fn requests_are_read_from_their_bytes(rt: HostRuntime) {
    let alloc = rt.alloc();
    let begin = request_in(alloc, b"\x83h\x02a\x07w\x05begin");
    assert!(rt; matches!(begin, Some((7, Ask::Do(Command::Begin)))));
    for (line, payload) in NO_REQUESTS.iter().enumerate() {
        assert!(rt; request_in(alloc, payload).is_none(), "line {line}");
    }
}

/// The bytes before a reply that is appended.
const BEFORE: &[u8] = b"before";

/// Lists, and the frames of the replies that hold them: of no elements, of bytes, and of others.
static FOUND: [(&[u8], &[u8]); 5] = [
    (b"\x83j", b"\0\0\0\x0b\x83h\x02w\x05replyj"),
    (
        b"\x83k\0\x02\x03\xff",
        b"\0\0\0\x0f\x83h\x02w\x05replyk\0\x02\x03\xff",
    ),
    (
        b"\x83l\0\0\0\x01w\x01aj",
        b"\0\0\0\x13\x83h\x02w\x05replyl\0\0\0\x01w\x01aj",
    ),
    (
        b"\x83l\0\0\0\x02a\x03b\0\0\x01\0j",
        b"\0\0\0\x17\x83h\x02w\x05replyl\0\0\0\x02a\x03b\0\0\x01\0j",
    ),
    (
        b"\x83l\0\0\0\x02jk\0\x01\x01j",
        b"\0\0\0\x15\x83h\x02w\x05replyl\0\0\0\x02jk\0\x01\x01j",
    ),
];

/// The list that a payload is.
fn list_in(alloc: Global, payload: &[u8]) -> Result<SharedTerms, Fail> {
    match decode(alloc, payload)?.into_list() {
        Some(terms) => Ok(SharedTerms::from_terms(terms)),
        None => Ok(SharedTerms::from_terms(Terms::from_vec(Vec::new(alloc)))),
    }
}

/// Returns whether the frame of a reply is appended to bytes if there is room for it, and nothing if there is room for
/// a byte less.
fn is_within(alloc: Global, reply: &Reply, frame: &[u8]) -> Result<bool, Fail> {
    let mut out = Vec::from_slice(alloc, BEFORE)?;
    let shorter = append_reply_within(None, reply, frame.len().saturating_sub(1), &mut out)?;
    let kept = out.as_slice() == BEFORE;
    let whole = append_reply_within(None, reply, frame.len(), &mut out)?;
    Ok(!shorter && kept && whole && out.get(..6) == Some(BEFORE) && out.get(6..) == Some(frame))
}

#[test]
fn lists_are_added_within_a_bound(rt: HostRuntime) -> Result<(), Fail> {
    let alloc = rt.alloc();
    for (line, (payload, frame)) in FOUND.iter().enumerate() {
        let reply = Reply::Found(list_in(alloc, payload)?);
        assert!(rt; is_within(alloc, &reply, frame)?, "line {line}");
    }
    Ok(())
}

/// Answers of transactions, and the frame of their reply: none; and `ok`, two lists, an abort, and a child that found
/// nothing.
static ANSWERS: [(&[Shape], &[u8]); 2] = [
    (&[], b"\0\0\0\x15\x83h\x02w\x05replyh\x02w\x06atomicj"),
    (
        &[
            Shape::Done,
            Shape::Found(&[3]),
            Shape::Found(&[300]),
            Shape::Aborted(7),
            Shape::Atomic(&[Shape::Found(&[])]),
        ],
        b"\0\0\0\x4b\x83h\x02w\x05replyh\x02w\x06atomicl\0\0\0\x05w\x02okk\0\x01\x03l\0\0\0\x01b\0\0\x01\x2cjh\x02w\x07aborteda\x07h\x02w\x06atomicl\0\0\0\x01jjj",
    ),
];

#[test]
fn answers_are_added_within_a_bound(rt: HostRuntime) -> Result<(), Fail> {
    let alloc = rt.alloc();
    for (line, (shapes, frame)) in ANSWERS.iter().enumerate() {
        let reply = Reply::AtomicTerms(answers(alloc, shapes)?);
        assert!(rt; is_within(alloc, &reply, frame)?, "line {line}");
    }
    Ok(())
}

/// A list of more bytes than a string has room for.
fn long_reply(alloc: Global) -> Result<Reply, AllocError> {
    let mut terms = Vec::new(alloc);
    for _ in 0..65_536 {
        terms.push(Term::Int(1))?;
    }
    Ok(Reply::Found(SharedTerms::from_terms(Terms::from_vec(terms))))
}

/// Returns whether a bound of 200,000 lets the reply's frame through, and one of 65,536 nothing.
fn is_long(alloc: Global, reply: &Reply) -> Result<bool, EncodeFault> {
    let mut measured = Vec::new(alloc);
    append_reply(Some(7), reply, &mut measured)?;
    let mut within = Vec::new(alloc);
    let whole = append_reply_within(Some(7), reply, 200_000, &mut within)?;
    let longer = append_reply_within(Some(7), reply, 65_536, &mut within)?;
    Ok(whole && !longer && within.as_slice() == measured.as_slice())
}

#[test]
fn long_lists_are_added(rt: HostRuntime) -> Result<(), Fail> {
    let reply = long_reply(rt.alloc())?;
    assert!(rt; is_long(rt.alloc(), &reply) == Ok(true));
    Ok(())
}

/// A reply that holds no list has no bound.
fn is_short(alloc: Global) -> Result<bool, EncodeFault> {
    let mut out = Vec::new(alloc);
    let whole = append_reply_within(None, &Reply::Done, 0, &mut out)?;
    let frame = b"\0\0\0\x0e\x83h\x02w\x05replyw\x02ok";
    Ok(whole && out.as_slice() == frame.as_slice())
}

#[test]
fn short_replies_are_added(rt: HostRuntime) {
    assert!(rt; is_short(rt.alloc()) == Ok(true));
}
