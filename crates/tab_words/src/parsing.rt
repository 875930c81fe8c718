//! The words of the command line.

ghost use Rattle.std.specs.Prelude.{◌≡◌, ◌≤◌, ℕ, List, [], ◌∷◌, IfOk, IfSome, IsErrAnd, map, option_map, codes};
ghost use Rattle.clap.specs.Words.{FailsBy, HasKind, fault_of, first_of, found_of, rows_of, subcommand_of, subcommand_rows_of};
ghost use Rattle.clap.specs.Kinds.{or_else};
ghost use Rattle.tab_words.specs.Asked.{IsAddressOf, IsAskedBy, IsFlagOf, IsNumberOf, IsServiceOf, MayBeNumberOf, is_batches, is_full, serve_fault, serve_kinds_of};
ghost use Rattle.tab_words.specs.CommandLine.{command_line};
ghost use Rattle.tab_words.specs.Words.{AreInRange, AreSizes, IsIdle};

use crate::command_line::{command, serve};
use crate::serving::{Address, Log, Service, Sizes};
use clap::error::ErrorKind;
use clap::{ArgMatches, Error};
use std::alloc::{AllocError, Global};
use std::convert::AsStr;
use std::io;
use std::rt::Env;
use tab_proto::Delivery;

/// A run that the words ask for.
#[derive(Drop)]
pub enum Run {
    /// Each session's post holds so many items.
    Replay { outbox: u32 },
    Serve(Address, Service),
}

/// Parses these words. The first is the program's name.
pub fn words<'a, S: AsStr>(alloc: Global, words: &'a [S]) -> Result<Run, Error>
    ensures range { IfOk result AreInRange }
    ensures asked { IfOk result
        (IsAskedBy (subcommand_of command_line (map S.text words.entry.now))) }
    ensures fails { FailsBy
        (or_else (fault_of command_line (map S.text words.entry.now))
        (serve_fault (subcommand_of command_line (map S.text words.entry.now)))) result }
{
    let matches = command(alloc)?.try_get_matches_from(words)?;
    run_of(alloc, &matches)
}

/// The run that these matches ask for.
fn run_of(alloc: Global, matches: &ArgMatches<'_>) -> Result<Run, Error>
    ensures range { IfOk result AreInRange }
    ensures asked { IfOk result (IsAskedBy (subcommand_rows_of matches.now)) }
    ensures fails { FailsBy (serve_fault (subcommand_rows_of matches.now)) result }
{
    if let Some(options) = matches.subcommand_matches("serve") {
        let address = address(alloc, options)?;
        return Ok(Run::Serve(address, service(options)));
    }
    Ok(Run::Replay {
        outbox: match matches.subcommand_matches("replay") {
            Some(replay) => number(replay, "outbox", 1, 65_536, 64),
            None => 64,
        },
    })
}

/// The address that clients connect to; it also checks that the number of connections is given. The parser itself has
/// no rule of one option on another: the page of this crate says why.
fn address(alloc: Global, matches: &ArgMatches<'_>) -> Result<Address, Error>
    ensures asked { IfOk result (IsAddressOf (rows_of (found_of matches.now))) }
    ensures fails { FailsBy (serve_kinds_of (rows_of (found_of matches.now))) result }
{
    let connections = written(matches, "connections");
    match (written(matches, "port"), written(matches, "socket")) {
        (Some(_), Some(_)) => refused(
            alloc,
            ErrorKind::ArgumentConflict,
            "the argument '--port <PORT>' cannot be used with '--socket <PATH>'",
        ),
        (None, None) if connections.is_none() => refused(
            alloc,
            ErrorKind::MissingRequiredArgument,
            "the following required arguments were not provided:\n  --connections <COUNT>\n  <--port <PORT>|--socket <PATH>>",
        ),
        (None, None) => refused(
            alloc,
            ErrorKind::MissingRequiredArgument,
            "the following required arguments were not provided:\n  <--port <PORT>|--socket <PATH>>",
        ),
        _ if connections.is_none() => refused(
            alloc,
            ErrorKind::MissingRequiredArgument,
            "the following required arguments were not provided:\n  --connections <COUNT>",
        ),
        (Some(_), None) => Ok(Address::Port(port(matches))),
        (None, Some(path)) if path.is_empty() => refused(
            alloc,
            ErrorKind::ValueValidation,
            "the path of --socket <PATH> is empty",
        ),
        (None, Some(path)) => Ok(Address::Socket(String::from_str(alloc, path)?)),
    }
}

/// The text of an option as it was written, if it is given.
fn written<'a>(matches: &ArgMatches<'a>, name: &str) -> Option<&'a str>
    ensures { option_map (λ text. text.now) result
        ≡ first_of name.now (rows_of (found_of matches.now)) }
{
    matches.get_str(name)
}

/// With the usage of `serve`.
fn refused(alloc: Global, kind: ErrorKind, message: &str) -> Result<Address, Error>
    ensures { IsErrAnd result (HasKind (kind ∷ [])) }
{
    Err(serve(alloc)?.error(kind, message)?)
}

fn service(matches: &ArgMatches<'_>) -> Service
    ensures range { AreSizes result.sizes × IfSome result.idle IsIdle }
    ensures asked { IsServiceOf (rows_of (found_of matches.now)) result }
{
    Service {
        sizes: sizes(matches),
        forever: is_given(matches, "forever"),
        delivery: delivery(matches),
        idle: idle(matches),
        log: log(matches),
        metrics: metrics(matches),
        slow: seconds(matches, "slow"),
        aborts: is_given(matches, "abort-waits"),
        drains: is_given(matches, "drain"),
        limit: seconds(matches, "transaction-limit"),
        idle_sessions: seconds(matches, "idle-sessions"),
    }
}

fn port(matches: &ArgMatches<'_>) -> u16
    ensures { IsNumberOf (codes "port") 0 65535 0 (rows_of (found_of matches.now)) result }
{
    match matches.get_one("port") {
        Some(port) => port,
        None => 0,
    }
}

/// Returns whether a flag is given.
fn is_given(matches: &ArgMatches<'_>, name: &str) -> bool
    ensures { IsFlagOf name.now (rows_of (found_of matches.now)) result }
{
    matches.get_flag(name)
}

fn delivery(matches: &ArgMatches<'_>) -> Delivery
    ensures { IsFlagOf (codes "batches") (rows_of (found_of matches.now)) (is_batches result) }
{
    if is_given(matches, "batches") {
        Delivery::Batches
    } else {
        Delivery::Events
    }
}

fn log(matches: &ArgMatches<'_>) -> Log
    ensures { IsFlagOf (codes "log") (rows_of (found_of matches.now)) (is_full result) }
{
    if is_given(matches, "log") {
        Log::Full
    } else {
        Log::Brief
    }
}

fn metrics(matches: &ArgMatches<'_>) -> Option<u16>
    ensures { MayBeNumberOf (codes "metrics") 0 65535 (rows_of (found_of matches.now)) result }
{
    matches.get_one("metrics")
}

/// The number of seconds of an option, if it is given.
fn seconds(matches: &ArgMatches<'_>, name: &str) -> Option<u32>
    ensures { MayBeNumberOf name.now 1 86400 (rows_of (found_of matches.now)) result }
{
    matches.get_one(name)
}

fn idle(matches: &ArgMatches<'_>) -> Option<u32>
    ensures range { IfSome result IsIdle }
    ensures asked { MayBeNumberOf (codes "idle") 1 86400 (rows_of (found_of matches.now)) result }
{
    match matches.get_one("idle") {
        Some(seconds) if 1 <= seconds && seconds <= 86_400 => Some(seconds),
        _ => None,
    }
}

fn sizes(matches: &ArgMatches<'_>) -> Sizes
    ensures range { AreSizes result }
    ensures connections { IsNumberOf (codes "connections") 1 64 1
        (rows_of (found_of matches.now)) result.connections }
    ensures outbox { IsNumberOf (codes "outbox") 1 65536 64
        (rows_of (found_of matches.now)) result.outbox }
    ensures outbox_bytes { MayBeNumberOf (codes "outbox-bytes") 1 4294967295
        (rows_of (found_of matches.now)) result.outbox_bytes }
    ensures journal { IsNumberOf (codes "journal") 16 65536 1024
        (rows_of (found_of matches.now)) result.journal }
    ensures journal_bytes { IsNumberOf (codes "journal-bytes") 1048576 4294967295 67108864
        (rows_of (found_of matches.now)) result.journal_bytes }
{
    Sizes {
        connections: number(matches, "connections", 1, 64, 1),
        outbox: number(matches, "outbox", 1, 65_536, 64),
        outbox_bytes: outbox_bytes(matches),
        journal: number(matches, "journal", 16, 65_536, 1024),
        journal_bytes: number(
            matches,
            "journal-bytes",
            1_048_576,
            4_294_967_295,
            67_108_864,
        ),
    }
}

fn outbox_bytes(matches: &ArgMatches<'_>) -> Option<u32>
    ensures { MayBeNumberOf (codes "outbox-bytes") 1 4294967295
        (rows_of (found_of matches.now)) result }
{
    matches.get_one("outbox-bytes")
}

/// The number of an option, which the parser has found in its range, or `fallback` if the option is not given.
fn number(matches: &ArgMatches<'_>, name: &str, least: u32, most: u32, fallback: u32) -> u32
    requires least { least ≤ fallback }
    requires most { fallback ≤ most }
    ensures least { least ≤ result }
    ensures most { result ≤ most }
    ensures asked { IsNumberOf name.now least most fallback
        (rows_of (found_of matches.now)) result }
{
    match matches.get_one(name) {
        Some(number) if least <= number && number <= most => number,
        _ => fallback,
    }
}

/// Parses the words of this process.
pub fn asked<H: Env + AllocGlobal>(rt: &H) -> Result<Run, Error>
    ensures range { IfOk result AreInRange }
    ensures asked { IfOk result
        (λ run. (words : List (List ℕ)) × IsAskedBy (subcommand_of command_line words) run) }
{
    let alloc = rt.alloc();
    match std::env::args(rt) {
        Ok(given) => {
            let given: Vec<String> = given.collect(alloc)?;
            words(alloc, given.as_slice())
        }
        Err(error) if error.kind() == io::ErrorKind::InvalidData => Err(not_text(alloc)?),
        Err(_) => Err(Error::from(AllocError)),
    }
}

fn not_text(alloc: Global) -> Result<Error, AllocError> {
    command(alloc)?.error(ErrorKind::InvalidValue, "a word is not valid UTF-8")
}
