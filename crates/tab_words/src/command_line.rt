//! The commands that the words may name, and their options.

ghost use Rattle.std.specs.Prelude.{◌≡◌, IfOk, IsFalse, codes};
ghost use Rattle.clap.specs.Words.{app_of, rule_of};
ghost use Rattle.tab_words.specs.CommandLine.{command_line, flag_rule, has_globals, number_rule, outbox_rule, replay_line, serve_line, text_rule};

use clap::{Arg, ArgAction, Command, value_parser};
use std::alloc::{AllocError, Global};

/// The version of the program.
pub const VERSION: &str = "0.1.0";

/// An option with a number in this range.
fn number_of<'a>(alloc: Global, name: &'a str, value: &'a str, least: u32, most: u32) -> Arg<'a>
    ensures rule { rule_of result ≡ number_rule name.entry.now least most }
    ensures own { IsFalse result.global }
{
    Arg::new(alloc, name)
        .long(name)
        .value_name(value)
        .action(ArgAction::Set)
        .value_parser(value_parser!(u32).range(i64::from(least)..=i64::from(most)))
}

fn flag<'a>(alloc: Global, name: &'a str) -> Arg<'a>
    ensures rule { rule_of result ≡ flag_rule name.entry.now }
    ensures own { IsFalse result.global }
{
    Arg::new(alloc, name).long(name).action(ArgAction::SetTrue)
}

fn outbox<'a>(alloc: Global) -> Arg<'a>
    ensures rule { rule_of result ≡ outbox_rule }
    ensures own { IsFalse result.global }
{
    number_of(alloc, "outbox", "ITEMS", 1, 65_536).help(
        "How many items wait for a session at most, 1 to 65536; 64 where it is not given",
    )
}

fn outbox_bytes<'a>(alloc: Global) -> Arg<'a>
    ensures rule { rule_of result ≡ number_rule (codes "outbox-bytes") 1 4294967295 }
    ensures own { IsFalse result.global }
{
    number_of(alloc, "outbox-bytes", "BYTES", 1, 4_294_967_295).help(
        "At how many bytes of events a session's outbox is full too, 1 to 4294967295",
    )
}

fn port<'a>(alloc: Global) -> Arg<'a>
    ensures rule { rule_of result ≡ number_rule (codes "port") 0 65535 }
    ensures own { IsFalse result.global }
{
    Arg::new(alloc, "port")
        .long("port")
        .value_name("PORT")
        .help(
            "The port on 127.0.0.1, to which any user of the machine may connect; 0 lets the system choose one",
        )
        .action(ArgAction::Set)
        .value_parser(value_parser!(u16))
}

fn socket<'a>(alloc: Global) -> Arg<'a>
    ensures rule { rule_of result ≡ text_rule (codes "socket") }
    ensures own { IsFalse result.global }
{
    Arg::new(alloc, "socket")
        .long("socket")
        .value_name("PATH")
        .help(
            "In place of --port the path of a socket file, of 107 bytes at most, to which may connect who may write the file",
        )
        .action(ArgAction::Set)
}

fn connections<'a>(alloc: Global) -> Arg<'a>
    ensures rule { rule_of result ≡ number_rule (codes "connections") 1 64 }
    ensures own { IsFalse result.global }
{
    number_of(alloc, "connections", "COUNT", 1, 64).help(
        "How many connections are accepted, 1 to 64; with --forever, how many at once",
    )
}

fn journal<'a>(alloc: Global) -> Arg<'a>
    ensures rule { rule_of result ≡ number_rule (codes "journal") 16 65536 }
    ensures own { IsFalse result.global }
{
    number_of(alloc, "journal", "ENTRIES", 16, 65_536).help(
        "How many entries the journal holds at most, 16 to 65536; 1024 where it is not given",
    )
}

fn journal_bytes<'a>(alloc: Global) -> Arg<'a>
    ensures rule { rule_of result ≡ number_rule (codes "journal-bytes") 1048576 4294967295 }
    ensures own { IsFalse result.global }
{
    number_of(alloc, "journal-bytes", "BYTES", 1_048_576, 4_294_967_295).help(
        "How many bytes of requests the journal holds at most, 1048576 to 4294967295; 67108864 where it is not given",
    )
}

fn forever<'a>(alloc: Global) -> Arg<'a>
    ensures rule { rule_of result ≡ flag_rule (codes "forever") }
    ensures own { IsFalse result.global }
{
    flag(alloc, "forever").help(
        "A connection that ends makes room for another, and the server ends by itself only with --drain",
    )
}

fn batches<'a>(alloc: Global) -> Arg<'a>
    ensures rule { rule_of result ≡ flag_rule (codes "batches") }
    ensures own { IsFalse result.global }
{
    flag(alloc, "batches").help("A commit's events come in one frame, with the commit's number")
}

fn idle<'a>(alloc: Global) -> Arg<'a>
    ensures rule { rule_of result ≡ number_rule (codes "idle") 1 86400 }
    ensures own { IsFalse result.global }
{
    number_of(alloc, "idle", "SECONDS", 1, 86_400).help(
        "A session with an open transaction, or that reads nothing, is ended where nothing comes from it for so long, 1 to 86400",
    )
}

fn log<'a>(alloc: Global) -> Arg<'a>
    ensures rule { rule_of result ≡ flag_rule (codes "log") }
    ensures own { IsFalse result.global }
{
    flag(alloc, "log").help("Each session's start and end has a line on standard error")
}

fn slow<'a>(alloc: Global) -> Arg<'a>
    ensures rule { rule_of result ≡ number_rule (codes "slow") 1 86400 }
    ensures own { IsFalse result.global }
{
    number_of(alloc, "slow", "SECONDS", 1, 86_400).help(
        "A transaction has a line on standard error when it has been open for so long, and at its end, 1 to 86400",
    )
}

fn abort_waits<'a>(alloc: Global) -> Arg<'a>
    ensures rule { rule_of result ≡ flag_rule (codes "abort-waits") }
    ensures own { IsFalse result.global }
{
    flag(alloc, "abort-waits").help(
        "An abort that comes while an operation waits for a lock ends the wait: it is answered, and the operation is not",
    )
}

fn drain<'a>(alloc: Global) -> Arg<'a>
    ensures rule { rule_of result ≡ flag_rule (codes "drain") }
    ensures own { IsFalse result.global }
{
    flag(alloc, "drain").help(
        "At the end of standard input no more connections are accepted, and the server ends once open transactions have ended",
    )
}

fn transaction_limit<'a>(alloc: Global) -> Arg<'a>
    ensures rule { rule_of result ≡ number_rule (codes "transaction-limit") 1 86400 }
    ensures own { IsFalse result.global }
{
    number_of(alloc, "transaction-limit", "SECONDS", 1, 86_400).help(
        "A session is ended when its transaction has been open for so long, 1 to 86400",
    )
}

fn idle_sessions<'a>(alloc: Global) -> Arg<'a>
    ensures rule { rule_of result ≡ number_rule (codes "idle-sessions") 1 86400 }
    ensures own { IsFalse result.global }
{
    number_of(alloc, "idle-sessions", "SECONDS", 1, 86_400).help(
        "A session that has never subscribed is ended when it has sent nothing for so long, 1 to 86400",
    )
}

fn metrics<'a>(alloc: Global) -> Arg<'a>
    ensures rule { rule_of result ≡ number_rule (codes "metrics") 0 65535 }
    ensures own { IsFalse result.global }
{
    Arg::new(alloc, "metrics")
        .long("metrics")
        .value_name("PORT")
        .help(
            "A port on 127.0.0.1 with counters for Prometheus at /metrics and sessions at /sessions; 0 lets the system choose one",
        )
        .action(ArgAction::Set)
        .value_parser(value_parser!(u16))
}

/// The command `serve`, whose usage names what has to be given.
pub fn serve<'a>(alloc: Global) -> Result<Command<'a>, AllocError>
    ensures line { IfOk result (λ c. app_of c ≡ serve_line) }
    ensures own { IfOk result (λ c. IsFalse (has_globals c)) }
{
    Command::new(alloc, "serve")
        .about("Serves each connection to a port or a socket file as a session")
        .override_usage(
            "tabd serve [OPTIONS] --connections <COUNT> <--port <PORT>|--socket <PATH>>",
        )
        .arg(port(alloc))?
        .arg(socket(alloc))?
        .arg(connections(alloc))?
        .arg(outbox(alloc))?
        .arg(journal(alloc))?
        .arg(journal_bytes(alloc))?
        .arg(forever(alloc))?
        .arg(batches(alloc))?
        .arg(idle(alloc))?
        .arg(log(alloc))?
        .arg(metrics(alloc))?
        .arg(slow(alloc))?
        .arg(abort_waits(alloc))?
        .arg(drain(alloc))?
        .arg(transaction_limit(alloc))?
        .arg(idle_sessions(alloc))?
        .arg(outbox_bytes(alloc))
}

fn replay<'a>(alloc: Global) -> Result<Command<'a>, AllocError>
    ensures line { IfOk result (λ c. app_of c ≡ replay_line) }
    ensures own { IfOk result (λ c. IsFalse (has_globals c)) }
{
    Command::new(alloc, "replay")
        .about("Answers the frames of standard input on standard output")
        .arg(outbox(alloc))
}

/// The whole command line.
pub fn command<'a>(alloc: Global) -> Result<Command<'a>, AllocError>
    ensures { IfOk result (λ c. app_of c ≡ command_line) }
{
    Command::new(alloc, "tabd")
        .version(VERSION)
        .about("A server of named in-memory tables with transactions and events")
        .subcommand_required(true)
        .subcommand(replay(alloc)?)?
        .subcommand(serve(alloc)?)
}
