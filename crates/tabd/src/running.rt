//! A run of the program between its words and its status.

ghost use Rattle.std.specs.Prelude.{◌≡◌, ◌≤◌, IfOk, OnErr, IfErr};
ghost use Rattle.std.specs.Process.{exit_status};
ghost use Rattle.clap.specs.Words.{kind_of};
ghost use Rattle.tabd.specs.declared.ending.End.{End as EndOf};
ghost use Rattle.tabd.specs.Endings.{OfRun, IsShown, IsTextFault, OnStreams, Plays, TellsEnd, end_of_words, line_of, status_of, streams};

use crate::draining::Drained;
use crate::ending::{End, end_of_replay, end_of_words, line_of, status_of};
use crate::serving::{Start, listen};
use crate::slow::Slow;
use crate::{Ended, replay};
use clap::Error;
use std::alloc::Global;
use std::net::{Net, TcpListener, TcpStream};
use std::process::ExitCode;
use std::rt::Files;
use std::sync::Wait;
use std::thread::Threads;
use tab_book::Opened;
use tab_etf::{Source, Target, give_all};
use tab_post::Naming;
use tab_server::{Gate, Notes};
use tab_words::Run;

/// The runtime of a run, the registers of a server's book, and the receiver of its reports.
#[derive(Drop)]
pub struct Program<'a, H, G> {
    pub rt: &'a H,
    pub opened: Opened,
    pub gate: &'a G,
}

/// Runs the words, and returns the program's exit status. The errors have only the line of this end, or for wrong words
/// only the parser's text. The text of a help or version is put on the output. The gate has the reports of a server
/// while it runs.
pub fn run<J, H, R, W, E, G>(
    program: Program<'_, H, G>,
    asked: Result<Run, Error>,
    input: &mut R,
    output: &mut W,
    errors: &mut E,
) -> ExitCode
where
    J: Naming + Send + Sync,
    H: AllocGlobal
        + Net<Listener = TcpListener, Stream = TcpStream>
        + Files
        + Threads
        + Wait
        + Copy
        + Send
        + Sync,
    R: Source,
    W: Target,
    E: Target,
    G: Gate + Notes + Drained + Slow + Sync,
    requires { program.opened ≡ J.books }
    ensures replayed { IfOk asked (λ words. (end : EndOf) × (exit_status result ≡ status_of end)
        × OfRun words
        (λ outbox. Plays outbox
        (streams (R.remaining input.old) (W.contents output.old) (R.faults input.old)
        (W.faults output.old))
        (streams (R.remaining input.new) (W.contents output.new) (R.faults input.new)
        (W.faults output.new)) end) (input.new ≡ input.old)
        × TellsEnd (line_of end) (E.contents errors.old) (E.contents errors.new)
        (E.faults errors.old) (E.faults errors.new)) }
    ensures shown { IfErr asked
        (λ error. (end : EndOf) × (exit_status result ≡ status_of end)
        × IsShown (end_of_words (kind_of error)) end
        × OnStreams (end_of_words (kind_of error)) (output.new ≡ output.old)
        (TellsEnd (line_of end) (E.contents errors.old) (E.contents errors.new)
        (E.faults errors.old) (E.faults errors.new))) }
    ensures input { OnErr asked (input.new ≡ input.old) }
{
    match asked {
        Ok(words) => {
            let end = perform::<J, H, R, W, G>(program, words, input, output);
            ExitCode::from(tell(errors, &end))
        }
        Err(error) => {
            let end = show(program.rt.alloc(), &error, output, errors);
            ExitCode::from(tell(errors, &end))
        }
    }
}

/// Does what the words ask for.
fn perform<J, H, R, W, G>(
    program: Program<'_, H, G>,
    words: Run,
    input: &mut R,
    output: &mut W,
) -> End
where
    J: Naming + Send + Sync,
    H: AllocGlobal
        + Net<Listener = TcpListener, Stream = TcpStream>
        + Files
        + Threads
        + Wait
        + Copy
        + Send
        + Sync,
    R: Source,
    W: Target,
    G: Gate + Notes + Drained + Slow + Sync,
    requires { program.opened ≡ J.books }
    ensures { OfRun words
        (λ outbox. Plays outbox
        (streams (R.remaining input.old) (W.contents output.old) (R.faults input.old)
        (W.faults output.old))
        (streams (R.remaining input.new) (W.contents output.new) (R.faults input.new)
        (W.faults output.new)) result) (input.new ≡ input.old) }
{
    let Program { rt, opened, gate } = program;
    match words {
        Run::Replay { outbox } => play(rt, input, output, outbox),
        Run::Serve(address, service) => {
            let start = Start {
                rt: *rt,
                alloc: rt.alloc(),
                service,
                gate,
            };
            listen::<J, H, W, G>(&start, opened, &address, output)
        }
    }
}

fn play<H: AllocGlobal + Wait, R: Source, W: Target>(
    rt: &H,
    input: &mut R,
    output: &mut W,
    outbox: u32,
) -> End
    ensures { Plays outbox
        (streams (R.remaining input.old) (W.contents output.old) (R.faults input.old)
        (W.faults output.old))
        (streams (R.remaining input.new) (W.contents output.new) (R.faults input.new)
        (W.faults output.new)) result }
{
    end_of_replay(replay(rt, input, output, outbox as usize))
}

/// Shows the parser's text: what was asked for on the output, a mistake on the errors. Out of memory has none of its own.
fn show<W: Target, E: Target>(alloc: Global, error: &Error, output: &mut W, errors: &mut E) -> End
    ensures end { IsShown (end_of_words (kind_of error.now)) result }
    ensures streams { OnStreams (end_of_words (kind_of error.now)) (output.new ≡ output.old)
        (errors.new ≡ errors.old) }
{
    match end_of_words(error.kind()) {
        End::Done => match put_text(alloc, error, output) {
            Ok(()) => End::Done,
            Err(ended) => End::Stopped(ended),
        },
        End::WrongWords => {
            let _told = put_text(alloc, error, errors);
            End::WrongWords
        }
        stopped => stopped,
    }
}

fn put_text<W: Target>(alloc: Global, error: &Error, device: &mut W) -> Result<(), Ended>
    ensures { IfErr result IsTextFault }
{
    let text = format!(in alloc; "{error}").map_err(|_| Ended::NoMemory)?;
    give_all(device, text.as_bytes())?;
    device.flush()?;
    Ok(())
}

/// Writes the line of this end, and gives its status. No one is left to hear that the line failed.
fn tell<E: Target>(errors: &mut E, end: &End) -> u8
    ensures status { result ≡ status_of end.now }
    ensures bound { result ≤ 3 }
    ensures line { TellsEnd (line_of end.now) (E.contents errors.old) (E.contents errors.new)
        (E.faults errors.old) (E.faults errors.new) }
{
    if let Some(line) = line_of(end) {
        let _told = give_all(errors, line.as_bytes());
    }
    status_of(end)
}
