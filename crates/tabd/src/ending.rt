//! How a run of the program ends: its status, and its line on standard error.

ghost use Rattle.std.specs.Prelude.{◌≡◌, ◌≤◌, option_map};
ghost use Rattle.tabd.specs.Endings.{end_of, end_of_words, line_of, status_of};

use crate::Ended;
use clap::error::ErrorKind;

/// The end of a run.
#[derive(Debug, Drop)]
pub enum End {
    /// The run is done, or the text is shown.
    Done,
    /// The words were wrong.
    WrongWords,
    /// The run could not go on.
    Stopped(Ended),
}

/// The end of the program after a replay.
pub fn end_of_replay(replayed: Result<(), Ended>) -> End
    ensures { result ≡ end_of replayed }
{
    match replayed {
        Ok(()) => End::Done,
        Err(ended) => End::Stopped(ended),
    }
}

/// The end of the program for words that ask for no run, once the parser's text is shown.
pub fn end_of_words(kind: ErrorKind) -> End
    ensures { result ≡ end_of_words kind }
{
    match kind {
        ErrorKind::DisplayHelp | ErrorKind::DisplayVersion => End::Done,
        ErrorKind::OutOfMemory => End::Stopped(Ended::NoMemory),
        _ => End::WrongWords,
    }
}

/// The program's exit status.
pub fn status_of(end: &End) -> u8
    ensures status { result ≡ status_of end.now }
    ensures bound { result ≤ 3 }
{
    match end {
        End::Done => 0,
        End::WrongWords => 2,
        End::Stopped(Ended::Damaged) => 3,
        End::Stopped(_) => 1,
    }
}

/// The program's own line on standard error. Wrong words have the parser's text in its place.
pub fn line_of(end: &End) -> Option<&'static str>
    ensures { option_map (λ line. line.now) result ≡ line_of end.now }
{
    match end {
        End::Done | End::WrongWords => None,
        End::Stopped(Ended::Damaged) => Some("tabd: damaged input\n"),
        End::Stopped(Ended::Device) => Some("tabd: device\n"),
        End::Stopped(Ended::TooLong) => Some("tabd: too long\n"),
        End::Stopped(Ended::NoMemory) => Some("tabd: no memory\n"),
    }
}
