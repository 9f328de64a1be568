//! Why no answer is written, and how that is told.

ghost use Rattle.std.specs.Prelude.{◌≡◌};
ghost use Rattle.clap.specs.Words.{kind_of};
ghost use Rattle.racp_host.specs.Statuses.{IsStatusOf, IsStatusOfKind};
ghost use Rattle.racp_streams.specs.Streams.{fault_status};
ghost use Rattle.racp_host.specs.declared.failure.Failure.TheVariants as failures;
ghost use Rattle.racp_streams.specs.declared.fault.StreamFault.TheVariants as streams;

use crate::answer::is_unread;
pub use crate::option_fault::OptionFault;
use crate::shown::Shown;
use clap::Error;
use clap::error::ErrorKind;
use racp_lexfix::status::{DONE, REFUSED, STREAM_FAILED};
use racp_streams::StreamFault;
use std::alloc::{AllocError, Global};

/// How a tip begins that helps nobody.
const TIP: &str = "  tip: to pass '";

/// The status after a fault of the command line.
const WORDS_REFUSED: u8 = 2;

/// Why no answer is written.
pub enum Failure {
    /// The words name no command, or ask for help or for the version.
    Words(Error),
    /// A word is not UTF-8.
    NotText,
    /// The options for an order or for a time are refused, or the words for a fault.
    Option(OptionFault),
    /// The word of an option that lists values of the resources is refused, or words for tables, and these words say why.
    Value(String),
    /// A file or a stream failed, or memory ran out.
    Stream(StreamFault),
    /// Standard output takes no more of an answer, since nobody reads it any more.
    Unread,
    /// A file or a stream failed, and these words say which, and why.
    Told(StreamFault, String),
    /// A table is refused, and these words say why; nothing is said if they are empty.
    Refused(String),
}

impl From<OptionFault> for Failure {
    ghost from_gives = { λ fault failure. failure ≡ failures.Option fault };

    fn from(fault: OptionFault) -> Failure {
        Failure::Option(fault)
    }
}

impl From<Error> for Failure {
    ghost from_gives = { λ error failure. failure ≡ failures.Words error };

    fn from(error: Error) -> Failure {
        Failure::Words(error)
    }
}

impl From<StreamFault> for Failure {
    ghost from_gives = { λ fault failure. failure ≡ failures.Stream fault };

    fn from(fault: StreamFault) -> Failure {
        Failure::Stream(fault)
    }
}

impl From<AllocError> for Failure {
    ghost from_gives = { λ _ failure. failure ≡ failures.Stream streams.Memory };

    fn from(_: AllocError) -> Failure {
        Failure::Stream(StreamFault::Memory)
    }
}

/// Why words are refused: as the library of the command line says; or as a hint says, if there is one and the library knows an option
/// not.
pub fn refused_words(alloc: Global, error: Error, hint: Option<&str>) -> Failure {
    match hint {
        Some(hint) if error.kind() == ErrorKind::UnknownArgument => {
            match String::from_str(alloc, hint) {
                Ok(words) => Failure::Value(words),
                Err(_) => Failure::Words(error),
            }
        },
        _ => Failure::Words(error),
    }
}

/// Tells why no answer is written, and answers the status. Help and the version go to standard output, all else to
/// standard error; if that takes no text, the status alone tells.
pub fn report<R: Print + Eprint + AllocGlobal>(rt: &R, failure: Failure) -> u8
    ensures { IsStatusOf failure result }
{
    match failure {
        Failure::Words(error) => report_words(rt, &error),
        Failure::NotText => {
            let _ = rt.eprintln("error: a word of the command line is not UTF-8");
            WORDS_REFUSED
        }
        Failure::Option(fault) => {
            let _ = rt.eprintln(format_args!("error: {fault}"));
            WORDS_REFUSED
        }
        Failure::Value(words) => {
            let _ = rt.eprintln(format_args!("error: {}", Shown::of(&words)));
            WORDS_REFUSED
        }
        Failure::Stream(fault) => report_fault(rt, fault),
        Failure::Unread => STREAM_FAILED,
        Failure::Told(fault, words) => {
            let _ = rt.eprintln(Shown::of(&words));
            fault.status()
        }
        Failure::Refused(words) => {
            report_refusal(rt, &words);
            REFUSED
        }
    }
}

/// Prints why a table is refused, if that is said.
fn report_refusal(rt: &impl Eprint, words: &str) {
    if !words.is_empty() {
        let _ = rt.eprintln(Shown::of(words.trim_end()));
    }
}

/// Prints what the library of the command line says, and answers the status.
fn report_words<R: Print + Eprint + AllocGlobal>(rt: &R, error: &Error) -> u8
    ensures { IsStatusOfKind (kind_of error.now) result }
{
    match error.kind() {
        ErrorKind::OutOfMemory => report_fault(rt, StreamFault::Memory),
        ErrorKind::DisplayHelp | ErrorKind::DisplayVersion => match rt.print(error) {
            Ok(()) => DONE,
            Err(error) if is_unread(&error) => STREAM_FAILED,
            Err(_) => report_fault(rt, StreamFault::Write),
        },
        _ => {
            let _ = match without_tip(rt.alloc(), error) {
                Ok(words) => rt.eprint(&words),
                Err(_) => rt.eprint(error),
            };
            WORDS_REFUSED
        }
    }
}

/// What the library of the command line says, without a tip that helps nobody: that an option that is not there could be meant as the
/// path of a file.
fn without_tip(alloc: Global, error: &Error) -> Result<String, AllocError> {
    let said = format!(in alloc; "{error}")?;
    let mut words = String::new(alloc);
    let mut is_behind_empty = false;
    for line in said.lines() {
        if !line.starts_with(TIP) && !(is_behind_empty && line.is_empty()) {
            words.push_str(line)?;
            words.push('\n')?;
            is_behind_empty = line.is_empty();
        }
    }
    Ok(words)
}

/// Prints the line of a file or a stream that failed, or of memory, and answers the status.
fn report_fault(rt: &impl Eprint, fault: StreamFault) -> u8
    ensures { result ≡ fault_status fault }
{
    let _ = rt.eprintln(fault.line());
    fault.status()
}
