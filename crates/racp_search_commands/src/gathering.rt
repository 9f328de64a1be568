//! The networks of a table of results, read before the first plan is made.

use racp_batch::{File, Input};
use racp_cli::StreamFault;
use racp_explain::{Input as Text, network_cause, one_line, parts_of};
use racp_host::failure::Failure;
use racp_host::inputs::{read_file, shown, text};
use racp_host::shown::Shown;
use racp_host::telling::Manner;
use racp_sm::{SmFaultKind, read_sm};
use std::alloc::{AllocError, Global};
use std::rt::Files;

/// What the words about a file begin with on standard error, and not in a table.
const FRONT: &str = "racp: ";

/// The files with these paths, each read whole before the next is opened. One that cannot be opened or read, or whose text is
/// refused, has words that say why, which standard error tells too.
///
/// # Errors
///
/// Memory was refused.
pub(crate) fn gathered<'a, R: Files + Eprint + AllocGlobal>(
    rt: &R,
    paths: &[&'a str],
    manner: Manner,
) -> Result<Vec<File<'a>>, Failure> {
    let mut files = Vec::new(rt.alloc());
    for path in paths {
        let input = input_of(rt, path, manner)?;
        let name = shown(path);
        add(&mut files, File { name, input })?;
    }
    Ok(files)
}

/// Adds a file.
fn add<'a>(files: &mut Vec<File<'a>>, file: File<'a>) -> Result<(), AllocError> {
    files.push(file)?;
    Ok(())
}

/// What the file with this path has.
fn input_of<R: Files + Eprint + AllocGlobal>(
    rt: &R,
    path: &str,
    manner: Manner,
) -> Result<Input, Failure> {
    match read_file(rt, path) {
        Ok(bytes) => input_in(rt, &text(path, &bytes), manner),
        Err(Failure::Told(_, words)) => {
            tell(rt, manner, &words);
            fault_of(rt.alloc(), words.strip_prefix(FRONT).unwrap_or(&words))
        }
        Err(failure) => Err(failure),
    }
}

/// What this text has.
fn input_in<R: Eprint + AllocGlobal>(
    rt: &R,
    net: &Text<'_>,
    manner: Manner,
) -> Result<Input, Failure> {
    match read_sm(rt.alloc(), net.bytes) {
        Ok(network) => Ok(Input::Network(network)),
        Err(fault) if fault.kind == SmFaultKind::Memory => {
            Err(Failure::Stream(StreamFault::Memory))
        }
        Err(_) => refused(rt, net, manner),
    }
}

/// Why this text is refused.
fn refused<R: Eprint + AllocGlobal>(
    rt: &R,
    net: &Text<'_>,
    manner: Manner,
) -> Result<Input, Failure> {
    let cause = network_cause(rt.alloc(), net)?;
    let line = one_line(rt.alloc(), &cause)?;
    tell(rt, manner, line.trim_end());
    fault_of(rt.alloc(), parts_of(&cause).says)
}

/// No network, for these words.
fn fault_of(alloc: Global, words: &str) -> Result<Input, Failure> {
    Ok(Input::Fault(String::from_str(alloc, words)?))
}

/// Tells on standard error why a file has no network, unless nothing is to be told.
fn tell<R: Eprint>(rt: &R, manner: Manner, words: &str) {
    if !manner.is_quiet() {
        let _ = rt.eprintln(Shown::of(words));
    }
}
