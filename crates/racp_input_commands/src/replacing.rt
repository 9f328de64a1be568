//! Files that are there already where those of a table are to be written.

use crate::texts::Texts;
use racp_cli::StreamFault;
use racp_host::failure::Failure;
use racp_host::files::Output;
use racp_host::inputs::{told, whole};
use racp_tables::{are_own_names, is_own_network, is_own_order};
use std::alloc::{AllocError, Global};
use std::fs::File;
use std::io::ErrorKind;
use std::rt::Files;

/// Tests that the network and the names of a project are not there yet, or are as they were written, or as they will be. An
/// order that was changed is kept, and not written anew.
pub(crate) fn test_earlier<R: Files + AllocGlobal>(
    rt: &R,
    out: &str,
    is_forced: bool,
    texts: &mut Texts,
) -> Result<(), Failure> {
    if is_forced {
        return Ok(());
    }
    let alloc = rt.alloc();
    let network = earlier(rt, path_of(alloc, out, "sm")?.as_str())?;
    let names = earlier(rt, path_of(alloc, out, "names")?.as_str())?;
    let order = earlier(rt, path_of(alloc, out, "toml")?.as_str())?;
    let is_own = is_replaceable(&network, texts.network.as_bytes());
    if !is_own {
        return Err(changed(alloc, out, "sm"));
    }
    if !are_replaceable(&network, &names, texts.names.as_bytes()) {
        return Err(changed(alloc, out, "names"));
    }
    Ok(keep_order(alloc, out, &order, texts)?)
}

/// The file with this path, if there is one.
fn earlier<R: Files + AllocGlobal>(rt: &R, path: &str) -> Result<Option<Vec<u8>>, Failure> {
    let mut file = match File::open(rt, path) {
        Ok(file) => file,
        Err(error) if error.kind() == ErrorKind::NotFound => return Ok(None),
        Err(error) => return Err(told(rt.alloc(), StreamFault::Read, path, &error)),
    };
    Ok(Some(whole(rt.alloc(), &mut file, path)?))
}

/// Whether a network may take the place of an earlier file: there is none, it is the same, or it was not changed since it was
/// written.
fn is_replaceable(earlier: &Option<Vec<u8>>, text: &[u8]) -> bool {
    match earlier {
        Some(earlier) => earlier.as_slice() == text || is_own_network(earlier),
        None => true,
    }
}

/// Whether names may take the place of an earlier file: there is none, it is the same, or the earlier network tells that it
/// was not changed since it was written.
fn are_replaceable(network: &Option<Vec<u8>>, earlier: &Option<Vec<u8>>, text: &[u8]) -> bool {
    let Some(earlier) = earlier else {
        return true;
    };
    let is_own = match network {
        Some(network) => are_own_names(network, earlier),
        None => false,
    };
    is_own || earlier.as_slice() == text
}

/// Leaves out the order if there is one already that was changed since it was written, and warns of it.
fn keep_order(
    alloc: Global,
    out: &str,
    earlier: &Option<Vec<u8>>,
    texts: &mut Texts,
) -> Result<(), AllocError> {
    let (Some(earlier), Some(order)) = (earlier, &texts.order) else {
        return Ok(());
    };
    if earlier.as_slice() == order.as_slice() || is_own_order(earlier) {
        return Ok(());
    }
    let words = format!(in alloc;
        "racp: {out}.toml: warning: it was changed by hand, and is kept; --force replaces it\n"
    )?;
    texts.told.warnings.push_str(words.as_str())?;
    texts.order = None;
    Ok(())
}

/// The failure of a file that was changed, and would be lost.
fn changed(alloc: Global, out: &str, end: &str) -> Failure {
    match format!(in alloc;
        "racp: {out}.{end}: it is there already, and not as import wrote it; --force replaces it"
    ) {
        Ok(words) => Failure::Refused(words),
        Err(_) => Failure::Stream(StreamFault::Memory),
    }
}

/// The files, whose paths begin so.
pub(crate) fn outputs_of(
    alloc: Global,
    out: &str,
    texts: Texts,
) -> Result<Vec<Output>, AllocError> {
    let Texts {
        network,
        names,
        order,
        ..
    } = texts;
    let mut outputs = Vec::new(alloc);
    outputs.push(output(alloc, out, "sm", network.into_bytes())?)?;
    outputs.push(output(alloc, out, "names", names.into_bytes())?)?;
    if let Some(order) = order {
        outputs.push(output(alloc, out, "toml", order)?)?;
    }
    Ok(outputs)
}

/// A file whose path begins so and ends with this, and its text.
fn output(alloc: Global, out: &str, end: &str, text: Vec<u8>) -> Result<Output, AllocError> {
    let path = path_of(alloc, out, end)?;
    Ok(Output { path, text })
}

/// The path that begins so and ends with this.
fn path_of(alloc: Global, out: &str, end: &str) -> Result<String, AllocError> {
    format!(in alloc; "{out}.{end}")
}
