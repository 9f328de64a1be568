//! Files that are written whole or not at all.

use crate::failure::Failure;
use crate::inputs::told;
use racp_streams::StreamFault;
use std::alloc::{AllocError, Global};
use std::fs::File;
use std::io::{Error, ErrorKind, Write};
use std::rt::Files;
use std::{fs, io};

/// What stands behind the path of a file while it is written.
const PART: &str = ".part";

/// How many paths are tried for a file while it is written.
const MOST_PARTS: u32 = 1000;

/// A file that is to be written.
#[derive(Drop)]
pub struct Output {
    /// Its path.
    pub path: String,
    /// What it is to have.
    pub text: Vec<u8>,
}

/// A text that is written, and does not yet have the path that it is for.
#[derive(Drop)]
struct Part {
    /// Where it stands.
    path: String,
    /// The path that it is for.
    target: String,
}

/// Writes a text to the file with this path: beside it first, at a path that nothing else has, so that the file has its
/// old text or the new one at any time, and nothing stays beside it.
pub fn write_file<R: Files + AllocGlobal>(rt: &R, path: &str, text: &[u8]) -> io::Result<()> {
    let part = part_with(rt, path, text)?;
    let named = name_part(rt, &part);
    if named.is_err() {
        remove(rt, &part.path);
    }
    named
}

/// Tests that a file with this path can be written, and leaves all as it is.
pub fn test_file<R: Files + AllocGlobal>(rt: &R, path: &str) -> io::Result<()> {
    let part = part_with(rt, path, &[])?;
    fs::remove_file(rt, part.path.as_str())
}

/// Writes files. Each is written beside its path, and takes its name when all are written, so that none has a part of
/// its text; where one cannot be written, none is, and nothing stays beside them.
pub fn write_files<R: Files + AllocGlobal>(rt: &R, outputs: &[Output]) -> Result<(), Failure> {
    let mut parts = Vec::with_capacity(rt.alloc(), outputs.len())?;
    let written = write_parts(rt, outputs, &mut parts);
    let named = match written {
        Ok(()) => name_parts(rt, &parts),
        Err(failure) => Err(failure),
    };
    if named.is_err() {
        for part in &parts {
            remove(rt, &part.path);
        }
    }
    named
}

/// Writes the texts of files beside their paths.
fn write_parts<R: Files + AllocGlobal>(
    rt: &R,
    outputs: &[Output],
    parts: &mut Vec<Part>,
) -> Result<(), Failure> {
    for output in outputs {
        match part_with(rt, output.path.as_str(), &output.text) {
            Ok(part) => add(parts, part)?,
            Err(error) => return Err(failure_of(rt, output.path.as_str(), &error)),
        }
    }
    Ok(())
}

/// Adds a text that is written.
fn add(parts: &mut Vec<Part>, part: Part) -> Result<(), AllocError> {
    parts.push(part)?;
    Ok(())
}

/// Gives texts the paths that they are for.
fn name_parts<R: Files + AllocGlobal>(rt: &R, parts: &[Part]) -> Result<(), Failure> {
    for part in parts {
        if let Err(error) = name_part(rt, part) {
            return Err(failure_of(rt, part.target.as_str(), &error));
        }
    }
    Ok(())
}

/// The failure of a file that cannot be written.
fn failure_of<R: AllocGlobal>(rt: &R, path: &str, error: &Error) -> Failure {
    if error.kind() == ErrorKind::OutOfMemory {
        return Failure::Stream(StreamFault::Memory);
    }
    told(rt.alloc(), StreamFault::Write, path, error)
}

/// Gives a text the path that it is for.
fn name_part<R: Files>(rt: &R, part: &Part) -> io::Result<()> {
    fs::rename(rt, part.path.as_str(), part.target.as_str())
}

/// A text that is written beside the file with this path.
fn part_with<R: Files + AllocGlobal>(rt: &R, path: &str, text: &[u8]) -> io::Result<Part> {
    let target = target_of(rt, path)?;
    let (path, mut file) = new_file(rt, &target)?;
    let written = file.write_all(text);
    drop(file);
    match written {
        Ok(()) => Ok(Part { path, target }),
        Err(error) => {
            remove(rt, &path);
            Err(error)
        }
    }
}

/// The path of the file that is written for this one: where a link leads, and else its own. What is there already has to be a
/// file. No file has the empty path.
fn target_of<R: Files + AllocGlobal>(rt: &R, path: &str) -> io::Result<String> {
    let is_link = match fs::symlink_metadata(rt, path) {
        Ok(found) => found.is_symlink(),
        Err(error) if error.kind() == ErrorKind::NotFound && !path.is_empty() => {
            return Ok(String::from_str(rt.alloc(), path)?);
        }
        Err(error) => return Err(error),
    };
    let found = fs::metadata(rt, path)?;
    if found.is_dir() {
        return Err(Error::other("it is a folder"));
    }
    if !found.is_file() {
        return Err(Error::other("it is no file, but a device, a pipe or the like"));
    }
    if is_link {
        Ok(fs::canonicalize(rt, path)?.into_string())
    } else {
        Ok(String::from_str(rt.alloc(), path)?)
    }
}

/// A new file beside the one with this path, and its path.
fn new_file<R: Files + AllocGlobal>(rt: &R, target: &str) -> io::Result<(String, R::File)> {
    for number in 0..MOST_PARTS {
        let path = part_path(rt.alloc(), target, number)?;
        match File::create_new(rt, path.as_str()) {
            Ok(file) => return Ok((path, file)),
            Err(error) if error.kind() == ErrorKind::AlreadyExists => {}
            Err(error) => return Err(error),
        }
    }
    Err(Error::from(ErrorKind::AlreadyExists))
}

/// A path at which a file can be written before it takes this path: of some, the one with this number.
fn part_path(alloc: Global, target: &str, number: u32) -> Result<String, AllocError> {
    if number == 0 {
        format!(in alloc; "{target}{PART}")
    } else {
        format!(in alloc; "{target}.{number}{PART}")
    }
}

/// Takes a file away, if it is there.
fn remove<R: Files>(rt: &R, path: &str) {
    let _ = fs::remove_file(rt, path);
}
