//! Inputs that are read whole, and why they cannot be.

use crate::failure::Failure;
use racp_explain::Input;
use racp_streams::StreamFault;
use racp_text::MOST_TEXT_BYTES;
use std::alloc::Global;
use std::fmt::Display;
use std::fs::File;
use std::io::{ErrorKind, Read};
use std::rt::Files;

/// How standard input is told of.
pub const STANDARD_INPUT: &str = "standard input";

/// The path by which a file is opened that is standard input.
const OF_STANDARD_INPUT: &str = "/dev/stdin";

/// The path by which the file with this path is opened; `-` is standard input.
pub(crate) fn opened_path(path: &str) -> &str {
    if path == "-" { OF_STANDARD_INPUT } else { path }
}

/// The file with this path, for reading, or standard input for `-`; or which it is, and what the system says of it.
pub(crate) fn opened<R: Files + AllocGlobal>(rt: &R, path: &str) -> Result<R::File, Failure> {
    match File::open(rt, opened_path(path)) {
        Ok(file) => Ok(file),
        Err(error) => Err(told(rt.alloc(), StreamFault::Read, shown(path), &error)),
    }
}

/// Files that were read whole, by the places of their paths, from 0 on.
#[derive(Drop)]
pub struct Inputs<'a> {
    paths: &'a [Option<&'a str>],
    bytes: Vec<Vec<u8>>,
}

impl<'a> Inputs<'a> {
    /// The files with these paths, which are opened in this order before the first is read. Where there is no path, there are
    /// no bytes.
    pub fn read<R: Files + AllocGlobal>(
        rt: &R,
        paths: &'a [Option<&'a str>],
    ) -> Result<Self, Failure> {
        let mut files = opened_all(rt, paths)?;
        let bytes = read_all(rt.alloc(), &mut files, paths)?;
        Ok(Inputs { paths, bytes })
    }

    /// The text of the file at a place.
    pub fn text(&self, place: usize) -> Input<'_> {
        let path = match self.paths.get(place) {
            Some(path) => path.unwrap_or(""),
            None => "",
        };
        let bytes: &[u8] = match self.bytes.get(place) {
            Some(bytes) => bytes,
            None => &[],
        };
        text(path, bytes)
    }

    /// The text of the file at a place, if there is a path.
    pub fn text_if(&self, place: usize) -> Option<Input<'_>> {
        match self.paths.get(place) {
            Some(Some(_)) => Some(self.text(place)),
            _ => None,
        }
    }
}

/// The files with these paths, opened in this order.
fn opened_all<R: Files + AllocGlobal>(
    rt: &R,
    paths: &[Option<&str>],
) -> Result<Vec<Option<R::File>>, Failure> {
    let mut files = Vec::new(rt.alloc());
    for path in paths {
        let file = match path {
            Some(path) => Some(opened(rt, path)?),
            None => None,
        };
        let Ok(()) = files.push(file) else {
            return Err(Failure::Stream(StreamFault::Memory));
        };
    }
    Ok(files)
}

/// All bytes of these files with these paths, read in this order.
fn read_all<F: Read>(
    alloc: Global,
    files: &mut [Option<F>],
    paths: &[Option<&str>],
) -> Result<Vec<Vec<u8>>, Failure> {
    let mut texts = Vec::new(alloc);
    for (file, path) in files.iter_mut().zip(paths) {
        let text = match file {
            Some(file) => whole(alloc, file, path.unwrap_or(""))?,
            None => Vec::new(alloc),
        };
        let Ok(()) = texts.push(text) else {
            return Err(Failure::Stream(StreamFault::Memory));
        };
    }
    Ok(texts)
}

/// All bytes of the file with this path.
pub fn read_file<R: Files + AllocGlobal>(rt: &R, path: &str) -> Result<Vec<u8>, Failure> {
    whole(rt.alloc(), &mut opened(rt, path)?, path)
}

/// A text with this path.
pub fn text<'a>(path: &'a str, bytes: &'a [u8]) -> Input<'a> {
    Input {
        name: shown(path),
        bytes,
    }
}

/// How a file with this path is told of.
pub fn shown(path: &str) -> &str {
    if path == "-" { STANDARD_INPUT } else { path }
}

/// All bytes of an input with this path; or which it is, and why they cannot be read.
pub fn whole<I: Read>(alloc: Global, input: &mut I, path: &str) -> Result<Vec<u8>, Failure> {
    let mut bytes = Vec::new(alloc);
    match input
        .by_ref()
        .take(MOST_TEXT_BYTES as u64 + 1)
        .read_to_end(&mut bytes)
    {
        Ok(_) if bytes.len() <= MOST_TEXT_BYTES => Ok(bytes),
        Ok(_) => Err(told(
            alloc,
            StreamFault::TooLong,
            shown(path),
            &"more than 16,777,216 bytes",
        )),
        Err(error) if error.kind() == ErrorKind::OutOfMemory => {
            Err(Failure::Stream(StreamFault::Memory))
        }
        Err(error) => Err(told(alloc, StreamFault::Read, shown(path), &error)),
    }
}

/// The failure of a file or a stream with this name, and why.
pub fn told<D: Display>(alloc: Global, fault: StreamFault, name: &str, why: &D) -> Failure {
    match format!(in alloc; "racp: {name}: {why}") {
        Ok(words) => Failure::Told(fault, words),
        Err(_) => Failure::Stream(fault),
    }
}
