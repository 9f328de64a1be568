//! What the heading of a network calls its resources.

ghost use Rattle.std.specs.Prelude.{◌≡◌, IfOk, length};

use std::alloc::{AllocError, Global};

/// What stands above the heading.
const TITLE: &str = "REQUESTS/DURATIONS:";

/// How many words of the heading stand before the names.
const BEFORE: usize = 3;

/// The names of this many resources, by the text of a network: the words of the heading below `REQUESTS/DURATIONS:`, after
/// the third, if there is one for each resource, or two, as in `R 1`; and else `R 1`, `R 2` and so on.
///
/// # Errors
///
/// Memory was refused.
pub fn heading_names(alloc: Global, network: &[u8], count: usize) -> Result<Vec<String>, AllocError>
    ensures { IfOk result (λ names. length names.items ≡ count) }
{
    let words = words_of(alloc, network)?;
    if words.len() == count {
        whole(alloc, &words)
    } else if words.len() / 2 == count && words.len() % 2 == 0 {
        joined(alloc, &words, count)
    } else {
        numbered(alloc, count)
    }
}

/// The words of the heading after the third; none if there is no heading, or it is not UTF-8.
fn words_of(alloc: Global, network: &[u8]) -> Result<Vec<&str>, AllocError> {
    match heading_of(network) {
        Some(heading) => heading.split_whitespace().skip(BEFORE).collect(alloc),
        None => Ok(Vec::new(alloc)),
    }
}

/// The line below the first one that is the title of the requests, if it is UTF-8.
fn heading_of(network: &[u8]) -> Option<&str> {
    let mut lines = network.split(is_line_feed);
    let _title = lines.find(is_title)?;
    match std::str::from_utf8(lines.next()?) {
        Ok(heading) => Some(heading),
        Err(_) => None,
    }
}

/// Whether a byte ends a line.
fn is_line_feed(byte: &u8) -> bool {
    *byte == b'\n'
}

/// Whether a line is the title of the requests.
fn is_title(line: &&[u8]) -> bool {
    line.trim_ascii() == TITLE.as_bytes()
}

/// A name of each word.
fn whole(alloc: Global, words: &[&str]) -> Result<Vec<String>, AllocError>
    ensures { IfOk result (λ names. length names.items ≡ length words.now) }
{
    let mut names = Vec::new(alloc);
    for word in words {
        names.push(String::from_str(alloc, word)?)?;
    }
    Ok(names)
}

/// A name of each two words.
fn joined(alloc: Global, words: &[&str], count: usize) -> Result<Vec<String>, AllocError>
    ensures { IfOk result (λ names. length names.items ≡ count) }
{
    let mut names = Vec::new(alloc);
    for k in 0..count {
        let place = k.saturating_mul(2);
        let (first, second) = (
            word_at(words, place),
            word_at(words, place.saturating_add(1)),
        );
        names.push(format!(in alloc; "{first} {second}")?)?;
    }
    Ok(names)
}

/// The word at a place, from 0.
fn word_at<'a>(words: &[&'a str], place: usize) -> &'a str {
    match words.get(place) {
        Some(word) => word,
        None => "",
    }
}

/// The names `R 1`, `R 2` and so on.
fn numbered(alloc: Global, count: usize) -> Result<Vec<String>, AllocError>
    ensures { IfOk result (λ names. length names.items ≡ count) }
{
    let mut names = Vec::new(alloc);
    for k in 0..count {
        let number = k.saturating_add(1);
        names.push(format!(in alloc; "R {number}")?)?;
    }
    Ok(names)
}
