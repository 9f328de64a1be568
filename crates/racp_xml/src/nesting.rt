//! Elements, one in another.

ghost use Rattle.std.specs.Prelude.{◌≡◌, ◌++◌, ◌∷◌, [], IfOk, OnOk, map};
ghost use Rattle.racp_xml.specs.Nesting.{AreNested, IsNested, IsOpenAfter, name_of};

use crate::fault::XmlFault;
use crate::mark::{Kind, Mark, mark_of, passed};
use std::alloc::{AllocError, Global};

/// How deep elements may lie in each other.
pub const MOST_DEPTH: usize = 64;

/// What was read of a text so far.
#[derive(Drop)]
struct Read<'a> {
    /// The marks.
    found: Vec<Mark<'a>>,
    /// The names of the elements that are open.
    opened: Vec<&'a str>,
}

/// Where in a text a reader has come.
#[derive(Clone, Copy)]
struct Place {
    /// The line, from 1.
    line: u64,
    /// The line of the comment that is open, or 0.
    comment: u64,
    /// Whether nothing was read.
    is_first: bool,
}

/// The marks of a text.
///
/// # Errors
///
/// The text is refused, or memory is.
pub fn marks<'a>(alloc: Global, text: &'a str) -> Result<Vec<Mark<'a>>, XmlFault>
    ensures { IfOk result (λ marks. AreNested marks.items) }
{
    let mut read = Read {
        found: Vec::new(alloc),
        opened: Vec::new(alloc),
    };
    let mut place = Place {
        line: 1,
        comment: 0,
        is_first: true,
    };
    for piece in text.split('<') {
        place = take(&mut read, place, piece)?;
    }
    ended(read, place)
}

/// Takes the next piece of a text, and tells where its end is.
fn take<'a>(read: &mut Read<'a>, place: Place, piece: &'a str) -> Result<Place, XmlFault>
    ensures { OnOk result (IsNested [] read.old.found.items read.old.opened.items → IsNested [] read.new.found.items read.new.opened.items) }
{
    let comment = take_words(read, place, piece)?;
    Ok(Place {
        line: place
            .line
            .saturating_add(piece.matches('\n').count() as u64),
        comment,
        is_first: false,
    })
}

/// Takes the words of a piece, and tells the line of the comment that is open behind it, or 0.
fn take_words<'a>(read: &mut Read<'a>, place: Place, piece: &'a str) -> Result<u64, XmlFault>
    ensures { OnOk result (IsNested [] read.old.found.items read.old.opened.items → IsNested [] read.new.found.items read.new.opened.items) }
{
    if place.comment > 0 {
        return take_comment(read, place, place.comment, piece);
    }
    if place.is_first {
        if is_blank(piece) {
            return Ok(0);
        }
        return Err(XmlFault::Outside(place.line));
    }
    if let Some(words) = piece.strip_prefix("!--") {
        return take_comment(read, place, place.line, words);
    }
    let mark = mark_of(piece, place.line, read.opened.len())?;
    take_mark(read, mark)?;
    Ok(0)
}

/// Takes a piece within a comment that begins at a line, and tells that line if the comment does not end there, or 0.
fn take_comment<'a>(
    read: &mut Read<'a>,
    place: Place,
    line: u64,
    piece: &'a str,
) -> Result<u64, XmlFault>
    ensures { OnOk result (IsNested [] read.old.found.items read.old.opened.items → IsNested [] read.new.found.items read.new.opened.items) }
{
    let Some((_, text)) = piece.split_once("-->") else {
        return Ok(line);
    };
    let mark = passed(text, place.line, read.opened.len());
    take_mark(read, mark)?;
    Ok(0)
}

/// Takes a mark.
fn take_mark<'a>(read: &mut Read<'a>, mark: Mark<'a>) -> Result<(), XmlFault>
    ensures { OnOk result (IsNested [] read.old.found.items read.old.opened.items → IsNested [] read.new.found.items read.new.opened.items) }
{
    test_first(read, mark)?;
    nest(&mut read.opened, mark)?;
    if read.opened.is_empty() && !mark.text.trim().is_empty() {
        return Err(XmlFault::Outside(mark.line));
    }
    keep(&mut read.found, mark)?;
    Ok(())
}

/// Tests that a mark begins no second first element, and none too deep.
fn test_first(read: &Read<'_>, mark: Mark<'_>) -> Result<(), XmlFault> {
    match mark.kind {
        Kind::Opens | Kind::Empty => {
            if mark.depth > MOST_DEPTH {
                return Err(XmlFault::Deep(mark.line));
            }
            if mark.depth == 1 && read.found.iter().any(is_of_element) {
                return Err(XmlFault::Outside(mark.line));
            }
            Ok(())
        }
        Kind::Closes | Kind::Passed => Ok(()),
    }
}

/// Whether a mark is one of an element.
fn is_of_element(mark: &Mark<'_>) -> bool {
    mark.kind != Kind::Passed
}

/// Opens or closes an element.
fn nest<'a>(opened: &mut Vec<&'a str>, mark: Mark<'a>) -> Result<(), XmlFault>
    ensures { OnOk result (IsOpenAfter mark.entry opened.old.items opened.new.items) }
{
    match mark.kind {
        Kind::Opens => Ok(push(opened, mark.name)?),
        Kind::Closes => match opened.pop() {
            Some(name) if name == mark.name => Ok(()),
            _ => Err(XmlFault::Closed(mark.line)),
        },
        Kind::Empty | Kind::Passed => Ok(()),
    }
}

/// Adds a name.
fn push<'a>(opened: &mut Vec<&'a str>, name: &'a str) -> Result<(), AllocError>
    ensures { OnOk result (map name_of opened.new.items ≡ map name_of opened.old.items ++ name.now ∷ []) }
{
    opened.push(name)?;
    Ok(())
}

/// Adds a mark.
fn keep<'a>(found: &mut Vec<Mark<'a>>, mark: Mark<'a>) -> Result<(), AllocError>
    ensures { OnOk result (found.new.items ≡ found.old.items ++ mark.entry ∷ []) }
{
    found.push(mark)?;
    Ok(())
}

/// The marks, if nothing is open.
fn ended<'a>(read: Read<'a>, place: Place) -> Result<Vec<Mark<'a>>, XmlFault>
    ensures { IfOk result (λ marks. IsNested [] read.entry.found.items read.entry.opened.items → AreNested marks.items) }
{
    let Read { found, opened } = read;
    if place.comment > 0 {
        return Err(XmlFault::Comment(place.comment));
    }
    if !opened.is_empty() {
        return Err(XmlFault::Open(line_of_open(&found, opened.len())));
    }
    if !found.iter().any(is_of_element) {
        return Err(XmlFault::Nothing);
    }
    Ok(found)
}

/// The line of the last element that is opened at a depth.
fn line_of_open(found: &[Mark<'_>], depth: usize) -> u64 {
    let mut line = 1;
    for mark in found {
        if mark.depth == depth && mark.kind == Kind::Opens {
            line = mark.line;
        }
    }
    line
}

/// Whether a text has blanks alone, or a byte order mark before them.
fn is_blank(text: &str) -> bool {
    let text = text.strip_prefix('\u{feff}').unwrap_or(text);
    text.trim().is_empty()
}
