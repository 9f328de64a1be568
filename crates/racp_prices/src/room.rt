//! How much memory the values of a TOML text may take. Contracts do not see memory, so no clause says it: tests do.

ghost use Rattle.std.specs.Prelude.{◌≡◌, true};
ghost use Rattle.toml_parser.specs.Strings.{starts_string};

use std::alloc::Global;
use toml_parser::text::{first, skip, skip_blank};
use toml_parser::{quoted, starts_string};

/// How many bytes of memory the values of an order may take, about: 448 MiB.
const MOST_ROOM: usize = 469_762_048;

/// How many bytes a table takes, about. Each part of a key before the last, and each key with a value, may make one.
const TABLE: usize = 1_280;

/// How many bytes an array takes, about.
const ARRAY: usize = 320;

/// How many bytes a place in an array, a text or an empty table takes, about.
const ITEM: usize = 64;

/// What the values take of the part of a text that was looked at.
#[derive(Drop)]
struct Room {
    /// How many bytes.
    taken: usize,
    /// How many points stand behind the last sign that is no point. In a key they make tables; in a number they do not.
    points: usize,
}

impl Room {
    /// Counts what the tables of a key take, if that is what the points belong to.
    fn take_tables(&mut self, others: usize) {
        let tables = self.points.saturating_add(others);
        self.take(tables.saturating_mul(TABLE));
    }

    /// Counts so many bytes.
    fn take(&mut self, bytes: usize) {
        self.taken = self.taken.saturating_add(bytes);
        self.points = 0;
    }

    /// Counts a byte outside of texts and comments.
    fn count(&mut self, byte: u8) {
        match byte {
            b'.' => self.points = self.points.saturating_add(1),
            b'=' => self.take_tables(1),
            b']' => self.take_tables(0),
            b'[' => self.take(ARRAY),
            b'{' => self.take(ITEM),
            b',' => self.take(ITEM),
            _ => {}
        }
    }
}

/// Whether the values of a TOML text may take more memory than those of an order may. What is no TOML ends the text here,
/// as it ends its reading. An order has few values, so it is never too large, however long its comments, its blanks and
/// the spellings of its numbers are.
pub(crate) fn is_too_large(alloc: Global, text: &str) -> bool {
    let mut room = Room {
        taken: 0,
        points: 0,
    };
    let mut rest = text.strip_prefix("\u{FEFF}").unwrap_or(text);
    for _token in 0..text.len() {
        rest = match behind_token(alloc, skip_blank(rest, true), &mut room) {
            Some(after) => after,
            None => return false,
        };
        if MOST_ROOM < room.taken {
            return true;
        }
    }
    false
}

/// Counts what stands first, a text in quotes or a byte, and answers what follows it. `None` at the end, and where no
/// TOML goes on.
fn behind_token<'a>(alloc: Global, text: &'a str, room: &mut Room) -> Option<&'a str> {
    if starts_string(text) {
        room.take(ITEM);
        return behind_quoted(alloc, text);
    }
    let byte = first(text);
    if byte == 0 || !byte.is_ascii() {
        return None;
    }
    room.count(byte);
    Some(skip(text, 1))
}

/// What follows a text in quotes; `None` if it does not end.
fn behind_quoted(alloc: Global, text: &str) -> Option<&str>
    requires { starts_string text.now ≡ true }
{
    match quoted(alloc, text) {
        Ok((_, after)) => Some(after),
        Err(_) => None,
    }
}
