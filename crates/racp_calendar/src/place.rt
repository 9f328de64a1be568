//! Where something stands in the text of a calendar. What is told of a place is only safe: no other answer rests on it.

/// A byte of a text, told by its line and its column, both from 1.
pub(crate) fn line_and_column(text: &str, offset: usize) -> (usize, usize) {
    let mut line = 1usize;
    let mut column = 1usize;
    for (place, byte) in text.as_bytes().iter().enumerate() {
        if offset <= place {
            return (line, column);
        }
        if *byte == b'\n' {
            line = line.saturating_add(1);
            column = 1;
        } else if *byte < 0x80 || 0xc0 <= *byte {
            // The bytes that go on with a character are passed over.
            column = column.saturating_add(1);
        }
    }
    (line, column)
}

/// The byte at which a line begins with this key, which may be in quotes or brackets; 0 if none does.
pub(crate) fn key_place(text: &str, key: &str) -> usize {
    let mut start = 0usize;
    for line in text.split('\n') {
        if let Some(before) = key_in(line.as_bytes(), key.as_bytes()) {
            return start.saturating_add(before);
        }
        start = start.saturating_add(line.len()).saturating_add(1);
    }
    0
}

/// How many bytes stand before this key in a line that begins with it.
fn key_in(line: &[u8], key: &[u8]) -> Option<usize> {
    for (before, byte) in line.iter().enumerate() {
        if !matches!(*byte, b' ' | b'\t' | b'"' | b'\'' | b'[') {
            return if is_key(line.get(before..)?, key) {
                Some(before)
            } else {
                None
            };
        }
    }
    None
}

/// Whether bytes begin with this key, and not with a longer one.
fn is_key(line: &[u8], key: &[u8]) -> bool {
    match line.strip_prefix(key) {
        Some([next, ..]) => !next.is_ascii_alphanumeric() && *next != b'_' && *next != b'-',
        Some([]) => true,
        None => false,
    }
}

/// Where a scan of an array is.
#[derive(Clone, Copy)]
struct Scan {
    /// How many brackets are open.
    depth: usize,
    /// How many items of the array ended.
    items: usize,
    /// Whether a comment goes on.
    in_comment: bool,
}

impl Scan {
    /// Whether an item with so many before it begins with this byte.
    fn begins(&self, byte: u8, item: usize) -> bool {
        !self.in_comment
            && self.depth == 1
            && self.items == item
            && !matches!(byte, b' ' | b'\t' | b'\r' | b'\n' | b'#' | b',' | b']')
    }

    /// The scan behind a byte.
    fn behind(self, byte: u8) -> Scan {
        let mut scan = self;
        match byte {
            b'\n' => scan.in_comment = false,
            _ if scan.in_comment => {}
            b'#' => scan.in_comment = true,
            b'[' => scan.depth = scan.depth.saturating_add(1),
            b']' => scan.depth = scan.depth.saturating_sub(1),
            b',' if scan.depth == 1 => scan.items = scan.items.saturating_add(1),
            _ => {}
        }
        scan
    }
}

/// The byte at which the item of an array begins that has so many before it, if the array stands behind this byte; this
/// byte if there is no such item.
pub(crate) fn item_place(text: &str, begin: usize, item: usize) -> usize {
    let mut scan = Scan {
        depth: 0,
        items: 0,
        in_comment: false,
    };
    for (place, byte) in text.as_bytes().iter().enumerate() {
        if begin <= place {
            if scan.begins(*byte, item) {
                return place;
            }
            scan = scan.behind(*byte);
        }
    }
    begin
}
