//! What a line of a names file tells.

ghost use Rattle.std.specs.Prelude.{◌≡◌, ◌≤◌, ◌==◌, length, slice_index};
ghost use Rattle.racp_show.specs.Lines.{behind, hashes, is_end, is_heading, is_name, is_wait, title_of};

/// Whether a printed line of a names file is a name. Else it tells how the jobs below it are shown: a phase begins or
/// ends, or they wait.
pub fn is_name(line: &str) -> bool
    ensures { result ≡ is_name line.now }
{
    !(is_wait(line) || is_end(line) || is_heading(line))
}

/// Whether the jobs below a line wait.
pub(crate) fn is_wait(line: &str) -> bool
    ensures { result ≡ is_wait line.now }
{
    line.trim_end().as_bytes() == b"#wait".as_slice()
}

/// Whether phases end at a line.
pub(crate) fn is_end(line: &str) -> bool
    ensures { result ≡ is_end line.now }
{
    !(hashes(line) == 0) && title_of(line).is_empty()
}

/// Whether a phase begins at a line.
pub(crate) fn is_heading(line: &str) -> bool
    ensures { result ≡ is_heading line.now }
{
    !(hashes(line) == 0) && begins_blank(behind(line)) && !title_of(line).is_empty()
}

/// The title of the phase that begins at a line.
pub(crate) fn title_of(line: &str) -> &str
    ensures { result.now ≡ title_of line.now }
{
    behind(line).trim()
}

/// How many `#` a line begins with.
pub(crate) fn hashes(line: &str) -> usize
    ensures { result ≡ hashes line.now }
{
    line.len() - behind(line).len()
}

/// What stands behind the `#` with which a line begins.
fn behind(line: &str) -> &str
    ensures rest { result.now ≡ behind line.now }
    ensures short { length result.now ≤ length line.now }
{
    let mut rest = line;
    for _hash in 0..line.len() {
        match rest.strip_prefix("#") {
            Some(more) => rest = more,
            None => return rest,
        }
    }
    rest
}

/// Whether a text begins with a blank.
fn begins_blank(text: &str) -> bool
    ensures { result ≡ (slice_index text.now 0 == 32) }
{
    match text.as_bytes().first() {
        Some(byte) => *byte == b' ',
        None => false,
    }
}
