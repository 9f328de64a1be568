//! Bytes cut at a byte of a kind, and their words.

ghost use Rattle.std.specs.Prelude.{◌≡◌, ◌==◌, [], ◌∷◌, position};
ghost use Rattle.racp_sm.specs.Lines.{is_blank, is_word, words_in};
ghost use lib.Pointwise.{pointwise};
ghost use Rattle.racp_text.specs.Cuts.{IsCut};
ghost use Rattle.racp_sm.specs.Steps.{TakesWord, TakesWords, texts};

/// What stands before the first blank or tab, and what after it, or `None` if there is none.
fn cut_at_blank(bytes: &[u8]) -> Option<(&[u8], &[u8])>
    ensures { IsCut is_blank bytes.now result }
{
    let end = place_of_blank(bytes)?;
    Some((&bytes[..end], &bytes[end + 1..]))
}

/// The place of the first blank or tab, from 0.
fn place_of_blank(bytes: &[u8]) -> Option<usize>
    ensures { result ≡ position is_blank bytes.now }
{
    bytes.iter().position(|b| *b == b' ' || *b == b'\t')
}

/// The first word of some bytes, and what stands after it, or `None` if there is no word.
pub(crate) fn first_word(bytes: &[u8]) -> Option<(&[u8], &[u8])>
    ensures { TakesWord bytes.now result }
{
    let mut rest = bytes;
    while let Some((front, after)) = cut_at_blank(rest) {
        if !front.is_empty() {
            return Some((front, after));
        }
        rest = after;
    }
    if rest.is_empty() {
        return None;
    }
    Some((rest, &rest[..0]))
}

/// Whether the words are exactly these.
pub(crate) fn are_words(bytes: &[u8], names: &[&str]) -> bool
    ensures { result ≡ pointwise is_word (words_in bytes.now) (texts names.now) }
{
    match after_words(bytes, names) {
        Some(rest) => first_word(rest).is_none(),
        None => false,
    }
}

/// What stands after these words, or `None` if the bytes begin with other words.
pub(crate) fn after_words<'a>(bytes: &'a [u8], names: &[&str]) -> Option<&'a [u8]>
    ensures { TakesWords (texts names.now) bytes.now result }
{
    let mut rest = bytes;
    for name in names {
        rest = after_word(rest, name)?;
    }
    Some(rest)
}

/// What stands after this word, or `None` if the bytes begin with another or have none.
fn after_word<'a>(bytes: &'a [u8], name: &str) -> Option<&'a [u8]>
    ensures { TakesWords (name.now ∷ []) bytes.now result }
{
    let (word, rest) = first_word(bytes)?;
    if word == name.as_bytes() {
        Some(rest)
    } else {
        None
    }
}
