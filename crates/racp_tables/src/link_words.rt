//! Links as planners write them: `3`, `3FS`, `3FS+2 days`, `3SS+1`.

ghost use Rattle.std.specs.Prelude.{◌≡◌, IfOk};
ghost use Rattle.std.specs.Str.{str_eq_ignore_ascii_case};
ghost use Rattle.racp_tables.specs.LinkWords.{is_either, is_one, kind_of, kinded, lag_or, lagged, lead_said, led, link_said, of_kind, with_letters, without_lag};
ghost use Rattle.racp_tables.specs.Pieces.{parts_at_last};

use crate::duration::units_in;
use crate::named::{Named, task_of};
use crate::pieces::parts_at_last;
use crate::reading::Scale;
use crate::row::Row;
use crate::ties::Tie;
use racp_links::LinkKind;
use racp_model::limits::MOST_DURATION;
use std::alloc::{AllocError, Global};

/// What a word says of a link.
#[derive(Clone, Copy)]
pub(crate) enum Word {
    /// A link.
    Tie(Tie),
    /// A link with a lead, to the task at this place: less than no lag.
    Lead(usize),
    /// The name of several tasks.
    Several,
    /// No link.
    None,
}

/// What a word says of a link: a task, and then perhaps a kind and a lag.
pub(crate) fn word_of(
    alloc: Global,
    rows: &[Row],
    word: &str,
    scale: Scale,
) -> Result<Word, AllocError>
    ensures { IfOk result (λ said. said ≡ link_said rows.now scale word.now) }
{
    if word.is_empty() {
        return Ok(Word::None);
    }
    match kinded(rows, word) {
        Word::Tie(tie) => Ok(Word::Tie(tie)),
        Word::Lead(place) => Ok(Word::Lead(place)),
        Word::Several => Ok(Word::Several),
        Word::None => timed_of(alloc, rows, word, scale),
    }
}

/// What a word with a lag or a lead says.
fn timed_of(alloc: Global, rows: &[Row], word: &str, scale: Scale) -> Result<Word, AllocError>
    ensures { IfOk result (λ said. said ≡ lag_or rows.now scale (parts_at_last 43 word.now) (lead_said rows.now scale (parts_at_last 45 word.now))) }
{
    match parts_at_last(word, b'+') {
        Some((front, lag)) => {
            let lag = units_in(alloc, lag.trim(), scale, MOST_DURATION)?;
            Ok(lagged(kinded(rows, front.trim()), lag))
        }
        None => lead_of(alloc, rows, word, scale),
    }
}

/// A link with this lag.
fn lagged(word: Word, lag: Option<u32>) -> Word
    ensures { result ≡ lagged word lag }
{
    let Some(lag) = lag else {
        return Word::None;
    };
    match word {
        Word::Tie(tie) => {
            let Tie { place, kind, .. } = tie;
            Word::Tie(Tie { place, kind, lag })
        }
        Word::Lead(place) => Word::Lead(place),
        Word::Several => Word::Several,
        Word::None => Word::None,
    }
}

/// What a word says of a link with a lead, such as `3FS-2`; `3-2` is none.
fn lead_of(alloc: Global, rows: &[Row], word: &str, scale: Scale) -> Result<Word, AllocError>
    ensures { IfOk result (λ said. said ≡ lead_said rows.now scale (parts_at_last 45 word.now)) }
{
    match parts_at_last(word, b'-') {
        Some((front, lead)) => {
            let time = units_in(alloc, lead.trim(), scale, MOST_DURATION)?;
            let front = front.trim();
            if time.is_some() && !is_one(task_of(rows, front)) {
                Ok(led(kinded(rows, front)))
            } else {
                Ok(Word::None)
            }
        }
        None => Ok(Word::None),
    }
}

/// Whether one task is named.
fn is_one(task: Named) -> bool
    ensures { result ≡ is_one task }
{
    match task {
        Named::One(_) => true,
        Named::Several => false,
        Named::None => false,
    }
}

/// A link with a lead.
fn led(word: Word) -> Word
    ensures { result ≡ led word }
{
    match word {
        Word::Tie(tie) => Word::Lead(tie.place),
        Word::Lead(place) => Word::Lead(place),
        Word::Several => Word::Several,
        Word::None => Word::None,
    }
}

/// What a word without a lag says of a link.
fn kinded(rows: &[Row], word: &str) -> Word
    ensures { result ≡ kinded rows.now word.now }
{
    match task_of(rows, word) {
        Named::One(place) => Word::Tie(without_lag(place, LinkKind::FinishToStart)),
        Named::Several => Word::Several,
        Named::None => with_letters(rows, word),
    }
}

/// What a word that ends with the letters of a kind says of a link.
fn with_letters(rows: &[Row], word: &str) -> Word
    ensures { result ≡ with_letters rows.now word.now }
{
    match word.split_at_checked(word.len().saturating_sub(2)) {
        Some((front, letters)) => of_kind(rows, front.trim(), kind_of(letters)),
        None => Word::None,
    }
}

/// A link of a kind, if there is one, to the task that a word names.
fn of_kind(rows: &[Row], word: &str, kind: Option<LinkKind>) -> Word
    ensures { result ≡ of_kind rows.now word.now kind }
{
    let Some(kind) = kind else {
        return Word::None;
    };
    match task_of(rows, word) {
        Named::One(place) => Word::Tie(without_lag(place, kind)),
        Named::Several => Word::Several,
        Named::None => Word::None,
    }
}

/// The kind of link with these letters, in English or German.
fn kind_of(letters: &str) -> Option<LinkKind>
    ensures { result ≡ kind_of letters.now }
{
    if is_either(letters, "FS", "EA") {
        Some(LinkKind::FinishToStart)
    } else if is_either(letters, "SS", "AA") {
        Some(LinkKind::StartToStart)
    } else if is_either(letters, "FF", "EE") {
        Some(LinkKind::FinishToFinish)
    } else if is_either(letters, "SF", "AE") {
        Some(LinkKind::StartToFinish)
    } else {
        None
    }
}

/// Whether letters are one of these two, large or small.
fn is_either(letters: &str, english: &str, german: &str) -> bool
    ensures { result ≡ is_either english.now german.now letters.now }
{
    is_like(letters, english) || is_like(letters, german)
}

/// Whether letters are these, large or small.
fn is_like(letters: &str, known: &str) -> bool
    ensures { result ≡ str_eq_ignore_ascii_case letters.now known.now }
{
    letters.eq_ignore_ascii_case(known)
}

/// A link without lag.
pub(crate) fn without_lag(place: usize, kind: LinkKind) -> Tie
    ensures { result ≡ without_lag place kind }
{
    Tie {
        place,
        kind,
        lag: 0,
    }
}
