//! What the titles of columns mean.

use std::alloc::{AllocError, Global};
use strsim::levenshtein;

/// What a column is for.
#[derive(Clone, Copy, PartialEq, Eq)]
pub(crate) enum Title {
    /// What the tasks are called in other rows.
    Id,
    /// Their names.
    Name,
    /// How long they take.
    Duration,
    /// After which tasks they come.
    Predecessors,
    /// Which tasks come after them.
    Successors,
    /// From which time on they may start.
    Earliest,
    /// By which time they have to end.
    Due,
    /// Which resources they need, by name.
    Assigned,
    /// How deep they lie in the outline.
    Level,
    /// By which date they are to end, which is no matter of a table without a calendar.
    Deadline,
    /// What a plan has no use for.
    Other,
    /// It has no title.
    Nothing,
    /// The title is not known.
    Unknown,
}

/// The titles of a kind of column: their keys, between blanks.
struct Kind {
    title: Title,
    keys: &'static str,
}

/// The titles that are known, in English and German.
const KINDS: &[Kind] = &[
    Kind {
        title: Title::Id,
        keys: "id no nr # job taskid jobid taskno tasknumber number nummer vorgangsnummer",
    },
    Kind {
        title: Title::Name,
        keys: "name task taskname activity activityname vorgang vorgangsname bezeichnung",
    },
    Kind {
        title: Title::Duration,
        keys: "duration dauer",
    },
    Kind {
        title: Title::Predecessors,
        keys: "predecessors predecessor predecessor(s) dependson after vorgänger",
    },
    Kind {
        title: Title::Successors,
        keys: "successors successor successor(s) nachfolger",
    },
    Kind {
        title: Title::Earliest,
        keys: "earliest startnoearlierthan anfangnichtfrüherals",
    },
    Kind {
        title: Title::Due,
        keys: "due finishnolaterthan endenichtspäterals",
    },
    Kind {
        title: Title::Assigned,
        keys: "resourcenames resources ressourcennamen ressourcen",
    },
    Kind {
        title: Title::Level,
        keys: "outlinelevel level gliederungsebene",
    },
    Kind {
        title: Title::Deadline,
        keys: "deadline stichtag",
    },
    Kind {
        title: Title::Other,
        keys: "start finish end begin begindate startdate enddate finishdate scheduledstart scheduledfinish \
            actualstart actualfinish anfang ende cost costs kosten priority priorität \
            %complete complete completion percentcomplete progress %abgeschlossen fortschritt wbs wbscode pspcode \
            outlinenumber gliederungsnummer slack totalslack freeslack \
            gesamtepufferzeit puffer critical kritisch notes note comment comments notizen bemerkung \
            constrainttype constraintdate constraint einschränkungsart einschränkungstermin work arbeit \
            indicators indikatoren active aktiv taskmode vorgangsmodus coordinator taskcolor weblink \
            assignments milestone meilenstein summary status guid type",
    },
];

/// What a title is compared by: its letters, small, without blanks, points, hyphens and underscores.
pub(crate) fn key_of(alloc: Global, title: &str) -> Result<String, AllocError> {
    let mut letters = String::new(alloc);
    for letter in title.chars() {
        if !is_passed_over(letter) {
            letters.push(letter)?;
        }
    }
    letters.as_str().to_lowercase(alloc)
}

/// Whether titles are compared without this letter.
fn is_passed_over(letter: char) -> bool {
    letter.is_whitespace() || letter == '.' || letter == '-' || letter == '_' || letter == ':'
}

/// What a column whose title has this key is for.
pub(crate) fn title_of(key: &str) -> Title {
    if key.is_empty() {
        return Title::Nothing;
    }
    for kind in KINDS {
        if is_among(kind.keys, key) {
            return kind.title;
        }
    }
    Title::Unknown
}

/// Whether a key is among those between blanks.
fn is_among(keys: &str, key: &str) -> bool {
    for known in keys.split_whitespace() {
        if known == key {
            return true;
        }
    }
    false
}

/// The known title, of one that is put to use, from which a key of at least four letters is one letter away.
pub(crate) fn near_title(alloc: Global, key: &str) -> Result<Option<&'static str>, AllocError> {
    if key.chars().count() < 4 {
        return Ok(None);
    }
    for kind in KINDS {
        if kind.title != Title::Other
            && kind.title != Title::Deadline
            && let Some(near) = near_among(alloc, kind.keys, key)?
        {
            return Ok(Some(near));
        }
    }
    Ok(None)
}

/// The key, of those between blanks, of at least four letters, from which a key is one letter away.
fn near_among<'a>(alloc: Global, keys: &'a str, key: &str) -> Result<Option<&'a str>, AllocError> {
    for known in keys.split_whitespace() {
        if known.chars().count() >= 4 && levenshtein(alloc, known, key)? == 1 {
            return Ok(Some(known));
        }
    }
    Ok(None)
}
