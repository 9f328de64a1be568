//! The two parts of a network text after its head, and the lines between which they stand.

ghost use Rattle.std.specs.Prelude.{◌≡◌, [], if◌then◌else◌};
ghost use Rattle.racp_sm.specs.Lines.{words_of};
ghost use Rattle.racp_sm.specs.Steps.{next_title, texts, title_of, words_in_part};

use crate::line::Line;

/// A part of a network text.
#[derive(Clone, Copy, Drop)]
pub(crate) enum Part {
    /// The precedence relation.
    Precedence,
    /// The durations and requests.
    Requests,
}

/// A line that begins or ends a part.
#[derive(Clone, Copy, Drop)]
pub(crate) enum Mark {
    /// The title of a part.
    Title(Part),
    /// A line whose first word begins with a star, or the title after the part: the part ends before it.
    End(Part),
}

impl Part {
    /// The words of the part's title.
    pub(crate) fn title(self) -> &'static [&'static str]
        ensures { texts result.now ≡ title_of self }
    {
        match self {
            Part::Precedence => &["PRECEDENCE", "RELATIONS:"],
            Part::Requests => &["REQUESTS/DURATIONS:"],
        }
    }

    /// The words of the title after the part.
    pub(crate) fn next_title(self) -> &'static [&'static str]
        ensures { texts result.now ≡ next_title self }
    {
        match self {
            Part::Precedence => &["REQUESTS/DURATIONS:"],
            Part::Requests => &["RESOURCEAVAILABILITIES:"],
        }
    }

    /// Whether a line of the part has no words for it: a rule in the requests part.
    pub(crate) fn skips(self, line: &Line) -> bool
        ensures { words_in_part self line.now ≡ if result then [] else words_of line.now }
    {
        match self {
            Part::Precedence => false,
            Part::Requests => line.is_rule(),
        }
    }
}
