//! What can be explained, and the words by which it is asked for.

ghost use Rattle.std.specs.Prelude.{◌≡◌, option_map};
ghost use Rattle.racp_explain.specs.Subjects.{format_of, is_named, is_number_of, line_words, name_of, number_of};

use racp_plan::TextFaultKind;
use racp_prices::OrderFault;
use racp_sm::SmFaultKind;
use racp_text::number;

/// A fault, or a line that the program writes in place of an answer.
#[derive(Clone, Copy)]
pub enum Subject {
    /// Why a network text is refused.
    Sm(SmFaultKind),
    /// Why an order is refused.
    Order(OrderFault),
    /// Why a plan text is refused.
    Plan(TextFaultKind),
    /// Names that are not UTF-8.
    Names,
    /// Names of another number than there are jobs and resources.
    NamesCount,
    /// A curve that is not UTF-8.
    Curve,
    /// A curve without a line for a deadline.
    CurveSteps,
    /// A text of changes that is not UTF-8.
    Changes,
    /// A text of changes of another plan.
    ChangesPlan,
    /// A line without a number.
    Line(Line),
}

/// A line without a number, which the program writes in place of an answer.
#[derive(Clone, Copy)]
pub enum Line {
    /// The plan names another deadline or another critical length.
    Head,
    /// The cost of the plan is wrong.
    Cost,
    /// A job of the plan ends too late.
    Late,
    /// A job of the plan starts before one has ended that it has to wait for.
    Order,
    /// A resource is used above the capacity of the plan.
    Over,
    /// A capacity of the plan is above its ceiling.
    Ceiling,
    /// A job of the plan starts before its release time.
    Early,
    /// The critical length exceeds the deadline.
    TooLate,
    /// A job cannot end by its due time.
    Due,
    /// No capacities within the ceilings are enough.
    NoRoom,
    /// The certificate is none, or none could be made.
    Unproved,
    /// Planning was stopped.
    Stopped,
    /// A worker could not be started.
    NoThread,
    /// Memory ran out.
    Memory,
    /// A file cannot be opened or read.
    Read,
    /// Standard output takes no more.
    Write,
    /// An input has too many bytes.
    TooLong,
}

impl Line {
    /// The first word of the line.
    fn first(self) -> &'static str
        ensures { result.now ≡ (line_words self).0 }
    {
        match self {
            Line::Head => "fault",
            Line::Cost => "fault",
            Line::Late => "fault",
            Line::Order => "fault",
            Line::Over => "fault",
            Line::Ceiling => "fault",
            Line::Early => "fault",
            Line::TooLate => "impossible",
            Line::Due => "impossible",
            Line::NoRoom => "impossible",
            Line::Unproved => "unproved",
            Line::Stopped => "stopped",
            Line::NoThread => "no",
            Line::Memory => "memory",
            Line::Read => "read",
            Line::Write => "write",
            Line::TooLong => "too",
        }
    }

    /// The second word of the line, or the first if there is no other.
    fn second(self) -> &'static str
        ensures { result.now ≡ (line_words self).1 }
    {
        match self {
            Line::Head => "head",
            Line::Cost => "cost",
            Line::Late => "late",
            Line::Order => "order",
            Line::Over => "over",
            Line::Ceiling => "ceiling",
            Line::Early => "early",
            Line::TooLate => "critical",
            Line::Due => "due",
            Line::NoRoom => "ceiling",
            Line::Unproved => "unproved",
            Line::Stopped => "stopped",
            Line::NoThread => "thread",
            Line::Memory => "memory",
            Line::Read => "fault",
            Line::Write => "fault",
            Line::TooLong => "long",
        }
    }
}

impl Subject {
    /// The kind of text that is refused, as `sm`; or the first word of the line, as `impossible`.
    pub fn format(self) -> &'static str
        ensures { result.now ≡ format_of self }
    {
        match self {
            Subject::Sm(_) => "sm",
            Subject::Order(_) => "order",
            Subject::Plan(_) => "plan",
            Subject::Names | Subject::NamesCount => "names",
            Subject::Curve | Subject::CurveSteps => "curve",
            Subject::Changes | Subject::ChangesPlan => "whatif",
            Subject::Line(line) => line.first(),
        }
    }

    /// The number of the fault, from 1, if it has one.
    pub fn number(self) -> Option<u8>
        ensures { result ≡ number_of self }
    {
        match self {
            Subject::Sm(kind) => Some(kind as u8),
            Subject::Order(fault) => Some(fault as u8),
            Subject::Plan(kind) => Some(kind as u8),
            Subject::Names => Some(1),
            Subject::NamesCount => Some(2),
            Subject::Curve => Some(1),
            Subject::CurveSteps => Some(2),
            Subject::Changes => Some(1),
            Subject::ChangesPlan => Some(2),
            Subject::Line(_) => None,
        }
    }

    /// The name of the fault, as `TooFew`; or the second word of the line, as `critical`, and of a line with one word
    /// that word.
    pub fn name(self) -> &'static str
        ensures { result.now ≡ name_of self }
    {
        match self {
            Subject::Sm(kind) => kind.name(),
            Subject::Order(fault) => fault.name(),
            Subject::Plan(kind) => kind.name(),
            Subject::Names => "NotUtf8",
            Subject::NamesCount => "Count",
            Subject::Curve => "NotUtf8",
            Subject::CurveSteps => "NoSteps",
            Subject::Changes => "NotUtf8",
            Subject::ChangesPlan => "OtherPlan",
            Subject::Line(line) => line.second(),
        }
    }

    /// Whether these words name the subject: its format or its name alone, or its format before its name or its number.
    /// Letters are compared exactly; zeros may stand before the number.
    pub fn is_named(self, first: &str, second: Option<&str>) -> bool
        ensures { result ≡ is_named first.now (option_map (λ word. word.now) second.entry) self }
    {
        match second {
            None => first == self.format() || first == self.name(),
            Some(second) => {
                first == self.format()
                    && (second == self.name() || is_number_of(second, self.number()))
            }
        }
    }
}

/// Whether a word is this number in decimal, if there is one.
fn is_number_of(word: &str, wanted: Option<u8>) -> bool
    ensures { result ≡ is_number_of word.now wanted }
{
    match wanted {
        Some(wanted) => is_decimal(word.as_bytes(), wanted),
        None => false,
    }
}

/// Whether a word is this number in decimal.
fn is_decimal(word: &[u8], wanted: u8) -> bool
    ensures { result ≡ is_number_of word.now (Some wanted) }
{
    match number(word) {
        Some(found) => found == wanted as u64,
        None => false,
    }
}
