//! All subjects, and those that words name.

ghost use Rattle.std.specs.Prelude.{◌≡◌, IfOk, option_map};
ghost use Rattle.std.specs.List.{filter};
ghost use Rattle.racp_explain.specs.Subjects.{is_named};
ghost use Rattle.racp_explain.specs.declared.subjects.TheConstants.{SUBJECTS};

use crate::subject::{Line, Subject};
use racp_plan::TextFaultKind;
use racp_prices::OrderFault;
use racp_sm::SmFaultKind;
use std::alloc::{AllocError, Global};

/// All subjects: those of each format by their numbers, and then the lines without a number.
pub const SUBJECTS: [Subject; 49] = [
    Subject::Sm(SmFaultKind::NoJobs),
    Subject::Sm(SmFaultKind::NoRenewable),
    Subject::Sm(SmFaultKind::ManyProjects),
    Subject::Sm(SmFaultKind::OtherResources),
    Subject::Sm(SmFaultKind::NoPrecedence),
    Subject::Sm(SmFaultKind::NoRequests),
    Subject::Sm(SmFaultKind::BadNumber),
    Subject::Sm(SmFaultKind::Limit),
    Subject::Sm(SmFaultKind::BadRow),
    Subject::Sm(SmFaultKind::NotSingleMode),
    Subject::Sm(SmFaultKind::BadSuccessor),
    Subject::Sm(SmFaultKind::TooFew),
    Subject::Sm(SmFaultKind::TooMany),
    Subject::Sm(SmFaultKind::Cycle),
    Subject::Sm(SmFaultKind::Memory),
    Subject::Order(OrderFault::NotToml),
    Subject::Order(OrderFault::Missing),
    Subject::Order(OrderFault::Unknown),
    Subject::Order(OrderFault::NotWhole),
    Subject::Order(OrderFault::Range),
    Subject::Order(OrderFault::Count),
    Subject::Order(OrderFault::Memory),
    Subject::Order(OrderFault::Version),
    Subject::Plan(TextFaultKind::Syntax),
    Subject::Plan(TextFaultKind::Range),
    Subject::Plan(TextFaultKind::Memory),
    Subject::Names,
    Subject::NamesCount,
    Subject::Curve,
    Subject::CurveSteps,
    Subject::Changes,
    Subject::ChangesPlan,
    Subject::Line(Line::TooLate),
    Subject::Line(Line::Due),
    Subject::Line(Line::NoRoom),
    Subject::Line(Line::Stopped),
    Subject::Line(Line::Head),
    Subject::Line(Line::Cost),
    Subject::Line(Line::Late),
    Subject::Line(Line::Order),
    Subject::Line(Line::Over),
    Subject::Line(Line::Ceiling),
    Subject::Line(Line::Early),
    Subject::Line(Line::Unproved),
    Subject::Line(Line::Read),
    Subject::Line(Line::Write),
    Subject::Line(Line::TooLong),
    Subject::Line(Line::NoThread),
    Subject::Line(Line::Memory),
];

/// The subjects that these words name, in the order of the table.
///
/// # Errors
///
/// Memory was refused.
pub fn named(alloc: Global, first: &str, second: Option<&str>) -> Result<Vec<Subject>, AllocError>
    ensures { IfOk result (λ found. found.items ≡
        filter (is_named first.now (option_map (λ word. word.now) second.entry)) SUBJECTS) }
{
    chosen(alloc, &SUBJECTS, first, second)
}

/// Those of some subjects that these words name.
fn chosen(
    alloc: Global,
    subjects: &[Subject],
    first: &str,
    second: Option<&str>,
) -> Result<Vec<Subject>, AllocError>
    ensures { IfOk result (λ found. found.items ≡
        filter (is_named first.now (option_map (λ word. word.now) second.entry)) subjects.now) }
{
    subjects
        .iter()
        .copied()
        .filter(|subject| subject.is_named(first, second))
        .collect(alloc)
}
