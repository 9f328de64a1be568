//! Why a text is no network.

ghost use Rattle.std.specs.Prelude.{◌≡◌};
ghost use Rattle.racp_sm.specs.Faults.{fault_name};

use racp_text::LineFault;
use thiserror::Error;

/// Why a text is no network: the first rule that it breaks, in the order in which the text is read. The number that is
/// printed is that of the variant.
#[derive(Debug, Clone, Copy, PartialEq, Eq, Drop, Error)]
pub enum SmFaultKind {
    /// The head does not say how many jobs there are.
    #[error("the number of jobs is missing")]
    NoJobs = 1,
    /// The head does not say how many renewable resources there are.
    #[error("the number of renewable resources is missing")]
    NoRenewable = 2,
    /// The number of projects is not 1.
    #[error("there is another number of projects than 1")]
    ManyProjects = 3,
    /// There are nonrenewable or doubly constrained resources.
    #[error("there are resources that are not renewable")]
    OtherResources = 4,
    /// There is no line `PRECEDENCE RELATIONS:`.
    #[error("the precedence relations are missing")]
    NoPrecedence = 5,
    /// There is no line `REQUESTS/DURATIONS:` after the precedence relations.
    #[error("the requests and durations are missing")]
    NoRequests = 6,
    /// A word stands where a number has to, or a value is missing after its key.
    #[error("a number is missing, or a word is not a number")]
    BadNumber = 7,
    /// A number is above its limit, or there is no job or no resource.
    #[error("a number is out of range")]
    Limit = 8,
    /// A row is not that of the next job.
    #[error("a row is not that of the next job")]
    BadRow = 9,
    /// A job has another number of modes than 1, or a mode other than 1.
    #[error("a number of modes, or a mode, is not 1")]
    NotSingleMode = 10,
    /// A successor is not the number of a job.
    #[error("a successor is no job")]
    BadSuccessor = 11,
    /// A part ends before its last number.
    #[error("a part ends too early")]
    TooFew = 12,
    /// A number stands after the last one of a part.
    #[error("a number stands after the last one of a part")]
    TooMany = 13,
    /// A job would have to wait for itself.
    #[error("a job has to wait for itself")]
    Cycle = 14,
    /// Memory ran out.
    #[error("out of memory")]
    Memory = 15,
}

/// Why a text was not read, and the number of the line, from 1, where that shows; 0 if it is no one line.
pub type SmFault = LineFault<SmFaultKind>;

impl SmFaultKind {
    /// The fault's name, as `NoJobs`.
    pub fn name(self) -> &'static str
        ensures { result.now ≡ fault_name self }
    {
        match self {
            SmFaultKind::NoJobs => "NoJobs",
            SmFaultKind::NoRenewable => "NoRenewable",
            SmFaultKind::ManyProjects => "ManyProjects",
            SmFaultKind::OtherResources => "OtherResources",
            SmFaultKind::NoPrecedence => "NoPrecedence",
            SmFaultKind::NoRequests => "NoRequests",
            SmFaultKind::BadNumber => "BadNumber",
            SmFaultKind::Limit => "Limit",
            SmFaultKind::BadRow => "BadRow",
            SmFaultKind::NotSingleMode => "NotSingleMode",
            SmFaultKind::BadSuccessor => "BadSuccessor",
            SmFaultKind::TooFew => "TooFew",
            SmFaultKind::TooMany => "TooMany",
            SmFaultKind::Cycle => "Cycle",
            SmFaultKind::Memory => "Memory",
        }
    }
}
