//! What can be wrong with the text of a plan.

ghost use Rattle.std.specs.Prelude.{◌≡◌};
ghost use Rattle.racp_plan.specs.TextFaults.{fault_name};

use racp_text::LineFault;
use thiserror::Error;

/// What is wrong with a text of a plan. The number that is printed is that of the variant.
#[derive(Debug, Clone, Copy, PartialEq, Eq, Drop, Error)]
pub enum TextFaultKind {
    /// A line is missing or not of its form, or something stands after the last line.
    #[error("a line is missing or not of its form")]
    Syntax = 1,
    /// A number is above the greatest that may stand there.
    #[error("a number is out of range")]
    Range = 2,
    /// Memory ran out.
    #[error("out of memory")]
    Memory = 3,
}

/// Why a text was not read as a plan, and the number of the line, from 1; 0 if memory ran out.
pub type TextFault = LineFault<TextFaultKind>;

impl TextFaultKind {
    /// The fault's name, as `Syntax`.
    pub fn name(self) -> &'static str
        ensures { result.now ≡ fault_name self }
    {
        match self {
            TextFaultKind::Syntax => "Syntax",
            TextFaultKind::Range => "Range",
            TextFaultKind::Memory => "Memory",
        }
    }
}
