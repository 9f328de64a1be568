//! What is wrong with a text.

use std::alloc::AllocError;

/// Why a text is refused, and the line where it shows, from 1.
#[derive(Clone, Copy)]
pub enum XmlFault {
    /// A document type, or a section of CDATA.
    Unread(u64),
    /// A mark that does not end, or that has no name.
    Mark(u64),
    /// A mark that closes another element than the last one that was opened, or none.
    Closed(u64),
    /// An element that does not end, which begins at this line.
    Open(u64),
    /// A comment that does not end, which begins at this line.
    Comment(u64),
    /// Text outside of the first element, or another element behind it.
    Outside(u64),
    /// No element at all.
    Nothing,
    /// An element that lies too deep in others.
    Deep(u64),
    /// Memory was refused.
    Memory,
}

impl From<AllocError> for XmlFault {
    ghost use Rattle.std.specs.Prelude.{◌≡◌};
    ghost use Rattle.racp_xml.specs.declared.fault.XmlFault.TheVariants.{Memory};

    ghost from_gives = { λ _ fault. fault ≡ Memory };

    fn from(_error: AllocError) -> XmlFault {
        XmlFault::Memory
    }
}
