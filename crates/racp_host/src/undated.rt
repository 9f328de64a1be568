//! What commands wrote whose answers have no dates.

use racp_calendar::Calendar;
use racp_explain::Input as Text;
use racp_json::{Command, FileNames, Told, Work};

/// The texts that a command read, and the names of its other files; what it does not read is empty.
#[derive(Clone, Copy)]
pub struct Sources<'a> {
    pub net: Text<'a>,
    pub order: Text<'a>,
    pub plan: &'a str,
    pub proof: &'a str,
}

impl<'a> Sources<'a> {
    /// A network alone.
    pub fn network(net: Text<'a>) -> Self {
        Sources {
            net,
            order: Text {
                name: "",
                bytes: &[],
            },
            plan: "",
            proof: "",
        }
    }
}

/// What is told of a command that ends with this status and wrote this text.
pub fn undated<'a>(command: Command, status: u8, text: &'a [u8], sources: Sources<'a>) -> Told<'a> {
    Told {
        command,
        status,
        text,
        net: sources.net.bytes,
        order: sources.order.bytes,
        best: &[],
        files: FileNames {
            net: sources.net.name,
            order: sources.order.name,
            plan: sources.plan,
            proof: sources.proof,
        },
        work: Work::unknown(),
        calendar: Calendar::Numbers,
    }
}
