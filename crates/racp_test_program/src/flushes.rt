//! The commands over a writer that takes the whole answer, and of which the flush fails.

use racp_cli::{StreamFault, check_over, cpm_over, run_over, verify_bound_over, verify_over};
use racp_model::Never;
use std::alloc::Global;
use std::io;
use std::io::Write;

/// A network of two jobs, the first before the second, that run for two time units and one, and use one unit and three.
pub const NETWORK: &[u8] =
    b"jobs: 2\n- renewable: 1 R\nPRECEDENCE RELATIONS:\n\n1 1 1 2\n2 1 0\nREQUESTS/DURATIONS:\n\n1 1 2 1\n2 1 1 3\n";

/// An order for it.
pub const ORDER: &[u8] = b"deadline = 4\nprices = [5]\n";

/// Its plan.
const PLAN: &[u8] = b"deadline 4\ncritical 3\ncost 15\ncapacity 1 3\nstart 1 0\nstart 2 2\nend\n";

/// A certificate that nothing before the plan is enough.
const PROOF: &[u8] = b"proof\nvector 2\nD 2\nend\n";

/// A certificate that each plan costs at least 15.
const BOUND: &[u8] = b"proof 2\nat least 15\ncost >= 15\nbudget 1\nrequest 2 1\nholds\nend\n";

/// A command and what it writes.
#[derive(Clone, Copy)]
enum Command {
    Cpm,
    Plan,
    Check,
    Verify,
    Bound,
}

const ANSWERS: &[(Command, &[u8])] = &[
    (Command::Cpm, b"critical 3\nstart 1 0\nstart 2 2\nend\n"),
    (Command::Plan, PLAN),
    (Command::Check, b"ok\n"),
    (Command::Verify, b"verified\n"),
    (Command::Bound, b"at least 15\n"),
];

/// Takes all, and cannot be flushed.
#[derive(Drop)]
struct Stuck {
    taken: Vec<u8>,
}

impl Write for Stuck {
    fn write(&mut self, buf: &[u8]) -> io::Result<usize> {
        self.taken.extend_from_slice(buf)?;
        Ok(buf.len())
    }

    fn flush(&mut self) -> io::Result<()> {
        Err(io::Error::from(io::ErrorKind::Other))
    }
}

/// What a command answers over the texts.
fn run(alloc: Global, command: Command, out: &mut Stuck) -> Result<u8, StreamFault> {
    let (mut net, mut order, mut plan, mut proof) = (NETWORK, ORDER, PLAN, PROOF);
    let mut bound = BOUND;
    match command {
        Command::Cpm => cpm_over(alloc, &mut net, out),
        Command::Plan => run_over(alloc, &mut net, &mut order, out),
        Command::Check => check_over(alloc, &mut net, &mut order, &mut plan, out),
        Command::Verify => verify_over(alloc, &mut net, &mut order, &mut plan, &mut proof, out),
        Command::Bound => verify_bound_over(alloc, &mut net, &mut order, &mut bound, out, &Never),
    }
}

/// Whether a command writes this, and then tells that it could not be written.
fn is_told(alloc: Global, command: Command, text: &[u8]) -> bool {
    let mut out = Stuck {
        taken: Vec::new(alloc),
    };
    run(alloc, command, &mut out) == Err(StreamFault::Write) && out.taken.as_slice() == text
}

#[test]
fn flushes_that_fail_are_told(rt: HostRuntime) {
    for &(command, text) in ANSWERS {
        assert!(rt; is_told(rt.alloc(), command, text));
    }
}
