//! The lines of a certificate.

ghost use Rattle.std.specs.Prelude.{◌≡◌, ◌≤◌, ◌++◌, ◌∷◌, [], All, OnOk};
ghost use Rattle.std.specs.Fmt.{decimal};
ghost use Rattle.racp_trees.specs.Texts.{most_number, step_line, vector_line};

use crate::step::Step;
use racp_plan::lines::push_number;
use std::alloc::{AllocError, Global};

/// Adds the line of a node.
#[tactic(auto, unfolding(crate::specs::Texts::step_line))]
pub(crate) fn push_step(alloc: Global, text: &mut Vec<u8>, step: Step) -> Result<(), AllocError>
    ensures { OnOk result (text.new.items ≡ text.old.items ++ step_line step) }
{
    match step {
        Step::L(job) => push_line(alloc, text, "L ", job),
        Step::D(time) => push_line(alloc, text, "D ", time),
        Step::C(node) => push_line(alloc, text, "C ", node),
    }
}

/// Adds a line of these letters and a number.
fn push_line(
    alloc: Global,
    text: &mut Vec<u8>,
    letters: &str,
    number: u32,
) -> Result<(), AllocError>
    ensures { OnOk result (text.new.items ≡ text.old.items ++ (letters.now ++ (decimal number ++ 10 ∷ []))) }
{
    text.extend_from_slice(format!(in alloc; "{letters}{number}\n")?.as_bytes())
}

/// Adds the line of the vector of a block, by place from 0.
pub(crate) fn push_vector(
    alloc: Global,
    text: &mut Vec<u8>,
    vector: &[u32],
) -> Result<(), AllocError>
    ensures line { OnOk result (text.new.items ≡ text.old.items ++ vector_line vector.now) }
    ensures small { OnOk result (All (λ units. units ≤ most_number) vector.now) }
{
    text.extend_from_slice(b"vector")?;
    for place in 0..vector.len() {
        push_number(alloc, text, vector[place])?;
    }
    text.push(b'\n')?;
    Ok(())
}
