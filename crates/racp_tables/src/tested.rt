//! The network text of a table.

ghost use Rattle.std.specs.Prelude.{◌≡◌, IfOk, MatchResult, Ok, length, string_bytes, true};
ghost use Rattle.racp_sm.specs.Reading.{IsReading};
ghost use Rattle.racp_tables.specs.Tables.{IsNetworkText, IsTableRefused};

use crate::same::are_same;
use crate::text::laid_out;
use racp_model::{Job, NetFault, Network};
use racp_sm::read_sm;
use std::alloc::{AllocError, Global};

/// The text of a network of these jobs and pairs, whose resources are called so: `read_sm` of racp_sm reads it as a
/// network of just these jobs, this relation and as many resources.
///
/// # Errors
///
/// The first of these that holds: `Limit`, if there are not 1 to 16 resources and 1 to 512 jobs, or a job has another
/// number of requests than there are resources, or a duration or a request is above 10,000; `BadJob`, if a pair names no
/// job; `Cycle`, if a job would have to wait for itself; `Memory`, if memory was refused.
pub fn network_text(
    alloc: Global,
    resources: &[String],
    jobs: Vec<Job>,
    pairs: Vec<(u32, u32)>,
) -> Result<String, NetFault>
    ensures { MatchResult result
        (λ text. IsNetworkText (record { resources = length resources.now; jobs = jobs.items; arcs = pairs.items }) (string_bytes text))
        (IsTableRefused (record { resources = length resources.now; jobs = jobs.items; arcs = pairs.items })) }
{
    let net = Network::new(alloc, resources.len(), jobs, pairs)?;
    Ok(tested_text(alloc, &net, resources)?)
}

/// The text of a network, which is read as that network.
fn tested_text(alloc: Global, net: &Network, resources: &[String]) -> Result<String, AllocError>
    ensures { IfOk result (λ text. IsReading (string_bytes text) (Ok net.now)) }
{
    let text = laid_out(alloc, net, resources)?;
    if is_text_of(alloc, net, text.as_bytes()) {
        Ok(text)
    } else {
        Err(AllocError)
    }
}

/// Whether a text is read as this network; true only if it is.
pub(crate) fn is_text_of(alloc: Global, net: &Network, text: &[u8]) -> bool
    ensures { result ≡ true → IsReading text.now (Ok net.now) }
{
    match read_sm(alloc, text) {
        Ok(read) => are_same(&read, net),
        Err(_) => false,
    }
}
