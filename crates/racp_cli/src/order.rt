//! `order`: the text of an order for a network.

ghost use Rattle.std.specs.Prelude.{◌≡◌, ◌↔◌, IfOk, IsTrue, Some, length, option_map, replicate};
ghost use Rattle.racp_cli.specs.OrderAnswers.{AreBounds, AreTimesFor, IsAskedDeadline, IsOrderAnswer, IsOrderFor, IsOrderRun, IsReleaseAsked};

use crate::refusal::{network_refused, order_refused};
use crate::respond::respond;
use crate::status::DONE;
use racp_cpm::longest;
use racp_model::Network;
use racp_model::limits::LATEST_TIME;
use racp_prices::{Factor, OrderFault, Wanted, order_text, read_order};
use racp_sm::read_sm;
use racp_streams::{StreamFault, read_whole};
use std::alloc::{AllocError, Global};
use std::io::{Read, Write};

/// The deadline that an order is to have.
#[derive(Clone, Copy)]
pub enum Time {
    /// This one, in time units.
    Deadline(u32),
    /// The critical length of the network, from the release times on if there are some, times this factor, rounded down.
    Factor(Factor),
}

/// What an order is to say. Lists have an entry for each resource, or for each job, by place from 0.
#[derive(Drop)]
pub struct Asked {
    /// The deadline.
    pub time: Time,
    /// What a unit of each resource costs.
    pub prices: Vec<u32>,
    /// How many units of each resource are owned, if that is said.
    pub owned: Option<Vec<u32>>,
    /// How many units of each resource there may be, if that is said.
    pub ceilings: Option<Vec<u32>>,
    /// The time from which each job may start, if that is said.
    pub release: Option<Vec<u32>>,
    /// The time by which each job has to end, if that is said.
    pub due: Option<Vec<u32>>,
}

/// Reads a network text, and writes to `out` an order for it that says what is asked, or a line that says why there is
/// none. Returns the status that belongs to what was written: 0 for an order, 5 if the network is refused or would
/// refuse the order, as with a wrong number of prices, 6 if memory ran out.
///
/// # Errors
///
/// After these nothing was written: `Read`, a read failed; `TooLong`, the reader has more than 16,777,216 bytes;
/// `Memory`, memory for the input was refused. After `Write`, a write failed or took no byte, and what is out is a
/// beginning of the text.
pub fn order_over<N: Read, W: Write>(
    alloc: Global,
    net: &mut N,
    asked: Asked,
    out: &mut W,
) -> Result<u8, StreamFault>
    ensures { IsOrderRun asked (record { unread = N.remaining net.old; left = N.remaining net.new })
        (W.contents out.old) (W.contents out.new) result }
{
    let net = read_whole(alloc, net)?;
    respond(answer(alloc, &net, asked), out)
}

/// The status and the text of the answer to the text of a network.
fn answer(alloc: Global, net: &[u8], asked: Asked) -> Result<(u8, Vec<u8>), AllocError>
    ensures { IfOk result (λ answer. IsOrderAnswer asked net.now answer.0 answer.1.items) }
{
    match read_sm(alloc, net) {
        Ok(net) => order_for(alloc, &net, asked),
        Err(fault) => network_refused(alloc, fault),
    }
}

/// The status and the text of the order for a network.
fn order_for(alloc: Global, net: &Network, asked: Asked) -> Result<(u8, Vec<u8>), AllocError>
    ensures { IfOk result (λ answer. IsOrderFor asked net.now answer.0 answer.1.items) }
{
    let Asked {
        time,
        prices,
        owned,
        ceilings,
        release,
        due,
    } = asked;
    let Some(deadline) = deadline_of(alloc, net, time, &release)? else {
        return order_refused(alloc, OrderFault::Range);
    };
    let wanted = Wanted {
        deadline,
        prices,
        owned,
        ceilings,
        release,
        due,
    };
    let text = order_text(alloc, &wanted)?;
    match read_order(
        alloc,
        text.as_bytes(),
        net.resource_count(),
        net.job_count(),
    ) {
        Ok(_) => Ok((DONE, text.into_bytes())),
        Err(fault) => order_refused(alloc, fault),
    }
}

/// The deadline that is asked for; `None` if it is later than a deadline may be.
fn deadline_of(
    alloc: Global,
    net: &Network,
    time: Time,
    release: &Option<Vec<u32>>,
) -> Result<Option<u32>, AllocError>
    ensures { IfOk result (IsAskedDeadline net.now time (option_map (λ r. r.items) release.now)) }
{
    match time {
        Time::Deadline(deadline) => Ok(Some(deadline)),
        Time::Factor(factor) => {
            let release = release_of(alloc, net, release)?;
            Ok(factor.deadline(longest(alloc, net, &release)?))
        }
    }
}

/// The time from which each job may start: those that are asked for, if they are times for the jobs, and else 0.
fn release_of(
    alloc: Global,
    net: &Network,
    asked: &Option<Vec<u32>>,
) -> Result<Vec<u32>, AllocError>
    ensures asked { IfOk result (λ times. IsReleaseAsked net.now (option_map (λ r. r.items) asked.now) times.items) }
    ensures bounds { IfOk result (λ times. AreBounds net.now times.items) }
{
    match asked {
        Some(times) => times_or_zeros(alloc, net, times),
        None => zeros(alloc, net),
    }
}

/// These times, if they are times for the jobs, and else 0 for each.
fn times_or_zeros(alloc: Global, net: &Network, times: &[u32]) -> Result<Vec<u32>, AllocError>
    ensures asked { IfOk result (λ found. IsReleaseAsked net.now (Some times.now) found.items) }
    ensures bounds { IfOk result (λ found. AreBounds net.now found.items) }
{
    if are_times(net, times) {
        times.to_vec(alloc)
    } else {
        zeros(alloc, net)
    }
}

/// The time 0 for each job.
fn zeros(alloc: Global, net: &Network) -> Result<Vec<u32>, AllocError>
    ensures zeros { IfOk result (λ times. times.items ≡ replicate (length net.now.jobs) 0) }
    ensures bounds { IfOk result (λ times. AreBounds net.now times.items) }
{
    vec![in alloc; 0; net.job_count()]
}

/// Whether there is a time for each job, and none is later than a time may be.
fn are_times(net: &Network, times: &[u32]) -> bool
    ensures { IsTrue result ↔ AreTimesFor net.now times.now }
{
    times.len() == net.job_count() && times.iter().all(|time| *time <= LATEST_TIME)
}
