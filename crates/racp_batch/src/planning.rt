//! The planner of a table's cases.

ghost use Rattle.std.specs.Prelude.{◌≡◌, ◌≤◌, IfOk, ⊤};
ghost use Rattle.racp_model.specs.Terms.{AreTermsOf};
ghost use Rattle.racp_whatif.specs.Outcomes.{IsOutcome};
ghost use Rattle.racp_batch.specs.Rows.{IsRowFor, IsRowOf, IsWork};
ghost use Rattle.racp_batch.specs.declared.case.Input.TheVariants as inputs;

use crate::case::{Case, Input};
use crate::heard::Heard;
use crate::order::{deadline_of, order_by};
use crate::row::{Answered, Row, Work};
use crate::row_stop::RowStop;
use racp_desk::Open;
use racp_found::OfOrder;
use racp_lexfix::{Crew, PlanStop};
use racp_model::Network;
use racp_prices::{Factor, Order};
use racp_whatif::{Outcome, outcome_by_crew};
use std::alloc::Global;
use std::marker::Brand;
use std::sync::Wait;
use std::sync::atomic::AtomicBool;
use std::thread::Threads;
use std::time::{Clock, Duration};

/// So many turns are no bound.
const TURNS: u64 = 1_000_000_000_000;

/// Plans each case by one worker.
#[derive(Drop)]
pub struct Planning {
    /// What plans are allocated by.
    pub alloc: Global,
    /// How many mebibytes the records of a plan take at most, about, up to 1,048,576.
    pub memory: usize,
    /// After what time the planning of a case stops, if it does.
    pub limit: Option<Duration>,
    pub ghost memory_few: { memory ≤ 1048576 },
}

impl Planning {
    /// The row of a case. It is made without delay once the flag is set.
    pub(crate) fn row<R: Clock + Threads + Wait + Sync>(
        &self,
        rt: &R,
        case: &Case<'_>,
        is_halted: &AtomicBool,
    ) -> Row
        ensures { IsRowOf ⊤ case.now result }
    {
        match &case.file.input {
            Input::Network(net) => self.row_of(
                rt,
                net,
                case.multiple.factor,
                case.price,
                is_halted,
            ),
            Input::Fault(_) => Row::Refused,
        }
    }

    /// The row of a network with a factor and a price.
    fn row_of<R: Clock + Threads + Wait + Sync>(
        &self,
        rt: &R,
        net: &Network,
        factor: Factor,
        price: u32,
        is_halted: &AtomicBool,
    ) -> Row
        requires { price ≤ 1000000 }
        ensures { IsRowFor ⊤ (inputs.Network net.now) factor price result }
    {
        match self.known(rt, net, factor, price, is_halted) {
            Ok(row) => row,
            Err(PlanStop::NoThread) => Row::NoThread,
            Err(_) => Row::Memory,
        }
    }

    /// The same, unless memory is refused or a thread cannot be started.
    fn known<R: Clock + Threads + Wait + Sync>(
        &self,
        rt: &R,
        net: &Network,
        factor: Factor,
        price: u32,
        is_halted: &AtomicBool,
    ) -> Result<Row, PlanStop>
        requires { price ≤ 1000000 }
        ensures { IfOk result (IsRowFor ⊤ (inputs.Network net.now) factor price) }
    {
        let Some(deadline) = deadline_of(self.alloc, net, factor)? else {
            return Ok(Row::Late {
                jobs: net.job_count(),
                resources: net.resource_count(),
            });
        };
        let order = order_by(self.alloc, net, price, deadline)?;
        let made = self.outcome(rt, net, &order, is_halted);
        // Dropped here once, not at each way out.
        drop(order);
        let (outcome, work) = made?;
        Ok(Row::Answered(Answered {
            jobs: net.job_count(),
            resources: net.resource_count(),
            deadline,
            outcome,
            work,
        }))
    }

    /// What becomes of an order, and the work that was done for it.
    fn outcome<R: Clock + Threads + Wait + Sync>(
        &self,
        rt: &R,
        net: &Network,
        order: &Order,
        is_halted: &AtomicBool,
    ) -> Result<(Outcome, Work), PlanStop>
        requires { AreTermsOf net.now order.now }
        ensures outcome { IfOk result (λ made. IsOutcome ⊤ net.now order.now made.0) }
        ensures work { IfOk result (λ made. IsWork net.now order.now made.1) }
    {
        self.outcome_of::<Brand, R>(rt, net, order, is_halted)
    }

    /// The same for the order that `N` names.
    fn outcome_of<N: OfOrder, R: Clock + Threads + Wait + Sync>(
        &self,
        rt: &R,
        net: &Network,
        order: &Order,
        is_halted: &AtomicBool,
    ) -> Result<(Outcome, Work), PlanStop>
        requires terms { AreTermsOf net.now order.now }
        requires named { net.now ≡ N.network }
        requires named_terms { order.now ≡ N.terms }
        ensures outcome { IfOk result (λ made. IsOutcome ⊤ net.now order.now made.0) }
        ensures work { IfOk result (λ made. IsWork N.network N.terms made.1) }
    {
        let heard: Heard<N> = Heard::new();
        let until = RowStop::of(rt, self.limit, is_halted);
        let crew = Crew {
            workers: 1,
            turns: TURNS,
            memory: self.memory,
            gate: &Open,
            stop: &until,
            observer: &heard,
        };
        let outcome = outcome_by_crew(rt, self.alloc, net, order, &crew)?;
        Ok((
            outcome,
            heard.into_work(until.nodes(), until.milliseconds()),
        ))
    }
}
