//! Small orders of which the cheapest plan is known by hand.

use crate::samples::Sample;
use racp_model::Network;
use racp_prices::Order;
use racp_samples::empty_order;
use std::alloc::{AllocError, Global};

/// What an order says, each list up to its last number that is not as in an order of the first version.
#[derive(Clone, Copy)]
pub(crate) struct Wish {
    pub(crate) name: &'static str,
    pub(crate) sample: Sample,
    pub(crate) deadline: u32,
    pub(crate) prices: &'static [u32],
    pub(crate) owned: &'static [u32],
    pub(crate) ceilings: Option<&'static [u32]>,
    pub(crate) release: &'static [u32],
    pub(crate) due: &'static [u32],
    /// What the draft costs, if there is one.
    pub(crate) cost: Option<u64>,
}

/// An order of the five jobs by time 5, a unit of whose resource costs 10.
const PARALLEL: Wish = Wish {
    name: "",
    sample: Sample::Parallel,
    deadline: 5,
    prices: &[10],
    owned: &[],
    ceilings: None,
    release: &[],
    due: &[],
    cost: None,
};

/// One of the six jobs by time 3, whose units cost 1.
const CROSSED: Wish = Wish {
    sample: Sample::Crossed,
    deadline: 3,
    prices: &[1, 1],
    ..PARALLEL
};

/// Orders of which the cheapest plan is known by hand.
pub(crate) const WISHES: &[Wish] = &[
    Wish {
        name: "three jobs in four time units",
        deadline: 4,
        cost: Some(30),
        ..PARALLEL
    },
    Wish {
        name: "no slack",
        deadline: 3,
        cost: Some(40),
        ..PARALLEL
    },
    Wish {
        name: "too long",
        deadline: 2,
        cost: None,
        ..PARALLEL
    },
    Wish {
        name: "a release time",
        release: &[0, 1],
        cost: Some(20),
        ..PARALLEL
    },
    Wish {
        name: "a due time",
        due: &[5, 5, 2],
        cost: Some(20),
        ..PARALLEL
    },
    Wish {
        name: "two resources",
        cost: Some(3),
        ..CROSSED
    },
    Wish {
        name: "owned units",
        owned: &[2],
        cost: Some(1),
        ..CROSSED
    },
    Wish {
        name: "ceilings",
        ceilings: Some(&[2, 1]),
        cost: Some(3),
        ..CROSSED
    },
    Wish {
        name: "ceilings that are too low",
        ceilings: Some(&[1, 1]),
        cost: None,
        ..CROSSED
    },
    Wish {
        name: "a ceiling of what costs nothing",
        deadline: 7,
        prices: &[0],
        ceilings: Some(&[2]),
        cost: Some(0),
        ..PARALLEL
    },
    Wish {
        name: "a chain",
        sample: Sample::Chained,
        deadline: 8,
        prices: &[1],
        cost: Some(2),
        ..PARALLEL
    },
    Wish {
        name: "a far deadline",
        sample: Sample::Free(
            1,
            &[(10_000, &[7]), (10_000, &[5]), (9_999, &[7]), (0, &[9])],
        ),
        deadline: 10_000_000,
        prices: &[1_000_000],
        cost: Some(7_000_000),
        ..PARALLEL
    },
];

/// Puts this many numbers into a list: those given, and then the same one.
fn fill(list: &mut Vec<u32>, first: &[u32], rest: u32, count: usize) -> Result<(), AllocError> {
    for i in 0..count {
        list.push(first.get(i).copied().unwrap_or(rest))?;
    }
    Ok(())
}

/// The ceilings of a wish.
fn ceilings(alloc: Global, first: &[u32], count: usize) -> Result<Vec<u32>, AllocError> {
    let mut list = Vec::new(alloc);
    match fill(&mut list, first, 0, count) {
        Ok(()) => Ok(list),
        Err(fault) => {
            drop(list);
            Err(fault)
        }
    }
}

/// Puts what a wish says into an order.
fn fill_order(
    alloc: Global,
    net: &Network,
    wish: &Wish,
    order: &mut Order,
) -> Result<(), AllocError> {
    let (resources, jobs) = (net.resource_count(), net.job_count());
    fill(&mut order.prices, wish.prices, 0, resources)?;
    fill(&mut order.owned, wish.owned, 0, resources)?;
    fill(&mut order.release, wish.release, 0, jobs)?;
    fill(&mut order.due, wish.due, wish.deadline, jobs)?;
    if let Some(first) = wish.ceilings {
        order.ceilings = Some(ceilings(alloc, first, resources)?);
    }
    Ok(())
}

/// The order that a wish is.
pub(crate) fn ordered(alloc: Global, net: &Network, wish: &Wish) -> Result<Order, AllocError> {
    let mut order = empty_order(alloc, wish.deadline);
    match fill_order(alloc, net, wish, &mut order) {
        Ok(()) => Ok(order),
        Err(fault) => {
            drop(order);
            Err(fault)
        }
    }
}
