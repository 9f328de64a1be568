//! The texts that are made of a table of tasks.

use crate::deadline::deadline_if;
use crate::parts::Taken;
use crate::pricing::order_of;
use crate::refusing::network_failure;
use crate::terms::Times;
use crate::warned::{Told, tell_whole};
use racp_calendar::Calendar;
use racp_host::failure::Failure;
use racp_model::Job;
use racp_tables::{Table, marked_network, marked_order, names_text, network_text};
use racp_words::TableWords;
use std::alloc::{AllocError, Global};

/// The texts of a table's network, names and perhaps order, and what is told of it.
#[derive(Drop)]
pub(crate) struct Texts {
    pub(crate) network: String,
    pub(crate) names: String,
    pub(crate) order: Option<Vec<u8>>,
    pub(crate) told: Told,
    pub(crate) jobs: usize,
    pub(crate) resources: usize,
}

/// The texts of a table, with their marks. The words may tell a date of the calendar.
pub(crate) fn texts_of(
    alloc: Global,
    words: &TableWords<'_>,
    calendar: Calendar<'_>,
    taken: Taken,
) -> Result<Texts, Failure> {
    let mut texts = texts_in(alloc, words, calendar, taken)?;
    mark(alloc, &mut texts)?;
    Ok(texts)
}

/// The texts of a table, without marks.
fn texts_in(
    alloc: Global,
    words: &TableWords<'_>,
    calendar: Calendar<'_>,
    taken: Taken,
) -> Result<Texts, Failure> {
    let Taken {
        name,
        table,
        mut told,
    } = taken;
    let Table {
        names,
        headings,
        resources,
        jobs,
        pairs,
        earliest,
        due,
        notes,
    } = table;
    let count = jobs.len();
    let network = network_of(alloc, &name, &resources, jobs, pairs)?;
    let called = (name.as_str(), network.as_str());
    let about = (&earliest, resources.as_slice());
    let deadline = deadline_if(alloc, words.deadline, calendar);
    tell_whole(alloc, &mut told, deadline, called, about, &notes)?;
    let times = Times {
        release: earliest,
        due,
    };
    let whole = (name.as_str(), network.as_bytes());
    let order = order_of(alloc, words, calendar, whole, &resources, times)?;
    let names = names_text(alloc, &names, &headings, notes.tasks, &resources)?;
    Ok(Texts {
        network,
        names,
        order,
        told,
        jobs: count,
        resources: resources.len(),
    })
}

/// The text of a network of these jobs and pairs, whose resources are called so, for a table that is told of by this name.
pub(crate) fn network_of(
    alloc: Global,
    name: &str,
    resources: &[String],
    jobs: Vec<Job>,
    pairs: Vec<(u32, u32)>,
) -> Result<String, Failure> {
    match network_text(alloc, resources, jobs, pairs) {
        Ok(network) => Ok(network),
        Err(fault) => Err(network_failure(alloc, name, fault)),
    }
}

/// Puts marks above the texts of the network and of the order.
fn mark(alloc: Global, texts: &mut Texts) -> Result<(), AllocError> {
    texts.network = marked_network(alloc, &texts.network, &texts.names)?;
    let marked = match &texts.order {
        Some(order) => Some(marked_order(alloc, order)?),
        None => None,
    };
    texts.order = marked;
    Ok(())
}
