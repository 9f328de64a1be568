//! What the resources of a network are called.

use racp_explain::{Input as Text, names_cause};
use racp_model::Network;
use racp_show::Names;
use racp_sm::read_sm;
use racp_values::heading_names;
use std::alloc::{AllocError, Global};

/// What the resources of a network are called: by the text of names, if there is one, and else by the heading of the
/// network. None of them, if the text of the network is refused; `None`, if that of the names is.
pub fn resource_names(
    alloc: Global,
    net: &Text<'_>,
    names: Option<Text<'_>>,
) -> Result<Option<Vec<String>>, AllocError> {
    let Ok(network) = read_sm(alloc, net.bytes) else {
        return Ok(Some(Vec::new(alloc)));
    };
    match names {
        Some(names) => by_text(alloc, &network, names.bytes),
        None => {
            let names = heading_names(alloc, net.bytes, network.resource_count())?;
            Ok(Some(names))
        }
    }
}

/// What the resources of a network are called by a text of names; `None` if there are neither no names nor one for each job
/// and resource.
fn by_text(alloc: Global, net: &Network, text: &[u8]) -> Result<Option<Vec<String>>, AllocError> {
    let Some(names) = Names::read(alloc, text)? else {
        return Ok(None);
    };
    if names.are_for(net.job_count().saturating_add(net.resource_count())) {
        Ok(Some(labels(alloc, net, &names)?))
    } else {
        Ok(None)
    }
}

/// What is wrong with a text of names for the text of a network.
pub fn refused_names(
    alloc: Global,
    net: &Text<'_>,
    names: Option<Text<'_>>,
) -> Result<String, AllocError> {
    match (read_sm(alloc, net.bytes), names) {
        (Ok(network), Some(names)) => names_cause(alloc, &network, &names),
        _ => Ok(String::new(alloc)),
    }
}

/// The names of resources, or `resource 1` and so on of those that have none.
fn labels(alloc: Global, net: &Network, names: &Names) -> Result<Vec<String>, AllocError> {
    let jobs = net.job_count();
    let mut labels = Vec::new(alloc);
    for k in 0..net.resource_count() {
        labels.push(label(alloc, names.resource(jobs, k), k)?)?;
    }
    Ok(labels)
}

/// The name of the resource at place `k`, from 0, or its number.
fn label(alloc: Global, name: Option<&str>, k: usize) -> Result<String, AllocError> {
    match name {
        Some(name) => String::from_str(alloc, name.trim()),
        None => format!(in alloc; "resource {}", k.saturating_add(1)),
    }
}
