//! The plan that the file of the best plan has before planning begins.

use racp_cli::{DONE, check_over};
use racp_host::best::Earlier;
use racp_host::known::Known;
use std::alloc::Global;

/// The plan in the text that a file had before, if it is right by the texts of a network and an order.
pub(crate) fn earlier_plan<'a>(
    alloc: Global,
    net: &[u8],
    order: &[u8],
    text: &'a [u8],
) -> Option<Earlier<'a>> {
    let earlier = Earlier::read(text)?;
    let (mut net, mut order, mut plan) = (net, order, text);
    let mut answer = Vec::new(alloc);
    match check_over(alloc, &mut net, &mut order, &mut plan, &mut answer) {
        Ok(DONE) => Some(earlier),
        _ => None,
    }
}

/// Notes a plan that was known before.
pub(crate) fn note_earlier(known: &Known, earlier: Option<Earlier<'_>>) {
    if let Some(earlier) = earlier {
        known.note_earlier(earlier.cost);
    }
}
