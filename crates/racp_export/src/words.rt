//! What tasks and resources are called, and what tasks need.

ghost use Rattle.std.specs.Prelude.{◌≡◌, ◌++◌, ◌<◌, IfOk, OnOk, codes, decimal, option_map, string_bytes};
ghost use Rattle.racp_charts.specs.Elements.{predecessor_list};
ghost use Rattle.racp_charts.specs.Texts.{escaped};
ghost use Rattle.racp_model.specs.Project.{place, request};
ghost use Rattle.racp_export.specs.Letters.{spelled};
ghost use Rattle.racp_export.specs.Words.{called, need_text, needs_before, needs_text, resource_title, task_title, with_need};

use crate::letters::{Letters, spelled};
use racp_charts::{push_escaped, push_predecessors};
use racp_model::Network;
use racp_show::{Names, Task};
use std::alloc::{AllocError, Global};

/// A name, or if there is none a word and a number.
fn title_of(
    alloc: Global,
    name: Option<&str>,
    word: &str,
    number: usize,
) -> Result<String, AllocError>
    ensures { IfOk result (λ title. string_bytes title ≡ called (option_map (λ name. name.now) name.entry) word.now number) }
{
    match name {
        Some(name) => String::from_str(alloc, name),
        None => numbered(alloc, word, number),
    }
}

/// A word and a number.
fn numbered(alloc: Global, word: &str, number: usize) -> Result<String, AllocError>
    ensures { IfOk result (λ text. string_bytes text ≡ word.now ++ codes " " ++ decimal number) }
{
    format!(in alloc; "{word} {number}")
}

/// What a task is called.
#[tactic(auto, unfolding(crate::specs::Words::task_title))]
pub(crate) fn task_title(alloc: Global, task: &Task<'_>) -> Result<String, AllocError>
    ensures { IfOk result (λ title. string_bytes title ≡ task_title task.now) }
{
    title_of(alloc, task.name, "task", task.job)
}

/// What a task is called, written with these letters.
pub(crate) fn spelled_title(
    alloc: Global,
    letters: Letters,
    task: &Task<'_>,
) -> Result<String, AllocError>
    ensures { IfOk result (λ title. string_bytes title ≡ spelled letters (task_title task.now)) }
{
    let title = task_title(alloc, task)?;
    spelled(alloc, letters, title.as_str())
}

/// What the resource at place `k` is called.
#[tactic(auto, unfolding(crate::specs::Words::resource_title))]
pub(crate) fn resource_title(
    alloc: Global,
    net: &Network,
    names: &Names,
    k: usize,
) -> Result<String, AllocError>
    requires { k < net.now.resources }
    ensures { IfOk result (λ title. string_bytes title ≡ resource_title net.now names.now k) }
{
    prove!(k < net.resource_count());
    title_of(alloc, names.resource(net.job_count(), k), "resource", k + 1)
}

/// How many units of the resource at place `k` the job at place `i` needs; 0 if there is no such job.
#[tactic(auto, unfolding(racp_model::specs::Project::request))]
pub(crate) fn units_at(net: &Network, i: usize, k: usize) -> u32
    requires { k < net.now.resources }
    ensures { result ≡ request net.now i k }
{
    if i < net.job_count() {
        net.request(i, k)
    } else {
        0
    }
}

/// What the job at place `i` needs, written with these letters: nothing if it needs nothing.
pub(crate) fn spelled_needs(
    alloc: Global,
    letters: Letters,
    net: &Network,
    names: &Names,
    i: usize,
) -> Result<String, AllocError>
    ensures { IfOk result (λ needs. string_bytes needs ≡ spelled letters (needs_text net.now names.now i)) }
{
    let needs = needs_of(alloc, net, names, i)?;
    spelled(alloc, letters, needs.as_str())
}

/// What the job at place `i` needs: nothing if it needs nothing.
#[tactic(auto, unfolding(crate::specs::Words::needs_text))]
fn needs_of(alloc: Global, net: &Network, names: &Names, i: usize) -> Result<String, AllocError>
    ensures { IfOk result (λ needs. string_bytes needs ≡ needs_text net.now names.now i) }
{
    let mut needs = String::new(alloc);
    for k in 0..net.resource_count() {
        let need = need_of(alloc, net, names, i, k)?;
        push_need(&mut needs, units_at(net, i, k), need.as_str())?;
    }
    Ok(needs)
}

/// What the job at place `i` needs of the resource at place `k`.
#[tactic(auto, unfolding(crate::specs::Words::need_text))]
fn need_of(
    alloc: Global,
    net: &Network,
    names: &Names,
    i: usize,
    k: usize,
) -> Result<String, AllocError>
    requires { k < net.now.resources }
    ensures { IfOk result (λ need. string_bytes need ≡ need_text net.now names.now i k) }
{
    let title = resource_title(alloc, net, names, k)?;
    let units = units_at(net, i, k);
    format!(in alloc; "{units} {title}")
}

/// Adds a need of so many units, with a comma before it if there are others; nothing if these are none.
fn push_need(needs: &mut String, units: u32, need: &str) -> Result<(), AllocError>
    ensures { OnOk result (string_bytes needs.new ≡ with_need (string_bytes needs.old) units need.now) }
{
    if units == 0 {
        return Ok(());
    }
    if needs.is_empty() {
        return needs.push_str(need);
    }
    write!(needs, ", {need}")
}

/// What a task waits for.
pub(crate) fn waits_of(alloc: Global, task: &Task<'_>) -> Result<String, AllocError>
    ensures { IfOk result (λ waits. string_bytes waits ≡ predecessor_list 0 task.now.predecessors.items) }
{
    let mut waits = String::new(alloc);
    push_predecessors(&mut waits, task.predecessors.as_slice())?;
    Ok(waits)
}

/// A text as XML writes it.
pub(crate) fn escaped(alloc: Global, plain: &str) -> Result<String, AllocError>
    ensures { IfOk result (λ text. string_bytes text ≡ escaped plain.now) }
{
    let mut text = String::new(alloc);
    push_escaped(&mut text, plain)?;
    Ok(text)
}
