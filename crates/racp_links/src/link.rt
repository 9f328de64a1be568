//! Links between two tasks, and the time that lies between these.

ghost use Rattle.std.specs.Prelude.{◌≡◌, ◌↔◌, ◌<◌, ◌^◌, length, IsTrue};
ghost use Rattle.racp_model.specs.Project.{IsNumber};
ghost use Rattle.racp_links.specs.Links.{ran_before, ran_after, NamesTasks, end_of_first, start_of_second, IsApart, gap};

/// Which times of two tasks a link ties.
#[derive(Clone, Copy)]
pub enum LinkKind {
    /// The end of the first task, and the start of the second.
    FinishToStart,
    /// The starts of both tasks.
    StartToStart,
    /// The ends of both tasks.
    FinishToFinish,
    /// The start of the first task, and the end of the second.
    StartToFinish,
}

/// A link from one task to another, which are numbered from 1: the time of the second comes at least the lag, in time
/// units, after the time of the first.
#[derive(Clone, Copy)]
pub struct Link {
    /// The number of the first task.
    pub before: u32,
    /// The number of the second task.
    pub after: u32,
    /// Which times of the two tasks are tied.
    pub kind: LinkKind,
    /// How many time units lie between these times at least.
    pub lag: u32,
}

/// For how long the first task of a link has run at the time that is tied: at its end, or at its start.
fn ran_before(kind: LinkKind, duration: u64) -> u64
    ensures { result ≡ ran_before kind duration }
{
    match kind {
        LinkKind::FinishToStart => duration,
        LinkKind::StartToStart => 0,
        LinkKind::FinishToFinish => duration,
        LinkKind::StartToFinish => 0,
    }
}

/// The same for the second task.
fn ran_after(kind: LinkKind, duration: u64) -> u64
    ensures { result ≡ ran_after kind duration }
{
    match kind {
        LinkKind::FinishToStart => 0,
        LinkKind::StartToStart => 0,
        LinkKind::FinishToFinish => duration,
        LinkKind::StartToFinish => duration,
    }
}

/// Whether a link names two of so many tasks.
pub(crate) fn names_tasks(link: &Link, tasks: usize) -> bool
    ensures { IsTrue result ↔ NamesTasks tasks link.now }
{
    is_number(link.before, tasks) && is_number(link.after, tasks) && link.before != link.after
}

/// Whether this is the number of one of so many tasks.
fn is_number(number: u32, tasks: usize) -> bool
    ensures { IsTrue result ↔ IsNumber tasks number }
{
    1 <= number && number as usize <= tasks
}

/// How long after the start of a link's first task its end lies, with what the second task has run at the time that is
/// tied.
fn end_of_first(durations: &[u32], link: &Link) -> u64
    requires { NamesTasks (length durations.now) link.now }
    ensures end { result ≡ end_of_first durations.now link.now }
    ensures bound { result < 2 ^ 33 }
{
    let before = u64::from(durations[link.before as usize - 1]);
    let after = u64::from(durations[link.after as usize - 1]);
    before + ran_after(link.kind, after)
}

/// How long after the start of a link's first task its second can start at the earliest, with the same added.
fn start_of_second(durations: &[u32], link: &Link) -> u64
    requires { NamesTasks (length durations.now) link.now }
    ensures start { result ≡ start_of_second durations.now link.now }
    ensures bound { result < 2 ^ 33 }
{
    let before = u64::from(durations[link.before as usize - 1]);
    ran_before(link.kind, before) + u64::from(link.lag)
}

/// Whether the second task of a link starts only when the first has ended.
pub(crate) fn is_apart(durations: &[u32], link: &Link) -> bool
    requires { NamesTasks (length durations.now) link.now }
    ensures { IsTrue result ↔ IsApart durations.now link.now }
{
    end_of_first(durations, link) <= start_of_second(durations, link)
}

/// How many time units lie between the end of a link's first task and the start of its second at least.
pub(crate) fn gap(durations: &[u32], link: &Link) -> u64
    requires names { NamesTasks (length durations.now) link.now }
    requires apart { IsApart durations.now link.now }
    ensures { result ≡ gap durations.now link.now }
{
    start_of_second(durations, link) - end_of_first(durations, link)
}
