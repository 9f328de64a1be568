//! When jobs start and end.

ghost use Rattle.std.specs.Prelude.{◌≡◌, ◌+◌, ◌<◌, length, slice_index};
ghost use Rattle.racp_model.specs.Project.{duration};
ghost use Rattle.racp_model.specs.Schedule.{EndsBy};

use racp_model::Network;

/// When the jobs start, by place from 0. All have ended by the deadline.
#[derive(Clone, Copy)]
pub(crate) struct Times<'a> {
    pub(crate) net: &'a Network,
    pub(crate) starts: &'a [u32],
    pub(crate) deadline: u32,
    pub(crate) ghost each: { length starts.now ≡ length net.now.jobs },
    pub(crate) ghost ends: { EndsBy net.now (λ _. deadline) starts.now },
}

impl Times<'_> {
    /// When the job at place `i` starts, in time units.
    pub(crate) fn start(&self, i: usize) -> u32
        requires { i < length self.now.net.now.jobs }
        ensures { result ≡ slice_index self.now.starts.now i }
    {
        self.starts[i]
    }

    /// When the job at place `i` has ended, in time units.
    pub(crate) fn end(&self, i: usize) -> u32
        requires { i < length self.now.net.now.jobs }
        ensures { result ≡ slice_index self.now.starts.now i + duration self.now.net.now i }
    {
        self.starts[i] + self.net.duration(i)
    }
}
