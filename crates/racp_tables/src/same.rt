//! Whether two networks are the same.

ghost use Rattle.std.specs.Prelude.{◌≡◌, ◌<◌, true, length, slice_index_or};
ghost use Rattle.racp_model.specs.Project.{no_job};

use racp_model::Network;

/// Whether two networks have the same resources, jobs and pairs; true only if they do.
pub(crate) fn are_same(a: &Network, b: &Network) -> bool
    ensures { result ≡ true → a.now ≡ b.now }
{
    a.resource_count() == b.resource_count()
        && are_same_jobs(a, b)
        && are_same_pairs(a.arcs(), b.arcs())
}

/// Whether two lists of pairs are the same; true only if they are.
fn are_same_pairs(a: &[(u32, u32)], b: &[(u32, u32)]) -> bool
    ensures { result ≡ true → a.now ≡ b.now }
{
    a == b
}

/// Whether two networks have the same jobs; true only if they do.
fn are_same_jobs(a: &Network, b: &Network) -> bool
    ensures { result ≡ true → a.now.jobs ≡ b.now.jobs }
{
    if a.job_count() != b.job_count() {
        return false;
    }
    for i in 0..a.job_count() {
        if !is_same_job(a, b, i) {
            return false;
        }
    }
    true
}

/// Whether two networks have the same job at place `i`; true only if they do.
fn is_same_job(a: &Network, b: &Network, i: usize) -> bool
    requires a { i < length a.now.jobs }
    requires b { i < length b.now.jobs }
    ensures { result ≡ true → slice_index_or a.now.jobs i no_job ≡ slice_index_or b.now.jobs i no_job }
{
    a.duration(i) == b.duration(i) && a.requests(i) == b.requests(i)
}
