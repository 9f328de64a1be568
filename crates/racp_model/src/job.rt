//! Jobs: a duration and requests.

ghost use Rattle.std.specs.Prelude.{◌≡◌};

use std::marker::Model;

/// A job: how long it runs, and what it requests of each resource while it runs.
#[derive(Drop)]
pub struct Job {
    duration: u32,
    requests: Vec<u32>,
}

impl Model for Job {
    ghost use Rattle.racp_model.specs.Project.{Activity};

    ghost Value = { Activity };

    ghost view = { λ job. record { duration = job.duration; requests = job.requests.items } };
}

impl Job {
    /// A job of this duration (in time units), and with these requests (in units, a resource each).
    pub fn new(duration: u32, requests: Vec<u32>) -> Self
        ensures { result ≡ record { duration = duration; requests = requests.items } }
    {
        Job { duration, requests }
    }

    /// How many time units the job runs.
    pub fn duration(&self) -> u32
        ensures { result ≡ self.now.duration }
    {
        self.duration
    }

    /// How many units of each resource, by place from 0, the job uses while it runs.
    pub fn requests(&self) -> &[u32]
        ensures { result.now ≡ self.now.requests }
    {
        &self.requests
    }
}
