//! Starts whose jobs are moved one by one, with conflicts looked for in between.

ghost use Rattle.std.specs.Prelude.{◌≡◌, IfOk, MatchResult, length, set};
ghost use Rattle.racp_model.specs.Project.{place, IsNumber};
ghost use Rattle.racp_delay.specs.Branching.{IsConflictAnswer};

use crate::conflicts::Clash;
use crate::scans::first_over_from;
use racp_model::{Capacities, Network, Starts};
use std::alloc::{AllocError, Global};
use std::marker::Model;

/// The usage of starts over time. Jobs are moved one by one, and conflicts are looked for in between. Contracts see the
/// starts, by place from 0, in time units.
#[derive(Drop)]
pub struct Profile {
    starts: Vec<u32>,
}

impl Model for Profile {
    ghost use Rattle.std.specs.Prelude.{ℕ, List};

    ghost Value = { List ℕ };

    ghost view = { λ profile. profile.starts.items };
}

impl Profile {
    /// The profile of these starts. There is one for each job.
    ///
    /// # Errors
    ///
    /// Memory was refused.
    pub fn of(alloc: Global, net: &Network, starts: &Starts) -> Result<Profile, AllocError>
        requires { length starts.now ≡ length net.now.jobs }
        ensures { IfOk result (λ profile. profile ≡ starts.now) }
    {
        let _ = net;
        let starts = starts.as_slice().to_vec(alloc)?;
        Ok(Profile { starts })
    }

    /// Gives a job, by number from 1, another start. Takes no memory.
    ///
    /// # Errors
    ///
    /// None.
    pub fn move_job(&mut self, net: &Network, job: u32, start: u32) -> Result<(), AllocError>
        requires starts { length self.old ≡ length net.now.jobs }
        requires job { IsNumber (length net.now.jobs) job }
        ensures { MatchResult result (λ _. self.new ≡ set self.old (place job) start) (λ _. ⊥) }
    {
        let _ = net;
        self.starts[job as usize - 1] = start;
        Ok(())
    }

    /// The first conflict of the starts with the capacities, or `None` if the usage never exceeds them. There is a
    /// capacity for each resource, by place from 0. Takes no memory.
    pub fn first_over(&self, net: &Network, capacities: &Capacities) -> Option<Clash>
        requires capacities { length capacities.now ≡ net.now.resources }
        requires starts { length self.now ≡ length net.now.jobs }
        ensures { IsConflictAnswer net.now capacities.now self.now result }
    {
        first_over_from(net, capacities.as_slice(), &self.starts, 0)
    }
}
