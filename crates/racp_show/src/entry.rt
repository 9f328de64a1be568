//! A row of a chart, before anything is said of its task.

ghost use Rattle.std.specs.Prelude.{◌≡◌};
ghost use Rattle.racp_show.specs.Entries.{line_of};
ghost use Rattle.racp_show.specs.Outlines.{depth_of};

/// A row of a chart.
#[derive(Drop)]
pub(crate) enum Entry {
    /// A phase begins.
    Heading {
        /// In how many phases it stands.
        depth: usize,
        /// What it is called.
        title: String,
    },
    /// A task.
    Bar {
        /// In how many phases it stands.
        depth: usize,
        /// Its number, from 1.
        job: usize,
    },
}

impl Entry {
    /// In how many phases it stands.
    pub(crate) fn depth(&self) -> usize
        ensures { result ≡ depth_of (line_of self.now) }
    {
        match self {
            Entry::Heading { depth, .. } => *depth,
            Entry::Bar { depth, .. } => *depth,
        }
    }
}
