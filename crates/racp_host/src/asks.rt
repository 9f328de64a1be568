//! How the user asks a command to stop.

use std::rt::{Env, Files};
use std::{env, fs};

/// The variable of the environment that names a file: a command is to stop as soon as there is such a file.
const VARIABLE: &str = "RACP_STOP";

/// Tells whether there is a file. Unlike `Files`, it is a bound of what threads share.
pub trait Looks {
    /// Whether there is a file with this path.
    fn has_file(&self, path: &str) -> bool;
}

impl Looks for HostRuntime {
    fn has_file(&self, path: &str) -> bool {
        matches!(fs::exists(self, path), Ok(true))
    }
}

impl<L: Looks> Looks for &L {
    fn has_file(&self, path: &str) -> bool {
        (**self).has_file(path)
    }
}

/// A file by which the user asks for a stop.
#[derive(Drop)]
pub struct Asks {
    path: String,
}

impl Asks {
    /// The file that the environment names, if it names one.
    pub fn of<R: Env + AllocGlobal>(rt: &R) -> Option<Asks> {
        let path = env::var(rt, VARIABLE).ok()?;
        if path.is_empty() {
            None
        } else {
            Some(Asks { path })
        }
    }

    /// Whether there is the file.
    pub fn are_made<F: Files>(&self, files: &F) -> bool {
        matches!(fs::exists(files, self.path.as_str()), Ok(true))
    }

    /// Whether there is the file, as threads may look.
    pub fn are_seen<L: Looks>(&self, looks: &L) -> bool {
        looks.has_file(self.path.as_str())
    }
}
