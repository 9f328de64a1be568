//! What commands use of the machine that the program runs on.

use crate::asks::Looks;
use std::rt::{Env, Files};
use std::sync::Wait;
use std::thread::Threads;
use std::time::Clock;

/// A machine with a clock, an environment, files, standard streams and memory.
pub trait Machine: Clock + Env + Files + Print + Eprint + AllocGlobal {}

impl<R: Clock + Env + Files + Print + Eprint + AllocGlobal> Machine for R {}

/// A machine that can also start threads and wait for them, and on which these look for a file.
pub trait Crewed: Machine + Looks + Threads + Wait + Sync {}

impl<R: Machine + Looks + Threads + Wait + Sync> Crewed for R {}
