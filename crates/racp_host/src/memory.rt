//! How much memory the program uses.

use std::fs::File;
use std::io::Read;
use std::rt::Files;
use std::str;

/// Where the system tells it: in pages of 4,096 bytes, the second number is what lies in memory now.
const STATE: &str = "/proc/self/statm";

/// How many pages a mebibyte has.
const PAGES: u64 = 256;

/// How many mebibytes of memory the program uses, rounded down; 0 if the system does not tell it.
pub fn mebibytes_used<F: Files>(rt: &F) -> u64 {
    match pages_used(rt) {
        Some(pages) => pages / PAGES,
        None => 0,
    }
}

/// How many pages the program uses.
fn pages_used<F: Files>(rt: &F) -> Option<u64> {
    let mut bytes = [0u8; 128];
    let count = read_state(rt, &mut bytes)?;
    second_number(bytes.get(..count)?)
}

/// Reads what the system tells, and answers how many bytes that were.
fn read_state<F: Files>(rt: &F, bytes: &mut [u8]) -> Option<usize> {
    let mut file = File::open(rt, STATE).ok()?;
    file.read(bytes).ok()
}

/// The second of some numbers with blanks between them.
fn second_number(bytes: &[u8]) -> Option<u64> {
    let text = str::from_utf8(bytes).ok()?;
    text.split_whitespace().nth(1)?.parse().ok()
}
