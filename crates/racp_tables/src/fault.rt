//! What is wrong with a table.

use std::alloc::AllocError;

/// Why a text is no table of tasks.
#[derive(Drop)]
pub enum TableFault {
    /// What is wrong, in words, and the line of the text where it shows, from 1; 0 if it is no one line.
    At(u64, String),
    /// Memory ran out.
    Memory,
}

impl TableFault {
    /// What is wrong at a line, or that memory ran out for the words.
    pub(crate) fn at(line: u64, words: Result<String, AllocError>) -> TableFault {
        match words {
            Ok(words) => TableFault::At(line, words),
            Err(_) => TableFault::Memory,
        }
    }
}

impl From<AllocError> for TableFault {
    ghost use Rattle.std.specs.Prelude.{◌≡◌};
    ghost use Rattle.racp_tables.specs.declared.fault.TableFault.TheVariants.{Memory};

    ghost from_gives = { λ _ fault. fault ≡ Memory };

    fn from(_error: AllocError) -> TableFault {
        TableFault::Memory
    }
}
