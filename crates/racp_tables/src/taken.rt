//! How the rows of a table are read.

use crate::columns::Columns;
use crate::reading::{Dating, Scale};

/// How the rows of a table are read: by its columns, the resources that its rows name, and the number of the row that each row is a part
/// of, by places; 0 if it is a part of none.
#[derive(Clone, Copy)]
pub(crate) struct Taken<'a> {
    pub(crate) columns: &'a Columns,
    pub(crate) roster: &'a [String],
    pub(crate) parents: &'a [u32],
    pub(crate) scale: Scale,
    pub(crate) dating: Dating<'a>,
}
