//! Memory that a search uses again from node to node.

ghost use Rattle.std.specs.Prelude.{◌≡◌, [], IfOk};

use crate::child::Child;
use racp_cutset::Node;
use racp_delay::{Alternative, DelayingAlternatives};
use racp_model::{Network, OfNetwork, Window};
use racp_timetable::Scratch;
use std::alloc::{AllocError, Global};

/// The memory of a search: of the alternative that was looked at last, of those that were listed last, of what is not
/// in use, and of what tightens windows.
#[derive(Drop)]
pub(crate) struct Workspace {
    pub(crate) next: Alternative,
    pub(crate) all: DelayingAlternatives,
    pub(crate) spare: Spare,
    pub(crate) scratch: Scratch,
}

impl Workspace {
    /// For searches in this network. Takes no memory until it is used.
    pub(crate) fn new(alloc: Global, net: &Network) -> Self {
        Workspace {
            next: Alternative::new(alloc),
            all: DelayingAlternatives::new(alloc),
            scratch: Scratch::new(alloc, net),
            spare: Spare {
                alloc,
                rows: Vec::new(alloc),
                lists: Vec::new(alloc),
            },
        }
    }
}

/// Rows of numbers and lists of child windows that are not in use. What they hold is of no use either.
#[derive(Drop)]
pub(crate) struct Spare {
    alloc: Global,
    rows: Vec<Vec<u32>>,
    lists: Vec<Vec<Child>>,
}

impl Spare {
    /// A row of any numbers.
    pub(crate) fn row(&mut self) -> Vec<u32> {
        match self.rows.pop() {
            Some(row) => row,
            None => Vec::new(self.alloc),
        }
    }

    /// A row without numbers.
    pub(crate) fn empty_row(&mut self) -> Vec<u32>
        ensures { result.items ≡ [] }
    {
        let mut row = self.row();
        row.clear();
        row
    }

    /// A row with these numbers.
    pub(crate) fn row_of(&mut self, numbers: &[u32]) -> Result<Vec<u32>, AllocError>
        ensures { IfOk result (λ row. row.items ≡ numbers.now) }
    {
        let mut row = self.row();
        row.clear();
        row.extend_from_slice(numbers)?;
        Ok(row)
    }

    /// A list without child windows.
    pub(crate) fn list(&mut self) -> Vec<Child>
        ensures { result.items ≡ [] }
    {
        match self.lists.pop() {
            Some(mut list) => {
                list.clear();
                list
            }
            None => Vec::new(self.alloc),
        }
    }

    /// Takes a row that is not in use any more.
    pub(crate) fn give_row(&mut self, row: Vec<u32>) {
        let _ = self.rows.push(row);
    }

    /// Takes a list that is not in use any more.
    pub(crate) fn give_list(&mut self, list: Vec<Child>) {
        let _ = self.lists.push(list);
    }

    /// Takes the rows of a window.
    pub(crate) fn give_window(&mut self, window: Window) {
        let (lower, upper) = window.into_bounds();
        self.give_row(lower.into_vec());
        self.give_row(upper.into_vec());
    }

    /// Takes the rows of a node.
    pub(crate) fn give_node<N: OfNetwork>(&mut self, node: Node<N>) {
        let (question, early, (first, second)) = node.into_rows();
        self.give_row(question.capacities.into_vec());
        self.give_window(question.window);
        self.give_row(early.into_vec());
        self.give_row(first);
        self.give_row(second);
    }
}
