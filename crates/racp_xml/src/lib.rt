//! A small strict reader of XML, as far as files of planners have it: elements, one in another, and their text.
//!
//! `marks(alloc, text)` lists the marks of a text in their order. Each opens an element, closes one, or is one without content,
//! and has the text that stands behind it, up to the next mark. `parts` finds the elements of a name at a depth among marks,
//! `text_of` the text of the first one, and `unescaped` gives a text with its entities as what they stand for.
//!
//! ```text
//! <Task><Name>Walls &amp; roof</Name><Milestone/></Task>
//!
//! mark     opens Task   opens Name           closes Name   Milestone   closes Task
//! depth    1            2                    2             2           1
//! behind                Walls &amp; roof
//! ```
//!
//! Comments and processing instructions are passed over, and attributes are not read. The five entities of XML and references to
//! characters by numbers are known. A text is refused, with the line where it shows, if a mark does not end or has no name, if an element is
//! closed that is not the last one opened, if there is not one first element that holds all others, if text stands outside of it, and
//! if elements lie deeper than `MOST_DEPTH`. A document type is refused, so no entity is declared in a text and none is read from
//! elsewhere; and a section of CDATA, and `<` in an attribute.
//!
//! A text is cut at each `<`. What stands behind is a mark up to the first `>` outside of quotes, and then text. So there is no more to
//! keep than a list of marks and the names of the open elements, and the work grows with the length of the text.
//!
//! Proved: the marks of a text are nested: each closes the last element that was opened and is not closed, by its name, and none is left open
//! (`AreNested`). Reading returns, and fails for one of the reasons above. Tested alone: which marks a text has, and which text is
//! refused, and at which line.
#![tactic(auto)]

mod entity;
mod fault;
mod mark;
mod nesting;
mod part;

pub use entity::unescaped;
pub use fault::XmlFault;
pub use mark::{Kind, Mark};
pub use nesting::{MOST_DEPTH, marks};
pub use part::{parts, text_of};

#[cfg(test)]
mod tests;
