//! Inputs by name.

/// The bytes of an input, and the name by which it is told of.
#[derive(Clone, Copy)]
pub struct Input<'a> {
    /// The path of the file, or the name of the stream.
    pub name: &'a str,
    /// All its bytes.
    pub bytes: &'a [u8],
}
