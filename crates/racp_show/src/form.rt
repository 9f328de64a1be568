//! The forms in which a plan is shown.

/// What is written of a plan that is shown.
#[derive(Clone, Copy)]
pub enum Form {
    /// A chart of blocks.
    Text,
    /// A chart of characters that every terminal has.
    Ascii,
    /// A picture for a browser.
    Svg,
    /// A value for programs.
    Json,
    /// A table for programs.
    Csv,
}
