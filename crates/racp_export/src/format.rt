//! The formats of exports.

/// In which format a plan is exported.
#[derive(Clone, Copy, PartialEq, Eq)]
pub enum Format {
    /// A calendar of events, iCalendar.
    Events,
    /// A table of comma-separated values.
    Csv,
    /// A table in Markdown.
    Markdown,
    /// A project of MS Project, in XML.
    MsProject,
    /// A project of TaskJuggler.
    TaskJuggler,
}
