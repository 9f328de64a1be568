//! Certificates that are made of what a search has recorded: trimmed to what shows the plan, or a bound, and written.

mod certificate;
mod closing;
mod least;
mod needed;
mod text;
mod writer;

pub use certificate::certificate_by_clauses;
pub use least::{BoundCertificate, bound_certificate};
