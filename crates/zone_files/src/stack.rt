//! Master files that are expanded with the files that they include, while they are read.

mod expanded_loader;
mod explaining;
mod include_stack;
mod line_sources;

pub use expanded_loader::{ExpandedLoader, ExpandedRefusal};
pub use explaining::explain_source;
pub use include_stack::IncludeStack;
