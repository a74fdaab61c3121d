//! Zones of master files in presentation format: every type that `zone_words` knows, in one
//! process with zone transfers.
#![tactic(auto)]

mod bytes;
mod expansion;
mod fault;
mod fault_line;
mod file_name;
mod files;
pub mod laws;
mod loading;
mod placed_fault;
mod places;
mod stack;

pub use bytes::normalise_presentation;
pub use expansion::{FileExpander, FileStatus};
pub use fault::{ExpansionFailing, ExpansionFault};
pub use fault_line::{
    EntryPlace, FaultPlace, write_data_fault, write_expansion_fault, write_fault, write_unreadable,
    write_unreadable_main,
};
pub use file_name::included_file_name;
pub use files::{FilesStop, IncludedFiles, expand_files, load_files};
pub use loading::{
    PresentationLoader, PresentationRefusal, SourceForm, accepted_source, compare_sources,
    normalise_source,
};
pub use placed_fault::{FileFault, write_placed_fault};
pub use places::{FilePlace, Places, Stretch};
pub use stack::{ExpandedLoader, ExpandedRefusal, IncludeStack, explain_source};
