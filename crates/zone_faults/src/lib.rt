//! Every fault of a main file and the files that it includes.
#![tactic(auto)]

mod finding;
mod found_fault;
mod kept_files;
mod pass;
mod writing;

pub use finding::{CheckEnd, Checked, check_files};
pub use found_fault::FoundFault;
pub use writing::{write_found_fault, write_found_faults};
