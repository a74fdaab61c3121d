//! The expanded text of a master file: one text of it and of those that it includes.

mod file_expander;
mod file_expansion;
mod files_within;
mod generating;
mod holding;
mod including;
mod lines;
mod names;
mod opened_name;
mod owners;
mod progress;
mod step;

pub use file_expander::FileExpander;
pub(crate) use opened_name::FileName;
pub use progress::FileStatus;
