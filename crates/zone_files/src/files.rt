//! Main files that are read with the files that they include.

mod expanded_files;
mod files_reader;
mod included_files;
mod loaded_files;
mod open_file;
mod open_files;
mod piece;
mod stop;

pub use expanded_files::expand_files;
pub use included_files::IncludedFiles;
pub use loaded_files::load_files;
pub use stop::FilesStop;
