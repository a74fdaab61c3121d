//! Command lines of `zonefile`, and what their runs read, write and return.
mod checked_files;
mod command_lines;
mod file_runs;
mod folder;
