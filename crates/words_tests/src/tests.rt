//! Master files that are written again, texts that are shown in words, and runs of the program.
mod expanded_texts;
mod faults_of_files;
mod include_stacks;
mod included_files;
mod items_at_fault;
mod placed_records;
mod presentation_files;
mod rewriting;
mod words_runs;
mod words_shown;
