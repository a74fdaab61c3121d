//! Which item of an entry is at fault: read again from the left, where the entry was refused (RFC
//! 1035 5.1). A fault is rare, so reading it again costs little.
#![tactic(auto)]

mod entry;
mod field_names;
mod fields;
mod further;
mod generic;
mod going_on;
mod laid_out;
mod shown;
mod spelling;
mod stop;
mod touching;

pub use entry::{EntryStop, entry_stop};
pub use further::{FurtherStop, further_stop};
pub use laid_out::laid_out_stop;
pub use shown::{ShownItem, write_item};
pub use stop::DataStop;
