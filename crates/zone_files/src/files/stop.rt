//! Why files give no zone, or no whole text.

use crate::stack::{ExpandedRefusal, IncludeStack};
use zone_rdata::Stop;

/// Why a main file and the files that it includes give no zone, or no whole text.
#[derive(Drop)]
pub enum FilesStop {
    /// An entry can't be expanded, the expanded text is refused, or a file can't be opened or read,
    /// and no entry before has a fault. The places of the lines are with it.
    ///
    /// Where a file can't be opened, the status of the stack is `Including`: it is the one that is
    /// [`IncludeStack::wanted`]. Where one can't be read, it is the innermost one.
    Files(ExpandedRefusal, IncludeStack),
    /// `Refused` with `InputTooLong`: a file or the expanded text has more than [`TEXT_LIMIT`]
    /// octets. `Memory`. `Write`: the writer of the text failed.
    ///
    /// [`TEXT_LIMIT`]: zone_print::TEXT_LIMIT
    Input(Stop),
}
