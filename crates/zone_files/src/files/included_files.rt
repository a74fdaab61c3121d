//! What opens the files that are included.
ghost use Rattle.std.specs.Prelude.{ℕ, List, Option};

use zone_engine::OctetReader;

/// What opens the files that `$INCLUDE`s name (RFC 1035 5.1): a folder of a file system, or a test.
///
/// All that reads files is proved for every `opens`.
pub trait IncludedFiles {
    /// An open file.
    type File: OctetReader + Drop;

    /// From the one state to the other a file of this name was opened, and this reads it, or it
    /// couldn't be opened. Of a file system nothing is known.
    ghost opens: { Self → List ℕ → Option Self.File → Self → Type 0 };

    /// Opens the file of this name, if it is a regular one. `None`: it isn't there, isn't a regular
    /// one or can't be opened. The name is one that `included_file_name` admits.
    fn open_included(&mut self, name: &str) -> Option<Self::File>
        ensures { opens self.old name.now result self.new };
}
