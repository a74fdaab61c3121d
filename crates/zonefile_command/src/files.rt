//! What opens the files that are read.
ghost use Rattle.std.specs.Prelude.{ℕ, List, Option};

use zone_files::IncludedFiles;

/// What opens the files of the command line, and those that they include: the file system, or a test.
pub trait ZoneFiles: IncludedFiles {
    /// From the one state to the other a file of the command line was opened, with this reader, or
    /// couldn't be.
    ghost opens_main: { Self → List ℕ → Option Self.File → Self → Type 0 };

    /// Opens the file of the command line, or standard input for `-`. `None`: it can't be opened.
    fn open_main(&mut self, path: &str) -> Option<Self::File>
        ensures { opens_main self.old path.now result self.new };
}
