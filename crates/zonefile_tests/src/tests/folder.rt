//! The files of a test.
use test_support::{BROKEN, Supply};
use zone_files::IncludedFiles;
use zonefile_command::ZoneFiles;

/// The files of a row.
#[derive(Drop)]
pub(crate) struct Folder<'t> {
    pub(crate) files: &'t str,
    /// How many octets each read gives at most.
    pub(crate) each: usize,
}

impl<'t> Folder<'t> {
    /// The file of this name.
    fn open(&self, name: &str) -> Option<Supply<'t>> {
        for file in self.files.split("@@ ") {
            let (line, text) = file.split_once('\n').unwrap_or((file, ""));
            match line.split_once(' ') {
                Some((its_name, kind)) if its_name == name => {
                    let error = if kind == "broken" { BROKEN } else { None };
                    return Some(Supply {
                        left: text.as_bytes(),
                        each: self.each,
                        error,
                    });
                }
                _ => {}
            }
        }
        None
    }
}

/// Nothing is stated of what its names open.
impl<'t> IncludedFiles for Folder<'t> {
    ghost use Rattle.std.specs.Prelude.{⊤};

    type File = Supply<'t>;

    ghost opens = { λ old name file new. ⊤ };

    fn open_included(&mut self, name: &str) -> Option<Supply<'t>> {
        self.open(name)
    }
}

/// Nothing is stated of what its names open.
impl<'t> ZoneFiles for Folder<'t> {
    ghost use Rattle.std.specs.Prelude.{⊤};

    ghost opens_main = { λ old path file new. ⊤ };

    fn open_main(&mut self, path: &str) -> Option<Supply<'t>> {
        self.open(path)
    }
}
