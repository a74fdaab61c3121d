//! The files that a caller gives by their names.
ghost use Rattle.std.specs.Prelude.{◌≡◌, map, option_map};
ghost use Rattle.zonenorm_c.specs.Files.{file_in};

use zone_engine::OctetSlice;
use zone_files::IncludedFiles;

/// Files by their names: `files[i]` has the octets of the one of the name `names[i]`.
#[derive(Clone, Copy, Drop)]
pub(crate) struct FileTable<'a> {
    pub(crate) names: &'a [&'a [u8]],
    pub(crate) files: &'a [&'a [u8]],
}

impl<'a> IncludedFiles for FileTable<'a> {
    ghost use Rattle.zonenorm_c.specs.Tables.{OpensGiven};

    type File = OctetSlice<'a>;

    ghost opens = { OpensGiven };

    fn open_included(&mut self, name: &str) -> Option<OctetSlice<'a>> {
        match file_named(self.names, self.files, name.as_bytes()) {
            Some(octets) => Some(OctetSlice { rest: octets }),
            None => None,
        }
    }
}

/// The octets of the first file of this name.
fn file_named<'a>(names: &[&'a [u8]], files: &[&'a [u8]], name: &[u8]) -> Option<&'a [u8]>
    ensures { option_map (λ octets. octets.now) result
        ≡ file_in (map (λ n. n.now) names.now) (map (λ f. f.now) files.now) name.now }
{
    let mut index = 0;
    'names: while index < names.len() && index < files.len() {
        if names[index] == name {
            return Some(files[index]);
        }
        index += 1;
    }
    None
}
