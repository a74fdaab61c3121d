//! What ends a text that isn't whole.
ghost use Rattle.std.specs.Prelude.{◌≡◌, if◌then◌else◌};
ghost use Rattle.zone_words.specs.Stopped.{inside_after};

/// What ends a text that isn't whole, so that it is a line of its own.
#[derive(Clone, Copy)]
pub(crate) struct LastLine {
    /// Where the text ends inside a line.
    pub inside_line: &'static [u8],
    /// Where it is empty or a line feed ends it.
    pub after_line: &'static [u8],
}

impl LastLine {
    /// Nothing.
    pub const NONE: LastLine = LastLine {
        inside_line: b"",
        after_line: b"",
    };

    /// What ends a text that ends inside a line, or doesn't.
    pub fn octets(self, is_inside: bool) -> &'static [u8]
        ensures { result.now
            ≡ if is_inside then self.inside_line.now else self.after_line.now }
    {
        match is_inside {
            true => self.inside_line,
            false => self.after_line,
        }
    }
}

/// Whether a text ends inside a line that goes on with these octets, where before them it did or not.
pub(crate) fn is_inside_after(is_inside: bool, text: &[u8]) -> bool
    ensures { result ≡ inside_after is_inside text.now }
{
    match text.last() {
        Some(octet) => *octet != b'\n',
        None => is_inside,
    }
}
