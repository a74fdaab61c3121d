//! What `{}` shows of names.

use crate::formatter_sink::FormatterSink;
use crate::lent::NameRef;
use crate::name::Name;
use std::fmt;

/// The canonical spelling: absolute, in lower case, with escapes (RFC 1035 5.1). It allocates
/// nothing, and the options of a format, such as a width, change nothing.
impl<'a> fmt::Display for NameRef<'a> {
    ghost use Rattle.std.specs.Prelude.{Some};
    ghost use Rattle.zone_name.specs.Text.{name_text};

    ghost output = { λ name. Some (name_text name) };

    fn fmt<W: fmt::Write>(&self, f: &mut fmt::Formatter<W>) -> fmt::Result {
        let mut sink = FormatterSink::new(f);
        self.print(&mut sink)?;
        sink.finish()
    }
}

/// The canonical spelling: absolute, in lower case, with escapes (RFC 1035 5.1). It allocates
/// nothing, and the options of a format, such as a width, change nothing.
impl fmt::Display for Name {
    ghost use Rattle.std.specs.Prelude.{Some};
    ghost use Rattle.zone_name.specs.Text.{name_text};

    ghost output = { λ name. Some (name_text name) };

    fn fmt<W: fmt::Write>(&self, f: &mut fmt::Formatter<W>) -> fmt::Result {
        self.lend().fmt(f)
    }
}
