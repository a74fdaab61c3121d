//! What `{}` shows of classes, types, data and records: their canonical text. It takes no memory,
//! and the options of a format, as a width, change nothing.
use crate::class::Class;
use crate::kind::Kind;
use crate::lent::{RdataRef, RrRef};
use crate::rdata::Rdata;
use crate::record::Rr;
use std::fmt;
use zone_name::FormatterSink;

/// The word of the class as it is printed.
impl fmt::Display for Class {
    ghost use Rattle.std.specs.Prelude.{Some};
    ghost use Rattle.zone_rdata.specs.Words.{class_text};

    ghost output = { λ class. Some (class_text class) };

    fn fmt<W: fmt::Write>(&self, f: &mut fmt::Formatter<W>) -> fmt::Result {
        let mut sink = FormatterSink::new(f);
        self.push_word(&mut sink)?;
        sink.finish()
    }
}

/// The word of the type as it is printed in class IN.
impl fmt::Display for Kind {
    ghost use Rattle.std.specs.Prelude.{Some};
    ghost use Rattle.zone_rdata.specs.Words.{kind_text};

    ghost output = { λ kind. Some (kind_text 1 kind) };

    fn fmt<W: fmt::Write>(&self, f: &mut fmt::Formatter<W>) -> fmt::Result {
        let mut sink = FormatterSink::new(f);
        self.push_word(Class::internet(), &mut sink)?;
        sink.finish()
    }
}

/// The text of the data, without class and type.
impl<'a> fmt::Display for RdataRef<'a> {
    ghost use Rattle.std.specs.Prelude.{Some};
    ghost use Rattle.zone_rdata.specs.Text.{data_text};

    ghost output = { λ d. Some (data_text d) };

    fn fmt<W: fmt::Write>(&self, f: &mut fmt::Formatter<W>) -> fmt::Result {
        let mut sink = FormatterSink::new(f);
        self.print(&mut sink)?;
        sink.finish()
    }
}

/// The text of the data, without class and type.
impl fmt::Display for Rdata {
    ghost use Rattle.std.specs.Prelude.{Some};
    ghost use Rattle.zone_rdata.specs.Text.{data_text};

    ghost output = { λ d. Some (data_text d) };

    fn fmt<W: fmt::Write>(&self, f: &mut fmt::Formatter<W>) -> fmt::Result {
        self.lend().fmt(f)
    }
}

/// Owner, TTL, class, type and data, parted by single spaces: the record's line without its line
/// feed.
impl<'a> fmt::Display for RrRef<'a> {
    ghost use Rattle.std.specs.Prelude.{Some};
    ghost use Rattle.zone_rdata.specs.Lent.{record_of};
    ghost use Rattle.zone_rdata.specs.RecordText.{record_text};

    ghost output = { λ rr. Some (record_text (record_of rr)) };

    fn fmt<W: fmt::Write>(&self, f: &mut fmt::Formatter<W>) -> fmt::Result {
        let (owner, ttl, class, data) = (&self.owner, self.ttl, self.class, &self.rdata);
        write!(f, "{owner} {ttl} {class} ")?;
        let mut sink = FormatterSink::new(f);
        self.kind.push_word(class, &mut sink)?;
        sink.finish()?;
        write!(f, " {data}")
    }
}

/// Owner, TTL, class, type and data, parted by single spaces: the record's line without its line
/// feed.
impl fmt::Display for Rr {
    ghost use Rattle.std.specs.Prelude.{Some};
    ghost use Rattle.zone_rdata.specs.RecordText.{record_text};

    ghost output = { λ rr. Some (record_text rr) };

    fn fmt<W: fmt::Write>(&self, f: &mut fmt::Formatter<W>) -> fmt::Result {
        self.lend().fmt(f)
    }
}
