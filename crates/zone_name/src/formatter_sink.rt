//! What a sink takes, written to a formatter: so what prints into a sink has its `Display`.
ghost use Rattle.std.specs.Prelude.{◌≡◌, false, true, OnErr, OnOk};
ghost use Rattle.zone_name.specs.FormatterSink.{Formats, has_failed};
ghost use Rattle.zone_name.specs.Machine.Formatted.{formatted_nothing, formatted_twice};

use crate::sink::Sink;
use std::{fmt, str};

/// A formatter as a sink. It takes octets of UTF-8, up to the first that its writer refuses.
#[derive(Drop)]
pub struct FormatterSink<'f, W> {
    formatter: &'f mut fmt::Formatter<W>,
    /// The writer refused octets.
    failed: bool,
}

impl<'f, W: fmt::Write> FormatterSink<'f, W> {
    /// A sink that writes to this formatter.
    pub fn new(formatter: &'f mut fmt::Formatter<W>) -> FormatterSink<'f, W>
        ensures formatter { result.formatter ≡ formatter.entry }
        ensures failed { has_failed result ≡ false }
    {
        FormatterSink {
            formatter,
            failed: false,
        }
    }

    /// Whether all that was pushed was written.
    ///
    /// # Errors
    ///
    /// The writer refused octets.
    pub fn finish(&self) -> fmt::Result
        ensures ok { OnOk result (has_failed self.now ≡ false) }
        ensures err { OnErr result (has_failed self.now ≡ true) }
    {
        if self.failed { Err(fmt::Error) } else { Ok(()) }
    }
}

impl<'f, W: fmt::Write> Sink for FormatterSink<'f, W> {
    ghost takes = { Formats W.write_str_gives };

    type Error = fmt::Error;

    fn push(&mut self, octets: &[u8]) -> fmt::Result {
        let Ok(text) = str::from_utf8(octets) else {
            return Err(fmt::Error);
        };
        if self.failed || self.formatter.write_str(text).is_err() {
            self.failed = true;
            return Err(fmt::Error);
        }
        Ok(())
    }

    ghost nothing = { formatted_nothing W.write_str_gives };

    ghost joins = { formatted_twice W.write_str_gives };
}
