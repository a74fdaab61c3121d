//! Texts in words, whole or fed in pieces.
ghost use Rattle.std.specs.Prelude.{◌≡◌, ◌++◌, List, ℕ, [], IfNone, IfOk, IfSome, OnErr, OnOk, true, false};
ghost use Rattle.words_print.specs.Machine.Found.{IsFirstLine};
ghost use Rattle.words_print.specs.Printer.{StandsForWords, StandsInPart, all_given};
ghost use Rattle.words_print.specs.Shown.{IsShownLine, IsShownText};
ghost use Rattle.zone_print.specs.Laws.{HasNoFeed};
ghost use Rattle.type_data.specs.Fault.{AppendsStated};

use crate::line_printer::LinePrinter;
use memchr::memchr;
use std::alloc::{AllocError, Global};
use std::marker::Model;

/// A printer of a text in words that is fed in pieces, line by line. It keeps the line that isn't
/// ended, and nothing of those before. Contracts see what it has written and nobody has taken, that
/// line, and whether it has failed.
///
/// Once it was refused memory it has failed: every later `feed` and `finish` answers `AllocError`.
/// What it has written then ends with a whole line.
#[derive(Drop)]
pub struct WordsPrinter {
    lines: LinePrinter,
    /// The line that isn't ended.
    waiting: Vec<u8>,
    /// What is written and nobody has taken.
    written: Vec<u8>,
    has_failed: bool,
}

impl Model for WordsPrinter {
    ghost use Rattle.words_print.specs.Machine.Found.{HoldsNothing};
    ghost use Rattle.words_print.specs.Printer.{PrinterState};

    ghost Value = { PrinterState };

    ghost view = { λ p. record {
      written = p.written.items;
      waiting = p.waiting.items;
      has_failed = p.has_failed;
    } };

    ghost invariant = { λ p. HoldsNothing p.lines };
}

/// The line at the front with its line feed, and what is left. `None`: no line feed is there.
fn split_line(octets: &[u8]) -> Option<(&[u8], &[u8])>
    ensures found { IfSome result (λ parts. IsFirstLine octets.now parts.0.now parts.1.now) }
    ensures none { IfNone result (HasNoFeed octets.now) }
{
    let feed = memchr(b'\n', octets)?;
    Some(octets.split_at(feed + 1))
}

impl WordsPrinter {
    /// A printer that was fed nothing.
    pub fn new(alloc: Global) -> WordsPrinter
        ensures stands { StandsForWords result [] [] }
        ensures going { result.has_failed ≡ false }
    {
        WordsPrinter {
            lines: LinePrinter::new(alloc),
            waiting: Vec::new(alloc),
            written: Vec::new(alloc),
            has_failed: false,
        }
    }

    /// Writes the line that isn't ended as it ends with these octets.
    fn end_line(&mut self, end: &[u8]) -> Result<(), AllocError>
        ensures shown { OnOk result (AppendsStated (IsShownLine (self.old.waiting ++ end.now))
            self.old.written self.new.written) }
        ensures none { OnOk result (self.new.waiting ≡ []) }
        ensures same { self.new.has_failed ≡ self.old.has_failed }
        ensures written { OnErr result (self.new.written ≡ self.old.written) }
    {
        if self.waiting.is_empty() {
            return self.lines.push_line(end, &mut self.written);
        }
        self.waiting.extend_from_slice(end)?;
        self.lines.push_line(&self.waiting, &mut self.written)?;
        self.waiting.clear();
        Ok(())
    }

    /// Takes the lines that a piece ends, and what it has of the next one.
    fn take(&mut self, piece: &[u8]) -> Result<(), AllocError>
        ensures stands { OnOk result ((fed given : List ℕ) → StandsForWords self.old fed given
            → StandsForWords self.new (fed ++ piece.now) given) }
        ensures in_part { OnErr result ((fed given : List ℕ) → StandsForWords self.old fed given
            → StandsInPart self.new (fed ++ piece.now) given) }
        ensures same { self.new.has_failed ≡ self.old.has_failed }
    {
        let mut rest = piece;
        while let Some((end, after)) = split_line(rest) {
            self.end_line(end)?;
            rest = after;
        }
        self.waiting.extend_from_slice(rest)
    }

    /// Takes the next piece of the text, of any length.
    ///
    /// # Errors
    ///
    /// `AllocError`. The printer has failed then, or had failed before.
    pub fn feed(&mut self, piece: &[u8]) -> Result<(), AllocError>
        ensures stands { OnOk result ((fed given : List ℕ) → StandsForWords self.old fed given
            → StandsForWords self.new (fed ++ piece.now) given) }
        ensures works { OnOk result (self.old.has_failed ≡ false) }
        ensures in_part { OnErr result ((fed given : List ℕ) → StandsForWords self.old fed given
            → StandsInPart self.new (fed ++ piece.now) given) }
        ensures failed { OnErr result (self.new.has_failed ≡ true) }
        ensures failed_before { self.old.has_failed ≡ true → self.new ≡ self.old }
    {
        if self.has_failed {
            return Err(AllocError);
        }
        match self.take(piece) {
            Ok(()) => Ok(()),
            Err(refused) => {
                self.has_failed = true;
                Err(refused)
            }
        }
    }

    /// Takes the end of the text, which ends its last line if no line feed did. What is fed after
    /// it is another text.
    ///
    /// # Errors
    ///
    /// `AllocError`. The printer has failed then, or had failed before.
    pub fn finish(&mut self) -> Result<(), AllocError>
        ensures text { OnOk result ((fed given : List ℕ) → StandsForWords self.old fed given
            → IsShownText fed (given ++ self.new.written)) }
        ensures none { OnOk result (self.new.waiting ≡ []) }
        ensures works { OnOk result (self.new.has_failed ≡ false) }
        ensures in_part { OnErr result ((fed given : List ℕ) → StandsForWords self.old fed given
            → StandsInPart self.new fed given) }
        ensures failed { OnErr result (self.new.has_failed ≡ true) }
        ensures failed_before { self.old.has_failed ≡ true → self.new ≡ self.old }
    {
        if self.has_failed {
            return Err(AllocError);
        }
        if self.waiting.as_slice().is_empty() {
            return Ok(());
        }
        match self.end_line(b"") {
            Ok(()) => Ok(()),
            Err(refused) => {
                self.has_failed = true;
                Err(refused)
            }
        }
    }

    /// What it has written since `clear_written`, or since it was made.
    pub fn written(&self) -> &[u8]
        ensures { result.now ≡ self.now.written }
    {
        self.written.as_slice()
    }

    /// Lets go of what it has written, which the caller has taken.
    pub fn clear_written(&mut self)
        ensures cleared { self.new ≡ all_given self.old }
        ensures stands { (fed given : List ℕ) → StandsForWords self.old fed given
            → StandsForWords self.new fed (given ++ self.old.written) }
        ensures in_part { (fed given : List ℕ) → StandsInPart self.old fed given
            → StandsInPart self.new fed (given ++ self.old.written) }
    {
        self.written.clear();
    }

    /// What it has written.
    fn into_written(self) -> Vec<u8>
        ensures { result.items ≡ self.written }
    {
        self.written
    }
}

/// A canonical text, or a difference of two, in presentation format. A line that ends with a class,
/// a type and data in the generic form (RFC 3597 5) gets the mnemonic of the type and its data in
/// presentation format, if the octets are data of a type of the table. Every other line stays.
///
/// # Errors
///
/// `AllocError` where memory is refused.
pub fn print_words(alloc: Global, octets: &[u8]) -> Result<Vec<u8>, AllocError>
    ensures { IfOk result (λ shown. IsShownText octets.now shown.items) }
{
    let mut printer = WordsPrinter::new(alloc);
    printer.feed(octets)?;
    printer.finish()?;
    Ok(printer.into_written())
}
