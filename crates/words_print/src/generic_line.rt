//! The generic form at the end of a line (RFC 3597 5).
ghost use Rattle.hex.specs.Hex.{encode_lower};
ghost use Rattle.std.specs.Prelude.{◌≡◌, ℕ, List, IfNone, IfSome};
ghost use Rattle.words_print.specs.Machine.Found.{FoundIn, HasNoData, HasNoSpace, HasNone, IsAroundFirst, IsAroundLast, IsCut, IsParted, IsWithoutFeed, form_of};
ghost use Rattle.words_print.specs.Shown.{IsAtAWord};
ghost use Rattle.zone_rdata.specs.Words.{IsClass, IsClassWord};

use memchr::{memchr, memrchr, memrchr2};
use type_data::{FurtherType, further_type_of};
use zone_rdata::Class;

/// A line around the last word before its last backslash.
#[derive(Clone, Copy)]
struct LineCut<'l> {
    /// What stands before the word and the blank before it.
    stem: &'l [u8],
    /// The word.
    word: &'l [u8],
    /// What stands after the backslash.
    form: &'l [u8],
    /// The line feed, if there is one.
    end: &'l [u8],
}

/// The parts of a line that may end with a class word, the word of a further type and the generic
/// form.
#[derive(Clone, Copy)]
pub(crate) struct GenericLine<'l> {
    /// What stands before the type's word and the blank before it.
    pub(crate) stem: &'l [u8],
    /// Of that, what stands before the class word.
    pub(crate) ahead: &'l [u8],
    /// The class word.
    pub(crate) class: &'l [u8],
    /// The hexadecimal digits of the data.
    pub(crate) digits: &'l [u8],
    /// The line feed, if there is one.
    pub(crate) end: &'l [u8],
    /// The type.
    pub(crate) further: &'static FurtherType,
}

/// What stands before the last such octet, and what stands after it. `None`: there is none.
fn around_last(octet: u8, octets: &[u8]) -> Option<(&[u8], &[u8])>
    ensures some { IfSome result
        (λ parts. IsAroundLast octet octets.now parts.0.now parts.1.now) }
    ensures none { IfNone result (HasNone octet octets.now) }
{
    let place = memrchr(octet, octets)?;
    let (front, rest) = octets.split_at(place);
    let (_, back) = rest.split_at(1);
    Some((front, back))
}

/// What stands before the first such octet, and what stands after it. `None`: there is none.
pub(crate) fn around_first(octet: u8, octets: &[u8]) -> Option<(&[u8], &[u8])>
    ensures some { IfSome result
        (λ parts. IsAroundFirst octet octets.now parts.0.now parts.1.now) }
    ensures none { IfNone result (HasNone octet octets.now) }
{
    let place = memchr(octet, octets)?;
    let (front, rest) = octets.split_at(place);
    let (_, back) = rest.split_at(1);
    Some((front, back))
}

/// A line without the line feed that ends it, and that, if there is one.
fn split_end(line: &[u8]) -> (&[u8], &[u8])
    ensures { IsWithoutFeed line.now result.0.now result.1.now }
{
    let Some((last, octets)) = line.split_last() else {
        return (line, b"");
    };
    if *last == b'\n' {
        (octets, b"\n")
    } else {
        (line, b"")
    }
}

/// The line around the last word before its last backslash. `None`: no blank stands right before a
/// backslash that is its last, or none before that.
fn cut_line(line: &[u8]) -> Option<LineCut<'_>>
    ensures some { IfSome result (λ cut.
        IsCut line.now cut.stem.now cut.word.now cut.form.now cut.end.now) }
    ensures none { IfNone result ((stem word form end : List ℕ)
        → IsCut line.now stem word form end → ⊥) }
{
    let (octets, end) = split_end(line);
    let (before, form) = around_last(b'\\', octets)?;
    let (worded, back) = around_last(b' ', before)?;
    if !back.is_empty() {
        return None;
    }
    let (stem, word) = around_last(b' ', worded)?;
    Some(LineCut {
        stem,
        word,
        form,
        end,
    })
}

/// The last word, and what stands before it.
fn split_class(octets: &[u8]) -> (&[u8], &[u8])
    ensures parted { IsParted octets.now result.0.now result.1.now }
    ensures at_a_word { IsAtAWord result.0.now }
    ensures none { HasNoSpace result.1.now }
{
    match memrchr2(b' ', b'\t', octets) {
        Some(blank) => octets.split_at(blank + 1),
        None => octets.split_at(0),
    }
}

/// The class of a word. `None`: it is the word of none that has records.
fn class_of(word: &[u8]) -> Option<Class>
    ensures some { IfSome result (IsClassWord word.now) }
    ensures none { IfNone result ((n : ℕ) → IsClassWord word.now n → IsClass n → ⊥) }
{
    match Class::read_word(word) {
        Ok(class) => class,
        Err(_) => None,
    }
}

/// The hexadecimal digits in what stands after the backslash of a generic form.
fn digits_of(form: &[u8]) -> &[u8]
    ensures { (octets : List ℕ) → form.now ≡ form_of octets
        → result.now ≡ encode_lower octets }
{
    let Some((_, number)) = around_first(b' ', form) else {
        return b"";
    };
    match around_first(b' ', number) {
        Some((_, digits)) => digits,
        None => b"",
    }
}

/// The parts of a line that may end with a class word, the word of a further type and the generic
/// form. `None`: it doesn't.
pub(crate) fn generic_line(line: &[u8]) -> Option<GenericLine<'_>>
    ensures some { IfSome result (FoundIn line.now) }
    ensures none { IfNone result (HasNoData line.now) }
{
    let cut = cut_line(line)?;
    let (ahead, class) = split_class(cut.stem);
    let number = class_of(class)?.number();
    let further = further_type_of(cut.word)?;
    if further.in_internet_alone && number != 1 {
        return None;
    }
    Some(GenericLine {
        stem: cut.stem,
        ahead,
        class,
        digits: digits_of(cut.form),
        end: cut.end,
        further,
    })
}
