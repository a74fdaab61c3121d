ghost use Rattle.std.specs.Prelude.{◌≡◌, ◌↔◌, ◌++◌, ◌≤◌, [], bytes_eq, length, map, true, IsTrue, IfSome, IfNone, OnOk, OnErr, option_copied, decimal};
ghost use Rattle.std.specs.List.{find};
ghost use Rattle.zone_name.specs.Common.{NothingIs};
ghost use Rattle.zone_name.specs.Name.{folded_label};
ghost use Rattle.zone_rdata.specs.Number.{IsCapped};
ghost use Rattle.zone_rdata.specs.Table.{ascends};
ghost use Rattle.zone_rdata.specs.Words.{IsNumbered, IsWordAmong};

use crate::number::decimal_of;
use crate::table::Row;
use arrayvec::ArrayVec;
use itoa::Buffer;
use zone_name::Sink;

/// The bits of an octet in which a letter's two cases are the same.
const CASELESS: u8 = 0xdf;

/// Whether two words are equal but for the case of their letters (RFC 4343 3).
#[tactic(auto, using(crate::proofs::Words::AnyCase::same_word))]
pub fn is_word(word: &[u8], wanted: &[u8]) -> bool
    ensures { IsTrue result ↔ (folded_label word.now ≡ folded_label wanted.now) }
{
    // Most words of a table are told from another one by their lengths and first octets.
    if word.len() != wanted.len() {
        return false;
    }
    match (word.split_first(), wanted.split_first()) {
        (Some((first, _)), Some((other, _))) if *first & CASELESS != *other & CASELESS => false,
        _ => word.eq_ignore_ascii_case(wanted),
    }
}

/// The decimal number right after the name in any letter case, at most `CAP`. `None`: it is no such
/// word.
fn numbered(name: &[u8], word: &[u8]) -> Option<u64>
    ensures found { IfSome result (IsCapped (IsNumbered name.now word.now)) }
    ensures none { IfNone result (NothingIs (IsNumbered name.now word.now)) }
{
    if word.len() < name.len() {
        return None;
    }
    let (front, digits) = word.split_at(name.len());
    // Few words end in a digit, so this is seen first.
    match decimal_of(digits) {
        Some(number) if is_word(front, name) => Some(number),
        _ => None,
    }
}

/// The first row whose mnemonic a word is, in any letter case. `None`: there is none.
#[tactic(auto, using(crate::proofs::Words::AnyCase::row_tests))]
pub fn row_named<'r, R: Row>(rows: &'r [R], word: &[u8]) -> Option<&'r R>
    ensures { option_copied result
        ≡ find (λ row. bytes_eq (folded_label word.now) (folded_label (R.names row).mnemonic))
        rows.now }
{
    for row in rows {
        if is_word(word, row.mnemonic()) {
            return Some(row);
        }
    }
    None
}

/// The number that a word stands for in any letter case: that of a mnemonic of the rows, or the one
/// right after the name, as in `TYPE65` (RFC 3597 5); 2 ^ 32 where it is greater. `None`: it is no
/// such word.
pub fn number_of_word<R: Row>(rows: &[R], name: &[u8], word: &[u8]) -> Option<u64>
    requires { ascends (map R.names rows.now) ≡ true }
    ensures found { IfSome result
        (IsCapped (IsWordAmong (map R.names rows.now) name.now word.now)) }
    ensures none { IfNone result
        (NothingIs (IsWordAmong (map R.names rows.now) name.now word.now)) }
{
    if let Some(number) = numbered(name, word) {
        return Some(number);
    }
    let row = row_named(rows, word)?;
    Some(u64::from(row.number()))
}

/// The octets of the longest word with its number, `CLASS65535`.
const LONGEST: usize = 10;

/// Appends a word and a number in decimal.
///
/// # Errors
///
/// `out` refuses the octets, and is unchanged.
pub(crate) fn push_numbered<S: Sink>(word: &[u8], number: u16, out: &mut S) -> Result<(), S::Error>
    requires { length word.now ≤ 5 }
    ensures ok { OnOk result (S.takes out.old (word.now ++ decimal number) out.new) }
    ensures err { OnErr result (S.takes out.old [] out.new) }
{
    let mut digits = Buffer::new();
    let mut text: ArrayVec<u8, LONGEST> = ArrayVec::new();
    let _ = text.try_extend_from_slice(word);
    let _ = text.try_extend_from_slice(digits.format(number).as_bytes());
    out.push(text.as_slice())
}
