//! One entry written anew: its octets, with the type's word and the tokens after it replaced.
ghost use Rattle.std.specs.Prelude.{◌≡◌, ◌++◌, codes, decimal, length, OnOk};
ghost use Rattle.zone_text.specs.Tokens.{text, token_text};
ghost use Rattle.zone_words.specs.Machine.Walking.{WritesBetween};
ghost use Rattle.zone_words.specs.Written.{renamed, generic_tokens, type_token};

use itoa::Buffer;
use std::alloc::AllocError;
use zone_rdata::push_hex;

/// Appends `TYPE` and a number (RFC 3597 5).
#[tactic(auto, using(crate::proofs::Walks::type_pushed))]
fn push_type(number: u16, out: &mut Vec<u8>) -> Result<(), AllocError>
    ensures { OnOk result
        (out.new.items ≡ out.old.items ++ token_text (type_token number)) }
{
    let mut digits = Buffer::new();
    out.extend_from_slice(b"TYPE")?;
    out.extend_from_slice(digits.format(number).as_bytes())?;
    Ok(())
}

/// Appends the type of a number and octets in the generic form: `TYPE` and the number, and the octets
/// in lower-case hexadecimal digits, parted by single blanks (RFC 3597 5).
///
/// # Errors
///
/// `AllocError`. `out` may have some of the octets.
pub fn push_generic(number: u16, octets: &[u8], out: &mut Vec<u8>) -> Result<(), AllocError>
    ensures { OnOk result
        (out.new.items ≡ out.old.items ++ text (generic_tokens number octets.now)) }
{
    let mut digits = Buffer::new();
    push_type(number, out)?;
    out.extend_from_slice(b" \\# ")?;
    out.extend_from_slice(digits.format(octets.len()).as_bytes())?;
    if octets.is_empty() {
        return Ok(());
    }
    out.push(b' ')?;
    push_hex(octets, out)
}

/// What is written anew in an entry: the octets before the type's word, the number of the type, and
/// the octets after the word.
#[derive(Clone, Copy, Debug)]
pub(crate) struct Around<'e> {
    pub(crate) front: &'e [u8],
    pub(crate) number: u16,
    pub(crate) back: &'e [u8],
}

impl Around<'_> {
    /// Appends the entry with `TYPE` and the number in place of the type's word.
    ///
    /// # Errors
    ///
    /// `AllocError`. `out` may have some of the octets.
    #[tactic(auto, using(crate::proofs::Walks::renamed_pushed))]
    pub(crate) fn push_renamed(&self, out: &mut Vec<u8>) -> Result<(), AllocError>
        ensures { OnOk result (WritesBetween self.now.front.now self.now.back.now
            (renamed self.now.number) out.old.items out.new.items) }
    {
        out.extend_from_slice(self.front)?;
        push_type(self.number, out)?;
        out.extend_from_slice(self.back)?;
        Ok(())
    }

    /// Appends the entry with the type and octets in the generic form in place of the type's word
    /// and the items after it, of which this stays.
    ///
    /// # Errors
    ///
    /// `AllocError`. `out` may have some of the octets.
    #[tactic(auto, using(crate::proofs::Walks::three_pushed))]
    pub(crate) fn push_in_octets(
        &self,
        octets: &[u8],
        staying: &[u8],
        out: &mut Vec<u8>,
    ) -> Result<(), AllocError>
        ensures { OnOk result (out.new.items ≡ out.old.items ++ (self.now.front.now
            ++ (text (generic_tokens self.now.number octets.now) ++ staying.now))) }
    {
        out.extend_from_slice(self.front)?;
        push_generic(self.number, octets, out)?;
        out.extend_from_slice(staying)?;
        Ok(())
    }
}
