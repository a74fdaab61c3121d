//! The words that are printed for the octets of a field.
ghost use Rattle.std.specs.Prelude.{◌≡◌, [], IfErr, IfOk, OnOk, true};
ghost use Rattle.type_data.specs.Machine.PrintedFields.{HasNoOwn, PrintsOwn, prints_all};
ghost use Rattle.type_data.specs.Parameters.Printed.{PrintsTouching};
ghost use Rattle.type_data.specs.Printed.{IfNoData, NoFront, PrintsFront};
ghost use Rattle.type_data.specs.PrintedData.{PrintsBare, PrintsField, StatesSomewhere};
ghost use Rattle.type_data.specs.declared.field.FieldKind.TheVariants as kinds;

use crate::field::{BareKind, FieldKind};
use crate::kinds::{
    Version, print_address, print_address_type, print_algorithm, print_base64_item,
    print_certificate_type, print_discovery, print_eui, print_hash, print_hex,
    print_host_identity_tag, print_location, print_name, print_no_address, print_node_id,
    print_notify_scheme, print_perhaps_types, print_prefixes, print_public_key, print_salt,
    print_string, print_strings, print_tag, print_time, print_type, print_types, print_u8,
    print_u16, print_u32, print_value_item,
};
use crate::parameters::print_parameters;
use crate::unprinted::Unprinted;

impl BareKind {
    /// Appends the text of the octets at the front, and gives what is left.
    ///
    /// # Errors
    ///
    /// `NoData` where no text states octets at the front, and `OutOfMemory`. `out` may have got some
    /// of the text.
    pub(crate) fn print<'o>(
        self,
        octets: &'o [u8],
        out: &mut Vec<u8>,
    ) -> Result<&'o [u8], Unprinted>
        ensures printed { IfOk result (λ rest.
            PrintsFront (PrintsBare self) (StatesSomewhere self) octets.now rest.now out.old.items
            out.new.items) }
        ensures none { IfErr result (IfNoData (NoFront (StatesSomewhere self) octets.now)) }
    {
        match self {
            BareKind::U8 => print_u8(octets, out),
            BareKind::U16 => print_u16(octets, out),
            BareKind::U32 => print_u32(octets, out),
            BareKind::Algorithm => print_algorithm(octets, out),
            BareKind::CertificateType => print_certificate_type(octets, out),
            BareKind::NotifyScheme => print_notify_scheme(octets, out),
            BareKind::RecordType => print_type(octets, out),
            BareKind::Time => print_time(octets, out),
            BareKind::Name => print_name(octets, out),
            BareKind::Salt => print_salt(octets, out),
            BareKind::Hash => print_hash(octets, out),
            BareKind::Tag => print_tag(octets, out),
            BareKind::Ipv4 => print_address(Version::V4, octets, out),
            BareKind::Ipv6 => print_address(Version::V6, octets, out),
            BareKind::AddressType(optional) => print_address_type(octets, optional, out),
            BareKind::Discovery => print_discovery(octets, out),
            BareKind::NoAddress => print_no_address(octets, out),
            BareKind::NodeId => print_node_id(octets, out),
            BareKind::Eui48 => print_eui(octets, 6, out),
            BareKind::Eui64 => print_eui(octets, 8, out),
            BareKind::HostIdentityTag => print_host_identity_tag(octets, out),
            BareKind::PublicKey => print_public_key(octets, out),
        }
    }

    /// Appends the texts of all octets, a blank before each.
    ///
    /// # Errors
    ///
    /// `NoData` where no texts state the octets, and `OutOfMemory`. `out` may have got some texts.
    fn print_each(self, octets: &[u8], out: &mut Vec<u8>) -> Result<(), Unprinted>
        ensures printed { OnOk result (PrintsTouching (PrintsField (kinds.Each self))
            octets.now out.old.items out.new.items) }
        ensures none { IfErr result (IfNoData (HasNoOwn (kinds.Each self) octets.now)) }
    {
        let mut rest = octets;
        while !rest.is_empty() {
            out.push(b' ')?;
            let after = self.print(rest, out)?;
            if after.len() == rest.len() {
                return Err(Unprinted::NoData);
            }
            rest = after;
        }
        Ok(())
    }

    /// Appends the text at the front, after a blank, and gives what is left.
    ///
    /// # Errors
    ///
    /// Those of `print`.
    fn print_first<'o>(self, octets: &'o [u8], out: &mut Vec<u8>) -> Result<&'o [u8], Unprinted>
        ensures printed { IfOk result (λ rest. PrintsOwn (kinds.Bare self) octets.now rest.now
            out.old.items out.new.items) }
        ensures none { IfErr result (IfNoData (HasNoOwn (kinds.Bare self) octets.now)) }
    {
        out.push(b' ')?;
        self.print(octets, out)
    }
}

/// Appends the string at the front, after a blank, and gives what is left.
///
/// # Errors
///
/// `NoData` where no string is there, and `OutOfMemory`.
fn print_one_string<'o>(octets: &'o [u8], out: &mut Vec<u8>) -> Result<&'o [u8], Unprinted>
    ensures printed { IfOk result (λ rest. PrintsOwn kinds.OneString octets.now rest.now
        out.old.items out.new.items) }
    ensures none { IfErr result (IfNoData (HasNoOwn kinds.OneString octets.now)) }
{
    out.push(b' ')?;
    print_string(octets, out)
}

/// Appends the string that all octets are, after a blank, or nothing where there are none.
///
/// # Errors
///
/// `NoData` where the octets are more than a string, or less, and `OutOfMemory`.
fn print_perhaps_string(octets: &[u8], out: &mut Vec<u8>) -> Result<(), Unprinted>
    ensures printed { OnOk result (PrintsTouching (PrintsField kinds.PerhapsOneString)
        octets.now out.old.items out.new.items) }
    ensures none { IfErr result (IfNoData (HasNoOwn kinds.PerhapsOneString octets.now)) }
{
    if octets.is_empty() {
        return Ok(());
    }
    let rest = print_one_string(octets, out)?;
    if rest.is_empty() {
        Ok(())
    } else {
        Err(Unprinted::NoData)
    }
}

/// Whether there are no octets.
///
/// # Errors
///
/// `NoData` where there are some.
fn print_nothing(octets: &[u8]) -> Result<(), Unprinted>
    ensures done { OnOk result (octets.now ≡ []) }
    ensures none { IfErr result (IfNoData (HasNoOwn kinds.Nothing octets.now)) }
{
    match octets {
        [] => Ok(()),
        _ => Err(Unprinted::NoData),
    }
}

impl FieldKind {
    /// Appends the words of a field that is printed for all octets, a blank before each item that
    /// touches no other.
    ///
    /// # Errors
    ///
    /// `NoData` where no items state the octets, and `OutOfMemory`. `out` may have got some words.
    fn print_all(self, octets: &[u8], out: &mut Vec<u8>) -> Result<(), Unprinted>
        requires { prints_all self ≡ true }
        ensures printed { OnOk result
            (PrintsTouching (PrintsField self) octets.now out.old.items out.new.items) }
        ensures none { IfErr result (IfNoData (HasNoOwn self octets.now)) }
    {
        match self {
            FieldKind::Value => print_value_item(octets, out),
            FieldKind::QuotedValue => print_value_item(octets, out),
            FieldKind::Hex => print_hex(octets, out),
            FieldKind::Base64 => print_base64_item(octets, out),
            FieldKind::Strings => print_strings(octets, out),
            FieldKind::Types => print_types(octets, out),
            FieldKind::PerhapsTypes => print_perhaps_types(octets, out),
            FieldKind::Prefixes => print_prefixes(octets, out),
            FieldKind::Location => print_location(octets, out),
            FieldKind::Parameters => print_parameters(octets, out),
            FieldKind::Nothing => print_nothing(octets),
            FieldKind::Each(kind) => kind.print_each(octets, out),
            FieldKind::PerhapsOneString => print_perhaps_string(octets, out),
            // Neither is printed for all octets.
            FieldKind::Bare(_) => Err(Unprinted::NoData),
            FieldKind::OneString => Err(Unprinted::NoData),
        }
    }

    /// Appends the words of the field's part at the front, a blank before each item that touches no
    /// other, and gives what is left.
    ///
    /// # Errors
    ///
    /// `NoData` where no items state such a part, and `OutOfMemory`. `out` may have got some words.
    pub(crate) fn print<'o>(
        self,
        octets: &'o [u8],
        out: &mut Vec<u8>,
    ) -> Result<&'o [u8], Unprinted>
        ensures printed { IfOk result (λ rest.
            PrintsOwn self octets.now rest.now out.old.items out.new.items) }
        ensures none { IfErr result (IfNoData (HasNoOwn self octets.now)) }
    {
        match self {
            FieldKind::Bare(kind) => kind.print_first(octets, out),
            FieldKind::OneString => print_one_string(octets, out),
            _ => {
                self.print_all(octets, out)?;
                Ok(&[])
            }
        }
    }
}
