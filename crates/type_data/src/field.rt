//! The fields of a type's data: what they are called, and what their items state.
ghost use Rattle.std.specs.Prelude.{◌≡◌, map, IfErr, OnOk};
ghost use Rattle.zone_rdata.specs.Item.{raw};
ghost use Rattle.type_data.specs.DataItem.{given, raw_item};
ghost use Rattle.type_data.specs.Fault.{AppendsStated, IfFault};
ghost use Rattle.type_data.specs.EachItem.{EachStates, OneFails};
ghost use Rattle.type_data.specs.Field.{FailsBare, StatesBare, field_meaning, own_count, quoted_fault, takes_one, text_meaning};
ghost use Rattle.type_data.specs.FirstItem.{FirstFails, FirstStates};

use crate::data_item::DataItem;
use crate::fault::{WordsFailing, WordsFault};
use crate::kinds::{
    Version, read_address, read_address_type, read_algorithm, read_base64, read_certificate_type,
    read_counted_digits, read_discovery, read_eui48, read_eui64, read_first_quoted_value,
    read_first_string, read_first_value, read_hash, read_hex, read_location, read_name,
    read_no_address, read_node_id, read_nothing, read_notify_scheme, read_perhaps_string,
    read_perhaps_types, read_prefixes, read_public_key, read_salt, read_strings, read_tag,
    read_time, read_type, read_types, read_u8, read_u16, read_u32,
};
use crate::parameters::read_parameters;
use zone_name::CasedName;
use zone_rdata::Item;

/// What the text of one bare item states.
#[derive(Clone, Copy, Debug, PartialEq, Eq)]
pub enum BareKind {
    /// A number of 8 bits in decimal digits.
    U8,
    /// A number of 16 bits in decimal digits.
    U16,
    /// A number of 32 bits in decimal digits.
    U32,
    /// An algorithm of DNSSEC, in digits or by its mnemonic (RFC 4034 A.1).
    Algorithm,
    /// The type of a certificate, in digits or by its mnemonic (RFC 4398 2.1).
    CertificateType,
    /// The scheme of DSYNC, in digits or by its mnemonic (RFC 9859 2.1).
    NotifyScheme,
    /// A type by its word (RFC 4034 3.1.1).
    RecordType,
    /// A time in seconds, or a date and a time of day (RFC 4034 3.2).
    Time,
    /// A domain name (RFC 1035 5.1).
    Name,
    /// Hexadecimal digits, after the number of their octets, or `-` (RFC 5155 3.3).
    Salt,
    /// Base32hex, after the number of its octets (RFC 5155 3.3).
    Hash,
    /// Letters and digits, after their number (RFC 8659 4.1).
    Tag,
    /// An address of four octets (RFC 1035 3.4.1).
    Ipv4,
    /// An address of sixteen octets (RFC 4291 2.2).
    Ipv6,
    /// Which kind of address a gateway or a relay is, in an octet whose highest bit is set where
    /// its discovery is optional (RFC 4025 2.3, RFC 8777 4.2.3).
    AddressType(bool),
    /// Whether that bit is set, in digits (RFC 8777 4.2.2).
    Discovery,
    /// A dot where no address is due (RFC 4025 3.1, RFC 8777 4.3.1).
    NoAddress,
    /// Four groups of hexadecimal digits (RFC 6742 2.1.2).
    NodeId,
    /// Six pairs of hexadecimal digits (RFC 7043 3.2).
    Eui48,
    /// Eight pairs of hexadecimal digits (RFC 7043 4.2).
    Eui64,
    /// Hexadecimal digits, after the number of their octets (RFC 8005 6).
    HostIdentityTag,
    /// Base64, after the number of its octets, which has two (RFC 8005 6).
    PublicKey,
}

/// What the items of a field state.
#[derive(Clone, Copy, Debug, PartialEq, Eq)]
pub enum FieldKind {
    /// One bare item.
    Bare(BareKind),
    /// Bare items up to the end, or none.
    Each(BareKind),
    /// A character-string, bare or quoted (RFC 1035 3.3).
    OneString,
    /// A character-string that may be left out.
    PerhapsOneString,
    /// The octets of one item, bare or quoted, without their number (RFC 8659 4.1).
    Value,
    /// The octets of one quoted item, without their number (RFC 7553 4.4).
    QuotedValue,
    /// One character-string or more, up to the end.
    Strings,
    /// Hexadecimal digits, up to the end.
    Hex,
    /// Base64, up to the end (RFC 4648 4).
    Base64,
    /// One type or more by their words, up to the end (RFC 4034 4.1.2).
    Types,
    /// Types by their words, or none, up to the end (RFC 5155 3.2.1).
    PerhapsTypes,
    /// Prefixes of addresses, up to the end, or none (RFC 3123 5).
    Prefixes,
    /// A location, up to the end (RFC 1876 3).
    Location,
    /// No items (RFC 4025 2.6).
    Nothing,
    /// The parameters of a service, up to the end (RFC 9460 2.1).
    Parameters,
}

/// A field: its name in the RFC of its type, in lower case, and what its items state.
#[derive(Clone, Copy, Debug)]
pub struct Field(pub &'static str, pub FieldKind);

impl BareKind {
    /// What is wrong with a quoted item.
    fn quoted_fault(self) -> WordsFault
        ensures { result ≡ quoted_fault self }
    {
        match self {
            BareKind::U8
            | BareKind::U16
            | BareKind::U32
            | BareKind::Algorithm
            | BareKind::CertificateType
            | BareKind::NotifyScheme
            | BareKind::AddressType(_)
            | BareKind::Discovery => WordsFault::NotANumber,
            BareKind::RecordType => WordsFault::NotAType,
            BareKind::Time => WordsFault::NotATime,
            BareKind::Name | BareKind::NoAddress => WordsFault::NotAName(None),
            BareKind::Salt | BareKind::HostIdentityTag => WordsFault::NoHexadecimal,
            BareKind::Hash => WordsFault::NoBase32Hex,
            BareKind::PublicKey => WordsFault::NoBase64,
            BareKind::Tag => WordsFault::NotATag,
            BareKind::Ipv4
            | BareKind::Ipv6
            | BareKind::NodeId
            | BareKind::Eui48
            | BareKind::Eui64 => WordsFault::NotAnAddress,
        }
    }

    /// Appends the octets that a bare item's text states.
    ///
    /// # Errors
    ///
    /// What is wrong with the text, and want of memory. `out` may have got some octets.
    fn read(self, text: &[u8], origin: &CasedName, out: &mut Vec<u8>) -> Result<(), WordsFailing>
        ensures states { OnOk result
            (AppendsStated ((text_meaning origin.now self).States text.now) out.old.items
            out.new.items) }
        ensures fault { IfErr result (IfFault ((text_meaning origin.now self).Fails text.now)) }
    {
        match self {
            BareKind::U8 => read_u8(text, out),
            BareKind::U16 => read_u16(text, out),
            BareKind::U32 => read_u32(text, out),
            BareKind::Algorithm => read_algorithm(text, out),
            BareKind::CertificateType => read_certificate_type(text, out),
            BareKind::NotifyScheme => read_notify_scheme(text, out),
            BareKind::RecordType => read_type(text, out),
            BareKind::Time => read_time(text, out),
            BareKind::Name => read_name(text, origin, out),
            BareKind::Salt => read_salt(text, out),
            BareKind::Hash => read_hash(text, out),
            BareKind::Tag => read_tag(text, out),
            BareKind::Ipv4 => read_address(Version::V4, text, WordsFault::NotAnAddress, out),
            BareKind::Ipv6 => read_address(Version::V6, text, WordsFault::NotAnAddress, out),
            BareKind::AddressType(optional) => read_address_type(text, optional, out),
            BareKind::Discovery => read_discovery(text, out),
            BareKind::NoAddress => read_no_address(text, out),
            BareKind::NodeId => read_node_id(text, out),
            BareKind::Eui48 => read_eui48(text, out),
            BareKind::Eui64 => read_eui64(text, out),
            BareKind::HostIdentityTag => read_counted_digits(text, out),
            BareKind::PublicKey => read_public_key(text, out),
        }
    }

    /// Appends the octets that an item states, which has to be bare.
    ///
    /// # Errors
    ///
    /// What is wrong with it, and want of memory. `out` may have got some octets.
    fn read_item(
        self,
        item: Item,
        origin: &CasedName,
        out: &mut Vec<u8>,
    ) -> Result<(), WordsFailing>
        ensures states { OnOk result
            (AppendsStated (StatesBare origin.now self (raw item.entry)) out.old.items
            out.new.items) }
        ensures fault { IfErr result (IfFault (FailsBare origin.now self (raw item.entry))) }
    {
        match item {
            Item::Bare(text) => self.read(text, origin, out),
            Item::Quoted(_) => Err(WordsFailing::Fault(self.quoted_fault())),
        }
    }

    /// Appends the octets that the first item states, which has to be bare.
    ///
    /// # Errors
    ///
    /// `NothingLeft` where there is no item, what is wrong with it, and want of memory. `out` may
    /// have got some octets.
    fn read_first(
        self,
        items: &[DataItem],
        origin: &CasedName,
        out: &mut Vec<u8>,
    ) -> Result<(), WordsFailing>
        ensures states { OnOk result
            (AppendsStated (FirstStates (StatesBare origin.now self) (map raw_item items.now))
            out.old.items out.new.items) }
        ensures fault { IfErr result
            (IfFault (FirstFails (FailsBare origin.now self) (map raw_item items.now))) }
    {
        match items.first() {
            Some(first) => self.read_item(first.item, origin, out),
            None => Err(WordsFailing::Fault(WordsFault::NothingLeft)),
        }
    }

    /// Appends the octets that each item states, which have to be bare.
    ///
    /// # Errors
    ///
    /// What is wrong with the leftmost item that states none, and want of memory. `out` may have
    /// got some octets.
    fn read_each(
        self,
        items: &[DataItem],
        origin: &CasedName,
        out: &mut Vec<u8>,
    ) -> Result<(), WordsFailing>
        ensures states { OnOk result
            (AppendsStated (EachStates (StatesBare origin.now self) (map raw_item items.now))
            out.old.items out.new.items) }
        ensures fault { IfErr result
            (IfFault (OneFails (StatesBare origin.now self) (FailsBare origin.now self)
            (map raw_item items.now))) }
    {
        for item in items {
            self.read_item(item.item, origin, out)?;
        }
        Ok(())
    }
}

impl FieldKind {
    /// Whether the field has one item at most, and not all that are left.
    fn takes_one(self) -> bool
        ensures { result ≡ takes_one self }
    {
        matches!(
            self,
            FieldKind::Bare(_)
                | FieldKind::OneString
                | FieldKind::PerhapsOneString
                | FieldKind::Value
                | FieldKind::QuotedValue
        )
    }

    /// How many items are the field's own, where so many are left.
    pub(crate) fn count_of(self, left: usize) -> usize
        ensures { result ≡ own_count self left }
    {
        if self.takes_one() { left.min(1) } else { left }
    }

    /// Appends the octets that the field's own items state.
    ///
    /// # Errors
    ///
    /// What is wrong with the items, and want of memory. `out` may have got some octets.
    pub(crate) fn read(
        self,
        items: &[DataItem],
        origin: &CasedName,
        out: &mut Vec<u8>,
    ) -> Result<(), WordsFailing>
        ensures states { OnOk result
            (AppendsStated ((field_meaning origin.now self).States
            (map raw_item items.now, map given items.now)) out.old.items out.new.items) }
        ensures fault { IfErr result
            (IfFault ((field_meaning origin.now self).Fails
            (map raw_item items.now, map given items.now))) }
    {
        match self {
            FieldKind::Bare(kind) => kind.read_first(items, origin, out),
            FieldKind::Each(kind) => kind.read_each(items, origin, out),
            FieldKind::OneString => read_first_string(items, out),
            FieldKind::PerhapsOneString => read_perhaps_string(items, out),
            FieldKind::Value => read_first_value(items, out),
            FieldKind::QuotedValue => read_first_quoted_value(items, out),
            FieldKind::Strings => read_strings(items, out),
            FieldKind::Hex => read_hex(items, out),
            FieldKind::Base64 => read_base64(items, out),
            FieldKind::Types => read_types(items, out),
            FieldKind::PerhapsTypes => read_perhaps_types(items, out),
            FieldKind::Prefixes => read_prefixes(items, out),
            FieldKind::Location => read_location(items, out),
            FieldKind::Nothing => read_nothing(items, out),
            FieldKind::Parameters => read_parameters(items, out),
        }
    }
}
