//! The registered types, a row each, their numbers ascending: the further types, with the section
//! of the RFC that gives the words of each, and the rest, which stand in data alone.
ghost use Rattle.std.specs.Prelude.{◌≡◌, IfSome, IfNone, codes, map, option_copied};
ghost use Rattle.std.specs.Option.{option_map};
ghost use Rattle.zone_name.specs.Common.{NothingIs};
ghost use Rattle.zone_rdata.specs.Number.{IsCapped};
ghost use Rattle.zone_rdata.specs.Words.{IsWordAmong};
ghost use Rattle.type_data.specs.Table.{IsFurtherWord, early_types, further_in, further_of, further_type, late_types, named, registered_of, registered_type, registered_types, signed_types};

use crate::field::BareKind::{
    Algorithm, CertificateType, Eui48, Eui64, Hash, Ipv4, Name, NodeId, NotifyScheme, RecordType,
    Salt, Tag, Time, U8, U16, U32,
};
use crate::field::Field;
use crate::field::FieldKind::{
    Bare, Base64, Hex, Location, OneString, Parameters, PerhapsOneString, PerhapsTypes, Prefixes,
    QuotedValue, Strings, Types, Value,
};
use crate::fields::Fields::{self, Amtrelay, Hip, Ipseckey, Same};
use crate::mnemonics::Mnemonic;
use RegisteredType::{InWords, NameOnly};
use zone_rdata::{Row, number_of_word, row_of};

/// A type whose data is read in words here.
pub struct FurtherType {
    /// Its number (RFC 6895 3.1).
    pub number: u16,
    /// Its mnemonic, in upper case.
    pub mnemonic: &'static str,
    /// Whether it is a type of class IN alone.
    pub in_internet_alone: bool,
    /// What its data has, in order.
    pub fields: Fields,
}

/// A registered type.
pub(crate) enum RegisteredType {
    /// One whose data is read in words here.
    InWords(FurtherType),
    /// One that stands in data alone.
    NameOnly(Mnemonic),
}

impl Row for RegisteredType {
    ghost names = { λ row. named (registered_of row) };

    fn number(&self) -> u16 {
        match self {
            InWords(further) => further.number,
            NameOnly(name) => name.0,
        }
    }

    fn mnemonic(&self) -> &'static [u8] {
        match self {
            InWords(further) => further.mnemonic.as_bytes(),
            NameOnly(name) => name.1,
        }
    }
}

impl RegisteredType {
    /// The further type that it is. `None`: its data has no words here.
    fn further(&self) -> Option<&FurtherType>
        ensures { option_map further_of (option_copied result)
            ≡ further_in (registered_of self.now) }
    {
        match self {
            InWords(further) => Some(further),
            NameOnly(_) => None,
        }
    }
}

/// The number of DS, the first type of signed zones, of which most records of further types are.
const DS: u16 = 43;

/// The number of SMIMEA, the first type after those of signed zones.
const SMIMEA: u16 = 53;

/// The registered types before DS.
fn early_types() -> &'static [RegisteredType]
    ensures { map registered_of result.now ≡ early_types }
{
    EARLY_TYPES
}

/// The types of signed zones, from DS on.
fn signed_types() -> &'static [RegisteredType]
    ensures { map registered_of result.now ≡ signed_types }
{
    SIGNED_TYPES
}

/// The registered types from SMIMEA on.
fn late_types() -> &'static [RegisteredType]
    ensures { map registered_of result.now ≡ late_types }
{
    LATE_TYPES
}

/// The registered type of a number. `None`: it is that of none.
pub(crate) fn type_numbered(number: u16) -> Option<&'static RegisteredType>
    ensures { option_map registered_of (option_copied result) ≡ registered_type number }
{
    if number < DS {
        row_of(early_types(), number)
    } else if number < SMIMEA {
        row_of(signed_types(), number)
    } else {
        row_of(late_types(), number)
    }
}

/// The further type of a number. `None`: it is that of none.
fn further_type_numbered(number: u16) -> Option<&'static FurtherType>
    ensures { option_map further_of (option_copied result) ≡ further_type number }
{
    match type_numbered(number) {
        Some(row) => row.further(),
        None => None,
    }
}

/// The number of a registered type's word in any letter case: its mnemonic, or TYPE with a number,
/// at most 2 ^ 32 (RFC 3597 5). `None`: it is no such word.
pub(crate) fn number_of_type(word: &[u8]) -> Option<u64>
    ensures found { IfSome result (IsCapped (IsWordAmong registered_types (codes "TYPE") word.now)) }
    ensures none { IfNone result
        (NothingIs (IsWordAmong registered_types (codes "TYPE") word.now)) }
{
    if let Some(number) = number_of_word(signed_types(), b"TYPE", word) {
        return Some(number);
    }
    match number_of_word(early_types(), b"TYPE", word) {
        Some(number) => Some(number),
        None => number_of_word(late_types(), b"TYPE", word),
    }
}

/// The further type of a word in any letter case: its mnemonic, or TYPE with its number (RFC 3597
/// 5). `None`: it is the word of none.
pub fn further_type_of(word: &[u8]) -> Option<&'static FurtherType>
    ensures found { IfSome result (λ row. IsFurtherWord word.now (further_of row.now)) }
    ensures none { IfNone result (NothingIs (IsFurtherWord word.now)) }
{
    match number_of_type(word) {
        Some(number) => further_type_counted(number),
        None => None,
    }
}

/// The further type of a number of any size. `None`: it is that of none.
fn further_type_counted(number: u64) -> Option<&'static FurtherType>
    ensures { option_map further_of (option_copied result) ≡ further_type number }
{
    match u16::try_from(number) {
        Ok(number) => further_type_numbered(number),
        Err(_) => None,
    }
}

/// The registered types before DS (RFC 6895 3.1). The definitions have the same rows.
#[rattlefmt::skip]
static EARLY_TYPES: &[RegisteredType] = &[
    NameOnly(Mnemonic(1, b"A")),
    NameOnly(Mnemonic(2, b"NS")),
    // RFC 1035 3.3.4
    InWords(FurtherType { number: 3, mnemonic: "MD", in_internet_alone: false, fields: Same(&[
        Field("madname", Bare(Name)),
    ]) }),
    // RFC 1035 3.3.5
    InWords(FurtherType { number: 4, mnemonic: "MF", in_internet_alone: false, fields: Same(&[
        Field("madname", Bare(Name)),
    ]) }),
    NameOnly(Mnemonic(5, b"CNAME")),
    NameOnly(Mnemonic(6, b"SOA")),
    // RFC 1035 3.3.3
    InWords(FurtherType { number: 7, mnemonic: "MB", in_internet_alone: false, fields: Same(&[
        Field("madname", Bare(Name)),
    ]) }),
    // RFC 1035 3.3.6
    InWords(FurtherType { number: 8, mnemonic: "MG", in_internet_alone: false, fields: Same(&[
        Field("mgmname", Bare(Name)),
    ]) }),
    // RFC 1035 3.3.8
    InWords(FurtherType { number: 9, mnemonic: "MR", in_internet_alone: false, fields: Same(&[
        Field("newname", Bare(Name)),
    ]) }),
    NameOnly(Mnemonic(10, b"NULL")),
    NameOnly(Mnemonic(11, b"WKS")),
    NameOnly(Mnemonic(12, b"PTR")),
    // RFC 1035 3.3.2
    InWords(FurtherType { number: 13, mnemonic: "HINFO", in_internet_alone: false, fields: Same(&[
        Field("cpu", OneString), Field("os", OneString),
    ]) }),
    // RFC 1035 3.3.7
    InWords(FurtherType { number: 14, mnemonic: "MINFO", in_internet_alone: false, fields: Same(&[
        Field("rmailbx", Bare(Name)), Field("emailbx", Bare(Name)),
    ]) }),
    NameOnly(Mnemonic(15, b"MX")),
    NameOnly(Mnemonic(16, b"TXT")),
    // RFC 1183 2.2
    InWords(FurtherType { number: 17, mnemonic: "RP", in_internet_alone: false, fields: Same(&[
        Field("mailbox", Bare(Name)), Field("text", Bare(Name)),
    ]) }),
    // RFC 1183 1
    InWords(FurtherType { number: 18, mnemonic: "AFSDB", in_internet_alone: false, fields: Same(&[
        Field("subtype", Bare(U16)), Field("host", Bare(Name)),
    ]) }),
    // RFC 1183 3.1
    InWords(FurtherType { number: 19, mnemonic: "X25", in_internet_alone: false, fields: Same(&[
        Field("psdn-address", OneString),
    ]) }),
    // RFC 1183 3.2
    InWords(FurtherType { number: 20, mnemonic: "ISDN", in_internet_alone: false, fields: Same(&[
        Field("isdn-address", OneString), Field("sa", PerhapsOneString),
    ]) }),
    // RFC 1183 3.3
    InWords(FurtherType { number: 21, mnemonic: "RT", in_internet_alone: false, fields: Same(&[
        Field("preference", Bare(U16)), Field("host", Bare(Name)),
    ]) }),
    NameOnly(Mnemonic(22, b"NSAP")),
    // RFC 1348
    InWords(FurtherType { number: 23, mnemonic: "NSAP-PTR", in_internet_alone: true, fields: Same(&[
        Field("data", Bare(Name)),
    ]) }),
    // RFC 2535 4.1
    InWords(FurtherType { number: 24, mnemonic: "SIG", in_internet_alone: false, fields: Same(&[
        Field("type covered", Bare(RecordType)), Field("algorithm", Bare(Algorithm)),
        Field("labels", Bare(U8)), Field("original ttl", Bare(U32)),
        Field("expiration", Bare(Time)), Field("inception", Bare(Time)),
        Field("key tag", Bare(U16)), Field("signer", Bare(Name)), Field("signature", Base64),
    ]) }),
    // RFC 2535 3
    InWords(FurtherType { number: 25, mnemonic: "KEY", in_internet_alone: false, fields: Same(&[
        Field("flags", Bare(U16)), Field("protocol", Bare(U8)),
        Field("algorithm", Bare(Algorithm)), Field("public key", Base64),
    ]) }),
    // RFC 2163 4
    InWords(FurtherType { number: 26, mnemonic: "PX", in_internet_alone: true, fields: Same(&[
        Field("preference", Bare(U16)), Field("map822", Bare(Name)), Field("mapx400", Bare(Name)),
    ]) }),
    // RFC 1712 3
    InWords(FurtherType { number: 27, mnemonic: "GPOS", in_internet_alone: false, fields: Same(&[
        Field("longitude", OneString), Field("latitude", OneString), Field("altitude", OneString),
    ]) }),
    NameOnly(Mnemonic(28, b"AAAA")),
    // RFC 1876 3
    InWords(FurtherType { number: 29, mnemonic: "LOC", in_internet_alone: false, fields: Same(&[
        Field("data", Location),
    ]) }),
    NameOnly(Mnemonic(30, b"NXT")),
    // The IANA registry of types, 1995
    InWords(FurtherType { number: 31, mnemonic: "EID", in_internet_alone: false, fields: Same(&[
        Field("data", Hex),
    ]) }),
    // The IANA registry of types, 1995
    InWords(FurtherType { number: 32, mnemonic: "NIMLOC", in_internet_alone: false, fields: Same(&[
        Field("data", Hex),
    ]) }),
    NameOnly(Mnemonic(33, b"SRV")),
    NameOnly(Mnemonic(34, b"ATMA")),
    NameOnly(Mnemonic(35, b"NAPTR")),
    // RFC 2230 3.1
    InWords(FurtherType { number: 36, mnemonic: "KX", in_internet_alone: true, fields: Same(&[
        Field("preference", Bare(U16)), Field("exchanger", Bare(Name)),
    ]) }),
    // RFC 4398 2.2
    InWords(FurtherType { number: 37, mnemonic: "CERT", in_internet_alone: false, fields: Same(&[
        Field("type", Bare(CertificateType)), Field("key tag", Bare(U16)),
        Field("algorithm", Bare(Algorithm)), Field("certificate", Base64),
    ]) }),
    NameOnly(Mnemonic(38, b"A6")),
    // RFC 6672 2.1
    InWords(FurtherType { number: 39, mnemonic: "DNAME", in_internet_alone: false, fields: Same(&[
        Field("target", Bare(Name)),
    ]) }),
    // The IANA registry of types, 1997
    InWords(FurtherType { number: 40, mnemonic: "SINK", in_internet_alone: false, fields: Same(&[
        Field("meaning", Bare(U8)), Field("coding", Bare(U8)), Field("subcoding", Bare(U8)),
        Field("data", Base64),
    ]) }),
    // RFC 3123 4, 5
    InWords(FurtherType { number: 42, mnemonic: "APL", in_internet_alone: true, fields: Same(&[
        Field("data", Prefixes),
    ]) }),
];

/// The types of signed zones, from DS on.
#[rattlefmt::skip]
static SIGNED_TYPES: &[RegisteredType] = &[
    // RFC 4034 5.3
    InWords(FurtherType { number: 43, mnemonic: "DS", in_internet_alone: false, fields: Same(&[
        Field("key tag", Bare(U16)), Field("algorithm", Bare(Algorithm)),
        Field("digest type", Bare(U8)), Field("digest", Hex),
    ]) }),
    // RFC 4255 3.2
    InWords(FurtherType { number: 44, mnemonic: "SSHFP", in_internet_alone: false, fields: Same(&[
        Field("algorithm", Bare(U8)), Field("type", Bare(U8)), Field("fingerprint", Hex),
    ]) }),
    // RFC 4025 3
    InWords(FurtherType { number: 45, mnemonic: "IPSECKEY", in_internet_alone: false,
        fields: Ipseckey }),
    // RFC 4034 3.2
    InWords(FurtherType { number: 46, mnemonic: "RRSIG", in_internet_alone: false, fields: Same(&[
        Field("type covered", Bare(RecordType)), Field("algorithm", Bare(Algorithm)),
        Field("labels", Bare(U8)), Field("original ttl", Bare(U32)),
        Field("expiration", Bare(Time)), Field("inception", Bare(Time)),
        Field("key tag", Bare(U16)), Field("signer", Bare(Name)), Field("signature", Base64),
    ]) }),
    // RFC 4034 4.2
    InWords(FurtherType { number: 47, mnemonic: "NSEC", in_internet_alone: false, fields: Same(&[
        Field("next", Bare(Name)), Field("types", Types),
    ]) }),
    // RFC 4034 2.2
    InWords(FurtherType { number: 48, mnemonic: "DNSKEY", in_internet_alone: false, fields: Same(&[
        Field("flags", Bare(U16)), Field("protocol", Bare(U8)), Field("algorithm", Bare(Algorithm)),
        Field("public key", Base64),
    ]) }),
    // RFC 4701 3.2
    InWords(FurtherType { number: 49, mnemonic: "DHCID", in_internet_alone: true, fields: Same(&[
        Field("data", Base64),
    ]) }),
    // RFC 5155 3.3
    InWords(FurtherType { number: 50, mnemonic: "NSEC3", in_internet_alone: false, fields: Same(&[
        Field("hash algorithm", Bare(U8)), Field("flags", Bare(U8)), Field("iterations", Bare(U16)),
        Field("salt", Bare(Salt)), Field("next", Bare(Hash)), Field("types", PerhapsTypes),
    ]) }),
    // RFC 5155 4.3
    InWords(FurtherType { number: 51, mnemonic: "NSEC3PARAM", in_internet_alone: false,
        fields: Same(&[
        Field("hash algorithm", Bare(U8)), Field("flags", Bare(U8)), Field("iterations", Bare(U16)),
        Field("salt", Bare(Salt)),
    ]) }),
    // RFC 6698 2.2
    InWords(FurtherType { number: 52, mnemonic: "TLSA", in_internet_alone: false, fields: Same(&[
        Field("usage", Bare(U8)), Field("selector", Bare(U8)), Field("matching type", Bare(U8)),
        Field("data", Hex),
    ]) }),
];

/// The registered types from SMIMEA on.
#[rattlefmt::skip]
static LATE_TYPES: &[RegisteredType] = &[
    // RFC 8162 2
    InWords(FurtherType { number: 53, mnemonic: "SMIMEA", in_internet_alone: false, fields: Same(&[
        Field("usage", Bare(U8)), Field("selector", Bare(U8)), Field("matching type", Bare(U8)),
        Field("data", Hex),
    ]) }),
    // RFC 8005 6
    InWords(FurtherType { number: 55, mnemonic: "HIP", in_internet_alone: false, fields: Hip }),
    // The IANA registry of types, 2008
    InWords(FurtherType { number: 56, mnemonic: "NINFO", in_internet_alone: false, fields: Same(&[
        Field("data", Strings),
    ]) }),
    // The IANA registry of types, 2008
    InWords(FurtherType { number: 57, mnemonic: "RKEY", in_internet_alone: false, fields: Same(&[
        Field("flags", Bare(U16)), Field("protocol", Bare(U8)),
        Field("algorithm", Bare(Algorithm)), Field("public key", Base64),
    ]) }),
    // The IANA registry of types, 2010
    InWords(FurtherType { number: 58, mnemonic: "TALINK", in_internet_alone: false, fields: Same(&[
        Field("previous", Bare(Name)), Field("next", Bare(Name)),
    ]) }),
    // RFC 7344 3.1
    InWords(FurtherType { number: 59, mnemonic: "CDS", in_internet_alone: false, fields: Same(&[
        Field("key tag", Bare(U16)), Field("algorithm", Bare(Algorithm)),
        Field("digest type", Bare(U8)), Field("digest", Hex),
    ]) }),
    // RFC 7344 3.2
    InWords(FurtherType { number: 60, mnemonic: "CDNSKEY", in_internet_alone: false, fields: Same(&[
        Field("flags", Bare(U16)), Field("protocol", Bare(U8)), Field("algorithm", Bare(Algorithm)),
        Field("public key", Base64),
    ]) }),
    // RFC 7929 2.3
    InWords(FurtherType { number: 61, mnemonic: "OPENPGPKEY", in_internet_alone: false,
        fields: Same(&[
        Field("key", Base64),
    ]) }),
    // RFC 7477 2.1.2
    InWords(FurtherType { number: 62, mnemonic: "CSYNC", in_internet_alone: false, fields: Same(&[
        Field("serial", Bare(U32)), Field("flags", Bare(U16)), Field("types", PerhapsTypes),
    ]) }),
    // RFC 8976 2.3
    InWords(FurtherType { number: 63, mnemonic: "ZONEMD", in_internet_alone: false, fields: Same(&[
        Field("serial", Bare(U32)), Field("scheme", Bare(U8)), Field("hash algorithm", Bare(U8)),
        Field("digest", Hex),
    ]) }),
    // RFC 9460 2.1
    InWords(FurtherType { number: 64, mnemonic: "SVCB", in_internet_alone: true, fields: Same(&[
        Field("priority", Bare(U16)), Field("target", Bare(Name)), Field("parameters", Parameters),
    ]) }),
    // RFC 9460 9
    InWords(FurtherType { number: 65, mnemonic: "HTTPS", in_internet_alone: true, fields: Same(&[
        Field("priority", Bare(U16)), Field("target", Bare(Name)), Field("parameters", Parameters),
    ]) }),
    // RFC 9859 2.1
    InWords(FurtherType { number: 66, mnemonic: "DSYNC", in_internet_alone: false, fields: Same(&[
        Field("rrtype", Bare(RecordType)), Field("scheme", Bare(NotifyScheme)),
        Field("port", Bare(U16)), Field("target", Bare(Name)),
    ]) }),
    NameOnly(Mnemonic(67, b"HHIT")),
    NameOnly(Mnemonic(68, b"BRID")),
    // RFC 4408 3.1.1
    InWords(FurtherType { number: 99, mnemonic: "SPF", in_internet_alone: false, fields: Same(&[
        Field("data", Strings),
    ]) }),
    NameOnly(Mnemonic(100, b"UINFO")),
    NameOnly(Mnemonic(101, b"UID")),
    NameOnly(Mnemonic(102, b"GID")),
    NameOnly(Mnemonic(103, b"UNSPEC")),
    // RFC 6742 2.1
    InWords(FurtherType { number: 104, mnemonic: "NID", in_internet_alone: false, fields: Same(&[
        Field("preference", Bare(U16)), Field("nodeid", Bare(NodeId)),
    ]) }),
    // RFC 6742 2.2
    InWords(FurtherType { number: 105, mnemonic: "L32", in_internet_alone: false, fields: Same(&[
        Field("preference", Bare(U16)), Field("locator32", Bare(Ipv4)),
    ]) }),
    // RFC 6742 2.3
    InWords(FurtherType { number: 106, mnemonic: "L64", in_internet_alone: false, fields: Same(&[
        Field("preference", Bare(U16)), Field("locator64", Bare(NodeId)),
    ]) }),
    // RFC 6742 2.4
    InWords(FurtherType { number: 107, mnemonic: "LP", in_internet_alone: false, fields: Same(&[
        Field("preference", Bare(U16)), Field("fqdn", Bare(Name)),
    ]) }),
    // RFC 7043 3.2
    InWords(FurtherType { number: 108, mnemonic: "EUI48", in_internet_alone: false, fields: Same(&[
        Field("address", Bare(Eui48)),
    ]) }),
    // RFC 7043 4.2
    InWords(FurtherType { number: 109, mnemonic: "EUI64", in_internet_alone: false, fields: Same(&[
        Field("address", Bare(Eui64)),
    ]) }),
    // RFC 7553 4.4
    InWords(FurtherType { number: 256, mnemonic: "URI", in_internet_alone: false, fields: Same(&[
        Field("priority", Bare(U16)), Field("weight", Bare(U16)), Field("target", QuotedValue),
    ]) }),
    // RFC 8659 4.1.1
    InWords(FurtherType { number: 257, mnemonic: "CAA", in_internet_alone: false, fields: Same(&[
        Field("flags", Bare(U8)), Field("tag", Bare(Tag)), Field("value", Value),
    ]) }),
    NameOnly(Mnemonic(258, b"AVC")),
    NameOnly(Mnemonic(259, b"DOA")),
    // RFC 8777 4.3
    InWords(FurtherType { number: 260, mnemonic: "AMTRELAY", in_internet_alone: false,
        fields: Amtrelay }),
    // RFC 9606 4
    InWords(FurtherType { number: 261, mnemonic: "RESINFO", in_internet_alone: false,
        fields: Same(&[
        Field("data", Strings),
    ]) }),
    // The IANA registry of types, 2024
    InWords(FurtherType { number: 262, mnemonic: "WALLET", in_internet_alone: false, fields: Same(&[
        Field("data", Strings),
    ]) }),
    NameOnly(Mnemonic(263, b"CLA")),
    NameOnly(Mnemonic(264, b"IPN")),
    // The IANA registry of types, 2005
    InWords(FurtherType { number: 32768, mnemonic: "TA", in_internet_alone: false, fields: Same(&[
        Field("key tag", Bare(U16)), Field("algorithm", Bare(Algorithm)),
        Field("digest type", Bare(U8)), Field("digest", Hex),
    ]) }),
    // RFC 4431 2
    InWords(FurtherType { number: 32769, mnemonic: "DLV", in_internet_alone: false, fields: Same(&[
        Field("key tag", Bare(U16)), Field("algorithm", Bare(Algorithm)),
        Field("digest type", Bare(U8)), Field("digest", Hex),
    ]) }),
];
