//! Prefixes of addresses (RFC 3123).
ghost use Rattle.std.specs.Prelude.{◌≡◌, ◌-◌, ◌*◌, ◌<◌, ◌≤◌, ◌++◌, length, map, replicate, IfErr, IfNone, IfOk, IfSome, OnOk};
ghost use Rattle.zone_name.specs.Common.{NothingIs};
ghost use Rattle.zone_rdata.specs.Item.{raw};
ghost use Rattle.zone_rdata.specs.Number.{IsDecimal};
ghost use Rattle.type_data.specs.DataItem.{raw_item};
ghost use Rattle.type_data.specs.Fault.{AppendsStated, IfFault};
ghost use Rattle.type_data.specs.Kinds.Prefixes.{FailsPrefixes, IsAPrefix, IsAddressText, IsPrefixOctets, PrintsPrefix, PrintsPrefixes, SpellsPrefix, StatesPrefixes, address_text, family_of, mark, octets_of, prefix_text, sign};
ghost use Rattle.type_data.specs.Kinds.Prefixes.Machine.{BeginsWithPrefix, IsAddressIn, IsAfterMark, IsItemPrefix};
ghost use Rattle.type_data.specs.Printed.{IfNoData, NoFront, NoItems, PrintsAll, PrintsFront};

use super::bitmap::trimmed_len;
use super::number::print_decimal;
use crate::cut::{cut_at_first, cut_at_last};
use crate::data_item::DataItem;
use crate::fault::{WordsFailing, WordsFault};
use crate::taking::{take, take_u8, take_u16};
use crate::unprinted::Unprinted;
use std::alloc::AllocError;
use zone_rdata::{Item, decimal_of, ipv4_octets_of, ipv6_octets_of, push_ipv4, push_ipv6};

/// An address of one of the two families that have texts (RFC 3123 4).
#[derive(Clone, Copy)]
enum Address {
    /// Of family 1.
    Ipv4([u8; 4]),
    /// Of family 2.
    Ipv6([u8; 16]),
}

/// An address prefix.
#[derive(Clone, Copy)]
struct Prefix {
    /// Its addresses are left out of the prefixes beside it.
    negated: bool,
    /// The address, whose bits beyond the prefix may be set.
    address: Address,
    /// How many bits of the address are the prefix.
    bits: u8,
}

impl Address {
    /// The number of the family.
    fn family(&self) -> u16
        ensures { result ≡ family_of self.now }
    {
        match self {
            Address::Ipv4(_) => 1,
            Address::Ipv6(_) => 2,
        }
    }

    /// The address's four or sixteen octets.
    fn octets(&self) -> &[u8]
        ensures octets { result.now ≡ octets_of self.now }
        ensures few { length result.now ≤ 16 }
    {
        match self {
            Address::Ipv4(octets) => octets,
            Address::Ipv6(octets) => octets,
        }
    }
}

/// Appends the prefixes that items are, of any number of items.
///
/// # Errors
///
/// `NoPrefix` where an item is quoted, or no prefix; and `OutOfMemory`. `out` may have got some of
/// the octets.
pub(crate) fn read_prefixes(items: &[DataItem], out: &mut Vec<u8>) -> Result<(), WordsFailing>
    ensures states { OnOk result
        (AppendsStated (StatesPrefixes (map raw_item items.now)) out.old.items out.new.items) }
    ensures fault { IfErr result (IfFault (FailsPrefixes (map raw_item items.now))) }
{
    for item in items {
        let Some(prefix) = prefix_of_item(item.item) else {
            return Err(WordsFailing::Fault(WordsFault::NoPrefix));
        };
        read_prefix(prefix, out)?;
    }
    Ok(())
}

/// Appends a prefix: the zeros that end its address are left out (RFC 3123 4).
#[tactic(auto, using(crate::proofs::OfKinds::Prefixes::Once::prefix_appended))]
fn read_prefix(prefix: Prefix, out: &mut Vec<u8>) -> Result<(), AllocError>
    ensures { OnOk result (AppendsStated (IsPrefixOctets prefix) out.old.items out.new.items) }
{
    let octets = prefix.address.octets();
    let len = trimmed_len(octets);
    out.extend_from_slice(&prefix.address.family().to_be_bytes())?;
    out.extend_from_slice(&[prefix.bits, sign(prefix.negated) + len as u8])?;
    out.extend_from_slice(&octets[..len])?;
    Ok(())
}

/// The highest bit before the count of the address's octets.
fn sign(negated: bool) -> u8
    ensures value { result ≡ sign negated }
    ensures few { result ≤ 128 }
{
    if negated { 128 } else { 0 }
}

/// The prefix that an item is. `None`: it is quoted, or no prefix.
fn prefix_of_item(item: Item) -> Option<Prefix>
    ensures found { IfSome result (IsItemPrefix (raw item.entry)) }
    ensures none { IfNone result (NothingIs (IsItemPrefix (raw item.entry))) }
{
    match item {
        Item::Bare(text) => prefix_of(text),
        Item::Quoted(_) => None,
    }
}

/// The prefix of a text, as `!1:192.168.38.0/28`. `None`: it is none.
fn prefix_of(text: &[u8]) -> Option<Prefix>
    ensures found { IfSome result (SpellsPrefix text.now) }
    ensures none { IfNone result (NothingIs (SpellsPrefix text.now)) }
{
    let (front, len) = cut_at_last(text, b'/')?;
    let (negated, front) = after_mark(front);
    let (family, address) = cut_at_first(front, b':')?;
    let address = address_of(family, address)?;
    let bits = bits_of(len, address)?;
    Some(Prefix {
        negated,
        address,
        bits,
    })
}

/// Whether the text begins with `!`, and what is after it.
fn after_mark(text: &[u8]) -> (bool, &[u8])
    ensures { IsAfterMark text.now result.0 result.1.now }
{
    match text {
        [b'!', rest @ ..] => (true, rest),
        _ => (false, text),
    }
}

/// The address of a family, of which the number is in digits. `None`: it is none, or the family is
/// another.
#[tactic(auto, using(crate::proofs::OfKinds::Prefixes::Once::no_ipv6))]
fn address_of(family: &[u8], text: &[u8]) -> Option<Address>
    ensures found { IfSome result
        (λ address. IsDecimal family.now (family_of address) × IsAddressText text.now address) }
    ensures none { IfNone result (NothingIs
        (λ address. IsDecimal family.now (family_of address) × IsAddressText text.now address)) }
{
    match decimal_of(family)? {
        1 => Some(Address::Ipv4(ipv4_octets_of(text)?)),
        2 => Some(Address::Ipv6(ipv6_octets_of(text)?)),
        _ => None,
    }
}

/// The length of a prefix in digits. `None`: it is none, or the address has fewer bits.
fn bits_of(text: &[u8], address: Address) -> Option<u8>
    ensures found { IfSome result
        (λ n. IsDecimal text.now n × (n ≤ 8 * length (octets_of address))) }
    ensures none { IfNone result (NothingIs
        (λ n. IsDecimal text.now n × (n ≤ 8 * length (octets_of address)))) }
{
    let bits = decimal_of(text)?;
    if bits > 8 * address.octets().len() as u64 {
        return None;
    }
    Some(bits as u8)
}

/// The prefix at the front (RFC 3123 4), and what is left.
///
/// # Errors
///
/// `NoData` where no item states one there: the octets end before, the family is another, there are
/// more octets than the address has or a zero ends them, or the prefix is longer than the address.
fn take_prefix(octets: &[u8]) -> Result<(Prefix, &[u8]), Unprinted>
    ensures left { IfOk result (λ parts. length parts.1.now < length octets.now) }
    ensures front { IfOk result (λ parts. BeginsWithPrefix octets.now parts.0 parts.1.now) }
    ensures none { IfErr result (IfNoData (NoFront IsAPrefix octets.now)) }
{
    let (family, rest) = take_u16(octets)?;
    let (bits, rest) = take_u8(rest)?;
    let (count, rest) = take_u8(rest)?;
    let (part, rest) = take(rest, usize::from(count % 128))?;
    let Some(address) = address_in(family, part) else {
        return Err(Unprinted::NoData);
    };
    if usize::from(bits) > 8 * address.octets().len() {
        return Err(Unprinted::NoData);
    }
    let prefix = Prefix {
        negated: count >= 128,
        address,
        bits,
    };
    Ok((prefix, rest))
}

/// The address of a family, of which the zeros that end it are left out (RFC 3123 4). `None`: the
/// octets are those of none.
fn address_in(family: u16, part: &[u8]) -> Option<Address>
    ensures found { IfSome result (IsAddressIn family part.now) }
    ensures none { IfNone result (NothingIs (IsAddressIn family part.now)) }
{
    if trimmed_len(part) < part.len() {
        return None;
    }
    match family {
        1 => Some(Address::Ipv4(filled(part)?)),
        2 => Some(Address::Ipv6(filled(part)?)),
        _ => None,
    }
}

/// Octets with zeros after them, so many in all. `None`: they are more.
fn filled<const N: usize>(part: &[u8]) -> Option<[u8; N]>
    ensures some { IfSome result (λ whole. whole
        ≡ part.now ++ replicate (N - length part.now) 0) }
    ensures none { IfNone result (N < length part.now) }
{
    if part.len() > N {
        return None;
    }
    let mut whole = [0; N];
    whole[..part.len()].copy_from_slice(part);
    Some(whole)
}

/// Appends a prefix as a text (RFC 3123 5).
fn push_prefix(prefix: Prefix, out: &mut Vec<u8>) -> Result<(), AllocError>
    ensures { OnOk result (out.new.items ≡ out.old.items ++ prefix_text prefix) }
{
    out.extend_from_slice(mark(prefix.negated))?;
    print_decimal(u32::from(prefix.address.family()), out)?;
    out.extend_from_slice(b":")?;
    push_address(prefix.address, out)?;
    out.extend_from_slice(b"/")?;
    print_decimal(u32::from(prefix.bits), out)
}

/// What stands before a prefix that is left out of a greater one.
fn mark(negated: bool) -> &'static [u8]
    ensures { result.now ≡ mark negated }
{
    if negated { b"!" } else { b"" }
}

/// Appends an address.
fn push_address(address: Address, out: &mut Vec<u8>) -> Result<(), AllocError>
    ensures { OnOk result (out.new.items ≡ out.old.items ++ address_text address) }
{
    match address {
        Address::Ipv4(octets) => push_ipv4(&octets, out),
        Address::Ipv6(octets) => push_ipv6(&octets, out),
    }
}

/// Appends the prefix at the front (RFC 3123 4, 5), and gives what is left.
///
/// # Errors
///
/// `NoData` where no item states one there, and `OutOfMemory`. `out` may have got some of it.
fn print_prefix<'o>(octets: &'o [u8], out: &mut Vec<u8>) -> Result<&'o [u8], Unprinted>
    ensures left { IfOk result (λ rest. length rest.now < length octets.now) }
    ensures printed { IfOk result (λ rest.
        PrintsFront PrintsPrefix IsAPrefix octets.now rest.now out.old.items out.new.items) }
    ensures none { IfErr result (IfNoData (NoFront IsAPrefix octets.now)) }
{
    let (prefix, rest) = take_prefix(octets)?;
    push_prefix(prefix, out)?;
    Ok(rest)
}

/// Appends prefixes, any number of them, a blank before each.
///
/// # Errors
///
/// `NoData` where no items state the octets, and `OutOfMemory`. `out` may have got some of them.
pub(crate) fn print_prefixes(octets: &[u8], out: &mut Vec<u8>) -> Result<(), Unprinted>
    ensures printed { OnOk result
        (PrintsAll PrintsPrefixes octets.now out.old.items out.new.items) }
    ensures none { IfErr result (IfNoData (NoItems StatesPrefixes octets.now)) }
{
    let mut rest = octets;
    while !rest.is_empty() {
        out.extend_from_slice(b" ")?;
        rest = print_prefix(rest, out)?;
    }
    Ok(())
}
