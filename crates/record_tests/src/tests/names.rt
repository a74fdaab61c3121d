//! Names: read from text, built, compared and printed (RFC 1035, RFC 4034, RFC 4343).
use std::alloc::Global;
use std::cmp::Ordering;
use std::test::Fail;
use test_support::{
    Question, check, check_lines, check_table, parted, push_hex, push_text, push_words, rooted,
};
use zone_name::{
    CasedName, FixedBuffer, Name, NameBuilder, NameFault, NameRef, escape_at, push_label,
};

/// The name of a text under an origin; an empty origin is none.
pub(super) fn named(text: &[u8], origin: &[u8]) -> Result<Name, NameFault> {
    if origin.is_empty() {
        return Name::from_text(text, None);
    }
    let origin = Name::from_text(origin, None)?;
    Name::from_text(text, Some(&origin))
}

/// The name of a text under an origin, with the letters of both; an empty origin is none.
fn named_cased(text: &[u8], origin: &[u8]) -> Result<CasedName, NameFault> {
    if origin.is_empty() {
        return CasedName::from_text(text, None);
    }
    let origin = CasedName::from_text(origin, None)?;
    CasedName::from_text(text, Some(&origin))
}

/// Sets a name to that of a text under an origin; an empty origin is none.
fn set(name: &mut Name, text: &[u8], origin: &[u8]) -> Result<(), NameFault> {
    if origin.is_empty() {
        return name.set_from_text(text, None);
    }
    let origin = Name::from_text(origin, None)?;
    name.set_from_text(text, Some(&origin))
}

/// The octets of the name of a text under an origin, pushed to none; an empty origin is none.
fn pushed(alloc: Global, text: &[u8], origin: &[u8]) -> Result<Vec<u8>, Fail> {
    let mut octets = Vec::new(alloc);
    if origin.is_empty() {
        Name::push_spelled(text, None, &mut octets)??;
    } else {
        let origin = Name::from_text(origin, None)?;
        Name::push_spelled(text, Some(&origin), &mut octets)??;
    }
    Ok(octets)
}

/// Whether these are the octets of a copy of the name, of another name that becomes it, and of the
/// name that is lent from their front.
fn are_its(name: &Name, other: &Name) -> bool {
    let (lent, rest) = NameRef::split_front(name.wire());
    rest.is_empty()
        && lent.wire() == name.wire()
        && name.copy().wire() == name.wire()
        && other.wire() == name.wire()
}

/// The name that a text spells under an origin: its octets and its canonical spelling.
struct Spelled;

impl Question for Spelled {
    fn answer(alloc: Global, asked: &'static str, out: &mut Vec<u8>) -> Result<(), Fail> {
        let (text, origin) = parted(asked, " under ")?;
        let name = named(text.as_bytes(), origin.as_bytes())?;
        let mut other = rooted(b"another.name.")?;
        set(&mut other, text.as_bytes(), origin.as_bytes())?;
        check(are_its(&name, &other), "the octets are those of the name")?;
        let mut copied = rooted(b"another.name.")?;
        let (lent, _) = NameRef::split_front(name.wire());
        copied.copy_from(&lent);
        check(copied.wire() == name.wire(), "a name becomes a copy of it")?;
        let octets = pushed(alloc, text.as_bytes(), origin.as_bytes())?;
        check(octets.as_slice() == name.wire(), "its octets are pushed")?;
        push_hex(alloc, out, name.wire())?;
        push_text(out, " ")?;
        let mut spelling: FixedBuffer<1021> = FixedBuffer::new();
        let Ok(()) = name.push_text(&mut spelling);
        Ok(out.extend_from_slice(spelling.as_slice())?)
    }
}

/// The same, printed as it is lent.
struct Lent;

impl Question for Lent {
    fn answer(alloc: Global, asked: &'static str, out: &mut Vec<u8>) -> Result<(), Fail> {
        let (text, origin) = parted(asked, " under ")?;
        let name = named(text.as_bytes(), origin.as_bytes())?;
        let (lent, _) = NameRef::split_front(name.wire());
        push_hex(alloc, out, lent.wire())?;
        push_text(out, " ")?;
        Ok(lent.print(out)?)
    }
}

/// Texts under an origin, or none; the first has 255 octets, the most that a name has.
const SPELLED: &str = "\
aaaaaaaaaaaaaaaaaaaaaaaaaaaaaaaaaaaaaaaaaaaaaaaaaaaaaaaaaaaaaaa.aaaaaaaaaaaaaaaaaaaaaaaaaaaaaaaaaaaaaaaaaaaaaaaaaaaaaaaaaaaaaaa.aaaaaaaaaaaaaaaaaaaaaaaaaaaaaaaaaaaaaaaaaaaaaaaaaaaaaaaaaaaaaaa.aaaaaaaaaaaaaaaaaaaaaaaaaaaaaaaaaaaaaaaaaaaaaaaaaaaaaaaaaaaaa. under  => #3f6161616161616161616161616161616161616161616161616161616161616161616161616161616161616161616161616161616161616161616161616161613f6161616161616161616161616161616161616161616161616161616161616161616161616161616161616161616161616161616161616161616161616161613f6161616161616161616161616161616161616161616161616161616161616161616161616161616161616161616161616161616161616161616161616161613d6161616161616161616161616161616161616161616161616161616161616161616161616161616161616161616161616161616161616161616161616100 aaaaaaaaaaaaaaaaaaaaaaaaaaaaaaaaaaaaaaaaaaaaaaaaaaaaaaaaaaaaaaa.aaaaaaaaaaaaaaaaaaaaaaaaaaaaaaaaaaaaaaaaaaaaaaaaaaaaaaaaaaaaaaa.aaaaaaaaaaaaaaaaaaaaaaaaaaaaaaaaaaaaaaaaaaaaaaaaaaaaaaaaaaaaaaa.aaaaaaaaaaaaaaaaaaaaaaaaaaaaaaaaaaaaaaaaaaaaaaaaaaaaaaaaaaaaa.
\\@ under x. => #0140017800 \\@.x.
. under  => #00 .
@ under x. => #017800 x.
a under x. => #0161017800 a.x.
A.X. under  => #0161017800 a.x.
\\065. under  => #016100 a.
a\\046b under x. => #03612e62017800 a\\.b.x.
\\034\\036\\040\\041\\046\\059\\064\\092\\032\\000\\127\\255\\033\\126. under  => #0e222428292e3b405c20007fff217e00 \\\"\\$\\(\\)\\.\\;\\@\\\\\\032\\000\\127\\255!~.
";

/// Texts whose labels end, and whose letters and escapes stand, at and beside the edges of 16
/// octets; the last names have 112 to 114 octets.
const EDGES: &str = "\
AbcdefghijklmN. under  => #0e6162636465666768696a6b6c6d6e00 abcdefghijklmn.
AbcdefghijklmNO. under  => #0f6162636465666768696a6b6c6d6e6f00 abcdefghijklmno.
AbcdefghijklmNOP. under  => #106162636465666768696a6b6c6d6e6f7000 abcdefghijklmnop.
AbcdefghijklmNOPQ. under  => #116162636465666768696a6b6c6d6e6f707100 abcdefghijklmnopq.
AbcdefghijklmNOPQrstuvwxyz01234. under  => #1f6162636465666768696a6b6c6d6e6f707172737475767778797a303132333400 abcdefghijklmnopqrstuvwxyz01234.
AbcdefghijklmNOPQrstuvwxyz012345. under  => #206162636465666768696a6b6c6d6e6f707172737475767778797a30313233343500 abcdefghijklmnopqrstuvwxyz012345.
AbcdefghijklmNOPQrstuvwxyz0123456. under  => #216162636465666768696a6b6c6d6e6f707172737475767778797a3031323334353600 abcdefghijklmnopqrstuvwxyz0123456.
AbcdefghijklmNOPQrstuvwxyz0123456789-_abcdefghIJKlmnopqrstuvwX. under  => #3e6162636465666768696a6b6c6d6e6f707172737475767778797a303132333435363738392d5f6162636465666768696a6b6c6d6e6f70717273747576777800 abcdefghijklmnopqrstuvwxyz0123456789-_abcdefghijklmnopqrstuvwx.
AbcdefghijklmNOPQrstuvwxyz0123456789-_abcdefghIJKlmnopqrstuvwxY. under  => #3f6162636465666768696a6b6c6d6e6f707172737475767778797a303132333435363738392d5f6162636465666768696a6b6c6d6e6f7071727374757677787900 abcdefghijklmnopqrstuvwxyz0123456789-_abcdefghijklmnopqrstuvwxy.
abcdefghijklmnO.abcdefghijklmnoP.Abcdefghijklmnopq. under  => #0f6162636465666768696a6b6c6d6e6f106162636465666768696a6b6c6d6e6f70116162636465666768696a6b6c6d6e6f707100 abcdefghijklmno.abcdefghijklmnop.abcdefghijklmnopq.
Z[`{zA|aZ[`{zA|aZ[`{zA|aZ[`{zA|aZ. under  => #217a5b607b7a617c617a5b607b7a617c617a5b607b7a617c617a5b607b7a617c617a00 z[`{za|az[`{za|az[`{za|az[`{za|az.
abcdefghijklmn\\.P. under  => #106162636465666768696a6b6c6d6e2e7000 abcdefghijklmn\\.p.
abcdefghijklmno\\.Q. under  => #116162636465666768696a6b6c6d6e6f2e7100 abcdefghijklmno\\.q.
abcdefghijklm\\079\\P. under  => #0f6162636465666768696a6b6c6d6f7000 abcdefghijklmop.
abcdefghijklmnopqrstuvwxyzabcd\\$F. under  => #206162636465666768696a6b6c6d6e6f707172737475767778797a61626364246600 abcdefghijklmnopqrstuvwxyzabcd\\$f.
abcdefghijklmnopqrstuvwxyzabcde\\032. under  => #206162636465666768696a6b6c6d6e6f707172737475767778797a61626364652000 abcdefghijklmnopqrstuvwxyzabcde\\032.
abcdefghijklmn(.a. under  => #0f6162636465666768696a6b6c6d6e28016100 abcdefghijklmn\\(.a.
abcdefghijklmno;.a. under  => #106162636465666768696a6b6c6d6e6f3b016100 abcdefghijklmno\\;.a.
abcdefghijklmnopqrstuvwxyz0123456789-_abcdefghijklmnopqrstuvwxy.abcdefghijklmnopqrstuvwxyz0123456789-_abcdefgH. under  => #3f6162636465666768696a6b6c6d6e6f707172737475767778797a303132333435363738392d5f6162636465666768696a6b6c6d6e6f707172737475767778792e6162636465666768696a6b6c6d6e6f707172737475767778797a303132333435363738392d5f616263646566676800 abcdefghijklmnopqrstuvwxyz0123456789-_abcdefghijklmnopqrstuvwxy.abcdefghijklmnopqrstuvwxyz0123456789-_abcdefgh.
abcdefghijklmnopqrstuvwxyz0123456789-_abcdefghijklmnopqrstuvwxy.abcdefghijklmnopqrstuvwxyz0123456789-_abcdefghI. under  => #3f6162636465666768696a6b6c6d6e6f707172737475767778797a303132333435363738392d5f6162636465666768696a6b6c6d6e6f707172737475767778792f6162636465666768696a6b6c6d6e6f707172737475767778797a303132333435363738392d5f61626364656667686900 abcdefghijklmnopqrstuvwxyz0123456789-_abcdefghijklmnopqrstuvwxy.abcdefghijklmnopqrstuvwxyz0123456789-_abcdefghi.
abcdefghijklmnopqrstuvwxyz0123456789-_abcdefghijklmnopqrstuvwxy.abcdefghijklmnopqrstuvwxyz0123456789-_abcdefghiJ. under  => #3f6162636465666768696a6b6c6d6e6f707172737475767778797a303132333435363738392d5f6162636465666768696a6b6c6d6e6f70717273747576777879306162636465666768696a6b6c6d6e6f707172737475767778797a303132333435363738392d5f6162636465666768696a00 abcdefghijklmnopqrstuvwxyz0123456789-_abcdefghijklmnopqrstuvwxy.abcdefghijklmnopqrstuvwxyz0123456789-_abcdefghij.
abcdefghijklmnoP under X. => #106162636465666768696a6b6c6d6e6f70017800 abcdefghijklmnop.x.
";

/// The octets of the name that a text spells under an origin, with the letters of both.
struct Cased;

impl Question for Cased {
    fn answer(alloc: Global, asked: &'static str, out: &mut Vec<u8>) -> Result<(), Fail> {
        let (text, origin) = parted(asked, " under ")?;
        let name = named_cased(text.as_bytes(), origin.as_bytes())?;
        check(
            name.copy().wire() == name.wire(),
            "a copy has the same octets",
        )?;
        check(
            name.folded() == named(text.as_bytes(), origin.as_bytes())?,
            "in lower case it is the name that is read in lower case",
        )?;
        push_hex(alloc, out, name.wire())
    }
}

/// Texts under an origin, or none.
const CASED: &str = "\
Mail.Example. under  => #044d61696c074578616d706c6500
mAIL under Example. => #046d41494c074578616d706c6500
@ under eXAMPLE. => #076558414d504c4500
\\065\\098\\.C. under  => #0441622e4300
A\\.b under Z. => #03412e62015a00
. under Example. => #00
";

/// The same texts, with their letters.
const CASED_EDGES: &str = "\
AbcdefghijklmN. under  => #0e4162636465666768696a6b6c6d4e00
AbcdefghijklmNO. under  => #0f4162636465666768696a6b6c6d4e4f00
AbcdefghijklmNOP. under  => #104162636465666768696a6b6c6d4e4f5000
AbcdefghijklmNOPQ. under  => #114162636465666768696a6b6c6d4e4f505100
AbcdefghijklmNOPQrstuvwxyz01234. under  => #1f4162636465666768696a6b6c6d4e4f505172737475767778797a303132333400
AbcdefghijklmNOPQrstuvwxyz012345. under  => #204162636465666768696a6b6c6d4e4f505172737475767778797a30313233343500
AbcdefghijklmNOPQrstuvwxyz0123456. under  => #214162636465666768696a6b6c6d4e4f505172737475767778797a3031323334353600
AbcdefghijklmNOPQrstuvwxyz0123456789-_abcdefghIJKlmnopqrstuvwX. under  => #3e4162636465666768696a6b6c6d4e4f505172737475767778797a303132333435363738392d5f6162636465666768494a4b6c6d6e6f70717273747576775800
AbcdefghijklmNOPQrstuvwxyz0123456789-_abcdefghIJKlmnopqrstuvwxY. under  => #3f4162636465666768696a6b6c6d4e4f505172737475767778797a303132333435363738392d5f6162636465666768494a4b6c6d6e6f7071727374757677785900
abcdefghijklmnO.abcdefghijklmnoP.Abcdefghijklmnopq. under  => #0f6162636465666768696a6b6c6d6e4f106162636465666768696a6b6c6d6e6f50114162636465666768696a6b6c6d6e6f707100
Z[`{zA|aZ[`{zA|aZ[`{zA|aZ[`{zA|aZ. under  => #215a5b607b7a417c615a5b607b7a417c615a5b607b7a417c615a5b607b7a417c615a00
abcdefghijklmn\\.P. under  => #106162636465666768696a6b6c6d6e2e5000
abcdefghijklmno\\.Q. under  => #116162636465666768696a6b6c6d6e6f2e5100
abcdefghijklm\\079\\P. under  => #0f6162636465666768696a6b6c6d4f5000
abcdefghijklmnopqrstuvwxyzabcd\\$F. under  => #206162636465666768696a6b6c6d6e6f707172737475767778797a61626364244600
abcdefghijklmnopqrstuvwxyzabcde\\032. under  => #206162636465666768696a6b6c6d6e6f707172737475767778797a61626364652000
abcdefghijklmn(.a. under  => #0f6162636465666768696a6b6c6d6e28016100
abcdefghijklmno;.a. under  => #106162636465666768696a6b6c6d6e6f3b016100
abcdefghijklmnopqrstuvwxyz0123456789-_abcdefghijklmnopqrstuvwxy.abcdefghijklmnopqrstuvwxyz0123456789-_abcdefgH. under  => #3f6162636465666768696a6b6c6d6e6f707172737475767778797a303132333435363738392d5f6162636465666768696a6b6c6d6e6f707172737475767778792e6162636465666768696a6b6c6d6e6f707172737475767778797a303132333435363738392d5f616263646566674800
abcdefghijklmnopqrstuvwxyz0123456789-_abcdefghijklmnopqrstuvwxy.abcdefghijklmnopqrstuvwxyz0123456789-_abcdefghI. under  => #3f6162636465666768696a6b6c6d6e6f707172737475767778797a303132333435363738392d5f6162636465666768696a6b6c6d6e6f707172737475767778792f6162636465666768696a6b6c6d6e6f707172737475767778797a303132333435363738392d5f61626364656667684900
abcdefghijklmnopqrstuvwxyz0123456789-_abcdefghijklmnopqrstuvwxy.abcdefghijklmnopqrstuvwxyz0123456789-_abcdefghiJ. under  => #3f6162636465666768696a6b6c6d6e6f707172737475767778797a303132333435363738392d5f6162636465666768696a6b6c6d6e6f70717273747576777879306162636465666768696a6b6c6d6e6f707172737475767778797a303132333435363738392d5f6162636465666768694a00
abcdefghijklmnoP under X. => #106162636465666768696a6b6c6d6e6f50015800
";

/// The fault of a text that spells no name under an origin, and how it is shown.
struct Unspelled;

impl Question for Unspelled {
    fn answer(alloc: Global, asked: &'static str, out: &mut Vec<u8>) -> Result<(), Fail> {
        let (text, origin) = parted(asked, " under ")?;
        let fault = named(text.as_bytes(), origin.as_bytes())
            .err()
            .ok_or("a name")?;
        let mut other = rooted(b"another.name.")?;
        let refusal = set(&mut other, text.as_bytes(), origin.as_bytes()).err();
        check(
            refusal == Some(fault),
            "both calls refuse the text for one fault",
        )?;
        check(other == Name::root(), "a name that isn't set is the root")?;
        check(
            named_cased(text.as_bytes(), origin.as_bytes()).err() == Some(fault),
            "with its letters kept it has the same fault",
        )?;
        push_words(alloc, out, format_args!("{fault:?}: {fault}.\n"))
    }
}

/// Texts under an origin, or none, some with a line feed or a carriage return.
const UNSPELLED: &str = "\
== aaaaaaaaaaaaaaaaaaaaaaaaaaaaaaaaaaaaaaaaaaaaaaaaaaaaaaaaaaaaaaa.aaaaaaaaaaaaaaaaaaaaaaaaaaaaaaaaaaaaaaaaaaaaaaaaaaaaaaaaaaaaaaa.aaaaaaaaaaaaaaaaaaaaaaaaaaaaaaaaaaaaaaaaaaaaaaaaaaaaaaaaaaaaaaa.aaaaaaaaaaaaaaaaaaaaaaaaaaaaaaaaaaaaaaaaaaaaaaaaaaaaaaaaaaaaaa. under =>NameTooLong: a name has more than 255 octets.
== aaaaaaaaaaaaaaaaaaaaaaaaaaaaaaaaaaaaaaaaaaaaaaaaaaaaaaaaaaaaaaaa. under =>LabelTooLong: a label has more than 63 octets.
== a..b. under =>EmptyLabel: a label is empty.
== a under =>RelativeName: a relative name has no origin.
== a..\\9 under =>EmptyLabel: a label is empty.
== a\\9 under =>BadEscape: a backslash escape is malformed.
== a\\256 under =>BadEscape: a backslash escape is malformed.
==  under =>EmptyLabel: a label is empty.
== @ under =>RelativeName: a relative name has no origin.
== aaaaaaaaaaaaaaaaaaaaaaaaaaaaaaaaaaaaaaaaaaaaaaaaaaaaaaaaaaaaaaa.aaaaaaaaaaaaaaaaaaaaaaaaaaaaaaaaaaaaaaaaaaaaaaaaaaaaaaaaaaaaaaa.aaaaaaaaaaaaaaaaaaaaaaaaaaaaaaaaaaaaaaaaaaaaaaaaaaaaaaaaaaaaaaa.aaaaaaaaaaaaaaaaaaaaaaaaaaaaaaaaaaaaaaaaaaaaaaaaaaaaaaaaaaaaaaa under =>RelativeName: a relative name has no origin.
== aaaaaaaaaaaaaaaaaaaaaaaaaaaaaaaaaaaaaaaaaaaaaaaaaaaaaaaaaaaaaaa.aaaaaaaaaaaaaaaaaaaaaaaaaaaaaaaaaaaaaaaaaaaaaaaaaaaaaaaaaaaaaaa.aaaaaaaaaaaaaaaaaaaaaaaaaaaaaaaaaaaaaaaaaaaaaaaaaaaaaaaaaaaaaaa.aaaaaaaaaaaaaaaaaaaaaaaaaaaaaaaaaaaaaaaaaaaaaaaaaaaaaaaaaaaaaaa under x.=>NameTooLong: a name has more than 255 octets.
== aaaaaaaaaaaaaaaaaaaaaaaaaaaaaaaaaaaaaaaaaaaaaaaaaaaaaaaaaaaaaaa.aaaaaaaaaaaaaaaaaaaaaaaaaaaaaaaaaaaaaaaaaaaaaaaaaaaaaaaaaaaaaaa.aaaaaaaaaaaaaaaaaaaaaaaaaaaaaaaaaaaaaaaaaaaaaaaaaaaaaaaaaaaaaaa.aaaaaaaaaaaaaaaaaaaaaaaaaaaaaaaaaaaaaaaaaaaaaaaaaaaaaaaaaaaaa under x.=>NameTooLong: a name has more than 255 octets.
== a\\ under =>BadEscape: a backslash escape is malformed.
== a\\
. under =>BadEscape: a backslash escape is malformed.
== a\\\r. under =>BadEscape: a backslash escape is malformed.
== .. under =>EmptyLabel: a label is empty.
== .a under x.=>EmptyLabel: a label is empty.
== abcdefghijklmno..a. under =>EmptyLabel: a label is empty.
== abcdefghijklmnop..a. under =>EmptyLabel: a label is empty.
== abcdefghijklmn\\25x. under =>BadEscape: a backslash escape is malformed.
== a.aaaaaaaaaaaaaaaaaaaaaaaaaaaaaaaaaaaaaaaaaaaaaaaaaaaaaaaaaaaaaaaa.a. under =>LabelTooLong: a label has more than 63 octets.
";

#[test]
fn texts_of_names(rt: HostRuntime) -> Result<(), Fail> {
    check_lines::<Spelled>(rt.alloc(), SPELLED)?;
    check_lines::<Lent>(rt.alloc(), SPELLED)?;
    check_lines::<Cased>(rt.alloc(), CASED)?;
    check_lines::<Spelled>(rt.alloc(), EDGES)?;
    check_lines::<Lent>(rt.alloc(), EDGES)?;
    check_lines::<Cased>(rt.alloc(), CASED_EDGES)?;
    check_table::<Unspelled>(rt.alloc(), UNSPELLED)
}

#[test]
fn a_name_that_keeps_its_letters_is_set(rt: HostRuntime) {
    let mut name = CasedName::root();
    let is_set = name.set_from_text(b"A.b.", None).is_ok();
    assert!(rt; is_set && name.wire() == b"\x01A\x01b\x00".as_slice());
    let fault = name.set_from_text(b"a..", None).err();
    assert!(rt; fault == Some(NameFault::EmptyLabel) && name.wire() == b"\x00".as_slice());
}

/// Whether this is the escape that follows a backslash, the octet that it stands for, and what
/// follows it (RFC 1035 5.1).
fn is_escape(text: &[u8], octet: u8, rest: &[u8]) -> bool {
    escape_at(text) == Some((octet, rest))
}

#[test]
fn escapes_stand_for_octets(rt: HostRuntime) -> Result<(), Fail> {
    let are_escapes = is_escape(b".b", b'.', b"b") && is_escape(b"046b", b'.', b"b");
    check(are_escapes, "both escapes are full stops")
}

#[test]
fn labels_are_printed_with_their_letters(rt: HostRuntime) -> Result<(), Fail> {
    let mut text: FixedBuffer<8> = FixedBuffer::new();
    let Ok(()) = push_label(b"A.b", &mut text);
    check(
        text.as_slice() == b"A\\.b.".as_slice(),
        "a dot inside takes a backslash",
    )
}

/// Whether a name is within the zone of an apex.
struct Within;

impl Question for Within {
    fn answer(alloc: Global, asked: &'static str, out: &mut Vec<u8>) -> Result<(), Fail> {
        let (text, apex) = parted(asked, " in ")?;
        let (name, apex) = (named(text.as_bytes(), b"")?, named(apex.as_bytes(), b"")?);
        push_words(alloc, out, name.is_within(&apex))
    }
}

/// Names and apexes.
const WITHIN: &str = "\
b.y. in x. => false
x. in x. => true
x. in . => true
ax. in x. => false
a.x. in x. => true
. in x. => false
";

/// Whether two names are the same (RFC 4343).
struct Same;

impl Question for Same {
    fn answer(alloc: Global, asked: &'static str, out: &mut Vec<u8>) -> Result<(), Fail> {
        let (text, other) = parted(asked, " and ")?;
        let (name, other) = (named(text.as_bytes(), b"")?, named(other.as_bytes(), b"")?);
        let (name, _) = NameRef::split_front(name.wire());
        let (other, _) = NameRef::split_front(other.wire());
        push_words(alloc, out, name.is_same(&other))
    }
}

/// Two names each.
const SAME: &str = "\
Example. and eXAMPLE. => true
\\097.example. and A.Example. => true
. and . => true
example. and . => false
a.example. and b.example. => false
a.b.example. and a\\.b.example. => false
";

#[test]
fn names_are_compared(rt: HostRuntime) -> Result<(), Fail> {
    check_lines::<Within>(rt.alloc(), WITHIN)?;
    check_lines::<Same>(rt.alloc(), SAME)
}

/// The example of RFC 4034 6.1, in order.
static ORDERED: &[&[u8]] = &[
    b"example.",
    b"a.example.",
    b"yljkjljk.a.example.",
    b"Z.a.example.",
    b"zABC.a.EXAMPLE.",
    b"z.example.",
    b"\\001.z.example.",
    b"*.z.example.",
    b"\\200.z.example.",
];

/// Whether a name has this place among the ordered ones.
fn is_at(name: &Name, at: usize) -> Result<bool, Fail> {
    for (other_at, other) in ORDERED.iter().enumerate() {
        let other = named(other, b"")?;
        let ordering = at.cmp(&other_at);
        if name.cmp(&other) != ordering || (*name == other) != (ordering == Ordering::Equal) {
            return Ok(false);
        }
    }
    Ok(true)
}

#[test]
fn names_are_ordered(rt: HostRuntime) -> Result<(), Fail> {
    for (at, text) in ORDERED.iter().enumerate() {
        check(
            is_at(&named(text, b"")?, at)?,
            "the order is that of RFC 4034 6.1",
        )?;
    }
    Ok(())
}

/// A builder that took labels, of which none is empty.
fn builder_of(labels: &str) -> Result<NameBuilder, Fail> {
    let mut builder = NameBuilder::new();
    for label in labels.split('.') {
        if !label.is_empty() {
            builder.push_label(label.as_bytes())?;
        }
    }
    Ok(builder)
}

/// Whether the name has these labels.
fn has_labels(name: &Name, labels: &str) -> bool {
    let mut wanted = labels.split('.');
    for label in name.labels() {
        match wanted.next() {
            Some(other) if other.as_bytes() == label => {}
            _ => return false,
        }
    }
    wanted.next().unwrap_or("").is_empty()
}

/// What a builder that took labels answers to one that it refuses, and the octets of the name.
struct Built;

impl Question for Built {
    fn answer(alloc: Global, asked: &'static str, out: &mut Vec<u8>) -> Result<(), Fail> {
        let (labels, refused) = parted(asked, " and ")?;
        let mut builder = builder_of(labels)?;
        let fault = builder.push_label(refused.as_bytes()).err().ok_or("taken")?;
        let name = builder.finish();
        check(
            has_labels(&name, labels),
            "the labels are those that were taken",
        )?;
        check(
            NameRef::split_front(name.wire()).0.to_name() == name,
            "the octets give the name",
        )?;
        push_words(alloc, out, format_args!("{fault:?}, "))?;
        push_hex(alloc, out, name.wire())
    }
}

/// Labels, and one that is refused; the longest label has 63 octets, the most that one has.
const BUILT: &str = "\
aaaaaaaaaaaaaaaaaaaaaaaaaaaaaaaaaaaaaaaaaaaaaaaaaaaaaaaaaaaaaaa.aaaaaaaaaaaaaaaaaaaaaaaaaaaaaaaaaaaaaaaaaaaaaaaaaaaaaaaaaaaaaaa.aaaaaaaaaaaaaaaaaaaaaaaaaaaaaaaaaaaaaaaaaaaaaaaaaaaaaaaaaaaaaaa.aaaaaaaaaaaaaaaaaaaaaaaaaaaaaaaaaaaaaaaaaaaaaaaaaaaaaaaaaaaaa and a => NameTooLong, #3f6161616161616161616161616161616161616161616161616161616161616161616161616161616161616161616161616161616161616161616161616161613f6161616161616161616161616161616161616161616161616161616161616161616161616161616161616161616161616161616161616161616161616161613f6161616161616161616161616161616161616161616161616161616161616161616161616161616161616161616161616161616161616161616161616161613d6161616161616161616161616161616161616161616161616161616161616161616161616161616161616161616161616161616161616161616161616100
 and  => EmptyLabel, #00
 and aaaaaaaaaaaaaaaaaaaaaaaaaaaaaaaaaaaaaaaaaaaaaaaaaaaaaaaaaaaaaaaa => LabelTooLong, #00
";

#[test]
fn names_are_built(rt: HostRuntime) -> Result<(), Fail> {
    check_lines::<Built>(rt.alloc(), BUILT)?;
    check(
        Name::root().wire() == b"\x00".as_slice(),
        "the root is one octet 0",
    )
}

#[test]
fn a_name_is_small(rt: HostRuntime) {
    assert!(rt; std::mem::size_of::<Name>() <= 264);
}
