//! Where names are in data, type by type.
ghost use Rattle.std.specs.Prelude.{◌≡◌, ℕ, List, None, false};
ghost use Rattle.data_names.specs.NamesInData.{folds, names_in, names_in_amtrelay, names_in_a6, names_in_hip, names_in_ipseckey, place_names, row_of};

/// The types whose names in data are put in lower case. Those types are meant whose data a zone keeps
/// with its letters: in data of NS, CNAME, SOA, PTR, MX and SRV names are in lower case anyway.
#[derive(Clone, Copy, Debug, PartialEq, Eq)]
pub enum FoldedTypes {
    /// The types of the canonical form of DNSSEC (RFC 4034 6.2, RFC 6840 5.1).
    Canonical,
    /// All types that have names, as servers compare names without regard to case (RFC 4343).
    Every,
}

/// What names there are from a place on.
#[derive(Clone, Copy, Debug)]
pub(crate) enum Extent {
    /// So many, and nothing after them.
    Whole(usize),
    /// So many, and other octets may follow.
    Front(usize),
    /// As many as there are to the end.
    ToEnd,
}

/// Where names are in data.
#[derive(Clone, Copy, Debug)]
pub(crate) struct NamesAt {
    /// How many octets come before them.
    pub(crate) before: usize,
    pub(crate) extent: Extent,
}

/// Where names are in the data of a type.
#[derive(Clone, Copy, Debug)]
pub(crate) enum NamePlace {
    /// After so many octets, so many names, and nothing after them.
    Whole(usize, usize),
    /// After so many octets, so many names, and other octets may follow.
    Front(usize, usize),
    /// As A6 data has it.
    A6,
    /// As IPSECKEY data has it.
    Ipseckey,
    /// As AMTRELAY data has it.
    Amtrelay,
    /// As HIP data has it.
    Hip,
}

/// A row of the table.
#[derive(Clone, Copy, Debug)]
pub(crate) struct TableRow {
    /// Whether names are in lower case in the canonical form of DNSSEC.
    pub(crate) canonical: bool,
    pub(crate) place: NamePlace,
}

/// The row of a type.
fn find_row(kind: u16) -> Option<TableRow>
    ensures { result ≡ row_of kind }
{
    let (canonical, place) = match kind {
        3 => (true, NamePlace::Whole(0, 1)), // MD
        4 => (true, NamePlace::Whole(0, 1)), // MF
        7 => (true, NamePlace::Whole(0, 1)), // MB
        8 => (true, NamePlace::Whole(0, 1)), // MG
        9 => (true, NamePlace::Whole(0, 1)), // MR
        14 => (true, NamePlace::Whole(0, 2)), // MINFO
        17 => (true, NamePlace::Whole(0, 2)), // RP
        18 => (true, NamePlace::Whole(2, 1)), // AFSDB
        21 => (true, NamePlace::Whole(2, 1)), // RT
        23 => (false, NamePlace::Whole(0, 1)), // NSAP-PTR
        24 => (true, NamePlace::Front(18, 1)), // SIG
        26 => (true, NamePlace::Whole(2, 2)), // PX
        30 => (true, NamePlace::Front(0, 1)), // NXT
        36 => (true, NamePlace::Whole(2, 1)), // KX
        38 => (true, NamePlace::A6), // A6
        39 => (true, NamePlace::Whole(0, 1)), // DNAME
        45 => (false, NamePlace::Ipseckey), // IPSECKEY
        46 => (true, NamePlace::Front(18, 1)), // RRSIG
        47 => (false, NamePlace::Front(0, 1)), // NSEC
        55 => (false, NamePlace::Hip), // HIP
        58 => (false, NamePlace::Whole(0, 2)), // TALINK
        64 => (false, NamePlace::Front(2, 1)), // SVCB
        65 => (false, NamePlace::Front(2, 1)), // HTTPS
        66 => (false, NamePlace::Whole(5, 1)), // DSYNC
        107 => (false, NamePlace::Whole(2, 1)), // LP
        260 => (false, NamePlace::Amtrelay), // AMTRELAY
        _ => return None,
    };
    Some(TableRow { canonical, place })
}

/// Where the name of A6 data is: after a length, and the octets of the other 128 - length bits (RFC
/// 2874 3.1). There is none where the length is 0.
fn names_of_a6(octets: &[u8]) -> Option<NamesAt>
    ensures { result ≡ names_in_a6 octets.now }
{
    let len = usize::from(*octets.first()?);
    if len > 128 {
        return None;
    }
    Some(NamesAt {
        before: 1 + (135 - len) / 8,
        extent: Extent::Whole(if len == 0 { 0 } else { 1 }),
    })
}

/// Where the gateway of IPSECKEY data is, if it is a name, as the second octet says (RFC 4025 2.1,
/// 2.3).
fn names_of_ipseckey(octets: &[u8]) -> Option<NamesAt>
    ensures { result ≡ names_in_ipseckey octets.now }
{
    match octets {
        [_, 3, ..] => Some(NamesAt {
            before: 3,
            extent: Extent::Front(1),
        }),
        _ => None,
    }
}

/// Where the relay of AMTRELAY data is, if it is a name, as the last seven bits of the second octet
/// say (RFC 8777 4.2.3).
fn names_of_amtrelay(octets: &[u8]) -> Option<NamesAt>
    ensures { result ≡ names_in_amtrelay octets.now }
{
    match octets {
        [_, relay, ..] if *relay % 128 == 3 => Some(NamesAt {
            before: 2,
            extent: Extent::Whole(1),
        }),
        _ => None,
    }
}

/// Where the rendezvous servers of HIP data are: after four octets, of which the first is the length of
/// the tag and the last two that of the key, the tag and the key (RFC 8005 5).
fn names_of_hip(octets: &[u8]) -> Option<NamesAt>
    ensures { result ≡ names_in_hip octets.now }
{
    match octets {
        [tag, _, high, low, ..] => Some(NamesAt {
            before: 4 + usize::from(*tag) + usize::from(*high) * 256 + usize::from(*low),
            extent: Extent::ToEnd,
        }),
        _ => None,
    }
}

/// Where the names of data are.
fn names_of_place(place: NamePlace, octets: &[u8]) -> Option<NamesAt>
    ensures { result ≡ place_names place octets.now }
{
    match place {
        NamePlace::Whole(before, count) => Some(NamesAt {
            before,
            extent: Extent::Whole(count),
        }),
        NamePlace::Front(before, count) => Some(NamesAt {
            before,
            extent: Extent::Front(count),
        }),
        NamePlace::A6 => names_of_a6(octets),
        NamePlace::Ipseckey => names_of_ipseckey(octets),
        NamePlace::Amtrelay => names_of_amtrelay(octets),
        NamePlace::Hip => names_of_hip(octets),
    }
}

/// Whether the names of a row are put in lower case.
fn is_folded(types: FoldedTypes, row: &TableRow) -> bool
    ensures { result ≡ folds types row.now }
{
    match types {
        FoldedTypes::Canonical => row.canonical,
        FoldedTypes::Every => true,
    }
}

/// Where the names of data are that are put in lower case.
pub(crate) fn names_at(types: FoldedTypes, kind: u16, octets: &[u8]) -> Option<NamesAt>
    ensures { result ≡ names_in types kind octets.now }
{
    let Some(row) = find_row(kind) else {
        return None;
    };
    if !is_folded(types, &row) {
        return None;
    }
    names_of_place(row.place, octets)
}

/// Returns whether data of the type may have names that are put in lower case. If it can't, its
/// canonical form is the data itself (RFC 4034 6.2).
///
/// ```
/// assert!(may_have_names(FoldedTypes::Every, 65)); // HTTPS
/// assert!(!may_have_names(FoldedTypes::Canonical, 65));
/// ```
pub fn may_have_names(types: FoldedTypes, kind: u16) -> bool
    ensures { result ≡ false → (octets : List ℕ) → names_in types kind octets ≡ None }
{
    match find_row(kind) {
        Some(row) => is_folded(types, &row),
        None => false,
    }
}
