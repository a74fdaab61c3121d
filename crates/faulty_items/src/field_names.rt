//! The names of the fields of the types that `zone_rdata` lays out.
ghost use Rattle.std.specs.Prelude.{◌≡◌, map};
ghost use Rattle.faulty_items.specs.FieldNames.{field_name, field_names};

/// The names of a type's fields in its RFC, in lower case and in order (RFC 1035 3.3, 3.4.1; AAAA
/// RFC 3596 2.2, SRV RFC 2782, NAPTR RFC 3403 4.1).
fn field_names(kind: u16) -> &'static [&'static str]
    ensures { map (λ name. name.now) result.now ≡ field_names kind }
{
    match kind {
        1 | 28 => &["address"],
        2 => &["nsdname"],
        5 => &["cname"],
        6 => &[
            "mname", "rname", "serial", "refresh", "retry", "expire", "minimum",
        ],
        12 => &["ptrdname"],
        15 => &["preference", "exchange"],
        16 => &["txt-data"],
        33 => &["priority", "weight", "port", "target"],
        35 => &[
            "order",
            "preference",
            "flags",
            "services",
            "regexp",
            "replacement",
        ],
        _ => &[],
    }
}

/// The name of the field at a place, from 0. `data`: it has none.
pub(crate) fn field_name(kind: u16, place: usize) -> &'static str
    ensures { result.now ≡ field_name kind place }
{
    match field_names(kind).get(place) {
        Some(name) => name,
        None => "data",
    }
}
