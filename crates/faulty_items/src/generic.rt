//! Where a reading of data in the generic form stops (RFC 3597 5).
ghost use Rattle.std.specs.Prelude.{◌≤◌, ℕ, IfNone, IfOk, IfSome, map, option_map};
ghost use Rattle.zone_rdata.specs.Item.{IsGeneric, raw};
ghost use Rattle.zone_rdata.specs.Generic.{StatesLength};
ghost use Rattle.faulty_items.specs.GenericStop.{GenericStops, JoinUpTo};
ghost use Rattle.faulty_items.specs.Stop.{stop_of};
ghost use Rattle.faulty_items.specs.StopsAt.{StopsAt};

use crate::stop::DataStop;
use std::alloc::AllocError;
use zone_rdata::{Item, decimal_of, push_octets_of_hex};

/// The most octets of data (RFC 1035 3.2.1).
const LONGEST_DATA: u64 = 65_535;

/// The number of octets that an item states. `None`: it states none, or more than data has.
fn length_in(item: Item) -> Option<usize>
    ensures some { IfSome result (λ n. StatesLength (raw item.entry) n × (n ≤ LONGEST_DATA)) }
    ensures none { IfNone result ((n : ℕ) → StatesLength (raw item.entry) n → n ≤ LONGEST_DATA → ⊥) }
{
    let Item::Bare(text) = item else {
        return None;
    };
    match decimal_of(text) {
        Some(number) if number <= LONGEST_DATA => Some(number as usize),
        _ => None,
    }
}

/// The first item at which the digits of at most so many octets stop.
fn stop_in_digits<'e>(
    digits: &[Item<'e>],
    most: usize,
    octets: &mut Vec<u8>,
) -> Result<Option<Item<'e>>, AllocError>
    ensures { IfOk result (λ found.
        StopsAt (JoinUpTo most) (map raw digits.now) (option_map raw found)) }
{
    octets.clear();
    for item in digits {
        let Item::Bare(text) = *item else {
            return Ok(Some(*item));
        };
        if text.len() / 2 > most - octets.len() {
            return Ok(Some(*item));
        }
        if !push_octets_of_hex(text, octets)? {
            return Ok(Some(*item));
        }
    }
    Ok(None)
}

/// Where a reading of items in the generic form stops.
pub(crate) fn generic_stop<'e>(
    items: &[Item<'e>],
    octets: &mut Vec<u8>,
) -> Result<DataStop<'e>, AllocError>
    requires { IsGeneric (map raw items.now) }
    ensures { IfOk result (λ stop. GenericStops (map raw items.now) (stop_of stop)) }
{
    let [_, first, digits @ ..] = items else {
        return Ok(DataStop {
            field: "length",
            item: None,
        });
    };
    let Some(most) = length_in(*first) else {
        return Ok(DataStop {
            field: "length",
            item: Some(*first),
        });
    };
    Ok(DataStop {
        field: "data",
        item: stop_in_digits(digits, most, octets)?,
    })
}
