//! Laws of the canonical text of record data (RFC 1035 5.1; RFC 3597 5).
ghost use Rattle.std.specs.Prelude.{◌≡◌, map};
ghost use Rattle.std.specs.List.{join_with_byte};
ghost use Rattle.zone_name.specs.Common.{Labels};
ghost use Rattle.zone_rdata.specs.Record.{Data, IsRdata};
ghost use Rattle.zone_rdata.specs.Spelling.{States};
ghost use Rattle.zone_rdata.specs.Text.{data_text, data_items, written_item};

use zone_name::laws::printed_names_are_spelled;

/// What is printed for data is its items, parted by single spaces, and they state that data under
/// every origin.
pub fn printed_data_is_stated()
    ensures written { (d : Data) → IsRdata d
        → data_text d ≡ join_with_byte 32 (map written_item (data_items d)) }
    ensures stated { (origin : Labels) (d : Data) → IsRdata d
        → States origin d.class d.kind (data_items d) d.octets }
{
    printed_names_are_spelled();
}
