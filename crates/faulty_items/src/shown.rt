//! An item at fault as a line shows it.
ghost use Rattle.std.specs.Prelude.{◌≡◌, ◌++◌, ◌+◌, ◌*◌, ◌≤◌, IfErr, IsTrue, OnErr, OnOk, codes, length, take, true};
ghost use Rattle.std.specs.Io.KnownBytes.{Appends};
ghost use Rattle.std.specs.List.{flat_map};
ghost use Rattle.zone_print.specs.Device.{WorksOn};
ghost use Rattle.zone_print.specs.Writing.{AppendsPart, IsFailedWrite};
ghost use Rattle.faulty_items.specs.ShownItem.{is_plain, shown_item, shown_octet};

use arrayvec::ArrayVec;
use std::marker::Model;
use zone_name::decimal_escape;
use zone_print::{OctetWriter, write_octets};
use zone_rdata::Stop;

/// How many octets of an item are shown.
const MOST_SHOWN: usize = 60;

/// The octets of the longest text: an escape for each octet, and what stands around them.
const LONGEST: usize = 4 * MOST_SHOWN + 4;

/// An item as a line shows it: `: "1.2.3.4.5"`. Of its octets the first 60, and each that isn't 32
/// to 126, each quote and each backslash as a backslash and three decimal digits. It takes no
/// memory. Contracts see the text.
#[derive(Debug, Drop)]
pub struct ShownItem {
    text: ArrayVec<u8, LONGEST>,
}

impl Model for ShownItem {
    ghost use Rattle.std.specs.Prelude.{List, ℕ};

    ghost Value = { List ℕ };

    ghost view = { λ s. s.text.items };
}

/// Whether the octet stands for itself.
fn is_plain(octet: u8) -> bool
    ensures { result ≡ is_plain octet }
{
    octet >= b' ' && octet <= b'~' && !(octet == b'"' || octet == b'\\')
}

/// Appends an octet as it is shown, where there is room.
fn push_octet(octet: u8, text: &mut ArrayVec<u8, LONGEST>)
    requires { length text.old.items + 4 ≤ LONGEST }
    ensures { text.new.items ≡ text.old.items ++ shown_octet octet }
{
    if is_plain(octet) {
        text.push(octet);
    } else {
        let _ = text.try_extend_from_slice(&decimal_escape(octet));
    }
}

impl ShownItem {
    /// The item of these octets, which stand between its quotes if it is a quoted one.
    pub fn of(item: &[u8]) -> ShownItem
        ensures { result ≡ shown_item item.now }
    {
        let (shown, _) = item.split_at(item.len().min(MOST_SHOWN));
        let mut text = ArrayVec::new();
        let _ = text.try_extend_from_slice(b": \"");
        for octet in shown {
            push_octet(*octet, &mut text);
        }
        text.push(b'"');
        ShownItem { text }
    }

    /// The text.
    pub fn as_slice(&self) -> &[u8]
        ensures { result.now ≡ self.now }
    {
        self.text.as_slice()
    }
}

/// Writes the item of these octets as a line shows it, behind the rest of the line. Every error of
/// the writer ends it, `Interrupted` too, and it isn't flushed.
///
/// # Errors
///
/// `Write` where the writer failed. A proper prefix of the text was written.
pub fn write_item<W: OctetWriter>(writer: &mut W, item: &[u8]) -> Result<(), Stop>
    ensures written { OnOk result
        (Appends (W.state writer.old).octets (W.state writer.new).octets (shown_item item.now)) }
    ensures part { OnErr result
        (AppendsPart (W.state writer.old).octets (W.state writer.new).octets (shown_item item.now)) }
    ensures works { OnOk result (WorksOn (W.state writer.old) (W.state writer.new)) }
    ensures failed { IfErr result (IsFailedWrite (W.state writer.old) (W.state writer.new)) }
{
    write_octets(writer, ShownItem::of(item).as_slice())
}
