ghost use Rattle.std.specs.Prelude.{◌≡◌, ◌+◌, ◌-◌, ◌*◌, ◌%◌, ◌<◌, ◌≤◌, ◌∷◌, ◌++◌, decimal, [], length, OnOk, OnErr};
ghost use Rattle.std.specs.Char.{digit_char};
ghost use Rattle.std.specs.Net.Text as std_text;
ghost use Rattle.arrayvec.specs.ArrayVec.{array_vec_len};
ghost use Rattle.zone_rdata.specs.Address.{ipv4_text, ipv6_text, parted_groups};

use arrayvec::ArrayVec;
use std::net::Ipv6Addr;
use zone_name::Sink;

/// Room for the longest text of an address, which has 39 octets.
const ROOM: usize = 40;

/// Appends an octet in decimal.
fn push_number(text: &mut ArrayVec<u8, ROOM>, octet: u8)
    requires { array_vec_len text.old + 3 ≤ ROOM }
    ensures written { text.new.items ≡ text.old.items ++ decimal octet }
    ensures short { array_vec_len text.new ≤ array_vec_len text.old + 3 }
{
    if octet >= 100 {
        text.push(b'0' + octet / 100);
    }
    if octet >= 10 {
        text.push(b'0' + octet / 10 % 10);
    }
    text.push(b'0' + octet % 10);
}

/// The hexadecimal digits, in lower case (RFC 5952 4.3).
const DIGITS: &[u8; 16] = b"0123456789abcdef";

/// Appends the digit that stands for the lowest four bits.
fn push_digit(text: &mut ArrayVec<u8, ROOM>, bits: u16)
    requires { array_vec_len text.old < ROOM }
    ensures written { text.new.items ≡ text.old.items ++ digit_char (bits % 16) ∷ [] }
    ensures len { array_vec_len text.new ≡ array_vec_len text.old + 1 }
{
    text.push(DIGITS[usize::from(bits % 16)]);
}

/// Appends a group in lower case without leading zeros (RFC 5952 4.1, 4.3).
fn push_group(text: &mut ArrayVec<u8, ROOM>, group: u16)
    requires { array_vec_len text.old + 4 ≤ ROOM }
    ensures written { text.new.items ≡ text.old.items ++ std_text.hex group }
    ensures short { array_vec_len text.new ≤ array_vec_len text.old + 4 }
{
    if group >= 0x1000 {
        push_digit(text, group / 0x1000);
    }
    if group >= 0x100 {
        push_digit(text, group / 0x100);
    }
    if group >= 0x10 {
        push_digit(text, group / 0x10);
    }
    push_digit(text, group);
}

/// Appends groups parted by colons.
fn push_groups(text: &mut ArrayVec<u8, ROOM>, groups: &[u16])
    requires { array_vec_len text.old + 5 * length groups.now ≤ ROOM }
    ensures written { text.new.items ≡ text.old.items ++ parted_groups groups.now }
    ensures short { array_vec_len text.new ≤ array_vec_len text.old + (5 * length groups.now - 1) }
{
    if let [first, rest @ ..] = groups {
        push_group(text, *first);
        for group in rest {
            text.push(b':');
            push_group(text, *group);
        }
    }
}

/// Where the longest run of zero groups begins, the first of equal ones, and how many it has (RFC
/// 5952 4.2.3).
fn longest_zero_run(groups: &[u16]) -> (usize, usize)
    ensures start { result.0 ≡ (std_text.longest_zero_run groups.now).0 }
    ensures len { result.1 ≡ (std_text.longest_zero_run groups.now).1 }
    ensures within { result.0 + result.1 ≤ length groups.now }
{
    let mut start = groups.len();
    let mut len = 0;
    let mut run = 0;
    for i in (0..groups.len()).rev() {
        run = if groups[i] == 0 { run + 1 } else { 0 };
        if run >= len {
            start = i;
            len = run;
        }
    }
    (start, len)
}

/// Appends the text of four octets: four decimal numbers without leading zeros.
///
/// # Errors
///
/// `out` refuses the octets, and is unchanged.
pub fn push_ipv4<S: Sink>(octets: &[u8], out: &mut S) -> Result<(), S::Error>
    requires { length octets.now ≡ 4 }
    ensures ok { OnOk result (S.takes out.old (ipv4_text octets.now) out.new) }
    ensures err { OnErr result (S.takes out.old [] out.new) }
{
    let mut text = ArrayVec::new();
    push_number(&mut text, octets[0]);
    text.push(b'.');
    push_number(&mut text, octets[1]);
    text.push(b'.');
    push_number(&mut text, octets[2]);
    text.push(b'.');
    push_number(&mut text, octets[3]);
    out.push(text.as_slice())
}

/// Appends the text of sixteen octets, groups with `::` for their longest run of zeros (RFC 5952
/// 4).
///
/// # Errors
///
/// `out` refuses the octets, and is unchanged.
pub fn push_ipv6<S: Sink>(octets: &[u8], out: &mut S) -> Result<(), S::Error>
    requires { length octets.now ≡ 16 }
    ensures ok { OnOk result (S.takes out.old (ipv6_text octets.now) out.new) }
    ensures err { OnErr result (S.takes out.old [] out.new) }
{
    let mut sixteen = [0; 16];
    sixteen.copy_from_slice(octets);
    let groups = Ipv6Addr::from_octets(sixteen).segments();
    let (start, len) = longest_zero_run(&groups);
    let mut text = ArrayVec::new();
    if len < 2 {
        push_groups(&mut text, &groups);
    } else {
        push_groups(&mut text, &groups[..start]);
        text.push(b':');
        text.push(b':');
        push_groups(&mut text, &groups[start + len..]);
    }
    out.push(text.as_slice())
}
