ghost use Rattle.std.specs.Prelude.{◌≡◌, ◌∷◌, ◌≤◌, [], length, map, IsTrue, IfSome, Ok, option_copied};
ghost use Rattle.zone_name.specs.Name.{folded_octet, labels_of};
ghost use Rattle.zone_name.specs.Machine.Letters.{HoldsNameBy, name_read, origin_in};

use crate::lanes::put;
use crate::limits::MAX_NAME_LEN;
use crate::reading::{Letters, read_plain};
use std::fmt;
use std::marker::Model;

/// The octets of a name, in a room that is never cleared. Contracts see the octets.
#[derive(Drop)]
pub(crate) struct NameOctets {
    room: [u8; MAX_NAME_LEN],
    /// How many octets of the room the name takes.
    len: usize,
}

impl Model for NameOctets {
    ghost use Rattle.std.specs.Prelude.{◌≤◌, List, ℕ, take};

    ghost Value = { List ℕ };

    ghost view = { λ o. take o.len o.room };

    ghost invariant = { λ o. o.len ≤ 255 };
}

impl NameOctets {
    /// Those of the root.
    pub(crate) fn root() -> NameOctets
        ensures { result ≡ 0 ∷ [] }
    {
        let room = [0; MAX_NAME_LEN];
        NameOctets { room, len: 1 }
    }

    /// A copy of these octets.
    pub(crate) fn holding(octets: &[u8]) -> NameOctets
        requires { length octets.now ≤ 255 }
        ensures { result ≡ octets.now }
    {
        let mut held = NameOctets::root();
        held.hold(octets);
        held
    }

    /// Puts other octets in place of those that are held.
    #[tactic(auto, using(std::proofs::lemmas::Simd::take_more_put_chunk))]
    pub(crate) fn hold(&mut self, octets: &[u8])
        requires { length octets.now ≤ 255 }
        ensures { self.new ≡ octets.now }
    {
        put(&mut self.room, 0, octets);
        self.len = octets.len();
    }

    /// The octets.
    pub(crate) fn as_slice(&self) -> &[u8]
        ensures value { result.now ≡ self.now }
        ensures fits { length result.now ≤ 255 }
    {
        &self.room[..self.len]
    }

    /// Puts the letters of the whole room in lower case (RFC 4343 3). A label's length is no letter,
    /// and stays.
    #[tactic(auto, using(crate::proofs::InOctets::Pushing::folded_front))]
    pub(crate) fn fold(&mut self)
        ensures { self.new ≡ map folded_octet self.old }
    {
        self.room.make_ascii_lowercase();
    }

    /// Puts the name of a text without escapes, which is neither `.` nor `@`, in place of those that
    /// are held, and tells whether it did. If not, the text has an escape or a fault or the name is
    /// long, and the octets say nothing.
    #[inline(always)]
    pub(crate) fn set_plain(&mut self, text: &[u8], origin: Option<&[u8]>, letters: Letters) -> bool
        requires { IfSome (option_copied origin) (HoldsNameBy letters) }
        ensures { IsTrue result → HoldsNameBy letters self.new
            × (name_read letters (origin_in (option_copied origin.entry)) text.now
            ≡ Ok (labels_of self.new)) }
    {
        let Some(len) = read_plain(&mut self.room, text, origin, letters) else {
            return false;
        };
        self.len = len;
        true
    }
}

/// The octets alone: the rest of the room is of names before.
impl fmt::Debug for NameOctets {
    fn fmt<W: fmt::Write>(&self, f: &mut fmt::Formatter<W>) -> fmt::Result {
        f.debug_list().entries(self.as_slice()).finish()
    }
}
