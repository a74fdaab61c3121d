ghost use Rattle.std.specs.Prelude.{◌≡◌, [], OnOk, OnErr};
ghost use Rattle.zone_name.specs.Text.{name_text};

use crate::limits::MAX_NAME_LEN;
use crate::name::Name;
use crate::sink::{FixedBuffer, Sink};

/// No canonical spelling has more octets: four for each octet of the name, and a dot.
const LONGEST: usize = 4 * MAX_NAME_LEN + 1;

impl Name {
    /// Appends the canonical spelling, at most 1,021 octets.
    ///
    /// # Errors
    ///
    /// `out` refuses the octets, and is unchanged.
    pub fn push_text<S: Sink>(&self, out: &mut S) -> Result<(), S::Error>
        ensures ok { OnOk result (S.takes out.old (name_text self.now) out.new) }
        ensures err { OnErr result (S.takes out.old [] out.new) }
    {
        let mut text = FixedBuffer::new();
        self.write_text(&mut text);
        out.push(text.as_slice())
    }

    /// Writes the canonical spelling into the room for it.
    // Not inlined: the text is then written where it is read, and not moved.
    #[inline(never)]
    #[tactic(auto, using(crate::proofs::Texts::Fitting::spelling_fits))]
    fn write_text(&self, text: &mut FixedBuffer<LONGEST>)
        requires { text.old ≡ [] }
        ensures { text.new ≡ name_text self.now }
    {
        let Ok(()) = self.lend().print(text);
    }
}
