ghost use Rattle.std.specs.Prelude.{◌≡◌, ◌<◌, ◌≤◌, ℕ, true, [], length, IfOk, IfErr, IsOk, MatchResult, List, Option};
ghost use Rattle.zone_wire.specs.Name.{Found, IsNameAt, found_by};
ghost use Rattle.zone_wire.specs.Machine.Finding.{Tells, named, outcome};
ghost use Rattle.zone_wire.specs.Walk.{Visit, IsWalk, NameFault};
ghost use Rattle.zone_wire.specs.Machine.Walk.{walk};

use crate::labels::LabelRoom;
use crate::spot::{Spot, Standing, step_at};
use crate::ticks::Ticks;
use zone_name::Name;
use zone_rdata::{Cause, Fault};

/// A name that was read from a message.
#[derive(Debug, Drop)]
pub struct Decoded {
    /// The name's labels, through the pointers.
    pub name: Name,
    /// The offset after the root's octet or after the first pointer.
    pub end: usize,
    /// The steps of the walk: one for each label and pointer on the way, and one for the root.
    pub steps: u16,
}

/// The name at an offset of a message (RFC 1035 3.1, 4.1.4).
///
/// # Errors
///
/// The fault at the first spot of the name that has one, and the steps of the walk: one for each
/// spot that was looked at.
#[tactic(auto, using(crate::proofs::Names::Walking::name_says))]
pub fn name_at(message: &[u8], offset: usize) -> Result<Decoded, (Fault, u16)>
    ensures found { IfOk result
        (λ d. (pointers : ℕ) × IsNameAt message.now offset (found_by d pointers)) }
    ensures only { (found : Found) → IsNameAt message.now offset found → IsOk result }
    ensures within { IfOk result (λ d. (offset < d.end) × (d.end ≤ length message.now)) }
    ensures fault { IfErr result (λ e. NameFault message.now offset e.0) }
    ensures places { IfErr result (λ e. (visits : List Visit) (ending : Option Fault)
        → IsWalk message.now offset visits ending → e.1 ≡ length visits) }
    ensures few { MatchResult result (λ d. d.steps ≤ 256) (λ e. e.1 ≤ 256) }
{
    let mut labels = LabelRoom::new();
    match read_name(message, offset, false, &mut labels) {
        Ok((end, steps)) => Ok(Decoded {
            name: labels.lend().to_name(),
            end,
            steps,
        }),
        Err((cause, steps)) => Err((cause.widened(), steps)),
    }
}

/// Puts the labels of the name at an offset into a room, in place of those there, and gives the
/// offset after the name and the steps of the walk. Labels that stand one after another are put
/// there at once, when the walk comes to what ends them. Where a name is known to stand, no fault is
/// looked for.
///
/// # Errors
///
/// As `name_at`; the room then has the labels before the last pointer.
#[inline(always)]
#[tactic(auto, using(crate::proofs::Names::RunLaws::name_is_walked))]
pub(crate) fn read_name(
    message: &[u8],
    offset: usize,
    known: bool,
    labels: &mut LabelRoom,
) -> Result<(usize, u16), (Cause, u16)>
    requires { known ≡ true → (found : Found)
        × (outcome message.now (walk message.now offset) ≡ named found) }
    ensures { Tells result labels.new (outcome message.now (walk message.now offset)) }
{
    labels.clear();
    let mut ticks = Ticks::new();
    let mut end = None;
    let mut spot = Spot::outset(offset);
    'places: loop {
        match step_at(message, spot, known, &mut ticks) {
            Standing::Outside => return Err((Cause::ShortMessage, ticks.count())),
            Standing::Bad(cause) => return Err((cause, ticks.count())),
            Standing::Root => {
                labels.push(message, spot.bound, spot.offset);
                return Ok((end.unwrap_or(spot.offset + 1), ticks.count()));
            }
            Standing::Label(size) => spot = spot.past_label(size),
            Standing::Pointer(target) => {
                labels.push(message, spot.bound, spot.offset);
                end = Some(end.unwrap_or(spot.offset + 2));
                spot = spot.past_pointer(target);
            }
        }
    }
}
