//! Laws of what inputs are answered, over the definitions alone.
ghost use Rattle.std.specs.Prelude.{◌≡◌, ℕ};
ghost use Rattle.digest_command.specs.Run.{IsAnswer};
ghost use Rattle.digest_command.specs.declared.order.Order.{Order};
ghost use Rattle.zone_engine.specs.Headline.{DenoteOne};
ghost use Rattle.zone_engine.specs.Input.{Input, InputDenotes};
ghost use Rattle.zone_name.specs.Common.{Octets};
ghost use Rattle.zone_set.specs.Zone.{Zone};

use zone_digest::laws::{one_list_of_findings, one_serial_of_a_zone, one_wanted_record};
use zone_engine::laws::one_zone;

/// Two inputs that denote one zone are answered alike, each a master file or a transfer, however it
/// is written: with the same verdicts or the same digest, and the same status.
pub fn inputs_of_one_zone_are_answered_alike()
    ensures { (a b : Input) (z w : Zone) (order : Order) (text other : Octets) (status ended : ℕ)
        → DenoteOne a b → InputDenotes a z → InputDenotes b w → IsAnswer z order text status
        → IsAnswer w order other ended → (text ≡ other) × (status ≡ ended) }
{
    one_zone();
    one_serial_of_a_zone();
    one_list_of_findings();
    one_wanted_record();
}
