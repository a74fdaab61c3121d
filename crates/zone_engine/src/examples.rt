//! Refusals and canonical texts of small inputs, computed from the definitions.
ghost use Rattle.std.specs.Prelude.{◌≡◌, ◌∷◌, ◌++◌, [], Some, None, ℕ, List, length, codes};
ghost use Rattle.zone_rdata.specs.declared.fault.Fault.TheVariants.{ClassMismatch, MultipleSoa, DifferingTtl, UnclosedQuote, NoSoa, OutOfZone, InputTooLong};
ghost use Rattle.zone_rdata.specs.declared.fault.Place.TheVariants.{Line, Whole};
ghost use Rattle.zone_set.specs.Refusal.{IsFirstRefused};
ghost use Rattle.zone_print.specs.Canonical.{canon};
ghost use Rattle.zone_print.specs.Laws.{placed_from};
ghost use Rattle.zone_engine.specs.Examples.{top, under, x, a_x, soa_of, server_of, address_of, example_zone};
ghost use Rattle.zone_engine.specs.Input.{file, InputDenotes};
ghost use Rattle.zone_engine.specs.Normalise.{NormalisesTo};
ghost use Rattle.zone_engine.specs.Refusal.{IsRefusal, RefusesReading};

use crate::laws::headline;

/// The canonical text of a zone with an SOA and a name server.
pub fn a_canonical_text()
    ensures { canon (example_zone 3600) ≡ codes "x. 3600 IN SOA n.x. h.x. 1 2 3 4 5" ++ 10
        ∷ codes "x. 3600 IN NS n.x." ++ 10 ∷ [] }
{}

/// A file, the zone that it denotes and its canonical text: the MINIMUM of the SOA is the TTL.
pub fn a_file_and_its_zone()
    ensures zone { InputDenotes (file x (codes "@ SOA n h 1 2 3 4 5\n NS n\n")) (example_zone 5) }
    ensures text { canon (example_zone 5) ≡ codes "x. 5 IN SOA n.x. h.x. 1 2 3 4 5" ++ 10
        ∷ codes "x. 5 IN NS n.x." ++ 10 ∷ [] }
{
    zone_text::examples::entries::the_minimum_is_the_last_choice();
    zone_text::laws::file::a_file_states_what_is_read();
}

/// That text denotes the zone under x. as under a.x., and normalises to itself.
pub fn a_canonical_text_read_back()
    ensures same_origin { InputDenotes
        (file x (codes "x. 5 IN SOA n.x. h.x. 1 2 3 4 5" ++ 10 ∷ codes "x. 5 IN NS n.x." ++ 10
        ∷ [])) (example_zone 5) }
    ensures other_origin { InputDenotes
        (file a_x (codes "x. 5 IN SOA n.x. h.x. 1 2 3 4 5" ++ 10 ∷ codes "x. 5 IN NS n.x." ++ 10
        ∷ [])) (example_zone 5) }
    ensures again { let text = codes "x. 5 IN SOA n.x. h.x. 1 2 3 4 5" ++ 10
        ∷ codes "x. 5 IN NS n.x." ++ 10 ∷ [] in NormalisesTo (file a_x text) text }
{
    a_file_and_its_zone();
    headline();
}

/// A record whose class, SOA data and TTL differ is refused for its class.
pub fn a_record_of_another_class()
    ensures { IsFirstRefused (placed_from 1 (soa_of 1 60 1 ∷ soa_of 3 61 2 ∷ [])) ClassMismatch
        (Line 2) }
{}

/// A second SOA with another SERIAL.
pub fn a_second_soa()
    ensures { IsFirstRefused (placed_from 1 (soa_of 1 60 1 ∷ soa_of 1 60 2 ∷ [])) MultipleSoa
        (Line 2) }
{}

/// Two addresses of one owner with different TTLs.
pub fn a_differing_ttl()
    ensures { IsFirstRefused
        (placed_from 1 (soa_of 1 60 1 ∷ address_of a_x 300 1 ∷ address_of a_x 600 2 ∷ []))
        DifferingTtl (Line 3) }
{}

/// Records without an SOA.
pub fn records_without_an_soa()
    ensures { RefusesReading
        (placed_from 1 (server_of (top (codes "a")) 60 ∷ server_of (top (codes "b")) 60 ∷ [])) None
        NoSoa Whole }
{}

/// Of two owners outside the zone the least is named.
pub fn owners_outside_the_zone()
    ensures { RefusesReading
        (placed_from 1
        (soa_of 1 60 1 ∷ server_of (under (codes "b") (top (codes "y"))) 60 ∷ server_of
        (top (codes "y")) 60 ∷ [])) None (OutOfZone (top (codes "y"))) Whole }
{}

/// A differing TTL hides a quote that is left open on a later line.
pub fn a_differing_ttl_before_an_open_quote()
    ensures { RefusesReading
        (placed_from 1 (soa_of 1 60 1 ∷ address_of a_x 60 1 ∷ address_of a_x 61 1 ∷ []))
        (Some (UnclosedQuote, Line 4)) DifferingTtl (Line 3) }
{}

/// A file in which a differing TTL of the third line hides the open quote of the fourth.
pub fn a_file_with_a_differing_ttl()
    ensures { IsRefusal
        (file x (codes "@ 60 SOA n h 1 2 3 4 5\na 60 A 10.0.0.1\na 61 A 10.0.0.1\nb 60 TXT \"\n"))
        DifferingTtl (Line 3) }
{
    zone_text::examples::faults::records_before_an_open_quote();
    a_differing_ttl_before_an_open_quote();
}

/// An open quote hides that no SOA is there.
#[tactic(auto, using(crate::proofs::Refusals::Deciding::all_of_one, crate::specs::Refusal::unread))]
pub fn an_open_quote_before_a_missing_soa()
    ensures { RefusesReading (placed_from 1 (server_of (top (codes "a")) 60 ∷ []))
        (Some (UnclosedQuote, Line 2)) UnclosedQuote (Line 2) }
{}

/// An input of one octet more than the limit, whatever it states.
#[tactic(auto, using(crate::specs::Refusal::too_long))]
pub fn an_input_that_is_too_long()
    ensures { (octets : List ℕ) → length octets ≡ 1073741825
        → IsRefusal (file x octets) InputTooLong Whole }
{}

/// An empty input has no SOA.
pub fn an_empty_input()
    ensures { IsRefusal (file x []) NoSoa Whole }
{}

/// An input of an opening quote alone.
pub fn an_input_of_an_open_quote()
    ensures { IsRefusal (file x (34 ∷ [])) UnclosedQuote (Line 1) }
{}
