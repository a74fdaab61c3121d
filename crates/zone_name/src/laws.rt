//! Laws of names, each the contract of a function that does nothing.
ghost use Rattle.std.specs.Prelude.{◌≡◌, ◌<◌, ◌++◌, ℕ, Option, IfSome, option_map, slice_index};
ghost use Rattle.std.specs.Cmp.{IsTotalOrder};
ghost use Rattle.std.specs.declared.cmp.Ordering.TheVariants.{Equal};
ghost use Rattle.zone_name.specs.Common.{AreOctets, AtMostOneIs, EitherIs, IsVerdict, Labels, NeverBothAre, Octets};
ghost use Rattle.zone_name.specs.Name.{BeginsWithName, IsCasedName, IsName, folded, labels_of, wire};
ghost use Rattle.zone_name.specs.Order.{name_cmp};
ghost use Rattle.zone_name.specs.Spelling.{SpellingFault, Spells, SpellsCased};
ghost use Rattle.zone_name.specs.Text.{name_text};
ghost use Rattle.zone_name.specs.declared.fault.NameFault.{NameFault};

/// Octets are below 256.
#[inline(always)]
pub fn are_octets(octets: &[u8])
    ensures each { AreOctets octets.now }
    ensures at { (i : ℕ) → slice_index octets.now i < 256 }
{
    let _ = octets;
}

/// Names that compare as equal are equal.
#[tactic(auto, using(crate::proofs::Texts::Lawful::orders))]
pub fn order_is_exact()
    ensures { (a b : Labels) → name_cmp a b ≡ Equal → a ≡ b }
{}

/// The order of names is total.
#[tactic(auto, using(crate::proofs::Texts::Lawful::orders))]
pub fn order_is_total()
    ensures { IsTotalOrder name_cmp }
{}

/// A text spells at most one name under an origin.
pub fn spelling_is_unique()
    ensures { (origin : Option Labels) (text : Octets) → AtMostOneIs (Spells origin text) }
{}

/// A text of octets spells a name under an origin or has a first fault, never both, and one first
/// fault at most.
pub fn texts_have_one_verdict()
    ensures verdict { (origin : Option Labels) (text : Octets) → IfSome origin IsName
        → AreOctets text
        → IsVerdict (Spells origin text) (SpellingFault origin text) }
    ensures one_of { (origin : Option Labels) (text : Octets) → IfSome origin IsName
        → AreOctets text
        → EitherIs (Spells origin text) (SpellingFault origin text) }
    ensures never_both { (origin : Option Labels) (text : Octets)
        → NeverBothAre (Spells origin text) (SpellingFault origin text) }
    ensures one_fault { (origin : Option Labels) (text : Octets)
        → AtMostOneIs (SpellingFault origin text) }
{}

/// With its letters kept, a text of octets spells a name under an origin or has a first fault,
/// never both, and one of each at most.
#[tactic(auto, using(crate::proofs::Spelling::Answered::one_verdict_cased))]
pub fn cased_texts_have_one_verdict()
    ensures { (origin : Option Labels) (text : Octets) → IfSome origin IsCasedName
        → AreOctets text
        → IsVerdict (SpellsCased origin text) (SpellingFault origin text) }
{}

/// The name that a text spells under an origin with its letters in lower case is the one that it
/// spells with its letters kept, put in lower case; and the faults are the same.
pub fn letters_are_folded_before_or_after()
    ensures folds { (origin : Option Labels) (text : Octets) (labels : Labels)
        → SpellsCased origin text labels → Spells (option_map folded origin) text (folded labels) }
    ensures from { (origin : Option Labels) (text : Octets) (labels : Labels)
        → IfSome origin IsCasedName → AreOctets text → Spells (option_map folded origin) text labels
        → (cased : Labels) × SpellsCased origin text cased × (folded cased ≡ labels) }
    ensures fault { (origin : Option Labels) (text : Octets) (fault : NameFault)
        → SpellingFault origin text fault → SpellingFault (option_map folded origin) text fault }
{}

/// What is printed for a name spells that name under every origin and without one.
pub fn printed_names_are_spelled()
    ensures { (origin : Option Labels) (labels : Labels) → IsName labels
        → Spells origin (name_text labels) labels }
{}

/// The octets of a name hold its labels, whatever follows them.
#[tactic(auto, using(crate::proofs::InOctets::Octets::names_in_front))]
pub fn octets_hold_labels()
    ensures labels { (labels : Labels) (rest : Octets) → IsName labels
        → labels_of (wire labels ++ rest) ≡ labels }
    ensures front { (labels : Labels) (rest : Octets) → IsName labels
        → BeginsWithName (wire labels ++ rest) }
{}
