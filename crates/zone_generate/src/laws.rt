//! Laws of `$GENERATE`: what is true of its lines, whatever its templates are.
ghost use Rattle.std.specs.Prelude.{◌≡◌, ◌≤◌, ◌↔◌, ◌++◌, ◌∷◌, [], length, ℕ, List, None, Err, Option, Some};
ghost use Rattle.zone_rdata.specs.Item.{RawItem};
ghost use Rattle.zone_generate.specs.Entry.{Generation, generation_in};
ghost use Rattle.zone_generate.specs.Lines.{AreLines, IsLineFor, Templates};
ghost use Rattle.zone_generate.specs.declared.failing.GenerateFault.TheVariants as faults;
ghost use Rattle.zone_generate.specs.Steps.{IsAtFault, TakesValue};

/// A range of one value is one line.
#[tactic(auto, using(crate::proofs::ValueLines::one_value_lines))]
pub fn one_value_is_one_line()
    ensures { (t : Templates) (value : ℕ) (text : List ℕ)
        → AreLines t (value ∷ []) text None ↔ IsLineFor t value text }
{}

/// Two values in a row are both lines, joined.
#[tactic(auto, using(crate::proofs::ValueLines::two_value_lines))]
pub fn two_values_are_two_lines_joined()
    ensures { (t : Templates) (first second : ℕ) (text : List ℕ)
        → AreLines t (first ∷ second ∷ []) text None ↔ ((line : List ℕ) × (next : List ℕ)
        × IsLineFor t first line × IsLineFor t second next × (text ≡ line ++ next)) }
{}

/// Templates have at most one text for values, and at most one fault.
#[tactic(auto, using(crate::proofs::ValueLines::one_text))]
pub fn values_have_one_text()
    ensures { (t : Templates) (values text other : List ℕ) (fault another : Option ℕ)
        → AreLines t values text fault → AreLines t values other another
        → (text ≡ other) × (fault ≡ another) }
{}

/// Templates have a text for all values: that of their lines, or of those before the first value
/// without one.
#[tactic(auto, using(crate::proofs::ValueLines::lines_found))]
pub fn values_have_a_text()
    ensures { (t : Templates) (values : List ℕ)
        → (text : List ℕ) × (fault : Option ℕ) × AreLines t values text fault }
{}

/// What `Generated::next_line` appends, and then the lines that are still to come, are the lines that
/// were to come before; where it finds a fault, or no value, none are.
#[tactic(auto, using(crate::proofs::ValueLines::taken_lines))]
pub fn lines_are_taken_one_by_one()
    ensures line { (old new : Generation) (value : ℕ) (before after rest : List ℕ)
        (fault : Option ℕ) → TakesValue old value new before after
        → AreLines new.templates new.values rest fault
        → (text : List ℕ) × AreLines old.templates old.values text fault
        × (after ++ rest ≡ before ++ text) }
    ensures none { (g : Generation) → g.values ≡ [] → AreLines g.templates g.values [] None }
    ensures fault { (g : Generation) (value : ℕ) → IsAtFault g value
        → AreLines g.templates g.values [] (Some value) }
{}

/// What a `$GENERATE` entry has after its word is six items at most. Of more it has the fault
/// `BadGenerate`, so it doesn't matter that not all of very many are kept.
pub fn many_items_are_no_generation()
    ensures { (items : List RawItem) → 7 ≤ length items
        → generation_in items ≡ Err faults.BadGenerate }
{}
