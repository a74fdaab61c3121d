//! Laws of sources: what one stands for after the records that it gives.
ghost use Rattle.std.specs.Prelude.{◌≡◌, ◌++◌, ◌∷◌, [], List, ℕ};
ghost use Rattle.zone_name.specs.Common.{Labels};
ghost use Rattle.zone_rdata.specs.FedSource.{Gives, SourceState};
ghost use Rattle.zone_rdata.specs.RrSource.{after, answer_of};
ghost use Rattle.zone_rdata.specs.declared.fault.Stop.{Stop};
ghost use Rattle.zone_rdata.specs.declared.record.Placed.{Placed};
ghost use Rattle.zone_text.specs.TextSource.{FileKept, StandsForFile};

/// After it has given records, a source stands for them and for what it has left to give.
pub fn what_is_given_was_given()
    ensures { (origin : Labels) (old new : SourceState FileKept) (more : List Placed) (fed : List ℕ)
        (given : List Placed) → Gives old more new → StandsForFile origin old fed given
        → StandsForFile origin new fed (given ++ more) }
{}

/// After an answer of `next` a source stands for the record that it gave too, or for what it stood
/// for where it gave none.
pub fn an_answer_is_given()
    ensures some { (origin : Labels) (old new : SourceState FileKept) (r : Placed) (fed : List ℕ)
        (given : List Placed) → new.pending ≡ after old.pending → new.held ≡ old.held
        → answer_of old.pending ≡ Ok (Some r) → StandsForFile origin old fed given
        → StandsForFile origin new fed (given ++ r ∷ []) }
    ensures none { (origin : Labels) (old new : SourceState FileKept) (fed : List ℕ)
        (given : List Placed)
        → new.pending ≡ after old.pending → new.held ≡ old.held → answer_of old.pending ≡ Ok None
        → StandsForFile origin old fed given → StandsForFile origin new fed given }
    ensures stop { (origin : Labels) (old new : SourceState FileKept) (stop : Stop) (fed : List ℕ)
        (given : List Placed) → new.pending ≡ after old.pending → new.held ≡ old.held
        → answer_of old.pending ≡ Err stop → StandsForFile origin old fed given
        → StandsForFile origin new fed given }
{}
