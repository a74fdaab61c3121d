//! Laws of sources: what one stands for after the records that it gives.
ghost use Rattle.std.specs.Prelude.{◌≡◌, ◌++◌, ◌∷◌, [], Err, List, None, Ok, Some, ℕ};
ghost use Rattle.zone_rdata.specs.FedSource.{Gives, SourceState};
ghost use Rattle.zone_rdata.specs.RrSource.{after, answer_of};
ghost use Rattle.zone_rdata.specs.declared.fault.Stop.{Stop};
ghost use Rattle.zone_rdata.specs.declared.record.Placed.{Placed};
ghost use Rattle.zone_wire.specs.TransferSource.{StandsForStream, StreamKept};

/// After it has given records, a source stands for them and for what it has left to give.
#[tactic(auto, using(crate::proofs::Common::stands_given))]
pub fn what_is_given_was_given()
    ensures { (old new : SourceState StreamKept) (more : List Placed) (fed : List ℕ)
        (given : List Placed)
        → Gives old more new → StandsForStream old fed given
        → StandsForStream new fed (given ++ more) }
{}

/// After an answer of `next` a source stands for the record that it gave too, or for what it stood
/// for where it gave none.
#[tactic(auto, using(crate::proofs::Records::Answering::given_stands))]
pub fn an_answer_is_given()
    ensures some { (old new : SourceState StreamKept) (r : Placed) (fed : List ℕ)
        (given : List Placed)
        → new.pending ≡ after old.pending → new.held ≡ old.held
        → answer_of old.pending ≡ Ok (Some r)
        → StandsForStream old fed given → StandsForStream new fed (given ++ r ∷ []) }
    ensures none { (old new : SourceState StreamKept) (fed : List ℕ) (given : List Placed)
        → new.pending ≡ after old.pending → new.held ≡ old.held → answer_of old.pending ≡ Ok None
        → StandsForStream old fed given → StandsForStream new fed given }
    ensures stop { (old new : SourceState StreamKept) (stop : Stop) (fed : List ℕ)
        (given : List Placed)
        → new.pending ≡ after old.pending → new.held ≡ old.held → answer_of old.pending ≡ Err stop
        → StandsForStream old fed given → StandsForStream new fed given }
{}
