//! What passes a text on as it comes.
ghost use Rattle.std.specs.Prelude.{◌≡◌, ◌+◌, ◌^◌, ◌<◌, ◌≤◌, ◌++◌, ℕ, List, length, OnErr, OnOk};
ghost use Rattle.words_command.specs.Filtering.{Filtering, IsSoFarInPart};

use std::alloc::AllocError;
use words_print::WordsPrinter;
use zone_words::Rewriter;

/// What is fed a text in pieces, and writes another one for it as it comes.
pub(crate) trait Filter {
    /// What it may filter under, as the origin of a file.
    ghost Under: { Type 0 };

    /// What it writes for octets.
    ghost writes: { Under → Filtering };

    /// That it may be fed, and the text may end.
    ghost IsOpen: { Self → Type 0 };

    /// How many octets it was fed, if it counts them.
    ghost fed: { Self → ℕ };

    /// What it has written and nobody has taken.
    ghost held: { Self → List ℕ };

    /// What it stands for: the octets that it was fed, and what it has given of what it wrote.
    ghost Stands: { Under → Self → List ℕ → List ℕ → Type 0 };

    /// The same once the text has ended: its octets, and all that is written for them.
    ghost Whole: { Under → Self → List ℕ → List ℕ → Type 0 };

    /// Takes the next piece of the text.
    ///
    /// # Errors
    ///
    /// `AllocError`.
    fn feed(&mut self, piece: &[u8]) -> Result<(), AllocError>
        requires going { IsOpen self.old }
        requires fits { fed self.old + length piece.now + 1 < 2 ^ 64 }
        ensures stands { OnOk result ((under : Under) (octets given : List ℕ)
            → Stands under self.old octets given
            → Stands under self.new (octets ++ piece.now) given) }
        ensures going { OnOk result (IsOpen self.new) }
        ensures count { OnOk result (fed self.new ≤ fed self.old + length piece.now) }
        ensures in_part { OnErr result ((under : Under) (octets given : List ℕ)
            → Stands under self.old octets given
            → IsSoFarInPart (writes under).SoFar (octets ++ piece.now)
            (given ++ held self.new)) };

    /// Takes the end of the text.
    ///
    /// # Errors
    ///
    /// `AllocError`.
    fn finish(&mut self) -> Result<(), AllocError>
        requires going { IsOpen self.old }
        ensures whole { OnOk result ((under : Under) (octets given : List ℕ)
            → Stands under self.old octets given
            → Whole under self.new octets (given ++ held self.new)) }
        ensures in_part { OnErr result ((under : Under) (octets given : List ℕ)
            → Stands under self.old octets given
            → IsSoFarInPart (writes under).SoFar octets (given ++ held self.new)) };

    /// What it has written and nobody has taken.
    fn written(&self) -> &[u8]
        ensures { result.now ≡ held self.now };

    /// Lets go of what it has written, which the caller has taken.
    fn clear_written(&mut self)
        ensures stands { (under : Under) (octets given : List ℕ)
            → Stands under self.old octets given
            → Stands under self.new octets (given ++ held self.old) }
        ensures whole { (under : Under) (octets text : List ℕ)
            → Whole under self.old octets text → Whole under self.new octets text }
        ensures going { IsOpen self.old → IsOpen self.new }
        ensures count { fed self.new ≡ fed self.old };

    /// What it has written is all that is written for the octets so far.
    ghost so_far: { (under : Under) (filter : Self) (octets given : List ℕ)
        → Stands under filter octets given
        → (writes under).SoFar octets (given ++ held filter) };

    /// What it has written of a whole text is what is written for it.
    ghost all: { (under : Under) (filter : Self) (octets text : List ℕ)
        → Whole under filter octets text → (writes under).All octets text };
}

/// It writes a master file again under an origin, entry by entry (RFC 1035 5.1).
impl Filter for Rewriter {
    ghost use Rattle.zone_name.specs.Common.{Labels};
    ghost use Rattle.zone_rdata.specs.declared.fed.FedStatus.TheVariants.{Open};
    ghost use Rattle.words_command.specs.Machine.Filters.{HasRewritten, RewritesSoFar};
    ghost use Rattle.words_command.specs.Run.{rewriting};

    ghost Under = { Labels };

    ghost writes = { rewriting };

    ghost IsOpen = { λ rewriter. rewriter.status ≡ Open };

    ghost fed = { λ rewriter. rewriter.fed };

    ghost held = { λ rewriter. rewriter.held.written };

    ghost Stands = { RewritesSoFar };

    ghost Whole = { HasRewritten };

    fn feed(&mut self, piece: &[u8]) -> Result<(), AllocError> {
        Rewriter::feed(self, piece)
    }

    fn finish(&mut self) -> Result<(), AllocError> {
        Rewriter::finish(self)
    }

    fn written(&self) -> &[u8] {
        Rewriter::written(self)
    }

    fn clear_written(&mut self) {
        Rewriter::clear_written(self)
    }

    ghost so_far = { λ origin rewriter octets given is. is.so_far };

    ghost all = { λ origin rewriter octets text is. (is.told, is.is) };
}

/// It shows a text in presentation format, line by line.
impl Filter for WordsPrinter {
    ghost use Rattle.std.specs.Prelude.{⊤};
    ghost use Rattle.words_command.specs.Machine.Filters.{HasShown, ShowsSoFar};
    ghost use Rattle.words_command.specs.Run.{showing};

    ghost Under = { ⊤ };

    ghost writes = { λ any. showing };

    ghost IsOpen = { λ printer. ⊤ };

    ghost fed = { λ printer. 0 };

    ghost held = { λ printer. printer.written };

    ghost Stands = { ShowsSoFar };

    ghost Whole = { HasShown };

    fn feed(&mut self, piece: &[u8]) -> Result<(), AllocError> {
        WordsPrinter::feed(self, piece)
    }

    fn finish(&mut self) -> Result<(), AllocError> {
        WordsPrinter::finish(self)
    }

    fn written(&self) -> &[u8] {
        WordsPrinter::written(self)
    }

    fn clear_written(&mut self) {
        WordsPrinter::clear_written(self)
    }

    ghost so_far = { λ any printer octets given is. record {
      done = is.done;
      waiting = printer.waiting;
      whole = is.whole;
      unended = is.unended;
      shown = is.shown;
    } };

    ghost all = { λ any printer octets text is. is };
}
