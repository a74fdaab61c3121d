//! Files whose records are computed: what an entry inherits from those before it.
ghost use Rattle.std.specs.Prelude.{◌≡◌, ◌∷◌, [], codes, Some, None};
ghost use Rattle.zone_rdata.specs.Spelling.{bare};
ghost use Rattle.zone_text.specs.ExampleEntries.{at_line, ns, TextGives, soa, under, x};
ghost use Rattle.zone_text.specs.Statements.{class, parts_after, ttl};

use zone_rdata::laws::word::kind_word_is_unique;

/// A TTL and a class stand in either order, each once: a second one is the type's word.
pub fn words_before_the_type()
    ensures class_first { parts_after []
        (bare (codes "IN") ∷ bare (codes "60") ∷ bare (codes "A") ∷ [])
        ≡ record {
          words = class (codes "IN") ∷ ttl (codes "60") ∷ [];
          rest = bare (codes "A")
              ∷ [];
        } }
    ensures second_ttl { parts_after []
        (bare (codes "60") ∷ bare (codes "6x") ∷ bare (codes "A") ∷ [])
        ≡ record {
          words = ttl (codes "60") ∷ [];
          rest = bare (codes "6x") ∷ bare (codes "A")
              ∷ [];
        } }
    ensures second_class { parts_after []
        (bare (codes "IN") ∷ bare (codes "CLASS0") ∷ bare (codes "A") ∷ [])
        ≡ record {
          words = class (codes "IN") ∷ [];
          rest = bare (codes "CLASS0") ∷ bare (codes "A")
              ∷ [];
        } }
{}

/// An entry that begins with a blank has the owner stated last, and a TTL left out is the one
/// stated last.
pub fn owner_and_ttl_are_inherited()
    ensures { TextGives (codes "@ 60 NS n.x.\n NS n.x.\n")
        (at_line 1 (ns x 1 60) ∷ at_line 2 (ns x 1 60) ∷ []) None }
{}

/// An entry goes on inside parentheses over the ends of lines, and the entry after it stands at its
/// own line.
pub fn an_entry_may_take_several_lines()
    ensures { TextGives (codes "@ 60 NS (\n n.x.\n)\n NS n.x.\n")
        (at_line 1 (ns x 1 60) ∷ at_line 4 (ns x 1 60) ∷ []) None }
{}

/// A TTL left out is that of `$TTL` before it, not the one stated last.
pub fn a_default_ttl_comes_first()
    ensures { TextGives (codes "@ 60 NS n.x.\n$TTL 300\n NS n.x.\n")
        (at_line 1 (ns x 1 60) ∷ at_line 3 (ns x 1 300) ∷ []) None }
{}

/// A relative origin is read under the origin before it, and the word of the directive in any case.
pub fn origins_are_nested()
    ensures { TextGives (codes "$ORIGIN a\n$origin b\n@ 60 NS n.x.\n")
        (at_line 3 (ns (under 98 (under 97 x)) 1 60) ∷ []) None }
{}

/// An owner left out after `$ORIGIN` is still the name stated last, unchanged.
pub fn an_owner_keeps_its_origin()
    ensures { TextGives (codes "@ 60 NS n.x.\n$ORIGIN a\n 60 NS n.x.\n")
        (at_line 1 (ns x 1 60) ∷ at_line 3 (ns x 1 60) ∷ []) None }
{}

/// A class left out is the one stated last.
pub fn a_class_is_inherited()
    ensures { TextGives (codes "@ 60 CH NS n.x.\n@ NS n.x.\n")
        (at_line 1 (ns x 3 60) ∷ at_line 2 (ns x 3 60) ∷ []) None }
{}

/// Where no TTL is stated, the MINIMUM of the SOA is that of the records after it and its own.
pub fn the_minimum_is_the_last_choice()
    ensures { TextGives (codes "@ SOA n h 1 2 3 4 5\n NS n\n")
        (at_line 1 (soa 5) ∷ at_line 2 (ns x 1 5) ∷ []) None }
{
    kind_word_is_unique();
}

/// A stated TTL comes before the MINIMUM, that of `$TTL` before the one stated last.
pub fn a_stated_ttl_comes_before_the_minimum()
    ensures by_a_record { TextGives (codes "@ 60 SOA n h 1 2 3 4 5\n NS n\n")
        (at_line 1 (soa 60) ∷ at_line 2 (ns x 1 60) ∷ []) None }
    ensures by_a_directive { TextGives (codes "@ 60 SOA n h 1 2 3 4 5\n$TTL 300\n NS n\n")
        (at_line 1 (soa 60) ∷ at_line 3 (ns x 1 300) ∷ []) None }
{}
