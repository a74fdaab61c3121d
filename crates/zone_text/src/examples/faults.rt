//! Files whose first fault is computed.
ghost use Rattle.std.specs.Prelude.{◌∷◌, [], codes, None};
ghost use Rattle.zone_rdata.specs.declared.fault.Fault.TheVariants.{BadClass, BadDirective, BadEscape, BadTtl, EmptyLabel, IncludeDirective, MetaType, NoOwner, NoTtl, UnbalancedParenthesis, UnclosedQuote, UnknownDirective, UnknownType};
ghost use Rattle.zone_text.specs.Decided.{FileDecides};
ghost use Rattle.zone_text.specs.ExampleEntries.{address, at_line, fault_at, ns, TextGives, soa, under, x};

use zone_rdata::laws::word::{kind_word_is_unique, time_is_unique};

/// A directive's word is judged first, then its items, then the value.
pub fn directives_that_are_refused()
    ensures include { TextGives (codes "@ 60 NS n.x.\n$include\n") (at_line 1 (ns x 1 60) ∷ [])
        (fault_at 2 IncludeDirective) }
    ensures generate { TextGives (codes "$GENERATE 1-2 a\n") [] (fault_at 1 UnknownDirective) }
    ensures dollar_alone { TextGives (codes "$\n") [] (fault_at 1 UnknownDirective) }
    ensures no_item { TextGives (codes "$ORIGIN\n") [] (fault_at 1 BadDirective) }
    ensures two_items { TextGives (codes "$ORIGIN a b\n") [] (fault_at 1 BadDirective) }
    ensures quoted_item { TextGives (codes "$TTL \"5\"\n") [] (fault_at 1 BadDirective) }
    ensures bad_name { TextGives (codes "$ORIGIN a..b\n") [] (fault_at 1 EmptyLabel) }
    ensures no_time { TextGives (codes "$TTL x\n") [] (fault_at 1 BadTtl) }
    ensures long_time { TextGives (codes "$TTL 2147483648\n") [] (fault_at 1 BadTtl) }
{
    time_is_unique();
}

/// An owner is left out before any was stated, or quoted.
pub fn records_without_an_owner()
    ensures omitted { TextGives (codes " NS n\n") [] (fault_at 1 NoOwner) }
    ensures quoted { TextGives (codes "\"a\" 60 A 10.0.0.1\n") [] (fault_at 1 NoOwner) }
    ensures after_a_blank { TextGives (codes " $ORIGIN y.\n") [] (fault_at 1 NoOwner) }
{}

/// The words before the type are judged from the left, then the type.
pub fn words_that_are_refused()
    ensures class_zero { TextGives (codes "@ CLASS0 2147483648\n") [] (fault_at 1 BadClass) }
    ensures long_ttl { TextGives (codes "@ 2147483648 CLASS0\n") [] (fault_at 1 BadTtl) }
    ensures no_type { TextGives (codes "@ 60\n") [] (fault_at 1 UnknownType) }
    ensures quoted_type { TextGives (codes "@ 60 \"NS\" n\n") [] (fault_at 1 UnknownType) }
    ensures long_type { TextGives (codes "@ 60 TYPE65536\n") [] (fault_at 1 UnknownType) }
    ensures meta_type { TextGives (codes "@ 60 TYPE41\n") [] (fault_at 1 MetaType) }
{
    time_is_unique();
}

/// A TTL left out before anything could give one.
pub fn a_record_without_a_ttl()
    ensures { TextGives (codes "@ NS n.x.\n") [] (fault_at 1 NoTtl) }
{
    kind_word_is_unique();
}

/// A MINIMUM of more than 31 bits is no TTL.
pub fn a_minimum_that_is_no_ttl()
    ensures { TextGives (codes "@ SOA n h 1 2 3 4 2147483648\n") [] (fault_at 1 BadTtl) }
{}

/// A break stands at the line of its entry and hides what else is wrong there.
pub fn breaks_come_first()
    ensures escape { TextGives (codes "$INCLUDE \\04") [] (fault_at 1 BadEscape) }
    ensures parenthesis { TextGives (codes "@ 60 NS n.x.\n$FOO )\n") (at_line 1 (ns x 1 60) ∷ [])
        (fault_at 2 UnbalancedParenthesis) }
    ensures quote { TextGives (codes "@ 60 NS n.x.\n( \"a") (at_line 1 (ns x 1 60) ∷ [])
        (fault_at 2 UnclosedQuote) }
    ensures open_at_the_end { TextGives (codes "( ; c") [] (fault_at 1 UnbalancedParenthesis) }
{}

/// The records before a break are given.
pub fn records_before_an_open_quote()
    ensures { TextGives
        (codes "@ 60 SOA n h 1 2 3 4 5\na 60 A 10.0.0.1\na 61 A 10.0.0.1\nb 60 TXT \"\n")
        (at_line 1 (soa 60) ∷ at_line 2 (address (under 97 x) 60) ∷ at_line 3
        (address (under 97 x) 61) ∷ []) (fault_at 4 UnclosedQuote) }
{}

/// What is decided of a prefix: the entries that a line feed has ended, and no open one.
pub fn decided_entries()
    ensures { FileDecides x (codes "@ 60 NS n.x.\n$FOO\n@") (at_line 1 (ns x 1 60) ∷ [])
        (fault_at 2 UnknownDirective) }
{}

/// What is decided of a prefix that breaks: a `)` and a bad escape with what ends it, and no escape
/// that is cut off.
pub fn decided_breaks()
    ensures parenthesis { FileDecides x (codes "@ 60 NS n.x.\n)") (at_line 1 (ns x 1 60) ∷ [])
        (fault_at 2 UnbalancedParenthesis) }
    ensures lost_escape { FileDecides x (codes "t \\04x") [] (fault_at 1 BadEscape) }
    ensures cut_off_escape { FileDecides x (codes "t \\04") [] None }
{}
