//! Texts that are cut into tokens, and texts that break.
#![tactic(auto, using(crate::proofs::Tokens::Cuttings::broken_is_read), unfolding(zone_name::specs::Machine::Units::units_by, zone_name::specs::Machine::Units::units_first, crate::specs::Machine::Cutting::before_line_feed, crate::specs::Machine::Cutting::from_line_feed, crate::specs::Machine::Cutting::front_of, crate::specs::Machine::Cutting::cut_by, crate::specs::Machine::Cutting::cutting))]

ghost use Rattle.std.specs.Prelude.{◌∷◌, [], codes};
ghost use Rattle.zone_name.specs.Spelling.{decimal, escaped, plain};
ghost use Rattle.zone_rdata.specs.declared.fault.Fault.TheVariants.{BadEscape, UnbalancedParenthesis, UnclosedQuote};
ghost use Rattle.zone_text.specs.Breaks.{Breaks};
ghost use Rattle.zone_text.specs.ExampleTokens.{item, space, string};
ghost use Rattle.zone_text.specs.Tokens.{bare, blank, closing, comment, Cuts, line_feed, opening, quoted};

/// Blanks part items, and a line feed is a token of its own at any depth.
pub fn blanks_and_parentheses()
    ensures nothing { Cuts [] [] }
    ensures blank_lines { Cuts (codes "\n \t\r\n; c\n")
        (line_feed ∷ blank 32 ∷ blank 9 ∷ blank 13 ∷ line_feed ∷ comment (codes " c") ∷ line_feed
        ∷ []) }
    ensures last_line { Cuts (codes "a b") (item (codes "a") ∷ space ∷ item (codes "b") ∷ []) }
    ensures nested { Cuts (codes "(a(\nb))\n")
        (opening ∷ item (codes "a") ∷ opening ∷ line_feed ∷ item (codes "b") ∷ closing ∷ closing
        ∷ line_feed ∷ []) }
{}

/// A semicolon ends a bare item, quotes and parentheses inside a comment mean nothing, and it may
/// end with the text.
pub fn comments()
    ensures after_an_item { Cuts (codes "a;b\n; c ) \"\n")
        (item (codes "a") ∷ comment (codes "b") ∷ line_feed ∷ comment (codes " c ) \"") ∷ line_feed
        ∷ []) }
    ensures at_the_end { Cuts (codes "k ; c")
        (item (codes "k") ∷ space ∷ comment (codes " c") ∷ []) }
{}

/// A quoted item may be empty, and holds a semicolon, a parenthesis and a line feed. It begins a
/// new item without a blank, and so does what follows it.
pub fn quotes()
    ensures whole_entry { Cuts (codes "t ( \"a;)\nb\" ) ; c\n")
        (item (codes "t") ∷ space ∷ opening ∷ space ∷ string (codes "a;)\nb") ∷ space ∷ closing
        ∷ space ∷ comment (codes " c") ∷ line_feed ∷ []) }
    ensures no_blanks { Cuts (codes "\"a\"b\"c\"")
        (string (codes "a") ∷ item (codes "b") ∷ string (codes "c") ∷ []) }
    ensures empty { Cuts (codes "\"\"") (string [] ∷ []) }
{}

/// An escaped octet ends nothing, and three digits stand for an octet of at most 255.
pub fn escapes()
    ensures blank { Cuts (codes "a\\ b") (bare (plain 97 ∷ escaped 32 ∷ plain 98 ∷ []) ∷ []) }
    ensures semicolon { Cuts (codes "\\; \"a\\059\"")
        (bare (escaped 59 ∷ []) ∷ space ∷ quoted (plain 97 ∷ decimal 48 53 57 ∷ []) ∷ []) }
    ensures quote { Cuts (codes "\"a\\\"b\" c\\\"d")
        (quoted (plain 97 ∷ escaped 34 ∷ plain 98 ∷ []) ∷ space
        ∷ bare (plain 99 ∷ escaped 34 ∷ plain 100 ∷ []) ∷ []) }
    ensures backslash { Cuts (codes "\"\\\\\"") (quoted (escaped 92 ∷ []) ∷ []) }
    ensures greatest { Cuts (codes "\\255") (bare (decimal 50 53 53 ∷ []) ∷ []) }
    ensures at_the_end { Cuts (codes "\\046") (bare (decimal 48 52 54 ∷ []) ∷ []) }
{}

/// A parenthesis closes none, or is open at the end, also after a comment that has no line feed.
pub fn parentheses_that_do_not_balance()
    ensures closes_none { Breaks (codes "t )\n")
        (item (codes "t") ∷ space ∷ []) UnbalancedParenthesis }
    ensures closes_too_many { Breaks (codes "(a))")
        (opening ∷ item (codes "a") ∷ closing ∷ []) UnbalancedParenthesis }
    ensures directly_after_an_item { Breaks (codes "a)")
        (item (codes "a") ∷ []) UnbalancedParenthesis }
    ensures stays_open { Breaks (codes "( ( t\n")
        (opening ∷ space ∷ opening ∷ space ∷ item (codes "t") ∷ line_feed ∷ [])
        UnbalancedParenthesis }
    ensures open_after_a_comment { Breaks (codes "( ; c")
        (opening ∷ space ∷ comment (codes " c") ∷ [])
        UnbalancedParenthesis }
{}

/// A quoted item that doesn't end, whatever the depth.
pub fn quotes_that_do_not_close()
    ensures runs_over_lines { Breaks
        (codes "t \"a\n") (item (codes "t") ∷ space ∷ []) UnclosedQuote }
    ensures in_parentheses { Breaks (codes "( \"a") (opening ∷ space ∷ []) UnclosedQuote }
    ensures quote_alone { Breaks (codes "\"") [] UnclosedQuote }
    ensures escaped_quote { Breaks (codes "\"a\\\"") [] UnclosedQuote }
{}

/// A backslash that begins no escape in a bare item: before a line feed, a carriage return, the
/// end, one digit, two digits, and a number over 255. The octets before it are an item.
pub fn bad_escapes_in_bare_items()
    ensures line_feed { Breaks (codes "a\\\n") (item (codes "a") ∷ []) BadEscape }
    ensures carriage_return { Breaks (codes "a\\\r\n") (item (codes "a") ∷ []) BadEscape }
    ensures end { Breaks (codes "a\\") (item (codes "a") ∷ []) BadEscape }
    ensures one_digit { Breaks (codes "a \\0b\n") (item (codes "a") ∷ space ∷ []) BadEscape }
    ensures two_digits { Breaks (codes "t \\04 )\n") (item (codes "t") ∷ space ∷ []) BadEscape }
    ensures cut_off { Breaks (codes "a \\04") (item (codes "a") ∷ space ∷ []) BadEscape }
    ensures too_great { Breaks (codes "a\\256") (item (codes "a") ∷ []) BadEscape }
{}

/// The same in a quoted item, whose break begins at its opening quote.
pub fn bad_escapes_in_quoted_items()
    ensures line_feed { Breaks (codes "a \"b\\\n\"") (item (codes "a") ∷ space ∷ []) BadEscape }
    ensures carriage_return { Breaks (codes "\"b\\\r\"") [] BadEscape }
    ensures end { Breaks (codes "\"a\\") [] BadEscape }
    ensures one_digit { Breaks (codes "\"\\0\"") [] BadEscape }
    ensures two_digits { Breaks (codes "\"\\04\"") [] BadEscape }
    ensures cut_off { Breaks (codes "( \"\\04") (opening ∷ space ∷ []) BadEscape }
    ensures too_great { Breaks (codes "\"\\256\"") [] BadEscape }
{}
