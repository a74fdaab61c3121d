//! What `zone_text` hands out: entries, items, tokens, statements and a record's parts (RFC 1035
//! 5.1).
use std::alloc::Global;
use std::test::Fail;
use test_support::{Question, check, check_octets, check_table, push_text, push_words};
use zone_rdata::Item;
use zone_text::{
    Directive, EntryState, FirstEntry, MOST_ITEMS, OpenEntry, RecordParts, Statement, entry_items,
    first_entry, first_token, is_blank, record_parts, statement_of, ttl_of,
};

/// More octets than a row has.
const MOST: usize = 1 << 20;

/// Appends octets in brackets.
fn push_octets(out: &mut Vec<u8>, octets: &[u8]) -> Result<(), Fail> {
    push_text(out, " [")?;
    out.extend_from_slice(octets)?;
    push_text(out, "]")
}

/// Appends an item: a quoted one with a `"` before it.
fn push_item(out: &mut Vec<u8>, item: Item) -> Result<(), Fail> {
    match item {
        Item::Bare(text) => push_octets(out, text),
        Item::Quoted(text) => {
            push_text(out, " \"")?;
            push_octets(out, text)
        }
    }
}

/// Appends items.
fn push_items(out: &mut Vec<u8>, items: &[Item]) -> Result<(), Fail> {
    for item in items {
        push_item(out, *item)?;
    }
    Ok(())
}

/// The entry at the front.
struct Front;

impl Question for Front {
    fn answer(alloc: Global, asked: &'static str, out: &mut Vec<u8>) -> Result<(), Fail> {
        let mut items = Vec::new(alloc);
        match first_entry(asked.as_bytes(), &mut items)? {
            FirstEntry::Whole(len) => push_words(alloc, out, format_args!(" whole {len}:"))?,
            FirstEntry::Open => push_text(out, " open")?,
            FirstEntry::BadEscape => push_text(out, " broken BadEscape")?,
            FirstEntry::UnbalancedParenthesis => push_text(out, " broken UnbalancedParenthesis")?,
        }
        push_items(out, &items)?;
        push_text(out, "\n")
    }
}

const FRONTS: &str = "\
== a \"b c\" d ; e f
g
=> whole 16: [a] \" [b c] [d]
== a ( b
; c
) \\032d
e
=> whole 18: [a] [b] [\\032d]
== 
a
=> whole 1:
== => open
== a b=> open
== a \"b
c=> open
== a ( b
=> open
== a \\0=> open
== a \\256 b=> broken BadEscape
== a \"\\\n=> broken BadEscape
== a ( b ) )=> broken UnbalancedParenthesis
";

/// Appends the token at the front, a blank as `_`, and gives the rest.
fn push_token<'t>(out: &mut Vec<u8>, text: &'t [u8]) -> Result<&'t [u8], Fail> {
    let Some((item, rest)) = first_token(text) else {
        return Ok(text);
    };
    let (token, _) = text.split_at(text.len() - rest.len());
    match item {
        Some(item) => push_item(out, item)?,
        None if text.first().is_some_and(|octet| is_blank(*octet)) => push_text(out, " _")?,
        None => push_octets(out, token)?,
    }
    Ok(rest)
}

/// The tokens, one by one. Each has an octet or more.
struct Tokens;

impl Question for Tokens {
    fn answer(_: Global, asked: &'static str, out: &mut Vec<u8>) -> Result<(), Fail> {
        let mut text = asked.as_bytes();
        for _ in 0..asked.len() {
            text = push_token(out, text)?;
        }
        push_text(out, "\n")
    }
}

const TOKENS: &str = "\
== =>
== a  b\\ c\"\"(d)\t;e
f=> [a] _ _ [b\\ c] \" [] [(] [d] [)] _ [;e] [
] [f]
== )=> [)]
";

/// An entry that comes in pieces, which `|` parts: what is taken of each, and what the end of the
/// input makes of it.
struct Pieces;

impl Question for Pieces {
    fn answer(alloc: Global, asked: &'static str, out: &mut Vec<u8>) -> Result<(), Fail> {
        let mut entry = OpenEntry::new(alloc);
        for piece in asked.split('|') {
            if entry.octets().len() > MOST || piece.len() > MOST {
                return Err(Fail::from("a long row"));
            }
            let taken = entry.take(piece.as_bytes())?;
            push_words(alloc, out, format_args!(" {} {:?}", taken.len, taken.state))?;
        }
        push_octets(out, entry.octets())?;
        push_words(
            alloc,
            out,
            format_args!(" {:?} {:?}", entry.state(), entry.end_fault()),
        )?;
        entry.clear();
        push_octets(out, entry.octets())?;
        push_text(out, "\n")
    }
}

const PIECES: &str = "\
== a (|b\n|)| c \"d|e\" \nf|g=> 3 Open 2 Open 1 Open 5 Open 4 Ended 0 Ended [a (b\n) c \"de\" \n] Ended None []
== a|=> 1 Open 0 Open [a] Open None []
== => 0 Open [] Open None []
== a \"b|\nc=> 4 Open 2 Open [a \"b\nc] Open Some(UnclosedQuote) []
== a (=> 3 Open [a (] Open Some(UnbalancedParenthesis) []
== a \\|0|4=> 3 Open 1 Open 1 Open [a \\04] Open Some(BadEscape) []
== a \\2|56|b=> 4 Open 2 Broken(BadEscape) 0 Broken(BadEscape) [a \\256] Broken(BadEscape) Some(BadEscape) []
== a|) b=> 1 Open 1 Broken(UnbalancedParenthesis) [a)] Broken(UnbalancedParenthesis) \
Some(UnbalancedParenthesis) []
";

/// Appends a word, if there is one.
fn push_word(out: &mut Vec<u8>, name: &str, word: Option<&[u8]>) -> Result<(), Fail> {
    match word {
        Some(word) => {
            push_text(out, name)?;
            push_octets(out, word)
        }
        None => Ok(()),
    }
}

/// Appends the parts of a record after its owner.
fn push_parts(alloc: Global, out: &mut Vec<u8>, items: &[Item]) -> Result<(), Fail> {
    let parts: RecordParts = record_parts(items);
    push_word(out, " ttl", parts.ttl)?;
    if let Some(text) = parts.ttl {
        push_words(alloc, out, format_args!(" {:?}", ttl_of(text)))?;
    }
    push_word(out, " class", parts.class)?;
    push_text(out, " rest")?;
    push_items(out, parts.rest)?;
    push_words(alloc, out, format_args!(" {}", parts.have_values()))
}

/// Appends what an entry states.
fn push_statement(alloc: Global, out: &mut Vec<u8>, stated: Statement) -> Result<(), Fail> {
    match stated {
        Statement::Blank => push_text(out, " nothing"),
        Statement::Directive(Directive::Origin(items)) => {
            push_text(out, " origin")?;
            push_items(out, items)
        }
        Statement::Directive(Directive::Ttl(items)) => {
            push_text(out, " default ttl")?;
            push_items(out, items)
        }
        Statement::Directive(Directive::Include) => push_text(out, " include"),
        Statement::Directive(Directive::Unknown) => push_text(out, " unknown"),
        Statement::Owned(owner, items) => {
            push_text(out, " owner")?;
            push_item(out, owner)?;
            push_parts(alloc, out, items)
        }
        Statement::Unowned(items) => {
            push_text(out, " last owner")?;
            push_parts(alloc, out, items)
        }
    }
}

/// What an entry states.
struct Stated;

impl Question for Stated {
    fn answer(alloc: Global, asked: &'static str, out: &mut Vec<u8>) -> Result<(), Fail> {
        let mut items = Vec::new(alloc);
        entry_items(asked.as_bytes(), &mut items)?;
        push_statement(alloc, out, statement_of(asked.as_bytes(), &items))?;
        push_text(out, "\n")
    }
}

const STATED: &str = "\
==  ; c\n=> nothing
== $Origin x.\n=> origin [x.]
== $TTL 1h \"2\"=> default ttl [1h] \" [2]
== $include f\n=> include
== $X f\n=> unknown
== \"$TTL\" 1=> owner \" [$TTL] ttl [1] Some(1) rest true
== a 1h in A 192.0.2.1\n=> owner [a] ttl [1h] Some(3600) class [in] rest [A] [192.0.2.1] true
==  CLASS3 2147483648 A=> last owner ttl [2147483648] None class [CLASS3] rest [A] false
== a CLASS0 IN=> owner [a] class [CLASS0] rest [IN] false
== a 1 \"2\"=> owner [a] ttl [1] Some(1) rest \" [2] true
== a 1 2=> owner [a] ttl [1] Some(1) rest [2] true
";

#[test]
fn entries_are_handed_out(rt: HostRuntime) -> Result<(), Fail> {
    check_table::<Front>(rt.alloc(), FRONTS)?;
    check_table::<Tokens>(rt.alloc(), TOKENS)
}

#[test]
fn entries_come_in_pieces(rt: HostRuntime) -> Result<(), Fail> {
    check_table::<Pieces>(rt.alloc(), PIECES)
}

#[test]
fn statements_are_handed_out(rt: HostRuntime) -> Result<(), Fail> {
    check_table::<Stated>(rt.alloc(), STATED)
}

#[test]
fn short_items_are_left_out_of_very_many(rt: HostRuntime) -> Result<(), Fail> {
    let mut entry = Vec::new(rt.alloc());
    for _ in 0..=MOST_ITEMS {
        entry.extend_from_slice(b"a ")?;
    }
    let mut items = Vec::new(rt.alloc());
    entry_items(&entry, &mut items)?;
    check(items.len() == MOST_ITEMS, "65,552 items of 65,553 are kept")
}

/// That the entry of a bare item of so many octets, what stands between, and one of 66 octets has
/// these items and ends at its line feed.
fn check_items(alloc: Global, len: usize, between: &str) -> Result<(), Fail> {
    let first = vec![in alloc; b'x'; len]?;
    let last = vec![in alloc; b'y'; 66]?;
    let mut entry = Vec::new(alloc);
    entry.extend_from_slice(&first)?;
    entry.extend_from_slice(between.as_bytes())?;
    entry.extend_from_slice(&last)?;
    entry.push(b'\n')?;
    let whole = entry.len();
    entry.push(b'z')?;
    let mut items = Vec::new(alloc);
    let found = first_entry(&entry, &mut items)?;
    check(
        matches!(found, FirstEntry::Whole(len) if len == whole),
        "the entry ends at its line feed",
    )?;
    let mut wanted = Vec::new(alloc);
    push_items(&mut wanted, &[Item::Bare(&first), Item::Bare(&last)])?;
    let mut told = Vec::new(alloc);
    push_items(&mut told, &items)?;
    check_octets(len, &told, &wanted)
}

#[test]
fn items_stop_at_any_octet(rt: HostRuntime) -> Result<(), Fail> {
    for len in 1..=130 {
        check_items(rt.alloc(), len, " ")?;
        check_items(rt.alloc(), len, "\t")?;
        check_items(rt.alloc(), len, "\r")?;
        check_items(rt.alloc(), len, "(\n)")?;
    }
    Ok(())
}

/// An entry of so many quotes and comments in parentheses between long items.
const LONG_FRONTS: &str = "\
== abcdefghijklmnopqrstuvwxyzabcdefghijklmnopqrstuvwxyz0123456789a\"b; c\" d;e \"f (g
h
=> whole 80: [abcdefghijklmnopqrstuvwxyzabcdefghijklmnopqrstuvwxyz0123456789a] \" [b; c] [d]
== abcdefghijklmnopqrstuvwxyzabcdefghijklmnopqrstuvwxyz0123456789;abcdefghijklmnopqrstuvwxyz b
=> whole 92: [abcdefghijklmnopqrstuvwxyzabcdefghijklmnopqrstuvwxyz0123456789]
== \"abcdefghijklmnopqrstuvwxyzabcdefghijklmnopqrstuvwxyz0123456789 ;abcd (\"\"\" a\\\"b \\032
=> whole 85: \" [abcdefghijklmnopqrstuvwxyzabcdefghijklmnopqrstuvwxyz0123456789 ;abcd (] \" [] [a\\\"b] [\\032]
== abcdefghijklmnopqrstuvwxyzabcdefghijklmnopqrstuvwxyz0123456789abc=> open
";

#[test]
fn long_entries_are_handed_out(rt: HostRuntime) -> Result<(), Fail> {
    check_table::<Front>(rt.alloc(), LONG_FRONTS)
}
