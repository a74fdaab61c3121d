//! Texts that are cut at an octet.
ghost use Rattle.std.specs.Prelude.{IfNone, IfSome};
ghost use Rattle.type_data.specs.Machine.Cuts.{IsCutFirst, IsCutLast, IsMissing};

/// What stands before the first of an octet, and what after it. `None`: the text lacks the octet.
pub(crate) fn cut_at_first(text: &[u8], octet: u8) -> Option<(&[u8], &[u8])>
    ensures found { IfSome result (λ parts. IsCutFirst octet text.now parts.0.now parts.1.now) }
    ensures none { IfNone result (IsMissing octet text.now) }
{
    for (at, found) in text.iter().enumerate() {
        if *found == octet {
            return Some((&text[..at], &text[at + 1..]));
        }
    }
    None
}

/// What stands before the last of an octet, and what after it. `None`: the text lacks the octet.
pub(crate) fn cut_at_last(text: &[u8], octet: u8) -> Option<(&[u8], &[u8])>
    ensures found { IfSome result (λ parts. IsCutLast octet text.now parts.0.now parts.1.now) }
    ensures none { IfNone result (IsMissing octet text.now) }
{
    let mut end = text.len();
    while end > 0 {
        if text[end - 1] == octet {
            return Some((&text[..end - 1], &text[end..]));
        }
        end -= 1;
    }
    None
}
