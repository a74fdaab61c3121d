//! What an entry is, the words before a record's type read once (RFC 1035 5.1).
ghost use Rattle.std.specs.Prelude.{map};
ghost use Rattle.std.specs.List.{slice_get};
ghost use Rattle.zone_rdata.specs.Item.{raw};
ghost use Rattle.zone_text.specs.Statements.{statement_by};
ghost use Rattle.zone_words.specs.Machine.Further.{IsForm};

use zone_rdata::Item;
use zone_text::{Directive, RecordParts, Statement, record_parts, statement_of};

/// What an entry is.
#[derive(Clone, Copy)]
pub(crate) enum EntryForm<'i, 't> {
    /// It has no items.
    Blank,
    /// A directive.
    Directive(Directive<'i, 't>),
    /// A record, of which these are the parts after its owner.
    Record(RecordParts<'i, 't>),
}

/// What an entry with these items is.
pub(crate) fn form_of<'i, 't>(entry: &[u8], items: &'i [Item<'t>]) -> EntryForm<'i, 't>
    ensures { IsForm (statement_by (slice_get entry.now 0) (map raw items.now)) result }
{
    match statement_of(entry, items) {
        Statement::Blank => EntryForm::Blank,
        Statement::Directive(directive) => EntryForm::Directive(directive),
        Statement::Owned(_, after) => EntryForm::Record(record_parts(after)),
        Statement::Unowned(all) => EntryForm::Record(record_parts(all)),
    }
}
