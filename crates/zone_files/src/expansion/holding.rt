//! What holds for the next entry of a file.
ghost use Rattle.std.specs.Prelude.{◌≡◌, Option, Some, drop, map, bytes_eq, option_map, true};
ghost use Rattle.std.specs.List.{list_any};
ghost use Rattle.zone_name.specs.Common.{Labels};
ghost use Rattle.zone_rdata.specs.Item.{raw};
ghost use Rattle.zone_words.specs.Inherited.{IsOneOrNone};
ghost use Rattle.zone_words.specs.Origin.{NamesOrigin};
ghost use Rattle.zone_files.specs.IncludeStack.{file_name};
ghost use Rattle.zone_files.specs.Expansion.{SpellsOwner, after_count, is_next, left_out, owned_by, past, stating, under};
ghost use Rattle.zone_files.specs.Machine.Lines.{AreLines, MayStay, Stays};

use crate::expansion::lines::lines_owner;
use crate::expansion::opened_name::FileName;
use crate::expansion::owners::{are_same, named_origin, named_owner};
use std::marker::Model;
use zone_name::CasedName;
use zone_rdata::Item;
use zone_text::line_feeds;

/// What holds for the next entry of a file. Contracts see it as the definition has it.
#[derive(Drop)]
pub(crate) struct Holding {
    pub(crate) origin: CasedName,
    /// The last stated owner of the file.
    pub(crate) owner: Option<CasedName>,
    /// The last owner that the expanded text states.
    pub(crate) stated: Option<CasedName>,
    pub(crate) directory: Option<FileName>,
    /// The files that are open, the main file first.
    pub(crate) open: Vec<FileName>,
    /// How many files were included so far.
    pub(crate) opened: u64,
    /// The line of the expanded text that comes next, from 1.
    pub(crate) line: u64,
    /// The lines of the expanded text whose entries are taken out, in their order.
    pub(crate) taken_out: Vec<u64>,
}

impl Model for Holding {
    ghost use Rattle.zone_files.specs.Expansion.{Holds};

    ghost Value = { Holds };

    ghost view = { λ h. record {
      origin = h.origin;
      owner = h.owner;
      stated = h.stated;
      directory = h.directory;
      open_files = h.open.items;
      opened = h.opened;
      line = h.line;
      taken_out = h.taken_out.items;
    } };
}

impl Holding {
    /// Takes what a `$ORIGIN` leaves, after which these items stand.
    pub(crate) fn set_origin(&mut self, items: &[Item])
        ensures { (named : Option Labels)
            × IsOneOrNone (NamesOrigin self.old.origin (map raw items.now)) named
            × (self.new ≡ under named self.old) }
    {
        if let Some(name) = named_origin(items, &self.origin) {
            self.origin = name;
        }
    }

    /// Takes what the owner of a record leaves.
    pub(crate) fn state_owner(&mut self, owner: Item)
        ensures { (named : Option Labels)
            × IsOneOrNone (SpellsOwner self.old.origin (raw owner.entry)) named
            × (self.new ≡ owned_by named self.old) }
    {
        let named = named_owner(owner, &self.origin);
        self.hold_owner(named);
    }

    /// Takes an owner that was stated last, if it is a name.
    fn hold_owner(&mut self, named: Option<CasedName>)
        ensures { self.new ≡ owned_by named self.old }
    {
        if let Some(name) = named {
            self.stated = Some(name.copy());
            self.owner = Some(name);
        }
    }

    /// The expanded text states this owner last.
    pub(crate) fn state(&mut self, owner: CasedName)
        ensures { self.new ≡ stating (Some owner) self.old }
    {
        self.stated = Some(owner);
    }

    /// Goes past so many lines of the expanded text.
    pub(crate) fn go_past(&mut self, lines: u64)
        ensures { self.new ≡ after_count lines self.old }
    {
        self.line = self.line.saturating_add(lines);
    }

    /// Goes past the lines of an entry.
    pub(crate) fn pass(&mut self, entry: &[u8])
        ensures { self.new ≡ past entry.now self.old }
    {
        self.go_past(line_feeds(entry) as u64);
    }

    /// The first of the lines whose entries are taken out is none any more.
    fn drop_first(&mut self)
        ensures { self.new ≡ record self.old { taken_out = drop 1 self.old.taken_out } }
    {
        if !self.taken_out.is_empty() {
            self.taken_out.remove(0);
        }
    }

    /// Takes what an entry leaves that is taken out: the owner that it states.
    pub(crate) fn leave_out(&mut self, named: Option<CasedName>, entry: &[u8])
        ensures { self.new ≡ left_out named entry.now self.old }
    {
        if let Some(name) = named {
            self.owner = Some(name);
        }
        self.pass(entry);
        self.drop_first();
    }

    /// Whether the first of the lines whose entries are taken out is one of so many that come next.
    pub(crate) fn is_next(&self, lines: u64) -> bool
        ensures { result ≡ is_next self.now.taken_out self.now.line lines }
    {
        match self.taken_out.first() {
            Some(first) => self.line <= *first && *first - self.line < lines,
            None => false,
        }
    }

    /// The name of the file.
    pub(crate) fn file_name(&self) -> Option<&str>
        ensures { option_map (λ name. name.now) result ≡ file_name self.now }
    {
        match self.open.last() {
            Some(name) => Some(name.as_str()),
            None => None,
        }
    }

    /// Whether lines that are entries by themselves stay: no entry is taken out any more, and the
    /// expanded text states last the owner that holds in the file. `false` too where lines can't be
    /// counted further.
    pub(crate) fn keeps_lines(&self) -> bool
        ensures { result ≡ true → MayStay self.now }
    {
        if self.line >= u64::MAX {
            return false;
        }
        self.taken_out.is_empty() && are_same(&self.owner, &self.stated)
    }

    /// Takes what lines leave that are entries by themselves and stay.
    pub(crate) fn take_lines(&mut self, lines: &[u8])
        requires lines { AreLines lines.now }
        requires may { MayStay self.old }
        ensures { Stays self.old lines.now self.new }
    {
        let found = lines_owner(lines, &self.origin);
        self.pass(lines);
        self.hold_owner(found);
    }

    /// Whether a file of this name is open.
    pub(crate) fn is_open(&self, name: &[u8]) -> bool
        ensures { result ≡ list_any (λ other. bytes_eq other name.now) self.now.open_files }
    {
        self.open.iter().any(|other| other.octets() == name)
    }
}
