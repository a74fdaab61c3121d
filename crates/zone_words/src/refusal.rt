//! What is told of the entries of further types that state no data.
ghost use Rattle.std.specs.Prelude.{◌≡◌, ◌+◌, ◌<◌, ◌≤◌, ◌^◌, [], None, option_map, option_to_list};
ghost use Rattle.zone_words.specs.Refusal.{AddsTold, refused_of};

use std::error::Error;
use std::fmt;
use type_data::WordsFault;

/// An entry of a further type that states no data.
#[derive(Clone, Copy, Debug, PartialEq, Eq)]
pub struct Refusal {
    /// The line that the entry begins on, from 1.
    pub line: u64,
    /// The mnemonic of its type.
    pub mnemonic: &'static str,
    /// The field by its name in the RFC of the type, in lower case; `data` where it has none.
    pub field: &'static str,
    /// What is wrong.
    pub fault: WordsFault,
}

/// The first of the entries that state no data, and how many there are.
#[derive(Clone, Copy, Debug, PartialEq, Eq)]
pub struct Refusals {
    /// The first. `None`: there is none.
    pub first: Option<Refusal>,
    /// How many there are.
    pub count: u64,
}

impl Refusals {
    /// None.
    pub(crate) fn none() -> Refusals
        ensures first { result.first ≡ None }
        ensures count { result.count ≡ 0 }
    {
        Refusals {
            first: None,
            count: 0,
        }
    }

    /// Adds what is told of one more entry.
    pub(crate) fn add(&mut self, told: Option<Refusal>)
        requires { self.old.count + 1 < 2 ^ 64 }
        ensures added { AddsTold (option_to_list (option_map refused_of told)) self.old self.new }
        ensures at_most_one { self.new.count ≤ self.old.count + 1 }
    {
        match told {
            Some(_) => {
                self.first = self.first.or(told);
                self.count += 1;
            }
            None => {}
        }
    }
}

/// The line of the entry, the mnemonic of its type, the field and what is wrong.
impl fmt::Display for Refusal {
    ghost use Rattle.std.specs.Prelude.{Some};
    ghost use Rattle.zone_words.specs.Refusal.{refusal_text};

    ghost output = { λ refusal. Some (refusal_text refusal) };

    fn fmt<W: fmt::Write>(&self, f: &mut fmt::Formatter<W>) -> fmt::Result {
        let text = self.fault.text();
        write!(
            f,
            "line {}: {}, {}: {}",
            self.line, self.mnemonic, self.field, text
        )
    }
}

impl Error for Refusal {}
