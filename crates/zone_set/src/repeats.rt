use crate::entry::Entry;
use crate::keys::sort_all;
use crate::tie::is_repeat;
use std::alloc::{AllocError, Global};

/// What stands for no index.
const NONE: usize = usize::MAX;

/// Numbers of records, the same for equal ones, and at which index one of each number is kept.
/// Nothing rests on them but that repeats are found: whether a record is one is looked at.
#[derive(Drop)]
pub(crate) struct Groups {
    /// The entries of the records that weren't asked about yet, in the order in which these came,
    /// each with its number in the place of its hint.
    numbered: Vec<Entry>,
    /// How many were asked about.
    asked: usize,
    /// The index of what is kept, for each number.
    kept: Vec<usize>,
}

impl Groups {
    /// Those of the records of entries. The digits of the key of a record that its hint doesn't
    /// have begin at the front.
    ///
    /// # Errors
    ///
    /// `AllocError` where memory is refused.
    pub(crate) fn new(
        alloc: Global,
        octets: &[u8],
        entries: &[Entry],
        front: usize,
    ) -> Result<Groups, AllocError> {
        let mut numbered: Vec<Entry> = Vec::new(alloc);
        numbered.extend_from_slice(entries)?;
        sort_all(numbered.as_mut_slice(), octets, front);
        let count = number(octets, numbered.as_mut_slice());
        // As the records came, so their octets stand.
        numbered
            .as_mut_slice()
            .sort_unstable_by(|a, b| a.at.cmp(&b.at));
        Ok(Groups {
            numbered,
            asked: 0,
            kept: vec![in alloc; NONE; count]?,
        })
    }

    /// The number of the next record.
    pub(crate) fn next_number(&mut self) -> usize {
        let number = match self.numbered.as_slice().get(self.asked) {
            Some(entry) => entry.hint as usize,
            None => NONE,
        };
        self.asked = self.asked.saturating_add(1);
        number
    }

    /// The index of the record of a number that is kept, if one is.
    pub(crate) fn kept(&self, number: usize) -> Option<usize> {
        match self.kept.as_slice().get(number) {
            Some(index) if *index != NONE => Some(*index),
            _ => None,
        }
    }

    /// Says at which index a record of a number is kept.
    pub(crate) fn keep(&mut self, number: usize, index: usize) {
        if let Some(kept) = self.kept.as_mut_slice().get_mut(number) {
            *kept = index;
        }
    }
}

/// Gives sorted entries numbers in the place of their hints, those of equal records the same, and
/// answers how many numbers there are.
fn number(octets: &[u8], entries: &mut [Entry]) -> usize {
    let Some(first) = entries.first() else {
        return 0;
    };
    let (mut last, mut number) = (*first, 0usize);
    for entry in entries.iter_mut() {
        let own = *entry;
        if !is_repeat(octets, &last, &own) {
            number = number.saturating_add(1);
        }
        entry.hint = number as u64;
        last = own;
    }
    number.saturating_add(1)
}
