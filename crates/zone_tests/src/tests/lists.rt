//! Ordered lists that are kept in chunks.
use sorted_chunks::{SortedChunks, Sought};
use std::alloc::{AllocError, Global};
use std::test::Fail;

/// A number, which goes before all that aren't less.
#[derive(Clone, Copy)]
struct Number(u32);

impl Sought<u32> for Number {
    ghost use Rattle.std.specs.Prelude.{⊤, nat_lt};

    ghost knows = { λ _ _. ⊤ };

    ghost follows = { λ n held. nat_lt held n.0 };

    fn is_after(&self, held: &u32) -> bool {
        *held < self.0
    }
}

/// The numbers as a list holds them in which each was put before all that aren't less; at most four
/// stand in a chunk.
fn listed(alloc: Global, numbers: &[u32]) -> Result<Vec<u32>, AllocError> {
    let mut list = SortedChunks::<u32, 4>::new(alloc);
    for number in numbers {
        let place = list.place_of(&Number(*number));
        list.insert(place, *number)?;
    }
    let mut elements = Vec::new(alloc);
    let mut left = list.iter();
    while let Some(element) = left.next() {
        elements.push(*element)?;
    }
    Ok(elements)
}

#[test]
fn a_new_list_is_empty(rt: HostRuntime) -> Result<(), Fail> {
    let mut list = SortedChunks::<u32, 4>::new(rt.alloc());
    assert!(rt; list.is_empty());
    let place = list.place_of(&Number(7));
    list.insert(place, 7)?;
    assert!(rt; !list.is_empty());
    Ok(())
}

/// Numbers, and the list that they make.
struct Sorted(&'static [u32], &'static [u32]);

static SORTED: &[Sorted] = &[
    // In order they fill chunk after chunk.
    Sorted(&[1, 2, 3, 4, 5, 6, 7, 8, 9], &[1, 2, 3, 4, 5, 6, 7, 8, 9]),
    // In falling order they split the first chunk.
    Sorted(&[9, 8, 7, 6, 5, 4, 3, 2, 1], &[1, 2, 3, 4, 5, 6, 7, 8, 9]),
    // In no order they split chunks in the middle.
    Sorted(
        &[50, 10, 90, 30, 70, 20, 80, 40, 60, 45, 44, 43, 42, 41, 95],
        &[10, 20, 30, 40, 41, 42, 43, 44, 45, 50, 60, 70, 80, 90, 95],
    ),
    // At each place of a full chunk one goes into the lower half or the upper.
    Sorted(&[1, 3, 5, 7, 9, 0], &[0, 1, 3, 5, 7, 9]),
    Sorted(&[1, 3, 5, 7, 9, 2], &[1, 2, 3, 5, 7, 9]),
    Sorted(&[1, 3, 5, 7, 9, 4], &[1, 3, 4, 5, 7, 9]),
    Sorted(&[1, 3, 5, 7, 9, 6], &[1, 3, 5, 6, 7, 9]),
    Sorted(&[1, 3, 5, 7, 9, 8], &[1, 3, 5, 7, 8, 9]),
    // Equal ones stand together.
    Sorted(&[2, 1, 2, 3, 2, 1, 2, 3, 2], &[1, 1, 2, 2, 2, 2, 2, 3, 3]),
];

#[test]
fn lists_of_numbers(rt: HostRuntime) -> Result<(), Fail> {
    for Sorted(numbers, wanted) in SORTED {
        let list = listed(rt.alloc(), numbers)?;
        assert_eq!(rt; list.as_slice(), *wanted);
    }
    Ok(())
}

#[test]
fn what_stands_about_a_place(rt: HostRuntime) -> Result<(), Fail> {
    let mut list = SortedChunks::<u32, 4>::new(rt.alloc());
    assert!(rt; list.last().is_none());
    for number in [10, 20, 30, 40, 50, 60] {
        let place = list.place_of(&Number(number));
        list.insert(place, number)?;
    }
    assert_eq!(rt; list.len(), 6);
    assert_eq!(rt; list.last().copied(), Some(60));
    for (sought, before, after) in [
        (5, None, Some(10)),
        (10, None, Some(10)),
        (15, Some(10), Some(20)),
        (45, Some(40), Some(50)),
        (50, Some(40), Some(50)),
        (65, Some(60), None),
    ] {
        let place = list.place_of(&Number(sought));
        assert_eq!(rt; list.last_before(place).copied(), before);
        assert_eq!(rt; list.first_after(place).copied(), after);
    }
    Ok(())
}
