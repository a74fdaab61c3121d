//! Tables of tests: their rows, and that each gets the answer that is wanted.
use crate::comparing::check_octets;
use crate::writing::roomy;
use std::alloc::Global;
use std::test::Fail;

/// A row of a table of few: what is asked, and the answer that it must get.
pub trait Case {
    /// That the answer is the one that is wanted.
    ///
    /// # Errors
    ///
    /// The answer and the one that is wanted, where it is another; a refusal that the row doesn't
    /// speak of, want of memory among them.
    fn check(&self, alloc: Global) -> Result<(), Fail>;
}

/// That each row gets the answer that is wanted.
///
/// # Errors
///
/// The first that gets another, and the one that is wanted.
pub fn check_rows<C: Case>(alloc: Global, cases: &[C]) -> Result<(), Fail> {
    for case in cases {
        case.check(alloc)?;
    }
    Ok(())
}

/// What is asked of the rows of a table, which is one text.
pub trait Question {
    /// Appends the answer to what a row asks, in the words of the table.
    ///
    /// # Errors
    ///
    /// What no row speaks of, want of memory among it.
    fn answer(alloc: Global, asked: &'static str, out: &mut Vec<u8>) -> Result<(), Fail>;
}

/// That this is the answer to what a row asks.
///
/// # Errors
///
/// Where it is another, that one, the one that is wanted, and what was asked.
pub fn check_answer<Q: Question>(alloc: Global, row: (&'static str, &str)) -> Result<(), Fail> {
    let (asked, wanted) = row;
    let mut answer = roomy(alloc)?;
    Q::answer(alloc, asked, &mut answer)?;
    check_octets(asked, &answer, wanted.as_bytes())
}

/// That each line of a table gets the answer that stands after its ` => `.
///
/// # Errors
///
/// The first that gets another.
pub fn check_lines<Q: Question>(alloc: Global, table: &'static str) -> Result<(), Fail> {
    for line in table.lines() {
        check_answer::<Q>(alloc, parted(line, " => ")?)?;
    }
    Ok(())
}

/// That each row of a table gets the answer that stands after its `=>`. `== ` stands before each
/// row.
///
/// # Errors
///
/// The first that gets another.
pub fn check_table<Q: Question>(alloc: Global, table: &'static str) -> Result<(), Fail> {
    for row in table.split("== ") {
        // Nothing stands before the first row.
        if !row.is_empty() {
            check_answer::<Q>(alloc, parted(row, "=>")?)?;
        }
    }
    Ok(())
}

/// The parts of a text before and after a mark.
///
/// # Errors
///
/// The text, where the mark doesn't stand there.
pub fn parted<'t>(text: &'t str, mark: &str) -> Result<(&'t str, &'t str), Fail> {
    Ok(text.split_once(mark).ok_or(text)?)
}
