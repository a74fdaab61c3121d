/// Where a record stands among the octets that are held, and its hint.
#[derive(Clone, Copy)]
pub(crate) struct Entry {
    pub(crate) hint: u64,
    pub(crate) at: usize,
}
