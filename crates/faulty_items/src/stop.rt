use zone_rdata::Item;

/// Where a reading of a record's data stops.
#[derive(Clone, Copy, Debug)]
pub struct DataStop<'e> {
    /// The field by its name in the RFC of the type, in lower case; `data` where it has none.
    pub field: &'static str,
    /// The item at fault. `None`: an item is missing, or the fault is one of the data as a whole.
    pub item: Option<Item<'e>>,
}
