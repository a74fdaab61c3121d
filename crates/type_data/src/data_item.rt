use zone_rdata::Item;

/// An item of a record's data, and whether it directly follows another one: `alpn="h2"` is two
/// items that touch, a bare one and a quoted one.
#[derive(Clone, Copy, Debug)]
pub struct DataItem<'e> {
    /// The item as it stands in the file.
    pub item: Item<'e>,
    /// No octet stands between it and the item before it.
    pub touches: bool,
}
