/// An item of a master file's entry: its raw octets, without the quotes of a quoted one (RFC 1035
/// 5.1).
#[derive(Clone, Copy, Debug)]
pub enum Item<'e> {
    /// One that no quotes enclose.
    Bare(&'e [u8]),
    /// One between quotes, which may have no octets.
    Quoted(&'e [u8]),
}
