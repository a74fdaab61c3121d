/// How far a source that is fed is with its input.
#[derive(Clone, Copy, Debug)]
pub enum FedStatus {
    /// Further pieces may come.
    Open,
    /// The end of the input was taken.
    Finished,
    /// Memory was refused.
    OutOfMemory,
}
