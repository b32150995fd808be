/// A state could not be put under a lock.
#[derive(Drop)]
pub enum Refused<S> {
    /// Memory was refused. The state comes back.
    OutOfMemory(S),
}

/// A seat could not be split off.
#[derive(Clone, Copy, Debug, Drop, PartialEq, Eq)]
pub enum SplitRefusal {
    /// All passes were made.
    PassesFull,
}
