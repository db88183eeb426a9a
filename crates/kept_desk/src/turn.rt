//! What an object is asked that keeps what it does.

/// What it is asked.
#[derive(Drop)]
pub enum Turn<E> {
    /// An event.
    Do(E),
    /// To put on the disk what it has done so far.
    Settle,
}

/// What it reports.
#[derive(Drop)]
pub enum Report<O> {
    /// What came of the event, and whether all that was done up to then is on the disk.
    Done { outcome: O, settled: bool },
    /// All that was done is on the disk.
    Settled,
    /// The disk has failed. Nothing more is done.
    Failed,
}

/// What is answered to an event.
#[derive(Drop)]
pub enum Answer<O> {
    /// What came of it. It is on the disk.
    Kept(O),
    /// It isn't known whether it will be there after a crash.
    Lost,
}
