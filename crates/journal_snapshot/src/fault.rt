//! Why a journal isn't replaced by a snapshot.
use journal_opening::OpeningFault;

/// Why a journal isn't replaced by a snapshot.
#[derive(Clone, Copy, Debug, PartialEq, Eq)]
pub enum ShorteningFault {
    /// Its file isn't opened, for this reason.
    Refused(OpeningFault),
    /// Something of the CSE wouldn't be read back as it is.
    Unkept,
    /// The new file could not be put in its place.
    Failed,
    /// Memory ran out.
    OutOfMemory,
}
