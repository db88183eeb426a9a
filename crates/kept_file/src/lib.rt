//! A file that outlives the program: what a read gives of it, and what a crash may leave.
//!
//! Between two syncs a crash may leave anything in the place of each write and past the old end,
//! and the length may be any between the old one and the new one (specs/Crashes); once a sync has
//! succeeded, it leaves what a read gives. `KeptFile` says so of a file that tells it. Its ghost
//! members have a clock, so that callers can say of a run of calls what a crash at any moment of it
//! leaves: `left_since` is what might have been left from some moment on, during a call or between
//! two. A file of the system tells nothing, as no contract can say what it holds.
//!
//! A `NamedFile` is one under a name, in whose place another one can be put; until a sync a crash
//! may leave either. A `KeptName` is the name alone, which goes from one file to another whole or
//! not at all. `put_in_place` makes a file beside the one that has the name, writes all of it,
//! syncs it, and only then gives it the name. So a crash at any moment leaves the old file under
//! the name, or the new one with all its bytes; and once the call has succeeded, the new one.
//!
//! `MemFile` is a file in memory, which keeps each content that a crash might have left: of a write
//! the half of it, another byte all over its place, and the whole. `MemName` is a name in memory,
//! which keeps each content that a crash might have left under it. Their calls fail where they are
//! to.
//!
//! ```text
//! file.write_at(at, b"@1700000000\n")?; // a crash may leave a part of it, or something else there
//! file.sync()?; // now it leaves all of it
//! let bytes = file.read(alloc)?;
//!
//! let mut name = MemName::new(alloc, b"old", 0, Vec::new(alloc))?;
//! let file = put_in_place(&mut name, b"new")?; // the file that has the name from then on
//! name.images() // the contents that a crash may have left under the name
//! ```
#![tactic(auto)]

mod fault;
mod file;
mod memory;
mod memory_name;
mod name;
mod named;
mod placing;

pub use fault::FileFault;
pub use file::KeptFile;
pub use m2m_io::Failed;
pub use memory::MemFile;
pub use memory_name::MemName;
pub use name::KeptName;
pub use named::NamedFile;
pub use placing::put_in_place;
