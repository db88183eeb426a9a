//! A journal is replaced by the snapshot of the CSE that it makes, so that it opens fast again.
//!
//! `shorten` opens the CSE of a home at the journal in the file that has a name, and puts a file in
//! its place whose journal is the snapshot of that CSE: it makes an equal CSE, with no deed to be
//! done again (specs/Shortening). A journal with words on accepted requests is that of a CSE which
//! answers later, and its snapshot keeps these requests and their results. The snapshot of any other
//! has no such word. A crash at any moment leaves the old file under the name, or the new one with
//! all its bytes; either opens as an equal CSE. A file that is refused stays under its name as it
//! was.
//!
//! ```text
//! let mut file = DiskFile::open_there(rt, "journal")?; // with its lock
//! let mut name = DiskName::new(rt, "journal")?;
//! shorten(alloc, &mut name, &mut file, home, IndexTree::new(alloc))?; // or why not
//! ```
#![tactic(auto)]

mod fault;
mod shortening;

pub use fault::ShorteningFault;
pub use journal_opening::OpeningFault;
pub use kept_file::KeptName;
pub use shortening::shorten;
