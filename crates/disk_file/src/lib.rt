//! A file of the system that outlives the program, as the crate kept_file has it.
//!
//! `DiskFile::open` takes a lock on the file, so that no second program has it, and sees to it that
//! what is read of it is what stands on the disk: it syncs the file and its folder, and has the
//! system drop the pages that it holds of it. Where there is no file of that name, or one without a
//! byte, it makes one with the bytes that it is given, under another name first, so that a crash
//! leaves what was there or a whole one; and tells so. A `DiskName` is the name of such a file, in
//! whose place the crate kept_file puts another one, which gets the owner and the rights of the old
//! one. A `NamedDiskFile` is a file with its name.
//!
//! Another program may remove, rename or replace the file while it is open. So it is looked for
//! under its name before another one takes its place, and at a sync once a second: where the name,
//! or the folder's, is another one's, the file fails. The folder stays open, and two descriptors are
//! kept in hand, so that a program without descriptors can still replace its file. Where another
//! file can't be made, or surely didn't get the name, the old one goes on.
//!
//! The name of the new one is FILE.new until it is whole. What had that name goes, unless another
//! program has it open, or it is the journal of another home.
//!
//! What is cut away of a file is kept beside it as `FILE.cut`, and what that had in it as
//! `FILE.cut.1`, up to `FILE.cut.10`; these stay. A write that fails gives back the place that it
//! took on the disk.
//!
//! Where the system gives an error, it is told on standard error what the error is, as contracts
//! have no more of it than that the file failed.
//!
//! A file of the system tells nothing: what is said of crashes in kept_file is supposed of it and
//! not proved. It is supposed that a crash leaves each byte outside of the places that were written
//! since the last sync, that a rename is kept whole or not at all, that no other program writes to
//! the file, and that none gives its name away between a look at it and a rename.
//!
//! ```text
//! let mut file = DiskFile::open(rt, "journal", b"{}\n\n")?; // or why not: another program has it
//! file.write_at(3, b"\n")?;
//! file.sync()?;
//! ```
#![tactic(auto)]

mod aside;
mod fault;
mod file;
mod name;
mod named;
mod opening;
mod operator;
mod place;
mod spare;
mod whose;

pub use fault::OpenFault;
pub use file::DiskFile;
pub use name::DiskName;
pub use named::NamedDiskFile;
pub use opening::is_new;
