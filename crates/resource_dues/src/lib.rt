//! When resources are due, beside the list of a tree.
//!
//! `Dues` has moments in order, each with the number of a resource. An entry may be earlier than
//! the moment at which its resource is due, or may stand for one that has gone; it is never later,
//! unless the table isn't whole. What is due at the last moment that there is needs none, and most
//! resources are. The table isn't whole once memory ran out where it was made or a resource took
//! the place of another, or a container lowered the age that its instances may reach: then it is
//! made anew (`refresh`) at the next expiry.
//!
//! ```text
//! let mut dues = Dues::new(alloc);
//! dues.add(due(&list, &resource), resource.number())?;
//! dues.quiet() // before it nothing is due
//! ```
#![tactic(auto)]

mod dues;

pub use dues::{Dues, due_of, has_come};
