//! The kinds of attribute values (TS-0001, 9.6; TS-0004, 6.3 and 7.4): `Kind::has` tells whether a
//! value is of a kind. It looks at the value once, up to the first part that isn't as the kind has
//! it, and takes no memory.
//!
//! ```text
//! let stamp = Kind::Stamp.has(value); // the text of a timestamp
//! let rules = Kind::Rules.has(value); // `pv` or `pvs` of a policy
//! stamp || rules
//! ```
#![tactic(auto)]

mod kinds;
mod lists;
mod objects;
mod values;

pub use kinds::Kind;
