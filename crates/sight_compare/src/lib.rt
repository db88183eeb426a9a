//! Whether an originator sees the same of two CSEs, by computing.
//!
//! `same_sight` is true exactly where the sights of equal_sights are equal. It goes over both lists
//! of resources at once and compares what each resource shows: where it stands, whether the
//! originator owns it, its moments, and the attributes that are seen of it, by a cursor on each
//! side. What the originator may learn of a resource is computed on each side by its own tree
//! (`Look` of `looks`), and what it sees of a value is lent (`Shown` of `values`), so that nothing
//! takes memory. Whatever text the originator is, and whatever the entities hold, there is an
//! answer.
//!
//! ```text
//! let agree = same_sight(&left, &right, b"CDev");
//! ```
#![tactic(auto)]

mod attributes;
mod homes;
mod looks;
mod resources;
mod rows;
mod sights;
mod stand_ins;
mod values;

pub use sights::same_sight;
