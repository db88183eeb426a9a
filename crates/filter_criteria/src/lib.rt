//! The filter criteria of a request (TS-0001, 8.1.2): their type, the table of their conditions,
//! and filters read from JSON values and written as such.
//!
//! A `Filter` is a struct of public fields, `FilterParts`, that keeps a fact: callers build the
//! parts, owe the fact to `of`, read the fields by `parts`, and take the whole apart by
//! `into_parts`, all without copies. Clauses see it as the plain record of its parts. What the
//! parts must keep (`IsSoundFilter`) can be tested: texts by `str::from_utf8`, moments by
//! `is_moment`, counts by `is_count`.
//!
//! The conditions stand in one table, in byte order of their short names, in which a name is looked
//! up. `is_filter` judges a value without memory; `plain_filter` reads what is no label from a
//! value that is lent, and `labels_from` moves the labels out of one that is given away. Reading
//! and writing are linear in the value. Of a value that is no filter, what isn't a condition of its
//! sort is read as absent: callers judge first.
//!
//! Here too stands what filters and the primitives around them share: members of objects by their
//! names (`members_in`, `value_at`, `value_among`), objects of the members that are there
//! (`push_member`, `sorted_object`), and a few kinds of values.
//!
//! ```text
//! let labels = Condition::named(b"lbl"); // Some(Condition::Labels)
//! let filter = plain_filter(alloc, &value)?; // all conditions but the labels
//! write_filter(alloc, filter.parts())
//! ```
#![tactic(auto)]

mod bounds;
mod condition;
mod filter;
mod laws;
mod reading;
mod values;
mod writing;

pub use bounds::{is_count, is_moment};
pub use condition::{Condition, Sort};
pub use filter::{Filter, FilterParts, FilterUsage};
pub use laws::filters_are_read_back;
pub use m2m_value::Labels;
pub use reading::{is_filter, labelled, labels_from, plain_filter};
pub use std::alloc::AllocError as OutOfMemory;
pub use values::{
    members_in, moment_text, moment_value, owned_text, push_member, read_type_number,
    sorted_object, text_value, value_among, value_at,
};
pub use writing::write_filter;
