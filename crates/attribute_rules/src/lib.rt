//! The attributes of each type of resource (TS-0001, 9.6; TS-0004, 7.4): of which kind each is, and
//! which of them a Create and an Update may carry.
//!
//! Callers see the table by `rule_of`, whose rules tell what a `Writing`, a Create or an Update,
//! may do, by `mandatory` and by `kind_of`; `keeps_kinds` tells whether all attributes of a
//! resource are of their kinds. `attributes_in` gives the attributes that a content names, and
//! `are_admitted` tells whether these are admitted; `wanted_in` and `edit_in` then say what they
//! want or change, and copy their values. `admit_create` and `admit_update` do all of this, or say
//! the first fault.
//!
//! A content is walked once to judge it, up to the first member with a fault, and once more to copy
//! out of it what it gives, or to find the key of the fault that is told. These are two walks since
//! a refusal takes memory only for the name of an unknown attribute that stands in the program:
//! nothing is taken before the last member is judged.
//!
//! ```text
//! let kind = kind_of(Ty::Container, Attr::Mni); // a count
//! let named = mandatory(Ty::ContentInstance); // [Attr::Con]
//! admit_create(alloc, Ty::Container, content) // or its first fault
//! ```
#![tactic(auto)]

mod admission;
mod admit;
mod contents;
mod faults;
mod laws;
mod table;

pub use admission::{are_admitted, attributes_in, is_named, value_named};
pub use admit::{admit_create, admit_update};
pub use attribute_kinds::Kind;
pub use contents::{Edit, Wanted, edit_in, kept_attrs, wanted_in};
pub use faults::AttrFault;
pub use laws::{
    an_update_does_what_it_may, attributes_have_the_values_that_are_named,
    created_attributes_have_their_kinds, the_table_is_whole, updated_attributes_have_their_kinds,
    what_is_admitted_has_no_fault, what_is_named_is_kept,
};
pub use table::{Optionality, Rule, Source, Writing, keeps_kinds, kind_of, mandatory, rule_of};
