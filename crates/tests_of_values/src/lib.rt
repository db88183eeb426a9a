//! The tests of names, values, contents and primitives: of the libraries `m2m_names`, `m2m_value`,
//! `resource_model`, `attribute_kinds`, `attribute_rules`, `filter_criteria` and `primitive_json`,
//! over their public calls. They have values from outside, which no clause says: dates as a
//! calendar has them, tables as they are published, the texts of JSON values, and requests and
//! replies as they are written. Without its tests this library is empty, and no crate stands on it.
#![tactic(auto)]

#[cfg(test)]
mod lines;
#[cfg(test)]
mod of_attribute_rules;
#[cfg(test)]
mod of_m2m_names;
#[cfg(test)]
mod of_m2m_value;
#[cfg(test)]
mod of_primitive_json;
#[cfg(test)]
mod of_primitive_json_notes;
#[cfg(test)]
mod of_resource_model;
