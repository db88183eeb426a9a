//! The names and numbers of oneM2M: operations with their bits, resource types with the children
//! that they take, response status codes with their HTTP status, the short names of attributes,
//! timestamps, the URLs of points of access, and the forms of names, resource ids and originators.
//!
//! Callers see four enums that can be copied, and the readers and writers of the two texts. Each
//! table stands once in the code and once in `specs/`, where a row is found by its variant
//! (`op_row`, `ty_row`, `rsc_row`, `attr_short`) and a variant by its number or name
//! (`op_of_number`, `ty_of_number`, `rsc_of_number`, `attr_of_short`); a reader answers `None`
//! exactly outside its table or grammar. Nothing here takes memory, and callers owe nothing.
//!
//! ```text
//! let container = Ty::from_number(3); // Some(Ty::Container), whose short word is `cnt`
//! let moment = read_stamp(b"20231114T221320"); // Some(1700000000)
//! write_stamp(1_700_000_000, out)
//! ```
#![tactic(auto)]

mod attributes;
mod codes;
mod ids;
mod laws;
mod name;
mod operations;
mod stamps;
mod types;
mod urls;

pub use attributes::Attr;
pub use codes::{OtherNumber, Rsc};
pub use ids::{LARGEST_COUNT, digits_number, is_numeral, number_spelled, read_digits, read_id};
pub use laws::status_numbers_have_their_digits;
pub use name::{
    are_digits, are_graphic, is_filled, is_free_name, is_local_originator, is_name, is_originator,
    is_request_id, is_resource_id,
};
pub use operations::{ALL_BITS, DISCOVERY_BIT, Op};
pub use stamps::{LAST_MOMENT, read_stamp, write_stamp};
pub use types::{Ty, is_type_number};
pub use urls::{POINT_LIMIT, UrlParts, read_url};
