//! The lines of a journal: what was done at a CSE, each at its moment, as text.
//!
//! The first line is the header: the number of the format, the home of the CSE, and the reading at
//! which its entity opened (specs/Header). `first_header` tells why a text isn't a journal of a
//! home.
//!
//! A deed is a request, the taking of an item from the outbox, or an expiry. It has two lines: `@`
//! and its moment, and a word: the request as a primitive (TS-0004, 8.2), `take` or `tick`
//! (specs/Lines). In a journal the mark `@2:` stands in front of them, which says the number of the
//! format: a journal may begin with a snapshot, which has a number of its own, and says nothing of
//! the deeds behind it. No byte below 32 stands inside a line, and what is written of a deed is
//! read back as it. A request that wouldn't be read back, since its content is too deep or its
//! expiry too long, is refused before anything of it is written.
//!
//! `first_deed` reads the lines at the front of a text and tells how many bytes they have. It gives
//! none where they are no such lines; callers then name the line. `begins_unmarked` tells where
//! they are those of the format 1, which had no mark. `push_dated` and `first_dated` write and read
//! two lines without the mark, for the lines of a snapshot.
//!
//! ```text
//! push_header(alloc, &mut text, &home, 1_700_000_000)?; // {"format":2,"home":{..},"opened":..}
//! push_request(alloc, &mut text, 1_700_000_000, &request)?; // @2:@1700000000 and the primitive
//! push_take(alloc, &mut text, 1_700_000_001)?; // @2:@1700000001 and `take`
//! let deed = first_deed(alloc, &mut scratch, &text)?; // with the length of its lines
//! ```
#![tactic(auto)]

mod deed;
mod header;
mod keeping;
mod laws;
mod primitive;
mod reading;
mod shallow;
mod writing;

pub use deed::{Dated, Deed};
pub use header::{HeaderFault, first_header, home_value, is_of_home, push_header};
pub use keeping::can_be_kept;
pub use laws::{
    deeds_are_read_back, headers_are_read_back, lines_have_one_end, old_deeds_are_told,
    what_is_read_is_spelled,
};
pub use reading::{begins_unmarked, first_dated, first_deed, line_len};
pub use shallow::is_within;
pub use std::alloc::AllocError as OutOfMemory;
pub use writing::{LineFault, push_dated, push_request, push_take, push_tick, push_value};
