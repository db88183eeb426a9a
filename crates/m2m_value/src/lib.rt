//! JSON values (RFC 8259) as everything that is heard or said has them: their types, the reader of
//! their bytes, the writer of their compact text, sizes and copies. A number is whole and has 64
//! bits with its sign; texts and keys are UTF-8; an object has each key once, in the order of the
//! keys' bytes. The types keep this, and clauses see a value as a plain tree, `Data`, a text as the
//! list of its bytes, and an object's members as the list of its entries.
//!
//! What callers must do. `write`, `copy`, `size` and a value's drop go down it on the stack. What
//! `read` gives is at most 127 deep; who puts values into values keeps them about as shallow, and
//! `write` promises that a text is read back up to that depth.
//!
//! What it costs. A read of 64 KiB by `read` is what `serde_json` does (one pass for UTF-8, one that
//! marks where tokens are, one over the tokens, with one allocation for each text and key and some
//! for each list and object), and then one pass over the values, not the bytes: texts and keys are
//! moved, and each list and object is allocated once, at its length. It clears 16 KiB of room of
//! its own first. `read_in` has the caller's `Scratch`, which is kept from read to read and grows
//! to the longest text. It makes the value of what `json` reads, with no value of `serde_json`
//! between, and the keys that most requests have take no memory. A list of at least
//! `SharedItems::FROM` values takes one allocation more, in which its owners are counted. A copy
//! of the list is one more owner then: it takes no memory, and no time for what the list has. A
//! copy of anything else is one pass over it, with an allocation for each list, each object and
//! each text of more than `Text::ROOM` bytes. A write is one pass over the value, and its bytes go
//! straight to the end of `out`: no allocation where there is room for them, and otherwise those by
//! which a vector grows, some fifteen from nothing to 64 KiB. A size is one pass over the value,
//! without memory.
//!
//! ```text
//! let mut out = Vec::new(alloc);
//! write(&read(alloc, b"{ \"con\": 21 }")?, &mut out)?;
//! Ok(out) // {"con":21}
//! ```
#![tactic(auto)]

mod copy;
mod fault;
mod key;
mod known;
mod parsing;
mod parts;
mod plain;
mod reading;
mod same;
mod shapes;
mod size;
mod text;
mod value;
mod writing;

pub use fault::ValFault;
pub use json::Scratch;
pub use key::MemberKey;
pub use reading::{read, read_in};
pub use shapes::{count_of, is_label_text};
pub use std::alloc::AllocError as OutOfMemory;
pub use text::{Labels, Numbers, Text};
pub use value::{Items, Members, Node, SharedItems, Val};
pub use writing::write;
