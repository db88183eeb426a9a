//! The outbox of an entity: the notifications and the other requests that it makes itself, which
//! wait there until they are sent or polled (TS-0001, 10.2.10 and 9.6.21).
//!
//! To callers an `Outbox` is the list of its items in the order in which they were appended, the
//! count of items that were ever numbered, and the room that is reserved (`OutboxData` of
//! `specs/Outbox`). An item has its number, the moment at which it was appended, and a note, whose
//! request has the number in its identifier. `reserve` takes all memory; `append`, the two takes
//! and `drop_old` take none and can't fail. `take_next` takes the first item that isn't for a
//! polling channel of the tree, `take_for` the first for a channel. `drop_old` drops what waited
//! the keeping time.
//!
//! An outbox is kept and made again by `copy`, `take_item`, `put_back` and `count_up_to`: the items
//! of a copy are taken one by one, and put into a new outbox under the numbers that they have.
//!
//! Inside, the items for each channel stand in a queue of their own, and so do those for none. So
//! no take looks at more than the first item of each queue, and nothing is moved. The list that
//! callers see is that of all queues together, by number. Numbers rise to 2^63 - 1 and stay there:
//! items that come then stand behind all queues, in one list.
//!
//! ```text
//! outbox.reserve(alloc, 1)?;              // before the first change of an operation
//! outbox.append(note, 1_700_000_000);     // can't fail
//! let note = outbox.take_next(&tree);     // what is to be sent next
//! ```
#![tactic(auto)]

mod aging;
mod copying;
mod item;
mod late;
mod numbering;
mod outbox;
mod places;
mod queues;
mod stock;

pub use item::Item;
pub use outbox::{KEEPING_TIME, Outbox};
pub use std::alloc::AllocError as OutOfMemory;
