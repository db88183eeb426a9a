//! Lines of JSON primitives, answered as they come (TS-0004, 8.2).
//!
//! Callers hand in a home, a source of lines, a sink and a link. `replay` opens an entity with that
//! home, and they see that what was written is the script of the lines that were taken: the replies
//! that the outcomes of a history of the machine give, and behind them the items that the history
//! leaves in the outbox (`specs/Script`); what a line is, and which is bad (`specs/Lines`); and why
//! it ended.
//!
//! Who answers lines of another form takes them by `next_line`, which is given that form
//! (`LineForm`): its limits and its ends of lines are the same.
//!
//! ```text
//! let home = Home::with_defaults(alloc)?;
//! let status = replay(alloc, home, input, out, link);
//! Ok(status) // Status::Done, or why it stopped
//! ```
#![tactic(auto)]

mod answer;
mod fault;
mod front;
mod items;
mod laws;
mod line;
mod line_buffer;
mod next;
mod replaying;
mod request_text;
mod waiting;

pub use answer::put_line;
pub use fault::LineFault;
pub use laws::a_stream_has_its_lines_in_one_way;
pub use line::{LINE_LIMIT, Line, LineForm, MOST_LINES, line_read};
pub use line_buffer::LineBuffer;
pub use next::next_line;
pub use replaying::{fault_status, replay};
pub use request_text::push_request;
